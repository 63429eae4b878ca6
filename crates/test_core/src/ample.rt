//! Runs of a hub with ample memory: of each kind, strategy and error mode 200 drawn events of all four forms. None is
//! refused for want of memory, each observer is given what the history of the same events says, and nothing stays in use.

use crate::draws::Plan;
use crate::hubs::{Ran, joined, run_drawn};
use rx_heap::Heap;
use rx_note::{Answer, Errors, Refusal, Strategy};
use std::process::Abort;
use std::test::Fail;
use test_kit::Named;

const EVENTS: u32 = 200;

const KINDS: [Named; 8] = [
    Named::Publish,
    Named::Behavior(Some(b'z')),
    Named::Behavior(None),
    Named::Async,
    Named::Replay(None, None),
    Named::Replay(Some(3), None),
    Named::Replay(None, Some(20)),
    Named::Replay(Some(3), Some(20)),
];

// Of each join the strategy and the error mode; and whether the end is an error.
const PLANS: &[(Strategy, Errors, bool)] = &[
    (Strategy::Buffer, Errors::Delay, false),
    (Strategy::Buffer, Errors::Delay, true),
    (Strategy::Buffer, Errors::Ahead, true),
    (Strategy::Drop(2), Errors::Delay, false),
    (Strategy::Drop(2), Errors::Delay, true),
    (Strategy::Drop(2), Errors::Ahead, true),
    (Strategy::Latest(2), Errors::Delay, false),
    (Strategy::Latest(2), Errors::Delay, true),
    (Strategy::Latest(2), Errors::Ahead, true),
    (Strategy::Bounded(2), Errors::Delay, false),
    (Strategy::Bounded(2), Errors::Delay, true),
    (Strategy::Bounded(2), Errors::Ahead, true),
];

// Hands the table out, so that what goes over it is proved without its rows.
fn plans() -> &'static [(Strategy, Errors, bool)] {
    PLANS
}

impl Ran {
    fn answers(&self, answered: Result<Answer, Refusal>) -> bool {
        self.run.steps.iter().any(|step| step.result == answered)
    }

    // What is wrong with it; no text where nothing is.
    fn fault(&self) -> Result<&'static str, Fail> {
        let has_each_form = joined(self.run.steps.as_slice()) > Some(0)
            && self.answers(Ok(Answer::Admitted))
            && self.answers(Ok(Answer::Asked))
            && self.answers(Ok(Answer::Left));
        if self.answers(Err(Refusal::Memory)) {
            Ok("want of memory")
        } else if self.run.steps.len() != EVENTS as usize {
            Ok("answers")
        } else if !has_each_form {
            Ok("forms of events")
        } else if self.differs()?.is_some() {
            Ok("notes given")
        } else {
            Ok("")
        }
    }
}

fn fault_of(
    heap: &Heap,
    named: Named,
    strategy: Strategy,
    errors: Errors,
    fails: bool,
) -> Result<&'static str, Fail> {
    let plan = Plan {
        events: EVENTS,
        policy: Some((strategy, errors)),
        fails,
        items: u32::MAX,
    };
    let ran = run_drawn(heap, named, plan)?;
    ran.fault()
}

// Nothing is wrong with the runs of a kind, and each gives back what it took.
fn expect_no_fault(rt: &impl Abort, heap: &Heap, named: Named) -> Result<(), Fail> {
    for (strategy, errors, fails) in plans() {
        let fault = fault_of(heap, named, *strategy, *errors, *fails)?;
        assert_eq!(rt; fault, "", "{named:?} {strategy:?} {errors:?}");
        assert_eq!(rt; heap.used(), 0, "{named:?} {strategy:?} {errors:?}");
    }
    Ok(())
}

#[test]
fn nothing_refused_with_memory(rt: HostRuntime) -> Result<(), Fail> {
    let heap = Heap::with_budget(rt.alloc(), u64::MAX)?;
    for named in &KINDS {
        expect_no_fault(&rt, &heap, *named)?;
    }
    Ok(())
}
