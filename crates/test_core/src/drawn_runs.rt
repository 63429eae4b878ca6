//! Drawn events, by what they show: the run of a hub of each kind gives what the history of the same events says, and shows
//! enough of what its kind does; and lines are shorter where a kind or a strategy is to leave something out.

use crate::draws::Plan;
use crate::heaps::unlimited;
use crate::hubs::{OBSERVERS, Ran, Reading, joined, reading_of, run_drawn};
use rx_heap::Heap;
use rx_hub::{NoObserver, Step};
use rx_note::{Answer, Errors, Given, Note, Refusal, Strategy};
use std::process::Abort;
use std::test::Fail;
use test_kit::{Named, sign_of};

// 400 events, whose end is an error or not.
fn plan_of(fails: bool) -> Plan {
    Plan {
        events: 400,
        policy: None,
        fails,
        items: u32::MAX,
    }
}

// How many observers left.
fn left(steps: &[Step]) -> u32 {
    let mut left: u32 = 0;
    for step in steps {
        if step.result == Ok(Answer::Left) {
            left = left.saturating_add(1);
        }
    }
    left
}

// How many events were refused, where none was for want of memory.
fn refused(steps: &[Step]) -> Option<u32> {
    let mut refused: u32 = 0;
    for step in steps {
        match step.result {
            Err(Refusal::Memory) => return None,
            Err(_) => refused = refused.saturating_add(1),
            Ok(_) => {}
        }
    }
    Some(refused)
}

// How many observers joined after an emission had been refused since the subject had ended.
fn joined_after_end(steps: &[Step]) -> u32 {
    let mut is_ended = false;
    let mut joined: u32 = 0;
    for step in steps {
        match step.result {
            Err(Refusal::Ended) => is_ended = true,
            Ok(Answer::Joined(_)) if is_ended => joined = joined.saturating_add(1),
            _ => {}
        }
    }
    joined
}

// How many observers were given an item as they joined.
fn opened_with_items(steps: &[Step], outs: &[Given]) -> u32 {
    let mut outs_to: usize = 0;
    let mut opened: u32 = 0;
    for step in steps {
        let is_join = matches!(step.result, Ok(Answer::Joined(_)));
        if is_join && step.outs_to > outs_to && is_item(outs.get(outs_to)) {
            opened = opened.saturating_add(1);
        }
        outs_to = step.outs_to;
    }
    opened
}

fn is_item(given: Option<&Given>) -> bool {
    match given {
        Some(given) => matches!(&given.note, Note::Next(_)),
        None => false,
    }
}

// How often a seed was given.
fn seeds(outs: &[Given]) -> u32 {
    let mut seeds: u32 = 0;
    for given in outs {
        match &given.note {
            Note::Next(item) if item.is_seed() => seeds = seeds.saturating_add(1),
            _ => {}
        }
    }
    seeds
}

// How many observers were given an overflow.
fn overflows(outs: &[Given]) -> u32 {
    let mut overflows: u32 = 0;
    for given in outs {
        if sign_of(&given.note) == b'%' {
            overflows = overflows.saturating_add(1);
        }
    }
    overflows
}

impl Ran {
    fn shown(&self) -> Result<Shown, Fail> {
        let steps = self.run.steps.as_slice();
        let outs = self.run.outs.as_slice();
        let observers = self.hub.observers();
        Ok(Shown {
            answers: steps.len(),
            outs: outs.len(),
            joined: joined(steps),
            left: left(steps),
            refused: refused(steps),
            joined_after_end: joined_after_end(steps),
            opened_with_items: opened_with_items(steps, outs),
            seeds: seeds(outs),
            overflows: overflows(outs),
            observers,
            past_them: self.hub.waiting_of(joined(steps).unwrap_or(0)),
            differs: self.differs()?,
        })
    }
}

/// What a drawn run shows: numbers of answers, of notes given, of overflows among them and of observers, by the answers and by
/// the hub, how many notes wait for the observer past them, and the first one for whom the run and the history differ.
#[derive(Clone, Copy)]
struct Shown {
    answers: usize,
    outs: usize,
    joined: Option<u32>,
    left: u32,
    refused: Option<u32>,
    joined_after_end: u32,
    opened_with_items: u32,
    seeds: u32,
    overflows: u32,
    observers: u32,
    past_them: Result<usize, NoObserver>,
    differs: Option<u32>,
}

fn shown_of(heap: &Heap, named: Named, fails: bool) -> Result<Shown, Fail> {
    let drawn = run_drawn(heap, named, plan_of(fails))?;
    drawn.shown()
}

// What is wrong with the run of a kind that is to give so many notes at least, overflows if it is to overflow, items to joiners
// or none, and seeds or none; no text where nothing is.
fn fault_of(
    shown: &Shown,
    fewest_outs: usize,
    overflows: bool,
    opens: bool,
    seeds: bool,
) -> &'static str {
    if shown.answers != 400 {
        "answers"
    } else if shown.outs < fewest_outs {
        "notes given"
    } else if overflows && shown.overflows == 0 {
        "overflows"
    } else if shown.joined != Some(shown.observers.saturating_add(shown.left)) {
        "observers"
    } else if shown.observers < 10 || shown.left < 3 {
        "observers held and left"
    } else if shown.refused < Some(10) {
        "refusals"
    } else if shown.joined_after_end == 0 {
        "joins after the end"
    } else if (shown.opened_with_items > 0) != opens {
        "items given to joiners"
    } else if (shown.seeds > 0) != seeds {
        "seeds"
    } else if shown.past_them != Err(NoObserver) {
        "an observer past the last"
    } else {
        ""
    }
}

// The kinds of the drawn runs; of each whether its end is an error, how many notes it gives at least, whether it is to overflow
// (of Async one item at most is offered), whether it gives items to joiners, and whether it gives seeds.
const DRAWN_KINDS: &[(Named, bool, usize, bool, bool, bool)] = &[
    (Named::Publish, false, 100, true, false, false),
    (Named::Behavior(Some(b'z')), false, 100, true, true, true),
    (Named::Behavior(None), false, 100, true, true, false),
    (Named::Async, false, 20, false, true, false),
    (Named::Replay(None, None), false, 100, true, true, false),
    (Named::Replay(Some(3), None), false, 100, true, true, false),
    (Named::Replay(None, Some(20)), false, 100, true, true, false),
    (
        Named::Replay(Some(3), Some(20)),
        false,
        100,
        true,
        true,
        false,
    ),
    (Named::Async, true, 5, false, false, false),
    (Named::Replay(Some(3), None), true, 100, true, true, false),
];

// Hands the table out, so that what goes over it is proved without its rows.
fn drawn_kinds() -> &'static [(Named, bool, usize, bool, bool, bool)] {
    DRAWN_KINDS
}

// Nothing is wrong with the run of a kind, and it differs from the history for no observer.
fn expect_right(rt: &impl Abort, fault: &str, differs: Option<u32>, named: Named) {
    assert_eq!(rt; fault, "", "{named:?}");
    assert!(rt; differs.is_none(), "{named:?}");
}

#[test]
fn a_run_gives_what_the_history_says(rt: HostRuntime) -> Result<(), Fail> {
    for (named, fails, fewest_outs, overflows, opens, seeds) in drawn_kinds() {
        let shown = shown_of(&unlimited(&rt), *named, *fails)?;
        let fault = fault_of(&shown, *fewest_outs, *overflows, *opens, *seeds);
        expect_right(&rt, fault, shown.differs, *named);
    }
    Ok(())
}

// The drawn events, read by this kind, their joins put under Buffer or not.
fn reading_by(heap: &Heap, named: Named, buffers: bool) -> Result<Reading, Fail> {
    let mut plan = plan_of(false);
    if buffers {
        plan.policy = Some((Strategy::Buffer, Errors::Delay));
    }
    reading_of(heap, named, plan)
}

impl Reading {
    fn line_len(&self, who: u32) -> Result<usize, Fail> {
        Ok(self.history.line(&self.rules, who)?.len())
    }

    // How many observers have a shorter line than by another reading.
    fn count_shorter(&self, whole: &Reading) -> Result<u32, Fail> {
        let mut shorter: u32 = 0;
        for who in 0..OBSERVERS {
            if self.line_len(who)? < whole.line_len(who)? {
                shorter = shorter.saturating_add(1);
            }
        }
        Ok(shorter)
    }

    // How many observers have a shorter line than by this kind, with all joins under Buffer.
    fn shorter_than(&self, heap: &Heap, named: Named) -> Result<u32, Fail> {
        let whole = reading_by(heap, named, true)?;
        self.count_shorter(&whole)
    }
}

// Two readings of the drawn events: the first by this kind, its joins put under Buffer or not; the second by this kind, all
// joins under Buffer; and how many observers at least have a shorter line by the first.
type Pair = (Named, bool, Named, u32);

const PAIRS: &[Pair] = &[
    (Named::Publish, false, Named::Publish, 5),
    (Named::Async, true, Named::Publish, 1),
    (Named::Publish, true, Named::Behavior(None), 1),
    (Named::Behavior(None), true, Named::Behavior(Some(b'z')), 1),
    (Named::Publish, true, Named::Replay(Some(3), Some(20)), 1),
    (
        Named::Replay(Some(3), Some(20)),
        true,
        Named::Replay(Some(3), None),
        1,
    ),
    (
        Named::Replay(Some(3), Some(20)),
        true,
        Named::Replay(None, Some(20)),
        1,
    ),
    (
        Named::Replay(Some(3), None),
        true,
        Named::Replay(None, None),
        1,
    ),
    (
        Named::Replay(None, Some(20)),
        true,
        Named::Replay(None, None),
        1,
    ),
];

// Hands the table out, so that what goes over it is proved without its rows.
fn pairs() -> &'static [Pair] {
    PAIRS
}

fn shorter(heap: &Heap, pair: &Pair) -> Result<u32, Fail> {
    let reading = reading_by(heap, pair.0, pair.1)?;
    reading.shorter_than(heap, pair.2)
}

// As many observers have a shorter line.
fn expect_fewer(rt: &impl Abort, fewer: u32, pair: &Pair) {
    assert!(rt; fewer >= pair.3, "{:?} and {:?}", pair.0, pair.2);
}

#[test]
fn lines_of_the_drawn_events_are_shorter(rt: HostRuntime) -> Result<(), Fail> {
    for pair in pairs() {
        let fewer = shorter(&unlimited(&rt), pair)?;
        expect_fewer(&rt, fewer, pair);
    }
    Ok(())
}

// How many items are accepted at most in the runs with a limit.
const FEW_ITEMS: u32 = 20;

// How many events were refused since a limit was reached: of joins, or of items.
fn spent(steps: &[Step]) -> u32 {
    let mut spent: u32 = 0;
    for step in steps {
        if step.result == Err(Refusal::Spent) {
            spent = spent.saturating_add(1);
        }
    }
    spent
}

// The greatest place of an item given, but for a seed.
fn last_place(outs: &[Given]) -> Option<u32> {
    let mut last = None;
    for given in outs {
        match &given.note {
            Note::Next(item) if !item.is_seed() => last = last.max(Some(item.place)),
            _ => {}
        }
    }
    last
}

// What a run with a limit of items shows.
#[derive(Clone, Copy)]
struct Limited {
    spent: u32,
    last: Option<u32>,
    differs: Option<u32>,
}

fn limited_run(heap: &Heap, named: Named, fails: bool) -> Result<Limited, Fail> {
    let mut plan = plan_of(fails);
    plan.items = FEW_ITEMS;
    let ran = run_drawn(heap, named, plan)?;
    Ok(Limited {
        spent: spent(ran.run.steps.as_slice()),
        last: last_place(ran.run.outs.as_slice()),
        differs: ran.differs()?,
    })
}

// Many events were refused, the last item that was accepted is given but where an Async subject fails, and the run differs from
// the history for no observer.
fn expect_limited(rt: &impl Abort, run: &Limited, gives: bool, named: Named) {
    let last = if gives { Some(FEW_ITEMS - 1) } else { None };
    assert!(rt; run.spent > 50, "{named:?}");
    assert!(rt; run.last == last, "{named:?}");
    assert!(rt; run.differs.is_none(), "{named:?}");
}

#[test]
fn a_run_with_a_limit_of_items(rt: HostRuntime) -> Result<(), Fail> {
    for (named, fails, _, _, _, _) in drawn_kinds() {
        let run = limited_run(&unlimited(&rt), *named, *fails)?;
        let gives = !(*fails && matches!(*named, Named::Async));
        expect_limited(&rt, &run, gives, *named);
    }
    Ok(())
}
