//! The callers of a server of one subject, which holds one observer at a time.

ghost use Rattle.std.specs.Prelude.{◌≡◌};

use rx_caller::{Caller, CallerError, Callers, EndedCaller, NotJoined};
use rx_heap::Heap;
use rx_note::{Errors, Item, Note, Policy, Refusal, Strategy, Text};
use rx_server::{CloseCause, Config, Report, start};
use rx_sink::MemorySink;
use std::alloc::Global;
use std::fmt::Display;
use std::process::Abort;
use std::sync::Wait;
use std::test::Fail;
use std::thread::Threads;
use test_kit::Told;

// What a server and its callers are handed.
trait Host: Threads + Wait + Abort + Clone + Drop + Send + 'static {}

impl<T: Threads + Wait + Abort + Clone + Drop + Send + 'static> Host for T {}

fn copy(rt: &impl Abort, heap: &Heap) -> Heap {
    heap.clone().expect(rt, "a handle")
}

// A text of one byte.
fn text_of(rt: &impl Abort, heap: &Heap, byte: u8) -> Text {
    Text::new(copy(rt, heap), &[byte]).expect(rt, "a text")
}

// One subject, which holds one observer at a time, for one caller.
fn config_of(rt: &impl Abort, heap: &Heap) -> Config {
    let mut config = Config::standard(copy(rt, heap)).expect(rt, "memory");
    config.subjects[0].rules.limits.observers = 1;
    config.workers = 1;
    config
}

fn callers_of(rt: &impl Host, heap: &Heap) -> Callers<MemorySink> {
    match start(rt, copy(rt, heap), config_of(rt, heap)) {
        Ok(server) => Callers::of(server, copy(rt, heap)),
        Err(_) => panic!(rt; "the server was not started"),
    }
}

// A call of a caller.
#[derive(Clone, Copy, Debug)]
enum Step {
    Publish,
    Emit,
    Join,
    Request(u32, u32),
    Dispose(u32),
    Fail,
    Complete,
}

// What one is told: nothing, or the number of an observer.
type Outcome = Result<Option<u32>, CallerError>;

// Of each call its subject, of which there is one, and what it is told.
const RUN: &[(usize, Step, Outcome)] = &[
    (1, Step::Publish, Err(CallerError::NoSubject)),
    (1, Step::Join, Err(CallerError::NoSubject)),
    (0, Step::Join, Ok(Some(0))),
    (0, Step::Join, Err(CallerError::Refused(Refusal::Full))),
    (0, Step::Publish, Ok(None)),
    (0, Step::Emit, Ok(None)),
    (0, Step::Request(0, 2), Ok(None)),
    (
        0,
        Step::Request(0, 0),
        Err(CallerError::Refused(Refusal::ZeroRequest)),
    ),
    (
        0,
        Step::Request(1, 2),
        Err(CallerError::Refused(Refusal::NoObserver)),
    ),
    (0, Step::Dispose(0), Ok(None)),
    (
        0,
        Step::Dispose(0),
        Err(CallerError::Refused(Refusal::NoObserver)),
    ),
    (0, Step::Join, Ok(Some(1))),
    (0, Step::Publish, Ok(None)),
    (0, Step::Fail, Ok(None)),
    (0, Step::Complete, Err(CallerError::Refused(Refusal::Ended))),
    (0, Step::Publish, Err(CallerError::Refused(Refusal::Ended))),
];

// Hands the table out, so that what goes over it is proved without its rows.
fn run() -> &'static [(usize, Step, Outcome)] {
    RUN
}

// What the sinks of the observers 0 and 1 took: of the first what was emitted before it left.
const TOOK: &str = "0ae1a!";

// Joins an observer, whose sink comes back where it is refused.
fn join_one<R: Wait + Abort>(
    rt: &R,
    heap: &Heap,
    caller: &mut Caller<MemorySink>,
    subject: usize,
) -> Outcome
    ensures { caller.new.made ≡ caller.old.made }
{
    let policy = Policy::new(Strategy::Buffer, Errors::Delay).expect(rt, "a policy");
    let sink = MemorySink::new(copy(rt, heap), None);
    match caller.join(rt, subject, policy, 8, sink) {
        Ok(who) => Ok(Some(who)),
        Err(NotJoined { cause, sink }) => {
            assert!(rt; sink.is_some(), "the sink of {cause}");
            Err(cause)
        }
    }
}

fn go<R: Wait + Abort>(
    rt: &R,
    heap: &Heap,
    caller: &mut Caller<MemorySink>,
    subject: usize,
    step: Step,
) -> Outcome
    ensures { caller.new.made ≡ caller.old.made }
{
    let called = match step {
        Step::Publish => caller.publish(rt, subject, text_of(rt, heap, b'a')),
        Step::Emit => {
            let note = Note::Next(Item::new(text_of(rt, heap, b'e')));
            caller.emit(rt, subject, note)
        }
        Step::Join => return join_one(rt, heap, caller, subject),
        Step::Request(who, n) => caller.request(rt, subject, who, n),
        Step::Dispose(who) => caller.dispose(rt, subject, who),
        Step::Fail => caller.fail(rt, subject, text_of(rt, heap, b'x')),
        Step::Complete => caller.complete(rt, subject),
    };
    match called {
        Ok(()) => Ok(None),
        Err(error) => Err(error),
    }
}

// Each call is told what it is to be.
fn go_all<R: Wait + Abort>(rt: &R, heap: &Heap, caller: &mut Caller<MemorySink>)
    ensures { caller.new.made ≡ caller.old.made }
{
    for (subject, step, wanted) in run() {
        let told = go(rt, heap, caller, *subject, *step);
        assert_eq!(rt; told, *wanted, "{step:?} of {subject}");
    }
}

// What a caller leaves behind these calls.
fn finished<R: Wait + Abort>(
    rt: &R,
    heap: &Heap,
    caller: Caller<MemorySink>,
) -> EndedCaller<MemorySink>
    ensures { result.made ≡ caller.made }
{
    let mut caller = caller;
    go_all(rt, heap, &mut caller);
    match caller.finish(rt) {
        Ok(ended) => ended,
        Err(_) => panic!(rt; "the caller did not end"),
    }
}

// Puts the notes that the sink of an observer took behind its number.
fn put_taken(told: &mut Told, report: &Report<MemorySink>, who: u32) {
    told.put_digit(who as usize);
    for rests in &report.put_away {
        for away in rests.as_slice() {
            if away.who == who {
                told.put_notes(away.rest.as_slice());
            }
        }
    }
}

fn expect_taken(rt: &impl Abort, report: &Report<MemorySink>) {
    let mut told = Told::new();
    put_taken(&mut told, report, 0);
    put_taken(&mut told, report, 1);
    assert_eq!(rt; told.as_bytes(), TOOK.as_bytes());
}

#[test]
fn each_call_tells_its_answer(rt: HostRuntime) {
    let heap = Heap::unlimited(rt.alloc());
    let mut callers = callers_of(&rt, &heap);
    let caller = callers.next().expect(&rt, "a caller");
    assert!(&rt;
        caller.subjects() == 1 && callers.next().is_err(),
        "one subject and one desk"
    );
    let ended = finished(&rt, &heap, caller);
    callers.take(ended).expect(&rt, "memory");
    match callers.close(&rt) {
        Ok(report) => expect_taken(&rt, &report),
        Err(fault) => panic!(&rt; "{fault}"),
    }
}

// What becomes of the one caller of a server.
#[derive(Clone, Copy, Debug)]
enum Leaving {
    NeverThere,
    LetGo,
    NotTaken,
}

// Why a server of which this becomes is not closed with a report; None where it is.
fn cause_by(rt: &impl Host, heap: &Heap, leaving: Leaving) -> Option<CloseCause> {
    let mut callers = callers_of(rt, heap);
    match leaving {
        Leaving::NeverThere => {}
        Leaving::LetGo => drop(callers.next()),
        Leaving::NotTaken => {
            let caller = callers.next().expect(rt, "a caller");
            drop(caller.finish(rt));
        }
    }
    match callers.close(rt) {
        Ok(_) => None,
        Err(fault) => Some(fault.cause),
    }
}

#[test]
fn who_does_not_come_back_is_missed(rt: HostRuntime) {
    let heap = Heap::unlimited(rt.alloc());
    for (leaving, wanted) in &[
        (Leaving::NeverThere, None),
        (Leaving::LetGo, Some(CloseCause::Unsettled)),
        (Leaving::NotTaken, Some(CloseCause::Unsettled)),
    ] {
        assert_eq!(&rt; cause_by(&rt, &heap, *leaving), *wanted, "{leaving:?}");
    }
}

fn expect_text(
    rt: &impl Abort,
    alloc: Global,
    fault: &impl Display,
    text: &str,
) -> Result<(), Fail> {
    let words = format!(in alloc; "{fault}")?;
    assert_eq!(rt; words.as_str(), text);
    Ok(())
}

#[test]
fn texts_of_a_callers_faults(rt: HostRuntime) -> Result<(), Fail> {
    for (cause, text) in &[
        (CallerError::NoDesk, "no desk is left"),
        (
            CallerError::NoSubject,
            "the server has no subject of this number",
        ),
        (CallerError::Gone, "the subject is gone"),
        (
            CallerError::Refused(Refusal::Full),
            "refused: as many observers are held as may be",
        ),
    ] {
        expect_text(&rt, rt.alloc(), cause, text)?;
        let refused: NotJoined<bool> = NotJoined {
            cause: *cause,
            sink: None,
        };
        expect_text(&rt, rt.alloc(), &refused, text)?;
    }
    Ok(())
}
