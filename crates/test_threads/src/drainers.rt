//! Drainers: one whose sink fails at each of its notes, also with each growth refused in its turn, and two that are at work at
//! the same time.
//!
//! What a drainer did is told by the notes that its sink took, `|`, and what it sent its subject: `r` and `d` with the observer
//! for a request of one item and for a disposal, `.` for the Bye. `!` alone is told where there was no memory for the drainer.

ghost use Rattle.rx_mailbox.specs.PortRows.{IsFresh};
ghost use Rattle.std.specs.Prelude.{◌≡◌, []};

use crate::boxes::{copy, finish, first_of_two, send, two, unlimited};
use crate::expectations::{expect_count, expect_that, expect_told, expect_words};
use rx_drain::{DrainEnd, Drainer, MemorySink, PutAway, RunningDrainer, Sink, start_drainer};
use rx_heap::Heap;
use rx_mailbox::{Inbox, Port, Post};
use rx_note::{Event, Note};
use rx_pump::{Call, Out};
use std::alloc::Global;
use std::process::Abort;
use std::sync::atomic::AtomicU64;
use std::sync::{Arc, Wait};
use std::test::Fail;
use std::thread::Threads;
use std::time::Clock;
use test_kit::{Meeting, Refusable, Seen, Tale, Told, note_of, refuse_in_turn};

/// The note of a sign.
pub(crate) fn note(rt: &impl Abort, heap: &Heap, sign: u8) -> Note {
    note_of(heap, sign).expect(rt, "a note")
}

/// A drainer of one subject; none where there was no memory for it.
pub(crate) fn drainer_of<S: Sink>(
    rt: &impl Abort,
    alloc: Heap,
    inbox: Inbox<Out<S>>,
    free: &Heap,
    subject: Port<Call<S>>,
) -> Option<Drainer<S>>
    requires ports { inbox.ports ≡ 2 }
    requires received { inbox.received ≡ [] }
    requires subject { IsFresh subject }
{
    let subjects = vec![in copy(rt, free); subject].expect(rt, "memory");
    Drainer::new(alloc, inbox, subjects).ok()
}

// Sends a drainer the sink of observer 0, and the notes of these signs for it.
fn send_notes<S: Sink>(
    rt: &(impl Wait + Abort),
    heap: &Heap,
    port: &mut Port<Out<S>>,
    sink: S,
    signs: &[u8],
) {
    send(rt, port, Out::Attach { who: 0, sink });
    for sign in signs {
        let note = note(rt, heap, *sign);
        send(rt, port, Out::Give { who: 0, note });
    }
}

// Sends a drainer the sink of observer 0, the notes of these signs for it, and all Byes.
fn fill<S: Sink>(
    rt: &(impl Wait + Abort),
    heap: &Heap,
    pump: Port<Out<S>>,
    leave: Port<Out<S>>,
    sink: S,
    signs: &[u8],
) {
    let mut pump = pump;
    send_notes(rt, heap, &mut pump, sink, signs);
    drop(finish(rt, pump));
    drop(finish(rt, leave));
}

// The box of a drainer that has the sink of observer 0, the notes of these signs for it, and all Byes.
fn filled_box<S: Sink>(
    rt: &(impl Wait + Abort),
    free: &Heap,
    sink: S,
    signs: &[u8],
) -> Inbox<Out<S>>
    ensures ports { result.ports ≡ 2 }
    ensures received { result.received ≡ [] }
{
    let (inbox, pump, leave) = two::<Out<S>>(rt, copy(rt, free), 16);
    fill(rt, free, pump, leave, sink, signs);
    inbox
}

// A drainer of one subject with such a box, and the calls to its subject.
fn filled<S: Sink>(
    rt: &(impl Wait + Abort),
    free: &Heap,
    alloc: Heap,
    sink: S,
    signs: &[u8],
) -> (Option<Drainer<S>>, Inbox<Call<S>>) {
    let inbox = filled_box(rt, free, sink, signs);
    let (calls, subject) = first_of_two::<Call<S>>(rt, copy(rt, free), 16);
    (drainer_of(rt, alloc, inbox, free, subject), calls)
}

// A request for several items stands for so many requests.
fn put_event(told: &mut Told, event: &Event) {
    let (sign, who, times) = match event {
        Event::Request { who, n } => (b'r', *who, *n),
        Event::Dispose { who } => (b'd', *who, 1),
        _ => (b'?', 0, 1),
    };
    for _ in 0..times {
        told.put(sign);
        told.put_digit(who as usize);
    }
}

/// Puts what one letter to a subject says.
pub(crate) fn put_call<S: Sink>(told: &mut Told, post: &Post<Call<S>>) {
    match post {
        Post::Body(call) => put_event(told, &call.event),
        Post::Bye => told.put(b'.'),
    }
}

// Puts what was sent to a subject.
fn put_calls<S: Sink>(rt: &impl Wait, told: &mut Told, calls: &mut Inbox<Call<S>>) {
    for _ in 0..16 {
        let Ok(letter) = calls.recv(rt) else {
            break;
        };
        put_call(told, &letter.post);
    }
}

fn served<S: Sink>(rt: &(impl Wait + Abort), drainer: Drainer<S>) -> DrainEnd<S> {
    match drainer.serve(rt) {
        Ok(end) => end,
        Err(_) => panic!(rt; "the drainer stopped"),
    }
}

// What the sinks of a drainer took that has ended.
fn tale_of_end(end: &DrainEnd<MemorySink>) -> Tale {
    let mut told = Told::new();
    for away in end.put_away.as_slice() {
        told.put_notes(away.rest.as_slice());
    }
    told.put(b'|');
    Tale {
        told,
        misses: end.places.misses(),
    }
}

// What is told of a drainer, or where there was no memory for it.
fn tale_of_drainer(rt: &(impl Wait + Abort), drainer: Option<Drainer<MemorySink>>) -> Tale {
    match drainer {
        Some(drainer) => tale_of_end(&served(rt, drainer)),
        None => {
            let mut told = Told::new();
            told.put(b'!');
            Tale { told, misses: 0 }
        }
    }
}

// Puts what was sent to its subject, where there was a drainer.
fn with_calls(rt: &impl Wait, tale: Tale, calls: &mut Inbox<Call<MemorySink>>) -> Tale {
    let mut tale = tale;
    if tale.told.as_bytes() != b"!".as_slice() {
        put_calls(rt, &mut tale.told, calls);
    }
    tale
}

// What is told of a drainer whose sink fails from a note on; the drainer and the sink grow by `tight`.
fn tale_of(rt: &(impl Wait + Abort), free: &Heap, tight: &Heap, fail_at: Option<u32>) -> Tale {
    let sink = MemorySink::new(copy(rt, tight), fail_at);
    let inbox = filled_box(rt, free, sink, b"abc");
    let (mut calls, subject) = first_of_two::<Call<MemorySink>>(rt, copy(rt, free), 16);
    let drainer = drainer_of(rt, copy(rt, tight), inbox, free, subject);
    let tale = tale_of_drainer(rt, drainer);
    with_calls(rt, tale, &mut calls)
}

// The note at which a sink fails, and what is told: as many requests as it took notes, and one disposal.
const FAULTS: [(Option<u32>, &str); 5] = [
    (Some(0), "|d0."),
    (Some(1), "a|r0d0."),
    (Some(2), "ab|r0r0d0."),
    (Some(3), "abc|r0r0r0d0."),
    (None, "abc|r0r0r0d0."),
];

// Nothing is in use behind a drainer, its sink and their boxes.
#[test]
fn sink_fails_at_each_note(rt: HostRuntime) -> Result<(), Fail> {
    let heap = Heap::with_budget(rt.alloc(), u64::MAX)?;
    for (fail_at, wanted) in &FAULTS {
        let tale = tale_of(&rt, &heap, &heap, *fail_at);
        expect_told(&rt, tale.told.as_bytes(), wanted, "a sink that fails");
        expect_count(&rt, tale.misses, 0, wanted);
        expect_count(&rt, heap.used(), 0, "bytes that were not given back");
    }
    Ok(())
}

// What is seen of a drainer whose sink fails only where there is no memory.
fn seen_of(tale: &Tale) -> Seen {
    let text = tale.told.as_bytes();
    let failed = text == b"|d0.".as_slice();
    let unmade = text == b"!".as_slice();
    Seen {
        is_made: !unmade,
        misses: u64::from(failed),
        is_right: tale.misses <= 1 && (failed || unmade || text == b"abc|r0r0r0d0.".as_slice()),
    }
}

// A drainer whose sink fails only where there is no memory.
#[derive(Drop)]
struct Drain<R>(R);

impl<R: Wait + Abort> Refusable for Drain<R> {
    fn run_by(&self, free: &Heap, tight: &Heap) -> Result<Seen, Fail> {
        let tale = tale_of(&self.0, free, tight, None);
        Ok(seen_of(&tale))
    }
}

#[test]
fn drainer_with_each_growth_refused(rt: HostRuntime) -> Result<(), Fail> {
    let refusals = refuse_in_turn(&Drain(rt), rt.alloc())?;
    expect_words(&rt, refusals.fault, "", "a drainer");
    // The list of ended ports; the spot of the sink, its place in the two lists, and the sink's own list.
    expect_count(&rt, refusals.unmade, 1, "unmade");
    expect_count(&rt, refusals.missed, 4, "missed");
    Ok(())
}

/// A drainer in a thread of its own, and the calls to its subject.
#[derive(Drop)]
struct Running<S: Sink> {
    drainer: RunningDrainer<S>,
    calls: Inbox<Call<S>>,
}

// A drainer that was started, whose sink is to meet another.
fn started<R: Threads + Wait + Abort + Clock + Clone + Drop + Send + 'static>(
    rt: &R,
    heap: &Heap,
    come: &Arc<AtomicU64, Global>,
) -> Running<Meeting<R>> {
    let sink = Meeting::of(rt, come).expect(rt, "a meeting");
    let (drainer, calls) = filled(rt, heap, copy(rt, heap), sink, b"a");
    match start_drainer(rt, drainer.expect(rt, "memory")) {
        Ok(drainer) => Running { drainer, calls },
        Err(_) => panic!(rt; "no thread"),
    }
}

// Whether one sink was put away, which has met.
fn is_one_met(put_away: &[PutAway<bool>]) -> bool {
    match put_away {
        [away] => away.rest,
        _ => false,
    }
}

// The end of a drainer that was started.
fn joined<R: Threads + Wait + Abort + Clock + Clone + Drop + Send + 'static>(
    rt: &R,
    drainer: RunningDrainer<Meeting<R>>,
) -> DrainEnd<Meeting<R>> {
    match drainer.join(rt) {
        Ok(end) => end,
        Err(_) => panic!(rt; "the drainer stopped"),
    }
}

// Whether the one sink of a drainer that was started has met.
fn has_met<R: Threads + Wait + Abort + Clock + Clone + Drop + Send + 'static>(
    rt: &R,
    drainer: RunningDrainer<Meeting<R>>,
) -> bool {
    is_one_met(joined(rt, drainer).put_away.as_slice())
}

// The sinks of two drainers that were started meet.
fn expect_both_meet<R: Threads + Wait + Abort + Clock + Clone + Drop + Send + 'static>(
    rt: &R,
    first: Running<Meeting<R>>,
    second: Running<Meeting<R>>,
) {
    let Running {
        drainer,
        calls: _first,
    } = first;
    let Running {
        drainer: other,
        calls: _second,
    } = second;
    expect_that(rt, has_met(rt, drainer), "the first drainer");
    expect_that(rt, has_met(rt, other), "the second drainer");
}

#[test]
fn two_drainers_meet(rt: HostRuntime) -> Result<(), Fail> {
    let heap = unlimited(&rt);
    let come = Arc::new(rt.alloc(), AtomicU64::new(0))?;
    expect_both_meet(&rt, started(&rt, &heap, &come), started(&rt, &heap, &come));
    Ok(())
}
