//! A sink that is left unserved is finished once, and is neither started nor handed a note.

use crate::boxes::{copy, finish, first_of_two, send, two, unlimited};
use crate::drainers::{drainer_of, note};
use crate::expectations::{expect_count, expect_that};
use rx_heap::Heap;
use rx_mailbox::Port;
use rx_note::Note;
use rx_pump::{Call, Out};
use rx_sink::{Flow, Sink, SinkFault};
use std::alloc::Global;
use std::process::Abort;
use std::sync::atomic::{AtomicU64, Ordering};
use std::sync::{Arc, Wait};
use std::test::Fail;

const STARTED: u64 = 1;

const TOOK: u64 = 10;

const FINISHED: u64 = 100;

/// Counts its calls in a number that its test reads: 1 for a start, 10 for a note, 100 for its finish.
#[derive(Drop)]
struct Counted {
    calls: Arc<AtomicU64, Global>,
}

impl Counted {
    fn count(&self, call: u64) {
        let before = self.calls.load(Ordering::SeqCst);
        self.calls
            .store(before.saturating_add(call), Ordering::SeqCst);
    }
}

impl Sink for Counted {
    type Rest = ();

    // No test rests on what a contract says of it, so none is told of its calls.
    ghost acts = { record {
      started = λ _ _ _. Unit {0};
      start_faulted = λ _ _ _. Unit {0};
      took = λ _ _ _ _. Unit {0};
      take_faulted = λ _ _ _. Unit {0};
      flushed = λ _ _ _. Unit {0};
      flush_faulted = λ _ _. Unit {0};
      finished = λ _ _. Unit {0};
      faults = λ _. 0;
    } };

    fn start(&mut self, _who: u32) -> Result<(), SinkFault> {
        self.count(STARTED);
        Ok(())
    }

    fn take(&mut self, _note: Note) -> Result<Flow, SinkFault> {
        self.count(TOOK);
        Ok(Flow::Clear)
    }

    fn flush(&mut self) -> Result<Flow, SinkFault> {
        Ok(Flow::Clear)
    }

    fn finish(self) {
        self.count(FINISHED);
    }
}

// By which port a sink comes, and when.
#[derive(Clone, Copy)]
enum Comes {
    // By its subject's, before the leave port's Bye or behind it.
    Early,
    Late,
    // By the leave port.
    ByLeave,
}

// The sink of observer 0 and a note for it.
fn send_sink(
    rt: &(impl Wait + Abort),
    heap: &Heap,
    port: &mut Port<Out<Counted>>,
    calls: &Arc<AtomicU64, Global>,
) {
    let calls = Arc::try_clone(calls).expect(rt, "memory");
    send(
        rt,
        port,
        Out::Attach {
            who: 0,
            sink: Counted { calls },
        },
    );
    let note = note(rt, heap, b'a');
    send(rt, port, Out::Give { who: 0, note });
}

// Sends a drainer sinks of observer 0, each with a note, and all Byes.
fn send_all(
    rt: &(impl Wait + Abort),
    heap: &Heap,
    pump: Port<Out<Counted>>,
    leave: Port<Out<Counted>>,
    comes: Comes,
    sinks: &[Arc<AtomicU64, Global>],
) {
    let mut pump = pump;
    let mut leave = leave;
    match comes {
        Comes::Early => {
            for calls in sinks {
                send_sink(rt, heap, &mut pump, calls);
            }
            drop(finish(rt, leave));
        }
        Comes::Late => {
            drop(finish(rt, leave));
            for calls in sinks {
                send_sink(rt, heap, &mut pump, calls);
            }
        }
        Comes::ByLeave => {
            for calls in sinks {
                send_sink(rt, heap, &mut leave, calls);
            }
            drop(finish(rt, leave));
        }
    }
    drop(finish(rt, pump));
}

// A drainer that grows by `tight` is sent these sinks, and serves to its end.
fn serve_sinks(
    rt: &(impl Wait + Abort),
    free: &Heap,
    tight: &Heap,
    comes: Comes,
    sinks: &[Arc<AtomicU64, Global>],
) {
    let (inbox, pump, leave) = two::<Out<Counted>>(rt, copy(rt, free), 16);
    let (_calls, subject) = first_of_two::<Call<Counted>>(rt, copy(rt, free), 16);
    let drainer = drainer_of(rt, copy(rt, tight), inbox, free, subject).expect(rt, "a drainer");
    send_all(rt, free, pump, leave, comes, sinks);
    expect_that(rt, drainer.serve(rt).is_ok(), "the drainer's end");
}

// What was counted of two sinks that came so, one after the other.
fn expect_calls(
    rt: &(impl Wait + Abort),
    free: &Heap,
    tight: &Heap,
    comes: Comes,
    wanted: [u64; 2],
    alloc: Global,
    row: &str,
) -> Result<(), Fail> {
    let first = Arc::new(alloc, AtomicU64::new(0))?;
    let second = Arc::new(alloc, AtomicU64::new(0))?;
    let sinks = vec![in alloc; Arc::try_clone(&first)?, Arc::try_clone(&second)?]?;
    serve_sinks(rt, free, tight, comes, sinks.as_slice());
    expect_count(rt, first.load(Ordering::SeqCst), wanted[0], row);
    expect_count(rt, second.load(Ordering::SeqCst), wanted[1], row);
    Ok(())
}

#[test]
fn sinks_that_are_left_unserved(rt: HostRuntime) -> Result<(), Fail> {
    let alloc = rt.alloc();
    let free = unlimited(&rt);
    // The first is served both notes, since it is kept when the second comes.
    expect_calls(&rt, &free, &free, Comes::Early, [121, 100], alloc, "twice")?;
    expect_calls(&rt, &free, &free, Comes::Late, [100, 100], alloc, "late")?;
    expect_calls(
        &rt,
        &free,
        &free,
        Comes::ByLeave,
        [100, 100],
        alloc,
        "leave",
    )?;
    // There is memory for the drainer, and none for the place of the first; the second has one.
    let tight = Heap::refusing(alloc, 1)?;
    expect_calls(
        &rt,
        &free,
        &tight,
        Comes::Early,
        [100, 111],
        alloc,
        "memory",
    )?;
    Ok(())
}
