//! A thread that stops at a fault of its own lets go of all but that, so that nobody waits for it.

use crate::boxes::{copy, first_of_two, send, two, unlimited};
use crate::drainers::{drainer_of, note};
use crate::expectations::expect_that;
use rx_drain::{DrainFault, MemorySink, RunningDrainer, start_drainer};
use rx_heap::Heap;
use rx_mailbox::{Inbox, Port, Post};
use rx_pump::{Call, Out};
use std::process::Abort;
use std::sync::Wait;
use std::thread;
use std::thread::Threads;
use std::time::{Clock, Duration};

// A drainer that runs, its subject's ends, and the other subject's inbox.
#[derive(Drop)]
struct Parts {
    drainer: RunningDrainer<MemorySink>,
    pump: Port<Out<MemorySink>>,
    leave: Port<Out<MemorySink>>,
    calls: Inbox<Call<MemorySink>>,
}

// A drainer of one subject in a thread of its own.
fn started(
    rt: &(impl Threads + Wait + Abort + Clone + Drop + Send + 'static),
    heap: &Heap,
) -> Parts {
    let (inbox, pump, leave) = two::<Out<MemorySink>>(rt, copy(rt, heap), 16);
    let (calls, subject) = first_of_two::<Call<MemorySink>>(rt, copy(rt, heap), 16);
    let drainer = drainer_of(rt, copy(rt, heap), inbox, heap, subject).expect(rt, "memory");
    match start_drainer(rt, drainer) {
        Ok(drainer) => Parts {
            drainer,
            pump,
            leave,
            calls,
        },
        Err(_) => panic!(rt; "no thread"),
    }
}

// How often it is looked whether the drainer is gone, a millisecond apart.
const LOOKS: u32 = 10_000;

// Whether a note comes back in the end, since the drainer is gone.
fn comes_back(
    rt: &(impl Wait + Abort + Clock),
    heap: &Heap,
    pump: &mut Port<Out<MemorySink>>,
) -> bool {
    for _ in 0..LOOKS {
        let note = note(rt, heap, b'a');
        if pump.send(rt, Out::Give { who: 0, note }).is_err() {
            return true;
        }
        thread::sleep(rt, Duration::from_millis(1));
    }
    false
}

// The subject goes, so the drainer stops at its first request; then it is gone for who sends to it.
fn expect_gone(
    rt: &(impl Threads + Wait + Abort + Clock + Clone + Drop + Send + 'static),
    heap: &Heap,
) {
    let Parts {
        drainer,
        mut pump,
        leave: _leave,
        calls,
    } = started(rt, heap);
    drop(calls);
    let sink = MemorySink::new(copy(rt, heap), None);
    send(rt, &mut pump, Out::Attach { who: 0, sink });
    expect_that(
        rt,
        comes_back(rt, heap, &mut pump),
        "the drainer is gone before it is joined",
    );
    match drainer.join(rt) {
        Ok(_) => panic!(rt; "the drainer served to its end"),
        Err(fault) => expect_that(rt, fault == DrainFault::SubjectGone(0), "its fault"),
    }
}

#[test]
fn a_drainer_that_stopped_is_gone(rt: HostRuntime) {
    expect_gone(&rt, &unlimited(&rt));
}

// The subject's ports of a drainer that runs, whose leave port is let go as well: both end all the same.
fn expect_byes(rt: &(impl Threads + Wait + Abort + Clone + Drop + Send + 'static), heap: &Heap) {
    let Parts {
        drainer,
        pump,
        leave,
        mut calls,
    } = started(rt, heap);
    pump.let_go();
    leave.let_go();
    let is_bye = calls
        .recv(rt)
        .is_ok_and(|letter| matches!(letter.post, Post::Bye));
    expect_that(rt, is_bye, "the drainer left");
    expect_that(rt, drainer.join(rt).is_ok(), "and served to its end");
}

#[test]
fn ports_that_are_let_go_end(rt: HostRuntime) {
    expect_byes(&rt, &unlimited(&rt));
}
