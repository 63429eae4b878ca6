//! What a drainer keeps of the observers that came and left, turn by turn on one thread.

use crate::boxes::{copy, first_of_two, send, two, unlimited};
use crate::drainers::drainer_of;
use crate::expectations::{expect_count, expect_that};
use rx_drain::{Drainer, MemorySink};
use rx_heap::Heap;
use rx_mailbox::{Inbox, Port};
use rx_pump::{Call, Out};
use std::ops::Range;
use std::process::Abort;
use std::sync::Wait;
use std::test::Fail;

// Behind so many observers the lists of the sinks that are kept, and of where they stand, have all the room that they need.
const FIRST: u32 = 500;

const ALL: u32 = 2_500;

// A drainer, the ports to its box, and the calls to its subject.
#[derive(Drop)]
struct Bench {
    drainer: Drainer<MemorySink>,
    pump: Port<Out<MemorySink>>,
    leave: Port<Out<MemorySink>>,
    calls: Inbox<Call<MemorySink>>,
}

// The drainer alone grows by `tight`.
fn make_bench(rt: &(impl Wait + Abort), free: &Heap, tight: &Heap) -> Bench {
    let (inbox, pump, leave) = two::<Out<MemorySink>>(rt, copy(rt, free), 16);
    let (calls, subject) = first_of_two::<Call<MemorySink>>(rt, copy(rt, free), 16);
    let drainer = drainer_of(rt, copy(rt, tight), inbox, free, subject).expect(rt, "memory");
    Bench {
        drainer,
        pump,
        leave,
        calls,
    }
}

// Observers of these numbers join and leave, one after another.
fn come_and_go(rt: &(impl Wait + Abort), free: &Heap, bench: &mut Bench, numbers: Range<u32>) {
    for who in numbers {
        let sink = MemorySink::new(copy(rt, free), None);
        send(rt, &mut bench.pump, Out::Attach { who, sink });
        send(rt, &mut bench.pump, Out::Detach { who });
        let turned = bench.drainer.turn(rt);
        expect_that(rt, turned.is_ok(), "a turn");
    }
}

// By how many bytes the drainer grows over all observers but the first.
fn growth_of(rt: &(impl Wait + Abort), free: &Heap, tight: &Heap, bench: Bench) -> u64 {
    let mut bench = bench;
    come_and_go(rt, free, &mut bench, 0..FIRST);
    let before = tight.used();
    come_and_go(rt, free, &mut bench, FIRST..ALL);
    tight.used().saturating_sub(before)
}

// What each sink leaves has 8 bytes of its own at least, the two numbers of its observer.
#[test]
fn forgets_who_came_and_left(rt: HostRuntime) -> Result<(), Fail> {
    let free = unlimited(&rt);
    let tight = Heap::with_budget(rt.alloc(), u64::MAX)?;
    let keeping = make_bench(&rt, &free, &tight);
    let kept = growth_of(&rt, &free, &tight, keeping);
    expect_that(
        &rt,
        kept >= 8 * u64::from(ALL - FIRST),
        "bytes of what sinks left",
    );
    let mut forgetful = make_bench(&rt, &free, &tight);
    forgetful.drainer.forget();
    let kept = growth_of(&rt, &free, &tight, forgetful);
    expect_count(&rt, kept, 0, "bytes of what sinks left, forgotten");
    Ok(())
}
