//! Boxes whose threads sleep and are woken: a wake that is missed leaves a thread asleep for good, and its test without an end.

ghost use Rattle.std.specs.Prelude.{◌≡◌};

use crate::boxes::{copy, finish, send, two, unlimited};
use crate::expectations::{expect_count, expect_that};
use rx_heap::Heap;
use rx_mailbox::{Gone, Inbox, Letter, Port, Post};
use std::process::Abort;
use std::sync::Wait;
use std::thread::{Threads, join, yield_now};

// How two ports send to one inbox.
#[derive(Clone, Copy)]
struct Load {
    capacity: usize,
    // How many bodies each port sends.
    bodies: u32,
    // Of so many bodies one is sent with a wake, the first of them.
    quiet: u32,
    // The others are followed by a nudge.
    is_nudged: bool,
    // The inbox sleeps past nudges.
    sleeps_past: bool,
}

// The rooms of a box, and bodies with and without a wake.
const LOADS: &[Load] = &[
    Load {
        capacity: 1,
        bodies: 10_000,
        quiet: 1,
        is_nudged: false,
        sleeps_past: false,
    },
    Load {
        capacity: 1,
        bodies: 2_000,
        quiet: 64,
        is_nudged: false,
        sleeps_past: false,
    },
    Load {
        capacity: 2,
        bodies: 5_000,
        quiet: 3,
        is_nudged: false,
        sleeps_past: false,
    },
    Load {
        capacity: 64,
        bodies: 250_000,
        quiet: 1,
        is_nudged: false,
        sleeps_past: false,
    },
    Load {
        capacity: 64,
        bodies: 250_000,
        quiet: 48,
        is_nudged: false,
        sleeps_past: false,
    },
    Load {
        capacity: 1_000,
        bodies: 250_000,
        quiet: 1_000_000,
        is_nudged: false,
        sleeps_past: false,
    },
    Load {
        capacity: 2,
        bodies: 2_000,
        quiet: 1_000_000,
        is_nudged: true,
        sleeps_past: false,
    },
    Load {
        capacity: 1,
        bodies: 2_000,
        quiet: 1_000_000,
        is_nudged: true,
        sleeps_past: true,
    },
    Load {
        capacity: 64,
        bodies: 20_000,
        quiet: 48,
        is_nudged: true,
        sleeps_past: true,
    },
];

// Hands the table out, so that what goes over it is proved without its rows.
fn loads() -> &'static [Load] {
    LOADS
}

// Sends the bodies 0, 1, 2 and so on, and lets the port go.
fn send_many(rt: &(impl Wait + Abort), mut port: Port<u32>, load: Load) {
    for body in 0..load.bodies {
        if body.checked_rem(load.quiet) == Some(0) {
            send(rt, &mut port, body);
        } else {
            assert!(rt; port.send_quietly(rt, body).is_ok());
            if load.is_nudged {
                port.nudge(rt);
            }
        }
    }
    // What a port holds back when it goes is lost.
    port.ring(rt);
}

// Receives until no letter will come any more, looks that the bodies of each port come in their order, and counts them.
fn receive_many(rt: &(impl Wait + Abort), mut inbox: Inbox<u32>, load: Load) -> u64 {
    let mut next = [0u32; 2];
    let mut letters = 0u64;
    for _ in rt.forever() {
        let Ok(letter) = receive_as(rt, &mut inbox, load) else {
            break;
        };
        let expected = next.get_mut(letter.from as usize).expect(rt, "a port");
        assert!(rt; letter.post == Post::Body(*expected));
        *expected = expected.saturating_add(1);
        letters = letters.saturating_add(1);
    }
    letters
}

fn receive_as(rt: &impl Wait, inbox: &mut Inbox<u32>, load: Load) -> Result<Letter<u32>, Gone> {
    if load.sleeps_past {
        inbox.recv_past_nudges(rt)
    } else {
        inbox.recv(rt)
    }
}

// Two threads send as the load says and leave, and this one receives all.
fn carry<R: Threads + Wait + Abort + Sync>(rt: &R, alloc: &Heap, load: Load) {
    let (inbox, first, second) = two::<u32>(rt, copy(rt, alloc), load.capacity);
    let (_, letters) = join(
        rt,
        || {
            join(
                rt,
                || send_many(rt, first, load),
                || send_many(rt, second, load),
            );
        },
        || receive_many(rt, inbox, load),
    );
    expect_count(rt, letters, 2 * u64::from(load.bodies), "letters");
}

fn carry_all<R: Threads + Wait + Abort + Sync>(rt: &R, alloc: &Heap) {
    for load in loads() {
        carry(rt, alloc, *load);
    }
}

#[test]
fn letters_through_a_small_box(rt: HostRuntime) {
    carry_all(&rt, &unlimited(&rt));
}

// How often a thread leaves the box: after so many rounds of letting other threads go first, so that the one that waits is
// awake, about to sleep, or asleep.
const ROUNDS: u32 = 150;

// Lets other threads go first so many times.
fn idle(rounds: u32) {
    for _ in 0..rounds {
        yield_now();
    }
}

// The ports leave, one of them by its Bye, while the inbox waits for a letter.
fn ports_leave<R: Threads + Wait + Abort + Sync>(rt: &R, alloc: &Heap, rounds: u32) {
    let (inbox, first, second) = two::<u32>(rt, copy(rt, alloc), 1);
    let (_, gone) = join(
        rt,
        || {
            idle(rounds);
            drop(first);
            drop(finish(rt, second));
        },
        || hear_bye(rt, inbox),
    );
    expect_that(rt, gone, "the ports are gone");
}

// A Bye comes, and then nothing.
fn hear_bye(rt: &impl Wait, mut inbox: Inbox<u32>) -> bool {
    let Ok(letter) = inbox.recv(rt) else {
        return false;
    };
    letter.post == Post::Bye && inbox.recv(rt) == Err(Gone)
}

// The inbox leaves while both ports wait for room.
fn inbox_leaves<R: Threads + Wait + Abort + Sync>(rt: &R, alloc: &Heap, rounds: u32) {
    let (inbox, first, second) = two::<u32>(rt, copy(rt, alloc), 1);
    let ((is_first_back, is_second_back), _) = join(
        rt,
        || join(rt, || is_back(rt, first), || is_back(rt, second)),
        || {
            idle(rounds);
            drop(inbox);
        },
    );
    expect_that(rt, is_first_back, "the first body is back");
    expect_that(rt, is_second_back, "the second body is back");
}

// The port sends until a body comes back, which is the second or third that it sends.
fn is_back(rt: &impl Wait, mut port: Port<u32>) -> bool {
    (0..3).any(|body| port.send(rt, body) == Err(body))
}

fn leave_all<R: Threads + Wait + Abort + Sync>(rt: &R, alloc: &Heap) {
    for round in 0..ROUNDS {
        ports_leave(rt, alloc, round);
        inbox_leaves(rt, alloc, round);
    }
}

#[test]
fn who_waits_hears_that_the_others_left(rt: HostRuntime) {
    leave_all(&rt, &unlimited(&rt));
}
