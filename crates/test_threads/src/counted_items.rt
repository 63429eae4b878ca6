//! How many items its subject had, as each reply of a pump tells it.

ghost use Rattle.std.specs.Prelude.{◌≡◌, []};
ghost use Rattle.rx_mailbox.specs.PortRows.{IsFresh};

use crate::boxes::{copy, finish, send, unlimited};
use crate::desks::one;
use crate::expectations::expect_told;
use crate::pumps::{call_of, pump_if, serve};
use rx_heap::Heap;
use rx_mailbox::{Inbox, Port, Post};
use rx_note::{Kind, Limits, Rules};
use rx_pump::{Call, Out, Pump, Reply};
use std::process::Abort;
use std::sync::Wait;
use test_kit::{Named, Told, kind_of};

// No run here sends as many letters.
const MAX_LETTERS: usize = 16;

/// A pump on one thread, with the one port to it and the boxes that it sends to.
#[derive(Drop)]
pub(crate) struct Bench {
    pub(crate) pump: Pump<u8>,
    pub(crate) port: Port<Call<u8>>,
    pub(crate) outs: Inbox<Out<u8>>,
    pub(crate) replies: Inbox<Reply<u8>>,
}

/// A pump of a new subject by these rules.
pub(crate) fn bench_of(rt: &impl Abort, heap: &Heap, rules: Rules) -> Bench
    ensures port { IsFresh result.port }
    ensures replies { result.replies.received ≡ [] }
{
    let (inbox, port) = one::<Call<u8>>(rt, copy(rt, heap), MAX_LETTERS);
    let (outs, drainer) = one::<Out<u8>>(rt, copy(rt, heap), MAX_LETTERS);
    let (replies, caller) = one::<Reply<u8>>(rt, copy(rt, heap), MAX_LETTERS);
    let callers = vec![in copy(rt, heap); caller].expect(rt, "memory");
    let pump = pump_if(rt, heap, heap, rules, inbox, drainer, callers).expect(rt, "a pump");
    Bench {
        pump,
        port,
        outs,
        replies,
    }
}

// A subject, how many items it may have, the signs of the calls to it, and how many items each reply tells.
const ROWS: &[(Named, u32, &str, &str)] = &[
    (Named::Publish, u32::MAX, "ab+c1-d", "1223334"),
    (Named::Publish, u32::MAX, "a.b+", "1111"),
    (Named::Publish, u32::MAX, "a!b", "111"),
    (Named::Publish, 2, "abc.", "1222"),
    (Named::Publish, u32::MAX, "10-a2", "00011"),
    (Named::Behavior(Some(b's')), u32::MAX, "+a", "01"),
    (Named::Async, u32::MAX, "+ab.", "0122"),
    (Named::Replay(Some(1), None), u32::MAX, "ab+", "122"),
];

// Hands the table out, so that what goes over it is proved without its rows.
fn rows() -> &'static [(Named, u32, &'static str, &'static str)] {
    ROWS
}

// Makes the calls of these signs.
fn send_signs(rt: &(impl Wait + Abort), heap: &Heap, port: &mut Port<Call<u8>>, signs: &[u8]) {
    for sign in signs {
        send(rt, port, call_of(rt, heap, 0, *sign, None));
    }
}

// How many items each reply tells.
fn counts_in(rt: &(impl Wait + Abort), replies: &mut Inbox<Reply<u8>>) -> Told {
    let mut told = Told::new();
    for _ in 0..MAX_LETTERS {
        let letter = replies.recv(rt).expect(rt, "a letter");
        match letter.post {
            Post::Body(reply) => told.put_digit(reply.items as usize),
            Post::Bye => break,
        }
    }
    told
}

// What the replies tell to calls of these signs.
fn counts_of(rt: &(impl Wait + Abort), heap: &Heap, kind: Kind, items: u32, signs: &[u8]) -> Told {
    let limits = Limits {
        observers: 1,
        joins: 1,
        items,
    };
    let Bench {
        pump,
        mut port,
        outs: _outs,
        mut replies,
    } = bench_of(rt, heap, Rules { kind, limits });
    send_signs(rt, heap, &mut port, signs);
    drop(finish(rt, port));
    drop(serve(rt, pump));
    counts_in(rt, &mut replies)
}

#[test]
fn each_reply_counts_the_items(rt: HostRuntime) {
    let heap = unlimited(&rt);
    for (named, items, signs, counts) in rows() {
        let kind = kind_of(&heap, *named).expect(&rt, "a kind");
        let told = counts_of(&rt, &heap, kind, *items, signs.as_bytes());
        expect_told(&rt, told.as_bytes(), counts, signs);
    }
}
