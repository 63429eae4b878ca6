//! A box between two threads: each sends, and this one receives.

ghost use Rattle.rx_mailbox.specs.PortRows.{IsFresh};
ghost use Rattle.std.specs.Prelude.{◌≡◌, []};
ghost use Rattle.rx_mailbox.specs.Letters.{share};
ghost use Rattle.rx_mailbox.specs.Passes.{inbox_in};
ghost use Rattle.rx_mailbox.specs.Settling.{GotAll};
ghost use Rattle.test_threads.specs.Bodies.{all_of, after_all};

use crate::boxes::{copy, finish, send, two, unlimited};
use crate::expectations::expect_count;
use rx_heap::Heap;
use rx_mailbox::{EndedPort, Inbox, Port, Post, Settled, settle};
use std::process::Abort;
use std::sync::Wait;
use std::thread::{Threads, join};

// How many bodies each of two threads sends.
const BODIES: u32 = 1_000;

// Sends the bodies 0, 1, 2 and so on, and then the Bye.
fn send_all(rt: &(impl Wait + Abort), mut port: Port<u32>) -> EndedPort<u32>
    requires { IsFresh port }
    ensures { result ≡ after_all port BODIES }
{
    for body in 0..BODIES {
        send(rt, &mut port, body);
    }
    finish(rt, port)
}

fn send_both<R: Threads + Wait + Abort + Sync>(
    rt: &R,
    first: Port<u32>,
    second: Port<u32>,
) -> (EndedPort<u32>, EndedPort<u32>)
    requires first { IsFresh first }
    requires second { IsFresh second }
    ensures first { result.0 ≡ after_all first BODIES }
    ensures second { result.1 ≡ after_all second BODIES }
{
    join(
        rt,
        || -> EndedPort<u32>
            requires { IsFresh first }
            ensures { result ≡ after_all first BODIES }
        { send_all(rt, first) },
        || -> EndedPort<u32>
            requires { IsFresh second }
            ensures { result ≡ after_all second BODIES }
        { send_all(rt, second) },
    )
}

// Receives until each Bye came, and looks that the bodies of each port come in their order.
fn receive_all(rt: &(impl Wait + Abort), mut inbox: Inbox<u32>) -> Inbox<u32>
    requires { inbox.ports ≡ 2 }
    ensures { result.box ≡ inbox.box }
{
    let mut next = [0u32; 2];
    for _ in rt.forever() {
        if inbox.has_each_bye() {
            break;
        }
        let letter = inbox.recv(rt).expect(rt, "a letter");
        let expected = &mut next[letter.from as usize];
        match letter.post {
            Post::Body(body) => {
                assert_eq!(rt; body, *expected);
                assert!(rt; body < BODIES);
                *expected = body + 1;
            }
            Post::Bye => assert_eq!(rt; *expected, BODIES),
        }
    }
    inbox
}

// Two threads send, and this one receives. Of each port all that it put was received, in its order.
fn exchange<R: Threads + Wait + Abort + Sync>(rt: &R, alloc: &Heap) -> Settled<u32>
    ensures first { share 0 result.received ≡ all_of 0 BODIES }
    ensures second { share 1 result.received ≡ all_of 1 BODIES }
{
    let (inbox, first, second) = two::<u32>(rt, copy(rt, alloc), 8);
    let ((first, second), inbox) = join(
        rt,
        || -> (EndedPort<u32>, EndedPort<u32>)
            requires { (IsFresh first) × (IsFresh second) }
            ensures { (result.0 ≡ after_all first BODIES) × (result.1 ≡ after_all second BODIES) }
        { send_both(rt, first, second) },
        || -> Inbox<u32>
            requires { inbox.ports ≡ 2 }
            ensures { result.box ≡ inbox.box }
        { receive_all(rt, inbox) },
    );
    settle_two(rt, copy(rt, alloc), inbox, first, second)
}

fn settle_two(
    rt: &impl Abort,
    alloc: Heap,
    inbox: Inbox<u32>,
    first: EndedPort<u32>,
    second: EndedPort<u32>,
) -> Settled<u32>
    requires first { first.box ≡ inbox.box }
    requires second { second.box ≡ inbox.box }
    ensures first { GotAll (inbox_in result) first }
    ensures second { GotAll (inbox_in result) second }
{
    let ports = vec![in alloc; first, second].expect(rt, "memory");
    match settle(inbox, ports) {
        Ok(settled) => settled,
        Err(_) => panic!(rt; "the box did not settle"),
    }
}

#[test]
fn two_ports_two_threads(rt: HostRuntime) {
    let settled = exchange(&rt, &unlimited(&rt));
    expect_count(&rt, settled.letters(), 2_002, "letters");
}
