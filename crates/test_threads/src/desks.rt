//! Two desks that emit at a pump, each of the three on a thread of its own, call by call and several calls together: all is
//! admitted, and all boxes settle.

ghost use Rattle.std.specs.Prelude.{◌≡◌, ◌≤◌, ◌<◌, [], ◌∷◌, length, map, vec_len};
ghost use Rattle.std.specs.List.{All};
ghost use Rattle.rx_pump.specs.Desks.{KeepsDesk, fresh_desk};
ghost use Rattle.rx_mailbox.specs.PortRows.{IsFresh};
ghost use Rattle.rx_mailbox.specs.PortRows.{with_bye};
ghost use Rattle.rx_pump.specs.Serving.{HasPumped};
ghost use Rattle.test_threads.specs.Wiring.{IsOne, boxes_of};

use crate::boxes::{close, copy, two, unlimited};
use crate::expectations::{expect_answer, expect_count, expect_that};
use crate::pumps::{one_if, pump_if, serve};
use rx_heap::Heap;
use rx_mailbox::{EndedPort, Inbox, Port, Post};
use rx_note::{Answer, Event, Item, Kind, Note, Text};
use rx_pump::{Call, CallDesk, EndedDesk, Out, Pump, PumpEnd, Reply};
use std::process::Abort;
use std::sync::Wait;
use std::thread::{Threads, join};
use test_kit::rules_of;

// A pump of a new Publish subject.
fn pump_of(
    rt: &impl Abort,
    heap: &Heap,
    inbox: Inbox<Call<u8>>,
    drainer: Port<Out<u8>>,
    callers: Vec<Port<Reply<u8>>, Heap>,
) -> Pump<u8>
    requires inbox { inbox.received ≡ [] }
    requires drainer { IsFresh drainer }
    requires callers { All IsFresh callers.items }
    requires ports { vec_len callers ≤ inbox.ports }
    ensures inbox { result.inbox ≡ inbox }
    ensures callers { result.replies ≡ callers.items }
{
    let rules = rules_of(Kind::Publish);
    pump_if(rt, heap, heap, rules, inbox, drainer, callers).expect(rt, "a pump")
}

// A new box with one port.
pub(crate) fn one<B: Drop>(rt: &impl Abort, alloc: Heap, capacity: usize) -> (Inbox<B>, Port<B>)
    ensures { IsOne result.0 result.1 }
{
    one_if(rt, alloc, capacity).expect(rt, "a box")
}

// How many items each of two desks emits.
const ITEMS: u64 = 100;

// How many of its calls are posted before their replies are waited for.
const TOGETHER: u64 = 10;

// A desk of one subject.
pub(crate) fn desk_of(
    rt: &impl Abort,
    alloc: &Heap,
    port: Port<Call<u8>>,
    inbox: Inbox<Reply<u8>>,
) -> CallDesk<u8>
    requires port { IsFresh port }
    requires inbox { inbox.received ≡ [] }
    ensures { result ≡ fresh_desk (port ∷ []) inbox }
{
    let ports = vec![in copy(rt, alloc); port].expect(rt, "memory");
    match CallDesk::new(copy(rt, alloc), ports, inbox) {
        Ok(desk) => desk,
        Err(_) => panic!(rt; "no memory for a desk"),
    }
}

// An item.
pub(crate) fn item(rt: &impl Abort, alloc: &Heap) -> Event {
    let text = Text::new(copy(rt, alloc), b"a").expect(rt, "a text");
    let note = Note::Next(Item::new(text));
    Event::Emit { note, at: 0 }
}

// Emits an item, and looks that the subject admits it.
pub(crate) fn admit(rt: &(impl Wait + Abort), alloc: &Heap, desk: &mut CallDesk<u8>)
    requires { 0 < length desk.old.ports }
    ensures { KeepsDesk desk.old desk.new }
{
    match desk.call(rt, 0, item(rt, alloc), None) {
        Ok(reply) => expect_answer(rt, reply.result, Ok(Answer::Admitted)),
        Err(_) => panic!(rt; "no reply"),
    }
}

// Posts some items.
fn post_some(rt: &(impl Wait + Abort), alloc: &Heap, desk: &mut CallDesk<u8>)
    requires { 0 < length desk.old.ports }
    ensures { KeepsDesk desk.old desk.new }
{
    for _ in 0..TOGETHER {
        let posted = desk.post(rt, 0, item(rt, alloc));
        expect_that(rt, posted.is_ok(), "a call is posted");
    }
}

// Waits for their answers, behind those to so many earlier calls, and looks that the subject admits each.
fn admit_posted(rt: &(impl Wait + Abort), desk: &mut CallDesk<u8>, before: u64)
    requires { 0 < length desk.old.ports }
    ensures { KeepsDesk desk.old desk.new }
{
    let mut ticket = before;
    for _ in 0..TOGETHER {
        ticket = ticket.saturating_add(1);
        match desk.answer(rt, 0, ticket) {
            Ok(reply) => expect_answer(rt, reply.result, Ok(Answer::Admitted)),
            Err(_) => panic!(rt; "no reply"),
        }
    }
}

// Ends the desk's ports.
pub(crate) fn finish_desk(rt: &(impl Wait + Abort), desk: CallDesk<u8>) -> EndedDesk<u8>
    requires { desk.ended ≡ [] }
    ensures ports { result.ports.items ≡ map with_bye desk.ports }
    ensures inbox { result.inbox.box ≡ desk.inbox.box }
{
    match desk.finish(rt) {
        Ok(ended) => ended,
        Err(_) => panic!(rt; "the desk came back"),
    }
}

// Emits all items at a desk of one subject, and ends it.
fn emit_all(
    rt: &(impl Wait + Abort),
    alloc: Heap,
    port: Port<Call<u8>>,
    inbox: Inbox<Reply<u8>>,
) -> EndedDesk<u8>
    requires port { IsFresh port }
    requires inbox { inbox.received ≡ [] }
    ensures ports { boxes_of result.ports.items ≡ port.box ∷ [] }
    ensures inbox { result.inbox.box ≡ inbox.box }
{
    let mut desk = desk_of(rt, &alloc, port, inbox);
    for _ in 0..ITEMS - TOGETHER {
        admit(rt, &alloc, &mut desk);
    }
    let before = desk.tickets();
    post_some(rt, &alloc, &mut desk);
    admit_posted(rt, &mut desk, before);
    finish_desk(rt, desk)
}

// The one port of a list.
fn take_one<B: Drop>(rt: &impl Abort, ports: Vec<EndedPort<B>, Heap>) -> EndedPort<B>
    ensures { ports.items ≡ result ∷ [] }
{
    let mut ports = ports;
    let port = ports.pop().expect(rt, "a port");
    assert_eq!(rt; ports.len(), 0);
    port
}

// The two ports of a list.
fn take_two<B: Drop>(
    rt: &impl Abort,
    ports: Vec<EndedPort<B>, Heap>,
) -> (EndedPort<B>, EndedPort<B>)
    ensures { ports.items ≡ result.0 ∷ result.1 ∷ [] }
{
    let mut ports = ports;
    let second = ports.pop().expect(rt, "port 1");
    let first = take_one(rt, ports);
    (first, second)
}

// Receives the pump's Bye, and settles the box of a desk's replies.
fn close_replies(
    rt: &(impl Wait + Abort),
    alloc: &Heap,
    inbox: Inbox<Reply<u8>>,
    port: EndedPort<Reply<u8>>,
)
    requires { port.box ≡ inbox.box }
{
    let mut inbox = inbox;
    let letter = inbox.recv(rt).expect(rt, "a letter");
    expect_that(rt, matches!(letter.post, Post::Bye), "the pump's Bye");
    let ports = vec![in copy(rt, alloc); port].expect(rt, "memory");
    close(rt, inbox, ports, ITEMS + 1);
}

// Settles the subject's box.
fn close_subject(
    rt: &impl Abort,
    alloc: &Heap,
    inbox: Inbox<Call<u8>>,
    first: EndedPort<Call<u8>>,
    second: EndedPort<Call<u8>>,
)
    requires first { first.box ≡ inbox.box }
    requires second { second.box ≡ inbox.box }
{
    let ports = vec![in copy(rt, alloc); first, second].expect(rt, "memory");
    close(rt, inbox, ports, 2 * ITEMS + 2);
}

// Two desks emit on threads of their own.
fn emit_both<R: Threads + Wait + Abort + Sync>(
    rt: &R,
    alloc: &Heap,
    first: Port<Call<u8>>,
    second: Port<Call<u8>>,
    first_inbox: Inbox<Reply<u8>>,
    second_inbox: Inbox<Reply<u8>>,
) -> (EndedDesk<u8>, EndedDesk<u8>)
    requires ports { (IsFresh first) × (IsFresh second) }
    requires inboxes { (first_inbox.received ≡ []) × (second_inbox.received ≡ []) }
    ensures first { (boxes_of result.0.ports.items ≡ first.box ∷ []) × (result.0.inbox.box ≡ first_inbox.box) }
    ensures second { (boxes_of result.1.ports.items ≡ second.box ∷ []) × (result.1.inbox.box ≡ second_inbox.box) }
{
    let first_alloc = copy(rt, alloc);
    let second_alloc = copy(rt, alloc);
    join(
        rt,
        || -> EndedDesk<u8>
            requires { (IsFresh first) × (first_inbox.received ≡ []) }
            ensures { (boxes_of result.ports.items ≡ first.box ∷ []) × (result.inbox.box ≡ first_inbox.box) }
        { emit_all(rt, first_alloc, first, first_inbox) },
        || -> EndedDesk<u8>
            requires { (IsFresh second) × (second_inbox.received ≡ []) }
            ensures { (boxes_of result.ports.items ≡ second.box ∷ []) × (result.inbox.box ≡ second_inbox.box) }
        { emit_all(rt, second_alloc, second, second_inbox) },
    )
}

// Settles all boxes, and gives the counts of the pump.
fn close_all(
    rt: &(impl Wait + Abort),
    alloc: &Heap,
    left: PumpEnd<u8>,
    first: EndedDesk<u8>,
    second: EndedDesk<u8>,
) -> (u64, u64)
    requires first { boxes_of first.ports.items ≡ left.inbox.box ∷ [] }
    requires second { boxes_of second.ports.items ≡ left.inbox.box ∷ [] }
    requires replies { boxes_of left.replies.items ≡ first.inbox.box ∷ second.inbox.box ∷ [] }
{
    let (first_caller, second_caller) = take_two(rt, left.replies);
    close_replies(rt, alloc, first.inbox, first_caller);
    close_replies(rt, alloc, second.inbox, second_caller);
    let first = take_one(rt, first.ports);
    let second = take_one(rt, second.ports);
    close_subject(rt, alloc, left.inbox, first, second);
    (left.calls, left.refused)
}

// Two desks emit, and the pump serves, each on a thread of its own; then their boxes settle.
fn exchange<R: Threads + Wait + Abort + Sync>(rt: &R, alloc: &Heap) -> (u64, u64) {
    let (inbox, first, second) = two::<Call<u8>>(rt, copy(rt, alloc), 16);
    let (_outs, drainer, _) = two::<Out<u8>>(rt, copy(rt, alloc), 1);
    let (first_inbox, first_caller) = one::<Reply<u8>>(rt, copy(rt, alloc), 1);
    let (second_inbox, second_caller) = one::<Reply<u8>>(rt, copy(rt, alloc), 1);
    let callers = vec![in copy(rt, alloc); first_caller, second_caller].expect(rt, "memory");
    let pump = pump_of(rt, alloc, inbox, drainer, callers);
    let ((first, second), left) = join(
        rt,
        || -> (EndedDesk<u8>, EndedDesk<u8>)
            requires { (IsFresh first) × (IsFresh second) × (first_inbox.received ≡ []) × (second_inbox.received ≡ []) }
            ensures { (boxes_of result.0.ports.items ≡ first.box ∷ []) × (boxes_of result.1.ports.items ≡ second.box ∷ [])
                × (result.0.inbox.box ≡ first_inbox.box) × (result.1.inbox.box ≡ second_inbox.box) }
        { emit_both(rt, alloc, first, second, first_inbox, second_inbox) },
        || -> PumpEnd<u8>
            ensures { HasPumped pump result }
        { serve(rt, pump) },
    );
    close_all(rt, alloc, left, first, second)
}

#[test]
fn two_desks_all_admitted(rt: HostRuntime) {
    let (calls, refused) = exchange(&rt, &unlimited(&rt));
    expect_count(&rt, calls, 2 * ITEMS, "calls");
    expect_count(&rt, refused, 0, "refused");
}
