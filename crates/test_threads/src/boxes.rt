//! Boxes between threads: what no clause says, and that calls succeed.

ghost use Rattle.rx_mailbox.specs.PortRows.{IsFresh};
ghost use Rattle.std.specs.Prelude.{◌≡◌, [], Ok, IfSome};
ghost use Rattle.rx_mailbox.specs.declared.letter.Post.TheVariants.{Body, Bye};
ghost use Rattle.rx_mailbox.specs.Boxes.{told, with_post, AreOf};
ghost use Rattle.test_threads.specs.Wiring.{IsTwo};

use crate::expectations::{expect_count, expect_text, expect_that, expect_words};
use rx_heap::{Heap, Memory};
use rx_mailbox::{
    EndedPort, Gone, Inbox, MAX_CAPACITY, MAX_PORTS, OpenError, Port, Post, SettleCause,
    TryRecvFault, open, settle,
};
use std::alloc::Global;
use std::process::Abort;
use std::sync::Wait;
use std::test::Fail;
use std::time::Duration;
use test_kit::{Refusable, Seen, refuse_in_turn};

// A body that a box is tried with.
trait Sample: Drop + PartialEq {
    fn sample(rt: &impl Abort, alloc: Heap, number: u8) -> Self;
}

impl Sample for u32 {
    fn sample(_rt: &impl Abort, _alloc: Heap, number: u8) -> u32 {
        u32::from(number)
    }
}

// A body that owns memory.
#[derive(Debug, Drop, PartialEq, Eq)]
struct Words {
    bytes: Vec<u8, Heap>,
}

impl Sample for Words {
    fn sample(rt: &impl Abort, alloc: Heap, number: u8) -> Words {
        Words {
            bytes: vec![in alloc; number, 0].expect(rt, "memory"),
        }
    }
}

/// The memory of a test: the runtime's, without a limit.
pub(crate) fn unlimited(rt: &HostRuntime) -> Heap {
    Heap::unlimited(rt.alloc())
}

pub(crate) fn copy(rt: &impl Abort, alloc: &Heap) -> Heap {
    alloc.clone().expect(rt, "a handle")
}

// A new box with two ports. None where there was no memory for it.
pub(crate) fn two_if<B: Drop>(
    rt: &impl Abort,
    alloc: Heap,
    capacity: usize,
) -> Option<(Inbox<B>, Port<B>, Port<B>)>
    ensures { IfSome result (λ made. IsTwo made.0 made.1 made.2) }
{
    let (inbox, mut ports) = made(rt, open(alloc, capacity, 2))?;
    let second = ports.pop().expect(rt, "port 1");
    let first = ports.pop().expect(rt, "port 0");
    Some((inbox, first, second))
}

// What was opened. None where there was no memory for it.
pub(crate) fn made<B: Drop>(
    rt: &impl Abort,
    opened: Result<(Inbox<B>, Vec<Port<B>, Heap>), OpenError>,
) -> Option<(Inbox<B>, Vec<Port<B>, Heap>)>
    ensures { IfSome result (λ made. opened ≡ Ok made) }
{
    match opened {
        Ok(made) => Some(made),
        Err(OpenError::Memory) => None,
        Err(OpenError::BadSize) => panic!(rt; "a size of a box"),
    }
}

// A new box with two ports.
pub(crate) fn two<B: Drop>(
    rt: &impl Abort,
    alloc: Heap,
    capacity: usize,
) -> (Inbox<B>, Port<B>, Port<B>)
    ensures { IsTwo result.0 result.1 result.2 }
{
    two_if(rt, alloc, capacity).expect(rt, "a box")
}

// A new box with two ports, and the first of them. The other one is gone.
pub(crate) fn first_of_two<B: Drop>(
    rt: &impl Abort,
    alloc: Heap,
    capacity: usize,
) -> (Inbox<B>, Port<B>)
    ensures { IsFresh result.1 }
{
    first_of_two_if(rt, alloc, capacity).expect(rt, "a box")
}

// The same. None where there was no memory for it.
pub(crate) fn first_of_two_if<B: Drop>(
    rt: &impl Abort,
    alloc: Heap,
    capacity: usize,
) -> Option<(Inbox<B>, Port<B>)>
    ensures { IfSome result (λ made. IsFresh made.1) }
{
    let (inbox, first, _) = two_if(rt, alloc, capacity)?;
    Some((inbox, first))
}

pub(crate) fn send<B: Drop>(rt: &(impl Wait + Abort), port: &mut Port<B>, body: B)
    ensures { port.new ≡ with_post port.old (Post.Body body) }
{
    assert!(rt; port.send(rt, body).is_ok());
}

// The port may hold the body back.
pub(crate) fn hold<B: Drop>(rt: &(impl Wait + Abort), port: &mut Port<B>, body: B)
    ensures { told port.new ≡ with_post port.old (Post.Body body) }
{
    assert!(rt; port.send_quietly(rt, body).is_ok());
}

pub(crate) fn finish<B: Drop>(rt: &(impl Wait + Abort), port: Port<B>) -> EndedPort<B>
    ensures { result ≡ with_post port Post.Bye }
{
    match port.finish(rt) {
        Ok(ended) => ended,
        Err(_) => panic!(rt; "the port came back"),
    }
}

// The next letter is this one.
pub(crate) fn receive<B: Drop + PartialEq>(
    rt: &(impl Wait + Abort),
    inbox: &mut Inbox<B>,
    from: u32,
    post: Post<B>,
)
    ensures { inbox.new.box ≡ inbox.old.box }
{
    let letter = match inbox.recv(rt) {
        Ok(letter) => letter,
        Err(_) => panic!(rt; "no letter"),
    };
    assert!(rt; letter.from == from);
    assert!(rt; letter.post == post);
}

// These parts do not settle, for this cause, and come back.
fn refuse<B: Drop>(
    rt: &impl Abort,
    inbox: Inbox<B>,
    ports: Vec<EndedPort<B>, Heap>,
    cause: SettleCause,
) -> (Inbox<B>, Vec<EndedPort<B>, Heap>)
    requires { AreOf inbox ports.items }
    ensures inbox { result.0 ≡ inbox }
    ensures ports { result.1.items ≡ ports.items }
{
    match settle(inbox, ports) {
        Ok(_) => panic!(rt; "the box settled"),
        Err(back) => {
            expect_that(rt, back.cause == cause, "the cause");
            (back.inbox, back.ports)
        }
    }
}

// The port alone does not settle a box of two.
fn refuse_alone<B: Drop>(
    rt: &impl Abort,
    alloc: Heap,
    inbox: Inbox<B>,
    port: EndedPort<B>,
) -> (Inbox<B>, EndedPort<B>)
    requires { port.box ≡ inbox.box }
    ensures inbox { result.0 ≡ inbox }
    ensures port { result.1 ≡ port }
{
    let ports = vec![in alloc; port].expect(rt, "memory");
    let (inbox, mut ports) = refuse(rt, inbox, ports, SettleCause::Stranger);
    let port = ports.pop().expect(rt, "the port is back");
    (inbox, port)
}

// The box settles, with so many letters.
pub(crate) fn close<B: Drop>(
    rt: &impl Abort,
    inbox: Inbox<B>,
    ports: Vec<EndedPort<B>, Heap>,
    letters: u64,
)
    requires { AreOf inbox ports.items }
{
    match settle(inbox, ports) {
        Ok(settled) => expect_count(rt, settled.letters(), letters, "letters"),
        Err(_) => panic!(rt; "the box did not settle"),
    }
}

// Ports 0, 1 and 0 send, and both end; the inbox receives. Port 0 may hold back what it sends.
fn run_on_one_thread<B: Sample>(
    rt: &(impl Wait + Abort),
    alloc: &Heap,
    inbox: Inbox<B>,
    first: Port<B>,
    second: Port<B>,
)
    requires { IsTwo inbox first second }
{
    let mut inbox = inbox;
    let mut first = first;
    let mut second = second;
    hold(rt, &mut first, B::sample(rt, copy(rt, alloc), 1));
    first.ring(rt);
    send(rt, &mut second, B::sample(rt, copy(rt, alloc), 2));
    hold(rt, &mut first, B::sample(rt, copy(rt, alloc), 3));
    let first = finish(rt, first);
    let second = finish(rt, second);
    receive(
        rt,
        &mut inbox,
        0,
        Post::Body(B::sample(rt, copy(rt, alloc), 1)),
    );
    receive(
        rt,
        &mut inbox,
        1,
        Post::Body(B::sample(rt, copy(rt, alloc), 2)),
    );
    receive(
        rt,
        &mut inbox,
        0,
        Post::Body(B::sample(rt, copy(rt, alloc), 3)),
    );
    receive(rt, &mut inbox, 0, Post::Bye);
    let (inbox, first) = refuse_alone(rt, copy(rt, alloc), inbox, first);
    let ports = vec![in copy(rt, alloc); first, second].expect(rt, "memory");
    let (mut inbox, ports) = refuse(rt, inbox, ports, SettleCause::MissingBye);
    receive(rt, &mut inbox, 1, Post::Bye);
    close(rt, inbox, ports, 5);
}

fn run_of_numbers(rt: &(impl Wait + Abort), alloc: &Heap) {
    let (inbox, first, second) = two::<u32>(rt, copy(rt, alloc), 8);
    run_on_one_thread(rt, alloc, inbox, first, second);
}

#[test]
fn mailbox_on_one_thread(rt: HostRuntime) {
    run_of_numbers(&rt, &unlimited(&rt));
}

/// The same run, of bodies that own memory.
#[derive(Drop)]
struct OneThread<'a, R> {
    rt: &'a R,
}

impl<R: Wait + Abort> Refusable for OneThread<'_, R> {
    fn run_by(&self, free: &Heap, tight: &Heap) -> Result<Seen, Fail> {
        let made = two_if::<Words>(self.rt, tight.clone()?, 8);
        let is_made = made.is_some();
        if let Some((inbox, first, second)) = made {
            run_on_one_thread(self.rt, free, inbox, first, second);
        }
        Ok(Seen {
            is_made,
            misses: 0,
            is_right: true,
        })
    }
}

// Where a growth is refused there is no box, and no other call of a run takes memory.
#[test]
fn mailbox_with_each_growth_refused(rt: HostRuntime) -> Result<(), Fail> {
    let refusals = refuse_in_turn(&OneThread { rt: &rt }, rt.alloc())?;
    expect_words(&rt, refusals.fault, "", "a box");
    expect_that(&rt, refusals.unmade >= 3, "boxes that were not made");
    expect_count(&rt, refusals.missed, 0, "missed");
    Ok(())
}

// What refuses a box of this size; none where nothing does.
fn refusal_of(heap: Heap, capacity: usize, senders: u32) -> Option<OpenError> {
    open::<u32>(heap, capacity, senders).err()
}

// A box of this size is refused for it, or made.
fn expect_size(rt: &impl Abort, heap: &Heap, capacity: usize, senders: u32, is_made: bool) {
    let refusal = refusal_of(copy(rt, heap), capacity, senders);
    let wanted = if is_made {
        None
    } else {
        Some(OpenError::BadSize)
    };
    assert!(rt;
        refusal == wanted,
        "a box of {capacity} letters with {senders} ports"
    );
}

// The letters and the ports of a box, and whether there is such a box.
const SIZES: [(usize, u32, bool); 6] = [
    (0, 1, false),
    (1, 0, false),
    (1, MAX_PORTS + 1, false),
    (MAX_CAPACITY + 1, 1, false),
    (1, MAX_PORTS, true),
    (MAX_CAPACITY, 1, true),
];

fn expect_sizes(rt: &impl Abort, heap: &Heap) {
    for (capacity, senders, is_made) in &SIZES {
        expect_size(rt, heap, *capacity, *senders, *is_made);
    }
}

#[test]
fn sizes_of_a_box(rt: HostRuntime) {
    expect_sizes(&rt, &unlimited(&rt));
}

fn expect_texts(rt: &impl Abort, alloc: Global) -> Result<(), Fail> {
    let sizes = "a box has 1 to 65536 letters and 1 to 256 ports";
    expect_text(rt, alloc, &OpenError::BadSize, sizes)?;
    expect_text(rt, alloc, &OpenError::Memory, "out of memory")?;
    expect_text(rt, alloc, &Gone, "no letter will come any more")?;
    expect_text(rt, alloc, &TryRecvFault::Empty, "there is no letter yet")?;
    expect_text(
        rt,
        alloc,
        &TryRecvFault::Gone,
        "no letter will come any more",
    )?;
    expect_text(rt, alloc, &Memory, "out of memory")
}

#[test]
fn texts_of_a_refusal(rt: HostRuntime) -> Result<(), Fail> {
    expect_texts(&rt, rt.alloc())
}

// Each port sends its number and ends.
fn send_numbers(
    rt: &(impl Wait + Abort),
    alloc: Heap,
    inbox: &Inbox<u32>,
    ports: Vec<Port<u32>, Heap>,
) -> Vec<EndedPort<u32>, Heap>
    requires { AreOf inbox.now ports.items }
    ensures { AreOf inbox.now result.items }
{
    let mut ended = Vec::new(alloc);
    for port in ports {
        ended.push(send_number(rt, port)).expect(rt, "memory");
    }
    ended
}

fn send_number(rt: &(impl Wait + Abort), port: Port<u32>) -> EndedPort<u32>
    ensures { result.box ≡ port.box }
{
    let mut port = port;
    let number = port.number();
    send(rt, &mut port, number);
    finish(rt, port)
}

// Receives the number of each port and its Bye.
fn receive_numbers(rt: &(impl Wait + Abort), inbox: Inbox<u32>) -> Inbox<u32>
    ensures { result.box ≡ inbox.box }
{
    let mut inbox = inbox;
    for number in 0..MAX_PORTS {
        receive(rt, &mut inbox, number, Post::Body(number));
        receive(rt, &mut inbox, number, Post::Bye);
    }
    inbox
}

// A box with all ports, each of which sends its number.
fn run_of_all_ports(rt: &(impl Wait + Abort), alloc: &Heap) {
    let (inbox, ports) = open::<u32>(copy(rt, alloc), 512, MAX_PORTS).expect(rt, "a box");
    let ports = send_numbers(rt, copy(rt, alloc), &inbox, ports);
    let inbox = receive_numbers(rt, inbox);
    close(rt, inbox, ports, 512);
}

#[test]
fn a_box_of_all_ports(rt: HostRuntime) {
    run_of_all_ports(&rt, &unlimited(&rt));
}

// Two ports send to a box that is gone.
fn send_to_none(rt: &(impl Wait + Abort), alloc: &Heap) {
    let (inbox, mut first, second) = two::<u32>(rt, copy(rt, alloc), 8);
    drop(inbox);
    expect_that(rt, first.send(rt, 7) == Err(7), "the body is back");
    expect_that(rt, second.finish(rt).is_err(), "the port is back");
}

#[test]
fn a_box_whose_inbox_is_gone(rt: HostRuntime) {
    send_to_none(&rt, &unlimited(&rt));
}

// One port sends and is gone, one ends.
fn send_and_leave(rt: &(impl Wait + Abort), first: Port<u32>, second: Port<u32>) {
    let mut first = first;
    send(rt, &mut first, 7);
    drop(first);
    drop(finish(rt, second));
}

// No letter is taken without a wait, nor by one of a millisecond, for this fault.
fn is_refused(rt: &impl Wait, inbox: &mut Inbox<u32>, fault: TryRecvFault) -> bool {
    inbox.try_recv(rt) == Err(fault)
        && inbox.recv_within(rt, Duration::from_millis(1)) == Err(fault)
}

// A letter with this body is taken without a wait to speak of.
fn takes(rt: &impl Wait, inbox: &mut Inbox<u32>, body: u32) -> bool {
    match inbox.recv_within(rt, Duration::from_millis(1)) {
        Ok(letter) => letter.post == Post::Body(body),
        Err(_) => false,
    }
}

fn receive_from_none(rt: &(impl Wait + Abort), alloc: &Heap) {
    let (mut inbox, first, second) = two::<u32>(rt, copy(rt, alloc), 8);
    expect_that(
        rt,
        is_refused(rt, &mut inbox, TryRecvFault::Empty),
        "no letter yet",
    );
    send_and_leave(rt, first, second);
    expect_that(rt, takes(rt, &mut inbox, 7), "the body at once");
    receive(rt, &mut inbox, 1, Post::Bye);
    expect_that(rt, inbox.recv(rt) == Err(Gone), "no letter will come");
    expect_that(
        rt,
        is_refused(rt, &mut inbox, TryRecvFault::Gone),
        "no letter will come",
    );
}

#[test]
fn a_box_whose_ports_are_gone(rt: HostRuntime) {
    receive_from_none(&rt, &unlimited(&rt));
}
