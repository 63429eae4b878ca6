//! Servers that go on, and come to an end: where observers ask for more than is ever emitted, where a desk or the server is let
//! go, and where a close follows an answer at once. A server that stands still here is ended by the time that a test has.

ghost use Rattle.std.specs.List.{All};
ghost use Rattle.rx_pump.specs.Desks.{KeepsDesk};
ghost use Rattle.rx_server.specs.Servers.{IsEndOf};

use crate::callers::{Caller, caller_of};
use crate::expectations::{expect_answer, expect_count, expect_that};
use crate::servers::{Host, closed, config_of, copy, started, two_of_each};
use crate::starts::Ration;
use rx_drain::MemorySink;
use rx_heap::Heap;
use rx_note::Answer;
use rx_pump::EndedDesk;
use rx_server::{CloseCause, CloseFault, Role, Server, start};
use std::process::Abort;
use std::sync::Wait;

// One subject, for one desk.
const ONE: &[u8] = b"[[subject]]\nname = \"s\"\nkind = \"publish\"\n[pool]\nworkers = 1\n";

// Hands it out, so that who serves by it is proved without its bytes.
fn one_config() -> &'static [u8] {
    ONE
}

// How many items are posted together, and how often.
const ITEMS: u64 = 32;

const ROUNDS: u64 = 8;

// How many observers there are, and how many items each asks for at first.
const OBSERVERS: u32 = 64;

const FIRST: u32 = 4_000_000_000;

// Joins observers of the first subject, each of which asks for so many items at first.
fn join_many(rt: &(impl Wait + Abort), heap: &Heap, caller: &mut Caller<MemorySink>, observers: u32)
    ensures { KeepsDesk caller.old.desk caller.new.desk }
{
    for who in 0..observers {
        let sink = MemorySink::new(copy(rt, heap), None);
        expect_answer(rt, caller.join(rt, 0, FIRST, sink), Ok(Answer::Joined(who)));
    }
}

// Posts some items to a subject, and answers how many it took: none where no list of its box is left.
fn post_some(
    rt: &(impl Wait + Abort),
    heap: &Heap,
    caller: &mut Caller<MemorySink>,
    subject: usize,
) -> u64
    ensures { KeepsDesk caller.old.desk caller.new.desk }
{
    let mut posted: u64 = 0;
    for _ in 0..ITEMS {
        posted = posted.saturating_add(u64::from(caller.post(rt, heap, subject, b'a')));
    }
    posted
}

// Takes the answers of a subject to so many calls, which have the tickets behind this one.
fn hear_some(
    rt: &(impl Wait + Abort),
    caller: &mut Caller<MemorySink>,
    subject: usize,
    before: u64,
    posted: u64,
)
    ensures { KeepsDesk caller.old.desk caller.new.desk }
{
    for number in 1..=posted {
        let ticket = before.saturating_add(number);
        expect_answer(rt, caller.answer(rt, subject, ticket), Ok(Answer::Admitted));
    }
}

// Emits those items that could not be posted.
fn emit_rest(
    rt: &(impl Wait + Abort),
    heap: &Heap,
    caller: &mut Caller<MemorySink>,
    subject: usize,
    posted: u64,
)
    ensures { KeepsDesk caller.old.desk caller.new.desk }
{
    for _ in posted..ITEMS {
        let answered = caller.emit(rt, heap, subject, b'a');
        expect_answer(rt, answered, Ok(Answer::Admitted));
    }
}

// Emits some items, together as far as they can be posted, into each of so many subjects, which admit them.
fn emit_together(
    rt: &(impl Wait + Abort),
    heap: &Heap,
    caller: &mut Caller<MemorySink>,
    subjects: usize,
)
    ensures { KeepsDesk caller.old.desk caller.new.desk }
{
    for subject in 0..subjects {
        let before = caller.tickets();
        let posted = post_some(rt, heap, caller, subject);
        hear_some(rt, caller, subject, before, posted);
        emit_rest(rt, heap, caller, subject, posted);
    }
}

// Does so some times.
fn emit_often(rt: &(impl Wait + Abort), heap: &Heap, caller: &mut Caller<MemorySink>)
    ensures { KeepsDesk caller.old.desk caller.new.desk }
{
    for _ in 0..ROUNDS {
        emit_together(rt, heap, caller, 1);
    }
}

// Many observers join by the one desk of a server, which then emits.
fn emit_to_many(
    rt: &impl Host,
    heap: &Heap,
    server: &mut Server<MemorySink>,
) -> Vec<EndedDesk<MemorySink>, Heap>
    ensures { All (IsEndOf server.new.made) result.items }
{
    let mut caller = caller_of(rt, server);
    join_many(rt, heap, &mut caller, OBSERVERS);
    emit_often(rt, heap, &mut caller);
    caller.finish_alone(rt, heap)
}

// Each observer is owed all items at once, so neither the box of the drainer nor that of the subject holds what is on the way.
#[test]
fn a_first_beyond_the_window(rt: HostRuntime) {
    let heap = Heap::unlimited(rt.alloc());
    let mut server = started(&rt, &heap, one_config());
    let ended = emit_to_many(&rt, &heap, &mut server);
    let report = closed(&rt, server, ended);
    expect_count(
        &rt,
        report.taken,
        u64::from(OBSERVERS) * ITEMS * ROUNDS,
        "taken",
    );
}

// Why a server is not closed whose first desk was let go with calls that no answer was taken to. Its subject goes on for the second.
fn fault_without_a_first(rt: &impl Host, heap: &Heap) -> CloseFault {
    let mut server: Server<MemorySink> = started(rt, heap, two_of_each());
    let mut first = caller_of(rt, &mut server);
    let _posted = post_some(rt, heap, &mut first, 0);
    drop(first);
    let mut second = caller_of(rt, &mut server);
    emit_often(rt, heap, &mut second);
    drop(second);
    match server.close(rt, Vec::new(copy(rt, heap))) {
        Ok(_) => panic!(rt; "the server was closed"),
        Err(fault) => fault,
    }
}

// A close waits for the desks of its server: those that were let go have ended as well.
#[test]
fn a_desk_that_is_let_go(rt: HostRuntime) {
    let fault = fault_without_a_first(&rt, &Heap::unlimited(rt.alloc()));
    let wanted = CloseFault {
        thread: Role::Pump,
        index: 0,
        cause: CloseCause::Unsettled,
    };
    assert_eq!(&rt; fault, wanted);
}

// More threads than a server starts.
const THREADS: u64 = 100;

// A desk of a server at work, whose calls have no answer yet.
fn at_work(rt: &impl Host, heap: &Heap, server: &mut Server<MemorySink>) -> Caller<MemorySink> {
    let mut caller = caller_of(rt, server);
    join_many(rt, heap, &mut caller, 2);
    let _posted = post_some(rt, heap, &mut caller, 0);
    caller
}

// Lets a server and a desk of it go, in one order or the other, and answers whether each thread ended.
fn all_end(rt: &impl Host, heap: &Heap, desk_goes_first: bool) -> bool {
    let host = (rt.clone().expect(rt, "a handle"), Ration::of(rt, THREADS));
    let config = config_of(rt, heap, two_of_each());
    let Ok(mut server) = start(&host, copy(rt, heap), config) else {
        return false;
    };
    let caller = at_work(rt, heap, &mut server);
    if desk_goes_first {
        drop(caller);
        drop(server);
    } else {
        drop(server);
        drop(caller);
    }
    host.1.all_ended(rt)
}

#[test]
fn a_server_that_is_let_go(rt: HostRuntime) {
    let heap = Heap::unlimited(rt.alloc());
    for desk_goes_first in &[true, false] {
        expect_that(
            &rt,
            all_end(&rt, &heap, *desk_goes_first),
            "each thread ended",
        );
    }
}

// How often a server is closed right behind an answer.
const CLOSES: u64 = 40;

// A desk of a server joins an observer of each of its two subjects, emits into both, and ends.
fn emit_and_end(
    rt: &impl Host,
    heap: &Heap,
    server: &mut Server<MemorySink>,
) -> Vec<EndedDesk<MemorySink>, Heap>
    ensures { All (IsEndOf server.new.made) result.items }
{
    let mut caller = caller_of(rt, server);
    join_each(rt, heap, &mut caller);
    emit_together(rt, heap, &mut caller, 2);
    caller.finish_alone(rt, heap)
}

// Joins an observer of each of two subjects.
fn join_each(rt: &(impl Wait + Abort), heap: &Heap, caller: &mut Caller<MemorySink>)
    ensures { KeepsDesk caller.old.desk caller.new.desk }
{
    for subject in 0..2 {
        let sink = MemorySink::new(copy(rt, heap), None);
        expect_answer(
            rt,
            caller.join(rt, subject, FIRST, sink),
            Ok(Answer::Joined(0)),
        );
    }
}

#[test]
fn what_was_answered_is_served_at_a_close(rt: HostRuntime) {
    let heap = Heap::unlimited(rt.alloc());
    for _ in 0..CLOSES {
        let mut server = started(&rt, &heap, two_of_each());
        let ended = emit_and_end(&rt, &heap, &mut server);
        let report = closed(&rt, server, ended);
        expect_count(&rt, report.taken, 2 * ITEMS, "taken");
    }
}
