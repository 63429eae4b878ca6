//! Three desks on three threads that call two subjects, and a desk that is not handed in.

ghost use Rattle.std.specs.Prelude.{List};
ghost use Rattle.std.specs.List.{All};
ghost use Rattle.rx_pump.specs.Desks.{DeskView, KeepsDesk};
ghost use Rattle.rx_server.specs.Servers.{IsDeskOf, IsEndOf};

use crate::callers::{Caller, caller_of, emit_all};
use crate::expectations::{expect_count, expect_that};
use crate::servers::{Host, closed, copy, expect_items, expect_subject, started, two_of_each};
use rx_drain::MemorySink;
use rx_heap::Heap;
use rx_note::Answer;
use rx_pump::EndedDesk;
use rx_server::{CloseCause, CloseFault, Report, Role, Server};
use std::process::Abort;
use std::sync::Wait;
use std::sync::atomic::{AtomicU64, Ordering};
use std::thread;
use std::thread::join;
use std::time::{Clock, Duration};

// Two subjects with two drainers, for three desks.
const THREE_DESKS: &[u8] =
    b"[[subject]]\nname = \"s\"\nkind = \"publish\"\n[[subject]]\nname = \"t\"\nkind = \"replay\"\n[pool]\nworkers = 3\ndrainers = 2\n";

// Hands it out, so that who serves by it is proved without its bytes.
fn three_desks_config() -> &'static [u8] {
    THREE_DESKS
}

// How many desks wait for one another, and how often one looks for the others, a millisecond apart.
const DESKS: u64 = 3;

const LOOKS: u64 = 10_000;

// The bytes of the items that each desk emits into each subject.
const ITEMS: &[u8] = b"0123456789";

// Comes, and goes on once all desks have come.
fn come_together(rt: &(impl Clock + Abort), come: &AtomicU64) {
    come.fetch_add(1, Ordering::SeqCst);
    for _ in 0..LOOKS {
        if come.load(Ordering::SeqCst) >= DESKS {
            return;
        }
        thread::sleep(rt, Duration::from_millis(1));
    }
    panic!(rt; "not all desks came");
}

// Joins an observer of a subject, whose sink keeps what it is handed.
fn join_one(rt: &(impl Wait + Abort), heap: &Heap, caller: &mut Caller<MemorySink>, subject: usize)
    ensures { KeepsDesk caller.old.desk caller.new.desk }
{
    let sink = MemorySink::new(copy(rt, heap), None);
    let joined = caller.join(rt, subject, 50, sink);
    expect_that(rt, matches!(joined, Ok(Answer::Joined(_))), "joined");
}

// A desk joins an observer of each subject and, once all desks have, emits into both.
fn join_and_emit(
    rt: &impl Host,
    heap: &Heap,
    come: &AtomicU64,
    caller: Caller<MemorySink>,
) -> EndedDesk<MemorySink>
    ensures { (made : List (DeskView MemorySink)) → IsDeskOf made caller.desk → IsEndOf made result }
{
    let mut caller = caller;
    join_one(rt, heap, &mut caller, 0);
    join_one(rt, heap, &mut caller, 1);
    come_together(rt, come);
    emit_all(rt, heap, caller, 2, ITEMS)
}

// Two desks do so, each in a thread of its own.
fn emit_by_pair(
    rt: &impl Host,
    heap: &Heap,
    come: &AtomicU64,
    first: Caller<MemorySink>,
    second: Caller<MemorySink>,
) -> (EndedDesk<MemorySink>, EndedDesk<MemorySink>)
    ensures first { (made : List (DeskView MemorySink)) → IsDeskOf made first.desk → IsEndOf made result.0 }
    ensures second { (made : List (DeskView MemorySink)) → IsDeskOf made second.desk → IsEndOf made result.1 }
{
    join(
        rt,
        || -> EndedDesk<MemorySink>
            ensures { (made : List (DeskView MemorySink)) → IsDeskOf made first.desk → IsEndOf made result }
        { join_and_emit(rt, heap, come, first) },
        || -> EndedDesk<MemorySink>
            ensures { (made : List (DeskView MemorySink)) → IsDeskOf made second.desk → IsEndOf made result }
        { join_and_emit(rt, heap, come, second) },
    )
}

// The first three desks of a server do so.
fn emit_by_three(
    rt: &impl Host,
    heap: &Heap,
    server: &mut Server<MemorySink>,
) -> Vec<EndedDesk<MemorySink>, Heap>
    ensures { All (IsEndOf server.new.made) result.items }
{
    let come = &AtomicU64::new(0);
    let first = caller_of(rt, server);
    let second = caller_of(rt, server);
    let third = caller_of(rt, server);
    let (first, (second, third)) = join(
        rt,
        || -> EndedDesk<MemorySink>
            ensures { (made : List (DeskView MemorySink)) → IsDeskOf made first.desk → IsEndOf made result }
        { join_and_emit(rt, heap, come, first) },
        || -> (EndedDesk<MemorySink>, EndedDesk<MemorySink>)
            ensures { ((made : List (DeskView MemorySink)) → IsDeskOf made second.desk → IsEndOf made result.0)
                × ((made : List (DeskView MemorySink)) → IsDeskOf made third.desk → IsEndOf made result.1) }
        { emit_by_pair(rt, heap, come, second, third) },
    );
    vec![in copy(rt, heap); first, second, third].expect(rt, "memory")
}

// The report of a server after that.
fn report_of_three_desks(rt: &impl Host, heap: &Heap) -> Report<MemorySink> {
    let mut server = started(rt, heap, three_desks_config());
    let ended = emit_by_three(rt, heap, &mut server);
    closed(rt, server, ended)
}

// How many sinks of a subject were put away, each of which took the items of all desks.
fn full_sinks_of(rt: &impl Abort, report: &Report<MemorySink>, subject: u32) -> u64 {
    let mut sinks: u64 = 0;
    for list in &report.put_away {
        for away in list.as_slice() {
            if away.subject == subject {
                expect_items(rt, away.rest.as_slice(), 30, 0..3, ITEMS);
                sinks = sinks.saturating_add(1);
            }
        }
    }
    sinks
}

// The calls of each subject are the joinings, the items, a request behind each item that each sink took, and the disposals.
fn expect_each_whole(rt: &impl Abort, report: &Report<MemorySink>) {
    expect_count(rt, report.taken, 180, "taken");
    expect_count(rt, report.subjects.len() as u64, 2, "subjects");
    for subject in &report.subjects {
        expect_subject(rt, subject, 126, 3);
    }
    for subject in 0..2 {
        expect_count(rt, full_sinks_of(rt, report, subject), 3, "sinks");
    }
}

#[test]
fn three_desks_two_subjects(rt: HostRuntime) {
    expect_each_whole(
        &rt,
        &report_of_three_desks(&rt, &Heap::unlimited(rt.alloc())),
    );
}

// Why a server is not closed of which a desk was handed out, but is not handed in.
fn fault_without_a_desk(rt: &impl Host, heap: &Heap) -> CloseFault {
    let mut server: Server<MemorySink> = started(rt, heap, two_of_each());
    let kept = caller_of(rt, &mut server).finish(rt);
    let closed = server.close(rt, Vec::new(copy(rt, heap)));
    drop(kept);
    match closed {
        Ok(_) => panic!(rt; "the server was closed"),
        Err(fault) => fault,
    }
}

// The box of the first subject lacks the desk's port.
#[test]
fn desk_not_handed_in(rt: HostRuntime) {
    let fault = fault_without_a_desk(&rt, &Heap::unlimited(rt.alloc()));
    let wanted = CloseFault {
        thread: Role::Pump,
        index: 0,
        cause: CloseCause::Unsettled,
    };
    assert_eq!(&rt; fault, wanted);
}
