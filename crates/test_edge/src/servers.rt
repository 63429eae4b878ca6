//! Servers by their library calls: two desks that emit at the same time, two drainers that are at work at the same time,
//! and a run with each growth refused in its turn.

ghost use Rattle.std.specs.Prelude.{List};
ghost use Rattle.std.specs.List.{All};
ghost use Rattle.rx_pump.specs.Desks.{DeskView, KeepsDesk};
ghost use Rattle.rx_server.specs.Servers.{IsDeskOf, IsEndOf};

use crate::callers::{Caller, caller_of, emit_all};
use crate::expectations::{expect_answer, expect_count, expect_that, expect_told};
use rx_drain::{MemorySink, Sink};
use rx_heap::Heap;
use rx_note::{Answer, Note, Refusal};
use rx_pump::EndedDesk;
use rx_server::{Config, Report, Server, StartCause, SubjectReport, read_config, start};
use std::alloc::Global;
use std::ops::Range;
use std::process::Abort;
use std::sync::atomic::AtomicU64;
use std::sync::{Arc, Wait};
use std::test::Fail;
use std::thread::{Threads, join};
use std::time::Clock;
use test_kit::{Meeting, Told};

// What a server and its callers are handed.
pub(crate) trait Host: AllocGlobal
    + Clock
    + Threads
    + Wait
    + Abort
    + Clone
    + Drop
    + Send
    + Sync
    + 'static {}

impl<T: AllocGlobal + Clock + Threads + Wait + Abort + Clone + Drop + Send + Sync + 'static> Host
    for T {}

pub(crate) fn copy(rt: &impl Abort, alloc: &Heap) -> Heap {
    alloc.clone().expect(rt, "a handle")
}

// One subject, for two desks.
const TWO_DESKS: &[u8] = b"[[subject]]\nname = \"s\"\nkind = \"publish\"\n[pool]\nworkers = 2\n";

// Hands it out, so that who serves by it is proved without its bytes.
fn two_desks() -> &'static [u8] {
    TWO_DESKS
}

// One subject, with two drainers.
const TWO_DRAINERS: &[u8] =
    b"[[subject]]\nname = \"s\"\nkind = \"publish\"\n[pool]\nworkers = 1\ndrainers = 2\n";

// Hands it out, so that who serves by it is proved without its bytes.
fn two_drainers() -> &'static [u8] {
    TWO_DRAINERS
}

// Two subjects with two drainers, for two desks.
const TWO_OF_EACH: &[u8] =
    b"[[subject]]\nname = \"s\"\nkind = \"publish\"\n[[subject]]\nname = \"t\"\nkind = \"publish\"\n[pool]\nworkers = 2\ndrainers = 2\n";

// Hands it out, so that who serves by it is proved without its bytes.
pub(crate) fn two_of_each() -> &'static [u8] {
    TWO_OF_EACH
}

// The configuration that this text says.
pub(crate) fn config_of(rt: &impl Host, heap: &Heap, text: &[u8]) -> Config {
    match read_config(copy(rt, heap), rt.alloc(), text) {
        Ok(config) => config,
        Err(_) => panic!(rt; "a configuration that is refused"),
    }
}

// A server of the configuration that this text says.
pub(crate) fn started<S: Sink + Send + 'static>(
    rt: &impl Host,
    heap: &Heap,
    text: &[u8],
) -> Server<S>
where
    S::Rest: Send + 'static,
{
    match start(rt, copy(rt, heap), config_of(rt, heap, text)) {
        Ok(server) => server,
        Err(_) => panic!(rt; "the server was not started"),
    }
}

// The report of a server that is closed, whose desks have ended.
pub(crate) fn closed<S: Sink>(
    rt: &(impl Threads + Wait + Abort),
    server: Server<S>,
    ended: Vec<EndedDesk<S>, Heap>,
) -> Report<S>
    requires { All (IsEndOf server.made) ended.items }
{
    match server.close(rt, ended) {
        Ok(report) => report,
        Err(_) => panic!(rt; "the server was not closed"),
    }
}

// How many items each of two desks emits.
const ITEMS: u8 = 100;

// The bytes of the items of a desk, each another one.
fn all_bytes() -> Told {
    let mut bytes = Told::new();
    for number in 0..ITEMS {
        bytes.put(b' ' + number);
    }
    bytes
}

// The bytes of the items of a port, one behind the other.
fn bytes_from(notes: &[Note], from: u32) -> Told {
    let mut bytes = Told::new();
    for note in notes {
        match note {
            Note::Next(item) if item.from == from => bytes.put_all(item.text.as_bytes()),
            _ => (),
        }
    }
    bytes
}

// Two desks emit, each in a thread of its own.
fn emit_both(
    rt: &impl Host,
    heap: &Heap,
    first: Caller<MemorySink>,
    second: Caller<MemorySink>,
    bytes: &[u8],
) -> Vec<EndedDesk<MemorySink>, Heap>
    ensures { (made : List (DeskView MemorySink)) → IsDeskOf made first.desk → IsDeskOf made second.desk → All (IsEndOf made) result.items }
{
    let (first, second) = join(
        rt,
        || -> EndedDesk<MemorySink>
            ensures { (made : List (DeskView MemorySink)) → IsDeskOf made first.desk → IsEndOf made result }
        { emit_all(rt, heap, first, 1, bytes) },
        || -> EndedDesk<MemorySink>
            ensures { (made : List (DeskView MemorySink)) → IsDeskOf made second.desk → IsEndOf made result }
        { emit_all(rt, heap, second, 1, bytes) },
    );
    vec![in copy(rt, heap); first, second].expect(rt, "memory")
}

// Of two desks of a server one joins an observer, and then both emit.
fn emit_by_two(
    rt: &impl Host,
    heap: &Heap,
    server: &mut Server<MemorySink>,
    bytes: &[u8],
) -> Vec<EndedDesk<MemorySink>, Heap>
    ensures { All (IsEndOf server.new.made) result.items }
{
    let mut first = caller_of(rt, server);
    let second = caller_of(rt, server);
    let sink = MemorySink::new(copy(rt, heap), None);
    expect_answer(rt, first.join(rt, 0, 200, sink), Ok(Answer::Joined(0)));
    emit_both(rt, heap, first, second, bytes)
}

// The report of a server after that.
fn report_of_two_desks(rt: &impl Host, heap: &Heap, bytes: &[u8]) -> Report<MemorySink> {
    let mut server = started(rt, heap, two_desks());
    let ended = emit_by_two(rt, heap, &mut server, bytes);
    closed(rt, server, ended)
}

// The notes that the one sink of a server took.
fn notes_of<'a>(rt: &impl Abort, report: &'a Report<MemorySink>) -> &'a [Note] {
    match report.put_away.as_slice() {
        [list] => match list.as_slice() {
            [away] => away.rest.as_slice(),
            others => panic!(rt; "{} sinks", others.len()),
        },
        lists => panic!(rt; "{} drainers", lists.len()),
    }
}

/// The one subject of a report.
pub(crate) fn subject_of<'a, S: Sink>(rt: &impl Abort, report: &'a Report<S>) -> &'a SubjectReport {
    match report.subjects.as_slice() {
        [subject] => subject,
        subjects => panic!(rt; "{} subjects", subjects.len()),
    }
}

// There are so many notes, the items of these desks, those of each in their order.
pub(crate) fn expect_items(
    rt: &impl Abort,
    notes: &[Note],
    count: u64,
    desks: Range<u32>,
    bytes: &[u8],
) {
    expect_count(rt, notes.len() as u64, count, "notes");
    for from in desks {
        let emitted = bytes_from(notes, from);
        assert_eq!(rt; emitted.as_bytes(), bytes, "{from}");
    }
}

// A subject had so many calls and joins, and refused none of them.
pub(crate) fn expect_subject(rt: &impl Abort, subject: &SubjectReport, calls: u64, joins: u64) {
    expect_count(rt, subject.calls, calls, "calls");
    expect_count(rt, subject.refused, 0, "refused");
    expect_count(rt, u64::from(subject.joins), joins, "joins");
}

// The calls are the joining, the items, a request behind each of them, and the disposal.
fn expect_all_admitted(rt: &impl Abort, report: &Report<MemorySink>, bytes: &[u8]) {
    expect_subject(rt, subject_of(rt, report), 402, 1);
    expect_count(rt, report.taken, 200, "taken");
    expect_items(rt, notes_of(rt, report), 200, 0..2, bytes);
}

#[test]
fn two_desks_one_subject(rt: HostRuntime) {
    let bytes = all_bytes();
    let report = report_of_two_desks(&rt, &Heap::unlimited(rt.alloc()), bytes.as_bytes());
    expect_all_admitted(&rt, &report, bytes.as_bytes());
}

// Joins two observers whose sinks are to meet.
fn join_both<R: Host>(rt: &R, caller: &mut Caller<Meeting<R>>, come: &Arc<AtomicU64, Global>)
    ensures { KeepsDesk caller.old.desk caller.new.desk }
{
    for who in 0..2 {
        let sink = Meeting::of(rt, come).expect(rt, "a meeting");
        expect_answer(rt, caller.join(rt, 0, 1, sink), Ok(Answer::Joined(who)));
    }
}

// A desk of a server joins them, emits one item, and stays until both took it.
fn emit_to_both<R: Host>(
    rt: &R,
    heap: &Heap,
    server: &mut Server<Meeting<R>>,
    come: &Arc<AtomicU64, Global>,
) -> Vec<EndedDesk<Meeting<R>>, Heap>
    ensures { All (IsEndOf server.new.made) result.items }
{
    let mut caller = caller_of(rt, server);
    join_both(rt, &mut caller, come);
    expect_answer(rt, caller.emit(rt, heap, 0, b'a'), Ok(Answer::Admitted));
    expect_that(rt, Meeting::all_come(rt, come), "both took it");
    caller.finish_alone(rt, heap)
}

// The report of a server after that.
fn report_of_two_drainers<R: Host>(
    rt: &R,
    heap: &Heap,
    come: &Arc<AtomicU64, Global>,
) -> Report<Meeting<R>> {
    let mut server = started(rt, heap, two_drainers());
    let ended = emit_to_both(rt, heap, &mut server, come);
    closed(rt, server, ended)
}

// Which observer's sinks each drainer put away: `m` that it met the other one, `!` that it did not.
fn told_of_meetings<R: Host>(report: &Report<Meeting<R>>) -> Told {
    let mut told = Told::new();
    for list in &report.put_away {
        for away in list.as_slice() {
            told.put_digit(away.who as usize);
            told.put(if away.rest { b'm' } else { b'!' });
        }
        told.put(b'|');
    }
    told
}

// Both sinks met.
fn expect_met<R: Host>(rt: &R, report: &Report<Meeting<R>>) {
    expect_count(rt, report.taken, 2, "taken");
    expect_told(
        rt,
        told_of_meetings(report).as_bytes(),
        "0m|1m|",
        "meetings",
    );
}

#[test]
fn two_drainers_meet(rt: HostRuntime) -> Result<(), Fail> {
    let come = Arc::new(rt.alloc(), AtomicU64::new(0))?;
    expect_met(
        &rt,
        &report_of_two_drainers(&rt, &Heap::unlimited(rt.alloc()), &come),
    );
    Ok(())
}

// Puts how many notes were taken, and behind a space for each subject its calls, those refused and its joins.
fn put_report<S: Sink>(told: &mut Told, report: &Report<S>) {
    told.put_digit(report.taken as usize);
    for subject in &report.subjects {
        told.put(b' ');
        told.put_digit(subject.calls as usize);
        told.put_digit(subject.refused as usize);
        told.put_digit(subject.joins as usize);
    }
}

/// What a desk was answered, and what it left.
#[derive(Drop)]
struct Called {
    answers: [Result<Answer, Refusal>; 2],
    ended: Vec<EndedDesk<MemorySink>, Heap>,
}

// A desk joins an observer, whose sink grows by `tight`, and emits an item.
fn call_twice(rt: &impl Host, free: &Heap, tight: &Heap, caller: Caller<MemorySink>) -> Called
    ensures { (made : List (DeskView MemorySink)) → IsDeskOf made caller.desk → All (IsEndOf made) result.ended.items }
{
    let mut caller = caller;
    let sink = MemorySink::new(copy(rt, tight), None);
    let joined = caller.join(rt, 0, 1, sink);
    let emitted = caller.emit(rt, free, 0, b'a');
    Called {
        answers: [joined, emitted],
        ended: caller.finish_alone(rt, free),
    }
}

// What is told of a run: the answers, and the report.
fn told_of_run<S: Sink>(answers: &[Result<Answer, Refusal>], report: &Report<S>) -> Told {
    let mut told = Told::new();
    for answer in answers {
        told.put_answer(*answer);
    }
    told.put(b'|');
    put_report(&mut told, report);
    told
}

// What is told of a server of which a desk does that.
fn told_of_server(rt: &impl Host, free: &Heap, tight: &Heap, server: Server<MemorySink>) -> Told {
    let mut server = server;
    let caller = caller_of(rt, &mut server);
    let Called { answers, ended } = call_twice(rt, free, tight, caller);
    told_of_run(answers.as_slice(), &closed(rt, server, ended))
}

// What is told of a server that was not started: `!` where there was no memory, `?` where there was no thread.
fn told_of_fault(cause: StartCause) -> Told {
    let mut told = Told::new();
    told.put(match cause {
        StartCause::Memory => b'!',
        StartCause::NoThread => b'?',
    });
    told
}

// What is told of a server that grows by `tight`.
fn told_of(rt: &impl Host, free: &Heap, tight: &Heap) -> Told {
    match start(rt, copy(rt, tight), config_of(rt, free, two_of_each())) {
        Ok(server) => told_of_server(rt, free, tight, server),
        Err(fault) => told_of_fault(fault.cause),
    }
}

// What is told where no growth is refused.
const UNREFUSED: &str = "J0A|1 401 000";

// What is told where one is: of making the server, of the joining, of the emission, and of handing the sink its item.
const REFUSED: [&[u8]; 4] = [b"!", b"mA|0 210 000", b"J0m|0 311 000", b"J0A|0 301 000"];

// Whether this is told where a growth is refused, and all bytes are back. The threads of a server that was not started are
// not waited for: they may still hold some.
fn is_refused(told: &[u8], used: u64) -> bool {
    match REFUSED.iter().position(|refused| *refused == told) {
        None => false,
        Some(0) => true,
        Some(_) => used == 0,
    }
}

// No run has as many growths.
const MAX_GROWTHS: u64 = 1_000;

// Runs with a growth refused. Whether the run met the refusal.
fn meets_refusal(rt: &impl Host, free: &Heap, tight: &Heap, growth: u64) -> bool {
    let told = told_of(rt, free, tight);
    let is_met = tight.asked() > growth;
    if is_met {
        assert!(rt;
            is_refused(told.as_bytes(), tight.used()),
            "growth {growth}"
        );
    } else {
        expect_told(rt, told.as_bytes(), UNREFUSED, "no growth refused");
        expect_count(rt, tight.used(), 0, "bytes that were not given back");
    }
    is_met
}

// How many growths were refused, each in a run of its own, until a run met no refusal.
fn refused_in_turn(rt: &impl Host, free: &Heap) -> Option<u64> {
    for growth in 0..MAX_GROWTHS {
        let tight = Heap::refusing(rt.alloc(), growth).expect(rt, "a budget");
        if !meets_refusal(rt, free, &tight, growth) {
            return Some(growth);
        }
    }
    None
}

#[test]
fn server_with_each_growth_refused(rt: HostRuntime) {
    let refused = refused_in_turn(&rt, &Heap::unlimited(rt.alloc()));
    expect_that(&rt, refused >= Some(12), "growths that were refused");
}
