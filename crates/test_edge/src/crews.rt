//! Crews of workers over a listener in memory: who served which connection, and how serving ends where the listener fails, where
//! a worker has nothing to wait by, and where no desk is left.

use crate::callers::caller_of;
use crate::expectations::{expect_answer, expect_that, expect_told};
use crate::servers::{Host, closed, config_of, copy, started};
use crate::turns::{Everyone, Silent, Still};
use rx_drain::LineSink;
use rx_heap::Heap;
use rx_note::Answer;
use rx_proto::Version;
use rx_pump::EndedDesk;
use rx_server::{AcceptFault, ClientSink, Listener, ServeFault, Server, Watch, WatchFault};
use std::alloc::Global;
use std::io::{self, Read, Write};
use std::process::Abort;
use std::sync::atomic::{AtomicU64, Ordering};
use std::sync::{Arc, Mutex, Wait};
use test_kit::Told;

// One subject and four desks.
const FOUR: &[u8] =
    b"[[subject]]\nname = \"s\"\nkind = \"publish\"\n[pool]\nworkers = 4\nconnections = 40\n";

// Hands it out, so that who serves by it is proved without its bytes.
fn four() -> &'static [u8] {
    FOUR
}

// One of each.
const ONE_DESK: &[u8] = b"[[subject]]\nname = \"s\"\nkind = \"publish\"\n[pool]\nworkers = 1\n";

// Hands it out, so that who serves by it is proved without its bytes.
fn one_desk() -> &'static [u8] {
    ONE_DESK
}

// How many connections there are.
const CONNECTIONS: usize = 40;

// Who served each, by the number of its desk: the first desk was handed out before.
const IN_TURN: &str = "1231231231231231231231231231231231231231";

// The same where the listener fails behind the first five.
const FIRST_FIVE: &str = "12312-----------------------------------";

const NOBODY: &str = "----------------------------------------";

/// By which desk each connection's item came, `-` where none did.
type Page = Arc<Mutex<[u8; CONNECTIONS]>, Global>;

/// What one peer sends: an item with the number of its connection, and then the end of its session.
struct Lines {
    bytes: [u8; 14],
    at: usize,
}

impl Drop for Lines {
    fn drop(self) {
        let Lines { bytes: _, at: _ } = self;
    }
}

impl Lines {
    // Of the connection of this number, below a hundred.
    fn of(number: usize) -> Lines {
        let mut bytes = *b"PUB s 00\nQUIT\n";
        bytes[6] = b'0' + (number / 10 % 10) as u8;
        bytes[7] = b'0' + (number % 10) as u8;
        Lines { bytes, at: 0 }
    }
}

impl Read for Lines {
    fn read(&mut self, buf: &mut [u8]) -> io::Result<usize> {
        let rest = self.bytes.get(self.at..).unwrap_or(&[]);
        let count = rest.len().min(buf.len());
        buf[..count].copy_from_slice(&rest[..count]);
        self.at = self.at.saturating_add(count);
        Ok(count)
    }
}

/// Marks each note that is written on the page, and passes over what a session is answered.
struct Clerk<R: Wait + Drop> {
    rt: R,
    page: Page,
}

impl<R: Wait + Drop> Drop for Clerk<R> {
    fn drop(self) {
        let Clerk { rt: _, page: _ } = self;
    }
}

impl<R: Wait + Drop> Write for Clerk<R> {
    fn write(&mut self, bytes: &[u8]) -> io::Result<usize> {
        if let Some((from, number)) = noted(bytes) {
            if let Some(mark) = self.page.lock(&self.rt).get_mut(number) {
                *mark = from;
            }
        }
        Ok(bytes.len())
    }

    fn flush(&mut self) -> io::Result<()> {
        Ok(())
    }
}

// By which desk an item came, and the number that it says: behind `NEXT ` stand its place, the desk's digit, two digits and LF.
fn noted(line: &[u8]) -> Option<(u8, usize)> {
    if !line.starts_with(b"NEXT ") {
        return None;
    }
    let from = sign(line, 5)?;
    let tens = sign(line, 3)?.checked_sub(b'0')?;
    let ones = sign(line, 2)?.checked_sub(b'0')?;
    Some((from, usize::from(tens) * 10 + usize::from(ones)))
}

// The byte that stands so far from the end.
fn sign(line: &[u8], back: usize) -> Option<u8> {
    line.get(line.len().checked_sub(back)?).copied()
}

/// Where a listener fails: at the connection of one number, and at what the worker of one number is to wait by.
#[derive(Clone, Copy)]
struct Faults {
    accept: usize,
    watch: u64,
}

const NO_FAULT: Faults = Faults {
    accept: CONNECTIONS,
    watch: 4,
};

/// Has connections one after another, until it fails.
struct Peers<R: Host> {
    rt: R,
    page: Page,
    faults: Faults,
    accepted: usize,
    watched: AtomicU64,
}

impl<R: Host> Drop for Peers<R> {
    fn drop(self) {
        let Peers {
            rt: _,
            page: _,
            faults: _,
            accepted: _,
            watched: _,
        } = self;
    }
}

impl<R: Host> Listener for Peers<R> {
    type Reader = Lines;

    type Writer = Clerk<R>;

    type Readiness = Everyone;

    type Waker = Silent;

    ghost accepts = { λ _ _ _. Unit {0} };

    ghost fails = { λ _ _. Unit {0} };

    fn accept_one(&mut self) -> Result<(Lines, Clerk<R>), AcceptFault> {
        let number = self.accepted;
        if number >= self.faults.accept {
            return Err(AcceptFault);
        }
        self.accepted = number.saturating_add(1);
        match clerk_on(&self.rt, &self.page) {
            Some(clerk) => Ok((Lines::of(number), clerk)),
            None => Err(AcceptFault),
        }
    }

    fn watch(&self) -> Result<Watch<Lines, Everyone, Silent>, WatchFault> {
        if self.watched.fetch_add(1, Ordering::SeqCst) >= self.faults.watch {
            return Err(WatchFault);
        }
        let readiness = Everyone::new(self.rt.alloc());
        let waker = Silent;
        Ok(Watch { readiness, waker })
    }
}

// One who marks notes on this page.
fn clerk_on<R: Wait + Clone + Drop>(rt: &R, page: &Page) -> Option<Clerk<R>> {
    let page = Arc::try_clone(page).ok()?;
    let rt = rt.clone().ok()?;
    Some(Clerk { rt, page })
}

// A page on which nothing stands yet.
fn page_of(rt: &impl Host) -> Page {
    Arc::new(rt.alloc(), Mutex::new([b'-'; CONNECTIONS])).expect(rt, "a page")
}

// A listener that fails so.
fn peers_of<R: Host>(rt: &R, page: &Page, faults: Faults) -> Peers<R> {
    Peers {
        rt: rt.clone().expect(rt, "a handle"),
        page: Arc::try_clone(page).expect(rt, "a page"),
        faults,
        accepted: 0,
        watched: AtomicU64::new(0),
    }
}

/// What a run was told, and who served which connection.
#[derive(Drop)]
struct Run {
    served: Result<(), ServeFault>,
    page: [u8; CONNECTIONS],
}

// The first desk joins an observer who is owed each item, and then the others serve a listener that fails so.
fn run_of<R: Host>(rt: &R, faults: Faults) -> Run {
    let heap = Heap::unlimited(rt.alloc());
    let page = page_of(rt);
    let mut server: Server<ClientSink<Clerk<R>>> = started(rt, &heap, four());
    let mut first = caller_of(rt, &mut server);
    let clerk = clerk_on(rt, &page).expect(rt, "a clerk");
    let sink = ClientSink::Lines(LineSink::new(clerk, Version::Two));
    expect_answer(rt, first.join(rt, 0, 100, sink), Ok(Answer::Joined(0)));
    let served = server.serve(rt, &mut peers_of(rt, &page, faults), Still);
    let ended = first.finish_alone(rt, &heap);
    drop(closed(rt, server, ended));
    let page = *page.lock(rt);
    Run { served, page }
}

// A listener that fails so is served until this, and these served its connections.
fn expect_run(rt: &impl Host, faults: Faults, served: Result<(), ServeFault>, marks: &str) {
    let run = run_of(rt, faults);
    assert_eq!(rt; run.served, served);
    expect_told(rt, run.page.as_slice(), marks, "who served which");
}

#[test]
fn connections_go_in_turn(rt: HostRuntime) {
    expect_run(&rt, NO_FAULT, Ok(()), IN_TURN);
}

#[test]
fn a_listener_that_fails(rt: HostRuntime) {
    let faults = Faults {
        accept: 5,
        ..NO_FAULT
    };
    expect_run(&rt, faults, Err(ServeFault::Accept), FIRST_FIVE);
}

// No desk is left, so nobody is served, and the server goes on.
#[test]
fn no_desk_is_left(rt: HostRuntime) {
    let heap = Heap::unlimited(rt.alloc());
    let page = page_of(&rt);
    let mut server: Server<ClientSink<Clerk<HostRuntime>>> = started(&rt, &heap, one_desk());
    let only = caller_of(&rt, &mut server);
    let served = server.serve(&rt, &mut peers_of(&rt, &page, NO_FAULT), Still);
    assert_eq!(&rt; served, Err(ServeFault::NoDesk));
    let ended = only.finish_alone(&rt, &heap);
    drop(closed(&rt, server, ended));
}

// The third worker has nothing to wait by, so nobody is served.
#[test]
fn a_worker_without_a_watch(rt: HostRuntime) {
    let faults = Faults {
        watch: 2,
        ..NO_FAULT
    };
    expect_run(&rt, faults, Err(ServeFault::Thread(2)), NOBODY);
}
