//! Workers over connections in memory, whose reads and writes would block now and then: each session is answered as if it were
//! alone, and where a growth is refused a connection at most is given up.

use crate::expectations::{expect_count, expect_that, expect_told};
use crate::servers::{Host, closed, config_of, copy};
use rx_heap::Heap;
use rx_server::{
    AcceptFault, Aim, ClientSink, Idle, Joined, Listener, Moments, Readiness, Ready, ServeFault,
    Server, Waker, Watch, WatchFault, start,
};
use rx_workers::WatchLog;
use std::alloc::Global;
use std::io::{self, ErrorKind, Read, Write};
use std::process::Abort;
use std::sync::{Arc, Mutex, Wait};
use test_kit::Told;

// One subject, one worker, and as many connections as there are.
const ONE: &[u8] =
    b"[[subject]]\nname = \"s\"\nkind = \"publish\"\n[pool]\nworkers = 1\nconnections = 3\n";

// Hands it out, so that who serves by it is proved without its bytes.
fn one() -> &'static [u8] {
    ONE
}

// What each peer sends.
const SENT: [&[u8]; 3] = [
    b"PUB s a\nNOPE\nQUIT\nPUB s b\n",
    b"PUB t c\nPUB s d\n",
    b"HELLO 2\nPUB s e\nHELLO 3\nQUIT\n",
];

// What all are answered, each behind the one before.
const ANSWERED: &str = "OK\nERR SYNTAX\nOK\n|ERR SUBJECT\nOK\n|OK\nOK\nERR VERSION\nOK\n|";

// Hands it out, so that who serves by it is proved without its bytes.
fn answered_text() -> &'static str {
    ANSWERED
}

// The same where one is given up, or all are, or none: without the list of what a desk began its items go one by one.
const GIVEN_UP: [&[u8]; 6] = [
    b"OK\nERR SYNTAX\nOK\n|ERR SUBJECT\nOK\n|OK\nOK\nERR VERSION\nOK\n|",
    b"|ERR SUBJECT\nOK\n|OK\nOK\nERR VERSION\nOK\n|",
    b"OK\nERR SYNTAX\nOK\n||OK\nOK\nERR VERSION\nOK\n|",
    b"OK\nERR SYNTAX\nOK\n|ERR SUBJECT\nOK\n||",
    b"M|||",
    b"!",
];

// How serving ended: by no sign, `M` for want of memory, or `?` for another fault.
fn put_fault(told: &mut Told, served: Result<(), ServeFault>) {
    match served {
        Ok(()) => {}
        Err(ServeFault::Memory) => told.put(b'M'),
        Err(_) => told.put(b'?'),
    }
}

/// Sends its bytes, three at a time, each behind a read that would block.
struct Halting {
    bytes: &'static [u8],
    blocks: bool,
}

impl Drop for Halting {
    fn drop(self) {
        let Halting {
            bytes: _,
            blocks: _,
        } = self;
    }
}

impl Read for Halting {
    fn read(&mut self, buf: &mut [u8]) -> io::Result<usize> {
        self.blocks = !self.blocks;
        if self.blocks {
            return Err(io::Error::from(ErrorKind::WouldBlock));
        }
        let count = self.bytes.len().min(buf.len()).min(3);
        buf[..count].copy_from_slice(&self.bytes[..count]);
        self.bytes = &self.bytes[count..];
        Ok(count)
    }
}

/// What a peer is answered.
type Page = Arc<Mutex<Told>, Global>;

/// Takes a byte a call, each behind a write that would block.
struct Sipping<R: Wait + Drop> {
    rt: R,
    page: Page,
    blocks: bool,
}

impl<R: Wait + Drop> Drop for Sipping<R> {
    fn drop(self) {
        let Sipping {
            rt: _,
            page: _,
            blocks: _,
        } = self;
    }
}

impl<R: Wait + Drop> Write for Sipping<R> {
    fn write(&mut self, bytes: &[u8]) -> io::Result<usize> {
        self.blocks = !self.blocks;
        if self.blocks {
            return Err(io::Error::from(ErrorKind::WouldBlock));
        }
        let Some(byte) = bytes.first() else {
            return Ok(0);
        };
        self.page.lock(&self.rt).put(*byte);
        Ok(1)
    }

    fn flush(&mut self) -> io::Result<()> {
        Ok(())
    }
}

/// Tells each connection that is watched as ready, whenever it is asked.
pub(crate) struct Everyone {
    keys: Vec<usize>,
    at: usize,
    log: WatchLog,
}

impl Everyone {
    /// It watches nobody yet.
    pub(crate) fn new<C>(alloc: Global) -> Idle<C, Everyone> {
        Idle::new(Everyone {
            keys: Vec::new(alloc),
            at: 0,
            log: WatchLog::new(),
        })
    }
}

impl Drop for Everyone {
    fn drop(self) {
        let Everyone {
            keys: _,
            at: _,
            log: _,
        } = self;
    }
}

impl<C> Readiness<C> for Everyone {
    ghost use Rattle.rx_workers.specs.WatchLogs.{watched_by};

    ghost watched = { λ e. watched_by e.log };

    fn begin(&mut self, _connection: &C, key: usize) -> Result<(), WatchFault> {
        let Ok(()) = self.keys.push(key) else {
            return Err(WatchFault);
        };
        self.log = self.log.and(key, Some(Aim::Bytes));
        Ok(())
    }

    fn change(&mut self, _connection: &C, key: usize, aim: Aim) {
        self.log = self.log.and(key, Some(aim));
    }

    fn again(&mut self, _key: usize) {}

    fn name(&mut self, _connection: &C, _observer: Joined) {}

    fn forget(&mut self, _connection: &C, key: usize) {
        self.log = self.log.and(key, None);
    }

    fn wait(&mut self) {
        self.at = 0;
    }

    fn next(&mut self) -> Option<Ready> {
        let key = *self.keys.get(self.at)?;
        self.at = self.at.saturating_add(1);
        Some(Ready {
            key,
            is_gone: false,
        })
    }
}

/// Nobody sleeps who would have to be woken.
#[derive(Drop)]
pub(crate) struct Silent;

impl Waker for Silent {
    fn wake(&self) {}
}

/// Time stands still.
#[derive(Drop)]
pub(crate) struct Still;

impl Moments for Still {
    ghost tells = { λ _ _ _. Unit {0} };

    fn now(&mut self) -> u64 {
        0
    }
}

/// Has a connection for each page.
struct Peers<R: Host> {
    rt: R,
    pages: [Page; 3],
    accepted: usize,
}

impl<R: Host> Drop for Peers<R> {
    fn drop(self) {
        let Peers {
            rt: _,
            pages: _,
            accepted: _,
        } = self;
    }
}

// The halves of a connection whose peer sends these bytes, and is answered on this page.
fn halves<R: Wait + Clone + Drop>(
    rt: &R,
    page: &Page,
    bytes: &'static [u8],
) -> Option<(Halting, Sipping<R>)> {
    let page = Arc::try_clone(page).ok()?;
    let rt = rt.clone().ok()?;
    let reader = Halting {
        bytes,
        blocks: false,
    };
    let writer = Sipping {
        rt,
        page,
        blocks: false,
    };
    Some((reader, writer))
}

impl<R: Host> Listener for Peers<R> {
    type Reader = Halting;

    type Writer = Sipping<R>;

    type Readiness = Everyone;

    type Waker = Silent;

    ghost accepts = { λ _ _ _. Unit {0} };

    ghost fails = { λ _ _. Unit {0} };

    fn accept_one(&mut self) -> Result<(Halting, Sipping<R>), AcceptFault> {
        let at = self.accepted;
        self.accepted = at.saturating_add(1);
        match (SENT.get(at), self.pages.get(at)) {
            (Some(bytes), Some(page)) => halves(&self.rt, page, bytes).ok_or(AcceptFault),
            _ => Err(AcceptFault),
        }
    }

    fn watch(&self) -> Result<Watch<Halting, Everyone, Silent>, WatchFault> {
        let readiness = Everyone::new(self.rt.alloc());
        let waker = Silent;
        Ok(Watch { readiness, waker })
    }
}

// A page on which nothing stands yet.
fn page_of(rt: &impl Host) -> Page {
    Arc::new(rt.alloc(), Mutex::new(Told::new())).expect(rt, "a page")
}

fn share(rt: &impl Host, page: &Page) -> Page {
    Arc::try_clone(page).expect(rt, "a page")
}

// Serves a peer for each page.
fn serve_peers<R: Host>(
    rt: &R,
    free: &Heap,
    server: Server<ClientSink<Sipping<R>>>,
    pages: &[Page; 3],
) -> Result<(), ServeFault> {
    let mut server = server;
    let [first, second, third] = pages;
    let mut peers = Peers {
        rt: rt.clone().expect(rt, "a handle"),
        pages: [share(rt, first), share(rt, second), share(rt, third)],
        accepted: 0,
    };
    let served = server.serve(rt, &mut peers, Still);
    drop(closed(rt, server, Vec::new(copy(rt, free))));
    served
}

// What all peers of a server were answered that grows by `tight`: `!` where it was not started, `M` where none was accepted.
fn told_of<R: Host>(rt: &R, free: &Heap, tight: &Heap) -> Told {
    let mut told = Told::new();
    let Ok(server) = start(rt, copy(rt, tight), config_of(rt, free, one())) else {
        told.put(b'!');
        return told;
    };
    let pages = [page_of(rt), page_of(rt), page_of(rt)];
    put_fault(&mut told, serve_peers(rt, free, server, &pages));
    for page in &pages {
        told.put_all(page.lock(rt).as_bytes());
        told.put(b'|');
    }
    told
}

// No run has as many growths.
const MAX_GROWTHS: u64 = 1_000;

// Serves with a growth refused. Whether it was met.
fn meets_refusal<R: Host>(rt: &R, free: &Heap, growth: u64) -> bool {
    let tight = Heap::refusing(rt.alloc(), growth).expect(rt, "a budget");
    let told = told_of(rt, free, &tight);
    if tight.asked() > growth {
        let is_known = GIVEN_UP.iter().any(|known| *known == told.as_bytes());
        assert!(rt; is_known, "growth {growth}");
        return true;
    }
    expect_told(rt, told.as_bytes(), answered_text(), "no growth refused");
    expect_count(rt, tight.used(), 0, "bytes that were not given back");
    false
}

#[test]
fn sessions_have_their_turns(rt: HostRuntime) {
    let free = Heap::unlimited(rt.alloc());
    let told = told_of(&rt, &free, &Heap::unlimited(rt.alloc()));
    expect_told(&rt, told.as_bytes(), answered_text(), "each by turns");
}

#[test]
fn workers_with_each_growth_refused(rt: HostRuntime) {
    let free = Heap::unlimited(rt.alloc());
    let refused = (0..MAX_GROWTHS).find(|growth| !meets_refusal(&rt, &free, *growth));
    expect_that(&rt, refused >= Some(12), "growths that were refused");
}
