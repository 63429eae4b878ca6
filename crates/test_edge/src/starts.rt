//! Servers that can't be started, with each growth and each thread refused in its turn, and a close, which asks for no memory.

ghost use Rattle.std.specs.Prelude.{List};
ghost use Rattle.std.specs.List.{All};
ghost use Rattle.rx_pump.specs.Desks.{DeskView};
ghost use Rattle.rx_server.specs.Servers.{IsDeskOf, IsEndOf};

use crate::callers::caller_of;
use crate::expectations::{expect_count, expect_that, expect_told};
use crate::servers::{Host, closed, config_of, copy, started, two_of_each};
use rx_drain::MemorySink;
use rx_heap::Heap;
use rx_pump::EndedDesk;
use rx_server::{Role, Server, StartCause, StartFault, start};
use std::alloc::{AllocError, Global};
use std::sync::Arc;
use std::sync::atomic::{AtomicU64, Ordering};
use std::thread;
use std::time::Duration;
use test_kit::Told;

// Puts the thread of a fault, and `!` where there was no memory for it, `?` where it had no thread.
fn put_fault(told: &mut Told, fault: StartFault) {
    told.put(match fault.thread {
        Role::Pump => b'p',
        Role::Drainer => b'd',
        Role::Worker => b'w',
    });
    told.put_digit(fault.index);
    told.put(match fault.cause {
        StartCause::Memory => b'!',
        StartCause::NoThread => b'?',
    });
}

// The threads for which there was no memory, growth by growth, of a server with two of each. In the order in which it is made:
// the boxes of the pumps, of the drainers and of the replies to the workers' desks; the lists of parts, which count as the first
// pump; the hubs, and then the pumps; the desks; the drainers; room for the close, which counts as the first pump; what the
// workers share; and the lists of the threads, of pumps and of drainers.
const NO_MEMORY: &str = "p0!p1!d0!d1!w0!w1!p0!p1!p0!p1!w0!w1!d0!d1!p0!w0!p0!d0!";

// No run has as many growths.
const MAX_GROWTHS: u64 = 1_000;

// What is told of the growths, each refused in a run of its own, until one is refused no more. A fault is told once where that of
// the growth before is the same. No thread runs yet where memory is wanting, so all bytes are back.
fn told_of_growths(rt: &impl Host, free: &Heap) -> Told {
    let mut told = Told::new();
    let mut last = None;
    for growth in 0..MAX_GROWTHS {
        let tight = Heap::refusing(rt.alloc(), growth).expect(rt, "a budget");
        let config = config_of(rt, free, two_of_each());
        match start::<MemorySink, _>(rt, copy(rt, &tight), config) {
            Ok(server) => {
                drop(closed(rt, server, Vec::new(copy(rt, free))));
                return told;
            }
            Err(fault) => {
                expect_count(rt, tight.used(), 0, "bytes that were not given back");
                if last != Some(fault) {
                    put_fault(&mut told, fault);
                }
                last = Some(fault);
            }
        }
    }
    panic!(rt; "growths without an end")
}

#[test]
fn start_tells_for_what_memory_is_wanting(rt: HostRuntime) {
    let told = told_of_growths(&rt, &Heap::unlimited(rt.alloc()));
    expect_told(&rt, told.as_bytes(), NO_MEMORY, "no memory");
}

/// A right to so many copies, which the copies share, and how many there are. A runtime beside it starts so many threads of a
/// server, each of which takes a copy of both, and lets go of them as it ends.
pub(crate) struct Ration {
    left: Arc<AtomicU64, Global>,
    there: Arc<AtomicU64, Global>,
}

impl Drop for Ration {
    fn drop(self) {
        let Ration { left: _, there } = self;
        there.fetch_sub(1, Ordering::SeqCst);
    }
}

impl Clone for Ration {
    ghost is_clone = { λ ration copy. Unit {0} };

    fn clone(&self) -> Result<Ration, AllocError> {
        let left = self.left.load(Ordering::SeqCst);
        if left == 0 {
            return Err(AllocError);
        }
        self.left.store(left - 1, Ordering::SeqCst);
        let left = Arc::try_clone(&self.left)?;
        let there = Arc::try_clone(&self.there)?;
        there.fetch_add(1, Ordering::SeqCst);
        Ok(Ration { left, there })
    }
}

// How often one looks whether all threads ended, a millisecond apart.
const LOOKS: u64 = 10_000;

impl Ration {
    /// A right to so many copies.
    pub(crate) fn of(rt: &impl Host, copies: u64) -> Ration {
        Ration {
            left: Arc::new(rt.alloc(), AtomicU64::new(copies)).expect(rt, "memory"),
            there: Arc::new(rt.alloc(), AtomicU64::new(1)).expect(rt, "memory"),
        }
    }

    /// Whether no thread has a copy, or within some seconds none has.
    pub(crate) fn all_ended(&self, rt: &impl Host) -> bool {
        for _ in 0..LOOKS {
            if self.there.load(Ordering::SeqCst) == 1 {
                return true;
            }
            thread::sleep(rt, Duration::from_millis(1));
        }
        false
    }
}

// How a server ends that may start so many threads: by its fault, or not at all. No thread of it is left then.
fn told_with_threads<R: Host>(rt: &R, free: &Heap, threads: u64) -> Told {
    let host = (rt.clone().expect(rt, "a handle"), Ration::of(rt, threads));
    let mut told = Told::new();
    let config = config_of(rt, free, two_of_each());
    match start::<MemorySink, _>(&host, copy(rt, free), config) {
        Ok(server) => drop(closed(rt, server, Vec::new(copy(rt, free)))),
        Err(fault) => put_fault(&mut told, fault),
    }
    expect_that(rt, host.1.all_ended(rt), "each thread ended");
    told
}

#[test]
fn start_tells_which_thread_is_wanting(rt: HostRuntime) {
    let free = Heap::unlimited(rt.alloc());
    for (threads, fault) in &[(0, "p0?"), (1, "p1?"), (2, "d0?"), (3, "d1?"), (4, "")] {
        let told = told_with_threads(&rt, &free, *threads);
        expect_told(&rt, told.as_bytes(), fault, "no thread");
    }
}

// Both desks of a server, ended.
fn both_ended(
    rt: &impl Host,
    free: &Heap,
    server: &mut Server<MemorySink>,
) -> Vec<EndedDesk<MemorySink>, Heap>
    ensures { All (IsEndOf server.new.made) result.items }
{
    let first = caller_of(rt, server);
    let second = caller_of(rt, server);
    vec![in copy(rt, free); first.finish(rt), second.finish(rt)].expect(rt, "memory")
}

#[test]
fn close_asks_for_no_memory(rt: HostRuntime) {
    let free = Heap::unlimited(rt.alloc());
    let counted = Heap::refusing(rt.alloc(), MAX_GROWTHS).expect(&rt, "a budget");
    let mut server = started(&rt, &counted, two_of_each());
    let ended = both_ended(&rt, &free, &mut server);
    let asked = counted.asked();
    drop(closed(&rt, server, ended));
    expect_count(&rt, counted.asked(), asked, "growths in a close");
    expect_count(&rt, counted.used(), 0, "bytes that were not given back");
}
