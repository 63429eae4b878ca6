use crate::notices::cause::{CAUSES, Cause};
use crate::notices::detail::Detail;
use crate::notices::given_up::GivenUp;
use rx_heap::Heap;
use rx_server::Joined;
use std::sync::atomic::{AtomicBool, AtomicU64, Ordering};
use std::sync::{Arc, Wait};
use std::thread::Parker;
use std::time::{Clock, Duration};

// How long who tells waits at most: then some events may have their line, and a warden looks; in seconds.
const LOOK: u64 = 1;

/// What a server decided of its peers so far, counted by cause. Whoever decides counts it here, from any thread, and waits for nobody.
#[derive(Drop)]
pub struct Notices {
    counts: [AtomicU64; CAUSES],
    details: [Detail; CAUSES],
    given_up: GivenUp,
    // How many connections hold bytes that their sockets didn't take.
    holding: AtomicU64,
    is_over: AtomicBool,
    // It rings for who tells them.
    bell: Parker,
}

/// Those of a server, which all its threads have.
pub type SharedNotices = Arc<Notices, Heap>;

impl Notices {
    /// Nothing was decided yet.
    pub fn new() -> Notices {
        Notices {
            counts: [
                AtomicU64::new(0),
                AtomicU64::new(0),
                AtomicU64::new(0),
                AtomicU64::new(0),
                AtomicU64::new(0),
                AtomicU64::new(0),
                AtomicU64::new(0),
                AtomicU64::new(0),
                AtomicU64::new(0),
            ],
            details: [
                Detail::new(),
                Detail::new(),
                Detail::new(),
                Detail::new(),
                Detail::new(),
                Detail::new(),
                Detail::new(),
                Detail::new(),
                Detail::new(),
            ],
            given_up: GivenUp::new(),
            holding: AtomicU64::new(0),
            is_over: AtomicBool::new(false),
            bell: Parker::new(),
        }
    }

    /// Counts one event of a cause, and wakes who tells it.
    pub fn count(&self, cause: Cause) {
        self.counts[cause.place()].fetch_add(1, Ordering::SeqCst);
        self.bell.unpark();
    }

    /// Counts one event of a cause that is about an observer, if its connection has one, in which so many bytes wait.
    pub fn count_about(&self, cause: Cause, observer: Option<Joined>, bytes: u64) {
        self.details[cause.place()].put(observer, bytes);
        self.count(cause);
    }

    /// Which observer the last event of a cause was about, and how many bytes waited in its connection.
    pub(crate) fn about(&self, cause: Cause) -> Option<(Joined, u64)> {
        self.details[cause.place()].read()
    }

    /// How many events of a cause have been.
    pub fn counted(&self, cause: Cause) -> u64 {
        self.counts[cause.place()].load(Ordering::SeqCst)
    }

    /// Of the subject at this place the observer of this number is to be given up, and no other one.
    pub(crate) fn give_up(&self, subject: usize, who: Option<u32>) {
        self.given_up.set(subject, who);
    }

    /// Whether this observer is to be given up.
    pub(crate) fn is_given_up(&self, observer: Joined) -> bool {
        self.given_up.has(observer)
    }

    /// A connection holds bytes that its socket didn't take, from now on.
    pub(crate) fn hold(&self) {
        self.holding.fetch_add(1, Ordering::SeqCst);
    }

    /// It holds none any more, or is let go.
    pub(crate) fn release(&self) {
        self.holding.fetch_sub(1, Ordering::SeqCst);
    }

    /// Whether a connection holds some.
    pub(crate) fn is_holding(&self) -> bool {
        self.holding.load(Ordering::SeqCst) > 0
    }

    /// No more is counted: who tells tells what is left, and ends.
    pub(crate) fn end(&self) {
        self.is_over.store(true, Ordering::SeqCst);
        self.bell.unpark();
    }

    /// Whether no more is counted.
    pub(crate) fn is_over(&self) -> bool {
        self.is_over.load(Ordering::SeqCst)
    }

    /// Waits until something was counted, or a second at most. It may come back early.
    pub(crate) fn wait<R: Wait + Clock>(&self, rt: &R) {
        self.bell.park_timeout(rt, Duration::from_secs(LOOK));
    }
}
