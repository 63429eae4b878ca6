// Nothing here is in a contract: a stop is told, and who hears it serves no more. Who asks first is heard, so that nobody puts off what
// another waits for. Its time counts from when somebody with a clock heard it.
use rx_heap::{Heap, Memory};
use std::sync::Arc;
use std::sync::atomic::{AtomicBool, AtomicU32, AtomicU64, Ordering};

// No deadline is known yet.
const NONE: u64 = u64::MAX;

/// By what a server is told to stop. Any thread asks it and is asked, and waits for nobody.
#[derive(Drop)]
pub struct Stop {
    // In seconds.
    within: AtomicU32,
    is_asked: AtomicBool,
    // In milliseconds, by the clock of who began its time.
    deadline: AtomicU64,
}

/// That of a server, which all its threads have.
pub type SharedStop = Arc<Stop, Heap>;

impl Stop {
    /// Nobody asked yet.
    ///
    /// # Errors
    ///
    /// `Memory`: there was none for it.
    pub fn shared(alloc: Heap) -> Result<SharedStop, Memory> {
        let stop = Stop {
            within: AtomicU32::new(0),
            is_asked: AtomicBool::new(false),
            deadline: AtomicU64::new(NONE),
        };
        Ok(Arc::new(alloc, stop)?)
    }

    /// Asks for it, within so many seconds; once it is asked for, that changes nothing.
    pub fn ask(&self, within: u32) {
        if !self.is_asked() {
            self.within.store(within, Ordering::SeqCst);
            self.is_asked.store(true, Ordering::SeqCst);
        }
    }

    /// Whether it is asked for: no connection of a session is accepted, and nothing more read of one.
    pub fn is_asked(&self) -> bool {
        self.is_asked.load(Ordering::SeqCst)
    }

    /// Begins its time at this moment, in milliseconds, where it is asked for and its time did not begin. Whether it began now.
    pub fn begin(&self, now: u64) -> bool {
        if !self.is_asked() || self.deadline.load(Ordering::SeqCst) != NONE {
            return false;
        }
        let within = 1000 * u64::from(self.within.load(Ordering::SeqCst));
        self.deadline
            .store(now.saturating_add(within), Ordering::SeqCst);
        true
    }

    /// How many seconds it may take, once its time began.
    pub fn seconds(&self) -> Option<u32> {
        match self.deadline.load(Ordering::SeqCst) {
            NONE => None,
            _ => Some(self.within.load(Ordering::SeqCst)),
        }
    }

    /// How many milliseconds of its time are left at this moment. None where it did not begin.
    pub fn left(&self, now: u64) -> Option<u64> {
        match self.deadline.load(Ordering::SeqCst) {
            NONE => None,
            deadline => Some(deadline.saturating_sub(now)),
        }
    }
}
