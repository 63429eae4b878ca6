use rx_server::Joined;
use std::sync::atomic::{AtomicU64, Ordering};

// How many subjects a server has at most.
const SUBJECTS: usize = 16;

/// Which observers a server gives up since too much waits for them, of each subject one at a time. Who has the connection of one finds
/// that here.
#[derive(Drop)]
pub(crate) struct GivenUp {
    // By the place of the subject: one more than the number of the observer, and 0 for none.
    observers: [AtomicU64; SUBJECTS],
}

impl GivenUp {
    /// Nobody is.
    pub(crate) fn new() -> GivenUp {
        GivenUp {
            observers: [
                AtomicU64::new(0),
                AtomicU64::new(0),
                AtomicU64::new(0),
                AtomicU64::new(0),
                AtomicU64::new(0),
                AtomicU64::new(0),
                AtomicU64::new(0),
                AtomicU64::new(0),
                AtomicU64::new(0),
                AtomicU64::new(0),
                AtomicU64::new(0),
                AtomicU64::new(0),
                AtomicU64::new(0),
                AtomicU64::new(0),
                AtomicU64::new(0),
                AtomicU64::new(0),
            ],
        }
    }

    /// Of this subject this observer is from now on, and no other one.
    pub(crate) fn set(&self, subject: usize, who: Option<u32>) {
        let mark = match who {
            Some(who) => u64::from(who) + 1,
            None => 0,
        };
        if let Some(observer) = self.observers.get(subject) {
            observer.store(mark, Ordering::SeqCst);
        }
    }

    /// Whether this observer is.
    pub(crate) fn has(&self, joined: Joined) -> bool {
        match self.observers.get(joined.subject) {
            Some(observer) => observer.load(Ordering::SeqCst) == u64::from(joined.who) + 1,
            None => false,
        }
    }
}
