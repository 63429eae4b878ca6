use rx_server::Joined;
use std::sync::atomic::{AtomicBool, AtomicU32, AtomicU64, AtomicUsize, Ordering};

/// Which observer the last event of a cause was about, and how many bytes waited in its connection. Who writes it while another does
/// leaves it, and who reads it then finds none: nobody waits, and a line that has no such words is a line still.
#[derive(Drop)]
pub(crate) struct Detail {
    is_held: AtomicBool,
    is_there: AtomicBool,
    subject: AtomicUsize,
    who: AtomicU32,
    bytes: AtomicU64,
}

impl Detail {
    /// No event has been.
    pub(crate) fn new() -> Detail {
        Detail {
            is_held: AtomicBool::new(false),
            is_there: AtomicBool::new(false),
            subject: AtomicUsize::new(0),
            who: AtomicU32::new(0),
            bytes: AtomicU64::new(0),
        }
    }

    /// Writes what an event is about.
    pub(crate) fn put(&self, observer: Option<Joined>, bytes: u64) {
        if self.is_held.swap(true, Ordering::SeqCst) {
            return;
        }
        self.is_there.store(observer.is_some(), Ordering::SeqCst);
        if let Some(observer) = observer {
            self.subject.store(observer.subject, Ordering::SeqCst);
            self.who.store(observer.who, Ordering::SeqCst);
            self.bytes.store(bytes, Ordering::SeqCst);
        }
        self.is_held.store(false, Ordering::SeqCst);
    }

    /// What the last event was about, if it was about an observer.
    pub(crate) fn read(&self) -> Option<(Joined, u64)> {
        if self.is_held.swap(true, Ordering::SeqCst) {
            return None;
        }
        let about = if self.is_there.load(Ordering::SeqCst) {
            let observer = Joined {
                subject: self.subject.load(Ordering::SeqCst),
                who: self.who.load(Ordering::SeqCst),
            };
            Some((observer, self.bytes.load(Ordering::SeqCst)))
        } else {
            None
        };
        self.is_held.store(false, Ordering::SeqCst);
        about
    }
}
