use rx_heap::{Heap, Memory};
use rx_server::Joined;
use rx_stats::Guest;
use std::sync::Arc;
use std::sync::atomic::{AtomicBool, AtomicU32, AtomicUsize, Ordering};

/// Which observer the peer of a connection is, if it is one: the half that is read is told it, and the half that is written, which
/// a drainer has by then, knows it. As long as a half has it the connection is counted as open.
#[derive(Drop)]
pub struct Peer {
    subject: AtomicUsize,
    who: AtomicU32,
    // Written last, so that whoever finds it set reads the others as they stay.
    is_named: AtomicBool,
    // By which it is counted.
    guest: Guest,
}

/// That of a connection, which both its halves have.
pub type SharedPeer = Arc<Peer, Heap>;

impl Peer {
    /// That of a connection that came. It is none yet.
    pub(crate) fn shared(alloc: Heap, guest: Guest) -> Result<SharedPeer, Memory> {
        let peer = Peer {
            subject: AtomicUsize::new(0),
            who: AtomicU32::new(0),
            is_named: AtomicBool::new(false),
            guest,
        };
        Ok(Arc::new(alloc, peer)?)
    }

    /// It is this one from now on.
    pub(crate) fn name(&self, observer: Joined) {
        self.subject.store(observer.subject, Ordering::SeqCst);
        self.who.store(observer.who, Ordering::SeqCst);
        self.is_named.store(true, Ordering::SeqCst);
    }

    /// Which one it is.
    pub(crate) fn joined(&self) -> Option<Joined> {
        if !self.is_named.load(Ordering::SeqCst) {
            return None;
        }
        Some(Joined {
            subject: self.subject.load(Ordering::SeqCst),
            who: self.who.load(Ordering::SeqCst),
        })
    }
}
