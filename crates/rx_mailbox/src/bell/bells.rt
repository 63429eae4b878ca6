use crate::bell::Bell;
use rx_heap::{Heap, Memory};
use std::sync::Arc;
use std::sync::atomic::{AtomicU64, Ordering};

const THERE: u64 = 0;

const GONE: u64 = 1;

/// The bells of a box, which its ports and its inbox share.
#[derive(Drop)]
pub(crate) struct Bells {
    // Both sides read the words of the bells at each letter, so nothing that is written at each letter shares their line of memory.
    before: [u64; 8],
    /// Its inbox waits here for a letter.
    pub(crate) letter: Bell,
    /// Its ports wait here for room. One may sleep by the flag that another set after the ring: that one either puts a
    /// letter, and who takes it rings again, or finds the inbox gone, and rings itself.
    pub(crate) room: Bell,
    // Whether the inbox is gone.
    inbox: AtomicU64,
    after: [u64; 8],
}

pub(crate) type SharedBells = Arc<Bells, Heap>;

impl Bells {
    pub(crate) fn shared(alloc: Heap) -> Result<SharedBells, Memory> {
        let bells = Bells {
            before: [0; 8],
            letter: Bell::new(),
            room: Bell::new(),
            inbox: AtomicU64::new(THERE),
            after: [0; 8],
        };
        Ok(Arc::new(alloc, bells)?)
    }

    /// The inbox is gone: the ports that wait for room are told.
    pub(crate) fn inbox_goes(&self) {
        self.inbox.store(GONE, Ordering::SeqCst);
        self.room.ring();
    }

    /// Whether the inbox is gone.
    pub(crate) fn is_inbox_gone(&self) -> bool {
        self.inbox.load(Ordering::SeqCst) == GONE
    }
}
