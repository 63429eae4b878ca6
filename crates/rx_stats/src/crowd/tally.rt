// Those that left are counted beside those that came, so that neither number falls: who reads first how many left, and then how many
// came, finds no fewer of these.

use crate::crowd::door_look::DoorLook;
use std::sync::atomic::{AtomicU64, Ordering};

/// How many connections came to one socket, and how many of them were let go.
#[derive(Drop)]
pub(crate) struct Tally {
    came: AtomicU64,
    left: AtomicU64,
}

impl Tally {
    /// None came yet.
    pub(crate) fn new() -> Tally {
        Tally {
            came: AtomicU64::new(0),
            left: AtomicU64::new(0),
        }
    }

    /// One came.
    pub(crate) fn enter(&self) {
        self.came.fetch_add(1, Ordering::SeqCst);
    }

    /// One of them was let go.
    pub(crate) fn leave(&self) {
        self.left.fetch_add(1, Ordering::SeqCst);
    }

    /// What is seen of them.
    pub(crate) fn look(&self) -> DoorLook {
        let left = self.left.load(Ordering::SeqCst);
        let accepted = self.came.load(Ordering::SeqCst);
        DoorLook {
            open: accepted.saturating_sub(left),
            accepted,
        }
    }
}
