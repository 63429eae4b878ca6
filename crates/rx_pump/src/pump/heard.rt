use crate::Grace;
use rx_heap::{Heap, Memory};
use std::sync::atomic::{AtomicU64, Ordering};
use std::sync::{Arc, Wait};
use std::time::Duration;

// How far a pump is: desks may call; the Byes of all desks came; and nothing waits any more, or the pump is over.
const SERVES: u64 = 0;

const DESKS_ENDED: u64 = 1;

const OVER: u64 = 2;

// For so long nothing may move before who waits for a pump goes on, in milliseconds: as long as a drainer tries to have go out what
// waits for a peer.
const MOST_STILL: u64 = 250;

/// How far a pump is, for another thread that waits for it. Nothing is promised of it.
#[derive(Drop)]
pub struct Heard {
    state: AtomicU64,
    // How many letters came since the desks ended.
    letters: AtomicU64,
}

pub type SharedHeard = Arc<Heard, Heap>;

impl Heard {
    // The pump serves.
    pub(crate) fn shared(alloc: Heap) -> Result<SharedHeard, Memory> {
        let heard = Heard {
            state: AtomicU64::new(SERVES),
            letters: AtomicU64::new(0),
        };
        Ok(Arc::new(alloc, heard)?)
    }

    fn enter(&self, state: u64) {
        self.state.store(state, Ordering::SeqCst);
        self.state.wake_all();
    }

    // Whether it is as far as that.
    fn is_at(&self, state: u64) -> bool {
        self.state.load(Ordering::SeqCst) >= state
    }

    /// Waits until all desks ended, and then until nothing waits for an observer and all that was given is on its way; but no longer
    /// than by this grace. It answers what is left of that.
    pub fn wait<R: Wait>(&self, rt: &R, grace: Grace) -> Grace {
        self.wait_for_desks(rt);
        match grace {
            Grace::WhileMoving => {
                self.wait_while_moving(rt);
                Grace::WhileMoving
            }
            Grace::Within(ms) => Grace::Within(self.wait_within(rt, ms)),
        }
    }

    // Waits until nothing waits, or nothing moves any more.
    fn wait_while_moving<R: Wait>(&self, rt: &R) {
        let mut letters = 0;
        for _ in rt.forever() {
            if self.is_at(OVER) {
                return;
            }
            self.state
                .park_timeout(rt, DESKS_ENDED as u32, Duration::from_millis(MOST_STILL));
            let now = self.letters.load(Ordering::SeqCst);
            if now == letters {
                return;
            }
            letters = now;
        }
        unreachable!()
    }

    // Waits until nothing waits, for so many milliseconds at most. How many are left.
    fn wait_within<R: Wait>(&self, rt: &R, ms: u64) -> u64 {
        let mut left = ms;
        for _ in rt.forever() {
            if left == 0 || self.is_at(OVER) {
                return left;
            }
            let step = left.min(MOST_STILL);
            self.state
                .park_timeout(rt, DESKS_ENDED as u32, Duration::from_millis(step));
            left -= step;
        }
        unreachable!()
    }

    fn wait_for_desks<R: Wait>(&self, rt: &R) {
        for _ in rt.forever() {
            if self.is_at(DESKS_ENDED) {
                return;
            }
            self.state.park(rt, SERVES as u32);
        }
        unreachable!()
    }
}

/// Whom a pump tells how far it is. They are told too once the pump is over, however that comes.
pub(crate) struct Telling {
    heard: SharedHeard,
    // How many desks have not ended.
    desks: u64,
}

impl Drop for Telling {
    fn drop(self) {
        let Telling { heard, desks: _ } = self;
        heard.enter(OVER);
    }
}

impl Telling {
    pub(crate) fn of(heard: SharedHeard, desks: u64) -> Telling {
        Telling { heard, desks }
    }

    // Who waits shares it; none where no more can.
    pub(crate) fn heard(&self) -> Option<SharedHeard> {
        match Arc::try_clone(&self.heard) {
            Ok(heard) => Some(heard),
            Err(_) => None,
        }
    }

    // A letter came, a Bye or not. It answers whether all desks have ended.
    pub(crate) fn hear(&mut self, is_bye: bool) -> bool {
        if self.desks > 0 {
            if !is_bye {
                return false;
            }
            self.desks -= 1;
            if self.desks > 0 {
                return false;
            }
            self.heard.enter(DESKS_ENDED);
        }
        self.heard.letters.fetch_add(1, Ordering::SeqCst);
        true
    }

    // Nothing waits any more.
    pub(crate) fn end(&self) {
        if !self.heard.is_at(OVER) {
            self.heard.enter(OVER);
        }
    }
}
