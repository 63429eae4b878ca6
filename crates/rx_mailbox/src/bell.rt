// How the two sides of a box wait for each other: who waits looks again for a while, then sleeps, and is woken once, by the
// other side, only if it sleeps. Nothing is promised of a wait: it may end for no reason, so who waits looks again.
//
// A box waits by itself, above the channel's ruled calls that don't wait. The channel's own sends and receives wake a sleeper
// at each step until it runs, which was more than one wake a letter. `try_send_as` and `try_recv_as` owe the rule the same
// steps and tell the same, so every contract stands as it did. Who waits looks again for a while, then sets a flag, looks
// once more and sleeps; the other side looks at the flag after each of its steps, and only who takes it back wakes. The
// channel may answer that it is full or empty while a step of another thread is not quite done: that thread looks at the flag
// when it is, so no wake is missed. No contract can say so, and tests do. The channel's plain forms, which keep no rule, and
// lock-free structures of this project's own are still left out.
//
// Some of what is put is for an inbox only while it has something to do with it: a subject for whose observers nothing waits needs no
// request before its next call, which finds those that came in the box. So an inbox says how it sleeps (`Sleep`), and a port may
// nudge in the place of a ring. Else each note that is taken has its subject woken once more: beside a machine's rest two switches
// for each item. No deep sleep lasts beside a box that is full, since then a nudge is a ring.
//
// It sleeps on a flag, and not by a `Parker`: that one's waker makes an exchange at each letter, also where nobody sleeps, in
// place of a look, and it is for one sleeper, while many ports may wait for room.

pub(crate) mod bells;
pub(crate) mod patience;

use std::hint;
use std::sync::Wait;
use std::sync::atomic::{AtomicU64, Ordering};
use std::time::Duration;

// How often who waits looks again, with a pause after each look, before it sleeps. A sleep and a wake cost about as much as many
// looks, and what is waited for mostly comes meanwhile. It lets no other thread go first: on Linux 6.18 a thread that does so falls
// behind all others on its core by a slice each time, and a letter then waits for milliseconds.
pub(crate) const LOOKS: u32 = 1_000;

// How often who waits for a bounded time does. Such a one mostly wrote to a peer, who may wait for its core until it sleeps.
pub(crate) const FEW_LOOKS: u32 = 200;

const AWAKE: u64 = 0;

const ASLEEP: u32 = 1;

const DEEP_ASLEEP: u32 = 2;

/// What ends a sleep.
#[derive(Clone, Copy)]
pub(crate) enum Sleep {
    /// A ring, and a nudge.
    Light,
    /// A ring alone.
    Deep,
}

impl Sleep {
    // What the flag says of it.
    fn state(self) -> u32 {
        match self {
            Sleep::Light => ASLEEP,
            Sleep::Deep => DEEP_ASLEEP,
        }
    }
}

/// What one side of a box sleeps on until the other side rings it.
#[derive(Drop)]
pub(crate) struct Bell {
    // Whether somebody sleeps, or is about to and looks once more.
    state: AtomicU64,
}

impl Bell {
    pub(crate) fn new() -> Bell {
        Bell {
            state: AtomicU64::new(AWAKE),
        }
    }

    /// Wakes all who sleep, after a step that they may wait for. Who is about to sleep either is seen here or, in its
    /// last look, sees that step.
    pub(crate) fn ring(&self) {
        if self.state.load(Ordering::SeqCst) != AWAKE
            && self.state.swap(AWAKE, Ordering::SeqCst) != AWAKE
        {
            self.state.wake_all();
        }
    }

    /// As `ring`, but wakes those alone who sleep lightly.
    pub(crate) fn nudge(&self) {
        if self.sleeps_lightly()
            && self
                .state
                .compare_exchange(u64::from(ASLEEP), AWAKE, Ordering::SeqCst, Ordering::SeqCst)
                .is_ok()
        {
            self.state.wake_all();
        }
    }

    /// Whether somebody sleeps lightly, or is about to.
    pub(crate) fn sleeps_lightly(&self) -> bool {
        self.state.load(Ordering::SeqCst) == u64::from(ASLEEP)
    }

    /// Whether nobody sleeps, or is about to.
    pub(crate) fn is_awake(&self) -> bool {
        self.state.load(Ordering::SeqCst) == AWAKE
    }

    /// Waits after so many looks in vain, of so many before it sleeps. It answers how many they are from then on, which is `most`
    /// after a sleep.
    pub(crate) fn wait<R: Wait>(&self, rt: &R, looks: u32, most: u32, sleep: Sleep) -> u32 {
        if looks < most {
            hint::spin_loop();
        } else if looks == most {
            // It sleeps only if the next look is in vain as well.
            self.state.store(u64::from(sleep.state()), Ordering::SeqCst);
        } else {
            self.state.park(rt, sleep.state());
            return most;
        }
        looks.saturating_add(1)
    }

    /// Waits as `wait` does, but sleeps lightly, no longer than about so long, and once. It answers nothing after that sleep.
    pub(crate) fn wait_within<R: Wait>(
        &self,
        rt: &R,
        looks: u32,
        most: u32,
        longest: Duration,
    ) -> Option<u32> {
        if looks < most {
            hint::spin_loop();
        } else if looks == most {
            self.state.store(u64::from(ASLEEP), Ordering::SeqCst);
        } else {
            self.state.park_timeout(rt, ASLEEP, longest);
            self.state.store(AWAKE, Ordering::SeqCst);
            return None;
        }
        Some(looks.saturating_add(1))
    }

    /// Ends a wait of so many looks, of so many before a sleep, of the only one who waits here.
    pub(crate) fn rise(&self, looks: u32, most: u32) {
        if looks > most {
            self.state.store(AWAKE, Ordering::SeqCst);
        }
    }
}
