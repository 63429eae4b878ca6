// What a box's owner lets go of ends all the same, by the other side (`Port::let_go`, `Inbox::let_go`, in `Leavings`). Who
// drops a desk or a server has no leave to wait, so it can't put a Bye. The end of a port is left in the box, and the inbox
// puts its Bye once it finds the box empty; what is put for an inbox that was let go is taken out and lost where the box is
// full. So a desk that was dropped, even with answers to come, stops no subject; a server that was dropped, or whose start
// failed halfway, leaves no thread. That a raw port or inbox is dropped still shows as before.
ghost use Rattle.std.specs.Prelude.{◌≡◌, ◌<◌, IfOk, MatchResult};
ghost use Rattle.rx_mailbox.specs.Batches.{carried};
ghost use Rattle.rx_mailbox.specs.Boxes.{with_letters, HasBye};

use crate::bell::bells::SharedBells;
use crate::channel::inlet::Inlet;
use crate::channel::outlet::Outlet;
use crate::letter::Letter;
use crate::letter::batch::Batch;
use crossbeam_channel::TryRecvError;
use rx_heap::{Heap, Memory};
use std::hint;
use std::sync::atomic::{AtomicU64, Ordering};
use std::sync::{Arc, Mutex, MutexGuard, Wait};

// How often who lets go of an end tries to leave it here, where another is about to do the same or to take one up.
const TRIES: u32 = 1_000_000;

/// What was let go of a box by who could not wait for it to end, and what the other side does of it: the inbox puts the Bye of a
/// port, and a port that finds the box full lets go of the letters that an inbox would have taken.
#[derive(Drop)]
pub(crate) struct Leavings<B: Drop> {
    bells: SharedBells,
    // How many outlets are here.
    outlets_left: AtomicU64,
    // Those, with room for each port.
    outlets: Mutex<Vec<Outlet<B>, Heap>>,
    // How many inlets are here.
    inlets_left: AtomicU64,
    inlet: Mutex<Option<Inlet<B>>>,
}

pub(crate) type SharedLeavings<B> = Arc<Leavings<B>, Heap>;

impl<B: Drop> Leavings<B> {
    /// Those of a new box of so many ports: none.
    pub(crate) fn shared(
        alloc: Heap,
        bells: SharedBells,
        ports: usize,
    ) -> Result<SharedLeavings<B>, Memory> {
        let outlets = Vec::with_capacity(alloc.clone()?, ports)?;
        let leavings = Leavings {
            bells,
            outlets_left: AtomicU64::new(0),
            outlets: Mutex::new(outlets),
            inlets_left: AtomicU64::new(0),
            inlet: Mutex::new(None),
        };
        Ok(Arc::new(alloc, leavings)?)
    }

    /// Leaves an outlet here, whose Bye the inbox is to put, and wakes the inbox.
    pub(crate) fn leave_outlet(&self, outlet: Outlet<B>) {
        let Some(mut outlets) = held(&self.outlets) else {
            return;
        };
        if outlets.len() < outlets.capacity() {
            outlets.push_reserved(outlet);
            self.outlets_left.fetch_add(1, Ordering::SeqCst);
        }
        drop(outlets);
        self.bells.letter.ring();
    }

    /// Leaves the inlet here, so that no port finds its inbox gone, and wakes the ports that wait for room.
    pub(crate) fn leave_inlet(&self, left: Inlet<B>) {
        let Some(mut inlet) = held(&self.inlet) else {
            return;
        };
        *inlet = Some(left);
        self.inlets_left.store(1, Ordering::SeqCst);
        drop(inlet);
        self.bells.room.ring();
    }

    /// Takes what comes next by the inlet, as its `take` does. Where there is none it puts the Bye of an outlet that was left here
    /// before, if there is one, and looks again.
    pub(crate) fn take_by<R: Wait>(
        &self,
        rt: &R,
        inlet: &mut Inlet<B>,
    ) -> Result<Letter<Batch<B>>, TryRecvError>
        ensures taken { MatchResult result (λ x. inlet.new ≡ with_letters inlet.old (carried x)) (λ _. inlet.new ≡ inlet.old) }

        // It is from a port of the box whose Bye had not come.
        ensures port { IfOk result (λ x. x.from < inlet.old.ports) }
        ensures before_bye { IfOk result (λ x. ¬ HasBye inlet.old x.from) }
    {
        match inlet.take(rt) {
            Ok(came) => Ok(came),
            Err(error) => {
                if self.outlets_left.load(Ordering::SeqCst) == 0 || !self.end_outlet(rt) {
                    return Err(error);
                }
                inlet.take(rt)
            }
        }
    }

    // Puts the Bye of an outlet that was left here. It answers whether it did: there may be none, or no room.
    #[inline(never)] // once for each port that is let go
    fn end_outlet<R: Wait>(&self, rt: &R) -> bool {
        let mut outlets = self.outlets.lock(rt);
        let Some(outlet) = outlets.pop() else {
            return false;
        };
        match outlet.try_finish(rt) {
            Ok(ended) => {
                self.outlets_left.fetch_sub(1, Ordering::SeqCst);
                drop(outlets);
                drop(ended);
                true
            }
            Err(outlet) => {
                if outlets.len() < outlets.capacity() {
                    outlets.push_reserved(outlet);
                }
                false
            }
        }
    }

    /// Lets go of the letters that stand in the box, where its inbox was let go. It answers whether there was one.
    pub(crate) fn discard<R: Wait>(&self, rt: &R) -> bool {
        if self.inlets_left.load(Ordering::SeqCst) == 0 {
            return false;
        }
        let mut inlet = self.inlet.lock(rt);
        match &mut *inlet {
            None => false,
            Some(inlet) => {
                take_some(rt, inlet);
                true
            }
        }
    }
}

// Takes letters until there is none, but so many at most.
fn take_some<B: Drop, R: Wait>(rt: &R, inlet: &mut Inlet<B>) {
    for _ in 0..u64::MAX {
        if inlet.take(rt).is_err() {
            return;
        }
    }
}

// What the lock keeps, unless others hold it all the while. Nobody holds it for longer than it takes to move an end.
fn held<T>(lock: &Mutex<T>) -> Option<MutexGuard<'_, T>> {
    for _ in 0..TRIES {
        if let Some(guard) = lock.try_lock() {
            return Some(guard);
        }
        hint::spin_loop();
    }
    None
}
