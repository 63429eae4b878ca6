//! A sink in which notes wait until it is opened for them.

ghost use Rattle.std.specs.Prelude.{◌≡◌};

use crate::Told;
use crate::signs::sign_of;
use rx_heap::Memory;
use rx_note::Note;
use rx_sink::{Flow, Sink, SinkFault};
use std::alloc::Global;
use std::sync::Arc;
use std::sync::atomic::{AtomicU64, Ordering};

/// Opened so far, each flush of a valve is a fault.
pub const BROKEN: u64 = u64::MAX;

/// A sink that lets out, when it is flushed, the first so many of its notes for which it was opened. It takes notes at any
/// time, and is stuck from a flush that left some to the next that leaves none. What is left of it are the signs of the notes
/// that went out.
#[derive(Drop)]
pub struct Valve {
    opened: Arc<AtomicU64, Global>,
    taken: Told,
    out: usize,
    stuck: bool,
    faults: u64,
}

impl Valve {
    /// One that took nothing yet, opened for as many notes as that number says.
    pub fn of(opened: &Arc<AtomicU64, Global>) -> Result<Valve, Memory> {
        Ok(Valve {
            opened: Arc::try_clone(opened)?,
            taken: Told::new(),
            out: 0,
            stuck: false,
            faults: 0,
        })
    }

    // How many of its notes went out, where it is opened for so many.
    fn let_out(&mut self, opened: u64) -> Flow
        ensures { self.new.faults ≡ self.old.faults }
    {
        let taken = self.taken.len();
        self.stuck = opened < taken as u64;
        if self.stuck {
            self.out = opened as usize;
            return Flow::Stuck;
        }
        self.out = taken;
        Flow::Clear
    }
}

impl Sink for Valve {
    type Rest = Told;

    // No test rests on what a contract says of it, so none is told of its calls but that each fault is counted.
    ghost acts = { record {
      started = λ _ _ _. Unit {0};
      start_faulted = λ _ _ _. Unit {0};
      took = λ _ _ _ _. Unit {0};
      take_faulted = λ _ _ _. Unit {0};
      flushed = λ _ _ _. Unit {0};
      flush_faulted = λ _ _. Unit {0};
      finished = λ _ _. Unit {0};
      faults = λ s. s.faults;
    } };

    fn start(&mut self, _who: u32) -> Result<(), SinkFault> {
        Ok(())
    }

    fn take(&mut self, note: Note) -> Result<Flow, SinkFault> {
        self.taken.put(sign_of(&note));
        Ok(if self.stuck { Flow::Stuck } else { Flow::Ready })
    }

    fn flush(&mut self) -> Result<Flow, SinkFault> {
        let opened = self.opened.load(Ordering::SeqCst);
        if opened == BROKEN {
            self.faults = self.faults.saturating_add(1);
            return Err(SinkFault);
        }
        Ok(self.let_out(opened))
    }

    fn finish(self) -> Told {
        let mut out = Told::new();
        for sign in self.taken.as_bytes().iter().take(self.out) {
            out.put(*sign);
        }
        out
    }
}
