//! A sink that waits for another one, which shows that those who hand them their notes are at work at the same time.

use rx_heap::Memory;
use rx_note::Note;
use rx_sink::{Flow, Sink, SinkFault};
use std::alloc::Global;
use std::sync::Arc;
use std::sync::atomic::{AtomicU64, Ordering};
use std::thread;
use std::time::{Clock, Duration};

/// A sink that tells that it was handed its note, and holds it until another one has told so too.
#[derive(Drop)]
pub struct Meeting<C: Clock + Drop> {
    clock: C,
    come: Arc<AtomicU64, Global>,
    faults: u64,
}

// How many sinks meet, and how often one looks for the other, a millisecond apart.
const SINKS: u64 = 2;

const LOOKS: u64 = 10_000;

impl<C: Clock + Clone + Drop> Meeting<C> {
    /// One of those that count in `come` how many have come, by this clock.
    pub fn of(clock: &C, come: &Arc<AtomicU64, Global>) -> Result<Meeting<C>, Memory> {
        Ok(Meeting {
            clock: clock.clone()?,
            come: Arc::try_clone(come)?,
            faults: 0,
        })
    }
}

impl<C: Clock + Drop> Meeting<C> {
    fn meets(&self) -> bool {
        self.come.fetch_add(1, Ordering::SeqCst);
        Meeting::all_come(&self.clock, &self.come)
    }

    /// Waits until all have come, by this clock and this count, or for some ten seconds, and says whether they have. A server
    /// that is closed before may put their sinks away first.
    pub fn all_come(clock: &C, come: &Arc<AtomicU64, Global>) -> bool {
        for _ in 0..LOOKS {
            if come.load(Ordering::SeqCst) >= SINKS {
                return true;
            }
            thread::sleep(clock, Duration::from_millis(1));
        }
        false
    }
}

impl<C: Clock + Drop> Sink for Meeting<C> {
    type Rest = bool;

    ghost use Rattle.std.specs.Prelude.{◌≡◌};
    ghost use Rattle.rx_sink.specs.declared.flow.Flow.TheVariants.{Clear};

    ghost acts = { record {
      started = λ s who t. Unit {0};
      start_faulted = λ s who t. Unit {0};
      took = λ s note flow t. flow ≡ Clear;
      take_faulted = λ s note t. Unit {0};
      flushed = λ s flow t. flow ≡ Clear;
      flush_faulted = λ s t. ⊥;
      finished = λ s rest. Unit {0};
      faults = λ s. s.faults;
    } };

    fn start(&mut self, _who: u32) -> Result<(), SinkFault> {
        Ok(())
    }

    fn take(&mut self, _note: Note) -> Result<Flow, SinkFault> {
        if self.meets() {
            return Ok(Flow::Clear);
        }
        self.faults = self.faults.saturating_add(1);
        Err(SinkFault)
    }

    fn flush(&mut self) -> Result<Flow, SinkFault> {
        Ok(Flow::Clear)
    }

    // Whether it met.
    fn finish(self) -> bool {
        self.faults == 0
    }
}
