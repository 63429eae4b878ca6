use rx_heap::{Heap, Memory};
use std::sync::Arc;
use std::sync::atomic::{AtomicU64, Ordering};

/// What time it is for sinks, which have no clock: a thread that has one tells it in milliseconds, and comes round often, the more so
/// while sinks keep a pace. Nothing is promised of it.
#[derive(Drop)]
pub struct Pulse {
    millis: AtomicU64,
    // How many sinks keep a pace.
    paced: AtomicU64,
}

/// That of a server, which all its sinks have.
pub type SharedPulse = Arc<Pulse, Heap>;

impl Pulse {
    /// Nothing was told yet.
    pub fn shared(alloc: Heap) -> Result<SharedPulse, Memory> {
        let pulse = Pulse {
            millis: AtomicU64::new(0),
            paced: AtomicU64::new(0),
        };
        Ok(Arc::new(alloc, pulse)?)
    }

    /// Tells the time, in milliseconds since any moment.
    pub fn tell(&self, millis: u64) {
        self.millis.store(millis, Ordering::SeqCst);
    }

    /// Whether sinks keep a pace.
    pub fn is_paced(&self) -> bool {
        self.paced.load(Ordering::SeqCst) > 0
    }

    // The time that was told last.
    pub(crate) fn now(&self) -> u64 {
        self.millis.load(Ordering::SeqCst)
    }

    // One sink more keeps a pace.
    pub(crate) fn begin_pace(&self) {
        self.paced.fetch_add(1, Ordering::SeqCst);
    }

    // One of them is gone.
    pub(crate) fn end_pace(&self) {
        self.paced.fetch_sub(1, Ordering::SeqCst);
    }
}
