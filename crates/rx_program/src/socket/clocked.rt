use rx_server::Moments;
use std::time::{Clock, Duration};

/// The milliseconds since it was made, by the machine's monotonic clock. Where that can't be read, the last moment again.
#[derive(Drop)]
pub(crate) struct Clocked<C: Clock + Drop> {
    clock: C,
    start: Option<Duration>,
    last: u64,
}

impl<C: Clock + Drop> Clocked<C> {
    /// The moments of this clock, the present one first, which is 0.
    pub(crate) fn new(clock: C) -> Clocked<C> {
        let start = clock.monotonic().ok();
        Clocked {
            clock,
            start,
            last: 0,
        }
    }

    /// The moments of another clock, since the same start.
    pub(crate) fn beside(&self, clock: C) -> Clocked<C> {
        Clocked {
            clock,
            start: self.start,
            last: 0,
        }
    }

    // The milliseconds since the start, where the clock could be read.
    fn elapsed(&self) -> Option<u64> {
        let now = self.clock.monotonic().ok()?;
        let elapsed = now.saturating_sub(self.start?);
        u64::try_from(elapsed.as_millis()).ok()
    }
}

impl<C: Clock + Drop> Moments for Clocked<C> {
    ghost use Rattle.std.specs.Prelude.{◌≡◌};

    ghost tells = { λ _ moment after. after.last ≡ moment };

    fn now(&mut self) -> u64 {
        if let Some(moment) = self.elapsed() {
            self.last = moment;
        }
        self.last
    }
}

/// The milliseconds of a moment.
pub(crate) fn millis(moment: Duration) -> u64 {
    u64::try_from(moment.as_millis()).unwrap_or(u64::MAX)
}
