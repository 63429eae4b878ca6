ghost use Rattle.std.specs.Prelude.{◌≤◌, ◌<◌};

use std::thread;
use std::time::{Clock, Duration};

// The first and the longest wait, in milliseconds.
const FIRST: u64 = 100;

const MOST: u64 = 5000;

/// How long is waited before the next try: twice as long each time.
#[derive(Clone, Copy, Debug)]
pub(crate) struct Pause {
    millis: u64,
    ghost in_limits: { millis ≤ 5000 },
}

impl Pause {
    /// Nothing was tried yet.
    pub(crate) fn first() -> Pause {
        Pause { millis: FIRST }
    }

    /// Waits.
    pub(crate) fn wait(&mut self, clock: &impl Clock) {
        thread::sleep(clock, Duration::from_millis(self.millis));
        let next = (2 * self.millis).min(MOST);
        self.millis = next;
    }
}
