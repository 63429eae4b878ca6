// When something is told is in no clause: a pulse may tell any time. What a sink does by its tempo is: a heartbeat stands between two
// notes alone, and one that keeps a pace is stuck behind an item until a flush answers otherwise.
ghost use Rattle.std.specs.Prelude.{◌≡◌, false, nat_lt, true};

use crate::SharedPulse;
use std::marker::Model;

/// By which time a sink tells its notes: how often a heartbeat comes where it tells none, and how long it waits behind an item before it
/// has the next one asked for. Contracts see whether it keeps such a pace.
pub struct Tempo {
    pulse: SharedPulse,
    // After how many milliseconds in which nothing was told a heartbeat is.
    heartbeat: u64,
    // How many milliseconds are between two items; 0 where they are told as they come.
    pace: u64,
    // When something was told last.
    last: u64,
    // An item was told since, and nothing is asked for in its place until the pace is over.
    holds: bool,
    // Something waits in the writer.
    waits: bool,
}

// The pulse is told no more often for it.
impl Drop for Tempo {
    fn drop(self) {
        let Tempo {
            pulse,
            heartbeat: _,
            pace,
            last: _,
            holds: _,
            waits: _,
        } = self;
        if pace > 0 {
            pulse.end_pace();
        }
    }
}

impl Model for Tempo {
    ghost use Rattle.std.specs.Prelude.{Bool, nat_lt};

    ghost Value = { Bool };

    ghost view = { λ t. nat_lt 0 t.pace };
}

impl Tempo {
    /// The tempo by this pulse with a heartbeat after so many milliseconds, and so many of them between two items; 0 for none.
    pub fn new(pulse: SharedPulse, heartbeat: u64, pace: u32) -> Tempo
        ensures { result ≡ nat_lt 0 pace }
    {
        if pace > 0 {
            pulse.begin_pace();
        }
        let last = pulse.now();
        Tempo {
            pulse,
            heartbeat,
            pace: u64::from(pace),
            last,
            holds: false,
            waits: true,
        }
    }

    /// Whether it keeps a pace.
    pub(crate) fn is_paced(&self) -> bool
        ensures { result ≡ self.now }
    {
        self.pace > 0
    }

    /// Something was told now, an item or not.
    pub(crate) fn told(&mut self, is_item: bool)
        ensures { self.new ≡ self.old }
    {
        self.last = self.pulse.now();
        self.holds = is_item;
        self.waits = true;
    }

    /// Whether a heartbeat is due, which is told then: nothing was told for so long, and nothing waits.
    pub(crate) fn beats(&mut self) -> bool
        ensures { self.new ≡ self.old }
    {
        let now = self.pulse.now();
        if self.waits || now.saturating_sub(self.last) < self.heartbeat {
            return false;
        }
        self.last = now;
        self.waits = true;
        true
    }

    /// A flush found that nothing waits. Whether the pace is over, if one is kept.
    pub(crate) fn is_over(&mut self) -> bool
        ensures same { self.new ≡ self.old }
        ensures free { self.old ≡ false → result ≡ true }
    {
        self.waits = false;
        if self.pace == 0 || !self.holds {
            return true;
        }
        if self.pulse.now().saturating_sub(self.last) < self.pace {
            return false;
        }
        self.holds = false;
        true
    }
}
