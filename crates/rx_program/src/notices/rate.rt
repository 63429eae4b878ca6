ghost use Rattle.std.specs.Prelude.{◌≡◌, ◌<◌, ◌+◌, ◌↔◌, IfNone, IfSome, IsSome, IsTrue, None, Some};
ghost use Rattle.rx_program.specs.Notices.{IsDue, MayFollow};

/// The least time between two lines of a cause, in milliseconds.
const LEAST: u64 = 1_000;

/// How far a cause was told: how many of its events, and at which moment the last time, in milliseconds.
#[derive(Clone, Copy, Debug)]
pub struct Rate {
    told: u64,
    last: Option<u64>,
}

impl Rate {
    /// Nothing was told of it.
    pub fn new() -> Rate
        ensures { result ≡ record { told = 0; last = None } }
    {
        Rate {
            told: 0,
            last: None,
        }
    }

    /// A look at a moment at which so many events have been. It answers whether a line is due, and of how many more than the one for
    /// which it stands this tells.
    pub fn look(&mut self, count: u64, now: u64) -> Option<u64>
        ensures due { IsSome result ↔ IsDue self.old count now }
        ensures all { IfSome result (λ more. self.old.told + more + 1 ≡ count) }
        ensures told { IfSome result (λ _. self.new ≡ record { told = count; last = Some now }) }
        ensures kept { IfNone result (self.new ≡ self.old) }
    {
        if !self.is_behind(count) || !self.may_tell(now) {
            return None;
        }
        let more = count - self.told - 1;
        self.told = count;
        self.last = Some(now);
        Some(more)
    }

    /// Whether some of so many events were not told.
    pub fn is_behind(&self, count: u64) -> bool
        ensures { IsTrue result ↔ (self.now.told < count) }
    {
        self.told < count
    }

    // Whether a line may be told at this moment.
    fn may_tell(&self, now: u64) -> bool
        ensures { IsTrue result ↔ MayFollow self.now.last now }
    {
        match self.last {
            Some(last) => now.saturating_sub(last) >= LEAST,
            None => true,
        }
    }
}
