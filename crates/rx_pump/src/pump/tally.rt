ghost use Rattle.std.specs.Prelude.{◌≡◌, ◌+◌, if◌then◌else◌};
ghost use Rattle.rx_pump.specs.Pumps.{counted};

// How many calls a pump made, and how many of them were refused for want of memory. The counts stay at the greatest `u64`.
#[derive(Clone, Copy)]
pub(crate) struct Tally {
    pub(crate) calls: u64,
    pub(crate) refused: u64,
}

impl Tally {
    // One call more was made, and refused for want of memory or not.
    pub(crate) fn count(&mut self, is_refused: bool)
        ensures calls { self.new.calls ≡ counted (self.old.calls + 1) }
        ensures refused { self.new.refused ≡ (if is_refused then counted (self.old.refused + 1) else self.old.refused) }
    {
        self.calls = self.calls.saturating_add(1);
        if is_refused {
            self.refused = self.refused.saturating_add(1);
        }
    }

    // So many calls more were made, and of these so many refused for want of memory.
    pub(crate) fn count_each(&mut self, made: u32, refused: u32)
        ensures calls { self.new.calls ≡ counted (self.old.calls + made) }
        ensures refused { self.new.refused ≡ counted (self.old.refused + refused) }
    {
        self.calls = self.calls.saturating_add(u64::from(made));
        self.refused = self.refused.saturating_add(u64::from(refused));
    }
}
