// Behind so many turns all sinks are looked after.
const TURNS: u32 = 16;

/// Counts the turns of a drainer that does not rest, so that it comes to all its sinks.
#[derive(Drop)]
pub(crate) struct Rounds {
    turns: u32,
}

impl Rounds {
    pub(crate) fn new() -> Rounds {
        Rounds { turns: 0 }
    }

    /// Whether all sinks are to be looked after behind this turn.
    pub(crate) fn is_due(&mut self) -> bool {
        self.turns = self.turns.saturating_add(1);
        if self.turns < TURNS {
            return false;
        }
        self.turns = 0;
        true
    }
}
