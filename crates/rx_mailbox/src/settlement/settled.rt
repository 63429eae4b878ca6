ghost use Rattle.std.specs.Prelude.{◌≡◌};
ghost use Rattle.rx_mailbox.specs.Settling.{letter_count};

use crate::channel::BoxPass;
use std::marker::Model;

/// A box that has settled: nothing is left in it, and nothing comes any more. Contracts still see the letters that its
/// inbox received, in their order, and what the inbox's pass knows, by which the box is empty.
#[derive(Drop)]
pub struct Settled<B: Drop> {
    // The inbox's pass, into which each port's was joined. By the rule, what it knows leaves the queue empty for good.
    pub(crate) pass: BoxPass<B>,
    pub(crate) letters: u64,
}

impl<B: Drop> Model for Settled<B> {
    ghost use Rattle.std.specs.Prelude.{◌≡◌};
    ghost use Rattle.rx_mailbox.specs.Passes.{SettledView, settled_of, IsEmptied};
    ghost use Rattle.rx_mailbox.specs.Settling.{letter_count};

    ghost Value = { SettledView B };

    ghost view = { λ s. settled_of s.pass };

    ghost invariant = { λ s. IsEmptied (settled_of s.pass) × (s.letters ≡ letter_count (settled_of s.pass).received) };
}

impl<B: Drop> Settled<B> {
    /// How many letters the inbox received, Byes included. The count stays at the greatest `u64`.
    pub fn letters(&self) -> u64
        ensures { result ≡ letter_count self.now.received }
    {
        self.letters
    }
}
