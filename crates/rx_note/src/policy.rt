// The policy of an observer is seen by contracts as its two choices, though its fields are private: it is made by
// `Policy::new` alone, which refuses rooms that are out of limits, and that its room is in them is a fact of the type.
ghost use Rattle.std.specs.Prelude.{◌≡◌, true};

use crate::{Errors, Strategy};
use std::error::Error;
use std::fmt;
use std::marker::Model;

/// The most items that a room holds.
const MAX_ROOM: u16 = 1024;

/// The room of a strategy is out of its limits, which are this project's own: 0 to 1,024 for `Drop` and `Bounded`, 1 to 1,024
/// for `Latest`.
#[derive(Clone, Copy, Debug, PartialEq, Eq)]
pub struct BadRoom;

impl fmt::Display for BadRoom {
    fn fmt<W: fmt::Write>(&self, f: &mut fmt::Formatter<W>) -> fmt::Result {
        f.write_str("a room has 0 to 1024 items, under Latest 1 to 1024")
    }
}

impl Error for BadRoom {}

/// How an observer wants to be served: its strategy and its error mode. Contracts see a policy as these two.
#[derive(Clone, Copy, Debug, PartialEq, Eq)]
pub struct Policy {
    strategy: Strategy,
    errors: Errors,
}

impl Model for Policy {
    ghost use Rattle.rx_note.specs.Choices.{Choice};

    ghost Value = { Choice };

    ghost view = { λ p. record { strategy = p.strategy; errors = p.errors } };

    ghost inverse = { λ c. record { strategy = c.strategy; errors = c.errors } };

    ghost use Rattle.std.specs.Prelude.{◌≡◌, true};
    ghost use Rattle.rx_note.specs.Choices.{is_in_limits};

    ghost invariant = { λ p. is_in_limits p.strategy ≡ true };
}

impl Policy {
    ghost use Rattle.rx_note.specs.Choices.{is_in_limits, policy_made};

    /// The policy of this strategy and error mode. `BadRoom` where the strategy's room is out of its limits.
    pub fn new(strategy: Strategy, errors: Errors) -> Result<Policy, BadRoom>
        ensures { result ≡ policy_made strategy errors }
    {
        let is_in_limits = match strategy {
            Strategy::Buffer => true,
            Strategy::Drop(room) | Strategy::Bounded(room) => room <= MAX_ROOM,
            Strategy::Latest(room) => 1 <= room && room <= MAX_ROOM,
        };
        if is_in_limits {
            Ok(Policy { strategy, errors })
        } else {
            Err(BadRoom)
        }
    }

    /// Its strategy.
    pub fn strategy(&self) -> Strategy
        ensures strategy { result ≡ self.now.strategy }
        ensures room { is_in_limits result ≡ true }
    {
        self.strategy
    }

    /// Its error mode.
    pub fn errors(&self) -> Errors
        ensures { result ≡ self.now.errors }
    {
        self.errors
    }
}
