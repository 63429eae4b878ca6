ghost use Rattle.std.specs.Prelude.{◌≡◌, IfOk, None, Some};

use crate::budget::Budget;
use crate::refused::Memory;
use std::alloc::Global;
use std::marker::Model;
use std::mem::forget;
use std::sync::Arc;

/// What the clones of one handle have in common: nothing, or a budget.
#[derive(Clone)]
pub(crate) struct Limit {
    budget: Option<Arc<Budget, Global>>,
}

// Contracts see the most bytes that it gives at a time, where there is a bound: not what is taken, which other threads change.
impl Model for Limit {
    ghost use Rattle.std.specs.Prelude.{ℕ, Option};
    ghost use Rattle.std.specs.Arc.{arc_value};
    ghost use Rattle.std.specs.Option.{option_map};
    ghost use Rattle.rx_heap.specs.declared.budget.Budget.{Budget};

    ghost Value = { Option ℕ };

    ghost view = { λ limit. option_map (λ shared. (arc_value {X = Budget} shared).most) limit.budget };
}

// A budget stays until the program ends: a handle is let go with each text and each collection, where it is to cost nothing
// and to be no case of its own.
impl Drop for Limit {
    #[inline] // nothing is done
    fn drop(self) {
        let Self { budget } = self;
        forget(budget);
    }
}

impl Limit {
    /// No limit. It allocates nothing.
    pub(crate) fn none() -> Limit
        ensures { result ≡ None }
    {
        Limit { budget: None }
    }

    /// The limit of a budget, which is held in memory of `alloc`.
    ///
    /// # Errors
    ///
    /// `Memory`: there was none for the budget itself.
    pub(crate) fn of(alloc: Global, budget: Budget) -> Result<Limit, Memory>
        ensures { IfOk result (λ limit. limit ≡ Some budget.most) }
    {
        let shared = Arc::new(alloc, budget)?;
        Ok(Limit {
            budget: Some(shared),
        })
    }

    /// Whether a growth of `size` bytes is refused. Where it is not, the bytes are taken.
    pub(crate) fn refuses(&self, size: usize) -> bool {
        match &self.budget {
            None => false,
            Some(budget) => !budget.takes(size as u64),
        }
    }

    /// Whether the growth of a block from `old` items of `size` bytes to `new` ones is refused. Where it is not, the bytes
    /// that it has more are taken.
    #[inline] // with each growth of a list
    pub(crate) fn refuses_change(&self, old: usize, new: usize, size: usize) -> bool {
        self.refuses(new.saturating_sub(old).saturating_mul(size))
    }

    /// Takes back what such a growth took.
    #[inline] // with each list that shrinks
    pub(crate) fn regains_change(&self, old: usize, new: usize, size: usize) {
        self.regains(new.saturating_sub(old).saturating_mul(size));
    }

    /// Takes back the `size` bytes of a growth that was not refused.
    pub(crate) fn regains(&self, size: usize) {
        match &self.budget {
            None => {}
            Some(budget) => budget.regains(size as u64),
        }
    }

    pub(crate) fn used(&self) -> u64 {
        match &self.budget {
            None => 0,
            Some(budget) => budget.used(),
        }
    }

    pub(crate) fn asked(&self) -> u64 {
        match &self.budget {
            None => 0,
            Some(budget) => budget.asked(),
        }
    }
}
