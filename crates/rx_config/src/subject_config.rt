// A subject to be made. It carries its limits as a fact of its type, so a run over it has no condition and no refusal for bad
// limits.
ghost use Rattle.std.specs.Prelude.{◌≡◌, ◌^◌, min, MatchOption, Ok, Some, true};
ghost use Rattle.rx_hub.specs.Hubs.{are_in_range};
ghost use Rattle.rx_note.specs.Kinds.{kind_checked};

use crate::budget::Budget;
use rx_heap::Heap;
use rx_note::Rules;
use rx_proto::Name;

/// A subject to be made: its name, its rules and its budget. Its kind is one that `Kind::check` passes, and its limits are 1 to
/// 64 observers, and 1 to 4,294,967,295 joins and items.
#[derive(Drop, Debug)]
pub struct SubjectConfig {
    pub name: Name,
    pub rules: Rules,
    /// How much memory its hub and its texts have; where there is none, what all share.
    pub budget: Option<Budget>,
    ghost limits_in_range: { are_in_range rules.limits ≡ true },
    ghost kind_in_limits: { kind_checked rules.kind ≡ Ok tt },
}

impl SubjectConfig {
    /// What its hub and its texts are made over: the heap of its budget, or the one that is shared by those without.
    pub fn memory<'a>(&'a self, shared: &'a Heap) -> &'a Heap
        ensures { MatchOption self.now.budget (result.now ≡ shared.now) (λ bytes. result.now.limit ≡ Some (min bytes (2 ^ 48))) }
    {
        match &self.budget {
            Some(budget) => budget.heap(),
            None => shared,
        }
    }
}
