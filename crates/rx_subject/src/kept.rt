ghost use Rattle.std.specs.Prelude.{◌≡◌, IfOk, take, option_to_list};
ghost use Rattle.rx_history.specs.Histories.{unstamped};
ghost use Rattle.rx_subject.specs.TapeSubjects.{own_of};

use rx_heap::Memory;
use rx_note::Item;

/// An item and the stamp at which it was emitted, in milliseconds.
#[derive(Drop)]
pub(crate) struct Kept {
    pub(crate) item: Item,
    pub(crate) stamp: u64,
}

/// A copy of the item that is kept, if there is one.
pub(crate) fn copy_kept(own: &Option<Kept>) -> Result<Option<Item>, Memory>
    ensures { IfOk result (λ item. option_to_list item ≡ unstamped (take 1 (own_of own.now))) }
{
    match own {
        Some(kept) => Ok(Some(kept.item.copy()?)),
        None => Ok(None),
    }
}
