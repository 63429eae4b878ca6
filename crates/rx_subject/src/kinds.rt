// What each kind offers of an item, and keeps for later joiners.
ghost use Rattle.std.specs.Prelude.{◌≡◌, List, Some, take, IfOk, ℕ, option_to_list};
ghost use Rattle.rx_note.specs.declared.item.Item.{Item};
ghost use Rattle.rx_note.specs.declared.note.Note.TheVariants.{Next};
ghost use Rattle.rx_history.specs.Histories.{unstamped, terminal_in, seed_item, offers_by};
ghost use Rattle.rx_subject.specs.TapeSubjects.{own_of};
ghost use Rattle.rx_subject.specs.Windows.{count_kept as count_kept_by, age_kept as age_kept_by};

use crate::kept::{Kept, copy_kept};
use rx_heap::Memory;
use rx_note::{Item, Kind, Note, Text};

/// What an item from a port offers at once, at its place; Async keeps it back.
pub(crate) fn item_offered(
    kind: &Kind,
    port: u32,
    place: u32,
    item: &Item,
) -> Result<Option<Item>, Memory>
    ensures { IfOk result (λ offered. (last : List Item) → option_to_list offered ≡ offers_by kind.now last port place (Next item.now)) }
{
    match kind {
        Kind::Async => Ok(None),
        Kind::Publish | Kind::Behavior(_) | Kind::Replay { .. } => Ok(Some(Item {
            from: port,
            place,
            text: item.text.copy()?,
        })),
    }
}

/// The item that an end offers: of Async the last one at completion.
pub(crate) fn last_offered(
    kind: &Kind,
    own: &Option<Kept>,
    terminal: &Note,
) -> Result<Option<Item>, Memory>
    ensures { IfOk result (λ offered. (port place : ℕ) → terminal_in terminal.now ≡ Some terminal.now
        → option_to_list offered ≡ offers_by kind.now (unstamped (take 1 (own_of own.now))) port place terminal.now) }
{
    match (kind, terminal) {
        (Kind::Async, Note::Completed) => copy_kept(own),
        _ => Ok(None),
    }
}

/// The seed as an item, if there is one.
pub(crate) fn seed_of(seed: &Option<Text>) -> Result<Option<Item>, Memory>
    ensures { IfOk result (λ item. option_to_list item ≡ seed_item seed.now) }
{
    match seed {
        Some(seed) => Ok(Some(Item::seed(seed.copy()?))),
        None => Ok(None),
    }
}

/// How many of the last items a kind keeps; None: all.
pub(crate) fn count_kept(kind: &Kind) -> Option<usize>
    ensures { result ≡ count_kept_by kind.now }
{
    match kind {
        Kind::Publish => Some(0),
        Kind::Behavior(_) | Kind::Async => Some(1),
        Kind::Replay { count, age: _ } => count.map(usize::from),
    }
}

/// The age at which a kind keeps an item no more; None: never.
pub(crate) fn age_kept(kind: &Kind) -> Option<u64>
    ensures { result ≡ age_kept_by kind.now }
{
    match kind {
        Kind::Replay { count: _, age } => *age,
        Kind::Publish | Kind::Behavior(_) | Kind::Async => None,
    }
}
