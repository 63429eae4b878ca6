// Room goes back by quarters. A tape, and the stamps that a subject keeps of it, give back room whenever items leave them
// that needed more than 64 places and now need no more than a quarter (`rx_heap::give_back`): they keep room for twice what
// is left, and for 64. So a hub that has drained holds no more after a long burst than after a short one; each item that
// leaves pays for no more than one that is moved, and a list that is in use at one size never grows and shrinks in turns.
// Where the memory for the smaller block can't be had, the larger one stays, and no call is refused for it.
ghost use Rattle.std.specs.Prelude.{◌≡◌};

use crate::Heap;
use std::collections::VecDeque;

// The room, in items, that a list keeps however few it holds.
const ROOM_KEPT: usize = 64;

/// Gives back the room of a list that it has no use for: where it holds no more than a quarter of what it has room for, it
/// keeps room for twice as many, and for 64 at least. So room that a burst needed goes as its items go, and each item
/// that goes pays for less than one that is moved. It stays where the memory can't be had to move what is left.
#[inline(always)] // asked wherever items leave a list
pub fn give_back<T: Drop>(items: &mut VecDeque<T, Heap>)
    ensures { items.new.items ≡ items.old.items }
{
    if items.capacity() > ROOM_KEPT && items.len() <= items.capacity() / 4 {
        shrink(items);
    }
}

// Keeps room for twice as many items as there are, and for some at least.
#[inline(never)] // rare
fn shrink<T: Drop>(items: &mut VecDeque<T, Heap>)
    ensures { items.new.items ≡ items.old.items }
{
    let room = items.len().saturating_mul(2);
    items.shrink_to(ROOM_KEPT.max(room));
}
