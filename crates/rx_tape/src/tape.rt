// A tape's places are absolute, so neither a push nor a trim moves a cursor; reading, advancing and releasing a number of no
// cursor do nothing, so no condition has to be carried for them. The cursor that was lowest when it was last looked for is
// remembered: while it stands at the front, a trim is one comparison.
//
// A tape that holds 4,294,967,295 cursors, or has been pushed 2^64 - 1 items, answers `Memory` without a refused growth. No
// machine holds as many.
ghost use Rattle.std.specs.Prelude.{◌≡◌, ◌≤◌, ◌<◌, ◌^◌, ◌-◌, ◌+◌, ◌↔◌, ℕ, true, drop, None, Some, length, min, slice_get, option_copied, IfOk, OnOk, OnErr};
ghost use Rattle.rx_tape.specs.Tapes.{end_of, place_of, ahead, tape_at_first, pushed, HavePassed, MovesOn, Spares, trimmed, with_fewer};

use crate::places::Places;
use rx_heap::{Heap, Memory, give_back};
use rx_note::Item;
use std::collections::VecDeque;
use std::marker::Model;

/// A list of items and numbered cursors, each at a place of the list. Contracts see the items, the number of the first of
/// them among all that were pushed, and where the cursors stand.
///
/// That observers share what waits for them is this project's own; no page of ReactiveX asks for it.
pub struct Tape {
    items: VecDeque<Item, Heap>,
    front: u64,
    places: Places,
    // The cursor that was lowest when this was last looked for. While it stands at the front nothing can be removed.
    slowest: u32,
}

// By hand: rx_heap says why.
impl Drop for Tape {
    fn drop(self) {
        let Tape {
            items: _,
            front: _,
            places: _,
            slowest: _,
        } = self;
    }
}

impl Model for Tape {
    ghost use Rattle.std.specs.Prelude.{◌≡◌, ◌≤◌, ◌<◌, ◌^◌, ◌+◌, ℕ, Some, length};
    ghost use Rattle.rx_tape.specs.Tapes.{TapeState, place_of};

    ghost Value = { TapeState };

    ghost view = { λ t. record { front = t.front; items = t.items.items; places = t.places } };

    ghost invariant = { λ t. (t.front + length t.items.items < 2 ^ 64)
        × ((cursor place : ℕ) → place_of t.places cursor ≡ Some place → (t.front ≤ place) × (place ≤ t.front + length t.items.items)) };
}

impl Tape {
    /// A tape with no item and no cursor. It takes no memory.
    pub fn new(alloc: Heap) -> Tape
        ensures { result ≡ tape_at_first }
    {
        Tape {
            items: VecDeque::new(alloc),
            front: 0,
            places: Places::new(),
            slowest: 0,
        }
    }

    /// The memory that it grows by.
    pub fn allocator(&self) -> &Heap {
        self.items.allocator()
    }

    /// How many items there are.
    pub fn len(&self) -> usize
        ensures len { result ≡ length self.now.items }
        ensures within { result < 2 ^ 63 }
    {
        self.items.len()
    }

    /// Puts an item at the end. `Memory` leaves the tape.
    pub fn push(&mut self, item: Item) -> Result<(), Memory>
        ensures ok { OnOk result (self.new ≡ pushed self.old item) }
        ensures err { OnErr result (self.new ≡ self.old) }
    {
        if self.end() == u64::MAX {
            return Err(Memory);
        }
        self.items.push_back(item)?;
        Ok(())
    }

    /// A new cursor, `back` items before the end. It has the lowest number that no cursor has, which may be that of one that
    /// was released. At most 4,294,967,295 are held at a time. `Memory` leaves the tape.
    pub fn cursor(&mut self, back: usize) -> Result<u32, Memory>
        requires { back ≤ length self.old.items }
        ensures fresh { IfOk result (λ cursor. place_of self.old.places cursor ≡ None) }
        ensures moves { IfOk result (λ cursor. MovesOn self.old self.new cursor (Some (end_of self.old - back))) }
        ensures err { OnErr result (self.new ≡ self.old) }
    {
        let place = self.end() - back as u64;
        self.places.add(self.items.allocator(), place)
    }

    /// The item at a cursor; None at the end, and for a number of no cursor.
    pub fn read(&self, cursor: u32) -> Option<&Item>
        ensures { option_copied result ≡ slice_get (ahead self.now cursor) 0 }
    {
        self.read_ahead(cursor, 0)
    }

    /// The item so many places ahead of a cursor.
    pub fn read_ahead(&self, cursor: u32, skip: usize) -> Option<&Item>
        ensures { option_copied result ≡ slice_get (ahead self.now cursor) skip }
    {
        let place = self.places.at(cursor)?;
        let index = ((place - self.front) as usize).saturating_add(skip);
        self.items.get(index)
    }

    /// The item at an index, from the oldest that is left on; None at the end and beyond.
    pub fn item(&self, index: usize) -> Option<&Item>
        ensures { option_copied result ≡ slice_get self.now.items index }
    {
        self.items.get(index)
    }

    /// How many items are ahead of a cursor; 0 for a number of no cursor.
    pub fn ahead_len(&self, cursor: u32) -> usize
        ensures { result ≡ length (ahead self.now cursor) }
    {
        match self.places.at(cursor) {
            Some(place) => (self.end() - place) as usize,
            None => 0,
        }
    }

    /// Moves a cursor one item on; at the end it stays. A number of no cursor is left alone.
    pub fn advance(&mut self, cursor: u32)
        ensures moves { (place : ℕ) → place_of self.old.places cursor ≡ Some place → MovesOn self.old self.new cursor (Some (min (place + 1) (end_of self.old))) }
        ensures spares { Spares self.old self.new cursor }
    {
        self.advance_by(cursor, 1)
    }

    /// Moves a cursor so many items on, no further than to the end. A number of no cursor is left alone.
    pub fn advance_by(&mut self, cursor: u32, count: usize)
        ensures moves { (place : ℕ) → place_of self.old.places cursor ≡ Some place → MovesOn self.old self.new cursor (Some (min (place + count) (end_of self.old))) }
        ensures spares { Spares self.old self.new cursor }
    {
        if let Some(place) = self.places.at(cursor) {
            let end = self.end();
            self.places
                .set(cursor, Some(place.saturating_add(count as u64).min(end)));
        }
    }

    /// Takes a cursor away. A number of no cursor is left alone.
    pub fn release(&mut self, cursor: u32)
        ensures { MovesOn self.old self.new cursor None }
    {
        self.places.set(cursor, None);
    }

    /// Removes the items that every cursor has passed, save the last `keep` items. Where few are left, it gives back the memory
    /// that they have no use for (`rx_heap::give_back`).
    pub fn trim(&mut self, keep: usize)
        ensures { self.new ≡ trimmed self.old keep }
    {
        if self.items.len() <= keep || stands_at(&self.places, self.slowest, self.front) {
            return;
        }
        let (low, slowest) = self.places.lowest(self.end());
        self.slowest = slowest;
        let gone = ((low - self.front) as usize).min(self.items.len() - keep);
        drop_front(&mut self.items, gone);
        self.front += gone as u64;
    }

    /// Takes the first item off, which every cursor has passed.
    #[inline] // once for each item that leaves the tape
    pub fn take_first(&mut self) -> Item
        requires some { 0 < length self.old.items }
        requires passed { HavePassed self.old 1 }
        ensures first { slice_get self.old.items 0 ≡ Some result }
        ensures left { self.new ≡ with_fewer self.old 1 }
    {
        let Some(item) = self.items.pop_front() else {
            unreachable!()
        };
        self.front += 1;
        item
    }

    /// Gives back memory that few items have no use for (`rx_heap::give_back`), as `trim` does where it removes some.
    pub fn give_back(&mut self)
        ensures { self.new ≡ self.old }
    {
        give_back(&mut self.items);
    }

    /// Gives back the memory that its items do not need, in a step for each of them.
    pub fn shrink_to_fit(&mut self)
        ensures { self.new ≡ self.old }
    {
        self.items.shrink_to_fit();
    }

    // The number of the next item to come.
    fn end(&self) -> u64
        ensures { result ≡ end_of self.now }
    {
        self.front + self.items.len() as u64
    }
}

// Whether a cursor stands at a place.
fn stands_at(places: &Places, cursor: u32, place: u64) -> bool
    ensures { (result ≡ true) ↔ (place_of places.now cursor ≡ Some place) }
{
    places.at(cursor) == Some(place)
}

// Drops items from the front, and gives back the room that the others have no use for.
fn drop_front(items: &mut VecDeque<Item, Heap>, count: usize)
    ensures { items.new.items ≡ drop count items.old.items }
{
    for _ in 0..count {
        drop(items.pop_front());
    }
    give_back(items);
}
