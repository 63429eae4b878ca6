ghost use Rattle.std.specs.Prelude.{◌≡◌, ◌+◌, ◌≤◌, ℕ, false, true, if◌then◌else◌, [], ◌∷◌, ◌++◌, OnOk};
ghost use Rattle.rx_sink.specs.Rests.{HasRoomFor};

use crate::PutAway;
use rx_heap::{Heap, Memory};
use rx_past::Past;
use std::marker::Model;

/// What the sinks left that were put away, in the order in which they were. A contract always sees the whole list; a program has
/// it where it is kept, and else none of it, so that it takes no memory.
#[derive(Drop)]
pub struct Rests<R> {
    // All of them where they are kept, and else none.
    list: Vec<PutAway<R>, Heap>,
    keeps: bool,
    past: Past<PutAway<R>>,
}

impl<R> Model for Rests<R> {
    ghost use Rattle.std.specs.Prelude.{◌≡◌, if◌then◌else◌, [], vec_capacity};
    ghost use Rattle.rx_sink.specs.Rests.{RestsView};

    ghost Value = { RestsView R };

    ghost view = { λ r. record { items = r.past.items; keeps = r.keeps; room = vec_capacity r.list } };

    ghost invariant = { λ r. r.list.items ≡ (if r.keeps then r.past.items else []) };
}

impl<R: Drop> Rests<R> {
    /// None yet, and those that come are kept in this memory.
    pub fn new(alloc: Heap) -> Rests<R>
        ensures items { result.items ≡ [] }
        ensures keeps { result.keeps ≡ true }
    {
        Rests {
            list: Vec::new(alloc),
            keeps: true,
            past: Past::new(),
        }
    }

    /// Lets go of those that are kept, and keeps none that comes.
    pub fn forget(&mut self)
        ensures items { self.new.items ≡ self.old.items }
        ensures keeps { self.new.keeps ≡ false }
    {
        self.list.clear();
        self.keeps = false;
    }

    /// The whole list where it is kept, and else none of it.
    pub fn as_slice(&self) -> &[PutAway<R>]
        ensures { result.now ≡ (if self.now.keeps then self.now.items else []) }
    {
        self.list.as_slice()
    }

    // Makes room for so many more, of which none is needed where they are not kept. `Err` where there is no memory for it.
    pub(crate) fn reserve(&mut self, more: usize) -> Result<(), Memory>
        ensures items { self.new.items ≡ self.old.items }
        ensures keeps { self.new.keeps ≡ self.old.keeps }
        ensures room { OnOk result (HasRoomFor more self.new) }
        ensures no_less { self.old.room ≤ self.new.room }
    {
        if self.keeps {
            self.list.try_reserve(more)?;
        }
        Ok(())
    }

    // One more was put away, for which there is room. It is let go where they are not kept.
    pub(crate) fn push_reserved(&mut self, one: PutAway<R>)
        requires { HasRoomFor 1 self.old }
        ensures items { self.new.items ≡ self.old.items ++ one ∷ [] }
        ensures keeps { self.new.keeps ≡ self.old.keeps }
        ensures room { (n : ℕ) → HasRoomFor (n + 1) self.old → HasRoomFor n self.new }
    {
        self.past = self.past.and(&one);
        if self.keeps {
            self.list.push_reserved(one);
        }
    }
}
