ghost use Rattle.std.specs.Prelude.{◌≡◌, ◌+◌, ◌≤◌, vec_len, vec_capacity, OnOk, OnErr};
ghost use Rattle.rx_sink.specs.Acts.{raised};
ghost use Rattle.rx_sink.specs.Rests.{HasRoomFor};

use crate::spots::Spots;
use crate::{Kept, Rests};
use rx_heap::{Heap, Memory};

/// Makes the places of the sinks that come, counts how often there was no memory for one, and remembers where the sinks stand.
#[derive(Drop)]
pub struct Places {
    misses: u64,
    spots: Spots,
    // Where the sink stands that was found last.
    last: usize,
}

impl Places {
    /// None was made yet.
    pub fn new() -> Places
        ensures { result.misses ≡ 0 }
    {
        Places {
            misses: 0,
            spots: Spots::new(),
            last: 0,
        }
    }

    /// Makes room for one more in `kept`, and in `away` for all of `kept` and that one. `Err` where there is no memory for
    /// it. The items of both stay either way.
    pub fn grow<K: Drop, R: Drop>(
        &mut self,
        kept: &mut Vec<K, Heap>,
        away: &mut Rests<R>,
    ) -> Result<(), Memory>
        ensures kept { kept.new.items ≡ kept.old.items }
        ensures away { away.new.items ≡ away.old.items }
        ensures kept_room { OnOk result (vec_len kept.old + 1 ≤ vec_capacity kept.new) }
        ensures away_room { OnOk result (HasRoomFor (vec_len kept.old + 1) away.new) }
        ensures keeps { away.new.keeps ≡ away.old.keeps }
        ensures no_less { away.old.room ≤ away.new.room }
        ensures same { OnOk result (self.new.misses ≡ self.old.misses) }
        ensures missed { OnErr result (self.new.misses ≡ raised self.old.misses) }
    {
        let grown = match self.spots.reserve(kept) {
            Ok(()) => make_room(kept, away),
            Err(fault) => Err(fault),
        };
        if grown.is_err() {
            self.misses = self.misses.saturating_add(1);
        }
        grown
    }

    // Where the sink stands that was found last, so long as no other went.
    pub(crate) fn last(&self) -> usize {
        self.last
    }

    // Where the sink of an observer is looked for first.
    pub(crate) fn near(&mut self, subject: u32, who: u32) -> usize
        ensures { self.new.misses ≡ self.old.misses }
    {
        self.spots.near(subject, who)
    }

    // The sink that was looked for near here was found at this place.
    pub(crate) fn found(&mut self, subject: u32, who: u32, near: usize, place: usize)
        ensures { self.new.misses ≡ self.old.misses }
    {
        self.last = place;
        if place != near {
            self.spots.correct(subject, who, place);
        }
    }

    // A sink came, and stands behind the others.
    pub(crate) fn add<S>(&mut self, kept: &Vec<Kept<S>, Heap>)
        ensures { self.new.misses ≡ self.old.misses }
    {
        self.spots.add(kept);
    }

    /// How often `grow` found no memory. The count stays at the greatest `u64`.
    pub fn misses(&self) -> u64
        ensures { result ≡ self.now.misses }
    {
        self.misses
    }
}

// Makes room for one more in `kept`, and in `away` for all of `kept` and that one.
fn make_room<K: Drop, R: Drop>(kept: &mut Vec<K, Heap>, away: &mut Rests<R>) -> Result<(), Memory>
    ensures kept { kept.new.items ≡ kept.old.items }
    ensures away { away.new.items ≡ away.old.items }
    ensures kept_room { OnOk result (vec_len kept.old + 1 ≤ vec_capacity kept.new) }
    ensures away_room { OnOk result (HasRoomFor (vec_len kept.old + 1) away.new) }
    ensures keeps { away.new.keeps ≡ away.old.keeps }
    ensures no_less { away.old.room ≤ away.new.room }
{
    kept.try_reserve(1)?;
    away.reserve(kept.len() + 1)?;
    Ok(())
}
