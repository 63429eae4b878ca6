// The sink that was found last is looked at before any (`Places::last`). The search for another begins where it stood when it was
// looked for last (`rx_sink`'s `Spots`, in `Places`), and goes down from there, since those behind a sink that goes move down. The spots stand by rising subject and number, as the notes
// of an item come, so the one behind the last is tried first, and then halving. They are no part of what is proved: any place
// is right to begin at. The room for a spot is made with the place of its sink (`Places::grow`), so want of memory for it is
// told like any other. Nor are they kept exact: a sink that goes leaves its spot behind, and the stale ones are let go once
// they are as many as the others and 64. The number of the observer, where it began before, is its place only for the first
// observers of one subject. That any place found is the first is known since no two sinks are kept for one observer, which is
// part of what the lists stand for (`Stand`).
ghost use Rattle.std.specs.Prelude.{◌≤◌, length};

use crate::Kept;
use rx_heap::{Heap, Memory};

// How many spots of sinks that are kept no more may stand among the others before those are let go, beside as many as sinks are
// kept.
const MOST_STALE: usize = 64;

/// Where the sinks of observers stand, as far as that is remembered: what it tells is where a sink is looked for first. A sink
/// that it does not know is found all the same.
#[derive(Drop)]
pub(crate) struct Spots {
    // By rising subject and number, once a sink came.
    list: Option<Vec<Spot, Heap>>,
    // The index of the one that was asked for last.
    last: usize,
}

// Where the sink of an observer stood when it was looked for last.
#[derive(Clone, Copy)]
struct Spot {
    subject: u32,
    who: u32,
    place: usize,
}

impl Spots {
    /// None is remembered.
    pub(crate) fn new() -> Spots {
        Spots {
            list: None,
            last: 0,
        }
    }

    /// Makes room for one more. `Err` where there is no memory for it.
    pub(crate) fn reserve<K>(&mut self, kept: &Vec<K, Heap>) -> Result<(), Memory> {
        match &mut self.list {
            Some(list) => list.try_reserve(1)?,
            None => {
                let mut list = Vec::new(kept.allocator().clone()?);
                list.try_reserve(1)?;
                self.list = Some(list);
            }
        }
        Ok(())
    }

    /// Where the sink of an observer stood when it was looked for last. The notes of an item go to the observers of a subject by
    /// their rising numbers, and what one observer asked for goes to it together, so it is mostly the spot behind the one asked for
    /// before, or that one again.
    pub(crate) fn near(&mut self, subject: u32, who: u32) -> usize {
        let Some(list) = &self.list else {
            return who as usize;
        };
        let next = self.last.saturating_add(1);
        self.last = if is_spot_of(list, next, subject, who) {
            next
        } else if is_spot_of(list, self.last, subject, who) {
            self.last
        } else {
            spot_index(list, subject, who)
        };
        match list.get(self.last) {
            Some(spot) if is_of(spot, subject, who) => spot.place,
            _ => who as usize,
        }
    }

    /// The sink asked for last stands at this place.
    pub(crate) fn correct(&mut self, subject: u32, who: u32, place: usize) {
        let Some(list) = &mut self.list else {
            return;
        };
        if let Some(spot) = list.get_mut(self.last)
            && is_of(spot, subject, who)
        {
            spot.place = place;
        }
    }

    /// A sink came, and stands behind the others. Where so many are remembered that are kept no more, they are let go.
    pub(crate) fn add<S>(&mut self, kept: &Vec<Kept<S>, Heap>) {
        let mut list = match self.list.take() {
            Some(list) => list,
            None => {
                let Ok(heap) = kept.allocator().clone() else {
                    return;
                };
                Vec::new(heap)
            }
        };
        if list.len() / 2 > kept.len().saturating_add(MOST_STALE) {
            list.clear();
            put_all(&mut list, kept.as_slice());
        } else if let Some(one) = kept.last() {
            put(&mut list, one, kept.len() - 1);
        }
        self.list = Some(list);
    }
}

// Remembers where all of these stand.
fn put_all<S>(list: &mut Vec<Spot, Heap>, kept: &[Kept<S>]) {
    for (place, one) in kept.iter().enumerate() {
        put(list, one, place);
    }
}

// Remembers where this sink stands, for which there mostly is room.
fn put<S>(list: &mut Vec<Spot, Heap>, one: &Kept<S>, place: usize) {
    let index = spot_index(list, one.subject, one.who);
    let spot = Spot {
        subject: one.subject,
        who: one.who,
        place,
    };
    let _ = list.insert(index, spot);
}

// Where the spot of an observer stands, or is to stand.
fn spot_index(list: &Vec<Spot, Heap>, subject: u32, who: u32) -> usize
    ensures { result ≤ length list.now.items }
{
    list.partition_point(|spot| spot.subject < subject || spot.subject == subject && spot.who < who)
}

// Whether the spot at an index is that of an observer.
fn is_spot_of(list: &Vec<Spot, Heap>, index: usize, subject: u32, who: u32) -> bool {
    match list.get(index) {
        Some(spot) => is_of(spot, subject, who),
        None => false,
    }
}

fn is_of(spot: &Spot, subject: u32, who: u32) -> bool {
    spot.subject == subject && spot.who == who
}
