ghost use Rattle.std.specs.Prelude.{◌≡◌, ◌≤◌, is_some};
ghost use Rattle.rx_events.specs.Telling.{count_to, is_told, left_out, standing_after, standing_at, standing_behind};

use rx_http::Begin;
use rx_note::{Item, Note};

/// What the reader of a stream knows, and how its observer may end.
#[derive(Clone, Copy, Debug, PartialEq, Eq)]
pub struct Standing {
    /// The place of the last item of which it knows what became; None where it knows of none.
    pub known: Option<u32>,
    /// It said nothing and was told no item yet: whatever comes first is the next.
    pub fresh: bool,
    /// Its observer may end by an overflow.
    pub bounded: bool,
}

impl Standing {
    /// The reader that begins there.
    pub fn at(begin: &Begin, bounded: bool) -> Standing
        ensures { result ≡ standing_at begin.now bounded }
    {
        match begin {
            Begin::Fresh => Standing {
                known: None,
                fresh: true,
                bounded,
            },
            Begin::Behind(known) => Standing {
                known: *known,
                fresh: false,
                bounded,
            },
            Begin::Restarted(_) => Standing {
                known: None,
                fresh: false,
                bounded,
            },
        }
    }

    /// How many items are left out between what it knows and this one: none before a seed, which is no item of the subject's own.
    /// None: it knows already what became of this one.
    pub(crate) fn left_out(self, item: &Item) -> Option<u32>
        ensures { result ≡ left_out self item.now }
    {
        if item.is_seed() || self.fresh {
            return Some(0);
        }
        let count = self.count();
        let place = u64::from(item.place);
        if place < count {
            None
        } else {
            Some((place - count) as u32)
        }
    }

    // How many items stand up to what it knows.
    fn count(self) -> u64
        ensures { result ≡ count_to self.known }
    {
        match self.known {
            Some(place) => u64::from(place) + 1,
            None => 0,
        }
    }

    /// It was told this note, or passes over it: an item of which it knows already what became. Whether it was told.
    pub(crate) fn hear(&mut self, note: &Note) -> bool
        ensures told { result ≡ is_told self.old note.now }
        ensures after { self.new ≡ standing_after self.old note.now }
    {
        match note {
            Note::Next(item) => self.hear_item(item),
            Note::Completed | Note::Failed(_) => true,
        }
    }

    // The same of an item.
    fn hear_item(&mut self, item: &Item) -> bool
        ensures told { result ≡ is_some (left_out self.old item.now) }
        ensures after { self.new ≡ standing_behind self.old item.now }
    {
        if item.is_seed() {
            return true;
        }
        if !self.fresh && u64::from(item.place) < self.count() {
            return false;
        }
        self.known = Some(item.place);
        self.fresh = false;
        true
    }
}
