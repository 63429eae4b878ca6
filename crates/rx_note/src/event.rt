ghost use Rattle.std.specs.Prelude.{◌≡◌};
ghost use Rattle.rx_note.specs.declared.event.Event.TheVariants.{Emit};
ghost use Rattle.rx_note.specs.declared.note.Note.TheVariants.{Next};
ghost use Rattle.rx_note.specs.declared.item.Item.{Item};

use crate::{Item, Note, Policy, Text};

/// One event of a subject, as it comes by a port.
#[derive(Drop, Debug, PartialEq, Eq)]
pub enum Event {
    /// A producer emits a note at a moment, in milliseconds.
    Emit { note: Note, at: u64 },
    /// An observer joins at a moment, in milliseconds, with a policy and a request of `first` items.
    Join { policy: Policy, first: u32, at: u64 },
    /// Observer `who` requests `n` items more.
    Request { who: u32, n: u32 },
    /// Observer `who` leaves: nothing more is given to it, and what waits for it is discarded.
    Dispose { who: u32 },
}

impl Event {
    /// A producer emits this text at a moment, in milliseconds. The subject sets by which port and at which place it came.
    pub fn item(text: Text, at: u64) -> Event
        ensures { result ≡ Emit (Next (record { from = 0; place = 0; text = text })) at }
    {
        let note = Note::Next(Item::new(text));
        Event::Emit { note, at }
    }
}
