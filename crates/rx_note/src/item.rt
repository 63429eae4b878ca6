ghost use Rattle.std.specs.Prelude.{◌≡◌, ◌==◌, IfOk};

use crate::Text;
use rx_heap::Memory;

// The port of a seed, which no producer sent.
const SEED_PORT: u32 = u32::MAX;

// The place of a seed, which is ahead of all that its subject accepted.
const SEED_PLACE: u32 = u32::MAX;

// A text with the port and the place beside it.
const _: () = prove!(size_of::<Item>() == 32);

/// An item: what a producer emitted, the number of the port that it came by, and its place, which is how many items its subject
/// accepted before it, from 0.
///
/// The subject sets `from` and `place`, whatever stood there in the event. In the seed of a Behavior subject both are
/// 4,294,967,295; no other item has that place.
#[derive(Drop, Debug, PartialEq, Eq)]
pub struct Item {
    pub from: u32,
    pub place: u32,
    pub text: Text,
}

impl Item {
    /// An item of this text that is to be emitted, with port and place 0: its subject sets both.
    pub fn new(text: Text) -> Item
        ensures { result ≡ record { from = 0; place = 0; text = text } }
    {
        Item {
            from: 0,
            place: 0,
            text,
        }
    }

    /// The item of a seed.
    pub fn seed(text: Text) -> Item
        ensures { result ≡ record { from = 4294967295; place = 4294967295; text = text } }
    {
        Item {
            from: SEED_PORT,
            place: SEED_PLACE,
            text,
        }
    }

    /// Whether it is a seed, by its place.
    pub fn is_seed(&self) -> bool
        ensures { result ≡ (self.now.place == 4294967295) }
    {
        self.place == SEED_PLACE
    }

    /// An equal item, whose text is a copy (`Text::copy`).
    pub fn copy(&self) -> Result<Item, Memory>
        ensures { IfOk result (λ item. item ≡ self.now) }
    {
        let text = self.text.copy()?;
        Ok(Item {
            from: self.from,
            place: self.place,
            text,
        })
    }
}
