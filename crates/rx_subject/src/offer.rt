ghost use Rattle.std.specs.Prelude.{◌≡◌};
ghost use Rattle.rx_subject.specs.Offers.{most_given};

use rx_note::{Item, Note};

/// What an accepted note offers to every observer: first the item, then the end.
#[derive(Drop, Debug, PartialEq, Eq)]
pub struct Offer {
    pub item: Option<Item>,
    pub end: Option<Note>,
}

impl Offer {
    /// How many notes it gives an observer at most.
    pub fn len(&self) -> usize
        ensures { result ≡ most_given self.now }
    {
        usize::from(self.item.is_some()) + usize::from(self.end.is_some())
    }
}
