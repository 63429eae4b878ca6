pub(crate) mod lines;
pub(crate) mod written_event;

use crate::Id;
use rx_note::{Item, Text};

/// What the reader of a stream is told of its subject. A place is that of an item ([`Item::place`]), counted from 0; `known`
/// is the place of the last item of which the reader then knows what became, None where it knows of none.
#[derive(Clone, Copy, Debug)]
pub enum StreamEvent<'a> {
    /// It follows, as the observer of this number.
    Joined { who: u32, known: Option<u32> },
    /// An item, told with its place as its id, or a seed, which has none.
    Next(&'a Item),
    /// So many items were left out, the last of them that of the place `last`.
    Missed { count: u32, last: u32 },
    /// The server began anew since it was told the id that the reader sent.
    Restarted { sent: &'a Id },
    /// The subject completed.
    Completed { known: Option<u32> },
    /// The subject failed with this error.
    Failed { text: &'a Text, known: Option<u32> },
    /// It was too slow, and ends. It has no id, so that its reader comes again behind what it heard.
    Overflowed,
}
