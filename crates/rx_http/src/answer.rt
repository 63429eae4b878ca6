pub(crate) mod document;
pub(crate) mod placed_body;
pub(crate) mod places;
pub(crate) mod refusal;
pub(crate) mod written_answer;

use crate::{Document, Epoch, LookForm, Places, Refusal};

/// What a request is answered.
#[derive(Drop)]
pub enum Answer {
    /// The events of a subject follow, to the end of the connection.
    Events,
    /// The subject is over, and its reader knows it: there is nothing more to come for.
    Over,
    /// All is well.
    Well,
    /// The server stops, or a thread of it is gone.
    Unwell,
    /// An emission was accepted.
    Accepted {
        /// The epoch of this start of the server.
        epoch: Epoch,
        /// The place of the item; none where its subject ended by it.
        place: Option<u32>,
        /// It was accepted before, when it came by the same key, and not once more.
        again: bool,
    },
    /// Each line of an emission was accepted.
    Placed {
        /// The epoch of this start of the server.
        epoch: Epoch,
        /// The place of the item of each line.
        places: Places,
    },
    /// The first lines of an emission were accepted, and the one behind them was refused.
    Cut {
        /// The epoch of this start of the server.
        epoch: Epoch,
        /// The place of the item of each line that was accepted.
        places: Places,
        /// Why the one behind them was refused.
        refusal: Refusal,
    },
    /// The observer is owed the items that were asked for.
    Requested,
    /// What is seen of the server.
    Shown {
        form: LookForm,
        body: Document,
    },
    /// The server stops from now on.
    Stops,
    /// It is refused.
    Refused(Refusal),
}
