use crate::{Holder, Total};
use rx_note::{Note, Text};

/// An entry of a log. Its place is how many stand before it, and one.
#[derive(Drop, Debug, PartialEq, Eq)]
pub enum Entry {
    /// A machine begins anew to number what it appends. It had read as far as `base`, and what it had read came to `total`.
    Tenure {
        holder: Holder,
        base: u64,
        total: Total,
    },
    /// The note that is the `number`-th, from 1, behind the tenure at this place.
    Own {
        tenure: u64,
        number: u64,
        note: Note,
    },
    /// An item of somebody who knows nothing of tenures.
    Foreign {
        text: Text,
    },
}
