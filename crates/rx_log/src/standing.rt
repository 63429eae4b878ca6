ghost use Rattle.std.specs.Prelude.{◌≡◌};

use crate::{Holder, Total};

/// How an entry stands in its log.
#[derive(Clone, Copy, Debug, PartialEq, Eq)]
pub enum Standing {
    /// It does not count.
    Void,
    /// A tenure that counts.
    Opens,
    /// A note that counts: by whom it is, None where it is foreign, and what the log before it comes to, None where that is not
    /// known. It is emitted unless the log had ended; then an item has as its place how many there were before it.
    Counts {
        by: Option<Holder>,
        before: Option<Total>,
    },
}

impl Standing {
    ghost use Rattle.rx_log.specs.Totals.{place_of};

    /// Whether the entry's note is emitted, and then how many items came before it, which is the place of an item; None where
    /// nothing is: it does not count, is no note, stands behind the end, or nobody knows what came before it.
    pub fn place(&self) -> Option<u64>
        ensures { result ≡ place_of self.now }
    {
        match self {
            Standing::Counts {
                by: _,
                before: Some(before),
            } if !before.ended => Some(before.items),
            _ => None,
        }
    }
}
