ghost use Rattle.std.specs.Prelude.{◌≡◌};

use crate::Holder;

/// What is had of a node: where its last tenure stands, and where the last one stands that counts, 0 if none does; who holds
/// that, and how many notes counted behind it.
#[derive(Clone, Copy)]
pub(crate) struct Term {
    pub(crate) holder: Holder,
    pub(crate) last: u64,
    pub(crate) current: u64,
    pub(crate) number: u64,
}

impl Term {
    ghost use Rattle.rx_log.specs.Terms.{blank, next_term, renewed, with_number};

    /// Of a node that has no tenure yet.
    pub(crate) fn blank(holder: Holder) -> Term
        ensures { result ≡ blank holder }
    {
        Term {
            holder,
            last: 0,
            current: 0,
            number: 0,
        }
    }

    /// The same once a tenure of its node stands at a place.
    pub(crate) fn next(self, holder: Holder, place: u64, counts: bool) -> Term
        ensures { result ≡ next_term holder place counts self }
    {
        if counts {
            Term {
                holder,
                last: place,
                current: place,
                number: 0,
            }
        } else {
            Term {
                last: place,
                ..self
            }
        }
    }

    /// The same, where it is of the holder's node; else as it was.
    pub(crate) fn renewed(self, holder: Holder, place: u64, counts: bool) -> Term
        ensures { result ≡ renewed holder place counts self }
    {
        if self.holder.node == holder.node {
            self.next(holder, place, counts)
        } else {
            self
        }
    }

    /// The same once so many notes counted behind the tenure at a place.
    pub(crate) fn with_number(self, tenure: u64, number: u64) -> Term
        ensures { result ≡ with_number tenure number self }
    {
        if self.current == tenure {
            Term { number, ..self }
        } else {
            self
        }
    }
}
