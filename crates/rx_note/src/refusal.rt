use std::error::Error;
use std::fmt;

/// Why an event was refused. The limits behind these are this project's own.
#[derive(Clone, Copy, Debug, PartialEq, Eq)]
pub enum Refusal {
    /// Emit: the subject has ended.
    Ended,
    /// Join: as many observers are held as may be.
    Full,
    /// Emit of an item: as many items were accepted as may be. Join: as many joins were.
    Spent,
    /// Request: for no items.
    ZeroRequest,
    /// Request: no observer of that number is held.
    NoObserver,
    /// Request: more than 4,294,967,295 items would be owed.
    TooMuch,
    /// There was no memory for it, and nothing has changed.
    Memory,
}

impl fmt::Display for Refusal {
    fn fmt<W: fmt::Write>(&self, f: &mut fmt::Formatter<W>) -> fmt::Result {
        f.write_str(match self {
            Refusal::Ended => "the subject has ended",
            Refusal::Full => "as many observers are held as may be",
            Refusal::Spent => "as many joins or items were accepted as may be",
            Refusal::ZeroRequest => "a request is for at least 1 item",
            Refusal::NoObserver => "no observer of that number is held",
            Refusal::TooMuch => "more than 4294967295 items would be owed",
            Refusal::Memory => "out of memory",
        })
    }
}

impl Error for Refusal {}
