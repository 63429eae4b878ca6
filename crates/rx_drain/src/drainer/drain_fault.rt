use std::error::Error;
use std::fmt;

/// Why a drainer can't go on. It then only gives its parts back.
#[derive(Clone, Copy, Debug, PartialEq, Eq)]
pub enum DrainFault {
    /// No letter will come any more, and the Bye of a port has not come.
    InboxGone,
    /// The subject at this place is gone.
    SubjectGone(usize),
}

impl fmt::Display for DrainFault {
    fn fmt<W: fmt::Write>(&self, f: &mut fmt::Formatter<W>) -> fmt::Result {
        match self {
            DrainFault::InboxGone => f.write_str("no letter will come any more"),
            DrainFault::SubjectGone(place) => write!(f, "subject {place} is gone"),
        }
    }
}

impl Error for DrainFault {}
