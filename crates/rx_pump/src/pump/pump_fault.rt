use std::error::Error;
use std::fmt;

/// Why a pump can't go on. It then only gives its parts back.
#[derive(Clone, Copy, Debug, PartialEq, Eq)]
pub enum PumpFault {
    /// No letter will come any more, and the Bye of a port has not come.
    InboxGone,
    /// The drainer at this place is gone.
    DrainerGone(usize),
    /// The caller to whom the reply port at this place leads is gone.
    CallerGone(usize),
}

impl fmt::Display for PumpFault {
    fn fmt<W: fmt::Write>(&self, f: &mut fmt::Formatter<W>) -> fmt::Result {
        match self {
            PumpFault::InboxGone => f.write_str("no letter will come any more"),
            PumpFault::DrainerGone(place) => write!(f, "drainer {place} is gone"),
            PumpFault::CallerGone(place) => write!(f, "caller {place} is gone"),
        }
    }
}

impl Error for PumpFault {}
