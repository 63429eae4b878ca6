use std::error::Error;
use std::fmt;

/// Why an inbox that doesn't wait took no letter.
#[derive(Clone, Copy, Debug, PartialEq, Eq)]
pub enum TryRecvFault {
    /// There is none yet.
    Empty,
    /// Every port of the box was dropped, ended or not, and the box is empty: none will come any more.
    Gone,
}

impl fmt::Display for TryRecvFault {
    fn fmt<W: fmt::Write>(&self, f: &mut fmt::Formatter<W>) -> fmt::Result {
        f.write_str(match self {
            TryRecvFault::Empty => "there is no letter yet",
            TryRecvFault::Gone => "no letter will come any more",
        })
    }
}

impl Error for TryRecvFault {}
