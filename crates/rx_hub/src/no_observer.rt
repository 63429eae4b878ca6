use std::error::Error;
use std::fmt;

/// No observer of that number is held.
#[derive(Clone, Copy, Debug, PartialEq, Eq)]
pub struct NoObserver;

impl fmt::Display for NoObserver {
    fn fmt<W: fmt::Write>(&self, f: &mut fmt::Formatter<W>) -> fmt::Result {
        f.write_str("no observer of that number is held")
    }
}

impl Error for NoObserver {}
