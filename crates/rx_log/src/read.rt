use crate::Standing;
use std::error::Error;
use std::fmt;

/// What a machine tells of an entry that it read.
#[derive(Clone, Copy, Debug, PartialEq, Eq)]
pub struct Read {
    /// How the entry stands.
    pub standing: Standing,
    /// The ticket of the call that it answers, where it is the machine's own and counts.
    pub answers: Option<u64>,
}

/// Why an entry was not read. The machine is as it was.
#[derive(Clone, Copy, Debug, PartialEq, Eq)]
pub enum ReadError {
    /// It stands where the machine has read already.
    Passed,
    /// Entries before it were not read.
    Gone,
    /// There was no memory for it.
    Memory,
}

impl fmt::Display for ReadError {
    fn fmt<W: fmt::Write>(&self, f: &mut fmt::Formatter<W>) -> fmt::Result {
        f.write_str(match self {
            ReadError::Passed => "the entry was read before",
            ReadError::Gone => "entries before it were not read",
            ReadError::Memory => "out of memory",
        })
    }
}

impl Error for ReadError {}
