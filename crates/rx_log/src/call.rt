use rx_note::Note;
use std::error::Error;
use std::fmt;

/// A call to publish a note, with a number by which its caller knows it.
#[derive(Drop, Debug, PartialEq, Eq)]
pub struct Call {
    pub ticket: u64,
    pub note: Note,
}

/// Why a call was not taken. The machine is as it was, and the note is appended nowhere.
#[derive(Clone, Copy, Debug, PartialEq, Eq)]
pub enum CallError {
    /// As many calls wait for their answer as may.
    Full,
    /// There was no memory for it.
    Memory,
}

impl fmt::Display for CallError {
    fn fmt<W: fmt::Write>(&self, f: &mut fmt::Formatter<W>) -> fmt::Result {
        f.write_str(match self {
            CallError::Full => "as many calls wait as may",
            CallError::Memory => "out of memory",
        })
    }
}

impl Error for CallError {}
