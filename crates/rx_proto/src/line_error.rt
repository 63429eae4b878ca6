ghost use Rattle.std.specs.Prelude.{◌≡◌};
ghost use Rattle.rx_proto.specs.Printing.{word_of_fault};

use crate::Word;
use std::error::Error;
use std::fmt;

/// Why a line was refused, in the order in which the refusals come.
#[derive(Clone, Copy, Debug, PartialEq, Eq)]
pub enum LineError {
    /// It has more than 1,100 bytes, or its only fault is a text of more than 1,024.
    Long,
    /// It is none of the lines that are read.
    Syntax,
    /// There was no memory for its text.
    Memory,
}

impl fmt::Display for LineError {
    fn fmt<W: fmt::Write>(&self, f: &mut fmt::Formatter<W>) -> fmt::Result {
        f.write_str(match self {
            LineError::Long => "a line has at most 1100 bytes, its text 1024",
            LineError::Syntax => "it is none of the lines that are read",
            LineError::Memory => "out of memory",
        })
    }
}

impl Error for LineError {}

impl LineError {
    /// The word by which it is answered.
    pub fn word(self) -> Word
        ensures { result ≡ word_of_fault self }
    {
        match self {
            LineError::Long => Word::Long,
            LineError::Syntax => Word::Syntax,
            LineError::Memory => Word::Memory,
        }
    }
}

/// Why a line has no meaning.
#[derive(Clone, Copy, Debug, PartialEq, Eq)]
pub enum BadLine {
    /// It has more than 1,100 bytes, or its only fault is a text of more than 1,024.
    Long,
    /// It is none of the lines that are read.
    Syntax,
}

impl fmt::Display for BadLine {
    fn fmt<W: fmt::Write>(&self, f: &mut fmt::Formatter<W>) -> fmt::Result {
        f.write_str(match self {
            BadLine::Long => "a line has at most 1100 bytes, its text 1024",
            BadLine::Syntax => "it is none of the lines that are read",
        })
    }
}

impl Error for BadLine {}
