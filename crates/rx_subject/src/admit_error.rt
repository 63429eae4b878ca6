use rx_heap::Memory;
use std::error::Error;
use std::fmt;

/// Why a note was not admitted.
#[derive(Clone, Copy, Debug, PartialEq, Eq)]
pub enum AdmitError {
    /// The subject has ended.
    Ended,
    /// There was no memory for it.
    Memory,
}

impl fmt::Display for AdmitError {
    fn fmt<W: fmt::Write>(&self, f: &mut fmt::Formatter<W>) -> fmt::Result {
        f.write_str(match self {
            AdmitError::Ended => "the subject has ended",
            AdmitError::Memory => "out of memory",
        })
    }
}

impl Error for AdmitError {}

impl From<Memory> for AdmitError {
    ghost use Rattle.rx_subject.specs.declared.admit_error.AdmitError.TheVariants as refused;
    ghost use Rattle.std.specs.Prelude.{◌≡◌};

    ghost from_gives = { λ _ e. e ≡ refused.Memory };

    fn from(_refused: Memory) -> AdmitError {
        AdmitError::Memory
    }
}
