use rx_heap::Memory;
use std::error::Error;
use std::fmt;

/// Why the line of an observer was not read from a history.
#[derive(Clone, Copy, Debug, PartialEq, Eq)]
pub enum LineError {
    /// No accepted Join made an observer of that number.
    NoObserver,
    /// There was no memory for it.
    Memory,
}

impl fmt::Display for LineError {
    fn fmt<W: fmt::Write>(&self, f: &mut fmt::Formatter<W>) -> fmt::Result {
        f.write_str(match self {
            LineError::NoObserver => "no accepted join made an observer of that number",
            LineError::Memory => "out of memory",
        })
    }
}

impl Error for LineError {}

impl From<Memory> for LineError {
    ghost use Rattle.rx_history.specs.declared.line_error.LineError.TheVariants as refused;
    ghost use Rattle.std.specs.Prelude.{◌≡◌};

    ghost from_gives = { λ _ e. e ≡ refused.Memory };

    fn from(_refused: Memory) -> LineError {
        LineError::Memory
    }
}
