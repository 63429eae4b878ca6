ghost use Rattle.std.specs.Prelude.{◌≡◌, ◌+◌, IfOk};
ghost use Rattle.rx_lane.specs.Lanes.{RefusesRequest};

use std::error::Error;
use std::fmt;

/// Why a request was refused.
#[derive(Clone, Copy, Debug, PartialEq, Eq)]
pub enum AskError {
    /// It is for no items.
    ZeroRequest,
    /// More than 4,294,967,295 items would be owed.
    TooMuch,
    /// There was no memory for what it gives.
    Memory,
}

impl fmt::Display for AskError {
    fn fmt<W: fmt::Write>(&self, f: &mut fmt::Formatter<W>) -> fmt::Result {
        f.write_str(match self {
            AskError::ZeroRequest => "a request is for at least 1 item",
            AskError::TooMuch => "more than 4294967295 items would be owed",
            AskError::Memory => "out of memory",
        })
    }
}

impl Error for AskError {}

// How many items may be given where so many were owed and `n` more are requested.
pub(crate) fn owed_with(owed: u32, n: u32) -> Result<u32, AskError>
    ensures refuses { RefusesRequest owed n result }
    ensures owed { IfOk result (λ all. all ≡ owed + n) }
{
    if n == 0 {
        return Err(AskError::ZeroRequest);
    }
    match owed.checked_add(n) {
        Some(all) => Ok(all),
        None => Err(AskError::TooMuch),
    }
}
