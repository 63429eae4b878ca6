// Why a part of a configuration is not there.
use rx_heap::Memory;

/// Why a part of a configuration is not there.
#[derive(Clone, Copy, Debug, PartialEq, Eq)]
pub(crate) enum Fault {
    /// It is none.
    Refused,
    /// There was no memory for it.
    Memory,
}

impl From<Memory> for Fault {
    fn from(_refused: Memory) -> Fault {
        Fault::Memory
    }
}
