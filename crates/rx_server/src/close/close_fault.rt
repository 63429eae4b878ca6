ghost use Rattle.std.specs.Prelude.{◌≡◌};

use crate::wired::start_fault::Role;
use std::error::Error;
use std::fmt;

/// Why the threads of a closed server have nothing to report.
#[derive(Clone, Copy, Debug, PartialEq, Eq)]
pub enum CloseCause {
    /// The thread ended by a fault of its own.
    Ended,
    /// All threads ended well, but not each desk of the server came back once. The first pump is named: each desk has a port to
    /// its box, which so did not settle.
    Unsettled,
}

/// Why a server that was closed has no report: first a thread that ended by a fault of its own, pumps before drainers, each by
/// its number among those of its role; then a desk that did not come back once.
#[derive(Clone, Copy, Debug, PartialEq, Eq)]
pub struct CloseFault {
    pub thread: Role,
    pub index: usize,
    pub cause: CloseCause,
}

impl CloseFault {
    // This thread ended by a fault of its own.
    pub(crate) fn ended(thread: Role, index: usize) -> CloseFault
        ensures { result ≡ record { thread = thread; index = index; cause = CloseCause.Ended } }
    {
        CloseFault {
            thread,
            index,
            cause: CloseCause::Ended,
        }
    }

    // The box that counts as this thread did not settle.
    pub(crate) fn unsettled(thread: Role, index: usize) -> CloseFault
        ensures { result ≡ record { thread = thread; index = index; cause = CloseCause.Unsettled } }
    {
        CloseFault {
            thread,
            index,
            cause: CloseCause::Unsettled,
        }
    }
}

impl fmt::Display for CloseFault {
    fn fmt<W: fmt::Write>(&self, f: &mut fmt::Formatter<W>) -> fmt::Result {
        let CloseFault { thread, index, .. } = self;
        write!(f, "close fault: {thread} {index}")
    }
}

impl Error for CloseFault {}
