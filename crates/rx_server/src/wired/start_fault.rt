ghost use Rattle.rx_server.specs.Starting.{NoMemoryFor, NoThreadFor};

use std::error::Error;
use std::fmt;

/// What a thread of a server is for.
#[derive(Clone, Copy, Debug, PartialEq, Eq)]
pub enum Role {
    /// It is the pump of a subject.
    Pump,
    /// It hands notes to sinks.
    Drainer,
    /// It serves the sessions of a desk.
    Worker,
}

impl fmt::Display for Role {
    fn fmt<W: fmt::Write>(&self, f: &mut fmt::Formatter<W>) -> fmt::Result {
        f.write_str(match self {
            Role::Pump => "pump",
            Role::Drainer => "drainer",
            Role::Worker => "worker",
        })
    }
}

/// Why a thread was not started.
#[derive(Clone, Copy, Debug, PartialEq, Eq)]
pub enum StartCause {
    /// There was no memory for its box or for what it owns.
    Memory,
    /// The system made no thread, or there was no memory for one.
    NoThread,
}

/// Why a server was not started: the first thread that could not be had, by its number among those of its role.
#[derive(Clone, Copy, Debug, PartialEq, Eq)]
pub struct StartFault {
    pub thread: Role,
    pub index: usize,
    pub cause: StartCause,
}

impl StartFault {
    // There was no memory for what this thread needs.
    pub(crate) fn memory(thread: Role, index: usize) -> StartFault
        ensures { NoMemoryFor thread index result }
    {
        StartFault {
            thread,
            index,
            cause: StartCause::Memory,
        }
    }

    // There was no thread for it.
    pub(crate) fn no_thread(thread: Role, index: usize) -> StartFault
        ensures { NoThreadFor thread index result }
    {
        StartFault {
            thread,
            index,
            cause: StartCause::NoThread,
        }
    }
}

impl fmt::Display for StartFault {
    fn fmt<W: fmt::Write>(&self, f: &mut fmt::Formatter<W>) -> fmt::Result {
        let StartFault { thread, index, .. } = self;
        write!(f, "cannot start {thread} {index}")
    }
}

impl Error for StartFault {}
