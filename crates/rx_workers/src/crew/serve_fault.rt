use crate::listener::AcceptFault;
use std::error::Error;
use std::fmt;

/// Why the serving of connections stopped.
#[derive(Clone, Copy, Debug, PartialEq, Eq)]
pub enum ServeFault {
    /// There is no desk to serve by.
    NoDesk,
    /// No connection could be accepted.
    Accept,
    /// The worker of the desk at this place, from 0, has no thread or nothing to wait by, or is gone.
    Thread(usize),
    /// There was no memory for a worker.
    Memory,
}

impl fmt::Display for ServeFault {
    fn fmt<W: fmt::Write>(&self, f: &mut fmt::Formatter<W>) -> fmt::Result {
        match self {
            ServeFault::NoDesk => f.write_str("there is no desk to serve by"),
            ServeFault::Accept => AcceptFault.fmt(f),
            ServeFault::Thread(place) => write!(f, "worker {place} has no thread, or is gone"),
            ServeFault::Memory => f.write_str("out of memory"),
        }
    }
}

impl Error for ServeFault {}
