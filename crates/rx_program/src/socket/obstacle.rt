use std::{fmt, io};

/// What is in the way of a server at a path.
#[derive(Drop)]
pub(crate) enum Obstacle {
    /// The path has no byte.
    Empty,
    /// It has more than 107 bytes.
    TooLong,
    /// Somebody listens there, or is about to: it holds the lock beside it.
    Served,
    /// A socket stands there, on which nobody listens.
    Abandoned,
    /// A file, a folder or a link stands there.
    Stands,
    /// Another socket of the same server is to stand there.
    Taken,
    /// The system refuses it.
    Refused(io::Error),
}

impl Obstacle {
    /// Whether it is a socket on which nobody listens.
    pub(crate) fn is_abandoned(&self) -> bool {
        matches!(self, Obstacle::Abandoned)
    }
}

impl fmt::Display for Obstacle {
    fn fmt<W: fmt::Write>(&self, f: &mut fmt::Formatter<W>) -> fmt::Result {
        f.write_str(match self {
            Obstacle::Empty => "the path of the socket is empty",
            Obstacle::TooLong => "the path of the socket has more than 107 bytes",
            Obstacle::Served => "another server listens there",
            Obstacle::Abandoned =>
                "a socket stands there on which nobody listens: takeover = true in [pool] has it removed",
            Obstacle::Stands => "something stands there that is no socket, and is not removed",
            Obstacle::Taken => "the socket of sessions is to stand there",
            Obstacle::Refused(fault) => return fault.fmt(f),
        })
    }
}
