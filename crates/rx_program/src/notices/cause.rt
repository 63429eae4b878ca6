ghost use Rattle.std.specs.Prelude.{◌≡◌, ◌<◌, ◌≤◌, length};
ghost use Rattle.rx_program.specs.Notices.{cause_words};

/// What a server decides of its peers while it runs, and tells.
#[derive(Clone, Copy, Debug, PartialEq, Eq)]
pub enum Cause {
    /// A peer took nothing for too long while some bytes waited for it: it is given up, with its observer where it has one.
    Stalled,
    /// More bytes wait for an observer at its subject than may: it is given up.
    Outgrown,
    /// A peer sent nothing for too long: its connection ends.
    Silent,
    /// There is no memory for what waits for a peer: it is given up.
    Unheld,
    /// There is no descriptor for a connection: those that come wait.
    NoDescriptor,
    /// The system has no memory for a connection: those that come wait.
    NoMemory,
    /// There is no memory to serve a connection: it is refused.
    Unserved,
    /// The system does not watch a connection: it is refused.
    Unwatched,
    /// The socket to which connections come fails.
    Broken,
}

/// How many causes there are.
pub const CAUSES: usize = 9;

/// All of them, in the order in which they are told.
pub const EACH: [Cause; CAUSES] = [
    Cause::Stalled,
    Cause::Outgrown,
    Cause::Silent,
    Cause::Unheld,
    Cause::NoDescriptor,
    Cause::NoMemory,
    Cause::Unserved,
    Cause::Unwatched,
    Cause::Broken,
];

impl Cause {
    /// Its place among them.
    pub(crate) fn place(self) -> usize
        ensures { result < 9 }
    {
        match self {
            Cause::Stalled => 0,
            Cause::Outgrown => 1,
            Cause::Silent => 2,
            Cause::Unheld => 3,
            Cause::NoDescriptor => 4,
            Cause::NoMemory => 5,
            Cause::Unserved => 6,
            Cause::Unwatched => 7,
            Cause::Broken => 8,
        }
    }

    /// What is told of it.
    pub(crate) fn words(self) -> &'static str
        ensures words { result.now ≡ cause_words self }
        ensures short { length result.now ≤ 60 }
    {
        match self {
            Cause::Stalled => "a peer is given up: it took nothing",
            Cause::Outgrown => "an observer is given up: too much waits for it",
            Cause::Silent => "a connection ends: it sent nothing",
            Cause::Unheld => "a peer is given up: no memory for what waits for it",
            Cause::NoDescriptor => "connections wait: no descriptor",
            Cause::NoMemory => "connections wait: no memory",
            Cause::Unserved => "a connection is refused: no memory",
            Cause::Unwatched => "a connection is refused: it cannot be watched",
            Cause::Broken => "connections are not accepted: the socket fails",
        }
    }
}
