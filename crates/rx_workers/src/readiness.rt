// A readiness says what it watches, and not who is ready. A turn of a session is right whenever it is made, and one that is
// never made leaves it as it is, so the worker's contract holds whatever a poll tells (`rx_workers::Readiness`). That one
// which is ready has its turn is tested. What is watched for what is known by key: between any two calls of a worker the
// connection at each place is watched for what is waited for there, and nothing where nobody is (`specs/Watching.antt`). A
// worker begins by an `Idle` readiness, whose invariant is that it watches nothing, so no list of them needs a clause. What
// was asked of the system is a history that only contracts see and that takes no memory (`rx_workers::WatchLog`, over `Log`
// of `http_server`).
use rx_desk::Joined;
use std::error::Error;
use std::fmt;

/// A connection can't be watched.
#[derive(Clone, Copy, Debug, PartialEq, Eq)]
pub struct WatchFault;

impl fmt::Display for WatchFault {
    fn fmt<W: fmt::Write>(&self, f: &mut fmt::Formatter<W>) -> fmt::Result {
        f.write_str("the connection cannot be watched")
    }
}

impl Error for WatchFault {}

/// What a connection is watched for. Whatever that is, it is told where the peer hung up.
#[derive(Clone, Copy, Debug, PartialEq, Eq)]
pub enum Aim {
    /// That bytes came.
    Bytes,
    /// That bytes came, or that it takes some.
    Both,
    /// That the peer hung up, and nothing else.
    HangUp,
}

/// A connection that is ready.
#[derive(Clone, Copy, Debug, PartialEq, Eq)]
pub struct Ready {
    /// The key by which it is watched.
    pub key: usize,
    /// Whether its peer hung up, so that nobody reads what is written to it.
    pub is_gone: bool,
}

/// Waits for many connections at once. No clause says what it tells: a turn of a session is right whenever it is made, and one
/// that is never made leaves the session as it is. So it may tell too much, and what it tells too little only waits longer. Its
/// clauses say what is watched, by which key and for what: what it was asked to watch, whatever the system makes of that.
pub trait Readiness<C> {
    ghost use Rattle.std.specs.Prelude.{ℕ, Option, None, Some, OnErr, OnOk};
    ghost use Rattle.rx_workers.specs.Watching.{Watches, WatchesSame};
    ghost use Rattle.rx_workers.specs.declared.readiness.Aim.{Aim};

    // For what each key is watched, if it is.
    ghost watched: { Self → ℕ → Option Aim };

    /// Watches a connection for bytes, by this key. From then on each change of what it is watched for is told once; so is
    /// what it is ready for already.
    fn begin(&mut self, connection: &C, key: usize) -> Result<(), WatchFault>
        ensures begun { OnOk result (Watches key (Some Aim.Bytes) (watched self.old) (watched self.new)) }
        ensures failed { OnErr result (WatchesSame (watched self.old) (watched self.new)) };

    /// Watches it for something else, or anew for the same. What it is ready for by then is told.
    fn change(&mut self, connection: &C, key: usize, aim: Aim)
        ensures { Watches key (Some aim) (watched self.old) (watched self.new) };

    /// Has the connection of this key told by the next wait, though nothing happens on it: its session goes on at once. Others
    /// that are ready are told in between.
    fn again(&mut self, key: usize)
        ensures { WatchesSame (watched self.old) (watched self.new) };

    /// Tells it which observer the peer of a connection is from now on.
    fn name(&mut self, connection: &C, observer: Joined)
        ensures { WatchesSame (watched self.old) (watched self.new) };

    /// Watches it no more.
    fn forget(&mut self, connection: &C, key: usize)
        ensures { Watches key None (watched self.old) (watched self.new) };

    /// Waits until a connection is ready, or until the waker wakes it; not where one is to be told again. It may come back without
    /// either.
    fn wait(&mut self)
        ensures { WatchesSame (watched self.old) (watched self.new) };

    /// The next connection that was ready when `wait` came back, each once.
    fn next(&mut self) -> Option<Ready>
        ensures { WatchesSame (watched self.old) (watched self.new) };
}

/// Ends the wait of a worker. It is let go once the worker has ended.
pub trait Waker {
    /// Ends the wait that is under way, or else the next one.
    fn wake(&self);
}
