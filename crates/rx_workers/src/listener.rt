ghost use Rattle.std.specs.Prelude.{IfOk, OnErr};

use crate::crew::idle::Idle;
use crate::readiness::{Readiness, Waker, WatchFault};
use std::error::Error;
use std::fmt;
use std::io::{Read, Write};

/// No connection could be accepted.
#[derive(Clone, Copy, Debug, PartialEq, Eq)]
pub struct AcceptFault;

impl fmt::Display for AcceptFault {
    fn fmt<W: fmt::Write>(&self, f: &mut fmt::Formatter<W>) -> fmt::Result {
        f.write_str("no connection could be accepted")
    }
}

impl Error for AcceptFault {}

/// What a worker waits by, and the waker that ends its wait.
#[derive(Drop)]
pub struct Watch<C, P: Readiness<C> + Drop, B: Drop> {
    /// What the worker waits by, which watches nothing yet.
    pub readiness: Idle<C, P>,
    /// What ends its wait.
    pub waker: B,
}

/// Where connections come from. Its relations say what a call answers and what it leaves of it.
pub trait Listener {
    /// The half of a connection that is read.
    type Reader: Read + Drop + Send + 'static;
    /// The half of a connection that is written.
    type Writer: Write + Drop + Send + 'static;
    /// What a worker waits by for its connections.
    type Readiness: Readiness<Self::Reader> + Drop + Send + 'static;
    /// What tells a worker that a connection came.
    type Waker: Waker + Drop;

    ghost accepts: { Self → Self.Reader × Self.Writer → Self → Type 0 };

    ghost fails: { Self → Self → Type 0 };

    /// The next connection. It may wait for one as a read waits for input.
    fn accept_one(&mut self) -> Result<(Self::Reader, Self::Writer), AcceptFault>
        ensures accepted { IfOk result (λ connection. accepts self.old connection self.new) }
        ensures failed { OnErr result (fails self.old self.new) };

    /// What one more worker waits by.
    fn watch(&self) -> Result<Watch<Self::Reader, Self::Readiness, Self::Waker>, WatchFault>;
}
