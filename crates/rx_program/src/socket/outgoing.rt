use crate::notices::counted::SharedNotices;
use crate::socket::gathering::Gathering;
use crate::socket::link::Link;
use crate::socket::peer::SharedPeer;
use crate::socket::wire::Wire;
use rx_heap::{Heap, Memory};
use rx_server::SharedStop;
use std::io;
use std::io::Write;
use std::time::{Clock, Duration};

/// The half of a connection that is written. What is written waits until it is flushed, so that many lines go out by one
/// write; a flush sends as much of it as the socket takes. Where that is not all it is `WouldBlock`, and the rest waits: a
/// further flush goes on with it. Once the peer took no byte for too long a flush is `TimedOut`.
///
/// What it holds stands in a box, so that a sink over it is small: it goes from thread to thread in a letter, and each letter of
/// its kind has room for one.
pub struct Outgoing<C: Clock + Drop> {
    held: Box<Gathering<Wire, C>, Heap>,
}

// By hand: rx_heap says why.
impl<C: Clock + Drop> Drop for Outgoing<C> {
    fn drop(self) {
        let Outgoing { held: _ } = self;
    }
}

impl<C: Clock + Drop> Outgoing<C> {
    /// The writing half of a connection. It and what waits take this memory. A flush has failed once the peer took no byte for
    /// so long while some waited for it, or once the server gives up the observer that it is, which are both counted among the notices; or
    /// once the time of this stop is over.
    pub fn new(
        link: Link,
        clock: C,
        alloc: &Heap,
        stall: Duration,
        peer: SharedPeer,
        notices: SharedNotices,
        stop: SharedStop,
    ) -> Result<Outgoing<C>, Memory> {
        let wire = Wire::of(link);
        let gathering = Gathering::new(wire, clock, alloc.clone()?, stall, peer, notices, stop);
        match Box::new(alloc.clone()?, gathering) {
            Ok(held) => Ok(Outgoing { held }),
            Err(_) => Err(Memory),
        }
    }
}

impl<C: Clock + Drop> Write for Outgoing<C> {
    fn write(&mut self, bytes: &[u8]) -> io::Result<usize> {
        (*self.held).write(bytes)
    }

    fn flush(&mut self) -> io::Result<()> {
        (*self.held).flush()
    }
}
