// The acceptor: it deals the connections that it accepts to the workers.
ghost use Rattle.std.specs.Prelude.{◌<◌, ◌≡◌, vec_len};
ghost use Rattle.std.specs.List.{All};
ghost use Rattle.rx_workers.specs.Accepting.{AcceptsAll, AcceptsNext, HoldsNothing};

use crate::listener::{AcceptFault, Listener};
use crate::readiness::Waker;
use rx_heap::Heap;
use rx_mailbox::Port;
use std::error::Error;
use std::fmt;
use std::sync::Wait;

/// Why an acceptor stopped.
#[derive(Clone, Copy, Debug, PartialEq, Eq)]
pub enum AcceptStop {
    /// The listener failed.
    NoConnection,
    /// The worker at this place, from 0, is gone. The connection that was for it is given up.
    WorkerGone(usize),
}

impl fmt::Display for AcceptStop {
    fn fmt<W: fmt::Write>(&self, f: &mut fmt::Formatter<W>) -> fmt::Result {
        match self {
            AcceptStop::NoConnection => AcceptFault.fmt(f),
            AcceptStop::WorkerGone(place) => write!(f, "worker {place} is gone"),
        }
    }
}

impl Error for AcceptStop {}

/// Accepts so many connections, and sends each to its worker: connection i, from 0, to worker i modulo their number, whose waker
/// rings then. `Err` where the listener fails or a worker is gone; those accepted before went to their workers.
pub fn accept_all<L: Listener, R: Wait>(
    rt: &R,
    listener: &mut L,
    ports: &mut Vec<Port<(L::Reader, L::Writer)>, Heap>,
    wakers: &Vec<L::Waker, Heap>,
    connections: u32,
) -> Result<(), AcceptStop>
    requires some { 0 < vec_len ports.old }
    requires nothing { All HoldsNothing ports.old.items }
    ensures { AcceptsAll L.accepts L.fails connections result listener.old listener.new ports.old.items ports.new.items }
{
    for number in 0..connections {
        accept_next(rt, listener, ports, wakers, number)?;
    }
    Ok(())
}

// Accepts the connection of this number, and sends it to its worker.
fn accept_next<L: Listener, R: Wait>(
    rt: &R,
    listener: &mut L,
    ports: &mut Vec<Port<(L::Reader, L::Writer)>, Heap>,
    wakers: &Vec<L::Waker, Heap>,
    number: u32,
) -> Result<(), AcceptStop>
    requires some { 0 < vec_len ports.old }
    requires nothing { All HoldsNothing ports.old.items }
    ensures nothing { All HoldsNothing ports.new.items }
    ensures accepts { AcceptsNext L.accepts L.fails number result listener.old listener.new ports.old.items ports.new.items }
    ensures count { vec_len ports.new ≡ vec_len ports.old }
{
    let Ok(connection) = listener.accept_one() else {
        return Err(AcceptStop::NoConnection);
    };
    let place = number as usize % ports.len();
    let Ok(()) = ports[place].send(rt, connection) else {
        return Err(AcceptStop::WorkerGone(place));
    };
    wake_at(wakers, place);
    Ok(())
}

/// Wakes the worker at this place.
pub(crate) fn wake_at<B: Waker>(wakers: &Vec<B, Heap>, place: usize) {
    if let Some(waker) = wakers.get(place) {
        waker.wake();
    }
}
