// Where there is no descriptor or no memory for a connection, the acceptor pauses and tries again. Only a broken listener ends serving, and
// a stop: its listener waits for nobody then, and it looks once a second at least whether one is asked for.
ghost use Rattle.std.specs.Prelude.{◌≡◌, ◌↔◌, ◌⊎◌, IsTrue};

pub(crate) mod clocked;
pub(crate) mod face_closer;
pub(crate) mod face_socket;
pub(crate) mod gathering;
pub(crate) mod incoming;
pub(crate) mod link;
pub(crate) mod obstacle;
pub(crate) mod outgoing;
pub(crate) mod path;
pub(crate) mod peer;
pub(crate) mod poll_waker;
pub(crate) mod polling;
pub(crate) mod system_events;
pub(crate) mod terms;
pub(crate) mod wire;

use crate::notices::cause::Cause;
use crate::notices::counted::SharedNotices;
use crate::socket::incoming::Incoming;
use crate::socket::outgoing::Outgoing;
use crate::socket::peer::Peer;
use crate::socket::poll_waker::PollWaker;
use crate::socket::polling::Polling;
use crate::socket::system_events::SystemEvents;
use crate::socket::terms::Terms;
use rx_heap::Heap;
use rx_server::{AcceptFault, Idle, Listener, SharedStop, Watch, WatchFault};
use rx_stats::{Door, Guest, SharedCrowd};
use std::io::ErrorKind;
use std::net::Net;
use std::os::unix::net::{UnixListener, UnixStream};
use std::sync::{Arc, Wait};
use std::time::{Clock, Duration};
use std::{io, thread};

/// How long it pauses where there is no descriptor or no memory for a connection, in milliseconds.
pub(crate) const PAUSE: u64 = 10;

/// The connections of a Unix socket. What is written to one waits for its peer in this memory. A connection that can't be had
/// is given up alone; where there are no descriptors or no memory for one, it waits for some. Both are counted among the notices. No more
/// come once the server is to stop.
pub struct Socket<F: Clock + Drop> {
    listener: UnixListener,
    host: F,
    heap: Heap,
    terms: Terms,
    notices: SharedNotices,
    crowd: SharedCrowd,
    stop: SharedStop,
    // What it waits by for the next connection; none where it waits for nothing else.
    lookout: Option<SystemEvents<F>>,
}

// By hand: rx_heap says why.
impl<F: Clock + Drop> Drop for Socket<F> {
    fn drop(self) {
        let Socket {
            listener: _,
            host: _,
            heap: _,
            terms: _,
            notices: _,
            crowd: _,
            stop: _,
            lookout: _,
        } = self;
    }
}

impl<F: Clock + Drop> Socket<F> {
    /// The connections that come to this listener, each on these terms, counted by this crowd. What is decided of them is counted among the
    /// notices. Where it may be stopped it waits by this lookout, over a listener that waits for nobody.
    pub(crate) fn new(
        listener: UnixListener,
        host: F,
        heap: Heap,
        terms: Terms,
        notices: SharedNotices,
        crowd: SharedCrowd,
        stop: SharedStop,
        lookout: Option<SystemEvents<F>>,
    ) -> Socket<F> {
        Socket {
            listener,
            host,
            heap,
            terms,
            notices,
            crowd,
            stop,
            lookout,
        }
    }

    // Waits until a connection came, or a second is over.
    fn wait(&mut self) {
        match &mut self.lookout {
            Some(lookout) => lookout.wait(),
            None => thread::sleep(&self.host, Duration::from_millis(PAUSE)),
        }
    }

    // Waits a while for what a connection lacks; the first time it is counted that it waits. `Err`: that does not pass.
    fn pause(&self, fault: &io::Error, is_first: bool) -> Result<(), AcceptFault> {
        let Some(cause) = trouble_of(fault) else {
            self.notices.count(Cause::Broken);
            return Err(AcceptFault);
        };
        if is_first {
            self.notices.count(cause);
        }
        thread::sleep(&self.host, Duration::from_millis(PAUSE));
        Ok(())
    }
}

impl<F: AllocGlobal + Net + Clock + Wait + Clone + Drop + Send + 'static> Listener for Socket<F> {
    type Reader = Incoming<F>;

    type Writer = Outgoing<F>;

    type Readiness = Polling<F>;

    type Waker = PollWaker;

    // What a socket did no contract tells.
    ghost accepts = { λ _ _ _. Unit {0} };

    ghost fails = { λ _ _. Unit {0} };

    fn accept_one(&mut self) -> Result<(Incoming<F>, Outgoing<F>), AcceptFault> {
        let Ok(host) = self.host.clone() else {
            return Err(AcceptFault);
        };
        let mut is_first = true;
        for _ in host.forever() {
            if self.stop.is_asked() {
                return Err(AcceptFault);
            }
            match self.listener.accept() {
                Ok((stream, _)) => {
                    match halves(
                        stream,
                        &self.host,
                        &self.heap,
                        self.terms,
                        &self.notices,
                        &self.crowd,
                        Door::Sessions,
                        &self.stop,
                    ) {
                        Ok(halves) => return Ok(halves),
                        Err(fault) => self.notices.count(refusal_of(&fault)),
                    }
                }
                Err(fault) if is_passing(fault.kind()) => {}
                Err(fault) if fault.kind() == ErrorKind::WouldBlock => self.wait(),
                Err(fault) => {
                    self.pause(&fault, is_first)?;
                    is_first = false;
                }
            }
        }
        Err(AcceptFault)
    }

    fn watch(&self) -> Result<Watch<Incoming<F>, Polling<F>, PollWaker>, WatchFault> {
        match polled(
            &self.host,
            &self.heap,
            self.terms,
            &self.notices,
            &self.stop,
        ) {
            Ok(watch) => Ok(watch),
            Err(_) => Err(WatchFault),
        }
    }
}

// What one more worker waits by.
fn polled<F: AllocGlobal + Net + Clock + Clone + Drop>(
    host: &F,
    heap: &Heap,
    terms: Terms,
    notices: &SharedNotices,
    stop: &SharedStop,
) -> io::Result<Watch<Incoming<F>, Polling<F>, PollWaker>> {
    let notices = Arc::try_clone(notices)?;
    let mut readiness = Polling::new(host, host.alloc(), host.clone()?, heap, terms.idle, notices)?;
    if terms.may_stop {
        readiness.stop_by(Arc::try_clone(stop)?);
    }
    let waker = readiness.waker()?;
    Ok(Watch {
        readiness: Idle::new(readiness),
        waker,
    })
}

/// What an acceptor waits by that looks for this stop, over a listener that waits for nobody from now on.
pub(crate) fn lookout_over<F: AllocGlobal + Net + Clock + Clone + Drop>(
    host: &F,
    heap: &Heap,
    listener: &UnixListener,
    notices: &SharedNotices,
    stop: &SharedStop,
) -> io::Result<SystemEvents<F>> {
    listener.set_nonblocking(true)?;
    let notices = Arc::try_clone(notices)?;
    let mut lookout = SystemEvents::new(host, host.alloc(), host.clone()?, heap, None, notices)?;
    lookout.listen(listener)?;
    lookout.stop_by(Arc::try_clone(stop)?);
    Ok(lookout)
}

/// The half of a connection that is read, which ends by a stop where it is a session's, and the half that is written. Neither waits. As
/// long as there is one of them the connection is counted as open.
pub(crate) fn halves<C: Clock + Clone + Drop>(
    stream: UnixStream,
    clock: &C,
    heap: &Heap,
    terms: Terms,
    notices: &SharedNotices,
    crowd: &SharedCrowd,
    door: Door,
    stop: &SharedStop,
) -> io::Result<(Incoming<C>, Outgoing<C>)> {
    let Ok(guest) = Guest::enter(crowd, door) else {
        return Err(io::Error::from(ErrorKind::OutOfMemory));
    };
    stream.set_nonblocking(true)?;
    let counted = Arc::try_clone(notices)?;
    let notices = Arc::try_clone(notices)?;
    let reading = clock.clone()?;
    let writing = clock.clone()?;
    let link = Arc::new(heap.clone()?, stream)?;
    let other = Arc::try_clone(&link)?;
    let stop = Arc::try_clone(stop)?;
    let ends = match door {
        Door::Sessions => Some(Arc::try_clone(&stop)?),
        Door::Http => None,
    };
    let Ok(peer) = Peer::shared(heap.clone()?, guest) else {
        return Err(io::Error::from(ErrorKind::OutOfMemory));
    };
    let same = Arc::try_clone(&peer)?;
    let Ok(outgoing) = Outgoing::new(other, writing, heap, terms.stall, same, counted, stop) else {
        return Err(io::Error::from(ErrorKind::OutOfMemory));
    };
    let incoming = Incoming::new(link, reading, terms.idle, peer, notices, ends);
    Ok((incoming, outgoing))
}

/// Whether the next accept may do better: the call was interrupted, or the connection is gone.
pub(crate) fn is_passing(kind: ErrorKind) -> bool
    ensures { IsTrue result ↔ ((kind ≡ ErrorKind.Interrupted) ⊎ (kind ≡ ErrorKind.ConnectionAborted)) }
{
    matches!(kind, ErrorKind::Interrupted | ErrorKind::ConnectionAborted)
}

/// For what a connection waits that can't be accepted now: descriptors (23, 24) or memory (12, 105), as Linux numbers its errors. None:
/// that does not pass.
pub(crate) fn trouble_of(fault: &io::Error) -> Option<Cause> {
    match fault.raw_os_error() {
        Some(23 | 24) => Some(Cause::NoDescriptor),
        Some(12 | 105) => Some(Cause::NoMemory),
        _ => None,
    }
}

/// Why a connection that was accepted is given up.
pub(crate) fn refusal_of(fault: &io::Error) -> Cause {
    if fault.kind() == ErrorKind::OutOfMemory {
        Cause::Unserved
    } else {
        Cause::Unwatched
    }
}
