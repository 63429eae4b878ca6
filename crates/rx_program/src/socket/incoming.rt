// A session that is idle fails in its reader, which knows when its last bytes came, so that no contract speaks of time; the
// poll tells connections on which nothing happened for as long, so that they have a turn.
use crate::notices::cause::Cause;
use crate::notices::counted::SharedNotices;
use crate::socket::link::Link;
use crate::socket::peer::SharedPeer;
use rx_server::{Joined, SharedStop};
use std::io;
use std::io::{ErrorKind, Read};
use std::os::fd::{AsRawFd, RawFd};
use std::time::{Clock, Duration};

/// The half of a connection that is read, by a session. A read waits for nobody: where there is no byte it is `WouldBlock`, and
/// `TimedOut` once none came for as long as the peer may be idle. Once the server is to stop it is `ConnectionAborted`, and nothing is
/// read any more.
pub struct Incoming<C: Clock + Drop> {
    link: Link,
    clock: C,
    idle: Option<Duration>,
    // When the last bytes came, by the clock; at first when the connection was made.
    last: Duration,
    peer: SharedPeer,
    notices: SharedNotices,
    // By which it hears that the server is to stop, where it ends by that.
    stop: Option<SharedStop>,
}

// By hand: rx_heap says why.
impl<C: Clock + Drop> Drop for Incoming<C> {
    fn drop(self) {
        let Incoming {
            link: _,
            clock: _,
            idle: _,
            last: _,
            peer: _,
            notices: _,
            stop: _,
        } = self;
    }
}

impl<C: Clock + Drop> Incoming<C> {
    /// The reading half of a connection, whose peer may send nothing for so long. Where it sent nothing for longer it is counted among
    /// the notices. It ends by this stop, if there is one.
    pub fn new(
        link: Link,
        clock: C,
        idle: Option<Duration>,
        peer: SharedPeer,
        notices: SharedNotices,
        stop: Option<SharedStop>,
    ) -> Incoming<C> {
        let last = clock.monotonic().unwrap_or(Duration::ZERO);
        Incoming {
            link,
            clock,
            idle,
            last,
            peer,
            notices,
            stop,
        }
    }

    /// Its peer is this observer from now on, as its other half knows too.
    pub(crate) fn name(&self, observer: Joined) {
        self.peer.name(observer);
    }

    /// By which the connection is watched.
    pub(crate) fn descriptor(&self) -> RawFd {
        self.link.as_raw_fd()
    }

    // Whether the server is to stop.
    fn is_stopped(&self) -> bool {
        match &self.stop {
            Some(stop) => stop.is_asked(),
            None => false,
        }
    }

    // The present moment, where how long the peer is idle counts.
    fn now(&self) -> Option<Duration> {
        self.idle?;
        self.clock.monotonic().ok()
    }

    // The fault of a read that found no byte.
    fn none_yet(&self, fault: io::Error) -> io::Error {
        let (Some(now), Some(idle)) = (self.now(), self.idle) else {
            return fault;
        };
        if now.saturating_sub(self.last) < idle {
            return fault;
        }
        self.notices.count(Cause::Silent);
        io::Error::from(ErrorKind::TimedOut)
    }
}

impl<C: Clock + Drop> Read for Incoming<C> {
    fn read(&mut self, buf: &mut [u8]) -> io::Result<usize> {
        if self.is_stopped() {
            return Err(io::Error::from(ErrorKind::ConnectionAborted));
        }
        let mut stream = &*self.link;
        match stream.read(buf) {
            Ok(count) => {
                if let Some(now) = self.now() {
                    self.last = now;
                }
                Ok(count)
            }
            Err(fault) if fault.kind() == ErrorKind::WouldBlock => Err(self.none_yet(fault)),
            Err(fault) => Err(fault),
        }
    }
}
