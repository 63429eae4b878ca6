// Where there are no descriptors or no memory for a connection, it pauses, and has the socket looked at anew by the next wait: so the
// face goes on to serve those that it has, which give some back as they end.
ghost use Rattle.std.specs.Prelude.{◌≡◌, IfOk};
ghost use Rattle.rx_workers.specs.WatchLogs.{watched_by};
ghost use Rattle.rx_workers.specs.Watching.{WatchesNothing};

use crate::notices::cause::Cause;
use crate::notices::counted::SharedNotices;
use crate::socket::clocked::millis;
use crate::socket::face_closer::FaceCloser;
use crate::socket::incoming::Incoming;
use crate::socket::outgoing::Outgoing;
use crate::socket::polling::Polling;
use crate::socket::terms::Terms;
use crate::socket::{PAUSE, halves, is_passing, refusal_of, trouble_of};
use rx_events::SharedPulse;
use rx_heap::Heap;
use rx_server::{Aim, Doorway, Joined, Readiness, Ready, SharedStop, WatchFault};
use rx_stats::{Door, SharedCrowd};
use std::io::ErrorKind;
use std::net::Net;
use std::os::unix::net::UnixListener;
use std::sync::Arc;
use std::sync::atomic::{AtomicBool, Ordering};
use std::time::{Clock, Duration};
use std::{io, thread};

// After how many connections that can't be had it pauses.
const MOST_GIVEN_UP: u32 = 1_024;

/// The Unix socket of a face: its connections, by one readiness with what these bring. No call waits but `wait`, which comes back too
/// where a connection came, and once it is closed.
pub struct FaceSocket<F: Clock + Drop> {
    polling: Polling<F>,
    listener: UnixListener,
    host: F,
    heap: Heap,
    terms: Terms,
    closed: Arc<AtomicBool, Heap>,
    notices: SharedNotices,
    crowd: SharedCrowd,
    stop: SharedStop,
    // The last one that came could not be accepted.
    is_in_trouble: bool,
}

// By hand: rx_heap says why.
impl<F: Clock + Drop> Drop for FaceSocket<F> {
    fn drop(self) {
        let FaceSocket {
            polling: _,
            listener: _,
            host: _,
            heap: _,
            terms: _,
            closed: _,
            notices: _,
            crowd: _,
            stop: _,
            is_in_trouble: _,
        } = self;
    }
}

impl<F: AllocGlobal + Net + Clock + Clone + Drop> FaceSocket<F> {
    /// The connections that come to this listener, each on these terms, counted by this crowd. What it decides of them is counted among the
    /// notices. With each wait it tells the time to this pulse, and begins that of this stop where it was asked for.
    pub fn new(
        listener: UnixListener,
        host: F,
        heap: Heap,
        terms: Terms,
        notices: SharedNotices,
        pulse: SharedPulse,
        crowd: SharedCrowd,
        stop: SharedStop,
    ) -> io::Result<FaceSocket<F>>
        ensures { IfOk result (λ socket. WatchesNothing (watched_by socket.polling.log)) }
    {
        listener.set_nonblocking(true)?;
        let shared = Arc::try_clone(&notices)?;
        let mut polling = Polling::new(
            &host,
            host.alloc(),
            host.clone()?,
            &heap,
            terms.idle,
            shared,
        )?;
        polling.listen(&listener)?;
        polling.beat(pulse);
        let closed = Arc::new(heap.clone()?, AtomicBool::new(false))?;
        Ok(FaceSocket {
            polling,
            listener,
            host,
            heap,
            terms,
            closed,
            notices,
            crowd,
            stop,
            is_in_trouble: false,
        })
    }

    /// What closes it.
    pub fn closer(&self) -> io::Result<FaceCloser> {
        let waker = self.polling.waker()?;
        Ok(FaceCloser::new(Arc::try_clone(&self.closed)?, waker))
    }
}

impl<F: Clock + Clone + Drop> FaceSocket<F> {
    // The next connection that came by now, if one did. One that can't be had is given up alone; behind many of these it is
    // looked again.
    fn accept(&self) -> io::Result<Option<(Incoming<F>, Outgoing<F>)>> {
        for _ in 0..MOST_GIVEN_UP {
            match self.listener.accept() {
                Ok((stream, _)) => {
                    match halves(
                        stream,
                        &self.host,
                        &self.heap,
                        self.terms,
                        &self.notices,
                        &self.crowd,
                        Door::Http,
                        &self.stop,
                    ) {
                        Ok(halves) => return Ok(Some(halves)),
                        Err(fault) => self.notices.count(refusal_of(&fault)),
                    }
                }
                Err(fault) if is_passing(fault.kind()) => {}
                Err(fault) if fault.kind() == ErrorKind::WouldBlock => return Ok(None),
                Err(fault) => return Err(fault),
            }
        }
        Err(io::Error::from(ErrorKind::Interrupted))
    }

    // Counts that connections wait for this, once until one is accepted or none is there.
    fn count_trouble(&mut self, fault: &io::Error)
        ensures { self.new.polling ≡ self.old.polling }
    {
        if !self.is_in_trouble && !is_passing(fault.kind()) {
            self.is_in_trouble = true;
            self.notices
                .count(trouble_of(fault).unwrap_or(Cause::Broken));
        }
    }
}

impl<F: Clock + Drop> FaceSocket<F> {
    // Begins the time of a stop that was asked for.
    fn begin_stop(&self) {
        if let Ok(now) = self.host.monotonic() {
            self.stop.begin(millis(now));
        }
    }
}

impl<F: Clock + Drop> Readiness<Incoming<F>> for FaceSocket<F> {
    ghost use Rattle.rx_workers.specs.WatchLogs.{watched_by};

    ghost watched = { λ s. watched_by s.polling.log };

    fn begin(&mut self, connection: &Incoming<F>, key: usize) -> Result<(), WatchFault> {
        self.polling.begin(connection, key)
    }

    fn change(&mut self, connection: &Incoming<F>, key: usize, aim: Aim) {
        self.polling.change(connection, key, aim);
    }

    fn again(&mut self, key: usize) {
        Readiness::<Incoming<F>>::again(&mut self.polling, key);
    }

    fn name(&mut self, connection: &Incoming<F>, observer: Joined) {
        self.polling.name(connection, observer);
    }

    fn forget(&mut self, connection: &Incoming<F>, key: usize) {
        self.polling.forget(connection, key);
    }

    fn wait(&mut self) {
        self.begin_stop();
        Readiness::<Incoming<F>>::wait(&mut self.polling);
    }

    fn next(&mut self) -> Option<Ready> {
        Readiness::<Incoming<F>>::next(&mut self.polling)
    }
}

impl<F: Clock + Clone + Drop> Doorway<Incoming<F>, Outgoing<F>> for FaceSocket<F> {
    fn arrive(&mut self) -> Option<(Incoming<F>, Outgoing<F>)> {
        match self.accept() {
            Ok(came) => {
                self.is_in_trouble = false;
                came
            }
            Err(fault) => {
                self.count_trouble(&fault);
                thread::sleep(&self.host, Duration::from_millis(PAUSE));
                self.polling.listen_anew(&self.listener);
                None
            }
        }
    }

    fn is_closed(&self) -> bool {
        self.closed.load(Ordering::SeqCst)
    }
}
