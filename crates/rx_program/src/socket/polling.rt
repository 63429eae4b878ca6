// Events are told once, at a change. A connection is watched for bytes alone, and for room too only while an answer waits. A
// session that has had its turns for now and would go on has lines in hand, of which the system knows nothing, and its socket
// may have no room: it stands in a list (`Readiness::again`), once, by which the next wait is none, and is told behind the
// others that are ready by then.
ghost use Rattle.std.specs.Prelude.{◌≡◌, IfOk};
ghost use Rattle.rx_workers.specs.WatchLogs.{watched_by};
ghost use Rattle.rx_workers.specs.Watching.{WatchesNothing};

use crate::notices::counted::SharedNotices;
use crate::socket::incoming::Incoming;
use crate::socket::poll_waker::PollWaker;
use crate::socket::system_events::SystemEvents;
use rx_events::SharedPulse;
use rx_heap::Heap;
use rx_server::{Aim, Joined, Readiness, Ready, SharedStop, WatchFault};
use rx_workers::WatchLog;
use std::alloc::Global;
use std::io;
use std::net::Net;
use std::os::unix::net::UnixListener;
use std::time::{Clock, Duration};

/// The readiness of the connections of a Unix socket, by the system's events, and for contracts what it was asked to watch.
pub struct Polling<C: Clock + Drop> {
    events: SystemEvents<C>,
    log: WatchLog,
}

// By hand: rx_heap says why.
impl<C: Clock + Drop> Drop for Polling<C> {
    fn drop(self) {
        let Polling { events: _, log: _ } = self;
    }
}

impl<C: Clock + Drop> Polling<C> {
    /// It watches nothing, and tells connections on which nothing happened for so long, by this clock. One that can't be watched is
    /// counted among the notices.
    pub fn new(
        net: &impl Net,
        runtime: Global,
        clock: C,
        heap: &Heap,
        idle: Option<Duration>,
        notices: SharedNotices,
    ) -> io::Result<Polling<C>>
        ensures { IfOk result (λ polling. WatchesNothing (watched_by polling.log)) }
    {
        Ok(Polling {
            events: SystemEvents::new(net, runtime, clock, heap, idle, notices)?,
            log: WatchLog::new(),
        })
    }

    /// A waker that ends its waits.
    pub fn waker(&self) -> io::Result<PollWaker> {
        self.events.waker()
    }

    /// Has it tell the time to this pulse, with each wait.
    pub(crate) fn beat(&mut self, pulse: SharedPulse)
        ensures { self.new.log ≡ self.old.log }
    {
        self.events.beat(pulse);
    }

    /// Has it tell each connection once this stop is asked for, so that its session has a turn and finds that out.
    pub(crate) fn stop_by(&mut self, stop: SharedStop)
        ensures { self.new.log ≡ self.old.log }
    {
        self.events.stop_by(stop);
    }

    /// Has its waits end too where a connection came to this listener. It tells nothing of it.
    pub(crate) fn listen(&mut self, listener: &UnixListener) -> io::Result<()>
        ensures { self.new.log ≡ self.old.log }
    {
        self.events.listen(listener)
    }

    /// Has the next wait end where a connection that came to this listener is still there.
    pub(crate) fn listen_anew(&mut self, listener: &UnixListener)
        ensures { self.new.log ≡ self.old.log }
    {
        self.events.listen_anew(listener);
    }
}

impl<C: Clock + Drop> Readiness<Incoming<C>> for Polling<C> {
    ghost use Rattle.rx_workers.specs.WatchLogs.{watched_by};

    ghost watched = { λ p. watched_by p.log };

    fn begin(&mut self, connection: &Incoming<C>, key: usize) -> Result<(), WatchFault> {
        self.events.begin(connection, key)?;
        self.log = self.log.and(key, Some(Aim::Bytes));
        Ok(())
    }

    fn change(&mut self, connection: &Incoming<C>, key: usize, aim: Aim) {
        self.events.change(connection, key, aim);
        self.log = self.log.and(key, Some(aim));
    }

    fn again(&mut self, key: usize) {
        self.events.again(key);
    }

    fn name(&mut self, connection: &Incoming<C>, observer: Joined) {
        connection.name(observer);
    }

    fn forget(&mut self, connection: &Incoming<C>, key: usize) {
        self.events.forget(connection);
        self.log = self.log.and(key, None);
    }

    fn wait(&mut self) {
        self.events.wait();
    }

    fn next(&mut self) -> Option<Ready> {
        self.events.next()
    }
}
