use crate::notices::cause::Cause;
use crate::notices::counted::SharedNotices;
use crate::socket::clocked::millis;
use crate::socket::incoming::Incoming;
use crate::socket::poll_waker::PollWaker;
use mio::unix::SourceFd;
use mio::{Events, Interest, Poll, Token, Waker};
use rx_events::SharedPulse;
use rx_heap::Heap;
use rx_server::{Aim, Ready, SharedStop, WatchFault};
use std::alloc::Global;
use std::collections::VecDeque;
use std::io;
use std::net::Net;
use std::os::fd::AsRawFd;
use std::os::unix::net::UnixListener;
use std::time::{Clock, Duration};

// How many events of the system are told at a time at most, how many connections on which nothing happened for long, and how
// many of those that are to be told again.
const MOST_READY: usize = 256;

// By which the waker is told, as no connection is.
const WAKER: Token = Token(usize::MAX);

// By which a listener is.
const LISTENER: Token = Token(usize::MAX - 1);

// How often it looks for sessions that sent nothing for long, and tells the time, in seconds.
const LOOK: u64 = 1;

// How often it tells the time while some sinks keep a pace, in milliseconds.
const STEP: u64 = 5;

// How long it waits at most while the server is to stop, in milliseconds.
const STOPPING: u64 = 20;

/// Waits for connections by the system's events. Where a peer may be idle only for so long, a connection is told too once nothing
/// happened on it for as long, so that its session has a turn and finds that out. One that is to be told again is told behind the
/// others that are ready by then. With each wait it tells the time to a pulse, if it has one. Where it has a stop, its waits end once a
/// second at least, and once that is asked for each connection is told, again and again.
pub(crate) struct SystemEvents<C: Clock + Drop> {
    poll: Poll,
    // It takes memory of the runtime, as `mio` has no other.
    events: Events<Global>,
    ready: Vec<Ready, Heap>,
    clock: C,
    idle: Option<Duration>,
    // By key.
    watched: Vec<Watched, Heap>,
    // The keys of those that are to be told again, each once, and with room for all.
    again: VecDeque<usize, Heap>,
    looked: Duration,
    notices: SharedNotices,
    pulse: Option<SharedPulse>,
    stop: Option<SharedStop>,
    // Since when it knows that the server is to stop.
    stopping: Option<Duration>,
}

// A connection that is watched.
#[derive(Clone, Copy)]
struct Watched {
    // When it was told last.
    told: Duration,
    // It is to be told again.
    is_again: bool,
}

// By hand: rx_heap says why.
impl<C: Clock + Drop> Drop for SystemEvents<C> {
    fn drop(self) {
        let SystemEvents {
            poll: _,
            events: _,
            ready: _,
            clock: _,
            idle: _,
            watched: _,
            again: _,
            looked: _,
            notices: _,
            pulse: _,
            stop: _,
            stopping: _,
        } = self;
    }
}

impl<C: Clock + Drop> SystemEvents<C> {
    /// It watches nothing, and tells connections on which nothing happened for so long, by this clock. One that can't be watched is
    /// counted among the notices.
    pub(crate) fn new(
        net: &impl Net,
        runtime: Global,
        clock: C,
        heap: &Heap,
        idle: Option<Duration>,
        notices: SharedNotices,
    ) -> io::Result<SystemEvents<C>> {
        let poll = Poll::new(net)?;
        let events = Events::with_capacity(runtime, MOST_READY)?;
        let mut ready = Vec::new(heap.clone()?);
        ready.reserve(3 * MOST_READY)?;
        Ok(SystemEvents {
            poll,
            events,
            ready,
            clock,
            idle,
            watched: Vec::new(heap.clone()?),
            again: VecDeque::new(heap.clone()?),
            looked: Duration::ZERO,
            notices,
            pulse: None,
            stop: None,
            stopping: None,
        })
    }

    /// A waker that ends its waits.
    pub(crate) fn waker(&self) -> io::Result<PollWaker> {
        Ok(PollWaker::new(Waker::new(self.poll.registry(), WAKER)?))
    }

    /// Has it tell the time to this pulse: its waits then end once a second at least, and more often while somebody keeps a pace.
    pub(crate) fn beat(&mut self, pulse: SharedPulse) {
        self.pulse = Some(pulse);
    }

    /// Has its waits end once a second at least, and tell each connection once this stop is asked for.
    pub(crate) fn stop_by(&mut self, stop: SharedStop) {
        self.stop = Some(stop);
    }

    /// Has its waits end too where a connection came to this listener.
    pub(crate) fn listen(&mut self, listener: &UnixListener) -> io::Result<()> {
        let descriptor = listener.as_raw_fd();
        let mut source = SourceFd(&descriptor);
        self.poll
            .registry()
            .register(&mut source, LISTENER, Interest::READABLE)
    }

    /// Has the next wait end where one that came is still there.
    pub(crate) fn listen_anew(&mut self, listener: &UnixListener) {
        let descriptor = listener.as_raw_fd();
        let mut source = SourceFd(&descriptor);
        let _ = self
            .poll
            .registry()
            .reregister(&mut source, LISTENER, Interest::READABLE);
    }

    /// Watches a connection for bytes.
    pub(crate) fn begin(&mut self, connection: &Incoming<C>, key: usize) -> Result<(), WatchFault> {
        let Ok(()) = self.make_room(key) else {
            self.notices.count(Cause::Unserved);
            return Err(WatchFault);
        };
        let descriptor = connection.descriptor();
        let mut source = SourceFd(&descriptor);
        match self
            .poll
            .registry()
            .register(&mut source, Token(key), Interest::READABLE)
        {
            Ok(()) => Ok(()),
            Err(_) => {
                self.notices.count(Cause::Unwatched);
                Err(WatchFault)
            }
        }
    }

    /// Watches it for something else. The system refuses no change of what it watches already.
    pub(crate) fn change(&mut self, connection: &Incoming<C>, key: usize, aim: Aim) {
        let interest = match aim {
            Aim::Bytes => Interest::READABLE,
            Aim::Both => Interest::READABLE | Interest::WRITABLE,
            Aim::HangUp => Interest::PRIORITY,
        };
        let descriptor = connection.descriptor();
        let mut source = SourceFd(&descriptor);
        let _ = self
            .poll
            .registry()
            .reregister(&mut source, Token(key), interest);
    }

    /// Has it told again.
    pub(crate) fn again(&mut self, key: usize) {
        let Some(watched) = self.watched.get_mut(key) else {
            return;
        };
        if watched.is_again {
            return;
        }
        watched.is_again = true;
        let _ = self.again.push_back(key);
    }

    /// Watches it no more.
    pub(crate) fn forget(&mut self, connection: &Incoming<C>) {
        let descriptor = connection.descriptor();
        let mut source = SourceFd(&descriptor);
        let _ = self.poll.registry().deregister(&mut source);
    }

    /// Waits until one is ready, or until the waker ends the wait.
    pub(crate) fn wait(&mut self) {
        let most = if self.again.is_empty() {
            self.most_wait()
        } else {
            Some(Duration::ZERO)
        };
        self.ready.clear();
        let _ = self.poll.poll(&mut self.events, most);
        let now = self.tell_time();
        self.put_again(now);
        self.put_events(now);
        if let Some(idle) = self.idle {
            self.put_idle(now, idle);
        }
        self.put_stopping(now);
    }

    /// The next one that is.
    pub(crate) fn next(&mut self) -> Option<Ready> {
        self.ready.pop()
    }

    // How long a wait is at most.
    fn most_wait(&self) -> Option<Duration> {
        if let Some(stop) = &self.stop {
            return Some(if stop.is_asked() {
                Duration::from_millis(STOPPING)
            } else {
                Duration::from_secs(LOOK)
            });
        }
        match &self.pulse {
            Some(pulse) if pulse.is_paced() => Some(Duration::from_millis(STEP)),
            Some(_) => Some(Duration::from_secs(LOOK)),
            None => self.idle.map(|_| Duration::from_secs(LOOK)),
        }
    }

    // The time behind a wait, which is told to the pulse; it isn't asked for where nobody counts by it.
    fn tell_time(&self) -> Duration {
        if self.pulse.is_none() && self.idle.is_none() && self.stop.is_none() {
            return Duration::ZERO;
        }
        let now = self.now();
        if let Some(pulse) = &self.pulse {
            pulse.tell(millis(now));
        }
        now
    }

    fn now(&self) -> Duration {
        self.clock.monotonic().unwrap_or(Duration::ZERO)
    }

    // Puts those that are to be told again. What is put last is told first, so the others come before them.
    fn put_again(&mut self, now: Duration) {
        for _ in 0..MOST_READY {
            let Some(key) = self.again.pop_front() else {
                return;
            };
            if let Some(watched) = self.watched.get_mut(key) {
                watched.is_again = false;
                put(&mut self.ready, watched, key, false, now);
            }
        }
    }

    // Puts what the system told, all but the waker and the listener.
    fn put_events(&mut self, now: Duration) {
        for event in self.events.iter() {
            let key = event.token().0;
            if let Some(watched) = self.watched.get_mut(key) {
                put(&mut self.ready, watched, key, event.is_write_closed(), now);
            }
        }
    }

    // Puts the connections on which nothing happened for as long as a peer may be idle, up to so many.
    fn put_idle(&mut self, now: Duration, idle: Duration) {
        if now.saturating_sub(self.looked) < Duration::from_secs(LOOK) {
            return;
        }
        self.looked = now;
        let most = self.ready.len().saturating_add(MOST_READY);
        for (key, watched) in self.watched.iter_mut().enumerate() {
            if self.ready.len() < most && now.saturating_sub(watched.told) >= idle {
                put(&mut self.ready, watched, key, false, now);
            }
        }
    }

    // Puts the connections that were not told since the server is to stop, nor for long, up to so many.
    fn put_stopping(&mut self, now: Duration) {
        let Some(since) = self.stopping_since(now) else {
            return;
        };
        let most = self.ready.len().saturating_add(MOST_READY);
        for (key, watched) in self.watched.iter_mut().enumerate() {
            let is_due = watched.told < since
                || now.saturating_sub(watched.told) >= Duration::from_secs(LOOK);
            if is_due && self.ready.len() < most {
                put(&mut self.ready, watched, key, false, now);
            }
        }
    }

    // Since when the server is to stop, as far as is known here.
    fn stopping_since(&mut self, now: Duration) -> Option<Duration> {
        let stop = self.stop.as_ref()?;
        if self.stopping.is_none() && stop.is_asked() {
            self.stopping = Some(now);
        }
        self.stopping
    }

    // Has room for what is told of this key.
    fn make_room(&mut self, key: usize) -> Result<(), WatchFault> {
        let told = self.now();
        let is_again = false;
        for _ in self.watched.len()..=key {
            let Ok(()) = self.watched.push(Watched { told, is_again }) else {
                return Err(WatchFault);
            };
        }
        if let Some(watched) = self.watched.get_mut(key) {
            watched.told = told;
        }
        let more = self.watched.len().saturating_sub(self.again.len());
        match self.again.try_reserve(more) {
            Ok(()) => Ok(()),
            Err(_) => Err(WatchFault),
        }
    }
}

// Puts a connection that is told now.
fn put(
    ready: &mut Vec<Ready, Heap>,
    watched: &mut Watched,
    key: usize,
    is_gone: bool,
    now: Duration,
) {
    watched.told = now;
    let _ = ready.push(Ready { key, is_gone });
}
