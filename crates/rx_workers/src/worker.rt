ghost use Rattle.std.specs.Prelude.{◌≡◌, ◌+◌, None, length, vec_len};
ghost use Rattle.std.specs.Arc.{arc_value};
ghost use Rattle.rx_desk.specs.SessionDesks.{no_queue};

pub(crate) mod admission;
pub(crate) mod client;
pub(crate) mod clients;
pub(crate) mod parting;
pub(crate) mod rounds;
pub(crate) mod running_worker;
pub(crate) mod shift;
pub(crate) mod task;
pub(crate) mod worker_end;

use crate::crew::idle::Idle;
use crate::readiness::Readiness;
use crate::shared_moments::SharedMoments;
use crate::worker::rounds::serve_all;
use crate::worker::shift::Shift;
use crate::worker::task::Task;
use crate::worker::worker_end::WorkerEnd;
use rx_config::Config;
use rx_desk::{ClientSink, Moments, SessionDesk};
use rx_heap::Heap;
use rx_mailbox::Inbox;
use rx_pump::CallDesk;
use std::io::{Read, Write};
use std::marker::Model;
use std::sync::{Arc, Mutex, Wait};

/// Serves the connections that come to its inbox, each by a session that has its turns among those of the others, by a desk of
/// its own. The configuration and the moments are shared with other workers.
pub struct Worker<M: Drop, C: Drop, W: Write + Drop, P: Readiness<C> + Drop> {
    heap: Heap,
    // The memory for the list of its clients.
    own: Heap,
    config: Arc<Config, Heap>,
    moments: Arc<Mutex<M>, Heap>,
    desk: CallDesk<ClientSink<W>>,
    inbox: Inbox<(C, W)>,
    readiness: Idle<C, P>,
}

// By hand: rx_heap says why.
impl<M: Drop, C: Drop, W: Write + Drop, P: Readiness<C> + Drop> Drop for Worker<M, C, W, P> {
    fn drop(self) {
        let Worker {
            heap: _,
            own: _,
            config: _,
            moments: _,
            desk: _,
            inbox: _,
            readiness: _,
        } = self;
    }
}

impl<M: Drop, C: Drop, W: Write + Drop, P: Readiness<C> + Drop> Model for Worker<M, C, W, P> {
    ghost use Rattle.std.specs.Prelude.{◌≡◌, ◌+◌, None, length, vec_len};
    ghost use Rattle.std.specs.Arc.{arc_value};
    ghost use Rattle.rx_desk.specs.SessionDesks.{no_queue};
    ghost use Rattle.rx_workers.specs.Working.{WorkerView, worker};

    ghost Value = { WorkerView (Unit {0}) C W };

    ghost view = { λ w. worker (record { subjects = (arc_value w.config).subjects.items; window = (arc_value w.config).window; moments = tt; calls = w.desk; joined = None; queue = no_queue }) w.inbox };

    ghost invariant = { λ w. length w.desk.ports + length w.desk.ended ≡ vec_len (arc_value w.config).subjects };
}

impl<M: Moments + Drop, C: Read + Drop, W: Write + Drop, P: Readiness<C> + Drop> Worker<
    M,
    C,
    W,
    P,
> {
    ghost use Rattle.rx_workers.specs.Working.{worker};
    ghost use Rattle.rx_workers.specs.Workers.{HasEnded, peers};

    /// A worker over a desk that has a port for each subject, in the order of the configuration. It waits for its inbox and its
    /// connections by `readiness`, and the list of its clients takes the memory `own`.
    pub fn new(
        heap: Heap,
        own: Heap,
        config: Arc<Config, Heap>,
        moments: Arc<Mutex<M>, Heap>,
        desk: CallDesk<ClientSink<W>>,
        inbox: Inbox<(C, W)>,
        readiness: Idle<C, P>,
    ) -> Worker<M, C, W, P>
        requires { length desk.ports + length desk.ended ≡ vec_len (arc_value config).subjects }
        ensures { result ≡ worker (record { subjects = (arc_value config).subjects.items; window = (arc_value config).window; moments = tt; calls = desk; joined = None; queue = no_queue }) inbox }
    {
        Worker {
            heap,
            own,
            config,
            moments,
            desk,
            inbox,
            readiness,
        }
    }

    /// Serves each connection that comes, until the Bye or until none comes any more, and then until each session has ended.
    pub fn serve<R: Wait>(self, rt: &R) -> WorkerEnd<C, W>
        ensures { HasEnded (peers M.tells C.remaining W.contents) self result }
    {
        let Worker {
            heap,
            own,
            config,
            moments,
            desk,
            inbox,
            readiness,
        } = self;
        let mut readiness = readiness.into_readiness();
        let shared = SharedMoments::new(rt, &moments);
        let session = SessionDesk::new(rt, &heap, desk, &config, shared);
        let mut shift = Shift::new(&heap, own, session, inbox);
        serve_all(rt, &mut shift, &mut readiness);
        let (session, inbox, sessions) = shift.into_parts();
        WorkerEnd {
            desk: session.into_desk(),
            inbox,
            sessions,
        }
    }
}

impl<M: Moments + Drop, C: Read + Drop, W: Write + Drop, P: Readiness<C> + Drop> Task
    for Worker<M, C, W, P> {
    type End = WorkerEnd<C, W>;

    ghost use Rattle.rx_workers.specs.Workers.{HasEnded, peers};

    ghost ends = { λ w end. HasEnded (peers M.tells C.remaining W.contents) w end };

    fn run<R: Wait>(self, rt: &R) -> WorkerEnd<C, W> {
        self.serve(rt)
    }
}
