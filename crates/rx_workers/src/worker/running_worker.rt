//! Workers in threads of their own.
ghost use Rattle.std.specs.Prelude.{◌≡◌, MatchResult};
ghost use Rattle.rx_workers.specs.Workers.{HasEnded, peers};

use crate::readiness::Readiness;
use crate::worker::Worker;
use crate::worker::task::{dismiss, start_task};
use crate::worker::worker_end::WorkerEnd;
use rx_desk::Moments;
use rx_mailbox::Port;
use std::io::{Read, Write};
use std::marker::Model;
use std::snapshot::Snapshot;
use std::sync::Wait;
use std::thread::{Promise, PromisedHandle, Threads};

/// What the thread of a worker answers is what `serve` promises of that worker.
#[derive(Drop)]
pub(crate) struct Worked<M: Drop, C: Drop, W: Write + Drop, P: Readiness<C> + Drop>(
    Snapshot<Worker<M, C, W, P>>,
);

impl<M: Moments + Drop, C: Read + Drop, W: Write + Drop, P: Readiness<C> + Drop> Promise<
    WorkerEnd<C, W>,
> for Worked<M, C, W, P> {
    ghost use Rattle.rx_workers.specs.Workers.{HasEnded, peers};

    ghost kept_by = { λ p end. HasEnded (peers M.tells C.remaining W.contents) p.0.value end };
}

/// A worker that serves in a thread of its own. One that is let go without a `join` is not waited for. Contracts see the worker
/// that was handed in.
pub struct RunningWorker<
    M: Moments + Drop,
    C: Read + Drop,
    W: Write + Drop,
    P: Readiness<C> + Drop,
> {
    handle: PromisedHandle<WorkerEnd<C, W>, Worked<M, C, W, P>>,
}

// By hand: rx_heap says why.
impl<M: Moments + Drop, C: Read + Drop, W: Write + Drop, P: Readiness<C> + Drop> Drop
    for RunningWorker<M, C, W, P> {
    fn drop(self) {
        let RunningWorker { handle: _ } = self;
    }
}

/// Starts a thread in which the worker serves, and hands back the port to its inbox. `Err` where there is no thread for it:
/// the port has ended, and this is what the worker leaves, whose inbox had nothing but the Bye.
pub fn start_worker<
    M: Moments + Drop + Send + 'static,
    C: Read + Drop + Send + 'static,
    W: Write + Drop + Send + 'static,
    P: Readiness<C> + Drop + Send + 'static,
    R: Threads + Wait + Clone + Drop + Send + 'static,
>(
    rt: &R,
    worker: Worker<M, C, W, P>,
    port: Port<(C, W)>,
) -> Result<(RunningWorker<M, C, W, P>, Port<(C, W)>), WorkerEnd<C, W>>
    ensures { MatchResult result
        (λ started. (started.0 ≡ worker) × (started.1 ≡ port))
        (λ end. HasEnded (peers M.tells C.remaining W.contents) worker end) }
{
    let Ok(own) = rt.clone() else {
        drop(dismiss(rt, port));
        return Err(worker.serve(rt));
    };
    let promise = Worked(Snapshot::of(&worker));
    match start_task(rt, own, promise, worker, port) {
        Ok((handle, port)) => Ok((RunningWorker { handle }, port)),
        Err(end) => Err(end),
    }
}

impl<M: Moments + Drop, C: Read + Drop, W: Write + Drop, P: Readiness<C> + Drop> Model
    for RunningWorker<M, C, W, P> {
    ghost use Rattle.rx_workers.specs.Working.{WorkerView};

    ghost Value = { WorkerView (Unit {0}) C W };

    ghost view = { λ r. r.handle.promise.0.value };
}

impl<M: Moments + Drop, C: Read + Drop, W: Write + Drop, P: Readiness<C> + Drop> RunningWorker<
    M,
    C,
    W,
    P,
> {
    ghost use Rattle.rx_workers.specs.Workers.{HasEnded, peers};

    /// Waits until the thread has ended. It answers what the worker left.
    pub fn join<R: Threads>(self, rt: &R) -> WorkerEnd<C, W>
        ensures { HasEnded (peers M.tells C.remaining W.contents) self result }
    {
        let RunningWorker { handle } = self;
        handle.join(rt)
    }
}
