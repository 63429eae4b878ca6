//! Drainers in threads of their own.
//!
//! A running drainer that is let go is not waited for: join each. What its thread answers is not given back then, as the
//! toolchain has it.
ghost use Rattle.std.specs.Prelude.{◌≡◌, MatchResult, IfOk};
ghost use Rattle.rx_drain.specs.Serving.{HasDrained, DrainerHasFailed};

use crate::drainer::Drainer;
use crate::drainer::drain_end::DrainEnd;
use crate::drainer::drain_fault::DrainFault;
use rx_sink::Sink;
use std::error::Error;
use std::snapshot::Snapshot;
use std::sync::Wait;
use std::thread::{Promise, PromisedHandle, Threads};
use std::{fmt, thread};

/// A drainer has no thread: the system made none, or there was no memory for it. The drainer was given up.
#[derive(Clone, Copy, Debug, PartialEq, Eq)]
pub struct NoThread;

impl fmt::Display for NoThread {
    fn fmt<W: fmt::Write>(&self, f: &mut fmt::Formatter<W>) -> fmt::Result {
        f.write_str("there is no thread for a drainer")
    }
}

impl Error for NoThread {}

/// What the thread of a drainer answers is what `serve` promises of that drainer, but that of what it left at a fault there is the
/// fault alone.
#[derive(Drop)]
pub(crate) struct DrainerPromise<S: Sink>(Snapshot<Drainer<S>>);

impl<S: Sink> Promise<Result<DrainEnd<S>, DrainFault>> for DrainerPromise<S> {
    ghost use Rattle.std.specs.Prelude.{MatchResult};
    ghost use Rattle.rx_drain.specs.Serving.{HasDrained, DrainerHasFailed};

    ghost kept_by = { λ p result. MatchResult result
        (λ end. HasDrained S.acts p.0.value end)
        (λ fault. DrainerHasFailed S.acts p.0.value fault) };
}

/// A drainer that serves in a thread of its own. One that is let go without a `join` is not waited for.
pub struct RunningDrainer<S: Sink> {
    handle: PromisedHandle<Result<DrainEnd<S>, DrainFault>, DrainerPromise<S>>,
}

// By hand: rx_heap says why.
impl<S: Sink> Drop for RunningDrainer<S> {
    fn drop(self) {
        let RunningDrainer { handle: _ } = self;
    }
}

/// Starts a thread in which the drainer serves. Contracts see the drainer that was handed in.
pub fn start_drainer<S: Sink + Send + 'static, R: Threads + Wait + Clone + Drop + Send + 'static>(
    rt: &R,
    drainer: Drainer<S>,
) -> Result<RunningDrainer<S>, NoThread>
where
    S::Rest: Send + 'static,
    ensures { IfOk result (λ running. running.handle.promise.0.value ≡ drainer) }
{
    let Ok(own) = rt.clone() else {
        return Err(NoThread);
    };
    let promise = DrainerPromise(Snapshot::of(&drainer));
    match thread::spawn_with(rt, promise, move || serve(&own, drainer)) {
        Ok(handle) => Ok(RunningDrainer { handle }),
        Err(_) => Err(NoThread),
    }
}

// Serves to the end. At a fault nothing is kept but that, so that no subject waits for the drainer.
fn serve<S: Sink, R: Wait>(rt: &R, drainer: Drainer<S>) -> Result<DrainEnd<S>, DrainFault>
    ensures { MatchResult result (λ end. HasDrained S.acts drainer end) (λ fault. DrainerHasFailed S.acts drainer fault) }
{
    match drainer.serve(rt) {
        Ok(end) => Ok(end),
        Err(stop) => Err(stop.let_go()),
    }
}

impl<S: Sink> RunningDrainer<S> {
    /// Waits until the thread has ended. It answers what `serve` did, and at a fault that alone: all else was let go when the thread
    /// ended, so that the subjects found the drainer gone.
    pub fn join<R: Threads>(self, rt: &R) -> Result<DrainEnd<S>, DrainFault>
        ensures { MatchResult result
            (λ end. HasDrained S.acts self.handle.promise.0.value end)
            (λ fault. DrainerHasFailed S.acts self.handle.promise.0.value fault) }
    {
        let RunningDrainer { handle } = self;
        handle.join(rt)
    }
}
