// Pumps in threads of their own.
ghost use Rattle.std.specs.Prelude.{◌≡◌, MatchResult, IfOk};
ghost use Rattle.rx_pump.specs.Serving.{HasPumped, PumpHasFailed};

use rx_pump::{Grace, Pump, PumpEnd, PumpFault, SharedHeard, SharedLook};
use std::marker::Model;
use std::snapshot::Snapshot;
use std::sync::{Arc, Wait};
use std::thread;
use std::thread::{Promise, PromisedHandle, Threads};

// A pump has no thread: the system made none, or there was no memory for it. The pump was given up.
#[derive(Drop)]
pub(crate) struct NoPumpThread;

// What the thread of a pump answers is what `serve` promises of that pump, but that of what it left at a fault there is the fault
// alone.
#[derive(Drop)]
pub(crate) struct PumpPromise<S: Drop>(Snapshot<Pump<S>>);

impl<S: Drop> Promise<Result<PumpEnd<S>, PumpFault>> for PumpPromise<S> {
    ghost use Rattle.std.specs.Prelude.{MatchResult};
    ghost use Rattle.rx_pump.specs.Serving.{HasPumped, PumpHasFailed};

    ghost kept_by = { λ p result. MatchResult result
        (λ end. HasPumped p.0.value end)
        (λ fault. PumpHasFailed p.0.value fault) };
}

// A pump that serves in a thread of its own. Contracts see the pump that was handed in. One that is let go without a `join`
// is not waited for.
pub(crate) struct RunningPump<S: Drop> {
    handle: PromisedHandle<Result<PumpEnd<S>, PumpFault>, PumpPromise<S>>,
    heard: SharedHeard,
    shown: SharedLook,
}

// By hand: rx_heap says why.
impl<S: Drop> Drop for RunningPump<S> {
    fn drop(self) {
        let RunningPump {
            handle: _,
            heard: _,
            shown: _,
        } = self;
    }
}

impl<S: Drop> Model for RunningPump<S> {
    ghost use Rattle.rx_pump.specs.Pumps.{PumpView};

    ghost Value = { PumpView S };

    ghost view = { λ r. r.handle.promise.0.value };
}

// Starts a thread in which the pump serves, which tells how far it is.
pub(crate) fn start_pump<
    S: Drop + Send + 'static,
    R: Threads + Wait + Clone + Drop + Send + 'static,
>(rt: &R, pump: Pump<S>) -> Result<RunningPump<S>, NoPumpThread>
    ensures { IfOk result (λ running. running ≡ pump) }
{
    let Ok(own) = rt.clone() else {
        return Err(NoPumpThread);
    };
    let (Some(heard), Some(shown)) = (pump.heard(), pump.shown()) else {
        return Err(NoPumpThread);
    };
    let promise = PumpPromise(Snapshot::of(&pump));
    match thread::spawn_with(rt, promise, move || serve(&own, pump)) {
        Ok(handle) => Ok(RunningPump {
            handle,
            heard,
            shown,
        }),
        Err(_) => Err(NoPumpThread),
    }
}

// Serves to the end. At a fault nothing is kept but that, so that nobody waits for the pump.
fn serve<S: Drop, R: Wait>(rt: &R, pump: Pump<S>) -> Result<PumpEnd<S>, PumpFault>
    ensures { MatchResult result (λ end. HasPumped pump end) (λ fault. PumpHasFailed pump fault) }
{
    match pump.serve(rt) {
        Ok(end) => Ok(end),
        Err(stop) => Err(stop.let_go()),
    }
}

impl<S: Drop> RunningPump<S> {
    // Waits until all desks ended and nothing waits in its hub, but no longer than by this grace, or until it is over. It answers what
    // is left of that.
    pub(crate) fn wait<R: Wait>(&self, rt: &R, grace: Grace) -> Grace {
        self.heard.wait(rt, grace)
    }

    // What shows its subject. None where it can't be shared any more.
    pub(crate) fn shown(&self) -> Option<SharedLook> {
        match Arc::try_clone(&self.shown) {
            Ok(shown) => Some(shown),
            Err(_) => None,
        }
    }

    // Waits until the thread has ended. It answers what `serve` did, and at a fault that alone.
    pub(crate) fn join<R: Threads>(self, rt: &R) -> Result<PumpEnd<S>, PumpFault>
        ensures { MatchResult result (λ end. HasPumped self end) (λ fault. PumpHasFailed self fault) }
    {
        let RunningPump {
            handle,
            heard: _,
            shown: _,
        } = self;
        handle.join(rt)
    }
}
