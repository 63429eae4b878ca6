//! Work that a thread of its own does to its end.
ghost use Rattle.std.specs.Prelude.{◌≡◌, IfSome, MatchResult};
ghost use Rattle.rx_mailbox.specs.PortRows.{with_bye};

use rx_mailbox::{EndedPort, Port};
use std::sync::Wait;
use std::thread;
use std::thread::{Promise, PromisedHandle, Threads};

/// What a thread does to its end.
pub(crate) trait Task: Drop {
    /// What it leaves.
    type End: Drop;

    ghost ends: { Self → Self.End → Type 0 };

    /// Does it all.
    fn run<R: Wait>(self, rt: &R) -> Self::End
        ensures { ends self result };
}

/// Starts a thread that does the task, and hands back the port to its inbox. `Err` where there is no thread for it: the port has
/// ended, and this is what the task leaves.
// It is apart from who starts a worker, so that what a worker is made of is shown once to be such as threads are handed.
pub(crate) fn start_task<
    T: Task + Send + 'static,
    P: Promise<T::End> + Drop,
    B: Drop,
    R: Threads + Wait + Drop + Send + 'static,
>(
    rt: &R,
    own: R,
    promise: P,
    task: T,
    port: Port<B>,
) -> Result<(PromisedHandle<T::End, P>, Port<B>), T::End>
where
    T::End: Send + 'static,
    requires { (end : T.End) → T.ends task end → P.kept_by promise end }
    ensures { MatchResult result (λ started. (started.0.promise ≡ promise) × (started.1 ≡ port)) (λ end. T.ends task end) }
{
    match thread::spawn_with(rt, promise, move || task.run(&own)) {
        Ok(handle) => Ok((handle, port)),
        Err(refused) => {
            drop(dismiss(rt, port));
            Err((refused.value)())
        }
    }
}

/// Tells a worker, by the port to its inbox, that no connection comes any more. Answers the port, ended, but where the worker
/// is gone.
pub(crate) fn dismiss<B: Drop, R: Wait>(rt: &R, port: Port<B>) -> Option<EndedPort<B>>
    ensures { IfSome result (λ ended. ended ≡ with_bye port) }
{
    match port.finish(rt) {
        Ok(ended) => Some(ended),
        Err(_) => None,
    }
}
