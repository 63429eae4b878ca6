//! Drainers: threads that hand the notes of observers to their sinks, and give credit for what was taken.
//!
//! A drainer takes letters from its inbox while there are some, then flushes its sinks, and waits for the next letter. A sink
//! that comes is started and kept; a note goes to the sink of its observer. For each item that was taken the drainer asks the
//! subject for one more: at once, but where the sink is stuck; then once what it took has gone out. After a terminal, once
//! nothing waits in the sink, or a fault it has the observer disposed of, and puts the sink away. Nothing is said of when a
//! letter comes, and a call that waits isn't promised to return.
//!
//! The crate above rests on the drainer's calls and the sinks' notes ([`Drainer::turn`], [`Drainer::serve`]): for the letters
//! that a drainer received, and its flushes between them, there are marks, how it went with each, such that what it sent each
//! subject is exactly what they owe, its sinks are those of the attachments that the marked letters make, and only of stuck
//! sinks something is due. `specs/Logs.antt` has the definitions, `Credit.antt` whose credit is held back, `Drainers.antt` and
//! `Serving.antt` the words of the contracts; [`laws`] says of marked letters what an attachment's sink took and what its
//! subject was sent. What [`RunningDrainer::join`] answers is what `serve` promises of the drainer that was started.
//!
//! The sinks stand in a crate of their own below this one, and are exported again.
//!
//! Its tests stand in `crates/test_threads`.
#![tactic(auto)]

pub(crate) mod drainer;
pub mod laws;
mod running_drainer;

pub use drainer::Drainer;
pub use drainer::drain_end::DrainEnd;
pub use drainer::drain_fault::DrainFault;
pub use drainer::drain_stop::DrainStop;
pub use drainer::drainer_left::DrainerLeft;
pub use drainer::drainer_parts::DrainerParts;
pub use running_drainer::{NoThread, RunningDrainer, start_drainer};
pub use rx_sink::{
    Asks, Flow, Kept, LineRest, LineSink, MemorySink, Places, PutAway, Rests, Sink, SinkFault,
};
