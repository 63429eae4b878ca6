//! Pumps, calls and replies: who owns the core of a subject, and how others call it.
//!
//! A pump takes letters from its inbox one by one. It hands the event of each call to its hub, sends what the hub gives
//! to the drainers of the observers, and the answer to the caller. A desk is a caller's side: it sends one call and waits
//! for its reply. Neither starts a thread, and nothing is said of when a letter comes: a call that waits isn't promised to
//! return.
//!
//! The crates above rest on the pump's history (`Pump::turn`, `Pump::serve`): for the letters that a pump received there
//! are marks, which bodies were made and which were refused for want of memory, such that its hub stands for the history
//! of those made, the list that it sent each drainer is the drainer's route, and the list that it sent each caller its
//! replies. And on the desk's calls (`CallDesk::call`): one call is one new ticket and one letter received, its answer.
//! `specs/Marks.antt` has the definitions, `Pumps.antt`, `Serving.antt` and `Desks.antt` the words of the contracts.
//!
//! Its tests stand in `crates/test_threads`.
#![tactic(auto)]

mod call;
pub(crate) mod call_desk;
mod grace;
pub mod laws;
mod out;
pub(crate) mod pump;
mod reply;

pub use call::Call;
pub use call_desk::CallDesk;
pub use call_desk::call_error::CallError;
pub use call_desk::desk_parts::DeskParts;
pub use call_desk::ended_desk::EndedDesk;
pub use grace::Grace;
pub use out::Out;
pub use pump::Pump;
pub use pump::heard::{Heard, SharedHeard};
pub use pump::pump_end::PumpEnd;
pub use pump::pump_fault::PumpFault;
pub use pump::pump_parts::PumpParts;
pub use pump::pump_stop::PumpStop;
pub use pump::shown::{SharedLook, Shown};
pub use reply::Reply;
