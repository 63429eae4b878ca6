//! The queue of one observer: it gives each item offered to it at once where one is owed, and keeps the others by the
//! strategy of the observer's policy.
//!
//! It knows nothing of subjects and of other observers. The crates above rest on one contract, the exact lane: for every
//! list of signals that a lane stands for, `ask`, `offer` and `end` give exactly what the definitions of `rx_note` give
//! by that signal, and the lane then stands for the longer list.
//!
//! Its tests stand in `crates/test_core`.
#![tactic(auto)]

mod ask_error;
mod joiner;
mod lane;
mod last;
mod queue;
mod tape_lane;
mod waiting;

pub use ask_error::AskError;
pub use joiner::Joiner;
pub use lane::Lane;
pub use tape_lane::TapeLane;
