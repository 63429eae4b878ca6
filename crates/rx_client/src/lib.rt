//! A client of the line server: it emits lines, follows a subject over connections that end and servers that begin anew, looks at a
//! server, and has it stop.
//!
//! What a follower tells is a function of what it heard, and at which servers (`specs/Following.antt`): [`Follower`] tells each
//! item once, in its order, and each gap, which [`laws`] says of whole runs. A line is heard exactly where a server prints it
//! ([`read_note`]), and a subscription is one that a session takes ([`sub_line`]). Around that stands a thin edge over a Unix
//! socket: [`publish`], and [`subscribe`], which prints what such a follower tells and nothing else. [`look`] and [`stop`] ask by HTTP,
//! and write just the body of an answer ([`hand_on`], `specs/Looking.antt`).
#![tactic(auto)]

mod answer;
mod asking;
mod connection;
mod decimals;
mod epoch;
mod flushing;
mod follower;
mod format;
mod heard;
pub mod laws;
mod looking;
mod output;
mod pause;
mod plain;
mod publisher;
mod request;
mod stopping;
mod subscriber;
mod told;

pub use answer::hand_on;
pub use epoch::Epoch;
pub use follower::{Ending, Follower};
pub use format::Format;
pub use heard::{Heard, read_note};
pub use looking::{LookFault, look};
pub use plain::Plain;
pub use publisher::{PublishFault, Published, publish};
pub use request::{Unsaid, sub_line};
pub use stopping::stop;
pub use subscriber::{SubscribeFault, Wanted, subscribe};
pub use told::{Telling, Told};
