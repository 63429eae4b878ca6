//! The desks of connections over the subjects of a configuration: each command of a session is one call to its subject, and so is each
//! Join of a browser. Of both a server takes the one type of sinks that it has, a [`ClientSink`].
//!
//! Nothing here makes a desk of calls or serves a connection, and nothing is said of when a reply comes: a call that waits isn't
//! promised to return.
//!
//! The crates above rest on what a [`SessionDesk`] does with each command (`specs/SessionDesks.antt`): one call, answered by what its
//! reply says, an emission that was begun by the reply to its own post (`Queues.antt`), and each item at the moment that its
//! [`Moments`] told; and on what an [`EventDesk`] does with each Join and each
//! emission of a browser (`EventDesks.antt`, `LineEmissions.antt`).
//!
//! What it does is tested over a server, in `test_edge`.
#![tactic(auto)]

mod askers;
mod begun_call;
mod causes;
mod client_sink;
mod emitted_note;
mod event_desk;
mod event_sinks;
mod grants;
mod joined;
mod kept_answer;
mod kept_answers;
mod moments;
mod responses;
mod session_desk;
mod stop;

pub use client_sink::ClientSink;
pub use event_desk::EventDesk;
pub use grants::Grants;
pub use joined::Joined;
pub use moments::Moments;
pub use session_desk::SessionDesk;
pub use stop::{SharedStop, Stop};
