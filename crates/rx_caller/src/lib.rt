//! A server inside a program, and the callers of its subjects.
//!
//! [`Callers`] hands out the desks of a server, a [`Caller`] each, takes back what these leave, and closes the server. A caller is
//! for one thread: it makes one call at a time, waits for its answer and tells why one was refused. It isn't for many calls that
//! are under way at once, which a desk itself makes (`post` and `answer` of `rx_pump::CallDesk`). `crates/example_server` is a
//! whole program over it.
//!
//! What a call did is told by the relation that a desk's call has (`specs/Calling.antt`). That a caller is of its server is a fact
//! that it carries with it, so [`Callers::close`] asks for nothing, and [`Callers::take`] for that fact alone. What is let go of a
//! caller, or of what it left, is missing at the close.
//!
//! Its tests stand in `crates/test_client`.
#![tactic(auto)]

mod caller;
mod caller_error;
mod callers;
mod either;
mod ended_caller;
mod not_joined;
mod origin;

pub use caller::Caller;
pub use caller_error::CallerError;
pub use callers::Callers;
pub use either::Either;
pub use ended_caller::EndedCaller;
pub use not_joined::NotJoined;
