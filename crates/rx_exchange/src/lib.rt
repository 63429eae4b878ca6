//! Exchanges: what a connection of a browser asks for is read and answered, or its writer is handed over.
//!
//! An [`Exchange`] is served turn by turn, as `rx_session`'s `OpenSession` is, and waits for nobody: it gathers the head of its
//! connection and its body, and then answers them, once. What the server does is its [`Front`]'s, which the crates above bring: whether
//! all is well, the Join of an observer that is told its notes by the writer, and the emission of a note, or of items by lines. Nothing behind a request is
//! read: an answer says that it is the last.
//!
//! The crates above rest on the contract of [`Exchange::turn`]: all turns together answer just the first request of the bytes that they read
//! (`specs/Exchanges.antt`). [`laws`] says where an exchange begins, and that others may call the server between its turns.
//!
//! Its tests stand in `crates/test_http`.
#![tactic(auto)]

mod came;
mod emitted;
mod emitted_lines;
mod exchange;
mod front;
mod joining;
pub mod laws;
mod met_request;

pub use emitted::Emitted;
pub use emitted_lines::EmittedLines;
pub use exchange::Exchange;
pub use front::Front;
pub use joining::Joining;
