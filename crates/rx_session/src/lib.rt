//! Sessions: the lines of a reader, each carried out by a desk and answered on a writer.
//!
//! What a desk does is its own: the crates above bring one. They rest on the contracts of [`serve_lines`], the session's
//! bytes. An [`OpenSession`] is a session that waits for nobody: it is served turn by turn, and others between its turns.
//! [`laws`] says what the lines of some bytes are, and that an open session is a session.
//!
//! Its tests stand in `crates/test_core`.
#![tactic(auto)]

mod desk;
mod ends;
mod follow;
pub mod laws;
mod open_session;
mod responses;
mod session_end;
mod texts;
mod turn;
mod whole_session;

pub use desk::Desk;
pub use follow::Follow;
pub use open_session::OpenSession;
pub use responses::response_to;
pub use rx_lines::{InputEnd, LineReader, LineState, Next, Outbox, Step};
pub use session_end::SessionEnd;
pub use turn::Turn;
pub use whole_session::{serve, serve_lines};
