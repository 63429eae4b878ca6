//! A sink that tells the notes of an observer as Server-Sent Events.
//!
//! An [`EventSink`] begins with the head of the answer, tells where its reader begins and who it is, and then each note that it takes, as
//! `rx_http` writes it. It knows of which items its reader knows what became: these it passes over, and before an item that isn't the next
//! it tells how many are missed. By its [`Tempo`] it tells a heartbeat where it has nothing to tell, and waits behind an item where its
//! reader wants no more of them in a time. Nothing here serves: what is written goes to a writer, and who makes a sink hands it where its reader
//! begins (`rx_http`'s `Begin`).
//!
//! What is to stand above rests on what the sink says of its calls (`specs/Sinks.antt`), by how each note is told
//! (`specs/Telling.antt`); [`laws`] says what a sink that is put away has written, and what its reader heard.
//!
//! Its tests stand in `crates/test_http`.
#![tactic(auto)]

mod asker;
mod event_sink;
pub mod laws;
mod pulse;
mod standing;
mod tempo;
mod told_note;

pub use asker::Asker;
pub use event_sink::EventSink;
pub use pulse::{Pulse, SharedPulse};
pub use standing::Standing;
pub use tempo::Tempo;
