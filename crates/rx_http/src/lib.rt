//! What a browser asks for and is told of a subject: heads of requests are read, and answers and Server-Sent Events are written
//! and proved to be read back.
//!
//! Nothing here serves: what comes is read where it is at hand, and what is written goes to a writer. What is to stand above rests
//! on four contracts. [`HeadReader`] finds the head of a connection, however its reads are cut; [`read_request`] answers what a head
//! asks for, or the first cause for which it is refused; [`write_answer`] writes exactly the bytes of an answer; [`write_event`]
//! writes exactly those of an event, of which [`laws`] says that a reader is told just that event by them, and by a stream that is
//! cut anywhere a front of its events, with the id of the last.
//!
//! Its tests stand in `crates/test_http`.
#![tactic(auto)]

pub(crate) mod answer;
mod epoch;
pub(crate) mod head_reader;
mod id;
pub mod laws;
mod number;
mod parts;
pub(crate) mod request;
pub(crate) mod stream_event;

pub use answer::Answer;
pub use answer::document::Document;
pub use answer::places::Places;
pub use answer::refusal::Refusal;
pub use answer::written_answer::write_answer;
pub use epoch::Epoch;
pub use head_reader::HeadReader;
pub use head_reader::head_found::HeadFound;
pub use id::Id;
pub use request::asked::Asked;
pub use request::begin::Begin;
pub use request::body_lines::{MAX_LINES, are_texts, first_line};
pub use request::credit::Credit;
pub use request::idempotency_key::IdempotencyKey;
pub use request::look_form::LookForm;
pub use request::note_kind::NoteKind;
pub use request::observer_id::ObserverId;
pub use request::{MAX_HEAD, read_request};
pub use stream_event::StreamEvent;
pub use stream_event::written_event::{write_event, write_heartbeat, write_retry};
