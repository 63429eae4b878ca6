//! A subject for programs in C, and in all languages that can call C: a struct that the program keeps, and a call for each
//! thing that is done to the subject behind it. `bindings/c/hazoxe.h` says what a program has to know.
//!
//! It is no server, and has no thread: each call does what it says and returns. A program rests on two facts: a struct that
//! holds no subject is told by it, and each call that does something to a subject makes one step of a hub.
//!
//! Its tests stand in `bindings/test`.
#![tactic(auto)]

mod batch;
mod counts;
mod desk;
mod events;
mod fault;
mod front_note;
mod handle;
mod loose;
mod note_head;
mod open_box;
mod policies;
mod queue;
mod subject;
mod subject_rules;
mod taken;
mod waiting_count;

pub use counts::Counts;
pub use note_head::NoteHead;
pub use subject::Subject;
pub use subject_rules::SubjectRules;
pub use taken::Taken;
