//! The stored history of a subject: what one observer was given, what waits for it and its whole line, read from the
//! events alone.
//!
//! `specs/Histories.antt` says what a history means. A [`History`] keeps its entries as they came and reads each answer
//! from the first one on: plain and slow, so that a hub, which stores no history, can be held against it. The crates
//! above rest on one fact: what it answers is what the definitions say. [`laws`] has what follows from these for every
//! observer: order, nothing twice, nothing lost under Buffer, nothing after a terminal, no more given than was requested,
//! no more waiting than there is room for.
//!
//! Its tests stand in `crates/test_core`.
#![tactic(auto)]

mod history;
pub mod laws;
mod line_error;
mod past;
mod roster;
mod trace;
mod walk;

pub use history::History;
pub use line_error::LineError;
