//! Sinks, where the notes of an observer go, and the list of those that a drainer keeps.
//!
//! A sink is started for its observer, takes notes one by one until it has a fault or took the last, is flushed between them,
//! and is then finished. It waits for nobody: a take or a flush answers whether something waits in it ([`Flow`]).
//! [`MemorySink`] keeps what it takes; [`LineSink`] writes it as lines. Nothing here receives a letter or sends one: what a
//! letter or a flush does to the sinks that are kept and to those that were put away is done by functions on two lists, which
//! answer what the subject is to be asked ([`Asks`]). What those left that were put away is kept, or let go at once ([`Rests`]).
//!
//! The crate above rests on those functions ([`attach`], [`give`], [`flush_one`], [`detach`], [`put_all_away`]): each does to
//! the lists what the rules of one attachment say (`specs/Attachments.antt`), whatever kind of sink it is. `specs/Acts.antt`
//! has the words in which a kind of sink tells what its calls do, `specs/KeptSinks.antt` what the lists stand for. [`laws`] says
//! what the sinks of this crate have taken, and that nothing waits in them.
//!
//! Its tests stand in `crates/test_threads`.
#![tactic(auto)]

mod asks;
mod flow;
mod kept;
mod kept_sinks;
pub mod laws;
mod line_rest;
mod line_sink;
mod memory_sink;
mod places;
mod put_away;
mod rests;
mod sink;
mod spots;

pub use asks::Asks;
pub use flow::Flow;
pub use kept::Kept;
pub use kept_sinks::{attach, detach, flush_one, give, put_all_away};
pub use line_rest::LineRest;
pub use line_sink::LineSink;
pub use memory_sink::MemorySink;
pub use places::Places;
pub use put_away::PutAway;
pub use rests::Rests;
pub use sink::{Sink, SinkFault};
