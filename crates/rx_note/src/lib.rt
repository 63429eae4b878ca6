//! What the other crates speak of: the texts, items and notes that a subject gives, the events that it takes, what it
//! answers, and the rules that it keeps. `specs/Signals.antt` says what one observer is to be given.
//!
//! No queue and no subject stands here. The crates above rest on two facts: a `Text` and the room of a `Policy` are in
//! their limits, and a copy is equal to its source.
//!
//! Its tests stand in `crates/test_core`.
#![tactic(auto)]

mod answer;
mod block;
mod body;
mod errors;
mod event;
mod front;
mod given;
mod item;
mod kind;
mod limits;
mod long_block;
mod note;
mod policy;
mod refusal;
mod rules;
mod strategy;
mod text;

pub use answer::Answer;
pub use errors::Errors;
pub use event::Event;
pub use front::Front;
pub use given::Given;
pub use item::Item;
pub use kind::{Kind, KindError, MAX_COUNT};
pub use limits::Limits;
pub use note::{Note, copy_of};
pub use policy::{BadRoom, Policy};
pub use refusal::Refusal;
pub use rules::Rules;
pub use strategy::Strategy;
pub use text::{MAX_TEXT, Text, TextError};
