//! What the crates of tests share: the signs of which their scripts are made, what is told of a run, runs with each of their
//! growths refused in turn, sinks that meet, and sinks in which notes wait.
//!
//! One legend for all scripts of tests. What is done: a letter emits or offers the item of that text, `.` the completion, `!` the
//! failure `x`; `+` joins an observer, a digit requests so many items, `-` has the observer leave; `?` asks how things stand. What is
//! told: the letter of an item, `.` and `!` alike; `_` where there is nothing, and for want of memory `M` or `m`; `Z` and `T` where
//! no items or too many were requested; and behind `|` what the other side was asked or took. What a file's scripts have besides
//! stands at its head.
//!
//! Nothing of the product stands on it. A test that fails is told where the test stands: here nothing ends the process.
#![tactic(auto)]

mod in_turn;
mod meeting;
mod signs;
mod told;
mod valve;

pub use in_turn::{Refusable, Refusals, Seen, Tale, refuse_in_turn};
pub use meeting::Meeting;
pub use signs::{
    Named, digit_of, event_at, event_of, item, kind_of, note_of, policy_by, policy_of, rules_of,
    sign_of, sign_of_item, text_of,
};
pub use told::Told;
pub use valve::{BROKEN, Valve};
