//! The items of a subject, each once, and the cursors that stand on them.
//!
//! Observers that want the same items share one list of them: each keeps a cursor, a place of the list. It knows nothing of
//! requests and of strategies. The crates above rest on one contract, the exact tape: an item is pushed at the end, a cursor
//! reads the item at its place, no call moves another's cursor, and what every cursor has passed is removed, save the last
//! items that are to be kept.
//!
//! Its tests stand in `crates/test_core`.
#![tactic(auto)]

mod places;
mod tape;

pub use tape::Tape;
