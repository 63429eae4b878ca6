//! Which entries of a list that several machines share count, and what they emit; and one machine's part in it.
//!
//! It reads no log and writes none: it is told each entry that was read, and tells what to append. The crates above rest on
//! one contract, the exact log: an entry counts exactly where the definitions say so of the whole list, and what of it is a
//! machine's own, followed by what waits there, is exactly the list of its calls.
//!
//! Its tests stand in `crates/test_log`.
#![tactic(auto)]

mod call;
mod entry;
mod holder;
mod machine;
mod mark;
mod pace;
mod read;
mod recent;
mod rule;
mod sender;
mod stage;
mod standing;
mod term;
mod terms;
mod total;

pub use call::{Call, CallError};
pub use entry::Entry;
pub use holder::Holder;
pub use machine::Machine;
pub use pace::Pace;
pub use read::{Read, ReadError};
pub use rule::Rule;
pub use stage::Stage;
pub use standing::Standing;
pub use total::Total;
