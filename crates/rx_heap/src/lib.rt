//! The memory that every call which grows is handed, and the refusal where it gives none.
//!
//! A call that may grow takes a [`Heap`] first, and a type that holds a collection keeps its own. A `Heap` hands out the
//! runtime's memory: all of it, or no more than a budget of bytes, which all clones of the handle share.
//!
//! Many types that own memory have their `Drop` written by hand, in this crate and above it, where it could be derived: what lets
//! go of one is then a call, which is proved once and not anew in each function that does. Such a one says `By hand`.
//!
//! Its tests stand in `crates/test_core`.
#![tactic(auto)]

mod budget;
mod limit;
mod limited;
mod refused;
mod rooms;
mod spare;

pub use limited::Limited;
pub use refused::Memory;
pub use rooms::room;
pub use spare::give_back;

/// The memory handle: the allocator of the runtime under a limit. Nothing above relies on its being `Copy`: a second owner
/// clones it, and shares its limit.
pub type Heap = Limited<std::alloc::Global>;
