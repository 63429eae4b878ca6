//! Lines out of the bytes of a reader, and answers into the bytes of a writer, in blocks that take no memory from the heap.
//!
//! Sessions and scripts read and answer by them. They rest on the contracts of [`LineState`], the lines of what was read, each
//! told once and in its order, and of [`Outbox`], which holds just what was put and not yet written. A [`Feed`] has the same
//! lines where no read waits. `specs/Lines.antt` has what the lines of some bytes are, `Steps.antt`, `Feeds.antt` and
//! `Bytes.antt` the words of the contracts.
//!
//! Its tests stand in `crates/test_core`.
#![tactic(auto)]

mod came;
mod carriage;
mod feed;
mod input_end;
mod line_feed;
mod line_reader;
mod line_state;
mod next;
mod outbox;
mod reads;
mod step;
mod told;
mod window;

pub use came::Came;
pub use feed::Feed;
pub use input_end::InputEnd;
pub use line_reader::LineReader;
pub use line_state::LineState;
pub use next::Next;
pub use outbox::Outbox;
pub use step::Step;
