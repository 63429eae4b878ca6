//! What a subject keeps for those that join later, by its kind: its end, its clock and its last items.
//!
//! A [`Subject`] says what an accepted note offers to every observer, and what a joiner begins with. It knows no observer
//! and stores no history. The crates above rest on one fact: for every history that a subject stands for, its offers and
//! openings are those that `rx_history` defines, and it then stands for the history with the event. A [`TapeSubject`] does so
//! where its items stand on a tape that its observers share.
//!
//! Its tests stand in `crates/test_core`.
#![tactic(auto)]

mod admit_error;
mod kept;
mod kinds;
mod offer;
mod opening;
mod stamps;
mod subject;
mod tape_opening;
mod tape_subject;

pub use admit_error::AdmitError;
pub use offer::Offer;
pub use opening::Opening;
pub use rx_note::{Kind, KindError};
pub use subject::Subject;
pub use tape_opening::TapeOpening;
pub use tape_subject::TapeSubject;
