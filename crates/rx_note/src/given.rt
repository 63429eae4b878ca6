use crate::Note;

/// A note given to an observer.
#[derive(Drop, Debug, PartialEq, Eq)]
pub struct Given {
    /// The number of the observer.
    pub who: u32,
    pub note: Note,
}
