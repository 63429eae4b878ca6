/// What a producer says to a subject: an item, or that it ends.
#[derive(Clone, Copy, Debug, PartialEq, Eq)]
pub enum NoteKind {
    /// An item, with its text.
    Next,
    /// It completed: nothing more comes.
    Completed,
    /// It failed, with the text of its error.
    Failed,
}
