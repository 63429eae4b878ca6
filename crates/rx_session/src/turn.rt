use crate::SessionEnd;

/// What a turn of an open session came to.
pub enum Turn<W> {
    /// The session goes on, with this writer, and may have more to do at once.
    Again(W),
    /// It goes on, with this writer, once its reader has bytes.
    Waits(W),
    /// It goes on, with this writer, once that takes bytes: an answer waits for it.
    Stuck(W),
    /// It ended so, and the writer is back if it still had one.
    Over(SessionEnd, Option<W>),
}
