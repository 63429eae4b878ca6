use rx_http::Refusal;

/// What became of a writer by which an observer was to be told its notes.
pub enum Joining<W> {
    /// The server has it: an observer joined whose sink it is, or it was lost.
    Taken,
    /// The Join was refused for this cause, and the writer is back as it came.
    Back(Refusal, W),
}
