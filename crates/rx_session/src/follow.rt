use rx_proto::Response;

/// What became of a writer that was handed to a desk.
pub enum Follow<W> {
    /// The desk has it: an observer joined whose sink it is, or it was lost.
    Taken,
    /// The Join was refused by this response, and the writer is back.
    Back(Response, W),
}
