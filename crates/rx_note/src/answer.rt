/// What an accepted event is answered.
#[derive(Clone, Copy, Debug, PartialEq, Eq)]
pub enum Answer {
    /// The note of an Emit was taken.
    Admitted,
    /// The Join made the observer of this number.
    Joined(u32),
    /// The Request was added to the demand.
    Asked,
    /// The observer of the Dispose has left.
    Left,
}
