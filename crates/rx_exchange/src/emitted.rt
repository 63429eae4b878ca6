/// What became of an emission that was accepted.
#[derive(Clone, Copy, Debug, PartialEq, Eq)]
pub struct Emitted {
    /// The place of the item; none where its subject ended by it.
    pub place: Option<u32>,
    /// It was accepted before, when it came by the same key, and not once more.
    pub again: bool,
}
