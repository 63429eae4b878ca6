/// What waits for one observer of a subject.
#[derive(Clone, Copy, Debug, PartialEq, Eq)]
pub struct Backlog {
    /// Its number.
    pub who: u32,
    /// How many bytes the texts have that wait for it, without those that the subject keeps for who joins later.
    pub bytes: u64,
}
