use crate::word::Word;

/// What a line is answered.
#[derive(Clone, Copy, Debug, PartialEq, Eq)]
pub enum Response {
    /// It was carried out.
    Done,
    /// A Join made the observer of this number.
    Joined(u32),
    /// It was refused.
    Refused(Word),
}
