/// Why a line was refused, in one word.
#[derive(Clone, Copy, Debug, PartialEq, Eq)]
pub enum Word {
    /// The line or its text is too long.
    Long,
    /// The line is none of the lines that are read.
    Syntax,
    /// There is no subject of that name.
    Subject,
    /// The subject has ended.
    Ended,
    /// As many observers are held as may be.
    Full,
    /// As many joins were accepted as may be.
    Spent,
    /// A request for no items.
    Zero,
    /// No observer of that number is held.
    Observer,
    /// More than 4,294,967,295 items would be owed.
    TooMuch,
    /// There was no memory for it.
    Memory,
    /// The thread that owns the subject is gone.
    Gone,
    /// There is no version of that number.
    Version,
}
