/// What one step of reading lines came to.
#[derive(Clone, Copy, Debug, PartialEq, Eq)]
pub enum Step {
    /// A line of so many bytes.
    Line(usize),
    /// A line of more than 1,100 bytes, which was let go.
    Long,
    /// The input is at its end.
    EndOfInput,
    /// A read failed.
    ReadFault,
    /// All the reads were made that may be.
    TooManyReads,
}
