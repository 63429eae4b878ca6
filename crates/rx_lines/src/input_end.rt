/// How the reading of an input ended.
#[derive(Clone, Copy, Debug, PartialEq, Eq)]
pub enum InputEnd {
    /// The input is at its end.
    EndOfInput,
    /// A read failed.
    ReadFault,
    /// All the reads were made that may be.
    TooManyReads,
}
