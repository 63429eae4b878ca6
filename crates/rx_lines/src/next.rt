/// What a reader of lines tells.
#[derive(Clone, Copy, Debug)]
pub enum Next<'a> {
    /// A line, without its LF and one CR before that.
    Line(&'a [u8]),
    /// A line of more than 1,100 bytes, which was let go.
    Long,
    /// The input is at its end.
    EndOfInput,
    /// A read failed.
    ReadFault,
    /// All the reads were made that may be.
    TooManyReads,
}
