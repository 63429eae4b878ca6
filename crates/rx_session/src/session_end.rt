/// How a session or the run of a script ended.
#[derive(Clone, Copy, Debug, PartialEq, Eq)]
pub enum SessionEnd {
    /// A line said `QUIT`.
    Quit,
    /// The input is at its end.
    EndOfInput,
    /// The desk took the writer, or gave none back. A script has no such end.
    HandedOver,
    /// A read failed.
    ReadFault,
    /// A write failed, after which a prefix of the answers was written.
    WriteFault,
    /// All the reads were made that may be.
    TooManyReads,
}
