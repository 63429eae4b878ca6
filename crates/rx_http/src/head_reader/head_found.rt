/// What of a head was found among the bytes that came.
#[derive(Clone, Copy, Debug, PartialEq, Eq)]
pub enum HeadFound {
    /// All of it, so many bytes.
    Whole(usize),
    /// Not all of it.
    Partly,
    /// The first 8,192 bytes, and it does not end there.
    TooLong,
}
