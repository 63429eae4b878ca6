/// What is left of a [`crate::LineSink`].
#[derive(Clone, Copy, Debug, PartialEq, Eq)]
pub struct LineRest {
    /// How many notes it took, up to the greatest `u64`.
    pub notes: u64,
    /// It had a fault.
    pub failed: bool,
}
