/// A sink that was put away, and the observer whose notes it took.
#[derive(Drop)]
pub struct PutAway<R> {
    /// The number of the observer's subject.
    pub subject: u32,
    /// The observer's number at its subject.
    pub who: u32,
    /// What the sink left.
    pub rest: R,
}
