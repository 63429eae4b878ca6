/// An observer that a call made: at which place of the configuration its subject stands, from 0, and its number.
#[derive(Clone, Copy, Debug, PartialEq, Eq)]
pub struct Joined {
    /// The place of the subject.
    pub subject: usize,
    /// The number of the observer.
    pub who: u32,
}
