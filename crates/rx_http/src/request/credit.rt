/// How many items a reader is owed at first, and who asks for more of them.
#[derive(Clone, Copy, Debug, PartialEq, Eq)]
pub struct Credit {
    /// How many items may be on their way to it at a time, 1 to 16; or, where it asks itself, how many it is owed at first.
    pub window: u32,
    /// It asks for each further item itself. Else one is asked for in the place of each that went out to it.
    pub asked: bool,
    /// How many milliseconds are between two items that are told to it at the least, up to 60,000; 0 where it takes them as they come.
    pub pace: u32,
}
