/// How a machine appends.
#[derive(Clone, Copy, Debug, PartialEq, Eq)]
pub struct Pace {
    /// The most calls that wait for their answer.
    pub most: u64,
    /// The most notes that are under way at a time.
    pub window: u64,
    /// How long it waits for what it appended until it begins anew, in milliseconds.
    pub patience: u64,
}
