/// Who holds a tenure: a node, and which run of it.
#[derive(Clone, Copy, Debug, PartialEq, Eq)]
pub struct Holder {
    /// The machine's number, which no other machine has.
    pub node: u64,
    /// The number of its run, another one each time it begins.
    pub run: u64,
}
