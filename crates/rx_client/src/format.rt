/// How a follower prints what it tells.
#[derive(Clone, Copy, Debug, PartialEq, Eq)]
pub enum Format {
    /// The text of each item on a line, and nothing else.
    Plain,
    /// A JSON object on a line, of each that is told.
    Json,
}
