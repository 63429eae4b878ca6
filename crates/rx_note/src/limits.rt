/// How many observers and how many items a subject takes. The limits are this project's own.
#[derive(Clone, Copy, Debug, PartialEq, Eq)]
pub struct Limits {
    /// The most observers held at a time, 1 to 64.
    pub observers: u32,
    /// The most joins accepted in all, 1 to 4,294,967,295.
    pub joins: u32,
    /// The most items accepted in all, 1 to 4,294,967,295.
    pub items: u32,
}
