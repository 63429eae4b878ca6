/// How long who closes a server waits for what waits for observers.
#[derive(Clone, Copy, Debug, PartialEq, Eq)]
pub enum Grace {
    /// As long as something moves: no longer than a quarter of a second after the last letter, since who takes nothing may leave something
    /// waiting for ever.
    WhileMoving,
    /// So many milliseconds, whoever takes nothing.
    Within(u64),
}
