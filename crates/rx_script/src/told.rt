/// Whether a script goes on after a line.
#[derive(Clone, Copy, Debug, PartialEq, Eq)]
pub(crate) enum Told {
    /// The next line is told.
    More,
    /// It was the last one.
    Quit,
}
