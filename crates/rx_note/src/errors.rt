ghost use Rattle.std.specs.Prelude.{◌≡◌};
ghost use Rattle.rx_note.specs.Signals.{goes_ahead};

use crate::Note;

/// Where an error stands among the items that wait for an observer (<https://reactivex.io/documentation/operators/observeon.html>).
/// Completion stands behind them by both modes, which is this project's own rule.
#[derive(Clone, Copy, Debug, PartialEq, Eq)]
pub enum Errors {
    /// Ahead of them: it is given at once, and what waits is never given.
    Ahead,
    /// Behind them, as completion does.
    Delay,
}

impl Errors {
    /// Whether a note is given ahead of the items that wait: an error is by `Ahead`, and nothing else.
    pub fn goes_ahead(self, note: &Note) -> bool
        ensures { result ≡ goes_ahead self note.now }
    {
        let is_error = matches!(note, Note::Failed(_));
        is_error && self == Errors::Ahead
    }
}
