ghost use Rattle.std.specs.Prelude.{◌≡◌};
ghost use Rattle.rx_hub.specs.Looks.{end_as};

use rx_note::Note;

/// Whether a subject ended, and how.
#[derive(Clone, Copy, Debug, PartialEq, Eq)]
pub enum SubjectEnd {
    Open,
    Completed,
    /// By an error.
    Failed,
}

impl SubjectEnd {
    /// That of a subject with this end.
    pub(crate) fn of(end: &Option<Note>) -> SubjectEnd
        ensures { result ≡ end_as end.now }
    {
        match end {
            None | Some(Note::Next(_)) => SubjectEnd::Open,
            Some(Note::Completed) => SubjectEnd::Completed,
            Some(Note::Failed(_)) => SubjectEnd::Failed,
        }
    }
}
