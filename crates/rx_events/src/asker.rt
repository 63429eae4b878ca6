ghost use Rattle.std.specs.Prelude.{◌≡◌};
ghost use Rattle.rx_events.specs.Asking.{asker_after, holds};

use rx_note::Note;

/// Who asks for items in the place of those that a sink took.
#[derive(Clone, Copy, Debug, PartialEq, Eq)]
pub enum Asker {
    /// The drainer of the sink, as they go out.
    Drainer,
    /// The reader itself, from the first item on that is told to it: those that it knows already take none of what it is owed.
    Reader {
        /// It was told an item, and no end.
        told: bool,
    },
}

impl Asker {
    /// Who asks once a note was taken, which was told or passed over. Behind an end there is nothing to ask for, so nothing is held back.
    pub(crate) fn after(self, note: &Note, is_told: bool) -> Asker
        ensures { result ≡ asker_after self note.now is_told }
    {
        match (self, note) {
            (Asker::Drainer, _) => Asker::Drainer,
            (Asker::Reader { told }, Note::Next(_)) => Asker::Reader {
                told: told || is_told,
            },
            (Asker::Reader { told: _ }, Note::Completed | Note::Failed(_)) => Asker::Reader {
                told: false,
            },
        }
    }

    /// Whether what is due is held back, since the reader asks for it.
    pub(crate) fn holds(self) -> bool
        ensures { result ≡ holds self }
    {
        match self {
            Asker::Drainer => false,
            Asker::Reader { told } => told,
        }
    }
}
