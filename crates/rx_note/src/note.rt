ghost use Rattle.std.specs.Prelude.{◌≡◌, IfOk};
ghost use Rattle.rx_note.specs.Signals.{overflow};

use crate::{Item, Text};
use rx_heap::{Heap, Memory};

/// What an observer is given: an item, or a terminal, after which nothing comes (<https://reactivex.io/documentation/contract.html>).
#[derive(Drop, Debug, PartialEq, Eq)]
pub enum Note {
    /// OnNext.
    Next(Item),
    /// OnCompleted, a terminal.
    Completed,
    /// OnError with what went wrong, a terminal.
    Failed(Text),
}

impl Note {
    /// The error by which an overflow ends an observer under `Bounded`. Its text takes no memory.
    pub fn overflow(alloc: Heap) -> Result<Note, Memory>
        ensures { IfOk result (λ note. note ≡ overflow) }
    {
        Ok(Note::Failed(Text::of_line(alloc, b"OVERFLOW")?))
    }

    /// An equal note, whose text is a copy (`Text::copy`).
    pub fn copy(&self) -> Result<Note, Memory>
        ensures { IfOk result (λ note. note ≡ self.now) }
    {
        match self {
            Note::Next(item) => Ok(Note::Next(item.copy()?)),
            Note::Completed => Ok(Note::Completed),
            Note::Failed(text) => Ok(Note::Failed(text.copy()?)),
        }
    }
}

/// An equal note, or none; its text is a copy (`Text::copy`).
pub fn copy_of(note: &Option<Note>) -> Result<Option<Note>, Memory>
    ensures { IfOk result (λ copy. copy ≡ note.now) }
{
    match note {
        Some(note) => Ok(Some(note.copy()?)),
        None => Ok(None),
    }
}
