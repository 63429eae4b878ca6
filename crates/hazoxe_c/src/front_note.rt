// The calls of the library that look at what was given, or take it.
ghost use Rattle.std.specs.Prelude.{◌≡◌};
ghost use Rattle.hazoxe_c.specs.Asking.{Serves};
ghost use Rattle.hazoxe_c.specs.Batches.{TakesMany};
ghost use Rattle.hazoxe_c.specs.Taking.{Peeks, TakesFirst};

use crate::fault::{Fault, code};
use crate::note_head::NoteHead;
use crate::subject::Subject;
use crate::taken::Taken;
use std::alloc::Global;

/// Tells of the first note that was given and not taken yet, which stays. Refused in the order `NoSubject`, `NothingGiven`; then
/// `note` stays as it was.
#[unsafe(no_mangle)]
pub extern "C" fn hazoxe_proved_peek(
    alloc: Global,
    subject: &mut Subject,
    note: &mut NoteHead,
) -> u32
    ensures { Serves subject.old.handle.value subject.new.handle.value result (note.new ≡ note.old) (Peeks note.old note.new) }
{
    let Some(desk) = subject.take(alloc) else {
        return code(Err(Fault::NoSubject));
    };
    let told = desk.peek(note);
    subject.put(desk);
    code(told)
}

/// Tells of the first note that was given and not taken yet, writes its text to the front of the buffer, and takes it. Refused
/// in the order `NoSubject`, `NothingGiven`, `BufferTooSmall`: by this one the note is told of and stays, and the buffer too.
#[unsafe(no_mangle)]
pub extern "C" fn hazoxe_proved_take(
    alloc: Global,
    subject: &mut Subject,
    note: &mut NoteHead,
    buffer: &mut [u8],
) -> u32
    ensures { Serves subject.old.handle.value subject.new.handle.value result ((note.new ≡ note.old) × (buffer.new ≡ buffer.old))
        (TakesFirst note.old note.new buffer.old buffer.new) }
{
    let Some(mut desk) = subject.take(alloc) else {
        return code(Err(Fault::NoSubject));
    };
    let told = desk.take(note, buffer);
    subject.put(desk);
    code(told)
}

/// Takes the first notes that were given and not taken yet, of as many as there are heads for and bytes for the texts: tells of
/// each in its head, writes the texts one behind the other to the front of the buffer, and to `taken` how many they are, which is
/// none where there is no note, or no room for the first. What then stands in the buffer behind the texts is of no meaning.
/// `NoSubject` where there is none; then all stays as it was.
#[unsafe(no_mangle)]
pub extern "C" fn hazoxe_proved_take_many(
    alloc: Global,
    subject: &mut Subject,
    notes: &mut [NoteHead],
    buffer: &mut [u8],
    taken: &mut Taken,
) -> u32
    ensures { Serves subject.old.handle.value subject.new.handle.value result
        ((notes.new ≡ notes.old) × (buffer.new ≡ buffer.old) × (taken.new ≡ taken.old))
        (TakesMany taken.new notes.old notes.new buffer.old buffer.new) }
{
    let Some(mut desk) = subject.take(alloc) else {
        return code(Err(Fault::NoSubject));
    };
    let told = desk.take_many(notes, buffer, taken);
    subject.put(desk);
    code(told)
}
