// Notes of one call, told together: a head for each, and the bytes of their texts in one block.
ghost use Rattle.std.specs.Prelude.{◌≡◌, ◌≤◌, length, take};
ghost use Rattle.hazoxe_c.specs.Batches.{Appended, Tells};
ghost use Rattle.hazoxe_c.specs.Taking.{text_of};
ghost use Rattle.rx_note.specs.Fronts.{front_bytes, IsFront};

use crate::note_head::{NoteHead, ToldNote, told_note};
use crate::taken::Taken;
use rx_note::{Front, Given, Note};

/// Tells of the first of these notes, of as many as there are heads for and bytes for the texts, which are written one behind
/// the other to the front of the buffer. What stands behind them there is then of no meaning. How many they are, and how many
/// bytes.
pub fn tell_all(notes: &[Given], heads: &mut [NoteHead], buffer: &mut [u8]) -> Taken
    ensures { Tells notes.now result heads.old heads.new buffer.old buffer.new }
{
    let most = notes.len().min(heads.len());
    let mut used = 0;
    for i in 0..most {
        let given = &notes[i];
        let ToldNote { head, text: _ } = told_note(given);
        let end = append(&given.note, buffer, used);
        if end > buffer.len() {
            return Taken {
                notes: i,
                bytes: end - head.length, // as `used`, which so isn't held past its end
            };
        }
        heads[i] = head;
        used = end;
    }
    Taken {
        notes: most,
        bytes: used,
    }
}

// Writes the text of a note behind the first `used` bytes of a buffer, where it has room. Where the text ends, or would.
#[inline(always)] // once for each note
fn append(note: &Note, buffer: &mut [u8], used: usize) -> usize
    requires { used ≤ length buffer.old }
    ensures { Appended (text_of note.now) used result buffer.old buffer.new }
{
    match note {
        Note::Next(item) => append_front(item.text.front(), buffer, used),
        Note::Completed => used,
        Note::Failed(text) => append_front(text.front(), buffer, used),
    }
}

// The same of a text.
#[inline(always)] // once for each note
fn append_front(text: Front<'_>, buffer: &mut [u8], used: usize) -> usize
    requires within { used ≤ length buffer.old }
    requires front { IsFront text }
    requires most { length (front_bytes text) ≤ 1024 }
    ensures { Appended (front_bytes text.entry) used result buffer.old buffer.new }
{
    match text {
        Front::UpTo20(bytes, len) => append_padded(bytes, len, buffer, used),
        Front::UpTo56(bytes, len) => append_padded(bytes, len, buffer, used),
        Front::Whole(bytes) => append_bytes(bytes, buffer, used),
    }
}

// The same of the first of these bytes, so many. Where the buffer has room for all of them, that is a copy of fixed size, which
// is quicker; of a value of its own, so that it is seen to lie apart from the buffer.
#[inline(always)] // so that the copy is one of fixed size
fn append_padded<const N: usize>(
    bytes: &[u8; N],
    len: usize,
    buffer: &mut [u8],
    used: usize,
) -> usize
    requires within { used ≤ length buffer.old }
    requires front { len ≤ N }
    requires most { len ≤ 1024 }
    ensures { Appended (take len bytes.now) used result buffer.old buffer.new }
{
    if N > buffer.len() - used {
        return append_bytes(&bytes[..len], buffer, used);
    }
    let padded = *bytes;
    buffer[used..used + N].copy_from_slice(padded.as_slice());
    used + len
}

// The same of bytes.
#[inline(never)] // few texts go this way
fn append_bytes(bytes: &[u8], buffer: &mut [u8], used: usize) -> usize
    requires within { used ≤ length buffer.old }
    requires most { length bytes.now ≤ 1024 }
    ensures { Appended bytes.now used result buffer.old buffer.new }
{
    let end = used + bytes.len();
    if end <= buffer.len() {
        buffer[used..end].copy_from_slice(bytes);
    }
    end
}
