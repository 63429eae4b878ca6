ghost use Rattle.std.specs.Prelude.{◌≡◌, length, nat_le, true, false};
ghost use Rattle.hazoxe_c.specs.Taking.{head_of, text_of, written};

use rx_note::{Given, Note};

/// What a program in C is told of a note, beside its text.
#[repr(C)]
#[derive(Clone, Copy)]
pub struct NoteHead {
    /// The number of the observer that it was given to.
    pub observer: u32,
    /// 0: an item. 1: completion. 2: an error.
    pub kind: u32,
    /// Of an item: the port that it came by. Else 0.
    pub port: u32,
    /// Of an item: its place, which is how many items its subject accepted before it. Else 0.
    pub place: u32,
    /// How many bytes its text has. A completion has none.
    pub length: usize,
}

/// A note as a program in C is told of it.
pub struct ToldNote<'a> {
    pub head: NoteHead,
    pub text: &'a [u8],
}

/// What is told of a note that was given. A completion has a text of no bytes.
#[inline(always)] // once for each note
pub fn told_note(given: &Given) -> ToldNote<'_>
    ensures head { result.head ≡ head_of given.now }
    ensures text { result.text.now ≡ text_of given.now.note }
    ensures length { result.head.length ≡ length (text_of given.now.note) }
{
    let observer = given.who;
    match &given.note {
        Note::Next(item) => {
            let text = item.text.as_bytes();
            let head = NoteHead {
                observer,
                kind: 0,
                port: item.from,
                place: item.place,
                length: text.len(),
            };
            ToldNote { head, text }
        }
        Note::Completed => {
            let head = NoteHead {
                observer,
                kind: 1,
                port: 0,
                place: 0,
                length: 0,
            };
            ToldNote { head, text: b"" }
        }
        Note::Failed(text) => {
            let text = text.as_bytes();
            let head = NoteHead {
                observer,
                kind: 2,
                port: 0,
                place: 0,
                length: text.len(),
            };
            ToldNote { head, text }
        }
    }
}

/// Writes a text to the front of a buffer, where it has room. Whether it did so.
#[inline(always)] // once for each note
pub fn write_text(text: &[u8], buffer: &mut [u8]) -> bool
    ensures fits { result ≡ nat_le (length text.now) (length buffer.old) }
    ensures written { result ≡ true → buffer.new ≡ written text.now buffer.old }
    ensures kept { result ≡ false → buffer.new ≡ buffer.old }
{
    if text.len() > buffer.len() {
        return false;
    }
    buffer[..text.len()].copy_from_slice(text);
    true
}
