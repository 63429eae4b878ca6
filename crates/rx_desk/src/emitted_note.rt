// A note that is asked for by its kind and its text, and what its emission is answered.
ghost use Rattle.std.specs.Prelude.{◌≡◌, ◌≤◌, IfOk, MatchResult, false, length, nat_eq};
ghost use Rattle.std.specs.List.{list_any};
ghost use Rattle.rx_desk.specs.EmittedNotes.{IsRefusedNote, IsRefusedText, cause_in, emitted_by, emitted_in, note_of, place_in};

use rx_heap::{Heap, Memory};
use rx_http::{NoteKind, Refusal};
use rx_note::{Answer, Item, Note, Text};
use rx_pump::{CallError, Reply};

// The most bytes that a text has.
const MAX_TEXT: usize = 1024;

const LF: u8 = b'\n';

/// The note of this kind and text, which takes this memory. A completion has no text. Refused in the order `Long`, `Lf`, `Memory`.
pub(crate) fn note_of(alloc: &Heap, kind: NoteKind, text: &[u8]) -> Result<Note, Refusal>
    ensures { MatchResult result (λ note. note ≡ note_of kind text.now) (IsRefusedNote kind text.now) }
{
    match kind {
        NoteKind::Next => Ok(Note::Next(Item::new(text_of(alloc, text)?))),
        NoteKind::Completed => Ok(Note::Completed),
        NoteKind::Failed => Ok(Note::Failed(text_of(alloc, text)?)),
    }
}

// The text of these bytes.
fn text_of(alloc: &Heap, bytes: &[u8]) -> Result<Text, Refusal>
    ensures { MatchResult result (λ text. text ≡ bytes.now) (IsRefusedText bytes.now) }
{
    if bytes.len() > MAX_TEXT {
        return Err(Refusal::Long);
    }
    if bytes.contains(&LF) {
        return Err(Refusal::Lf);
    }
    match text_over(alloc, bytes) {
        Ok(text) => Ok(text),
        Err(_) => Err(Refusal::Memory),
    }
}

// The text of bytes that are one.
fn text_over(alloc: &Heap, bytes: &[u8]) -> Result<Text, Memory>
    requires within { length bytes.now ≤ 1024 }
    requires no_lf { list_any (λ b. nat_eq b 10) bytes.now ≡ false }
    ensures { IfOk result (λ text. text ≡ bytes.now) }
{
    Text::of_line(alloc.clone()?, bytes)
}

/// What the emission of a note of this kind is answered whose call was answered so.
pub(crate) fn emitted_by<S>(
    kind: NoteKind,
    answered: &Result<Reply<S>, CallError<S>>,
) -> Result<Option<u32>, Refusal>
    ensures { result ≡ emitted_by kind answered.now }
{
    match answered {
        Ok(reply) => emitted_in(kind, reply.result, reply.items),
        Err(_) => Err(Refusal::Gone),
    }
}

// The same by what its subject answered, and how many items that had accepted by then.
fn emitted_in(
    kind: NoteKind,
    answered: Result<Answer, rx_note::Refusal>,
    items: u32,
) -> Result<Option<u32>, Refusal>
    ensures { result ≡ emitted_in kind answered items }
{
    match answered {
        Ok(Answer::Admitted) => Ok(place_in(kind, items)),
        Ok(Answer::Joined(_) | Answer::Asked | Answer::Left) => Err(Refusal::Gone),
        Err(cause) => Err(cause_in(cause)),
    }
}

// The place of a note of this kind, where so many items were accepted by it.
fn place_in(kind: NoteKind, items: u32) -> Option<u32>
    ensures { result ≡ place_in kind items }
{
    match kind {
        NoteKind::Next => Some(items.saturating_sub(1)),
        NoteKind::Completed | NoteKind::Failed => None,
    }
}

// Why an emission is refused that its subject refused so.
fn cause_in(refused: rx_note::Refusal) -> Refusal
    ensures { result ≡ cause_in refused }
{
    match refused {
        rx_note::Refusal::Ended => Refusal::Ended,
        rx_note::Refusal::Spent => Refusal::Spent,
        rx_note::Refusal::Memory => Refusal::Memory,
        rx_note::Refusal::Full
        | rx_note::Refusal::ZeroRequest
        | rx_note::Refusal::NoObserver
        | rx_note::Refusal::TooMuch => Refusal::Gone,
    }
}
