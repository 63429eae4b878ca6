// What is taken of a line of a script that was read: first the name of its subject, and then its event, whose text is made
// over what memory that subject has.
ghost use Rattle.std.specs.Prelude.{◌≡◌, ℕ, true, Some, IfOk};
ghost use Rattle.rx_proto.specs.Grammar.{IsSpelled, IsText};
ghost use Rattle.rx_proto.specs.Reading.{meaning_of};
ghost use Rattle.rx_script.specs.Asking.{MakesEvent, name_asked, names_subject};
ghost use Rattle.rx_script.specs.Transcripts.{asked_at};

use rx_heap::{Heap, Memory};
use rx_note::{Event, Item, Note, Policy, Text};
use rx_proto::Line;

/// The name of the subject of which a line asks something.
#[inline(always)] // once for each line of a script
pub(crate) fn name_in<'a>(line: &Line<'a>) -> &'a [u8]
    requires { names_subject (meaning_of line.now) ≡ true }
    ensures { (moment : ℕ) → name_asked (asked_at moment (meaning_of line.now)) ≡ Some result.now }
{
    match line {
        Line::Pub { name, .. } => name,
        Line::End { name } => name,
        Line::Fail { name, .. } => name,
        Line::Sub { name, .. } => name,
        Line::Join { name, .. } => name,
        Line::Request { name, .. } => name,
        Line::Dispose { name, .. } => name,
        Line::Hello(_) | Line::Quit | Line::At(_) => unreachable!(),
    }
}

/// The event for which a line asks, at a moment in milliseconds. Its text is made over `heap`; where nothing is counted there, it
/// is the spare one if that has room for the bytes.
#[inline(always)] // once for each line of a script
pub(crate) fn event_in(
    heap: &Heap,
    spare: &mut Option<Text>,
    line: &Line<'_>,
    moment: u64,
) -> Result<Event, Memory>
    requires spelled { IsSpelled (meaning_of line.now) }
    requires named { names_subject (meaning_of line.now) ≡ true }
    ensures { MakesEvent result (asked_at moment (meaning_of line.now)) }
{
    match line {
        Line::Pub { text, .. } => {
            let text = text_of(heap, spare, text)?;
            Ok(emitted(Note::Next(Item::new(text)), moment))
        }
        Line::Fail { text, .. } => {
            let text = text_of(heap, spare, text)?;
            Ok(emitted(Note::Failed(text), moment))
        }
        Line::End { .. } => Ok(emitted(Note::Completed, moment)),
        Line::Sub { policy, .. } => Ok(joined(*policy, 0, moment)),
        Line::Join { policy, first, .. } => Ok(joined(*policy, *first, moment)),
        Line::Request { who, n, .. } => Ok(Event::Request { who: *who, n: *n }),
        Line::Dispose { who, .. } => Ok(Event::Dispose { who: *who }),
        Line::Hello(_) | Line::Quit | Line::At(_) => unreachable!(),
    }
}

#[inline(always)] // so that the event is made in its place
fn emitted(note: Note, at: u64) -> Event
    ensures { result ≡ Event.Emit note at }
{
    Event::Emit { note, at }
}

#[inline(always)] // so that the event is made in its place
fn joined(policy: Policy, first: u32, at: u64) -> Event
    ensures { result ≡ Event.Join policy first at }
{
    Event::Join { policy, first, at }
}

// The text of these bytes, which are one. A block that another subject paid for is of no use where this one has a limit: a hub
// asks its heap when it is made, so what was asked of a heap with a limit is more than nothing.
#[inline(always)] // so that a short text is made in its place
fn text_of(heap: &Heap, spare: &mut Option<Text>, bytes: &[u8]) -> Result<Text, Memory>
    requires { IsText bytes.now }
    ensures { IfOk result (λ text. text ≡ bytes.now) }
{
    if spare.is_some()
        && heap.asked() == 0
        && let Some(mut text) = spare.take()
        && text.refill(bytes)
    {
        return Ok(text);
    }
    Text::of_line(heap.clone()?, bytes)
}
