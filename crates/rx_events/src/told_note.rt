// How a stream begins, and how a note is told in it.
ghost use Rattle.std.specs.Prelude.{◌≡◌, ◌<◌, ◌≤◌, ◌+◌, None, Some};
ghost use Rattle.rx_proto.specs.Bytes.{Writes};
ghost use Rattle.rx_events.specs.Telling.{begin_bytes, begin_events, is_overflow, item_events, note_events, told_bytes};

use crate::Standing;
use rx_http::{Answer, Begin, Epoch, StreamEvent, write_answer, write_event, write_retry};
use rx_note::{Item, Note, Text};
use rx_proto::WriteFault;
use std::io::Write;

// After how many milliseconds a reader that was cut comes again.
const RETRY: u32 = 1000;

/// Writes what stands before the first note: the head of the answer, when to come again, whether the server began anew, and as whom
/// its reader hears.
pub(crate) fn write_begin<W: Write>(
    writer: &mut W,
    epoch: &Epoch,
    begin: &Begin,
    known: Option<u32>,
    who: u32,
) -> Result<(), WriteFault>
    ensures { Writes result (W.contents writer.old) (W.contents writer.new) (begin_bytes epoch.now begin.now known who) }
{
    write_answer(writer, Answer::Events)?;
    write_retry(writer, RETRY)?;
    write_joined(writer, epoch, begin, known, who)
}

// Writes the events with which a stream begins.
fn write_joined<W: Write>(
    writer: &mut W,
    epoch: &Epoch,
    begin: &Begin,
    known: Option<u32>,
    who: u32,
) -> Result<(), WriteFault>
    ensures { Writes result (W.contents writer.old) (W.contents writer.new) (told_bytes epoch.now (begin_events begin.now known who)) }
{
    let joined = StreamEvent::Joined { who, known };
    match begin {
        Begin::Restarted(sent) => {
            write_event(writer, epoch, StreamEvent::Restarted { sent })?;
            write_event(writer, epoch, joined)
        }
        Begin::Fresh | Begin::Behind(_) => write_event(writer, epoch, joined),
    }
}

/// Writes the events of a note.
pub(crate) fn write_note<W: Write>(
    writer: &mut W,
    epoch: &Epoch,
    standing: Standing,
    note: &Note,
) -> Result<(), WriteFault>
    ensures { Writes result (W.contents writer.old) (W.contents writer.new) (told_bytes epoch.now (note_events standing note.now)) }
{
    let known = standing.known;
    match note {
        Note::Next(item) => write_item(writer, epoch, standing.left_out(item), item),
        Note::Completed => write_event(writer, epoch, StreamEvent::Completed { known }),
        Note::Failed(text) if is_overflow(standing.bounded, text) => {
            write_event(writer, epoch, StreamEvent::Overflowed)
        }
        Note::Failed(text) => write_event(writer, epoch, StreamEvent::Failed { text, known }),
    }
}

// Writes the events of an item behind so many that are left out; none, where its reader knows already what became of it.
fn write_item<W: Write>(
    writer: &mut W,
    epoch: &Epoch,
    left: Option<u32>,
    item: &Item,
) -> Result<(), WriteFault>
    ensures { Writes result (W.contents writer.old) (W.contents writer.new) (told_bytes epoch.now (item_events left item.now)) }
{
    match left {
        None => Ok(()),
        Some(count) => write_behind(writer, epoch, count, item),
    }
}

// Writes how many items are left out before this one, if any are, and the item.
fn write_behind<W: Write>(
    writer: &mut W,
    epoch: &Epoch,
    count: u32,
    item: &Item,
) -> Result<(), WriteFault>
    ensures { Writes result (W.contents writer.old) (W.contents writer.new) (told_bytes epoch.now (item_events (Some count) item.now)) }
{
    if count == 0 {
        return write_event(writer, epoch, StreamEvent::Next(item));
    }
    let last = item.place.saturating_sub(1);
    write_event(writer, epoch, StreamEvent::Missed { count, last })?;
    write_event(writer, epoch, StreamEvent::Next(item))
}

// Whether an error says that its observer overflowed, where it may.
fn is_overflow(bounded: bool, text: &Text) -> bool
    ensures { result ≡ is_overflow bounded text.now }
{
    bounded && text.as_bytes() == b"OVERFLOW".as_slice()
}
