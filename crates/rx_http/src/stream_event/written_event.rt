// The bytes of an event.
ghost use Rattle.std.specs.Prelude.{◌≡◌, ◌+◌, ◌≤◌, ◌++◌, decimal, drop, length, Option, Some, true};
ghost use Rattle.rx_proto.specs.Bytes.{Writes};
ghost use Rattle.base64.specs.Engines.{standard};
ghost use Rattle.base64.specs.GeneralPurpose.{encode_of};
ghost use Rattle.rx_http.specs.Events.{IsShort, event_bytes, item_bytes, saying_of, text_by};
ghost use Rattle.rx_http.specs.Ids.{id_bytes, over_word, place_digits};
ghost use Rattle.rx_http.specs.Laws.{IsPlace};
ghost use Rattle.rx_http.specs.Pieces.{heartbeat_line, id_line, kind_line, retry_line, text_lines};

use crate::stream_event::lines::{failed_line, is_line, is_text, next_line};
use crate::{Epoch, StreamEvent};
use base64::engine::general_purpose::STANDARD;
use rx_note::{Item, Text};
use rx_proto::{MAX_DIGITS, WriteFault, write_bytes, write_digits};
use std::io::Write;

// The most bytes of a text whose event goes by one write.
const SHORT_TEXT: usize = 120;

// The most bytes of the event of an item with such a text.
const SHORT_EVENT: usize = 172;

// The most bytes that a text has in base64.
const MAX_CODED: usize = 1368;

/// Writes the line that says after how many milliseconds a reader that was cut comes again. After a fault the writer has a prefix
/// of it.
pub fn write_retry<W: Write>(writer: &mut W, ms: u32) -> Result<(), WriteFault>
    ensures { Writes result (W.contents writer.old) (W.contents writer.new) (retry_line ms) }
{
    write_bytes(writer, b"retry: ")?;
    write_number(writer, ms)?;
    write_bytes(writer, b"\n")
}

/// Writes a line that tells nothing, so that a connection on which nothing comes isn't taken for a dead one. After a fault the
/// writer has a prefix of it.
pub fn write_heartbeat<W: Write>(writer: &mut W) -> Result<(), WriteFault>
    ensures { Writes result (W.contents writer.old) (W.contents writer.new) heartbeat_line }
{
    write_bytes(writer, b":\n")
}

/// Writes an event of the server's epoch, that of an item with a short text by one write, and another one by several: a writer whose
/// writes are dear gathers them. A text that is no UTF-8 goes in base64. It takes no memory of its own. After a fault the writer has a
/// prefix of the event.
#[inline(always)] // which event it is is known where it is written
pub fn write_event<W: Write>(
    writer: &mut W,
    epoch: &Epoch,
    event: StreamEvent<'_>,
) -> Result<(), WriteFault>
    ensures { Writes result (W.contents writer.old) (W.contents writer.new) (event_bytes epoch.now event.entry) }
{
    match event {
        StreamEvent::Next(item) => write_item(writer, epoch, item),
        _ => write_pieces(writer, epoch, event),
    }
}

// Writes the event of an item.
#[inline(never)] // so that another event makes no room for it
fn write_item<W: Write>(writer: &mut W, epoch: &Epoch, item: &Item) -> Result<(), WriteFault>
    ensures { Writes result (W.contents writer.old) (W.contents writer.new) (item_bytes epoch.now item.now) }
{
    if is_short(item) {
        write_short(writer, epoch, item)
    } else {
        write_pieces(writer, epoch, StreamEvent::Next(item))
    }
}

// Whether the event of an item goes by one write: its text is short and told as itself on one line.
fn is_short(item: &Item) -> bool
    ensures { result ≡ true → IsShort item.now }
{
    item.text.as_bytes().len() <= SHORT_TEXT && !item.is_seed() && is_line(&item.text)
}

// Writes such an event, the commonest by far.
fn write_short<W: Write>(writer: &mut W, epoch: &Epoch, item: &Item) -> Result<(), WriteFault>
    requires { IsShort item.now }
    ensures { Writes result (W.contents writer.old) (W.contents writer.new) (item_bytes epoch.now item.now) }
{
    let mut event = [0; SHORT_EVENT];
    let end = put_before(&mut event, SHORT_EVENT, b"\n\n");
    let text = put_before(&mut event, end, item.text.as_bytes());
    let kind = put_before(&mut event, text, b"\nevent: next\ndata: ");
    let place = itoa::write_digits(u64::from(item.place), &mut event, kind);
    let hyphen = put_before(&mut event, place, b"-");
    let start = put_before(&mut event, hyphen, epoch.as_bytes());
    let first = put_before(&mut event, start, b"id: ");
    write_bytes(writer, &event[first..])
}

// Puts a piece so that it ends there. Where it begins.
#[inline(always)] // so that a piece of fixed size is copied by that
fn put_before(bytes: &mut [u8], end: usize, piece: &[u8]) -> usize
    requires { (length piece.now ≤ end) × (end ≤ length bytes.old) }
    ensures start { result + length piece.now ≡ end }
    ensures put { drop result bytes.new ≡ piece.now ++ drop end bytes.old }
{
    let start = end - piece.len();
    bytes[start..end].copy_from_slice(piece);
    start
}

// Writes an event piece by piece.
#[inline(never)] // so that a short one makes no room for it
fn write_pieces<W: Write>(
    writer: &mut W,
    epoch: &Epoch,
    event: StreamEvent<'_>,
) -> Result<(), WriteFault>
    ensures { Writes result (W.contents writer.old) (W.contents writer.new) (event_bytes epoch.now event.entry) }
{
    write_head(writer, epoch, event)?;
    write_text(writer, epoch, event)?;
    write_bytes(writer, b"\n\n")
}

// Writes what stands before the text of an event.
fn write_head<W: Write>(
    writer: &mut W,
    epoch: &Epoch,
    event: StreamEvent<'_>,
) -> Result<(), WriteFault>
    ensures { Writes result (W.contents writer.old) (W.contents writer.new) (id_line (saying_of epoch.now event.entry).id ++ kind_line (saying_of epoch.now event.entry).kind) }
{
    match event {
        StreamEvent::Joined { who: _, known } => {
            write_id_line(writer, epoch, known, false, b"event: joined\ndata: ")
        }
        StreamEvent::Next(item) if item.is_seed() => write_bytes(writer, next_line(&item.text)),
        StreamEvent::Next(item) => {
            write_id_line(
                writer,
                epoch,
                Some(item.place),
                false,
                next_line(&item.text),
            )
        }
        StreamEvent::Missed { count: _, last } => {
            write_id_line(writer, epoch, Some(last), false, b"event: missed\ndata: ")
        }
        StreamEvent::Restarted { sent: _ } => {
            write_id_line(writer, epoch, None, false, b"event: restarted\ndata: ")
        }
        StreamEvent::Completed { known } => {
            write_id_line(writer, epoch, known, true, b"event: done\ndata: ")
        }
        StreamEvent::Failed { text, known } => {
            write_id_line(writer, epoch, known, true, failed_line(text))
        }
        StreamEvent::Overflowed => write_bytes(writer, b"event: overflow\ndata: "),
    }
}

// Writes the text of an event.
fn write_text<W: Write>(
    writer: &mut W,
    epoch: &Epoch,
    event: StreamEvent<'_>,
) -> Result<(), WriteFault>
    ensures { Writes result (W.contents writer.old) (W.contents writer.new) (text_lines (saying_of epoch.now event.entry).text) }
{
    match event {
        StreamEvent::Joined { who, known: _ } => write_id(writer, epoch, Some(who), false),
        StreamEvent::Next(item) => write_words(writer, &item.text),
        StreamEvent::Missed { count, last: _ } => write_number(writer, count),
        StreamEvent::Restarted { sent } => { write_id(writer, &sent.epoch, sent.place, sent.over) }
        StreamEvent::Failed { text, known: _ } => write_words(writer, text),
        StreamEvent::Completed { known: _ } | StreamEvent::Overflowed => Ok(()),
    }
}

// Writes the line of an id, which is told by its parts, and that of a kind behind it.
fn write_id_line<W: Write>(
    writer: &mut W,
    epoch: &Epoch,
    place: Option<u32>,
    over: bool,
    kind: &[u8],
) -> Result<(), WriteFault>
    ensures { Writes result (W.contents writer.old) (W.contents writer.new) (id_line (Some (id_bytes epoch.now place over)) ++ kind.now) }
{
    write_bytes(writer, b"id: ")?;
    write_id(writer, epoch, place, over)?;
    write_bytes(writer, b"\n")?;
    write_bytes(writer, kind)
}

// Writes an id, by its parts. No byte of it ends a line.
fn write_id<W: Write>(
    writer: &mut W,
    epoch: &Epoch,
    place: Option<u32>,
    over: bool,
) -> Result<(), WriteFault>
    ensures bytes { Writes result (W.contents writer.old) (W.contents writer.new) (id_bytes epoch.now place over) }
    ensures plain { text_lines (id_bytes epoch.now place over) ≡ id_bytes epoch.now place over }
{
    let mut digits = [0; MAX_DIGITS];
    let start = put_place(place, &mut digits);
    write_bytes(writer, epoch.as_bytes())?;
    write_bytes(writer, b"-")?;
    write_bytes(writer, &digits[start..])?;
    write_bytes(writer, end_of_id(over))
}

// Puts the digits of a place, if there is one, at the end of the array. Where they begin.
fn put_place(place: Option<u32>, digits: &mut [u8; MAX_DIGITS]) -> usize
    ensures digits { drop result digits.new ≡ place_digits place }
    ensures within { result ≤ 10 }
    ensures fits { IsPlace place }
{
    match place {
        Some(place) => write_digits(place, digits),
        None => MAX_DIGITS,
    }
}

// How an id ends.
fn end_of_id(over: bool) -> &'static [u8]
    ensures { result.now ≡ over_word over }
{
    if over { b"-over" } else { b"" }
}

// Writes a number. No digit ends a line.
fn write_number<W: Write>(writer: &mut W, number: u32) -> Result<(), WriteFault>
    ensures bytes { Writes result (W.contents writer.old) (W.contents writer.new) (decimal number) }
    ensures plain { text_lines (decimal number) ≡ decimal number }
{
    let mut digits = [0; MAX_DIGITS];
    let start = write_digits(number, &mut digits);
    write_bytes(writer, &digits[start..])
}

// Writes a text of a subject, as itself or in base64.
fn write_words<W: Write>(writer: &mut W, text: &Text) -> Result<(), WriteFault>
    ensures { Writes result (W.contents writer.old) (W.contents writer.new) (text_lines (text_by text.now)) }
{
    if is_text(text) {
        write_lines(writer, text.as_bytes())
    } else {
        write_coded(writer, text)
    }
}

// Writes a text in base64.
fn write_coded<W: Write>(writer: &mut W, text: &Text) -> Result<(), WriteFault>
    ensures { Writes result (W.contents writer.old) (W.contents writer.new) (encode_of standard text.now) }
{
    let mut coded = [0; MAX_CODED];
    match STANDARD.encode_slice(text.as_bytes(), &mut coded) {
        Ok(len) => write_bytes(writer, &coded[..len]),
        Err(_) => Err(WriteFault),
    }
}

// Writes a text behind its first `data: `: it has no LF, so that its CR is told as the end of a line.
fn write_lines<W: Write>(writer: &mut W, text: &[u8]) -> Result<(), WriteFault>
    ensures { Writes result (W.contents writer.old) (W.contents writer.new) (text_lines text.now) }
{
    let mut start = 0;
    for (i, byte) in text.iter().enumerate() {
        if *byte == b'\r' {
            write_bytes(writer, &text[start..i])?;
            write_bytes(writer, b"\ndata: ")?;
            start = i + 1;
        }
    }
    write_bytes(writer, &text[start..])
}
