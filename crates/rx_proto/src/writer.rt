// Lines, written to a writer.
ghost use Rattle.std.specs.Prelude.{◌++◌, ◌≤◌, length};
ghost use Rattle.rx_proto.specs.Bytes.{Writes};
ghost use Rattle.rx_proto.specs.Printing.{joined_line, line, note_line, reply_line};

use crate::line_bytes::LineBytes;
use crate::printer::{
    MIDDLING_LINE, MIDDLING_TEXT, SHORT_LINE, SHORT_TEXT, item_origin, joined_line, put_note,
    put_placed, reply_line, text_len,
};
use crate::{Response, Version};
use rx_note::{Item, Note, Text};
use std::error::Error;
use std::fmt;
use std::io::Write;

/// A writer did not take what was written. It has a prefix of that.
#[derive(Clone, Copy, Debug, PartialEq, Eq)]
pub struct WriteFault;

impl fmt::Display for WriteFault {
    fn fmt<W: fmt::Write>(&self, f: &mut fmt::Formatter<W>) -> fmt::Result {
        f.write_str("the writer did not take all")
    }
}

impl Error for WriteFault {}

/// Writes the line of a response.
pub fn write_reply<W: Write>(writer: &mut W, response: Response) -> Result<(), WriteFault>
    ensures { Writes result (W.contents writer.old) (W.contents writer.new) (reply_line response) }
{
    write_bytes(writer, reply_line(response).as_bytes())
}

/// Writes the line that tells an observer its number.
pub fn write_joined<W: Write>(writer: &mut W, who: u32) -> Result<(), WriteFault>
    ensures { Writes result (W.contents writer.old) (W.contents writer.new) (joined_line who) }
{
    write_bytes(writer, joined_line(who).as_bytes())
}

/// Writes the line of a note in a version.
pub fn write_note<W: Write>(writer: &mut W, note: &Note, version: Version) -> Result<(), WriteFault>
    ensures { Writes result (W.contents writer.old) (W.contents writer.new) (note_line version note.now) }
{
    match version {
        Version::One => write_plain(writer, note),
        Version::Two => write_placed(writer, note),
    }
}

// Writes the line of a note in the first version.
fn write_plain<W: Write>(writer: &mut W, note: &Note) -> Result<(), WriteFault>
    ensures { Writes result (W.contents writer.old) (W.contents writer.new) (note_line Version.One note.now) }
{
    let len = text_len(note);
    if len <= SHORT_TEXT {
        let mut line = LineBytes::<SHORT_LINE>::new();
        put_note(&mut line, note);
        write_bytes(writer, line.as_bytes())
    } else if len <= MIDDLING_TEXT {
        write_middling(writer, note)
    } else {
        write_long(writer, note)
    }
}

// Writes the line of a note with a text of middling length in the first version. It is put together as well: a writer that gathers
// takes longer for three writes than the text to be copied twice.
#[inline(never)] // so that a short one makes no room for it
fn write_middling<W: Write>(writer: &mut W, note: &Note) -> Result<(), WriteFault>
    requires { length (note_line Version.One note.now) ≤ 284 }
    ensures { Writes result (W.contents writer.old) (W.contents writer.new) (note_line Version.One note.now) }
{
    let mut line = LineBytes::<MIDDLING_LINE>::new();
    put_note(&mut line, note);
    write_bytes(writer, line.as_bytes())
}

// Writes the line of a note with a long text in the first version. Its bytes go to the writer from where they stand.
#[inline(never)] // so that a short one makes no room for it
fn write_long<W: Write>(writer: &mut W, note: &Note) -> Result<(), WriteFault>
    ensures { Writes result (W.contents writer.old) (W.contents writer.new) (note_line Version.One note.now) }
{
    match note {
        Note::Next(item) => write_text(writer, b"NEXT ", &item.text),
        Note::Completed => write_bytes(writer, b"DONE\n"),
        Note::Failed(text) => write_text(writer, b"FAILED ", text),
    }
}

// Writes a text behind a word, and an LF.
fn write_text<W: Write>(writer: &mut W, word: &[u8], text: &Text) -> Result<(), WriteFault>
    ensures { Writes result (W.contents writer.old) (W.contents writer.new) (line (word.now ++ text.now)) }
{
    write_bytes(writer, word)?;
    write_bytes(writer, text.as_bytes())?;
    write_bytes(writer, b"\n")
}

// Writes the line of a note in the second version.
#[inline(never)] // so that the first version pays for it with one test alone
fn write_placed<W: Write>(writer: &mut W, note: &Note) -> Result<(), WriteFault>
    ensures { Writes result (W.contents writer.old) (W.contents writer.new) (note_line Version.Two note.now) }
{
    match note {
        Note::Next(item) if item.text.as_bytes().len() <= SHORT_TEXT => {
            let mut line = LineBytes::<SHORT_LINE>::new();
            put_placed(&mut line, item);
            write_bytes(writer, line.as_bytes())
        }
        Note::Next(item) => write_long_item(writer, item),
        _ => write_plain(writer, note),
    }
}

// Writes the line of an item with a long text in the second version.
fn write_long_item<W: Write>(writer: &mut W, item: &Item) -> Result<(), WriteFault>
    ensures { Writes result (W.contents writer.old) (W.contents writer.new) (note_line Version.Two (Note.Next item.now)) }
{
    write_bytes(writer, b"NEXT ")?;
    write_text(writer, item_origin(item).as_bytes(), &item.text)
}

/// Writes all of the bytes. A write that fails or takes none is a fault.
pub fn write_bytes<W: Write>(writer: &mut W, bytes: &[u8]) -> Result<(), WriteFault>
    ensures { Writes result (W.contents writer.old) (W.contents writer.new) bytes.now }
{
    let mut rest = bytes;
    while !rest.is_empty() {
        match writer.write(rest) {
            Ok(0) => return Err(WriteFault),
            Ok(n) => rest = &rest[n..],
            Err(_) => return Err(WriteFault),
        }
    }
    Ok(())
}
