ghost use Rattle.std.specs.Prelude.{◌≡◌, ◌↔◌, ◌≤◌, ◌+◌, ◌*◌, ◌++◌, [], IfOk, IsTrue, OnOk, drop, length, take, true};
ghost use Rattle.std.specs.Io.KnownBytes.{Appends, Keeps};
ghost use Rattle.rx_proto.specs.Bytes.{Writes};
ghost use Rattle.rx_proto.specs.Printing.{note_line, reply_line};
ghost use Rattle.rx_lines.specs.Bytes.{Puts};

use rx_note::{Front, Item, Note, Text};
use rx_proto::{Response, Version, WriteFault, item_origin, refusal_line, reply_line, write_bytes};
use std::io::{ErrorKind, Write};
use std::marker::Model;

/// The bytes that an outbox holds at most.
pub(crate) const BLOCK: usize = 8192;

// The room for any line that is written.
const LINE_ROOM: usize = 2048;

// The room for the line of any response.
const RESPONSE_ROOM: usize = 64;

/// Gathers what is to be written by a writer that stands beside it. It takes no memory. Contracts see an outbox as the
/// list of the bytes that it holds.
#[derive(Drop)]
pub struct Outbox {
    block: [u8; BLOCK],
    len: usize,
}

impl Model for Outbox {
    ghost use Rattle.std.specs.Prelude.{List, ℕ, take, ◌≤◌};

    ghost Value = { List ℕ };

    ghost view = { λ o. take o.len o.block };

    ghost invariant = { λ o. o.len ≤ 8192 };
}

impl Outbox {
    /// The outbox that holds nothing.
    #[inline(always)] // so that its block is made where it stays
    pub fn new() -> Outbox
        ensures { result ≡ [] }
    {
        Outbox {
            block: [0; BLOCK],
            len: 0,
        }
    }

    /// Holds these bytes too, and writes first where there is no room for them. After a fault it holds nothing.
    #[inline] // by far the most bytes find room
    pub fn put<W: Write>(&mut self, writer: &mut W, bytes: &[u8]) -> Result<(), WriteFault>
        ensures { Puts result self.old self.new (W.contents writer.old) (W.contents writer.new) bytes.now }
    {
        if bytes.len() > BLOCK - self.len {
            return self.make_room(writer, bytes);
        }
        self.push(bytes);
        Ok(())
    }

    /// Makes room for 2,048 bytes more, which is more than any line that is written: where there is less, writes what it
    /// holds. After a fault it holds nothing. A line that is pushed in pieces takes one test of room so.
    #[inline] // once for each line, and there is mostly room
    pub fn ready<W: Write>(&mut self, writer: &mut W) -> Result<(), WriteFault>
        ensures puts { Puts result self.old self.new (W.contents writer.old) (W.contents writer.new) [] }
        ensures room { OnOk result (length self.new + 2048 ≤ 8192) }
    {
        if self.has_room() {
            return Ok(());
        }
        self.write_out(writer)
    }

    /// Holds these bytes too, for which there is room.
    #[inline] // so that a piece of fixed size is copied by that
    pub fn push(&mut self, bytes: &[u8])
        requires { length self.old + length bytes.now ≤ 8192 }
        ensures { self.new ≡ self.old ++ bytes.now }
    {
        let len = self.len + bytes.len();
        self.block[self.len..len].copy_from_slice(bytes);
        self.len = len;
    }

    /// Holds the first of these bytes too, so many, and has room for all of them: a copy of fixed size is quicker than one
    /// of the bytes that count.
    #[inline(always)] // so that the copy is one of fixed size
    pub fn push_padded<const N: usize>(&mut self, bytes: &[u8; N], len: usize)
        requires room { length self.old + N ≤ 8192 }
        requires within { len ≤ N }
        ensures { self.new ≡ self.old ++ take len bytes.now }
    {
        self.block[self.len..self.len + N].copy_from_slice(bytes.as_slice());
        self.len += len;
    }

    /// Holds the line of a note in a version too, for which there is room.
    #[inline(always)] // once for each note that a script prints
    pub fn push_note(&mut self, note: &Note, version: Version)
        requires { length self.old + 1062 ≤ 8192 }
        ensures { self.new ≡ self.old ++ note_line version note.now }
    {
        match version {
            Version::One => self.push_plain(note),
            Version::Two => self.push_placed(note),
        }
    }

    // The same in the second version.
    #[inline(never)] // so that the first version pays for it with one test alone
    fn push_placed(&mut self, note: &Note)
        requires { length self.old + 1062 ≤ 8192 }
        ensures { self.new ≡ self.old ++ note_line Version.Two note.now }
    {
        match note {
            Note::Next(item) => self.push_item(item),
            _ => self.push_plain(note),
        }
    }

    // Holds the line of an item in the second version too.
    fn push_item(&mut self, item: &Item)
        requires { length self.old + 1062 ≤ 8192 }
        ensures { self.new ≡ self.old ++ note_line Version.Two (Note.Next item.now) }
    {
        self.push(b"NEXT ");
        self.push(item_origin(item).as_bytes());
        self.push_text(&item.text);
        self.push(b"\n");
    }

    // Holds the line of a note in the first version too.
    #[inline(always)] // a part of `push_note`
    fn push_plain(&mut self, note: &Note)
        requires { length self.old + 1040 ≤ 8192 }
        ensures { self.new ≡ self.old ++ note_line Version.One note.now }
    {
        match note {
            Note::Next(item) => {
                self.push(b"NEXT ");
                self.push_text(&item.text);
            }
            Note::Completed => self.push(b"DONE"),
            Note::Failed(text) => {
                self.push(b"FAILED ");
                self.push_text(text);
            }
        }
        self.push(b"\n");
    }

    // Holds the bytes of a text too, for which there is room.
    #[inline(always)] // a part of `push_note`
    fn push_text(&mut self, text: &Text)
        requires { length self.old + 1024 ≤ 8192 }
        ensures bytes { self.new ≡ self.old ++ text.now }
        ensures len { length self.new ≤ length self.old + 1024 }
    {
        match text.front() {
            Front::UpTo20(bytes, len) => self.push_padded(bytes, len),
            Front::UpTo56(bytes, len) => self.push_padded(bytes, len),
            Front::Whole(bytes) => self.push(bytes),
        }
    }

    /// Holds the line of a response too, as `put` does.
    #[inline(always)] // once for each line that is answered
    pub fn put_reply<W: Write>(
        &mut self,
        writer: &mut W,
        response: Response,
    ) -> Result<(), WriteFault>
        ensures { Puts result self.old self.new (W.contents writer.old) (W.contents writer.new) (reply_line response) }
    {
        match self.ready(writer) {
            Ok(()) => {}
            Err(fault) => return Err(fault),
        }
        self.push_reply(response);
        Ok(())
    }

    // Holds the line of a response too, for which there is room. By far the most are OK, which is copied by a fixed size.
    #[inline(always)] // a part of `put_reply`
    pub fn push_reply(&mut self, response: Response)
        requires { length self.old + 2048 ≤ 8192 }
        ensures line { self.new ≡ self.old ++ reply_line response }
        ensures short { length self.new ≤ length self.old + 64 }
    {
        if let Response::Done = response {
            return self.push(b"OK\n");
        }
        self.push_other_reply(response);
    }

    // The same of any response.
    #[cold]
    #[inline(never)] // so that an OK stays short
    fn push_other_reply(&mut self, response: Response)
        requires { length self.old + 2048 ≤ 8192 }
        ensures line { self.new ≡ self.old ++ reply_line response }
        ensures short { length self.new ≤ length self.old + 64 }
    {
        match response {
            Response::Refused(word) => self.push(refusal_line(word)),
            other => self.push(reply_line(other).as_bytes()),
        }
    }

    /// Writes what it holds and flushes the writer. It holds nothing afterwards.
    pub fn flush<W: Write>(&mut self, writer: &mut W) -> Result<(), WriteFault>
        ensures written { Writes result (W.contents writer.old) (W.contents writer.new) self.old }
        ensures empty { self.new ≡ [] }
    {
        match self.write_out(writer) {
            Ok(()) => flushed(writer),
            Err(fault) => Err(fault),
        }
    }

    /// Writes what the writer takes now of what it holds, and flushes it; a write that would block takes nothing, and a flush
    /// that would block leaves something at the writer. Whether nothing waits any more, here or there. After a fault it holds
    /// nothing.
    pub fn write_some<W: Write>(&mut self, writer: &mut W) -> Result<bool, WriteFault>
        ensures puts { Puts result self.old self.new (W.contents writer.old) (W.contents writer.new) [] }
        ensures all { IfOk result (λ all. IsTrue all → self.new ≡ []) }
    {
        let (done, taken) = write_front(writer, &self.block[..self.len]);
        if taken.is_err() {
            self.len = 0;
            return Err(WriteFault);
        }
        self.drop_front(done);
        match flushed_now(writer) {
            Ok(flushed) => Ok(flushed && self.len == 0),
            Err(fault) => {
                self.len = 0;
                Err(fault)
            }
        }
    }

    /// Whether it has room for 2,048 bytes more, which is more than any line that is written.
    #[inline] // a part of `ready`
    pub fn has_room(&self) -> bool
        ensures { IsTrue result → length self.now + 2048 ≤ 8192 }
    {
        BLOCK - self.len >= LINE_ROOM
    }

    /// Whether it has room for any line that is written behind so many responses and one more.
    pub fn has_room_for(&self, responses: u32) -> bool
        ensures room { IsTrue result → length self.now + 64 * (responses + 1) + 2048 ≤ 8192 }
        ensures empty { self.now ≡ [] → responses ≡ 0 → result ≡ true }
    {
        BLOCK - self.len >= LINE_ROOM + RESPONSE_ROOM * (responses as usize + 1)
    }

    /// Whether it holds nothing.
    pub fn is_empty(&self) -> bool
        ensures { IsTrue result ↔ (self.now ≡ []) }
    {
        self.len == 0
    }

    // Lets go of its first bytes.
    fn drop_front(&mut self, len: usize)
        requires { len ≤ length self.old }
        ensures { self.new ≡ drop len self.old }
    {
        self.block.copy_within(len..self.len, 0);
        self.len -= len;
    }

    #[cold]
    fn make_room<W: Write>(&mut self, writer: &mut W, bytes: &[u8]) -> Result<(), WriteFault>
        ensures { Puts result self.old self.new (W.contents writer.old) (W.contents writer.new) bytes.now }
    {
        match self.write_out(writer) {
            Ok(()) => {}
            Err(fault) => return Err(fault),
        }
        if bytes.len() > BLOCK {
            return write_bytes(writer, bytes);
        }
        self.block[..bytes.len()].copy_from_slice(bytes);
        self.len = bytes.len();
        Ok(())
    }

    #[cold]
    #[inline(never)] // once for each block
    fn write_out<W: Write>(&mut self, writer: &mut W) -> Result<(), WriteFault>
        ensures written { Writes result (W.contents writer.old) (W.contents writer.new) self.old }
        ensures empty { self.new ≡ [] }
    {
        let len = self.len;
        self.len = 0;
        write_bytes(writer, &self.block[..len])
    }
}

// Flushes the writer, which keeps what it holds.
fn flushed<W: Write>(writer: &mut W) -> Result<(), WriteFault>
    ensures { Keeps (W.contents writer.old) (W.contents writer.new) }
{
    match writer.flush() {
        Ok(()) => Ok(()),
        Err(_) => Err(WriteFault),
    }
}

// Flushes the writer, which keeps what it holds. Whether all that it held back is out; where the flush would block it is not.
fn flushed_now<W: Write>(writer: &mut W) -> Result<bool, WriteFault>
    ensures { Keeps (W.contents writer.old) (W.contents writer.new) }
{
    match writer.flush() {
        Ok(()) => Ok(true),
        Err(fault) if fault.kind() == ErrorKind::WouldBlock => Ok(false),
        Err(_) => Err(WriteFault),
    }
}

// Writes a front of the bytes, which ends where a write would block. How many bytes were written, and whether the writer faulted.
fn write_front<W: Write>(writer: &mut W, bytes: &[u8]) -> (usize, Result<(), WriteFault>)
    ensures within { result.0 ≤ length bytes.now }
    ensures front { Appends (W.contents writer.old) (W.contents writer.new) (take result.0 bytes.now) }
{
    let mut done = 0;
    while done < bytes.len() {
        match writer.write(&bytes[done..]) {
            Ok(0) => return (done, Err(WriteFault)),
            Ok(more) => done += more,
            Err(fault) if fault.kind() == ErrorKind::WouldBlock => return (done, Ok(())),
            Err(_) => return (done, Err(WriteFault)),
        }
    }
    (done, Ok(()))
}
