// A session from its first line to its end, in one call.
ghost use Rattle.std.specs.Prelude.{◌≡◌, [], None, IfOk, Ok, OnOk, Option};
ghost use Rattle.rx_proto.specs.Grammar.{IsSpelled, IsText};
ghost use Rattle.rx_proto.specs.LineFeeds.{HasNoLf};
ghost use Rattle.rx_proto.specs.Printing.{reply_line, response_to_fault};
ghost use Rattle.rx_proto.specs.Reading.{in_session, meaning_of};
ghost use Rattle.rx_proto.specs.declared.command.Command.TheVariants.{Fail, Pub, Sub};
ghost use Rattle.rx_lines.specs.Bytes.{Puts};
ghost use Rattle.rx_session.specs.Sessions.{Place, Emits, Goes, Session, parties};
ghost use Rattle.rx_lines.specs.Steps.{unread};
ghost use Rattle.rx_lines.specs.declared.input_end.InputEnd.{InputEnd};
ghost use Rattle.rx_session.specs.Turns.{Carries, Comes, IsAt, Quits, Tells, Turns, asked_by, hands};

use crate::texts::text_for;
use crate::{Desk, Follow, SessionEnd};
use rx_lines::{LineState, Outbox, Step};
use rx_note::{Item, Note, Policy};
use rx_proto::{BadLine, Line, Name, Response, Version, Word, WriteFault, read_line_without_lf};
use std::io::{Read, Write};

/// Serves a session: asks the desk the commands of the lines that are read, and writes the line of each response to the
/// writer. It ends at QUIT, at a SUB by which the writer is gone, at the end of the input, at a fault, or where
/// `max_reads` reads were made.
///
/// A line that is refused is answered without the desk, and so is a HELLO, which sets the version of later SUBs; it is the
/// first until then. The text of a PUB or FAIL is made over the memory that the desk has for its subject, once that is found.
/// What was answered is written and flushed before each read, and all of it before the desk is handed the writer. The writer
/// then held comes back, except where the end is `HandedOver`.
/// After a fault of the writer a prefix of the answers was written. What was read behind the last line that was carried
/// out is discarded.
pub fn serve_lines<R: Read, W: Write + Drop, D: Desk<W>>(
    reader: &mut R,
    writer: W,
    desk: &mut D,
    max_reads: u64,
) -> (SessionEnd, Option<W>)
    ensures { (input : Option InputEnd) × Session (parties D.knows D.emits D.follows W.contents) (R.remaining reader.old) (R.remaining reader.new) input desk.old writer (record { end = result.0; desk = desk.new; back = result.1 }) }
{
    let mut lines = LineState::new(max_reads);
    serve(&mut lines, reader, writer, desk)
}

/// Serves a session by a reading of lines that has read nothing yet; what it has come to afterwards says how the input
/// ended. All else is as in [`serve_lines`].
pub fn serve<R: Read, W: Write + Drop, D: Desk<W>>(
    lines: &mut LineState,
    reader: &mut R,
    writer: W,
    desk: &mut D,
) -> (SessionEnd, Option<W>)
    requires unread { unread lines.old ≡ [] }
    requires end { lines.old.end ≡ None }
    ensures { Session (parties D.knows D.emits D.follows W.contents) (R.remaining reader.old) (R.remaining reader.new) lines.new.end desk.old writer (record { end = result.0; desk = desk.new; back = result.1 }) }
{
    let mut outbox = Outbox::new();
    let mut version = Version::One;
    let mut held = writer;
    loop {
        match catch_up(lines, &mut outbox, &mut held) {
            Ok(()) => {}
            Err(_) => return (SessionEnd::WriteFault, Some(held)),
        }
        match turn(lines, reader, &mut outbox, desk, &mut version, held) {
            Turned::On(writer) => held = writer,
            Turned::Over(end, back) => return (end, back),
        }
    }
}

/// Whether a session goes on.
pub(crate) enum Turned<W> {
    /// It does, with this writer.
    On(W),
    /// It ended so, and the writer is back if it still had one.
    Over(SessionEnd, Option<W>),
}

// Writes all that was answered, where the next line asks for a read.
fn catch_up<W: Write>(
    lines: &mut LineState,
    outbox: &mut Outbox,
    writer: &mut W,
) -> Result<(), WriteFault>
    ensures puts { Puts result outbox.old outbox.new (W.contents writer.old) (W.contents writer.new) [] }
    ensures empty { OnOk result (HasNoLf (unread lines.new) → outbox.new ≡ []) }
    ensures unread { unread lines.new ≡ unread lines.old }
    ensures reads { lines.new.reads ≡ lines.old.reads }
    ensures end { lines.new.end ≡ lines.old.end }
{
    if lines.has_line() {
        return Ok(());
    }
    outbox.flush(writer)
}

// Reads the next line and carries it out.
fn turn<R: Read, W: Write + Drop, D: Desk<W>>(
    lines: &mut LineState,
    reader: &mut R,
    outbox: &mut Outbox,
    desk: &mut D,
    version: &mut Version,
    writer: W,
) -> Turned<W>
    requires { lines.old.end ≡ None }
    ensures { Turns (parties D.knows D.emits D.follows W.contents) result (hands desk.old writer version.old outbox.old) (hands desk.new writer version.new outbox.new) (R.remaining reader.old) (R.remaining reader.new) lines.old lines.new }
{
    match lines.advance(reader) {
        Step::Line(len) => {
            let read = read_line_without_lf(lines.line(len));
            carry_out(outbox, desk, version, writer, &read)
        }
        Step::Long => answer(outbox, writer, Response::Refused(Word::Long)),
        Step::EndOfInput => Turned::Over(SessionEnd::EndOfInput, Some(writer)),
        Step::ReadFault => Turned::Over(SessionEnd::ReadFault, Some(writer)),
        Step::TooManyReads => Turned::Over(SessionEnd::TooManyReads, Some(writer)),
    }
}

/// Carries out a line that was read so.
pub(crate) fn carry_out<W: Write + Drop, D: Desk<W>>(
    outbox: &mut Outbox,
    desk: &mut D,
    version: &mut Version,
    writer: W,
    read: &Result<Line<'_>, BadLine>,
) -> Turned<W>
    requires { IfOk read.now (λ line. IsSpelled (meaning_of line)) }
    ensures { (at : Place D W) → IsAt (parties D.knows D.emits D.follows W.contents) at (hands desk.old writer version.old outbox.old)
        → Carries (parties D.knows D.emits D.follows W.contents) (asked_by read.now) at result desk.new version.new outbox.new }
{
    match read {
        Ok(line) => carry_out_line(outbox, desk, version, writer, line),
        Err(fault) => answer(outbox, writer, refused(*fault)),
    }
}

// Carries out a line that has a meaning.
fn carry_out_line<W: Write + Drop, D: Desk<W>>(
    outbox: &mut Outbox,
    desk: &mut D,
    version: &mut Version,
    writer: W,
    line: &Line<'_>,
) -> Turned<W>
    requires { IsSpelled (meaning_of line.now) }
    ensures { (at : Place D W) → IsAt (parties D.knows D.emits D.follows W.contents) at (hands desk.old writer version.old outbox.old)
        → Carries (parties D.knows D.emits D.follows W.contents) (in_session (meaning_of line.now)) at result desk.new version.new outbox.new }
{
    match line {
        Line::Pub { name, text } => emit_item(outbox, desk, writer, &Name::of(name), text),
        Line::End { name } => emit(outbox, desk, writer, &Name::of(name), Note::Completed),
        Line::Fail { name, text } => emit_error(outbox, desk, writer, &Name::of(name), text),
        Line::Sub { name, policy } => {
            follow(outbox, desk, *version, writer, &Name::of(name), *policy)
        }
        Line::Hello(number) => answer(outbox, writer, version.hello(*number)),
        Line::Quit => quit(outbox, writer),
        Line::At(_) | Line::Join { .. } | Line::Request { .. } | Line::Dispose { .. } => {
            answer(outbox, writer, Response::Refused(Word::Syntax))
        }
    }
}

// The response to a line that has no meaning.
fn refused(fault: BadLine) -> Response
    ensures { result ≡ response_to_fault fault }
{
    Response::Refused(match fault {
        BadLine::Long => Word::Long,
        BadLine::Syntax => Word::Syntax,
    })
}

// Has the desk emit an item of this text, where there is its subject and memory for the text, and answers.
fn emit_item<W: Write + Drop, D: Desk<W>>(
    outbox: &mut Outbox,
    desk: &mut D,
    writer: W,
    name: &Name,
    text: &[u8],
) -> Turned<W>
    requires { IsText text.now }
    ensures { (at : Place D W) (version : Version) → IsAt (parties D.knows D.emits D.follows W.contents) at (hands desk.old writer version outbox.old)
        → Comes (parties D.knows D.emits D.follows W.contents) (Goes (parties D.knows D.emits D.follows W.contents) (Ok (Pub name.now text.now)) at) result desk.new version outbox.new }
{
    match text_for(desk, name, text) {
        Ok(text) => emit(outbox, desk, writer, name, Note::Next(Item::new(text))),
        Err(word) => answer(outbox, writer, Response::Refused(word)),
    }
}

// Has the desk emit an error of this text, where there is its subject and memory for the text, and answers.
fn emit_error<W: Write + Drop, D: Desk<W>>(
    outbox: &mut Outbox,
    desk: &mut D,
    writer: W,
    name: &Name,
    text: &[u8],
) -> Turned<W>
    requires { IsText text.now }
    ensures { (at : Place D W) (version : Version) → IsAt (parties D.knows D.emits D.follows W.contents) at (hands desk.old writer version outbox.old)
        → Comes (parties D.knows D.emits D.follows W.contents) (Goes (parties D.knows D.emits D.follows W.contents) (Ok (Fail name.now text.now)) at) result desk.new version outbox.new }
{
    match text_for(desk, name, text) {
        Ok(text) => emit(outbox, desk, writer, name, Note::Failed(text)),
        Err(word) => answer(outbox, writer, Response::Refused(word)),
    }
}

// Has the desk emit a note, and answers by its response.
fn emit<W: Write + Drop, D: Desk<W>>(
    outbox: &mut Outbox,
    desk: &mut D,
    writer: W,
    name: &Name,
    note: Note,
) -> Turned<W>
    ensures { (at : Place D W) (version : Version) → IsAt (parties D.knows D.emits D.follows W.contents) at (hands desk.old writer version outbox.old)
        → Comes (parties D.knows D.emits D.follows W.contents) (Emits (parties D.knows D.emits D.follows W.contents) at name.now note) result desk.new version outbox.new }
{
    let response = desk.emit(name, note);
    answer(outbox, writer, response)
}

// Writes all that was answered, and has the desk follow by the writer. Where one comes back, answers by the response.
fn follow<W: Write + Drop, D: Desk<W>>(
    outbox: &mut Outbox,
    desk: &mut D,
    version: Version,
    writer: W,
    name: &Name,
    policy: Policy,
) -> Turned<W>
    ensures { (at : Place D W) → IsAt (parties D.knows D.emits D.follows W.contents) at (hands desk.old writer version outbox.old)
        → Carries (parties D.knows D.emits D.follows W.contents) (Ok (Sub name.now policy)) at result desk.new version outbox.new }
{
    let mut writer = writer;
    match outbox.flush(&mut writer) {
        Ok(()) => {}
        Err(_) => return Turned::Over(SessionEnd::WriteFault, Some(writer)),
    }
    match desk.follow(name, policy, version, writer) {
        Follow::Taken => Turned::Over(SessionEnd::HandedOver, None),
        Follow::Back(response, back) => answer(outbox, back, response),
    }
}

/// Answers a line by a response.
pub(crate) fn answer<W: Write + Drop>(
    outbox: &mut Outbox,
    writer: W,
    response: Response,
) -> Turned<W>
    ensures { Tells W.contents result writer outbox.old outbox.new (reply_line response) }
{
    let mut held = writer;
    match outbox.put_reply(&mut held, response) {
        Ok(()) => Turned::On(held),
        Err(_) => Turned::Over(SessionEnd::WriteFault, Some(held)),
    }
}

// Answers the line that ends the session, and writes all.
fn quit<W: Write + Drop>(outbox: &mut Outbox, writer: W) -> Turned<W>
    ensures { Quits W.contents result writer outbox.old }
{
    let mut held = writer;
    match outbox.put_reply(&mut held, Response::Done) {
        Ok(()) => {}
        Err(_) => return Turned::Over(SessionEnd::WriteFault, Some(held)),
    }
    match outbox.flush(&mut held) {
        Ok(()) => Turned::Over(SessionEnd::Quit, Some(held)),
        Err(_) => Turned::Over(SessionEnd::WriteFault, Some(held)),
    }
}
