ghost use Rattle.std.specs.Prelude.{◌≡◌, ◌<◌, ◌≤◌, ◌+◌, ◌*◌, ◌++◌, ℕ, List, [], IfOk, IsTrue, Ok, Option, Some, false, length, true};
ghost use Rattle.rx_proto.specs.Grammar.{IsSpelled};
ghost use Rattle.rx_proto.specs.Reading.{meaning_of, session_read};
ghost use Rattle.rx_session.specs.Begun.{Asked, IsBehind};
ghost use Rattle.rx_lines.specs.Feeds.{IsLine, IsWhole};
ghost use Rattle.rx_session.specs.Gathering.{Answered, Begins, EmitsEach, IsBegun, StandsBehind};
ghost use Rattle.rx_session.specs.OpenSessions.{Sends};
ghost use Rattle.rx_session.specs.Sessions.{Place, parties};
ghost use Rattle.rx_lines.specs.Steps.{unread};
ghost use Rattle.rx_session.specs.Turns.{IsAt, asked_by, hands};

use crate::ends::end_of;
use crate::texts::text_for;
use crate::whole_session::{Turned, answer, carry_out};
use crate::{Desk, SessionEnd, Turn};
use rx_lines::{Came, Feed, Outbox, Step};
use rx_note::{Item, Note};
use rx_proto::{BadLine, Line, Name, Response, Version, Word, read_line_without_lf};
use std::io::{Read, Write};

// The lines that a turn carries out at most, so that other sessions have their turns too: each of them may be a call for whose
// response the turn waits, while a line that is read costs next to nothing. The others are in hand for the next turn.
const MOST_LINES: u32 = 64;

// The items that are begun at most before their responses are waited for: as many as can go to a subject together.
const MOST_BEGUN: u32 = 32;

// How a line begins that may be a SUB.
const SUB: u8 = b'S';

/// A session that is served turn by turn, by one that serves others meanwhile: no turn waits for the reader or the writer. It
/// takes no memory.
#[derive(Drop)]
pub struct OpenSession {
    feed: Feed,
    outbox: Outbox,
    version: Version,
    // QUIT was read: its answer is told, and nothing more is read.
    quits: bool,
}

impl OpenSession {
    ghost use Rattle.rx_session.specs.Gathering.{CarriesBehind, Gathered};
    ghost use Rattle.rx_proto.specs.LineFeeds.{HasLf};
    ghost use Rattle.rx_session.specs.OpenSessions.{Carried, HasGotOn, HasTakenOne, IsNew, Sits, Sitting};

    /// Nothing was read or answered yet, and at most `max_reads` reads may be made. One that would block counts too.
    pub fn new(max_reads: u64) -> OpenSession
        ensures new { IsNew result }
        ensures reads { result.feed.lines.reads ≡ max_reads }
    {
        OpenSession {
            feed: Feed::new(max_reads),
            outbox: Outbox::new(),
            version: Version::One,
            quits: false,
        }
    }

    /// One turn. It writes what waits for the writer. Once all of that is written it reads, one read at most and none where a
    /// line is in hand, carries out the lines in hand, up to 64 and while there is room for their answers, and writes these. The
    /// items of PUBs that follow one another are begun, up to 32, before their responses are waited for, so that they go to their
    /// subject together.
    ///
    /// A read or a write that would block does nothing, and what the writer does not take waits for a later turn. While an
    /// answer waits nothing is read, so a peer that never reads is answered for what was read before. A SUB hands the desk the
    /// writer, and QUIT ends the session, once all that was answered is written. All turns together do what
    /// [`serve_lines`](crate::serve_lines) does with the bytes that they read. There is no turn after one that is over. One that goes
    /// on at once carried out a line or made a read, so there are not so many in a row; one that waits for bytes left no line.
    pub fn turn<R: Read, W: Write + Drop, D: Desk<W>>(
        &mut self,
        reader: &mut R,
        writer: W,
        desk: &mut D,
    ) -> Turn<W>
        ensures sits { (start : Place D W) (first : List ℕ) (read_old : Option (List ℕ))
            → Sitting (parties D.knows D.emits D.follows W.contents) start first read_old (R.remaining reader.old) desk.old writer self.old
            → Sits (parties D.knows D.emits D.follows W.contents) result start first read_old (R.remaining reader.new) desk.new self.new }
        ensures quits { self.old.quits ≡ true → desk.new ≡ desk.old }
        ensures got_on { HasGotOn result self.old self.new }
    {
        match send(&mut self.outbox, self.quits, writer) {
            Turn::Again(writer) => self.go_on(reader, writer, desk),
            Turn::Waits(writer) => Turn::Waits(writer),
            Turn::Stuck(writer) => Turn::Stuck(writer),
            Turn::Over(end, back) => Turn::Over(end, back),
        }
    }

    // The turn of a session that has written all, and has read no QUIT.
    fn go_on<R: Read, W: Write + Drop, D: Desk<W>>(
        &mut self,
        reader: &mut R,
        writer: W,
        desk: &mut D,
    ) -> Turn<W>
        requires held { self.old.outbox ≡ [] }
        requires quits { self.old.quits ≡ false }
        ensures got_on { HasGotOn result self.old self.new }
        ensures sits { (start : Place D W) (first : List ℕ) (read_old : Option (List ℕ))
            → Sitting (parties D.knows D.emits D.follows W.contents) start first read_old (R.remaining reader.old) desk.old writer self.old
            → Sits (parties D.knows D.emits D.follows W.contents) result start first read_old (R.remaining reader.new) desk.new self.new }
    {
        match self.feed.fill(reader) {
            Came::Bytes => {}
            Came::Nothing => return Turn::Waits(writer),
            Came::End(end) => return Turn::Over(end_of(end), Some(writer)),
        }
        match self.carry_known(writer, desk) {
            Turned::On(writer) => send(&mut self.outbox, self.quits, writer),
            Turned::Over(end, back) => Turn::Over(end, back),
        }
    }

    // Carries out the lines in hand, until it has to write.
    fn carry_known<W: Write + Drop, D: Desk<W>>(&mut self, writer: W, desk: &mut D) -> Turned<W>
        ensures reads { self.new.feed.lines.reads ≡ self.old.feed.lines.reads }
        ensures took { self.old.quits ≡ false → self.old.outbox ≡ [] → HasLf (unread self.old.feed.lines) → HasTakenOne result self.old self.new }
        ensures carried { (start : Place D W) (first : List ℕ) (read_old read_now : Option (List ℕ))
            → Sitting (parties D.knows D.emits D.follows W.contents) start first read_old read_now desk.old writer self.old
            → Carried (parties D.knows D.emits D.follows W.contents) result start first read_old read_now desk.new self.new }
    {
        let mut begun = 0;
        match self.carry_lines(writer, desk, &mut begun) {
            Turned::On(writer) => {
                answer_all(&mut self.outbox, desk, &mut begun);
                Turned::On(writer)
            }
            Turned::Over(end, back) => Turned::Over(end, back),
        }
    }

    // The same, but that the responses to the last items may be still to come, to so many.
    fn carry_lines<W: Write + Drop, D: Desk<W>>(
        &mut self,
        writer: W,
        desk: &mut D,
        begun: &mut u32,
    ) -> Turned<W>
        requires { begun.old ≡ 0 }
        ensures gathered { (start : Place D W) (first : List ℕ) (read_old read_now : Option (List ℕ))
            → Sitting (parties D.knows D.emits D.follows W.contents) start first read_old read_now desk.old writer self.old
            → Gathered (parties D.knows D.emits D.follows W.contents) D.waits result start first read_old read_now desk.new self.new begun.new }
        ensures room { 0 < begun.new → length self.new.outbox + 64 * begun.new ≤ 6144 }
        ensures reads { self.new.feed.lines.reads ≡ self.old.feed.lines.reads }
        ensures took { self.old.quits ≡ false → self.old.outbox ≡ [] → HasLf (unread self.old.feed.lines) → HasTakenOne result self.old self.new }
    {
        let mut held = writer;
        for _line in 0..MOST_LINES {
            if self.must_write(*begun) {
                return Turned::On(held);
            }
            let Some(step) = self.feed.known() else {
                return Turned::On(held);
            };
            match self.carry(step, held, desk, begun) {
                Turned::On(writer) => held = writer,
                Turned::Over(end, back) => return Turned::Over(end, back),
            }
        }
        Turned::On(held)
    }

    // Carries out the line that a step told, or begins its item.
    fn carry<W: Write + Drop, D: Desk<W>>(
        &mut self,
        step: Step,
        writer: W,
        desk: &mut D,
        begun: &mut u32,
    ) -> Turned<W>
        requires quits { self.old.quits ≡ false }
        requires whole { IsWhole (Some step) self.old.feed.lines.window }
        requires room { length self.old.outbox + 64 * (begun.old + 1) ≤ 6144 }
        ensures carries { (line : List ℕ) (at : Place D W) (notes : List Asked) → IsLine step line self.old.feed.lines.window
            → length notes ≡ begun.old → StandsBehind (parties D.knows D.emits D.follows W.contents) D.waits at notes (hands desk.old writer self.old.version self.old.outbox)
            → CarriesBehind (parties D.knows D.emits D.follows W.contents) D.waits self.new.quits (session_read line) at notes result desk.new self.new.version self.new.outbox begun.new }
        ensures feed { self.new.feed ≡ self.old.feed }
        ensures room { 0 < begun.new → length self.new.outbox + 64 * begun.new ≤ 6144 }
    {
        match step {
            Step::Line(len) => {
                let read = read_line_without_lf(self.feed.line(len));
                if begin_line(&mut self.outbox, desk, &read, begun) {
                    return Turned::On(writer);
                }
                answer_all(&mut self.outbox, desk, begun);
                if is_quit(&read) {
                    self.quits = true;
                    return answer(&mut self.outbox, writer, Response::Done);
                }
                carry_out(&mut self.outbox, desk, &mut self.version, writer, &read)
            }
            Step::Long => {
                answer_all(&mut self.outbox, desk, begun);
                answer(&mut self.outbox, writer, Response::Refused(Word::Long))
            }
            Step::EndOfInput | Step::ReadFault | Step::TooManyReads => unreachable!(),
        }
    }

    // Whether it has to write before it carries out a line, where so many items are begun: where it quits, where there is no room
    // for their responses and one more, and where an answer waits or is to come and the line may be a SUB.
    fn must_write(&self, begun: u32) -> bool
        ensures quits { result ≡ false → self.now.quits ≡ false }
        ensures room { result ≡ false → length self.now.outbox + 64 * (begun + 1) ≤ 6144 }
        ensures free { self.now.quits ≡ false → self.now.outbox ≡ [] → begun ≡ 0 → result ≡ false }
    {
        if self.quits || !self.outbox.has_room_for(begun) {
            return true;
        }
        (begun > 0 || !self.outbox.is_empty()) && self.feed.begins_with(SUB)
    }
}

// Holds the responses to all that was begun.
fn answer_all<W: Write, D: Desk<W>>(outbox: &mut Outbox, desk: &mut D, begun: &mut u32)
    requires { 0 < begun.old → length outbox.old + 64 * begun.old ≤ 6144 }
    ensures answered { (at : Place D W) (notes : List Asked) (writer : W) (version : Version)
        → length notes ≡ begun.old → StandsBehind (parties D.knows D.emits D.follows W.contents) D.waits at notes (hands desk.old writer version outbox.old)
        → (last : Place D W) × EmitsEach (parties D.knows D.emits D.follows W.contents) at notes last × IsAt (parties D.knows D.emits D.follows W.contents) last (hands desk.new writer version outbox.new) }
    ensures none { begun.new ≡ 0 }
    ensures same { begun.old ≡ 0 → (desk.new ≡ desk.old) × (outbox.new ≡ outbox.old) }
    ensures room { length outbox.new ≤ length outbox.old + 64 * begun.old }
{
    while *begun > 0 {
        let response = desk.answer();
        outbox.push_reply(response);
        *begun -= 1;
    }
}

// Holds the responses to all that was begun, where no more can be.
fn make_way<W: Write, D: Desk<W>>(outbox: &mut Outbox, desk: &mut D, begun: &mut u32)
    requires { length outbox.old + 64 * (begun.old + 1) ≤ 6144 }
    ensures answered { (at : Place D W) (notes : List Asked) (writer : W) (version : Version)
        → length notes ≡ begun.old → StandsBehind (parties D.knows D.emits D.follows W.contents) D.waits at notes (hands desk.old writer version outbox.old)
        → Answered (parties D.knows D.emits D.follows W.contents) D.waits at notes (hands desk.new writer version outbox.new) begun.new }
    ensures room { length outbox.new + 64 * (begun.new + 1) ≤ 6144 }
    ensures few { begun.new ≤ 31 }
{
    if *begun < MOST_BEGUN {
        return;
    }
    answer_all(outbox, desk, begun);
}

// Begins the item of a line that was read so, where the line has one and it can be begun.
fn begin_line<W: Write, D: Desk<W>>(
    outbox: &mut Outbox,
    desk: &mut D,
    read: &Result<Line<'_>, BadLine>,
    begun: &mut u32,
) -> bool
    requires spelled { IfOk read.now (λ line. IsSpelled (meaning_of line)) }
    requires room { length outbox.old + 64 * (begun.old + 1) ≤ 6144 }
    ensures begins { (at : Place D W) (notes : List Asked) (writer : W) (version : Version)
        → length notes ≡ begun.old → StandsBehind (parties D.knows D.emits D.follows W.contents) D.waits at notes (hands desk.old writer version outbox.old)
        → Begins (parties D.knows D.emits D.follows W.contents) D.waits result (asked_by read.now) at notes (hands desk.new writer version outbox.new) begun.new }
    ensures room { length outbox.new + 64 * begun.new ≤ 6144 }
{
    make_way(outbox, desk, begun);
    if !begins(desk, read, *begun) {
        return false;
    }
    *begun += 1;
    true
}

// Whether the item of a line was begun, behind so many.
fn begins<W: Write, D: Desk<W>>(desk: &mut D, read: &Result<Line<'_>, BadLine>, behind: u32) -> bool
    requires { IfOk read.now (λ line. IsSpelled (meaning_of line)) }
    ensures { (base : D) (notes : List Asked) → length notes ≡ behind → IsBehind D.waits base notes desk.old
        → (new : List Asked) × IsBegun result (asked_by read.now) new × IsBehind D.waits base (notes ++ new) desk.new }
{
    let Ok(Line::Pub { name, text }) = read else {
        return false;
    };
    let name = Name::of(name);
    if behind > 0 && !desk.may_begin(&name) {
        return false;
    }
    let Ok(text) = text_for(desk, &name, text) else {
        return false;
    };
    let note = Note::Next(Item::new(text));
    let Ok(()) = desk.begin(&name, note, behind) else {
        return false;
    };
    true
}

// Whether a line was read that said QUIT.
fn is_quit(read: &Result<Line<'_>, BadLine>) -> bool
    ensures { IsTrue result → read.now ≡ Ok Line.Quit }
{
    match read {
        Ok(Line::Quit) => true,
        _ => false,
    }
}

// Writes what an outbox holds, as far as the writer takes it now, for a session that quits once all is written, or goes on.
fn send<W: Write>(outbox: &mut Outbox, quits: bool, writer: W) -> Turn<W>
    ensures { Sends W.contents result quits writer outbox.old outbox.new }
{
    let mut held = writer;
    match outbox.write_some(&mut held) {
        Ok(all) => {
            if !all {
                return Turn::Stuck(held);
            }
            if quits {
                return Turn::Over(SessionEnd::Quit, Some(held));
            }
            Turn::Again(held)
        }
        Err(_) => Turn::Over(SessionEnd::WriteFault, Some(held)),
    }
}
