ghost use Rattle.std.specs.Prelude.{◌≡◌, ◌<◌, ◌++◌, [], true, None, IfOk, OnErr, OnOk, length};
ghost use Rattle.rx_script.specs.declared.topic.Topic.{Topic};
ghost use Rattle.rx_proto.specs.Bytes.{Writes};
ghost use Rattle.rx_lines.specs.Bytes.{Puts};
ghost use Rattle.rx_session.specs.Responses.{response_to};
ghost use Rattle.rx_proto.specs.Grammar.{IsSpelled};
ghost use Rattle.rx_proto.specs.LineFeeds.{HasNoLf};
ghost use Rattle.rx_proto.specs.Printing.{reply_line};
ghost use Rattle.rx_proto.specs.Reading.{meaning_of};
ghost use Rattle.rx_script.specs.Asking.{names_subject};
ghost use Rattle.rx_script.specs.Scripts.{Runs, TakesEvent, new_subjects};
ghost use Rattle.rx_script.specs.Transcripts.{asked_at, given_lines};

use crate::line_event::{event_in, name_in};
use crate::printed_note::put_given;
use crate::told::Told;
use crate::topic::{Topic, place_of, topics_of};
use rx_config::Config;
use rx_heap::{Heap, Memory};
use rx_note::{Answer, Event, Given, Item, Note, Refusal, Text};
use rx_proto::{BadLine, Line, Name, Response, Version, Word, WriteFault, read_script_without_lf};
use rx_session::{LineState, Outbox, SessionEnd, Step, response_to};
use std::io::{Read, Write};

/// Runs the lines of a script over the subjects of a configuration, and answers each by its response and a line for
/// each note that it gives. All that was answered is written and flushed before each read and at the end.
///
/// `Memory` means that a hub could not be made; then nothing was read or written.
#[inline(never)] // so that its loop has all registers to itself
pub fn run_script<R: Read, W: Write>(
    alloc: Heap,
    config: Config,
    reader: &mut R,
    writer: &mut W,
    max_reads: u64,
) -> Result<SessionEnd, Memory>
    ensures runs { IfOk result (λ end. Runs (new_subjects config.subjects.items) end (R.remaining reader.old) (R.remaining reader.new) (W.contents writer.old) (W.contents writer.new)) }
    ensures unmade { OnErr result ((R.remaining reader.new ≡ R.remaining reader.old) × (W.contents writer.new ≡ W.contents writer.old)) }
{
    let topics = topics_of(&alloc, config.subjects)?;
    let mut script = Script::new(alloc, topics);
    let mut lines = LineState::new(max_reads);
    loop {
        let Ok(step) = script.next_step(&mut lines, reader, writer) else {
            return Ok(SessionEnd::WriteFault);
        };
        if let Some(end) = script.tell_step(&lines, writer, step) {
            return Ok(end);
        }
    }
}

/// The run of a script: its topics, the moment of the events that follow, in milliseconds, the version in which their notes are
/// printed, and what is to be written.
pub(crate) struct Script {
    topics: Vec<Topic, Heap>,
    moment: u64,
    version: Version,
    outs: Vec<Given, Heap>,
    outbox: Outbox,
    // A text that was let go, in whose block the next one may stand.
    spare: Option<Text>,
    ghost nothing_left: { outs.items ≡ [] },
}

// By hand: rx_heap says why.
impl Drop for Script {
    fn drop(self) {
        let Script {
            topics: _,
            moment: _,
            version: _,
            outs: _,
            outbox: _,
            spare: _,
        } = self;
    }
}

impl Script {
    ghost use Rattle.rx_script.specs.Scripts.{TakesAt};
    ghost use Rattle.std.specs.Prelude.{List, Option, ℕ};
    ghost use Rattle.rx_script.specs.Scripts.{StandForSubjects};
    ghost use Rattle.rx_lines.specs.declared.line_state.LineState.{LineState};
    ghost use Rattle.rx_lines.specs.Steps.{unread, TakesStep};
    ghost use Rattle.rx_script.specs.Tellings.{CarriesOut, IsIn, IsInHand, MayBeTold, Quits, Tells, TellsOn, Turns, reading_of};
    ghost use Rattle.rx_script.specs.Transcripts.{Subject, new_state};

    // The run of a script over these topics, with no line yet.
    #[inline(always)] // so that its outbox is made where it stays
    fn new(alloc: Heap, topics: Vec<Topic, Heap>) -> Script
        ensures state { (subjects : List Subject) → StandForSubjects topics.items subjects → IsIn result (new_state subjects) }
        ensures outbox { result.outbox ≡ [] }
    {
        Script {
            topics,
            moment: 0,
            version: Version::One,
            outs: Vec::new(alloc),
            outbox: Outbox::new(),
            spare: None,
        }
    }

    // Takes the next line, or finds the end. Where that takes a read, all that was answered is written first.
    #[inline(always)] // once for each line
    fn next_step<R: Read, W: Write>(
        &mut self,
        lines: &mut LineState,
        reader: &mut R,
        writer: &mut W,
    ) -> Result<Step, WriteFault>
        requires { lines.old.end ≡ None }
        ensures puts { Puts result self.old.outbox self.new.outbox (W.contents writer.old) (W.contents writer.new) [] }
        ensures empty { OnOk result (HasNoLf (unread lines.old) → self.new.outbox ≡ []) }
        ensures topics { self.new.topics.items ≡ self.old.topics.items }
        ensures moment { self.new.moment ≡ self.old.moment }
        ensures version { self.new.version ≡ self.old.version }
        ensures goes { IfOk result (λ step. TakesStep step (R.remaining reader.old) (R.remaining reader.new) lines.old lines.new) }
        ensures no_read { OnErr result (R.remaining reader.new ≡ R.remaining reader.old) }
    {
        if let Some(step) = lines.known() {
            return Ok(step);
        }
        match self.flush(writer) {
            Ok(()) => Ok(lines.advance(reader)),
            Err(fault) => Err(fault),
        }
    }

    // Tells the line that a step took, or the end that it found. How the script ended, if it did.
    #[inline(always)] // once for each line
    fn tell_step<W: Write>(
        &mut self,
        lines: &LineState,
        writer: &mut W,
        step: Step,
    ) -> Option<SessionEnd>
        requires { IsInHand step lines.now }
        ensures { (read_old read_new : Option (List ℕ)) (before : LineState) → TakesStep step read_old read_new before lines.now
            → Turns result self.old self.new (W.contents writer.old) (W.contents writer.new) read_old read_new before lines.now }
    {
        match step {
            Step::Line(len) => self.tell_on(writer, Some(lines.line(len))),
            Step::Long => self.tell_on(writer, None),
            Step::EndOfInput => Some(SessionEnd::EndOfInput),
            Step::ReadFault => Some(SessionEnd::ReadFault),
            Step::TooManyReads => Some(SessionEnd::TooManyReads),
        }
    }

    // Writes all that was answered, and flushes the writer.
    #[inline(never)] // once for each block
    fn flush<W: Write>(&mut self, writer: &mut W) -> Result<(), WriteFault>
        ensures written { Writes result (W.contents writer.old) (W.contents writer.new) self.old.outbox }
        ensures empty { self.new.outbox ≡ [] }
        ensures topics { self.new.topics.items ≡ self.old.topics.items }
        ensures moment { self.new.moment ≡ self.old.moment }
        ensures version { self.new.version ≡ self.old.version }
    {
        self.outbox.flush(writer)
    }

    // Tells a line, or that there is one which is too long. How the script ended, if it did.
    #[inline(always)] // once for each line
    fn tell_on<W: Write>(&mut self, writer: &mut W, line: Option<&[u8]>) -> Option<SessionEnd>
        requires { MayBeTold line }
        ensures { TellsOn result self.old self.new (W.contents writer.old) (W.contents writer.new) (reading_of line.entry) }
    {
        match self.tell(writer, line) {
            Ok(Told::More) => None,
            Ok(Told::Quit) => Some(self.quit(writer)),
            Err(_) => Some(SessionEnd::WriteFault),
        }
    }

    // Tells a line: puts what is written for it, and has the topics take what it asks.
    #[inline(always)] // once for each line
    fn tell<W: Write>(&mut self, writer: &mut W, line: Option<&[u8]>) -> Result<Told, WriteFault>
        requires { MayBeTold line }
        ensures { Tells result self.old self.new (W.contents writer.old) (W.contents writer.new) (reading_of line.entry) }
    {
        let Some(line) = line else {
            return self.refuse(writer, Word::Long);
        };
        match read_script_without_lf(line) {
            Ok(line) => match line {
                Line::Pub { .. } => self.carry_out(writer, &line),
                _ => self.carry_out_other(writer, &line),
            },
            Err(BadLine::Long) => self.refuse(writer, Word::Long),
            Err(BadLine::Syntax) => self.refuse(writer, Word::Syntax),
        }
    }

    // Carries out a line that is no Pub. It has the code of `carry_out` once more, so that a Pub, by far the commonest line,
    // passes no test of what it is.
    #[inline(never)] // said above
    fn carry_out_other<W: Write>(
        &mut self,
        writer: &mut W,
        line: &Line<'_>,
    ) -> Result<Told, WriteFault>
        requires { IsSpelled (meaning_of line.now) }
        ensures { CarriesOut result self.old self.new (W.contents writer.old) (W.contents writer.new) (asked_at self.old.moment (meaning_of line.now)) }
    {
        self.carry_out(writer, line)
    }

    // Carries out what a line asks, and puts the answer.
    #[inline(always)] // so that a Pub has code of its own
    fn carry_out<W: Write>(&mut self, writer: &mut W, line: &Line<'_>) -> Result<Told, WriteFault>
        requires { IsSpelled (meaning_of line.now) }
        ensures { CarriesOut result self.old self.new (W.contents writer.old) (W.contents writer.new) (asked_at self.old.moment (meaning_of line.now)) }
    {
        match line {
            Line::Quit => {
                self.outbox.put_reply(writer, Response::Done)?;
                Ok(Told::Quit)
            }
            Line::At(moment) => {
                self.moment = *moment;
                self.outbox.put_reply(writer, Response::Done)?;
                Ok(Told::More)
            }
            Line::Hello(number) => {
                let response = self.version.hello(*number);
                self.outbox.put_reply(writer, response)?;
                Ok(Told::More)
            }
            _ => self.ask(writer, line),
        }
    }

    // Asks of a subject what a line says. Its text is made only where there is the subject, over the memory of that.
    #[inline(always)] // a part of `carry_out`
    fn ask<W: Write>(&mut self, writer: &mut W, line: &Line<'_>) -> Result<Told, WriteFault>
        requires spelled { IsSpelled (meaning_of line.now) }
        requires named { names_subject (meaning_of line.now) ≡ true }
        ensures { CarriesOut result self.old self.new (W.contents writer.old) (W.contents writer.new) (asked_at self.old.moment (meaning_of line.now)) }
    {
        let Some(place) = place_of(&self.topics, name_in(line)) else {
            return self.refuse(writer, Word::Subject);
        };
        match event_in(&self.topics[place].heap, &mut self.spare, line, self.moment) {
            Ok(event) => self.take(writer, place, event),
            Err(Memory) => self.refuse(writer, Word::Memory),
        }
    }

    // Puts the answer to a line that is refused.
    #[inline(never)] // rare
    fn refuse<W: Write>(&mut self, writer: &mut W, word: Word) -> Result<Told, WriteFault>
        ensures puts { Puts result self.old.outbox self.new.outbox (W.contents writer.old) (W.contents writer.new) (reply_line (Response.Refused word)) }
        ensures topics { self.new.topics.items ≡ self.old.topics.items }
        ensures moment { self.new.moment ≡ self.old.moment }
        ensures version { self.new.version ≡ self.old.version }
        ensures more { IfOk result (λ told. told ≡ Told.More) }
    {
        self.outbox.put_reply(writer, Response::Refused(word))?;
        Ok(Told::More)
    }

    // Has the topic at a place take an event, and puts its answer and the notes that it gives.
    #[inline(always)] // a part of `ask`
    fn take<W: Write>(
        &mut self,
        writer: &mut W,
        place: usize,
        event: Event,
    ) -> Result<Told, WriteFault>
        requires { place < length self.old.topics.items }
        ensures took { (d : Topic) → TakesAt result self.old.topics.items self.new.topics.items place d event self.old.version self.old.outbox self.new.outbox (W.contents writer.old) (W.contents writer.new) }
        ensures moment { self.new.moment ≡ self.old.moment }
        ensures version { self.new.version ≡ self.old.version }
        ensures more { IfOk result (λ told. told ≡ Told.More) }
    {
        take_event(
            &mut self.topics[place],
            event,
            self.version,
            &mut self.outs,
            &mut self.spare,
            &mut self.outbox,
            writer,
        )?;
        Ok(Told::More)
    }

    // Writes what is left at the end of a script that said so.
    fn quit<W: Write>(&mut self, writer: &mut W) -> SessionEnd
        ensures { Quits result (W.contents writer.old) (W.contents writer.new) self.old.outbox }
    {
        match self.flush(writer) {
            Ok(()) => SessionEnd::Quit,
            Err(_) => SessionEnd::WriteFault,
        }
    }
}

// Steps the hub of a topic, and puts the answer and the notes given.
#[inline(always)] // a part of `take`
fn take_event<W: Write>(
    topic: &mut Topic,
    event: Event,
    version: Version,
    outs: &mut Vec<Given, Heap>,
    spare: &mut Option<Text>,
    outbox: &mut Outbox,
    writer: &mut W,
) -> Result<(), WriteFault>
    requires { outs.old.items ≡ [] }
    ensures took { TakesEvent result topic.old topic.new event version outbox.old outbox.new (W.contents writer.old) (W.contents writer.new) }
    ensures outs { outs.new.items ≡ [] }
{
    let answered = topic.hub.step(0, event, outs);
    let put = put_answer(outbox, writer, version, &topic.name, answered, outs);
    let_go(outs, &topic.heap, spare);
    put
}

// Lets go of the notes that were put. The text of the last is kept where the next text may stand in its block, unless there
// is a limit, by which a block that is kept would count.
#[inline(always)] // once for each line; mostly there is nothing
fn let_go(outs: &mut Vec<Given, Heap>, heap: &Heap, spare: &mut Option<Text>)
    ensures { outs.new.items ≡ [] }
{
    if ends_in_block(outs) && heap.asked() == 0 {
        keep_last(outs, spare);
    }
    clear(outs);
}

// Lets go of all notes. Mostly there is one, or none is left.
#[inline(always)] // so that one note costs no call
fn clear(outs: &mut Vec<Given, Heap>)
    ensures { outs.new.items ≡ [] }
{
    match outs.len() {
        0 => {}
        1 => drop(outs.pop()),
        _ => outs.clear(),
    }
}

// Whether the last note is an item whose text stands in a block.
#[inline(always)] // a part of `let_go`
fn ends_in_block(outs: &Vec<Given, Heap>) -> bool {
    match outs.last() {
        Some(
            Given {
                who: _,
                note: Note::Next(Item { text, .. }),
            },
        ) => text.has_block(),
        _ => false,
    }
}

// Keeps the text of the last note, which is taken out.
#[inline(never)] // only for texts in blocks
fn keep_last(outs: &mut Vec<Given, Heap>, spare: &mut Option<Text>) {
    if let Some(
        Given {
            who: _,
            note: Note::Next(Item { text, .. }),
        },
    ) = outs.pop()
    {
        *spare = Some(text);
    }
}

// Puts the answer to an event, and a line in a version for each note given.
#[inline(always)] // once for each line
fn put_answer<W: Write>(
    outbox: &mut Outbox,
    writer: &mut W,
    version: Version,
    name: &Name,
    answered: Result<Answer, Refusal>,
    outs: &Vec<Given, Heap>,
) -> Result<(), WriteFault>
    ensures { Puts result outbox.old outbox.new (W.contents writer.old) (W.contents writer.new) (reply_line (response_to answered) ++ given_lines version name.now outs.now.items) }
{
    outbox.put_reply(writer, response_of(answered))?;
    put_all(outbox, writer, version, name, outs)
}

// The response to an event. That to an emission which was admitted is tested first, as by far the commonest.
#[inline(always)] // so that the commonest answer is known where it is put
fn response_of(answered: Result<Answer, Refusal>) -> Response
    ensures { result ≡ response_to answered }
{
    match answered {
        Ok(Answer::Admitted) => Response::Done,
        other => response_to(other),
    }
}

// Puts a line in a version for each note given. Which version that is is asked once, and not at each note.
#[inline(always)] // once for each line
fn put_all<W: Write>(
    outbox: &mut Outbox,
    writer: &mut W,
    version: Version,
    name: &Name,
    outs: &Vec<Given, Heap>,
) -> Result<(), WriteFault>
    ensures { Puts result outbox.old outbox.new (W.contents writer.old) (W.contents writer.new) (given_lines version name.now outs.now.items) }
{
    match version {
        Version::One => put_each(outbox, writer, Version::One, name, outs),
        Version::Two => put_placed(outbox, writer, name, outs),
    }
}

// Puts a line in the second version for each note given.
#[inline(never)] // so that the way of the first stays short
fn put_placed<W: Write>(
    outbox: &mut Outbox,
    writer: &mut W,
    name: &Name,
    outs: &Vec<Given, Heap>,
) -> Result<(), WriteFault>
    ensures { Puts result outbox.old outbox.new (W.contents writer.old) (W.contents writer.new) (given_lines Version.Two name.now outs.now.items) }
{
    put_each(outbox, writer, Version::Two, name, outs)
}

// Puts a line in a version, which is known where it is called, for each note given.
#[inline(always)] // so that the version is known
fn put_each<W: Write>(
    outbox: &mut Outbox,
    writer: &mut W,
    version: Version,
    name: &Name,
    outs: &Vec<Given, Heap>,
) -> Result<(), WriteFault>
    ensures { Puts result outbox.old outbox.new (W.contents writer.old) (W.contents writer.new) (given_lines version name.now outs.now.items) }
{
    for given in outs.iter() {
        put_given(outbox, writer, version, name, given.who, &given.note)?;
    }
    Ok(())
}
