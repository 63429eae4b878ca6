ghost use Rattle.std.specs.Prelude.{◌≡◌, ◌≤◌, length, ◌++◌, None, IfOk, MatchResult};
ghost use Rattle.rx_script.specs.Audits.{Audits, BreaksOff, Enters, EntersAsked, Follows, Learns, audit_written, note_lines, observed_lines, prints, state_in, subject_in, subject_written, subjects_in};
ghost use Rattle.rx_proto.specs.Bytes.{AppendsPrefix, Writes};
ghost use Rattle.rx_lines.specs.Bytes.{Puts};
ghost use Rattle.rx_proto.specs.Reading.{script_read};
ghost use Rattle.rx_script.specs.Scripts.{new_subjects};

use crate::asked::{Asked, asked_at};
use crate::ledger::Ledger;
use crate::ledger_list::{enter, ledgers_of};
use crate::observed::Observed;
use crate::printed_note::{put_marked, put_observer};
use rx_config::Config;
use rx_heap::{Heap, Memory};
use rx_note::Note;
use rx_proto::{LineError, Name, WriteFault, parse_script};
use rx_session::{LineState, Outbox, SessionEnd, Step};
use std::io::{Read, Write};

/// An audit that reads: its ledgers, and the moment of the events that follow, in milliseconds.
pub(crate) struct Audit {
    ledgers: Vec<Ledger, Heap>,
    moment: u64,
}

// By hand: rx_heap says why.
impl Drop for Audit {
    fn drop(self) {
        let Audit {
            ledgers: _,
            moment: _,
        } = self;
    }
}

/// Reads the lines of a script over the subjects of a configuration and answers none. At the end of the input, or at
/// QUIT, it prints for each observer what it was given and what waits for it, as stored histories tell it.
///
/// `Memory` means that a line or a history found no memory; then a prefix of that was written, or nothing.
pub fn run_audit<R: Read, W: Write>(
    alloc: Heap,
    config: Config,
    reader: &mut R,
    writer: &mut W,
    max_reads: u64,
) -> Result<SessionEnd, Memory>
    ensures { MatchResult result (λ end. Audits (new_subjects config.subjects.items) end (R.remaining reader.old) (R.remaining reader.new) (W.contents writer.old) (W.contents writer.new)) (λ _. BreaksOff (new_subjects config.subjects.items) (R.remaining reader.old) (R.remaining reader.new) (W.contents writer.old) (W.contents writer.new)) }
{
    let mut audit = Audit {
        ledgers: ledgers_of(&alloc, config.subjects)?,
        moment: 0,
    };
    let end = enter_all(&alloc, &mut audit, reader, max_reads)?;
    if !prints(end) {
        return Ok(end);
    }
    match write_audit(writer, &audit.ledgers)? {
        Ok(()) => Ok(end),
        Err(_) => Ok(SessionEnd::WriteFault),
    }
}

// Whether the audit is printed at this end.
fn prints(end: SessionEnd) -> bool
    ensures { result ≡ prints end }
{
    match end {
        SessionEnd::Quit | SessionEnd::EndOfInput => true,
        SessionEnd::HandedOver
        | SessionEnd::ReadFault
        | SessionEnd::WriteFault
        | SessionEnd::TooManyReads => false,
    }
}

// Adds the events of all the lines to their ledgers.
fn enter_all<R: Read>(
    alloc: &Heap,
    audit: &mut Audit,
    reader: &mut R,
    max_reads: u64,
) -> Result<SessionEnd, Memory>
    ensures { IfOk result (λ end. Learns (state_in audit.old) (subjects_in audit.new.ledgers.items) end (R.remaining reader.old) (R.remaining reader.new)) }
{
    let mut lines = LineState::new(max_reads);
    loop {
        if let Some(end) = enter_next(alloc, audit, &mut lines, reader)? {
            return Ok(end);
        }
    }
}

// Reads the next line and does what it asks. How the input ended, if it did.
fn enter_next<R: Read>(
    alloc: &Heap,
    audit: &mut Audit,
    lines: &mut LineState,
    reader: &mut R,
) -> Result<Option<SessionEnd>, Memory>
    requires { lines.old.end ≡ None }
    ensures { IfOk result (λ end. Follows end (state_in audit.old) (state_in audit.new) (R.remaining reader.old) (R.remaining reader.new) lines.old lines.new) }
{
    match lines.advance(reader) {
        Step::Line(len) => enter_line(alloc, audit, lines.line(len)),
        Step::Long => Ok(None),
        Step::EndOfInput => Ok(Some(SessionEnd::EndOfInput)),
        Step::ReadFault => Ok(Some(SessionEnd::ReadFault)),
        Step::TooManyReads => Ok(Some(SessionEnd::TooManyReads)),
    }
}

// Does what a line asks, if it has a meaning.
fn enter_line(alloc: &Heap, audit: &mut Audit, line: &[u8]) -> Result<Option<SessionEnd>, Memory>
    ensures { IfOk result (λ end. Enters end (state_in audit.old) (state_in audit.new) (script_read line.now)) }
{
    match parse_script(alloc, line) {
        Ok(line) => enter_asked(audit, asked_at(line, audit.moment)),
        Err(LineError::Long) => Ok(None),
        Err(LineError::Syntax) => Ok(None),
        Err(LineError::Memory) => Err(Memory),
    }
}

// Adds the event that a line asks for, or sets the moment, or ends at QUIT. A HELLO is passed over.
fn enter_asked(audit: &mut Audit, asked: Asked) -> Result<Option<SessionEnd>, Memory>
    ensures { IfOk result (λ end. EntersAsked end (state_in audit.old) (state_in audit.new) asked) }
{
    match asked {
        Asked::Quit => Ok(Some(SessionEnd::Quit)),
        Asked::At(moment) => {
            audit.moment = moment;
            Ok(None)
        }
        Asked::Hello(_) => Ok(None),
        Asked::Event(name, event) => {
            enter(&mut audit.ledgers, &name, event)?;
            Ok(None)
        }
    }
}

// Writes the audit of all ledgers.
fn write_audit<W: Write>(
    writer: &mut W,
    ledgers: &Vec<Ledger, Heap>,
) -> Result<Result<(), WriteFault>, Memory>
    ensures { MatchResult result (λ written. Writes written (W.contents writer.old) (W.contents writer.new) (audit_written (subjects_in ledgers.now.items))) (λ _. AppendsPrefix (W.contents writer.old) (W.contents writer.new) (audit_written (subjects_in ledgers.now.items))) }
{
    let mut outbox = Outbox::new();
    for ledger in ledgers.iter() {
        if let Err(fault) = put_ledger(&mut outbox, writer, ledger)? {
            return Ok(Err(fault));
        }
    }
    Ok(outbox.flush(writer))
}

// Puts the lines of each observer of a ledger, by rising number.
fn put_ledger<W: Write>(
    outbox: &mut Outbox,
    writer: &mut W,
    ledger: &Ledger,
) -> Result<Result<(), WriteFault>, Memory>
    ensures { MatchResult result (λ put. Puts put outbox.old outbox.new (W.contents writer.old) (W.contents writer.new) (subject_written (subject_in ledger.now))) (λ _. AppendsPrefix (W.contents writer.old) (W.contents writer.new) (outbox.old ++ subject_written (subject_in ledger.now))) }
{
    for who in 0..ledger.subject.rules.limits.joins {
        let Some(observed) = ledger.observed(who)? else {
            return Ok(Ok(()));
        };
        if let Err(fault) = put_observed(outbox, writer, &ledger.subject.name, who, &observed) {
            return Ok(Err(fault));
        }
    }
    Ok(Ok(()))
}

// Puts the lines of an observer.
fn put_observed<W: Write>(
    outbox: &mut Outbox,
    writer: &mut W,
    name: &Name,
    who: u32,
    observed: &Observed,
) -> Result<(), WriteFault>
    ensures { Puts result outbox.old outbox.new (W.contents writer.old) (W.contents writer.new) (observed_lines name.now who observed.now.given.items observed.now.waiting.items) }
{
    put_observer(outbox, writer, name, who)?;
    put_notes(outbox, writer, b"GIVEN ", &observed.given)?;
    put_notes(outbox, writer, b"WAITING ", &observed.waiting)
}

// Puts a line for each note, with this mark before it, of at most 16 bytes.
fn put_notes<W: Write>(
    outbox: &mut Outbox,
    writer: &mut W,
    mark: &[u8],
    notes: &Vec<Note, Heap>,
) -> Result<(), WriteFault>
    requires { length mark.now ≤ 16 }
    ensures { Puts result outbox.old outbox.new (W.contents writer.old) (W.contents writer.new) (note_lines mark.now notes.now.items) }
{
    for note in notes.iter() {
        put_marked(outbox, writer, mark, note)?;
    }
    Ok(())
}
