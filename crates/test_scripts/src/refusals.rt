//! The worked runs with each of their growths refused in turn. The line that met it is answered `ERR MEMORY` and counts as
//! never sent: what is written is that for the script without this line, with this answer at its place. Or there is no run,
//! and nothing was read or written. An audit that met it wrote nothing, or a front of what it prints.

use crate::expectations::expect_told;
use crate::kinds::{Named, Room, Run, config_of, runs};
use crate::rows::{Row, rows};
use rx_heap::{Heap, Memory};
use rx_script::{run_audit, run_script};
use rx_session::SessionEnd;
use std::alloc::Global;
use std::test::Fail;

const MAX_READS: u64 = 4_294_967_296;

// No run here has as many growths.
const MAX_GROWTHS: u64 = 1_000;

const REFUSED: &[u8] = b"ERR MEMORY\n";

// A worked run over the standard configuration.
fn standard(row: &Row) -> Run {
    Run {
        name: row.0,
        kind: Named::Publish,
        room: Room::Wide,
        script: row.1,
        answers: row.2,
    }
}

/// The two ways in which the lines of a script are read.
#[derive(Clone, Copy)]
enum Way {
    Script,
    Audit,
}

// What is seen of the reading of a script.
#[derive(Drop)]
struct Seen {
    // Whether it ended for want of memory.
    is_ended: bool,
    is_read: bool,
    written: Vec<u8, Heap>,
}

// What came of a run with a growth refused.
#[derive(Clone, Copy)]
enum Met {
    // It had no such growth, and did what it is to do.
    Nothing,
    // It did what it is to do where a growth is refused. Whether it ended so.
    Refusal(bool),
    // It did what it is not to do.
    Fault,
}

impl Way {
    // What is seen of a script that grows by `tight`, over the subject of a run. All else is made by `free`.
    fn seen(self, free: &Heap, tight: &Heap, run: &Run, script: &[u8]) -> Result<Seen, Memory> {
        let heap = tight.clone()?;
        let mut written = Vec::new(free.clone()?);
        let mut rest = script;
        let config = config_of(free, run)?;
        let ended = match self {
            Way::Script => run_script(heap, config, &mut rest, &mut written, MAX_READS),
            Way::Audit => run_audit(heap, config, &mut rest, &mut written, MAX_READS),
        };
        Ok(Seen {
            is_ended: is_memory(ended)?,
            is_read: rest.len() < script.len(),
            written,
        })
    }

    // Whether a run that met a refusal did what it is to do; `whole` is what is written with ample memory.
    fn allows(self, heap: &Heap, run: &Run, whole: &[u8], seen: &Seen) -> Result<bool, Memory> {
        let written = seen.written.as_slice();
        match self {
            Way::Audit => Ok(seen.is_ended && whole.starts_with(written)),
            Way::Script if seen.is_ended => Ok(!seen.is_read && written.is_empty()),
            Way::Script => is_refused(heap, run, written),
        }
    }

    // Runs it with a growth refused.
    fn met(self, alloc: Global, growth: u64, run: &Run, whole: &[u8]) -> Result<Met, Memory> {
        let free = Heap::unlimited(alloc);
        let tight = Heap::refusing(alloc, growth)?;
        let seen = self.seen(&free, &tight, run, run.script)?;
        let is_met = tight.asked() > growth;
        let is_right = if is_met {
            self.allows(&free, run, whole, &seen)?
        } else {
            !seen.is_ended && seen.written.as_slice() == whole
        };
        // All bytes are back, whether or not one was refused.
        Ok(if !is_right || tight.used() != 0 {
            Met::Fault
        } else if is_met {
            Met::Refusal(seen.is_ended)
        } else {
            Met::Nothing
        })
    }

    // Runs it with each growth refused in turn. None where a run did what it is not to do.
    fn refusals(self, alloc: Global, run: &Run, whole: &[u8]) -> Result<Option<Refusals>, Memory> {
        let mut refusals = Refusals {
            ended: 0,
            went_on: 0,
        };
        for growth in 0..MAX_GROWTHS {
            match self.met(alloc, growth, run, whole)? {
                Met::Nothing => return Ok(Some(refusals)),
                Met::Fault => return Ok(None),
                Met::Refusal(is_ended) => refusals.count(is_ended),
            }
        }
        Ok(None)
    }
}

// An end that no script here has fails the test too.
fn is_memory(ended: Result<SessionEnd, Memory>) -> Result<bool, Memory> {
    match ended {
        Ok(SessionEnd::EndOfInput) => Ok(false),
        Ok(_) => Err(Memory),
        Err(Memory) => Ok(true),
    }
}

// How many runs ended at a refusal, and how many went on.
#[derive(Clone, Copy)]
struct Refusals {
    ended: u64,
    went_on: u64,
}

impl Refusals {
    fn count(&mut self, is_ended: bool) {
        if is_ended {
            self.ended = self.ended.saturating_add(1);
        } else {
            self.went_on = self.went_on.saturating_add(1);
        }
    }
}

// Whether this is written for a script of which one line was refused.
fn is_refused(heap: &Heap, run: &Run, written: &[u8]) -> Result<bool, Memory> {
    match refused_place(written) {
        Some(place) => Ok(written == wanted(heap, run, place)?.as_slice()),
        None => Ok(false),
    }
}

// What is to be written where the line at a place is refused.
fn wanted(heap: &Heap, run: &Run, place: usize) -> Result<Vec<u8, Heap>, Memory> {
    let script = without(heap, run.script, place)?;
    let seen = Way::Script.seen(heap, heap, run, script.as_slice())?;
    with_refusal(heap, seen.written.as_slice(), place)
}

// Whether a line that was written answers a line of the script, and tells no note.
fn is_answer(line: &[u8]) -> bool {
    line.starts_with(b"OK".as_slice()) || line.starts_with(b"ERR".as_slice())
}

// No text here has as many lines.
const MAX_LINES: usize = 1_000;

// The first line, with its LF, and what stands behind it.
fn cut_line(text: &[u8]) -> (&[u8], &[u8]) {
    let mut len: usize = 0;
    for byte in text {
        len = len.saturating_add(1);
        if *byte == b'\n' {
            break;
        }
    }
    text.split_at(len.min(text.len()))
}

// The place among the lines of the script of the one that was refused.
fn refused_place(written: &[u8]) -> Option<usize> {
    let mut rest = written;
    let mut place: usize = 0;
    for _ in 0..MAX_LINES {
        let (line, behind) = cut_line(rest);
        if line == REFUSED {
            return Some(place);
        }
        if is_answer(line) {
            place = place.saturating_add(1);
        }
        rest = behind;
    }
    None
}

// A script without the line at a place.
fn without(heap: &Heap, script: &[u8], place: usize) -> Result<Vec<u8, Heap>, Memory> {
    let mut left = Vec::new(heap.clone()?);
    let mut rest = script;
    for at in 0..MAX_LINES {
        let (line, behind) = cut_line(rest);
        if at != place {
            left.extend_from_slice(line)?;
        }
        rest = behind;
    }
    Ok(left)
}

// What is written, with the refusal as the answer at a place.
fn with_refusal(heap: &Heap, written: &[u8], place: usize) -> Result<Vec<u8, Heap>, Memory> {
    let mut all = Vec::new(heap.clone()?);
    let mut rest = written;
    let mut answers: usize = 0;
    for _ in 0..MAX_LINES {
        let (line, behind) = cut_line(rest);
        if is_answer(line) {
            if answers == place {
                all.extend_from_slice(REFUSED)?;
            }
            answers = answers.saturating_add(1);
        }
        all.extend_from_slice(line)?;
        rest = behind;
    }
    if answers == place {
        all.extend_from_slice(REFUSED)?;
    }
    Ok(all)
}

// What is wrong with a script; no text where nothing is.
fn fault_of_script(alloc: Global, run: &Run) -> Result<&'static str, Memory> {
    match Way::Script.refusals(alloc, run, run.answers)? {
        None => Ok("what was written"),
        Some(refusals) if refusals.ended == 0 => Ok("no run that was not made"),
        Some(refusals) if refusals.went_on == 0 && !run.script.is_empty() => Ok("no line refused"),
        Some(_) => Ok(""),
    }
}

// What is wrong with the audit of a script; no text where nothing is.
fn fault_of_audit(alloc: Global, run: &Run) -> Result<&'static str, Memory> {
    let free = Heap::unlimited(alloc);
    let whole = Way::Audit.seen(&free, &free, run, run.script)?;
    match Way::Audit.refusals(alloc, run, whole.written.as_slice())? {
        None => Ok("what was written"),
        Some(refusals) if refusals.ended == 0 => Ok("no refusal"),
        Some(_) => Ok(""),
    }
}

#[test]
fn scripts_with_each_growth_refused(rt: HostRuntime) -> Result<(), Fail> {
    for row in rows() {
        let fault = fault_of_script(rt.alloc(), &standard(row))?;
        expect_told(&rt, fault.as_bytes(), b"", &row.0);
    }
    for run in runs() {
        let fault = fault_of_script(rt.alloc(), run)?;
        expect_told(&rt, fault.as_bytes(), b"", &run.name);
    }
    Ok(())
}

#[test]
fn audits_with_each_growth_refused(rt: HostRuntime) -> Result<(), Fail> {
    for row in rows() {
        let fault = fault_of_audit(rt.alloc(), &standard(row))?;
        expect_told(&rt, fault.as_bytes(), b"", &row.0);
    }
    for run in runs() {
        let fault = fault_of_audit(rt.alloc(), run)?;
        expect_told(&rt, fault.as_bytes(), b"", &run.name);
    }
    Ok(())
}
