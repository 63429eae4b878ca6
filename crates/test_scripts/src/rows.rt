//! The worked runs: each a script for the standard configuration and what is written for it.

use crate::expectations::{Ran, expect_ran, expect_that};
use rx_config::Config;
use rx_heap::{Heap, Memory};
use rx_script::run_script;
use rx_session::SessionEnd;
use std::alloc::Global;
use std::io::{self, ErrorKind, Read, Write};
use std::test::Fail;

const MAX_READS: u64 = 4_294_967_296;

const FIRST_RUN: &[u8] =
    b"JOIN s BUFFER DELAY 0\nPUB s a\nPUB s b\nREQUEST s 0 1\nEND s\nREQUEST s 0 5\n";

const FIRST_ANSWERS: &[u8] = b"OK 0\nOK\nOK\nOK\ns 0 NEXT a\nOK\nOK\ns 0 NEXT b\ns 0 DONE\n";

// Runs a script over the standard configuration.
fn run<R: Read, W: Write>(
    alloc: Global,
    reader: &mut R,
    writer: &mut W,
    max_reads: u64,
) -> Result<SessionEnd, Memory> {
    let config = Config::standard(Heap::unlimited(alloc))?;
    run_script(Heap::unlimited(alloc), config, reader, writer, max_reads)
}

fn run_of<R: Read>(alloc: Global, reader: &mut R, max_reads: u64) -> Result<Ran, Memory> {
    let mut written = Vec::new(alloc);
    let end = run(alloc, reader, &mut written, max_reads)?;
    Ok(Ran { end, written })
}

/// A worked run: its name, its script, and what is written for it.
pub(crate) type Row = (&'static str, &'static [u8], &'static [u8]);

const ROWS: &[Row] = &[
    ("first_run", FIRST_RUN, FIRST_ANSWERS),
    ("empty_input", b"", b""),
    (
        "error_delayed",
        b"JOIN s BUFFER DELAY 1\nPUB s a\nPUB s b\nPUB s c\nFAIL s x\nREQUEST s 0 2\n",
        b"OK 0\nOK\ns 0 NEXT a\nOK\nOK\nOK\nOK\ns 0 NEXT b\ns 0 NEXT c\ns 0 FAILED x\n",
    ),
    (
        "texts_that_take_memory",
        b"JOIN s BUFFER DELAY 1\nPUB s the first of two long items\nPUB s the second of two long items\nFAIL s the end of the long items\nREQUEST s 0 1\n",
        b"OK 0\nOK\ns 0 NEXT the first of two long items\nOK\nOK\nOK\ns 0 NEXT the second of two long items\ns 0 FAILED the end of the long items\n",
    ),
    (
        "error_ahead",
        b"JOIN s BUFFER AHEAD 1\nPUB s a\nPUB s b\nPUB s c\nFAIL s x\nREQUEST s 0 3\n",
        b"OK 0\nOK\ns 0 NEXT a\nOK\nOK\nOK\ns 0 FAILED x\nOK\n",
    ),
    (
        "refusals_in_order",
        b"JOIN s BUFFER DELAY 0\nREQUEST s 0 0\nREQUEST s 7 0\nREQUEST s 0 4294967295\nREQUEST s 0 1\nREQUEST s 7 1\nEND s\nPUB s a\nPUB t a\n",
        b"OK 0\nERR ZERO\nERR ZERO\nOK\nERR TOOMUCH\nERR OBSERVER\nOK\ns 0 DONE\nERR ENDED\nERR SUBJECT\n",
    ),
    (
        "moments_of_64_bits",
        b"AT 5\nAT 18446744073709551615\nAT 18446744073709551616\nJOIN s BUFFER DELAY 1\nAT 0\nPUB s a\nAT\n",
        b"OK\nOK\nERR SYNTAX\nOK 0\nOK\nOK\ns 0 NEXT a\nERR SYNTAX\n",
    ),
    (
        "drop_zero_honours_demand",
        b"JOIN s DROP:0 DELAY 0\nPUB s a\nREQUEST s 0 1\nPUB s b\n",
        b"OK 0\nOK\nOK\nOK\ns 0 NEXT b\n",
    ),
    (
        "drop_two",
        b"JOIN s DROP:2 DELAY 0\nPUB s a\nPUB s b\nPUB s c\nPUB s d\nPUB s e\nREQUEST s 0 9\nREQUEST s 0 4294967289\n",
        b"OK 0\nOK\nOK\nOK\nOK\nOK\nOK\ns 0 NEXT a\ns 0 NEXT b\nERR TOOMUCH\n",
    ),
    (
        "latest_two",
        b"JOIN s LATEST:2 DELAY 1\nPUB s a\nPUB s b\nPUB s c\nPUB s d\nREQUEST s 0 5\nPUB s e\n",
        b"OK 0\nOK\ns 0 NEXT a\nOK\nOK\nOK\nOK\ns 0 NEXT c\ns 0 NEXT d\nOK\ns 0 NEXT e\n",
    ),
    (
        "latest_one_then_done",
        b"JOIN s LATEST:1 DELAY 0\nPUB s a\nPUB s b\nEND s\nREQUEST s 0 1\n",
        b"OK 0\nOK\nOK\nOK\nOK\ns 0 NEXT b\ns 0 DONE\n",
    ),
    (
        "overflow_delayed",
        b"JOIN s BOUNDED:1 DELAY 1\nPUB s a\nPUB s b\nPUB s c\nPUB s d\nREQUEST s 0 1\nEND s\n",
        b"OK 0\nOK\ns 0 NEXT a\nOK\nOK\nOK\nOK\ns 0 NEXT b\ns 0 FAILED OVERFLOW\nOK\n",
    ),
    (
        "overflow_ahead",
        b"JOIN s BOUNDED:1 AHEAD 1\nPUB s a\nPUB s b\nPUB s c\nREQUEST s 0 1\n",
        b"OK 0\nOK\ns 0 NEXT a\nOK\nOK\ns 0 FAILED OVERFLOW\nOK\n",
    ),
    (
        "overflow_room_zero",
        b"JOIN s BOUNDED:1025 DELAY 0\nJOIN s BOUNDED:0 DELAY 0\nJOIN s BUFFER DELAY 9\nPUB s a\n",
        b"ERR SYNTAX\nOK 0\nOK 1\nOK\ns 0 FAILED OVERFLOW\ns 1 NEXT a\n",
    ),
    (
        "overflow_of_a_producer",
        b"JOIN s BUFFER DELAY 0\nFAIL s OVERFLOW\nPUB s a\n",
        b"OK 0\nOK\ns 0 FAILED OVERFLOW\nERR ENDED\n",
    ),
];

/// The rows; handed out, so that what goes over them is proved without them.
pub(crate) fn rows() -> &'static [Row] {
    ROWS
}

#[test]
fn worked_runs(rt: HostRuntime) -> Result<(), Fail> {
    for (name, script, answers) in rows() {
        let mut reader = *script;
        let ran = run_of(rt.alloc(), &mut reader, MAX_READS)?;
        expect_ran(&rt, &ran, SessionEnd::EndOfInput, answers, name);
    }
    Ok(())
}

// Puts so many letters behind what there is, between a front and a back.
fn put_letters(
    bytes: &mut Vec<u8>,
    front: &[u8],
    letters: usize,
    back: &[u8],
) -> Result<(), Memory> {
    bytes.extend_from_slice(front)?;
    for _ in 0..letters {
        bytes.push(b'x')?;
    }
    bytes.extend_from_slice(back)?;
    Ok(())
}

// A text of the most bytes, and of one more; one of none, and none; a CR before the LF, and a last line without its LF.
#[test]
fn text_limits_on_the_line(rt: HostRuntime) -> Result<(), Fail> {
    let mut script = Vec::new(rt.alloc());
    put_letters(&mut script, b"JOIN s BUFFER DELAY 9\nPUB s ", 1_024, b"\n")?;
    put_letters(&mut script, b"PUB s ", 1_025, b"\n")?;
    script.extend_from_slice(b"PUB s \nPUB s\nPUB s a\r\nPUB s b")?;
    let mut answers = Vec::new(rt.alloc());
    put_letters(&mut answers, b"OK 0\nOK\ns 0 NEXT ", 1_024, b"\nERR LONG\n")?;
    answers.extend_from_slice(b"OK\ns 0 NEXT \nERR SYNTAX\nOK\ns 0 NEXT a\n")?;
    let mut reader = script.as_slice();
    let ran = run_of(rt.alloc(), &mut reader, MAX_READS)?;
    let end = SessionEnd::EndOfInput;
    expect_ran(
        &rt,
        &ran,
        end,
        answers.as_slice(),
        &"text_limits_on_the_line",
    );
    Ok(())
}

/// Gives a script a few bytes at a time, and fails as told.
#[derive(Drop)]
struct Drips {
    rest: &'static [u8],
    step: usize,
    interrupted: u64,
    fails_at: u64,
    reads: u64,
}

impl Read for Drips {
    fn read(&mut self, buf: &mut [u8]) -> io::Result<usize> {
        self.reads = self.reads.saturating_add(1);
        if self.reads <= self.interrupted {
            return Err(io::Error::from(ErrorKind::Interrupted));
        }
        if self.reads == self.fails_at {
            return Err(io::Error::from(ErrorKind::Other));
        }
        let len = self.step.min(self.rest.len()).min(buf.len());
        buf[..len].copy_from_slice(&self.rest[..len]);
        self.rest = &self.rest[len..];
        Ok(len)
    }
}

const STEPS: [usize; 5] = [1, 2, 3, 7, 64];

#[test]
fn reads_are_cut_anywhere(rt: HostRuntime) -> Result<(), Fail> {
    for step in &STEPS {
        let mut reader = Drips {
            rest: FIRST_RUN,
            step: *step,
            interrupted: 0,
            fails_at: 0,
            reads: 0,
        };
        let ran = run_of(rt.alloc(), &mut reader, MAX_READS)?;
        expect_ran(&rt, &ran, SessionEnd::EndOfInput, FIRST_ANSWERS, step);
    }
    Ok(())
}

// The most reads, the one that fails, how the script ends, and what is written.
const INTERRUPTED: [(u64, u64, SessionEnd, &str); 3] = [
    (3, 0, SessionEnd::Quit, "OK\n"),
    (2, 0, SessionEnd::TooManyReads, ""),
    (9, 3, SessionEnd::ReadFault, ""),
];

// How many bytes of the first script a line that is complete ends behind, and how many are answered then.
const ANSWERED: [(usize, usize); 7] = [
    (0, 0),
    (22, 5),
    (30, 8),
    (38, 11),
    (52, 25),
    (58, 28),
    (72, 51),
];

// How many bytes are written for the lines of the first script that are complete within so many bytes of it.
fn answered(read: usize) -> usize {
    let mut written = 0;
    for (end, answered) in &ANSWERED {
        if *end <= read {
            written = *answered;
        }
    }
    written
}

// A read that fails behind so many bytes of the first script, one a read.
fn failing_behind(read: usize) -> Drips {
    Drips {
        rest: FIRST_RUN,
        step: 1,
        interrupted: 0,
        fails_at: (read as u64).saturating_add(1),
        reads: 0,
    }
}

// The lines that are complete by then are answered.
#[test]
fn reader_fails_at_each_read(rt: HostRuntime) -> Result<(), Fail> {
    for read in 0..=FIRST_RUN.len() {
        let ran = run_of(rt.alloc(), &mut failing_behind(read), MAX_READS)?;
        let written = &FIRST_ANSWERS[..answered(read).min(FIRST_ANSWERS.len())];
        expect_ran(&rt, &ran, SessionEnd::ReadFault, written, &read);
    }
    Ok(())
}

#[test]
fn interrupted_reads(rt: HostRuntime) -> Result<(), Fail> {
    for (max_reads, fails_at, end, answers) in &INTERRUPTED {
        let mut reader = Drips {
            rest: b"QUIT\n",
            step: 16,
            interrupted: 2,
            fails_at: *fails_at,
            reads: 0,
        };
        let ran = run_of(rt.alloc(), &mut reader, *max_reads)?;
        expect_ran(&rt, &ran, *end, answers.as_bytes(), max_reads);
        expect_that(&rt, reader.reads <= *max_reads, max_reads);
    }
    Ok(())
}

/// Takes so many bytes, one at a time, and then fails.
#[derive(Drop)]
struct Full {
    taken: Vec<u8>,
    room: usize,
}

impl Write for Full {
    fn write(&mut self, buf: &[u8]) -> io::Result<usize> {
        if self.taken.len() >= self.room {
            return Err(io::Error::from(ErrorKind::Other));
        }
        let len = buf.len().min(1);
        self.taken.extend_from_slice(&buf[..len])?;
        Ok(len)
    }

    fn flush(&mut self) -> io::Result<()> {
        Ok(())
    }
}

// Runs the first script with a writer of so much room.
fn run_in(alloc: Global, room: usize) -> Result<Ran, Memory> {
    let mut writer = Full {
        taken: Vec::new(alloc),
        room,
    };
    let mut reader = FIRST_RUN;
    let end = run(alloc, &mut reader, &mut writer, MAX_READS)?;
    Ok(Ran {
        end,
        written: writer.taken,
    })
}

#[test]
fn writer_fails_at_each_byte(rt: HostRuntime) -> Result<(), Fail> {
    for room in 0..FIRST_ANSWERS.len() {
        let ran = run_in(rt.alloc(), room)?;
        let written = &FIRST_ANSWERS[..room];
        expect_ran(&rt, &ran, SessionEnd::WriteFault, written, &room);
    }
    Ok(())
}

/// Takes all that is written, and counts the writes.
#[derive(Drop)]
struct Counts {
    writes: u64,
}

impl Write for Counts {
    fn write(&mut self, buf: &[u8]) -> io::Result<usize> {
        self.writes = self.writes.saturating_add(1);
        Ok(buf.len())
    }

    fn flush(&mut self) -> io::Result<()> {
        Ok(())
    }
}

// How many bytes of the first script a read gives, and how often is written: once for each read behind which a line is
// complete.
const GATHERED: [(usize, u64); 3] = [(72, 1), (30, 3), (1, 6)];

#[test]
fn answers_are_gathered(rt: HostRuntime) -> Result<(), Fail> {
    for (step, writes) in &GATHERED {
        let mut reader = Drips {
            rest: FIRST_RUN,
            step: *step,
            interrupted: 0,
            fails_at: 0,
            reads: 0,
        };
        let mut writer = Counts { writes: 0 };
        let end = run(rt.alloc(), &mut reader, &mut writer, MAX_READS)?;
        expect_that(&rt, end == SessionEnd::EndOfInput, step);
        expect_that(&rt, writer.writes == *writes, step);
    }
    Ok(())
}

/// Gives a script, a line a read, and tells how many bytes were in use at the last read.
#[derive(Drop)]
struct Watched<'a> {
    rest: &'a [u8],
    heap: Heap,
    used: u64,
}

impl Read for Watched<'_> {
    fn read(&mut self, buf: &mut [u8]) -> io::Result<usize> {
        self.used = self.heap.used();
        let line = match self.rest.iter().position(|byte| *byte == b'\n') {
            Some(place) => place.saturating_add(1),
            None => self.rest.len(),
        };
        let len = line.min(self.rest.len()).min(buf.len());
        buf[..len].copy_from_slice(&self.rest[..len]);
        self.rest = &self.rest[len..];
        Ok(len)
    }
}

// A script in which two items of so many letters are given at once.
fn script_of_items(alloc: Global, len: usize) -> Result<Vec<u8>, Memory> {
    let mut script = Vec::new(alloc);
    script.extend_from_slice(b"JOIN s BUFFER DELAY 9\n")?;
    for _ in 0..2 {
        put_filled(&mut script, b"PUB s ", len, b"\n")?;
    }
    Ok(script)
}

// The bytes in use behind the last line of that script, by a budget.
fn used_behind(alloc: Global, heap: &Heap, len: usize) -> Result<u64, Memory> {
    let script = script_of_items(alloc, len)?;
    let mut reader = Watched {
        rest: script.as_slice(),
        heap: heap.clone()?,
        used: 0,
    };
    let config = Config::standard(heap.clone()?)?;
    let mut writer = Counts { writes: 0 };
    run_script(heap.clone()?, config, &mut reader, &mut writer, MAX_READS)?;
    Ok(reader.used)
}

// Under a limit no text is kept once its item was given, so that a long one leaves what one does that takes no memory. Behind
// the script nothing is in use.
#[test]
fn a_script_keeps_no_text_under_a_limit(rt: HostRuntime) -> Result<(), Fail> {
    let heap = Heap::with_budget(rt.alloc(), u64::MAX)?;
    let short = used_behind(rt.alloc(), &heap, 1)?;
    expect_that(&rt, short > 0, &"bytes of a hub");
    for len in [30, 60, 200, 400, 1_024] {
        let used = used_behind(rt.alloc(), &heap, len)?;
        expect_that(&rt, used == short, &len);
        expect_that(&rt, heap.used() == 0, &len);
    }
    Ok(())
}

fn put_filled(script: &mut Vec<u8>, front: &[u8], len: usize, end: &[u8]) -> Result<(), Memory> {
    script.extend_from_slice(front)?;
    for _ in 0..len {
        script.push(b'x')?;
    }
    script.extend_from_slice(end)?;
    Ok(())
}

// Lines of letters x: what stands before them, how many they are, and how the line ends.
const FILLED: [(&str, usize, &str); 5] = [
    ("", 1100, "\n"),
    ("", 1101, "\n"),
    ("", 1100, "\r\n"),
    ("", 40000, "\n"),
    ("PUB S ", 1025, "\nPUB s a\nPUB s b"),
];

fn script_of_long_lines(alloc: Global) -> Result<Vec<u8>, Memory> {
    let mut script = Vec::new(alloc);
    for (front, len, end) in &FILLED {
        put_filled(&mut script, front.as_bytes(), *len, end.as_bytes())?;
    }
    Ok(script)
}

#[test]
fn limits_of_a_line(rt: HostRuntime) -> Result<(), Fail> {
    let script = script_of_long_lines(rt.alloc())?;
    let ran = run_of(rt.alloc(), &mut script.as_slice(), MAX_READS)?;
    let answers = b"ERR SYNTAX\nERR LONG\nERR SYNTAX\nERR LONG\nERR SYNTAX\nOK\n".as_slice();
    expect_ran(&rt, &ran, SessionEnd::EndOfInput, answers, &"long lines");
    Ok(())
}
