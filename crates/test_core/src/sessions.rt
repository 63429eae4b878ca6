//! Sessions over memory: a reader that gives its bytes in pieces, a writer with a bounded room, and a desk that answers all
//! alike.
//!
//! Told is how a session ended (Q for QUIT, E for the end of the input, H for handed over, R for a fault of the reader, W for
//! one of the writer, T for too many reads), then what was written, and behind `|` what the desk was asked: `n`, `c` and `f`
//! for an item, completion and an error, and `s` for a Join in the first version, `t` for one in the second.
use crate::clerk::Clerk;
use crate::drips::{Drips, dripping};
use crate::expectations::{expect_count, expect_told};
use crate::heaps::unlimited;
use crate::protocol::filled;
use crate::sheet::{Sheet, blank};
use rx_heap::{Heap, Memory};
use rx_session::{LineReader, LineState, Next, SessionEnd, serve_lines};
use std::io::{self, ErrorKind, Read};
use std::test::Fail;
use test_kit::Told;

fn sign_of_end(end: SessionEnd) -> u8 {
    match end {
        SessionEnd::Quit => b'Q',
        SessionEnd::EndOfInput => b'E',
        SessionEnd::HandedOver => b'H',
        SessionEnd::ReadFault => b'R',
        SessionEnd::WriteFault => b'W',
        SessionEnd::TooManyReads => b'T',
    }
}

// What a session came to.
fn told_of(heap: &Heap, reader: &mut Drips, writer: Sheet, takes: bool, max_reads: u64) -> Told {
    let mut clerk = Clerk::new(heap, takes);
    let (end, back) = serve_lines(reader, writer, &mut clerk, max_reads);
    let mut told = Told::new();
    told.put(sign_of_end(end));
    if let Some(sheet) = &back {
        told.put_all(sheet.held.as_bytes());
    }
    told.put(b'|');
    told.put_all(clerk.asked.as_bytes());
    told
}

// The input, how many bytes a read gives, whether the desk keeps the writer, the most reads, and what is told.
const SESSIONS: &[(&str, usize, bool, u64, &str)] = &[
    (
        "PUB s a\nNOPE\nQUIT\nPUB s b\n",
        7,
        true,
        99,
        "QOK\nERR SYNTAX\nOK\n|n",
    ),
    (
        "PUB t a\nFAIL t a\nEND t\nPUB s a\n",
        64,
        true,
        99,
        "EERR SUBJECT\nERR SUBJECT\nERR SUBJECT\nOK\n|n",
    ),
    ("SUB s BUFFER DELAY\nPUB s a\n", 64, true, 99, "H|s"),
    (
        "HELLO 3\nHELLO 2\nSUB s BUFFER DELAY\n",
        64,
        false,
        99,
        "EERR VERSION\nOK\nERR FULL\n|t",
    ),
    (
        "HELLO 2\nHELLO 0\nSUB s BUFFER DELAY\nSUB s BUFFER DELAY\nHELLO 1\nSUB s BUFFER DELAY\n",
        5,
        false,
        99,
        "EOK\nERR VERSION\nERR FULL\nERR FULL\nOK\nERR FULL\n|tts",
    ),
    ("HELLO 2\nSUB s BUFFER DELAY\n", 64, true, 99, "H|t"),
    (
        "SUB s BUFFER DELAY\nFAIL s a\nEND s\n",
        7,
        false,
        99,
        "EERR FULL\nOK\nOK\n|sfc",
    ),
    ("PUB s a\r\nPUB s b", 3, true, 99, "EOK\n|n"),
    (
        "\n\n\n\n\n\n\n",
        1,
        true,
        5,
        "TERR SYNTAX\nERR SYNTAX\nERR SYNTAX\nERR SYNTAX\nERR SYNTAX\n|",
    ),
    ("", 1, true, 1, "E|"),
    ("", 1, true, 0, "T|"),
];

// Hands the table out, so that what goes over it is proved without its rows.
fn sessions() -> &'static [(&'static str, usize, bool, u64, &'static str)] {
    SESSIONS
}

#[test]
fn session_over_memory(rt: HostRuntime) {
    let heap = unlimited(&rt);
    for (input, step, takes, max_reads, told) in sessions() {
        let mut reader = dripping(input.as_bytes(), *step);
        let told_now = told_of(&heap, &mut reader, blank(4096), *takes, *max_reads);
        expect_told(&rt, told_now.as_bytes(), told, input);
    }
}

// An input, between which of its bytes it is cut, and what is told then.
const CUT: &[u8] = b"PUB s a\nNOPE\nQUIT\nPUB s b\n";

const CUTS: [(usize, usize, &str); 4] = [
    (0, 8, "E|"),
    (8, 13, "EOK\n|n"),
    (13, 18, "EOK\nERR SYNTAX\n|n"),
    (18, 27, "QOK\nERR SYNTAX\nOK\n|n"),
];

// What is answered is what the complete lines ask, wherever the input ends and however it is read.
#[test]
fn input_cut_anywhere(rt: HostRuntime) {
    let heap = unlimited(&rt);
    for (from, to, told) in &CUTS {
        for len in *from..*to {
            for step in [1, 5, 64] {
                let mut reader = dripping(&CUT[..len.min(CUT.len())], step);
                let told_now = told_of(&heap, &mut reader, blank(4096), true, 99);
                expect_told(&rt, told_now.as_bytes(), told, "an input that is cut");
            }
        }
    }
}

// How many of the bytes were read when a read fails, up to where, and what is told.
const BROKEN: [(u64, u64, &str); 3] = [
    (0, 8, "R|"),
    (8, 13, "ROK\n|n"),
    (13, 18, "ROK\nERR SYNTAX\n|n"),
];

// The lines that are complete by then are answered.
#[test]
fn reader_fails_at_each_read(rt: HostRuntime) {
    let heap = unlimited(&rt);
    for (from, to, told) in &BROKEN {
        for read in *from..*to {
            let mut reader = dripping(CUT, 1);
            reader.fails_at = read.saturating_add(1);
            let told_now = told_of(&heap, &mut reader, blank(4096), true, 99);
            expect_told(&rt, told_now.as_bytes(), told, "a reader that fails");
        }
    }
}

// How many reads are interrupted, which one fails and how, the most reads, what is told, and how many are made.
const FAILING_READS: [(u64, u64, ErrorKind, u64, &str, u64); 5] = [
    (2, 0, ErrorKind::Other, 3, "QOK\n|", 3),
    (2, 0, ErrorKind::Other, 2, "T|", 2),
    (2, 3, ErrorKind::Other, 9, "R|", 3),
    (0, 1, ErrorKind::WouldBlock, 9, "R|", 1),
    (0, 1, ErrorKind::WouldBlock, 1, "R|", 1),
];

// A read that was interrupted is made again, and counts; no other that failed is.
#[test]
fn reads_that_fail(rt: HostRuntime) {
    let heap = unlimited(&rt);
    for (interrupted, fails_at, kind, max_reads, told, reads) in &FAILING_READS {
        let mut reader = dripping(b"QUIT\n", 16);
        reader.interrupted = *interrupted;
        reader.fails_at = *fails_at;
        reader.kind = *kind;
        let told_now = told_of(&heap, &mut reader, blank(4096), true, *max_reads);
        expect_told(&rt, told_now.as_bytes(), told, "reads that fail");
        expect_count(&rt, reader.reads, *reads, told);
    }
}

const LINES: &[u8] = b"END s\nEND s\nQUIT\n";

// How many bytes the writer takes, and what is told.
const ROOMS: [(usize, &str); 7] = [
    (0, "W|c"),
    (1, "WO|c"),
    (2, "WOK|c"),
    (3, "WOK\n|cc"),
    (5, "WOK\nOK|cc"),
    (8, "WOK\nOK\nOK|cc"),
    (9, "QOK\nOK\nOK\n|cc"),
];

#[test]
fn writer_fails_at_each_byte(rt: HostRuntime) {
    let heap = unlimited(&rt);
    for (room, told) in &ROOMS {
        let mut reader = dripping(LINES, 6);
        let told_now = told_of(&heap, &mut reader, blank(*room), true, 99);
        expect_told(&rt, told_now.as_bytes(), told, "a writer with little room");
    }
}

// Which flush fails, none by 0, and what is told.
const FLUSHES: [(u64, &str); 6] = [
    (0, "QOK\nOK\nOK\n|cc"),
    (1, "W|"),
    (2, "WOK\n|c"),
    (3, "WOK\nOK\n|cc"),
    (4, "WOK\nOK\nOK\n|cc"),
    (5, "QOK\nOK\nOK\n|cc"),
];

// All is flushed before each read and at the end, and a flush that fails ends the session.
#[test]
fn flushes_are_made(rt: HostRuntime) {
    let heap = unlimited(&rt);
    for (fails_at, told) in &FLUSHES {
        let mut writer = blank(4096);
        writer.fails_at = *fails_at;
        let mut reader = dripping(LINES, 6);
        let told_now = told_of(&heap, &mut reader, writer, true, 99);
        expect_told(&rt, told_now.as_bytes(), told, "a flush that fails");
    }
}

// How often a session wrote to a writer that takes all, and flushed it.
fn counts_of(heap: &Heap, step: usize) -> (u64, u64) {
    let mut clerk = Clerk::new(heap, true);
    let mut writer = blank(4096);
    writer.step = usize::MAX;
    match serve_lines(&mut dripping(LINES, step), writer, &mut clerk, 99) {
        (_, Some(sheet)) => (sheet.writes, sheet.flushes),
        (_, None) => (0, 0),
    }
}

// How many bytes a read gives, and how often is written and flushed: once for all that a read brought, and before the first.
const GATHERED: [(usize, u64, u64); 3] = [(6, 3, 4), (12, 2, 3), (64, 1, 2)];

#[test]
fn answers_are_gathered(rt: HostRuntime) {
    let heap = unlimited(&rt);
    for (step, writes, flushes) in &GATHERED {
        let (wrote, flushed) = counts_of(&heap, *step);
        expect_count(&rt, wrote, *writes, "writes");
        expect_count(&rt, flushed, *flushes, "flushes");
    }
}

// What is told of a session of one line, of a front and so many letters.
fn told_of_line(heap: &Heap, free: &Heap, front: &str, len: usize) -> Result<Told, Fail> {
    let mut line = filled(free, front.as_bytes(), len)?;
    line.push(b'\n')?;
    let mut clerk = Clerk::new(heap, false);
    let mut reader = line.as_slice();
    let (end, _writer) = serve_lines(&mut reader, blank(4096), &mut clerk, 99);
    let mut told = Told::new();
    told.put(sign_of_end(end));
    told.put_all(clerk.asked.as_bytes());
    Ok(told)
}

// A session whose desk keeps nothing leaves nothing in use, whatever the length of a text.
#[test]
fn a_session_leaves_nothing(rt: HostRuntime) -> Result<(), Fail> {
    let heap = Heap::with_budget(rt.alloc(), u64::MAX)?;
    for len in [1, 30, 60, 200, 400, 1_024] {
        for (front, wanted) in [("PUB s ", "En"), ("FAIL s ", "Ef")] {
            let told = told_of_line(&heap, &unlimited(&rt), front, len)?;
            expect_told(&rt, told.as_bytes(), wanted, front);
            expect_count(&rt, heap.used(), 0, "bytes that were not given back");
        }
    }
    Ok(())
}

// How many letters a text has behind its front, and what is answered where there are 64 bytes for texts: a subject is looked for
// first, and a text of up to 20 bytes takes none.
const SCARCE: [(&str, usize, &str); 5] = [
    ("PUB s ", 20, "OK\n"),
    ("PUB s ", 200, "ERR MEMORY\n"),
    ("FAIL s ", 200, "ERR MEMORY\n"),
    ("PUB t ", 200, "ERR SUBJECT\n"),
    ("FAIL t ", 200, "ERR SUBJECT\n"),
];

#[test]
fn a_text_is_made_of_the_memory_of_its_subject(rt: HostRuntime) -> Result<(), Fail> {
    let heap = Heap::with_budget(rt.alloc(), 64)?;
    for (front, len, answer) in &SCARCE {
        let mut line = filled(&unlimited(&rt), front.as_bytes(), *len)?;
        line.push(b'\n')?;
        let mut clerk = Clerk::new(&heap, true);
        let (_end, back) = serve_lines(&mut line.as_slice(), blank(4096), &mut clerk, 99);
        let sheet = back.ok_or(Memory)?;
        expect_told(&rt, sheet.held.as_bytes(), answer, front);
        expect_count(&rt, heap.used(), 0, "bytes that were not given back");
    }
    Ok(())
}

// What a reader of lines tells next: the length of a line, or a letter.
fn told_next(lines: &mut LineReader<Drips>) -> u64 {
    match lines.next() {
        Next::Line(line) => line.len() as u64,
        Next::Long => 10_000,
        Next::EndOfInput => 20_000,
        Next::ReadFault => 30_000,
        Next::TooManyReads => 40_000,
    }
}

#[test]
fn lines_are_told_however_reads_are_cut(rt: HostRuntime) {
    for step in [1, 2, 3, 7, 64] {
        let mut lines = LineReader::new(dripping(b"ab\r\n\r\r\n\nabc\nd", step), 99);
        for told in [2, 1, 0, 3, 20_000, 20_000] {
            expect_count(&rt, told_next(&mut lines), told, "the next line");
        }
    }
}

/// Gives what a peer writes: writes of one size, each of them a line and behind it what is left for the next one, so many
/// bytes. A read gives no bytes of two writes.
#[derive(Drop)]
struct Writes {
    size: usize,
    left: usize,
    // Of the write at hand so many bytes were given.
    given: usize,
    reads: u64,
    // The least that a read was asked for.
    least: usize,
}

impl Read for Writes {
    fn read(&mut self, buf: &mut [u8]) -> io::Result<usize> {
        self.reads = self.reads.saturating_add(1);
        self.least = self.least.min(buf.len());
        if self.given >= self.size {
            self.given = 0;
        }
        let len = self.size.saturating_sub(self.given).min(buf.len());
        let line = self.size.saturating_sub(self.left).saturating_sub(1);
        buf[..len].fill(b'x');
        if let Some(ahead) = line.checked_sub(self.given)
            && let Some(end) = buf[..len].get_mut(ahead)
        {
            *end = b'\n';
        }
        self.given = self.given.saturating_add(len);
        Ok(len)
    }
}

fn writes_of(size: usize, left: usize) -> Writes {
    Writes {
        size,
        left,
        given: 0,
        reads: 0,
        least: usize::MAX,
    }
}

// The bytes of a write, how many of them are left for the next line, and the least that a read is asked for.
const WRITES: [(usize, usize, u64); 6] = [
    (8_192, 0, 8_192),
    (7_000, 0, 8_192),
    (7_000, 1, 8_191),
    (7_091, 1_101, 7_091),
    (8_192, 1_102, 8_192),
    (7_000, 3_000, 8_192),
];

// Before a read what is left of a line goes to the front of its block: up to 1,101 bytes, and none of a longer one. So writes
// of nearly a block cost a read each.
#[test]
fn writes_cost_a_read_each(rt: HostRuntime) {
    for (size, left, least) in &WRITES {
        let mut reader = writes_of(*size, *left);
        let mut lines = LineState::new(99);
        for _ in 0..40 {
            lines.advance(&mut reader);
        }
        expect_count(&rt, reader.reads, 40, "40 writes");
        expect_count(&rt, reader.least as u64, *least, "what a read is asked for");
    }
}
