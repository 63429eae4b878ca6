//! Open sessions over memory: a reader and a writer that would block as often as their row says, and a desk that answers all
//! alike. However reads and writes are cut, a session by turns tells what `serve_lines` tells.
//!
//! Told is how a session ended (Q for QUIT, E for the end of the input, H for handed over, W for a fault of the writer, R for one
//! of the reader, M for too many reads), then what was written, and behind `|` what the desk was asked: `n`, `c` and `f` for an item, completion and an error, and `s` for
//! a Join in the first version, `t` for one in the second, with the count of the bytes that the writer had then.

use crate::expectations::{expect_count, expect_told};
use crate::heaps::unlimited;
use crate::scribe::{Scribe, writing};
use rx_heap::Heap;
use rx_session::{OpenSession, SessionEnd, Turn, serve_lines};
use std::io::{self, ErrorKind, Read, Write};
use test_kit::Told;

// How often a call would block before one that does something.
#[derive(Drop)]
struct Pauses {
    each: u64,
    left: u64,
}

impl Pauses {
    fn new(each: u64) -> Pauses {
        Pauses { each, left: each }
    }

    fn wait(&mut self) -> io::Result<()> {
        if let Some(left) = self.left.checked_sub(1) {
            self.left = left;
            return Err(io::Error::from(ErrorKind::WouldBlock));
        }
        self.left = self.each;
        Ok(())
    }
}

/// What a peer sends: a unit so many times, and then the rest.
#[derive(Clone, Copy)]
struct Input {
    unit: &'static str,
    times: usize,
    rest: &'static str,
}

impl Input {
    // The next bytes, as far as they stand in one piece.
    fn piece(&self) -> &'static [u8] {
        if self.times > 0 {
            self.unit.as_bytes()
        } else {
            self.rest.as_bytes()
        }
    }
}

/// Gives an input, so many bytes of it a read.
#[derive(Drop)]
struct Halts {
    input: Input,
    // Of the piece at hand so many bytes were given.
    given: usize,
    step: usize,
    pauses: Pauses,
    reads: u64,
    // The read behind the last byte fails.
    fails: bool,
}

impl Halts {
    fn next(&mut self) -> Option<u8> {
        let piece = self.input.piece();
        if let Some(byte) = piece.get(self.given) {
            self.given = self.given.saturating_add(1);
            return Some(*byte);
        }
        if self.input.times == 0 {
            return None;
        }
        self.input.times = self.input.times.saturating_sub(1);
        self.given = 1;
        self.input.piece().first().copied()
    }
}

impl Read for Halts {
    fn read(&mut self, buf: &mut [u8]) -> io::Result<usize> {
        self.reads = self.reads.saturating_add(1);
        self.pauses.wait()?;
        let most = self.step.min(buf.len());
        for len in 0..most {
            let Some(byte) = self.next() else {
                if len == 0 && self.fails {
                    return Err(io::Error::from(ErrorKind::Other));
                }
                return Ok(len);
            };
            buf[len] = byte;
        }
        Ok(most)
    }
}

fn halting(input: Input, step: usize, pauses: u64) -> Halts {
    Halts {
        input,
        given: 0,
        step,
        pauses: Pauses::new(pauses),
        reads: 0,
        fails: false,
    }
}

/// Takes so many bytes a call until it is full, when it faults. A flush of what it took may have to wait too.
#[derive(Drop)]
pub(crate) struct Sips {
    pub(crate) held: Told,
    flushed: usize,
    step: usize,
    room: usize,
    pauses: Pauses,
    flushes: Pauses,
}

impl Write for Sips {
    fn write(&mut self, buf: &[u8]) -> io::Result<usize> {
        self.pauses.wait()?;
        if self.held.len() >= self.room {
            return Err(io::Error::from(ErrorKind::Other));
        }
        let len = self.step.min(buf.len());
        self.held.put_all(&buf[..len]);
        Ok(len)
    }

    fn flush(&mut self) -> io::Result<()> {
        if self.flushed < self.held.len() {
            self.flushes.wait()?;
            self.flushed = self.held.len();
        }
        Ok(())
    }
}

fn sipping(step: usize, pauses: u64, flushes: u64) -> Sips {
    Sips {
        held: Told::new(),
        flushed: 0,
        step,
        room: usize::MAX,
        pauses: Pauses::new(pauses),
        flushes: Pauses::new(flushes),
    }
}

fn sign_of_end(end: SessionEnd) -> u8 {
    match end {
        SessionEnd::Quit => b'Q',
        SessionEnd::EndOfInput => b'E',
        SessionEnd::HandedOver => b'H',
        SessionEnd::WriteFault => b'W',
        SessionEnd::ReadFault => b'R',
        SessionEnd::TooManyReads => b'M',
    }
}

fn told_of(end: SessionEnd, back: Option<Sips>, scribe: &Scribe<'_>) -> Told {
    let mut told = Told::new();
    told.put(sign_of_end(end));
    if let Some(writer) = &back {
        told.put_all(writer.held.as_bytes());
    }
    told.put(b'|');
    told.put_all(scribe.asked.as_bytes());
    told
}

// What a session by turns tells, and nothing where it is not over after so many.
fn told_by_turns(heap: &Heap, reader: &mut Halts, writer: Sips, takes: bool) -> Told {
    let mut scribe = writing(heap, takes, 3);
    let mut session = OpenSession::new(u64::MAX);
    let mut held = writer;
    for _ in 0..100_000 {
        match session.turn(reader, held, &mut scribe) {
            Turn::Again(writer) => held = writer,
            Turn::Waits(writer) | Turn::Stuck(writer) => held = writer,
            Turn::Over(end, back) => return told_of(end, back, &scribe),
        }
    }
    Told::new()
}

// What a session that waits tells.
fn told_at_once(heap: &Heap, input: Input, takes: bool) -> Told {
    let mut scribe = writing(heap, takes, 3);
    let mut reader = halting(input, 65_536, 0);
    let writer = sipping(65_536, 0, 0);
    let (end, back) = serve_lines(&mut reader, writer, &mut scribe, u64::MAX);
    told_of(end, back, &scribe)
}

// How many `x` a peer sends, what behind them, whether the desk keeps the writer, and what is told.
const SESSIONS: &[(usize, &str, bool, &str)] = &[
    (
        0,
        "PUB s a\nNOPE\nQUIT\nPUB s b\n",
        true,
        "QOK\nERR SYNTAX\nOK\n|n",
    ),
    (0, "PUB s a\r\nPUB s b", true, "EOK\n|n"),
    (0, "", true, "E|"),
    (1_100, "\nQUIT\n", true, "QERR SYNTAX\nOK\n|"),
    (1_100, "\r\nQUIT\n", true, "QERR SYNTAX\nOK\n|"),
    (1_101, "\nQUIT\n", true, "QERR LONG\nOK\n|"),
    (1_101, "\r\nEND s\n", true, "EERR LONG\nOK\n|c"),
    (1_102, "\nFAIL s a\n", true, "EERR LONG\nOK\n|f"),
    (4_000, "\nQUIT\n", true, "QERR LONG\nOK\n|"),
    (4_000, "", true, "E|"),
    (0, "HELLO 2\nSUB s BUFFER DELAY\nPUB s a\n", true, "H|t3"),
    (
        0,
        "HELLO 2\nSUB s BUFFER DELAY\nPUB s a\n",
        false,
        "EOK\nERR FULL\nOK\n|t3n",
    ),
    (
        0,
        "PUB s a\nPUB s e\nPUB s a\nPUB s e\nPUB s e\nEND s\nPUB s e\nQUIT\n",
        true,
        "QOK\nERR ENDED\nOK\nERR ENDED\nERR ENDED\nOK\nERR ENDED\nOK\n|nnnnncn",
    ),
    (0, "PUB s a\nPUB s a\nSUB s BUFFER DELAY\n", true, "H|nns6"),
    (
        0,
        "PUB s a\nPUB s e\nHELLO 3\nPUB s a\n",
        true,
        "EOK\nERR ENDED\nERR VERSION\nOK\n|nnn",
    ),
    (
        0,
        "SUB s BUFFER DELAY\nSUB s BUFFER DELAY\n",
        false,
        "EERR FULL\nERR FULL\n|s0s9",
    ),
];

// Hands the table out, so that what goes over it is proved without its rows.
fn sessions_table() -> &'static [(usize, &'static str, bool, &'static str)] {
    SESSIONS
}

// How many bytes a read gives and a write takes, and how many reads, writes and flushes would block before each.
const CUTS: [(usize, u64, usize, u64, u64); 9] = [
    (1, 1, 65_536, 0, 0),
    (1, 2, 1, 1, 0),
    (7, 0, 1, 3, 1),
    (64, 1, 2, 0, 2),
    (550, 3, 65_536, 7, 0),
    (1_101, 1, 3, 1, 1),
    (1_102, 0, 65_536, 1, 0),
    (65_536, 1, 1, 0, 0),
    (65_536, 0, 65_536, 0, 3),
];

#[test]
fn turns_tell_what_a_session_tells(rt: HostRuntime) {
    let heap = unlimited(&rt);
    for (times, rest, takes, told) in sessions_table() {
        let input = Input {
            unit: "x",
            times: *times,
            rest,
        };
        let told_now = told_at_once(&heap, input, *takes);
        expect_told(&rt, told_now.as_bytes(), told, rest);
        for (step, pauses, takes_step, writes, flushes) in &CUTS {
            let mut reader = halting(input, *step, *pauses);
            let writer = sipping(*takes_step, *writes, *flushes);
            let told_now = told_by_turns(&heap, &mut reader, writer, *takes);
            expect_told(&rt, told_now.as_bytes(), told, rest);
        }
    }
}

// How many bytes the writer takes before it faults, one a call, and what is told.
const ROOMS: [(usize, &str); 7] = [
    (0, "W|c"),
    (1, "WO|c"),
    (3, "WOK\n|cc"),
    (5, "WOK\nOK|cc"),
    (6, "WOK\nOK\n|cc"),
    (8, "WOK\nOK\nOK|cc"),
    (9, "QOK\nOK\nOK\n|cc"),
];

#[test]
fn writer_faults_at_each_byte(rt: HostRuntime) {
    let heap = unlimited(&rt);
    for (room, told) in &ROOMS {
        let input = Input {
            unit: "",
            times: 0,
            rest: "END s\nEND s\nQUIT\n",
        };
        let mut reader = halting(input, 6, 1);
        let mut writer = sipping(1, 1, 0);
        writer.room = *room;
        let told_now = told_by_turns(&heap, &mut reader, writer, true);
        expect_told(&rt, told_now.as_bytes(), told, "a writer with little room");
    }
}

// What so many turns came to: `A` for one that goes on at once, `w` for one that waits for bytes, `s` for one whose answer
// waits, or the end.
fn told_turns(reader: &mut Halts, writer: Sips, scribe: &mut Scribe<'_>, turns: u32) -> Told {
    told_within(reader, writer, scribe, turns, u64::MAX)
}

// The same of a session that may make so many reads.
fn told_within(
    reader: &mut Halts,
    writer: Sips,
    scribe: &mut Scribe<'_>,
    turns: u32,
    max_reads: u64,
) -> Told {
    let mut told = Told::new();
    let mut session = OpenSession::new(max_reads);
    let mut held = writer;
    for _ in 0..turns {
        match session.turn(reader, held, scribe) {
            Turn::Again(writer) => {
                told.put(b'A');
                held = writer;
            }
            Turn::Waits(writer) => {
                told.put(b'w');
                held = writer;
            }
            Turn::Stuck(writer) => {
                told.put(b's');
                held = writer;
            }
            Turn::Over(end, _back) => {
                told.put(sign_of_end(end));
                return told;
            }
        }
    }
    told
}

// What a peer sends (a unit, how many times, and the rest), how many bytes a read gives, how many reads, writes and flushes
// would block before each, how many turns are taken, each of 64 lines at most; what they came to, the reads that were made and the
// notes of the desk.
const TURNS: &[(&str, usize, &str, usize, u64, u64, u64, u32, &str, u64, u64)] = &[
    ("", 0, "", 1, 9, 0, 0, 3, "www", 3, 0),
    ("", 0, "END s\n", 3, 1, 0, 0, 6, "wAwAwE", 6, 1),
    ("END s\n", 100, "", 16, 0, 5, 0, 5, "sssss", 1, 2),
    ("END s\n", 100, "", 16, 0, 5, 0, 6, "ssssss", 2, 5),
    ("END s\n", 130, "", 65_536, 0, 0, 0, 2, "AA", 1, 128),
    ("END s\n", 130, "", 65_536, 0, 0, 0, 3, "AAA", 1, 130),
    ("END s\n", 130, "", 65_536, 0, 0, 0, 4, "AAAE", 2, 130),
    ("", 0, "QUIT\nEND s\n", 16, 0, 3, 0, 9, "sssQ", 1, 0),
    ("", 0, "QUIT\nEND s\n", 16, 0, 0, 2, 9, "ssQ", 1, 0),
    (
        "",
        0,
        "HELLO 2\nSUB s BUFFER DELAY\n",
        64,
        0,
        2,
        0,
        9,
        "ssH",
        1,
        2,
    ),
];

// Hands the table out, so that what goes over it is proved without its rows.
fn turns_table() -> &'static [(
    &'static str,
    usize,
    &'static str,
    usize,
    u64,
    u64,
    u64,
    u32,
    &'static str,
    u64,
    u64,
)] {
    TURNS
}

#[test]
fn turns_come_to_this(rt: HostRuntime) {
    let heap = unlimited(&rt);
    for (
        unit,
        times,
        rest,
        step,
        pauses,
        writes,
        flushes,
        turns,
        told,
        reads,
        asked,
    ) in turns_table() {
        let input = Input {
            unit,
            times: *times,
            rest,
        };
        let mut reader = halting(input, *step, *pauses);
        let writer = sipping(65_536, *writes, *flushes);
        let mut scribe = writing(&heap, true, 3);
        let told_now = told_turns(&mut reader, writer, &mut scribe, *turns);
        expect_told(&rt, told_now.as_bytes(), told, told);
        expect_count(&rt, reader.reads, *reads, told);
        expect_count(&rt, scribe.asked.len() as u64, *asked, told);
    }
}

// How many reads a session may make, how many bytes a read gives, how many would block before each, whether the last one fails; what
// its turns came to, the reads that were made and the notes of the desk. A peer sends two lines.
const READS: [(u64, usize, u64, bool, &str, u64, u64); 6] = [
    (0, 6, 0, false, "M", 0, 0),
    (2, 6, 2, false, "wwM", 2, 0),
    (3, 6, 2, false, "wwAM", 3, 1),
    (1, 65_536, 0, false, "AM", 1, 2),
    (2, 65_536, 0, false, "AE", 2, 2),
    (9, 65_536, 0, true, "AR", 2, 2),
];

#[test]
fn reads_of_a_session_are_bounded(rt: HostRuntime) {
    let heap = unlimited(&rt);
    for (max_reads, step, pauses, fails, told, reads, asked) in &READS {
        let input = Input {
            unit: "END s\n",
            times: 2,
            rest: "",
        };
        let mut reader = halting(input, *step, *pauses);
        reader.fails = *fails;
        let writer = sipping(65_536, 0, 0);
        let mut scribe = writing(&heap, true, 3);
        let told_now = told_within(&mut reader, writer, &mut scribe, 9, *max_reads);
        expect_told(&rt, told_now.as_bytes(), told, told);
        expect_count(&rt, reader.reads, *reads, told);
        expect_count(&rt, scribe.asked.len() as u64, *asked, told);
    }
}

// How many items a peer sends at once and how many the desk lets be begun; how many are begun behind others, and the most that wait.
const TOGETHER: [(usize, u64, u64, u64); 6] = [
    (1, 100, 0, 1),
    (2, 100, 1, 2),
    (32, 100, 31, 32),
    (33, 100, 31, 32),
    (5, 2, 2, 2),
    (5, 0, 0, 0),
];

#[test]
fn items_are_begun_together(rt: HostRuntime) {
    let heap = unlimited(&rt);
    for (items, room, behind, most) in &TOGETHER {
        let input = Input {
            unit: "PUB s a\n",
            times: *items,
            rest: "",
        };
        let mut reader = halting(input, 65_536, 0);
        let writer = sipping(65_536, 0, 0);
        let mut scribe = writing(&heap, true, *room);
        let told = told_turns(&mut reader, writer, &mut scribe, 1);
        expect_told(&rt, told.as_bytes(), "A", "one turn");
        expect_count(&rt, scribe.asked.len() as u64, *items as u64, "items");
        expect_count(
            &rt,
            scribe.answered as u64,
            scribe.begun.len() as u64,
            "answers",
        );
        expect_count(&rt, scribe.behind, *behind, "begun behind others");
        expect_count(&rt, scribe.most, *most, "begun at once");
    }
}
