//! Line sinks: what one writes, also where its writer fails at each byte, what it tells of what waits, and its flushes.

use crate::boxes::unlimited;
use crate::drainers::note;
use crate::expectations::{expect_count, expect_that, expect_told};
use rx_drain::{Flow, LineSink, Sink, SinkFault};
use rx_heap::Heap;
use rx_note::Note;
use rx_proto::Version;
use std::io::{self, ErrorKind, Write};
use std::process::Abort;
use test_kit::{Told, item};

// Keeps what is written, and counts the calls. Each flush of one that is torn fails.
#[derive(Drop)]
struct Page {
    held: Told,
    writes: usize,
    flushes: usize,
    is_torn: bool,
}

impl Page {
    fn new(is_torn: bool) -> Page {
        Page {
            held: Told::new(),
            writes: 0,
            flushes: 0,
            is_torn,
        }
    }
}

impl Write for Page {
    fn write(&mut self, buf: &[u8]) -> io::Result<usize> {
        self.held.put_all(buf);
        self.writes = self.writes.saturating_add(1);
        Ok(buf.len())
    }

    fn flush(&mut self) -> io::Result<()> {
        self.flushes = self.flushes.saturating_add(1);
        if self.is_torn {
            return Err(io::ErrorKind::BrokenPipe.into());
        }
        Ok(())
    }
}

// A sink of a version over a page that was started for observer 3 and took the notes of these signs.
fn lined(rt: &impl Abort, heap: &Heap, version: Version, signs: &[u8]) -> LineSink<Page> {
    let mut sink = LineSink::new(Page::new(false), version);
    let _ = sink.start(3);
    for sign in signs {
        let _ = sink.take(note(rt, heap, *sign));
    }
    sink
}

// What a line sink of a version wrote of the notes of these signs; behind `|` in how many calls, how many notes it took, and `!`
// where it failed, else `-`.
fn told_of_lines(rt: &impl Abort, heap: &Heap, version: Version, signs: &[u8]) -> Told {
    let rest = lined(rt, heap, version, signs).finish();
    let Page {
        mut held,
        writes,
        flushes: _,
        is_torn: _,
    } = lined(rt, heap, version, signs).into_writer();
    held.put(b'|');
    held.put_digit(writes);
    held.put_digit(rest.notes as usize);
    held.put(if rest.failed { b'!' } else { b'-' });
    held
}

#[test]
fn line_sink(rt: HostRuntime) {
    let heap = unlimited(&rt);
    for (version, signs, wanted) in [
        (Version::One, "a.", "JOINED 3\nNEXT a\nDONE\n|32-"),
        (
            Version::One,
            "ab!",
            "JOINED 3\nNEXT a\nNEXT b\nFAILED x\n|43-",
        ),
        (Version::One, "", "JOINED 3\n|10-"),
        (Version::Two, "a.", "JOINED 3\nNEXT 0 0 a\nDONE\n|32-"),
        (Version::Two, "!", "JOINED 3\nFAILED x\n|21-"),
        (Version::Two, "", "JOINED 3\n|10-"),
    ] {
        let told = told_of_lines(&rt, &heap, version, signs.as_bytes());
        expect_told(&rt, told.as_bytes(), wanted, signs);
    }
}

/// Takes so many bytes, one a call, and then fails.
#[derive(Drop)]
struct Scrap {
    held: Told,
    room: usize,
}

impl Write for Scrap {
    fn write(&mut self, buf: &[u8]) -> io::Result<usize> {
        if self.held.len() >= self.room {
            return Err(io::Error::from(ErrorKind::Other));
        }
        let len = buf.len().min(1);
        self.held.put_all(&buf[..len]);
        Ok(len)
    }

    fn flush(&mut self) -> io::Result<()> {
        Ok(())
    }
}

// A sink over a scrap of so much room that was started for observer 3 and took the notes of these signs, up to its first fault.
fn scrapped(rt: &impl Abort, heap: &Heap, room: usize, signs: &[u8]) -> LineSink<Scrap> {
    let scrap = Scrap {
        held: Told::new(),
        room,
    };
    let mut sink = LineSink::new(scrap, Version::One);
    if sink.start(3).is_err() {
        return sink;
    }
    for sign in signs {
        if sink.take(note(rt, heap, *sign)).is_err() {
            return sink;
        }
    }
    sink
}

const LINES: &[u8] = b"JOINED 3\nNEXT a\nDONE\n";

// From how many bytes of room on a sink takes so many of its notes whole, and whether it fails.
const SCRAPS: [(usize, usize, u64, bool); 4] = [
    (0, 9, 0, true),
    (9, 16, 0, true),
    (16, 21, 1, true),
    (21, 23, 2, false),
];

// What was written is a front of the lines, as long as there was room.
#[test]
fn sink_writer_fails_at_each_byte(rt: HostRuntime) {
    let heap = unlimited(&rt);
    for (from, to, notes, failed) in &SCRAPS {
        for room in *from..*to {
            let rest = scrapped(&rt, &heap, room, b"a.").finish();
            expect_count(&rt, rest.notes, *notes, "notes that were written whole");
            expect_that(&rt, rest.failed == *failed, "a sink that failed");
            let held = scrapped(&rt, &heap, room, b"a.").into_writer().held;
            let front = &LINES[..room.min(LINES.len())];
            expect_that(&rt, held.as_bytes() == front, "a front of the lines");
        }
    }
}

/// Has nothing go out for so many flushes, each of which would have to wait.
#[derive(Drop)]
struct Dam {
    closed_for: u64,
}

impl Write for Dam {
    fn write(&mut self, buf: &[u8]) -> io::Result<usize> {
        Ok(buf.len())
    }

    fn flush(&mut self) -> io::Result<()> {
        if self.closed_for > 0 {
            self.closed_for = self.closed_for.saturating_sub(1);
            return Err(io::Error::from(ErrorKind::WouldBlock));
        }
        Ok(())
    }
}

// How the sink stands: `c` for clear, `r` for ready, `s` for stuck, `h` for held, `!` at a fault.
fn sign_of_flow(flow: Result<Flow, SinkFault>) -> u8 {
    match flow {
        Ok(Flow::Clear) => b'c',
        Ok(Flow::Ready) => b'r',
        Ok(Flow::Stuck) => b's',
        Ok(Flow::Held) => b'h',
        Err(SinkFault) => b'!',
    }
}

// The longest short text, and a byte more.
const TEXT: [u8; 57] = [b'a'; 57];

// The note of a sign: an item whose text is as long as a short one may be at an `=`, and longer at a `+`.
fn note_at(rt: &impl Abort, heap: &Heap, sign: u8) -> Note {
    match sign {
        b'=' => Note::Next(item(heap, &TEXT[1..]).expect(rt, "an item")),
        b'+' => Note::Next(item(heap, &TEXT).expect(rt, "an item")),
        sign => note(rt, heap, sign),
    }
}

// What a sink that was flushed so often, and then took so many notes, answers then: to a flush at an `f`, and else to the note of a sign.
fn told_flows(
    rt: &impl Abort,
    heap: &Heap,
    sink: LineSink<Dam>,
    flushes: u32,
    taken: u32,
    signs: &[u8],
) -> Told {
    let mut sink = sink;
    for _ in 0..flushes {
        let _ = sink.flush();
    }
    for _ in 0..taken {
        let _ = sink.take(note(rt, heap, b'a'));
    }
    let mut told = Told::new();
    for sign in signs {
        let flow = match *sign {
            b'f' => sink.flush(),
            sign => sink.take(note_at(rt, heap, sign)),
        };
        told.put(sign_of_flow(flow));
    }
    told
}

// Nothing waits where the writer doesn't gather. Where it does, 48 notes are taken ahead of what went out, unless it is stuck, and
// behind each eighth of them items are asked for. Behind a flush that found nothing, unless the one before found it stuck, 160 are, as
// long as each is short.
#[test]
fn a_line_sink_tells_what_waits(rt: HostRuntime) {
    let heap = unlimited(&rt);
    for (gathers, closed_for, flushes, taken, signs, wanted) in [
        (false, 0, 0, 0, "af", "cc"),
        (false, 1, 0, 0, "af", "c!"),
        (true, 0, 0, 0, "afa", "hch"),
        (true, 1, 0, 0, "afafa", "hssch"),
        (true, 0, 0, 6, "aaafaa", "hrhchh"),
        (true, 0, 0, 47, "aafa", "rsch"),
        (true, 0, 1, 159, "aafa", "rsch"),
        (true, 1, 2, 47, "aafa", "rsch"),
        (true, 1, 3, 159, "aa", "rs"),
        (true, 0, 1, 47, "=a", "rh"),
        (true, 0, 1, 47, "+a", "rs"),
        (true, 0, 1, 60, "+fa", "sch"),
    ] {
        let dam = Dam { closed_for };
        let sink = if gathers {
            LineSink::gathering(dam, Version::One)
        } else {
            LineSink::new(dam, Version::One)
        };
        let told = told_flows(&rt, &heap, sink, flushes, taken, signs.as_bytes());
        expect_told(&rt, told.as_bytes(), wanted, signs);
    }
}

#[test]
fn line_sink_is_flushed(rt: HostRuntime) {
    for (gathers, is_torn, wanted) in [
        (false, false, "1-"),
        (false, true, "1!"),
        (true, false, "1-"),
        (true, true, "1!"),
    ] {
        let page = Page::new(is_torn);
        let mut sink = if gathers {
            LineSink::gathering(page, Version::One)
        } else {
            LineSink::new(page, Version::One)
        };
        let sign = if sink.flush().is_ok() { b'-' } else { b'!' };
        let mut told = Told::new();
        told.put_digit(sink.into_writer().flushes);
        told.put(sign);
        expect_told(&rt, told.as_bytes(), wanted, "flushes that reached a page");
    }
}
