//! The line protocol: which lines are read, told by a sign each, and what is printed.
//!
//! The signs: P, E, F, S, H and Q for PUB, END, FAIL, SUB, HELLO and QUIT, A for AT, J for JOIN, R for REQUEST, D for DISPOSE;
//! `l` for a line that is too long, `-` for no line, and `m` for want of memory.

use crate::expectations::{expect_count, expect_that, expect_told};
use crate::heaps::unlimited;
use rx_heap::Heap;
use rx_note::{Item, Note, Strategy, Text};
use rx_proto::{
    Command, LineError, Name, Response, ScriptLine, Version, Word, parse_line, parse_script,
    write_note, write_reply,
};
use std::process::Abort;
use std::test::Fail;

fn sign_of_fault(fault: LineError) -> u8 {
    match fault {
        LineError::Long => b'l',
        LineError::Syntax => b'-',
        LineError::Memory => b'm',
    }
}

fn sign_of_command(command: &Command) -> u8 {
    match command {
        Command::Pub { .. } => b'P',
        Command::End { .. } => b'E',
        Command::Fail { .. } => b'F',
        Command::Sub { .. } => b'S',
        Command::Hello(_) => b'H',
        Command::Quit => b'Q',
    }
}

fn sign_in_session(heap: &Heap, line: &[u8]) -> u8 {
    match &parse_line(heap, line) {
        Ok(command) => sign_of_command(command),
        Err(fault) => sign_of_fault(*fault),
    }
}

fn sign_in_script(heap: &Heap, line: &[u8]) -> u8 {
    match &parse_script(heap, line) {
        Ok(ScriptLine::Command(command)) => sign_of_command(command),
        Ok(ScriptLine::At(_)) => b'A',
        Ok(ScriptLine::Join { .. }) => b'J',
        Ok(ScriptLine::Request { .. }) => b'R',
        Ok(ScriptLine::Dispose { .. }) => b'D',
        Err(fault) => sign_of_fault(*fault),
    }
}

// Lines, with the sign of what is read in a session and in a script.
const LINES: &[(&str, u8, u8)] = &[
    ("PUB s a", b'P', b'P'),
    ("PUB s-1 a b ", b'P', b'P'),
    ("PUB s ", b'P', b'P'),
    ("FAIL s ", b'F', b'F'),
    ("END s", b'E', b'E'),
    ("QUIT", b'Q', b'Q'),
    ("HELLO 1", b'H', b'H'),
    ("HELLO 2", b'H', b'H'),
    ("HELLO 3", b'H', b'H'),
    ("HELLO 01", b'H', b'H'),
    ("HELLO 4294967295", b'H', b'H'),
    ("HELLO 4294967296", b'-', b'-'),
    ("HELLO", b'-', b'-'),
    ("HELLO  1", b'-', b'-'),
    ("HELLO 1 ", b'-', b'-'),
    ("hello 1", b'-', b'-'),
    ("SUB s BUFFER AHEAD", b'S', b'-'),
    ("SUB s DROP:0 DELAY", b'S', b'-'),
    ("SUB s LATEST:0001024 DELAY", b'S', b'-'),
    ("SUB s BOUNDED:0 AHEAD", b'S', b'-'),
    ("SUB s BOUNDED:1024 DELAY", b'S', b'-'),
    ("SUB s BOUNDED:1025 DELAY", b'-', b'-'),
    ("SUB s LATEST:0 DELAY", b'-', b'-'),
    ("SUB s DROP:1025 DELAY", b'-', b'-'),
    ("SUB s BUFFER DELAY 1", b'-', b'-'),
    ("SUB s BUFFER", b'-', b'-'),
    ("JOIN s BUFFER AHEAD 0", b'-', b'J'),
    ("JOIN s DROP:2 DELAY 4294967295", b'-', b'J'),
    ("JOIN s BOUNDED:1024 AHEAD 4294967295", b'-', b'J'),
    ("JOIN s BUFFER DELAY 4294967296", b'-', b'-'),
    ("JOIN s BUFFER LATE 0", b'-', b'-'),
    ("JOIN s BUFFER  DELAY 1", b'-', b'-'),
    ("REQUEST s 00007 4294967295", b'-', b'R'),
    ("REQUEST s 1 000000000000000000001", b'-', b'-'),
    ("REQUEST s 1 +1", b'-', b'-'),
    ("DISPOSE s 4294967295", b'-', b'D'),
    ("DISPOSE s 4294967296", b'-', b'-'),
    ("DISPOSE s", b'-', b'-'),
    ("DISPOSE s 1 ", b'-', b'-'),
    ("AT 18446744073709551615", b'-', b'A'),
    ("AT 18446744073709551616", b'-', b'-'),
    ("", b'-', b'-'),
    (" ", b'-', b'-'),
    ("PUB s", b'-', b'-'),
    ("PUB  s a", b'-', b'-'),
    ("PUB S a", b'-', b'-'),
    ("PUB s a\nb", b'-', b'-'),
    ("END s ", b'-', b'-'),
    ("quit", b'-', b'-'),
];

// Hands the table out, so that what goes over it is proved without its rows.
fn lines_table() -> &'static [(&'static str, u8, u8)] {
    LINES
}

// A line is read as this sign says.
fn expect_sign(rt: &impl Abort, read: u8, wanted: u8, line: &str) {
    expect_count(rt, u64::from(read), u64::from(wanted), line);
}

#[test]
fn lines_are_read_in_their_place(rt: HostRuntime) {
    let heap = unlimited(&rt);
    for (line, in_session, in_script) in lines_table() {
        expect_sign(
            &rt,
            sign_in_session(&heap, line.as_bytes()),
            *in_session,
            line,
        );
        expect_sign(
            &rt,
            sign_in_script(&heap, line.as_bytes()),
            *in_script,
            line,
        );
    }
}

/// A front and so many letters x behind it.
pub(crate) fn filled(heap: &Heap, front: &[u8], len: usize) -> Result<Vec<u8, Heap>, Fail> {
    let mut line = Vec::new(heap.clone()?);
    line.extend_from_slice(front)?;
    for _ in 0..len {
        line.push(b'x')?;
    }
    Ok(line)
}

// A front and so many letters behind it are read as this sign says, in a session and in a script.
fn expect_long_line(
    rt: &impl Abort,
    heap: &Heap,
    front: &str,
    len: usize,
    sign: u8,
) -> Result<(), Fail> {
    let line = filled(heap, front.as_bytes(), len)?;
    expect_sign(rt, sign_in_session(heap, line.as_slice()), sign, front);
    expect_sign(rt, sign_in_script(heap, line.as_slice()), sign, front);
    Ok(())
}

// The front of a line, how many letters follow, and the sign of what is read.
const LONG_LINES: [(&str, usize, u8); 9] = [
    ("PUB s ", 1024, b'P'),
    ("PUB s ", 1025, b'l'),
    ("FAIL s ", 1025, b'l'),
    ("PUB S ", 1025, b'-'),
    ("PUB s \n", 1024, b'-'),
    ("END ", 32, b'E'),
    ("END ", 33, b'-'),
    ("", 1100, b'-'),
    ("", 1101, b'l'),
];

#[test]
fn text_limits_on_the_line(rt: HostRuntime) -> Result<(), Fail> {
    let heap = unlimited(&rt);
    for (front, len, sign) in &LONG_LINES {
        expect_long_line(&rt, &heap, front, *len, *sign)?;
    }
    Ok(())
}

fn expect_pub(rt: &impl Abort, command: &Command) {
    match command {
        Command::Pub { name, text } => {
            expect_told(rt, name.as_bytes(), "s-1", "the name");
            expect_told(rt, text.as_bytes(), "a b ", "the text");
        }
        _ => panic!(rt; "another line"),
    }
}

#[test]
fn a_pub_has_its_name_and_text(rt: HostRuntime) -> Result<(), Fail> {
    expect_pub(&rt, &parse_line(&unlimited(&rt), b"PUB s-1 a b ")?);
    Ok(())
}

// Bytes, and whether they are a name.
const NAMES: [(&str, bool); 4] = [
    ("", false),
    ("abcdefghijklmnopqrstuvwxyz-01234", true),
    ("abcdefghijklmnopqrstuvwxyz-012345", false),
    ("a_b", false),
];

#[test]
fn names_have_1_to_32_bytes(rt: HostRuntime) {
    for (bytes, is_name) in &NAMES {
        expect_that(
            &rt,
            Name::new(bytes.as_bytes()).is_some() == *is_name,
            bytes,
        );
    }
}

// The line of a response, as it is written.
fn written(heap: &Heap, response: Response) -> Result<Vec<u8, Heap>, Fail> {
    let mut writer = Vec::new(heap.clone()?);
    write_reply(&mut writer, response)?;
    Ok(writer)
}

const RESPONSES: &[(Response, &str)] = &[
    (Response::Done, "OK\n"),
    (Response::Joined(0), "OK 0\n"),
    (Response::Joined(4_294_967_295), "OK 4294967295\n"),
    (Response::Refused(Word::Long), "ERR LONG\n"),
    (Response::Refused(Word::Syntax), "ERR SYNTAX\n"),
    (Response::Refused(Word::Subject), "ERR SUBJECT\n"),
    (Response::Refused(Word::Ended), "ERR ENDED\n"),
    (Response::Refused(Word::Full), "ERR FULL\n"),
    (Response::Refused(Word::Spent), "ERR SPENT\n"),
    (Response::Refused(Word::Zero), "ERR ZERO\n"),
    (Response::Refused(Word::Observer), "ERR OBSERVER\n"),
    (Response::Refused(Word::TooMuch), "ERR TOOMUCH\n"),
    (Response::Refused(Word::Memory), "ERR MEMORY\n"),
    (Response::Refused(Word::Gone), "ERR GONE\n"),
    (Response::Refused(Word::Version), "ERR VERSION\n"),
];

// Hands the table out, so that what goes over it is proved without its rows.
fn responses() -> &'static [(Response, &'static str)] {
    RESPONSES
}

#[test]
fn responses_are_printed(rt: HostRuntime) -> Result<(), Fail> {
    let heap = unlimited(&rt);
    for (response, line) in responses() {
        expect_told(
            &rt,
            written(&heap, *response)?.as_slice(),
            line,
            "a response",
        );
    }
    Ok(())
}

// The line of a note in a version, as it is written.
fn note_written(heap: &Heap, note: &Note, version: Version) -> Result<Vec<u8, Heap>, Fail> {
    let mut writer = Vec::new(heap.clone()?);
    write_note(&mut writer, note, version)?;
    Ok(writer)
}

// A note is written so in the first version, and so in the second.
fn expect_lines(
    rt: &impl Abort,
    heap: &Heap,
    note: &Note,
    first: &str,
    second: &str,
) -> Result<(), Fail> {
    let written = note_written(heap, note, Version::One)?;
    expect_told(rt, written.as_slice(), first, "the first version");
    let written = note_written(heap, note, Version::Two)?;
    expect_told(rt, written.as_slice(), second, "the second version");
    Ok(())
}

// The port, the place and the text of an item, and its line in each version.
const ITEMS: &[(u32, u32, &str, &str, &str)] = &[
    (1, 0, "a", "NEXT a\n", "NEXT 0 1 a\n"),
    (1, 0, "", "NEXT \n", "NEXT 0 1 \n"),
    (0, 10, "7 a b ", "NEXT 7 a b \n", "NEXT 10 0 7 a b \n"),
    (
        4_294_967_295,
        4_294_967_294,
        "a",
        "NEXT a\n",
        "NEXT 4294967294 4294967295 a\n",
    ),
    (
        4_294_967_295,
        4_294_967_295,
        "z",
        "NEXT z\n",
        "NEXT - - z\n",
    ),
    (4_294_967_295, 4_294_967_295, "", "NEXT \n", "NEXT - - \n"),
];

// Hands the table out, so that what goes over it is proved without its rows.
fn items_table() -> &'static [(u32, u32, &'static str, &'static str, &'static str)] {
    ITEMS
}

#[test]
fn items_are_printed_in_each_version(rt: HostRuntime) -> Result<(), Fail> {
    let heap = unlimited(&rt);
    for (from, place, text, first, second) in items_table() {
        let text = Text::new(heap.clone()?, text.as_bytes())?;
        let item = Item {
            from: *from,
            place: *place,
            text,
        };
        expect_lines(&rt, &heap, &Note::Next(item), first, second)?;
    }
    Ok(())
}

#[test]
fn terminals_are_printed_alike_in_each_version(rt: HostRuntime) -> Result<(), Fail> {
    let heap = unlimited(&rt);
    let failed = Note::Failed(Text::new(heap.clone()?, b"x")?);
    expect_lines(&rt, &heap, &failed, "FAILED x\n", "FAILED x\n")?;
    expect_lines(&rt, &heap, &Note::Completed, "DONE\n", "DONE\n")
}

fn expect_request(rt: &impl Abort, line: &ScriptLine) {
    match line {
        ScriptLine::Request { name, who, n } => {
            expect_told(rt, name.as_bytes(), "s", "the name");
            expect_count(rt, u64::from(*who), 7, "the observer");
            expect_count(rt, u64::from(*n), 4_294_967_295, "the items");
        }
        _ => panic!(rt; "another line"),
    }
}

#[test]
fn a_request_has_its_numbers(rt: HostRuntime) -> Result<(), Fail> {
    let heap = unlimited(&rt);
    expect_request(&rt, &parse_script(&heap, b"REQUEST s 00007 4294967295")?);
    Ok(())
}

// The strategy that a line of JOIN has, where this is its word. None where there is no such line.
fn strategy_in(heap: &Heap, word: &[u8]) -> Result<Option<Strategy>, Fail> {
    let mut line = Vec::new(heap.clone()?);
    line.extend_from_slice(b"JOIN s ")?;
    line.extend_from_slice(word)?;
    line.extend_from_slice(b" DELAY 0")?;
    match &parse_script(heap, line.as_slice()) {
        Ok(ScriptLine::Join { policy, .. }) => Ok(Some(policy.strategy())),
        Err(LineError::Syntax) => Ok(None),
        _ => Err(Fail::from("another line")),
    }
}

const STRATEGIES: &[(&str, Option<Strategy>)] = &[
    ("BUFFER", Some(Strategy::Buffer)),
    ("DROP:0", Some(Strategy::Drop(0))),
    ("DROP:0001024", Some(Strategy::Drop(1024))),
    ("LATEST:1", Some(Strategy::Latest(1))),
    ("LATEST:1024", Some(Strategy::Latest(1024))),
    ("BOUNDED:0", Some(Strategy::Bounded(0))),
    ("BOUNDED:1", Some(Strategy::Bounded(1))),
    ("BOUNDED:0001024", Some(Strategy::Bounded(1024))),
    ("DROP:1025", None),
    ("BOUNDED:1025", None),
    ("LATEST:0", None),
    ("LATEST:1025", None),
    ("DROP:", None),
    ("DROP", None),
    ("BOUNDED:", None),
    ("BOUNDED", None),
    ("BOUND:1", None),
    ("LATEST: 2", None),
    ("DROP:-1", None),
    ("DROP:65536", None),
    ("DROP:4294967296", None),
    ("DROP:000000000000000000001", None),
    ("drop:1", None),
    ("DROP:2:3", None),
    ("BUFFER:1", None),
];

// Hands the table out, so that what goes over it is proved without its rows.
fn strategies() -> &'static [(&'static str, Option<Strategy>)] {
    STRATEGIES
}

#[test]
fn strategies_are_read_or_refused(rt: HostRuntime) -> Result<(), Fail> {
    let heap = unlimited(&rt);
    for (word, strategy) in strategies() {
        let read = strategy_in(&heap, word.as_bytes())?;
        expect_that(&rt, read == *strategy, word);
    }
    Ok(())
}
