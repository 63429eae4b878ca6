//! What a server logs: the words of each cause, the lines that are due as time goes, and a writer that fails.

use crate::expectations::{expect_that, expect_told};
use rx_program::{
    About, Cause, Notices, Patience, Rate, Telling, write_end, write_notice, write_refusal,
};
use rx_proto::Name;
use rx_server::Joined;
use std::alloc::Global;
use std::io::{self, ErrorKind, Write};
use std::process::Abort;
use std::test::Fail;

const PATIENCE: Patience = Patience {
    stall: 60,
    waiting: 33_554_432,
    idle: Some(600),
};

// Causes, how many more there were, and the line.
const LINES: &[(Cause, u64, &str)] = &[
    (
        Cause::Stalled,
        0,
        "<4>rxline: a peer is given up: it took nothing for 60 s\n",
    ),
    (
        Cause::Stalled,
        37,
        "<4>rxline: a peer is given up: it took nothing for 60 s (and 37 more)\n",
    ),
    (
        Cause::Stalled,
        u64::MAX,
        "<4>rxline: a peer is given up: it took nothing for 60 s (and 18446744073709551615 more)\n",
    ),
    (
        Cause::Outgrown,
        2,
        "<4>rxline: an observer is given up: too much waits for it (and 2 more)\n",
    ),
    (
        Cause::Silent,
        0,
        "<4>rxline: a connection ends: it sent nothing for 600 s\n",
    ),
    (
        Cause::Silent,
        1,
        "<4>rxline: a connection ends: it sent nothing for 600 s (and 1 more)\n",
    ),
    (
        Cause::Unheld,
        0,
        "<4>rxline: a peer is given up: no memory for what waits for it\n",
    ),
    (
        Cause::NoDescriptor,
        0,
        "<4>rxline: connections wait: no descriptor\n",
    ),
    (
        Cause::NoMemory,
        9,
        "<4>rxline: connections wait: no memory (and 9 more)\n",
    ),
    (
        Cause::Unserved,
        0,
        "<4>rxline: a connection is refused: no memory\n",
    ),
    (
        Cause::Unwatched,
        0,
        "<4>rxline: a connection is refused: it cannot be watched\n",
    ),
    (
        Cause::Broken,
        0,
        "<4>rxline: connections are not accepted: the socket fails\n",
    ),
];

// Hands the table out, so that what goes over it is proved without its rows.
fn lines_table() -> &'static [(Cause, u64, &'static str)] {
    LINES
}

/// Holds what is written, and counts the writes; each from the one of this number on fails.
#[derive(Drop)]
struct Failing {
    held: Vec<u8>,
    writes: u32,
    fails_from: u32,
}

impl Failing {
    fn from(alloc: Global, fails_from: u32) -> Failing {
        Failing {
            held: Vec::new(alloc),
            writes: 0,
            fails_from,
        }
    }
}

impl Write for Failing {
    fn write(&mut self, buf: &[u8]) -> io::Result<usize> {
        if self.writes >= self.fails_from {
            return Err(io::Error::from(ErrorKind::Other));
        }
        self.writes += 1;
        self.held.extend_from_slice(buf)?;
        Ok(buf.len())
    }

    fn flush(&mut self) -> io::Result<()> {
        Ok(())
    }
}

#[test]
fn lines_of_causes(rt: HostRuntime) -> Result<(), Fail> {
    for (cause, more, wanted) in lines_table() {
        let mut writer = Failing::from(rt.alloc(), u32::MAX);
        let done = write_notice(PATIENCE, *cause, &None, *more, &mut writer);
        expect_that(&rt, done.is_ok(), wanted);
        expect_told(&rt, writer.held.as_slice(), wanted, "a line");
        expect_that(&rt, writer.writes == 1, "a line goes out by one write");
    }
    Ok(())
}

// Causes, how many bytes wait in the connection of the observer that they are about, how many more there were, and the line.
const ABOUT: &[(Cause, u64, u64, &str)] = &[
    (
        Cause::Stalled,
        2_842,
        0,
        "<4>rxline: observer 3 of trades is given up: its peer took nothing for 60 s, 2842 bytes wait\n",
    ),
    (
        Cause::Stalled,
        u64::MAX,
        u64::MAX,
        "<4>rxline: observer 3 of trades is given up: its peer took nothing for 60 s, 18446744073709551615 bytes wait (and 18446744073709551615 more)\n",
    ),
    (
        Cause::Outgrown,
        1,
        37,
        "<4>rxline: observer 3 of trades is given up: more than 33554432 bytes wait for it (and 37 more)\n",
    ),
    (
        Cause::Unheld,
        1,
        0,
        "<4>rxline: observer 3 of trades is given up: no memory for what waits for it\n",
    ),
];

// Hands the table out, so that what goes over it is proved without its rows.
fn about_table() -> &'static [(Cause, u64, u64, &'static str)] {
    ABOUT
}

#[test]
fn lines_about_an_observer(rt: HostRuntime) -> Result<(), Fail> {
    for (cause, bytes, more, wanted) in about_table() {
        let mut writer = Failing::from(rt.alloc(), u32::MAX);
        let about = Some(About {
            observer: 3,
            subject: trades(&rt),
            bytes: *bytes,
        });
        let done = write_notice(PATIENCE, *cause, &about, *more, &mut writer);
        expect_that(&rt, done.is_ok(), wanted);
        expect_told(&rt, writer.held.as_slice(), wanted, "a line");
        expect_that(&rt, writer.writes == 1, "a line goes out by one write");
    }
    Ok(())
}

#[test]
fn lines_of_subjects(rt: HostRuntime) -> Result<(), Fail> {
    let name = trades(&rt);
    let mut told = Vec::new(rt.alloc());
    let refused = write_refusal(&name, 64_000_000, 0, &mut told);
    let again = write_refusal(&name, 64_000_000, 41, &mut told);
    let done = write_end(&name, false, 1_050, &mut told);
    let failed = write_end(&name, true, 0, &mut told);
    let all = refused.is_ok() && again.is_ok() && done.is_ok() && failed.is_ok();
    expect_that(&rt, all, "each line is written");
    let wanted =
        "<4>rxline: trades refuses: its budget of 64000000 bytes is used up\n<4>rxline: trades refuses: its budget of 64000000 bytes is used up (and 41 more)\n<6>rxline: trades is over: DONE after 1050 items\n<6>rxline: trades is over: FAILED after 0 items\n";
    expect_told(&rt, told.as_slice(), wanted, "the lines of a subject");
    Ok(())
}

// How many events have been, at which moment it is looked, and of how many more the line tells that is due then.
const LOOKS: [(u64, u64, Option<u64>); 9] = [
    (0, 0, None),
    (1, 5, Some(0)),
    (1, 2_000, None),
    (2, 2_000, Some(0)),
    (39, 2_001, None),
    (39, 2_999, None),
    (40, 3_000, Some(37)),
    (41, 2_500, None),
    (41, u64::MAX, Some(0)),
];

#[test]
fn lines_that_are_due(rt: HostRuntime) -> Result<(), Fail> {
    let mut rate = Rate::new();
    for (count, now, wanted) in &LOOKS {
        let due = rate.look(*count, *now);
        expect_that(&rt, due == *wanted, "a look");
    }
    Ok(())
}

// The name of the subject that observers are of.
fn trades(rt: &impl Abort) -> Name {
    Name::new(b"trades").expect(rt, "a name")
}

fn count(notices: &Notices, cause: Cause, events: u32) {
    for _ in 0..events {
        notices.count(cause);
    }
}

const SILENT: &str = "<4>rxline: a connection ends: it sent nothing for 600 s";

// Of two causes each has a line a second; what is held back is told by the next.
#[test]
fn a_line_a_second_and_cause(rt: HostRuntime) -> Result<(), Fail> {
    let notices = Notices::new();
    let mut telling = Telling::new(PATIENCE);
    let mut told = Vec::new(rt.alloc());
    count(&notices, Cause::Silent, 1);
    let first = telling.tell(&notices, &[], 100, &mut told);
    count(&notices, Cause::Silent, 3);
    count(&notices, Cause::NoDescriptor, 2);
    let second = telling.tell(&notices, &[], 1_099, &mut told);
    let third = telling.tell(&notices, &[], 1_100, &mut told);
    let fourth = telling.tell(&notices, &[], 9_000, &mut told);
    let left = !first && second && !third && !fourth;
    expect_that(&rt, left, "whether some wait for their line");
    let mut wanted = Vec::new(rt.alloc());
    writeln!(wanted, "{SILENT}")?;
    writeln!(
        wanted,
        "<4>rxline: connections wait: no descriptor (and 1 more)"
    )?;
    writeln!(wanted, "{SILENT} (and 2 more)")?;
    expect_that(&rt, told == wanted, "lines of two causes");
    Ok(())
}

// A line that can't be written is lost, and those behind it are as they were.
#[test]
fn a_line_that_is_not_written(rt: HostRuntime) -> Result<(), Fail> {
    let notices = Notices::new();
    let mut telling = Telling::new(PATIENCE);
    let mut failing = Failing::from(rt.alloc(), 0);
    count(&notices, Cause::Silent, 2);
    let behind = telling.tell(&notices, &[], 0, &mut failing);
    expect_that(&rt, !behind, "nothing waits for a writer that fails");
    count(&notices, Cause::Silent, 1);
    let mut told = Failing::from(rt.alloc(), u32::MAX);
    telling.tell(&notices, &[], 1_000, &mut told);
    let wanted = "<4>rxline: a connection ends: it sent nothing for 600 s\n";
    expect_told(&rt, told.held.as_slice(), wanted, "the next line");
    Ok(())
}

// A line is about the last observer that was given up, and about none where the last peer had none or its subject no name.
#[test]
fn a_line_about_the_last_observer(rt: HostRuntime) -> Result<(), Fail> {
    let notices = Notices::new();
    let mut telling = Telling::new(PATIENCE);
    let mut told = Vec::new(rt.alloc());
    let names = [trades(&rt)];
    let last = Joined { subject: 0, who: 7 };
    let nameless = Joined { subject: 1, who: 7 };
    for (moment, observer) in [(0, Some(last)), (1_000, None), (2_000, Some(nameless))] {
        notices.count_about(Cause::Stalled, observer, 5);
        telling.tell(&notices, names.as_slice(), moment, &mut told);
    }
    let wanted =
        "<4>rxline: observer 7 of trades is given up: its peer took nothing for 60 s, 5 bytes wait\n<4>rxline: a peer is given up: it took nothing for 60 s\n<4>rxline: a peer is given up: it took nothing for 60 s\n";
    expect_told(&rt, told.as_slice(), wanted, "three lines");
    Ok(())
}
