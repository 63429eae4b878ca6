use crate::expectations::{Ran, expect_end, expect_ran, expect_told};
use rx_config::{Config, SubjectConfig};
use rx_heap::{Heap, Memory};
use rx_note::{Kind, Limits, Rules};
use rx_proto::Name;
use rx_script::run_audit;
use rx_session::SessionEnd;
use std::alloc::Global;
use std::io::{self, ErrorKind, Read, Write};
use std::test::Fail;

const MAX_READS: u64 = 4_294_967_296;

const WAITING_END: &[u8] = b"JOIN s BUFFER DELAY 1\nPUB s a\nPUB s b\nEND s\n";

const WAITING_END_AUDIT: &[u8] = b"OBSERVER s 0\nGIVEN NEXT a\nWAITING NEXT b\nWAITING DONE\n";

// Audits a script over the standard configuration.
fn audit<R: Read, W: Write>(
    alloc: Global,
    reader: &mut R,
    writer: &mut W,
    max_reads: u64,
) -> Result<SessionEnd, Memory> {
    let config = Config::standard(Heap::unlimited(alloc))?;
    run_audit(Heap::unlimited(alloc), config, reader, writer, max_reads)
}

fn audit_of<R: Read>(alloc: Global, reader: &mut R, max_reads: u64) -> Result<Ran, Memory> {
    let mut written = Vec::new(alloc);
    let end = audit(alloc, reader, &mut written, max_reads)?;
    Ok(Ran { end, written })
}

/// The name of an input, its script, what is written, and how it ends.
type Row = (&'static str, &'static [u8], &'static [u8], SessionEnd);

const ROWS: &[Row] = &[
    (
        "audit_of_a_waiting_end",
        WAITING_END,
        WAITING_END_AUDIT,
        SessionEnd::EndOfInput,
    ),
    (
        "audit_of_latest",
        b"JOIN s LATEST:2 DELAY 1\nPUB s a\nPUB s b\nPUB s c\nPUB s d\n",
        b"OBSERVER s 0\nGIVEN NEXT a\nWAITING NEXT c\nWAITING NEXT d\n",
        SessionEnd::EndOfInput,
    ),
    (
        "audit_of_one_that_left",
        b"JOIN s BUFFER DELAY 1\nJOIN s LATEST:1 AHEAD 0\nPUB s a\nPUB s b\nDISPOSE s 0\nPUB s c\nFAIL s x\n",
        b"OBSERVER s 0\nGIVEN NEXT a\nOBSERVER s 1\nGIVEN FAILED x\n",
        SessionEnd::EndOfInput,
    ),
    (
        "audit_of_an_overflow",
        b"JOIN s BOUNDED:1 DELAY 1\nJOIN s BOUNDED:1 AHEAD 1\nPUB s a\nPUB s b\nPUB s c\nPUB s d\n",
        b"OBSERVER s 0\nGIVEN NEXT a\nWAITING NEXT b\nWAITING FAILED OVERFLOW\nOBSERVER s 1\nGIVEN NEXT a\nGIVEN FAILED OVERFLOW\n",
        SessionEnd::EndOfInput,
    ),
    (
        "hello_is_passed_over",
        b"HELLO 2\nJOIN s BUFFER DELAY 1\nHELLO 7\nPUB s a\nPUB s b\n",
        b"OBSERVER s 0\nGIVEN NEXT a\nWAITING NEXT b\n",
        SessionEnd::EndOfInput,
    ),
    ("no_line", b"", b"", SessionEnd::EndOfInput),
    (
        "bad_lines_are_passed_over",
        b"JOIN s BUFFER DELAY 2\r\nPUB s\nPUB t x\nPUB s a\nFAIL s no\nPUB s",
        b"OBSERVER s 0\nGIVEN NEXT a\nGIVEN FAILED no\n",
        SessionEnd::EndOfInput,
    ),
    (
        "no_line_after_quit",
        b"JOIN s BUFFER DELAY 0\nJOIN s BUFFER DELAY 1\nPUB s a\nQUIT\nREQUEST s 0 1\nEND s\n",
        b"OBSERVER s 0\nWAITING NEXT a\nOBSERVER s 1\nGIVEN NEXT a\n",
        SessionEnd::Quit,
    ),
];

// Hands the table out, so that what goes over it is proved without its rows.
fn rows() -> &'static [Row] {
    ROWS
}

#[test]
fn audits_of_whole_inputs(rt: HostRuntime) -> Result<(), Fail> {
    for (name, script, wanted, end) in rows() {
        let mut reader = *script;
        let audited = audit_of(rt.alloc(), &mut reader, MAX_READS)?;
        expect_ran(&rt, &audited, *end, wanted, name);
    }
    Ok(())
}

// The standard configuration with a second subject, a.
fn config_of_two(alloc: Global) -> Result<Config, Memory> {
    let mut config = Config::standard(Heap::unlimited(alloc))?;
    let Some(name) = Name::new(b"a") else {
        return Err(Memory);
    };
    let rules = Rules {
        kind: Kind::Publish,
        limits: Limits {
            observers: 1,
            joins: 1,
            items: 1,
        },
    };
    config.subjects.push(SubjectConfig {
        name,
        rules,
        budget: None,
    })?;
    Ok(config)
}

// What is written for an audit over two subjects.
fn audit_of_two(alloc: Global, script: &[u8]) -> Result<Vec<u8>, Memory> {
    let mut reader = script;
    let mut written = Vec::new(alloc);
    let config = config_of_two(alloc)?;
    let heap = Heap::unlimited(alloc);
    run_audit(heap, config, &mut reader, &mut written, MAX_READS)?;
    Ok(written)
}

#[test]
fn subjects_in_the_order_of_the_configuration(rt: HostRuntime) -> Result<(), Fail> {
    let script =
        b"JOIN a BUFFER DELAY 1\nJOIN s BUFFER DELAY 0\nJOIN a BUFFER DELAY 2\nPUB a x\nPUB s y\n".as_slice();
    let written = audit_of_two(rt.alloc(), script)?;
    let audit = b"OBSERVER s 0\nWAITING NEXT y\nOBSERVER a 0\nGIVEN NEXT x\n".as_slice();
    expect_told(&rt, written.as_slice(), audit, &"two subjects");
    Ok(())
}

// How many reads may be made of a script that takes two, how its audit ends, and what is written.
const READS: [(u64, SessionEnd, &[u8]); 2] = [
    (1, SessionEnd::TooManyReads, b""),
    (2, SessionEnd::EndOfInput, WAITING_END_AUDIT),
];

#[test]
fn too_many_reads_print_nothing(rt: HostRuntime) -> Result<(), Fail> {
    for (max_reads, end, wanted) in &READS {
        let mut reader = WAITING_END;
        let audited = audit_of(rt.alloc(), &mut reader, *max_reads)?;
        expect_ran(&rt, &audited, *end, wanted, max_reads);
    }
    Ok(())
}

/// Gives all of a script at once, and then fails.
#[derive(Drop)]
struct Fails {
    rest: &'static [u8],
}

impl Read for Fails {
    fn read(&mut self, buf: &mut [u8]) -> io::Result<usize> {
        if self.rest.is_empty() {
            return Err(io::Error::from(ErrorKind::Other));
        }
        self.rest.read(buf)
    }
}

#[test]
fn a_read_fault_prints_nothing(rt: HostRuntime) -> Result<(), Fail> {
    let mut reader = Fails { rest: WAITING_END };
    let audited = audit_of(rt.alloc(), &mut reader, MAX_READS)?;
    expect_ran(
        &rt,
        &audited,
        SessionEnd::ReadFault,
        b"",
        &"a read that fails",
    );
    Ok(())
}

#[test]
fn a_full_writer_has_a_prefix(rt: HostRuntime) -> Result<(), Fail> {
    let mut reader = WAITING_END;
    let mut room = [0; 20];
    let mut writer = room.as_mut_slice();
    let ended = audit(rt.alloc(), &mut reader, &mut writer, MAX_READS)?;
    expect_end(&rt, ended, SessionEnd::WriteFault, &"room for 20 bytes");
    expect_told(
        &rt,
        room.as_slice(),
        &WAITING_END_AUDIT[..20],
        &"room for 20 bytes",
    );
    Ok(())
}
