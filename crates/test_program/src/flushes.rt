//! The program over a writer whose flushes fail: what it wrote it flushes, and where that fails it says so. No flush of the
//! standard output fails, so no run of the built program shows this.

use crate::expectations::{expect_that, expect_told};
use rx_program::{Host, run_words};
use std::alloc::Global;
use std::fs::{self, File};
use std::io::{self, ErrorKind, Read, Write};
use std::os::unix::net::UnixStream;
use std::process::Abort;
use std::test::Fail;
use std::thread::{self, join};
use std::time::Duration;

const SCRIPT: &[u8] = b"JOIN s BUFFER DELAY 1\nPUB s a\nPUB s b\n";

const PATH: &str = "rxline-unflushed.toml";

const SOCKET: &str = "rxline-unflushed.sock";

const LOCK: &str = "rxline-unflushed.sock.lock";

const SEEDED: &[u8] =
    b"[[subject]]\nname = \"s\"\nkind = \"behavior\"\nseed = \"z\"\n[pool]\nconnections = 1\n";

fn write_config(rt: &impl Host) -> io::Result<()> {
    File::create(rt, PATH)?.write_all(SEEDED)
}

/// Holds what is written. Each flush fails.
#[derive(Drop)]
struct Unflushed {
    held: Vec<u8>,
}

impl Write for Unflushed {
    fn write(&mut self, buf: &[u8]) -> io::Result<usize> {
        self.held.extend_from_slice(buf)?;
        Ok(buf.len())
    }

    fn flush(&mut self) -> io::Result<()> {
        Err(io::Error::from(ErrorKind::Other))
    }
}

// What a run told: its status, what it wrote, and behind a bar what it told of faults. A part that finds no memory is
// left out, and then what is told is not what is wanted.
fn joined(alloc: Global, status: u8, written: &[u8], faults: &[u8]) -> Vec<u8> {
    let mut told = Vec::new(alloc);
    let _ = write!(told, "{status} ");
    let _ = told.extend_from_slice(written);
    let _ = told.extend_from_slice(b"|");
    let _ = told.extend_from_slice(faults);
    told
}

// What is told of a run over the script whose writer can't be flushed.
fn told_unflushed(rt: &impl Host, words: &[&str]) -> Vec<u8> {
    let mut reader = SCRIPT;
    let mut writer = Unflushed {
        held: Vec::new(rt.alloc()),
    };
    let mut faults = Vec::new(rt.alloc());
    let log = Vec::new(rt.alloc());
    let status = run_words(rt, words, &mut reader, &mut writer, &mut faults, log);
    joined(
        rt.alloc(),
        status,
        writer.held.as_slice(),
        faults.as_slice(),
    )
}

// Words, and how what is told of a run by them begins. Of a script nothing was written before its first read.
const UNFLUSHED: [(&[&str], &str); 5] = [
    (&[], "1 |"),
    (&["--help"], "1 Multicasts items"),
    (&["--version"], "1 rxline 0.1.0\n|"),
    (
        &["check", PATH],
        "1 subject s behavior observers 64 joins 4294967295 items 4294967295 seed z\n",
    ),
    (&["audit", PATH], "1 OBSERVER s 0\nGIVEN NEXT z\n"),
];

#[test]
fn faults_of_flushes(rt: HostRuntime) -> Result<(), Fail> {
    write_config(&rt)?;
    for (words, front) in &UNFLUSHED {
        let told = told_unflushed(&rt, words);
        expect_that(&rt, told.starts_with(front.as_bytes()), front);
        let is_told = told.ends_with(b"|rxline: write fault\n");
        expect_that(&rt, is_told, front);
    }
    fs::remove_file(&rt, PATH)?;
    Ok(())
}

// How often a peer looks for the socket, 5 milliseconds apart.
const LOOKS: u32 = 2_000;

fn connect(rt: &impl Host) -> Option<UnixStream> {
    for _ in 0..LOOKS {
        if let Ok(stream) = UnixStream::connect(rt, SOCKET) {
            return Some(stream);
        }
        thread::sleep(rt, Duration::from_millis(5));
    }
    None
}

// Whether a session that says QUIT is answered.
fn is_answered(stream: &mut UnixStream) -> bool {
    let mut answer = [0; 3];
    let is_said = stream.write_all(b"QUIT\n").is_ok();
    let is_heard = stream.read_exact(&mut answer).is_ok();
    is_said && is_heard && answer == *b"OK\n"
}

// Ends its session with the server, once that listens. Whether it was answered.
fn quits(rt: &impl Host) -> bool {
    match connect(rt) {
        Some(mut stream) => is_answered(&mut stream),
        None => false,
    }
}

fn remove_files(rt: &impl Host) -> io::Result<()> {
    fs::remove_file(rt, PATH)?;
    fs::remove_file(rt, LOCK)?;
    fs::remove_file(rt, SOCKET)
}

// This is told of the server, and its peer was answered. The files of the run are removed.
fn expect_served(
    rt: &(impl Host + Abort),
    told: &[u8],
    right: bool,
    wanted: &str,
) -> Result<(), Fail> {
    expect_that(rt, right, SOCKET);
    expect_told(rt, told, wanted, SOCKET);
    remove_files(rt)?;
    Ok(())
}

#[test]
fn a_report_that_is_not_flushed(rt: HostRuntime) -> Result<(), Fail> {
    write_config(&rt)?;
    let (told, right) = join(
        &rt,
        || -> Vec<u8> { told_unflushed(&rt, &["serve", PATH, SOCKET]) },
        || -> bool { quits(&rt) },
    );
    let wanted =
        "1 s joins 0 refused 0\n|rxline: listening on rxline-unflushed.sock\nrxline: write fault\n";
    expect_served(&rt, told.as_slice(), right, wanted)
}
