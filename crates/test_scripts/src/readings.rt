//! What a configuration says, told as text, or the cause for which it is refused.

use crate::expectations::expect_told;
use rx_config::{Config, Http, SubjectConfig, read_config};
use rx_heap::Heap;
use rx_note::{Kind, Text};
use std::alloc::Global;
use std::io::{self, Write};
use std::process::Abort;
use std::test::Fail;

/// A subject, behind which a text stands.
pub(crate) const FIRST: &str = "[[subject]]\nname = \"s\"\nkind = \"publish\"\n";

// How many bytes may wait for an observer where a text does not say it. Then it is not told.
const STANDARD_WAITING: u32 = 33_554_432;

// What was read: the pool, where events are told over HTTP, then a line for each subject.
fn told<W: Write>(out: &mut W, config: &Config) -> io::Result<()> {
    let Config {
        subjects,
        drainers,
        workers,
        window,
        connections,
        stall,
        waiting,
        idle,
        takeover,
        http,
    } = config;
    write!(out, "{drainers} {workers} {window} {connections} {stall}")?;
    if *waiting != STANDARD_WAITING {
        write!(out, " waiting {waiting}")?;
    }
    if let Some(idle) = idle {
        write!(out, " idle {idle}")?;
    }
    if *takeover {
        out.write_all(b" takeover")?;
    }
    if let Some(http) = http {
        tell_http(out, http)?;
    }
    for subject in subjects {
        tell_subject(out, subject)?;
    }
    Ok(())
}

fn tell_http<W: Write>(out: &mut W, http: &Http) -> io::Result<()> {
    out.write_all(b" http ")?;
    out.write_all(http.socket.as_bytes())?;
    write!(out, " {} {}", http.heartbeat, http.readers)?;
    if http.emit {
        out.write_all(b" emit")?;
    }
    if http.stop {
        out.write_all(b" stop")?;
    }
    Ok(())
}

fn tell_subject<W: Write>(out: &mut W, subject: &SubjectConfig) -> io::Result<()> {
    out.write_all(b"; ")?;
    out.write_all(subject.name.as_bytes())?;
    let limits = subject.rules.limits;
    let most = (limits.observers, limits.joins, limits.items);
    write!(out, " {} {} {} ", most.0, most.1, most.2)?;
    if let Some(budget) = &subject.budget {
        write!(out, "{budget:?} ")?;
    }
    tell_kind(out, &subject.rules.kind)
}

fn tell_kind<W: Write>(out: &mut W, kind: &Kind) -> io::Result<()> {
    match kind {
        Kind::Publish => out.write_all(b"publish"),
        Kind::Behavior(seed) => tell_seed(out, seed),
        Kind::Async => out.write_all(b"async"),
        Kind::Replay { count, age } => write!(out, "replay {count:?} {age:?}"),
    }
}

fn tell_seed<W: Write>(out: &mut W, seed: &Option<Text>) -> io::Result<()> {
    out.write_all(b"behavior ")?;
    match seed {
        Some(seed) => out.write_all(seed.as_bytes()),
        None => Ok(()),
    }
}

/// What a text says, or its cause.
pub(crate) fn reading_of(alloc: Global, bytes: &[u8]) -> Result<Vec<u8>, Fail> {
    let mut out = Vec::new(alloc);
    match read_config(Heap::unlimited(alloc), alloc, bytes) {
        Ok(config) => told(&mut out, &config)?,
        Err(cause) => write!(out, "{cause}")?,
    }
    Ok(out)
}

// What a text says behind another, or its cause.
fn reading_behind(alloc: Global, front: &str, text: &str) -> Result<Vec<u8>, Fail> {
    let mut whole = Vec::new(alloc);
    whole.extend_from_slice(front.as_bytes())?;
    whole.extend_from_slice(text.as_bytes())?;
    reading_of(alloc, whole.as_slice())
}

/// What each text says behind a front, or its cause.
pub(crate) fn expect_readings(
    rt: &impl Abort,
    alloc: Global,
    front: &str,
    rows: &[(&str, &str)],
) -> Result<(), Fail> {
    for (text, wanted) in rows {
        let reading = reading_behind(alloc, front, text)?;
        expect_told(rt, reading.as_slice(), wanted.as_bytes(), text);
    }
    Ok(())
}

/// What these bytes say, or their cause.
pub(crate) fn expect_reading(
    rt: &impl Abort,
    alloc: Global,
    bytes: &[u8],
    wanted: &str,
) -> Result<(), Fail> {
    let reading = reading_of(alloc, bytes)?;
    expect_told(rt, reading.as_slice(), wanted.as_bytes(), &"a text");
    Ok(())
}
