//! Configurations: what whole texts say, and those that are refused.

use crate::expectations::expect_that;
use crate::readings::{FIRST, expect_reading, expect_readings};
use rx_config::{ConfigError, read_config};
use rx_heap::Heap;
use std::alloc::Global;
use std::process::Abort;
use std::test::Fail;

// What stands behind a first subject, and what is told.
const CONFIGURATIONS: [(&str, &str); 4] = [
    (
        "",
        "1 4 16 4294967295 60; s 64 4294967295 4294967295 publish",
    ),
    (
        "observers = 1\njoins = 2\nitems = 3\n[pool]\ndrainers = 8\nworkers = 32\nwindow = 1\nconnections = 1\n",
        "8 32 1 1 60; s 1 2 3 publish",
    ),
    (
        "[[subject]]\nname = \"b-1\"\nkind = \"behavior\"\nseed = \"\"\n[[subject]]\nname = \"c\"\nkind = \"async\"\n",
        "1 4 16 4294967295 60; s 64 4294967295 4294967295 publish; b-1 64 4294967295 4294967295 behavior ; c 64 4294967295 4294967295 async",
    ),
    (
        "[[subject]]\nname = \"r\"\nkind = \"replay\"\ncount = 4096\nage = 9223372036854775807\n",
        "1 4 16 4294967295 60; s 64 4294967295 4294967295 publish; r 64 4294967295 4294967295 replay Some(4096) Some(9223372036854775807)",
    ),
];

#[test]
fn configurations(rt: HostRuntime) -> Result<(), Fail> {
    expect_readings(&rt, rt.alloc(), FIRST, CONFIGURATIONS.as_slice())
}

#[test]
fn example_of_two_subjects(rt: HostRuntime) -> Result<(), Fail> {
    let text =
        b"[[subject]]\nname = \"s\"\nkind = \"replay\"\ncount = 16\n\n[[subject]]\nname = \"b\"\nkind = \"behavior\"\nseed = \"none yet\"\n".as_slice();
    let wanted =
        "1 4 16 4294967295 60; s 64 4294967295 4294967295 replay Some(16) None; b 64 4294967295 4294967295 behavior none yet";
    expect_reading(&rt, rt.alloc(), text, wanted)?;
    expect_reading(&rt, rt.alloc(), b"\xff".as_slice(), "config is not TOML")
}

// Texts that are refused, and for which cause.
const REFUSALS: [(&str, &str); 17] = [
    ("", "no subject"),
    ("subject", "config is not TOML"),
    ("name = 1\npool = 1\n", "config has an unknown key"),
    ("pool = 1\nsubject = 1\n", "pool is refused"),
    ("[pool]\ndrainers = 9\n", "pool is refused"),
    ("[pool]\nwindow = -1\n", "pool is refused"),
    ("[pool]\nthreads = 1\n", "pool is refused"),
    ("https = 1\nhttp = 1\n", "config has an unknown key"),
    ("http = 1\npool = 1\n", "pool is refused"),
    ("http = 1\nsubject = 1\n", "http is refused"),
    ("http = [1]\n", "http is refused"),
    ("subject = \"s\"\n", "no subject"),
    ("subject = []\n", "no subject"),
    ("subject = [1]\n", "subject 0 is refused"),
    (
        "[[subject]]\nname = \"s\"\nkind = \"replay\"\ncount = 0\n",
        "subject 0 is refused",
    ),
    (
        "[[subject]]\nname = \"S\"\nkind = \"publish\"\n",
        "subject 0 is refused",
    ),
    (
        "[[subject]]\nname = \"s\"\nkind = \"hot\"\n",
        "subject 0 is refused",
    ),
];

#[test]
fn configuration_refusals(rt: HostRuntime) -> Result<(), Fail> {
    expect_readings(&rt, rt.alloc(), "", REFUSALS.as_slice())
}

// What is refused behind a first subject, and for which cause.
const LATER: [(&str, &str); 5] = [
    (FIRST, "subject 1 has a name that stands before"),
    ("[[subject]]\nkind = \"publish\"\n", "subject 1 is refused"),
    (
        "[[subject]]\nname = \"s\"\nkind = \"async\"\nage = 1\n",
        "subject 1 is refused",
    ),
    (
        "[[subject]]\nname = \"b\"\nkind = \"behavior\"\nseed = \"\\n\"\n",
        "subject 1 is refused",
    ),
    (
        "[[subject]]\nname = \"b\"\nkind = \"publish\"\nobservers = 65\n",
        "subject 1 is refused",
    ),
];

#[test]
fn refusals_of_a_later_subject(rt: HostRuntime) -> Result<(), Fail> {
    expect_readings(&rt, rt.alloc(), FIRST, LATER.as_slice())
}

#[test]
fn more_than_sixteen_subjects(rt: HostRuntime) -> Result<(), Fail> {
    let mut text = Vec::new(rt.alloc());
    for _ in 0..17 {
        text.extend_from_slice(b"[[subject]]\n")?;
    }
    expect_reading(&rt, rt.alloc(), text.as_slice(), "more than 16 subjects")
}

const SEEDED: &[u8] =
    b"[[subject]]\nname = \"s\"\nkind = \"behavior\"\nseed = \"a seed that takes memory\"\n[http]\nsocket = \"/a/path/that/takes/memory\"\n";

// For what a text is refused; none where it is not.
fn refusal_by(alloc: Global, heap: Heap) -> Option<ConfigError> {
    read_config(heap, alloc, SEEDED).err()
}

// Reads with a growth refused: for want of memory where it is met. Whether it was.
fn meets_refusal(rt: &impl Abort, alloc: Global, growth: u64) -> Result<bool, Fail> {
    let heap = Heap::refusing(alloc, growth)?;
    let refused = refusal_by(alloc, heap.clone()?);
    let is_met = heap.asked() > growth;
    let wanted = if is_met {
        Some(ConfigError::Memory)
    } else {
        None
    };
    assert!(rt; refused == wanted, "growth {growth}");
    Ok(is_met)
}

// How many growths were refused, each in a reading of its own, until one met no refusal.
fn refused_in_turn(rt: &impl Abort, alloc: Global) -> Result<Option<u64>, Fail> {
    for growth in 0..16 {
        if !meets_refusal(rt, alloc, growth)? {
            return Ok(Some(growth));
        }
    }
    Ok(None)
}

#[test]
fn each_growth_of_a_configuration_refused(rt: HostRuntime) -> Result<(), Fail> {
    let refused = refused_in_turn(&rt, rt.alloc())?;
    expect_that(&rt, refused.is_some(), &"still refused");
    Ok(())
}
