//! Runs of a hub at sizes at which a list might be too short: none of them is refused for want of memory.

use crate::expectations::expect_count;
use crate::heaps::unlimited;
use crate::hubs::{hub_of, run_of};
use rx_heap::Heap;
use rx_hub::Run;
use rx_note::{Event, Note, Strategy};
use std::process::Abort;
use std::test::Fail;
use test_kit::{Named, item, kind_of, note_of, policy_of, rules_of};

/// A run of a subject of this kind: so many observers join with a first request, items of so many bytes are emitted, the end comes or not, so many
/// more join, and observer 0 requests or not.
#[derive(Clone, Copy)]
struct Shape {
    kind: Named,
    joins: u32,
    first: u32,
    bytes: usize,
    items: u32,
    end: Option<u8>,
    later: u32,
    request: u32,
}

/// How many events were refused, how many of them for want of memory, how many notes were given, and how many bytes their
/// texts have.
#[derive(Clone, Copy)]
struct Told {
    refused: usize,
    misses: u64,
    given: usize,
    bytes: usize,
}

fn put_joins(events: &mut Vec<(u32, Event), Heap>, count: u32, first: u32) -> Result<(), Fail> {
    let policy = policy_of(Strategy::Buffer)?;
    for _ in 0..count {
        let at = 0;
        events.push((0, Event::Join { policy, first, at }))?;
    }
    Ok(())
}

fn put_note(events: &mut Vec<(u32, Event), Heap>, note: Note) -> Result<(), Fail> {
    events.push((0, Event::Emit { note, at: 0 }))?;
    Ok(())
}

fn put_items(
    events: &mut Vec<(u32, Event), Heap>,
    heap: &Heap,
    count: u32,
    bytes: usize,
) -> Result<(), Fail> {
    let letters = [b'a'; 1024];
    let text = &letters[..bytes.min(letters.len())];
    for _ in 0..count {
        put_note(events, Note::Next(item(heap, text)?))?;
    }
    Ok(())
}

fn events_of(heap: &Heap, shape: &Shape) -> Result<Vec<(u32, Event), Heap>, Fail> {
    let mut events = Vec::new(heap.clone()?);
    put_joins(&mut events, shape.joins, shape.first)?;
    put_items(&mut events, heap, shape.items, shape.bytes)?;
    if let Some(sign) = shape.end {
        put_note(&mut events, note_of(heap, sign)?)?;
    }
    put_joins(&mut events, shape.later, shape.first)?;
    if shape.request > 0 {
        let n = shape.request;
        events.push((0, Event::Request { who: 0, n }))?;
    }
    Ok(events)
}

// A run by a new hub, and how many of its events were refused for want of memory.
fn missed_by(heap: &Heap, shape: &Shape) -> Result<(Run, u64), Fail> {
    let mut hub = hub_of(heap, rules_of(kind_of(heap, shape.kind)?))?;
    let run = run_of(heap, &mut hub, events_of(heap, shape)?)?;
    Ok((run, hub.misses()))
}

// How many bytes the text of a note has.
fn bytes_of(note: &Note) -> usize {
    match note {
        Note::Next(item) => item.text.as_bytes().len(),
        Note::Completed => 0,
        Note::Failed(text) => text.as_bytes().len(),
    }
}

fn told_of(heap: &Heap, shape: &Shape) -> Result<Told, Fail> {
    let (run, misses) = missed_by(heap, shape)?;
    let mut bytes: usize = 0;
    for given in run.outs.iter() {
        bytes = bytes.saturating_add(bytes_of(&given.note));
    }
    let mut refused: usize = 0;
    for step in run.steps.iter() {
        if step.result.is_err() {
            refused = refused.saturating_add(1);
        }
    }
    Ok(Told {
        refused,
        misses,
        given: run.outs.len(),
        bytes,
    })
}

const ALL: u32 = 4_294_967_295;

// A run in which nobody joins and nothing comes.
const NOTHING: Shape = Shape {
    kind: Named::Publish,
    joins: 0,
    first: 0,
    bytes: 1,
    items: 0,
    end: None,
    later: 0,
    request: 0,
};

// Runs by their names, and of each how many events are refused, how many notes are given, and the bytes of their texts.
const RUNS: &[(&str, Shape, usize, usize, usize)] = &[
    (
        "the longest text",
        Shape {
            joins: 2,
            first: 1,
            bytes: 1024,
            items: 1,
            ..NOTHING
        },
        0,
        2,
        2048,
    ),
    (
        "64 observers",
        Shape {
            joins: 64,
            first: 1,
            items: 1,
            ..NOTHING
        },
        0,
        64,
        64,
    ),
    (
        "65 observers",
        Shape {
            joins: 65,
            first: 1,
            items: 1,
            ..NOTHING
        },
        1,
        64,
        64,
    ),
    (
        "a join after the completion",
        Shape {
            end: Some(b'.'),
            later: 1,
            ..NOTHING
        },
        0,
        1,
        0,
    ),
    (
        "a join after the failure",
        Shape {
            end: Some(b'!'),
            later: 1,
            ..NOTHING
        },
        0,
        1,
        1,
    ),
    (
        "the greatest request",
        Shape {
            joins: 1,
            first: ALL,
            items: 3,
            ..NOTHING
        },
        0,
        3,
        3,
    ),
    (
        "20 items that wait",
        Shape {
            joins: 1,
            items: 20,
            request: 20,
            ..NOTHING
        },
        0,
        20,
        20,
    ),
    (
        "600 items that wait",
        Shape {
            joins: 1,
            items: 600,
            request: 600,
            ..NOTHING
        },
        0,
        600,
        600,
    ),
    (
        "1,100 items and the end",
        Shape {
            joins: 1,
            first: ALL,
            items: 1100,
            end: Some(b'.'),
            ..NOTHING
        },
        0,
        1101,
        1100,
    ),
    (
        "70,000 items that wait",
        Shape {
            joins: 1,
            items: 70_000,
            request: 70_000,
            ..NOTHING
        },
        0,
        70_000,
        70_000,
    ),
    (
        "a join of a Replay by the greatest count",
        Shape {
            kind: Named::Replay(Some(4096), None),
            first: ALL,
            items: 5_000,
            later: 1,
            ..NOTHING
        },
        0,
        4_096,
        4_096,
    ),
    (
        "a join of a Replay of 5,000 items",
        Shape {
            kind: Named::Replay(None, None),
            first: ALL,
            items: 5_000,
            later: 1,
            ..NOTHING
        },
        0,
        5_000,
        5_000,
    ),
];

// Hands the table out, so that what goes over it is proved without its rows.
fn runs() -> &'static [(&'static str, Shape, usize, usize, usize)] {
    RUNS
}

// This is told of a run.
fn expect_run(rt: &impl Abort, told: Told, wanted: Told, row: &str) {
    expect_count(rt, told.refused as u64, wanted.refused as u64, row);
    expect_count(rt, told.misses, wanted.misses, row);
    expect_count(rt, told.given as u64, wanted.given as u64, row);
    expect_count(rt, told.bytes as u64, wanted.bytes as u64, row);
}

#[test]
fn no_size_wants_memory(rt: HostRuntime) -> Result<(), Fail> {
    let heap = unlimited(&rt);
    for (row, shape, refused, given, bytes) in runs() {
        let wanted = Told {
            refused: *refused,
            misses: 0,
            given: *given,
            bytes: *bytes,
        };
        expect_run(&rt, told_of(&heap, shape)?, wanted, row);
    }
    Ok(())
}
