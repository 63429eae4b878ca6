//! The worked runs of the kinds and of the limits: each a script for a configuration whose one subject `s` has them, and
//! what is written for it.

ghost use Rattle.std.specs.Prelude.{◌≡◌, true};
ghost use Rattle.rx_hub.specs.Hubs.{are_in_range};

use crate::expectations::expect_told;
use rx_config::Config;
use rx_heap::{Heap, Memory};
use rx_note::{Kind, Limits, Rules, Text};
use rx_script::run_script;
use rx_session::SessionEnd;
use std::test::Fail;

const MAX_READS: u64 = 4_294_967_296;

// A kind as the table names it. It owns no memory.
#[derive(Clone, Copy)]
pub(crate) enum Named {
    Publish,
    // With the seed z.
    Behavior,
    Async,
    // By its count and its age.
    Replay(Option<u16>, Option<u64>),
}

fn seed_of(heap: &Heap) -> Result<Text, Memory> {
    let heap = heap.clone()?;
    match Text::new(heap, b"z") {
        Ok(seed) => Ok(seed),
        Err(_) => Err(Memory),
    }
}

fn kind_of(heap: &Heap, named: Named) -> Result<Kind, Memory> {
    match named {
        Named::Publish => Ok(Kind::Publish),
        Named::Behavior => {
            let seed = seed_of(heap)?;
            Ok(Kind::Behavior(Some(seed)))
        }
        Named::Async => Ok(Kind::Async),
        Named::Replay(count, age) => Ok(Kind::Replay { count, age }),
    }
}

// How many observers and items a subject has room for.
#[derive(Clone, Copy)]
pub(crate) enum Room {
    // As many as the limits allow.
    Wide,
    // One at a time.
    OneAtATime,
    // One at a time, and two in all.
    TwoInAll,
    // As many as the limits allow, and two items.
    TwoItems,
}

fn limits_of(room: Room) -> Limits
    ensures { are_in_range result ≡ true }
{
    let (observers, joins, items) = match room {
        Room::Wide => (64, u32::MAX, u32::MAX),
        Room::OneAtATime => (1, u32::MAX, u32::MAX),
        Room::TwoInAll => (1, 2, u32::MAX),
        Room::TwoItems => (64, u32::MAX, 2),
    };
    Limits {
        observers,
        joins,
        items,
    }
}

// The configuration of a run.
pub(crate) fn config_of(heap: &Heap, run: &Run) -> Result<Config, Memory> {
    let mut config = Config::standard(heap.clone()?)?;
    let kind = kind_of(heap, run.kind)?;
    if kind.check().is_err() {
        return Err(Memory);
    }
    let limits = limits_of(run.room);
    let Some(subject) = config.subjects.first_mut() else {
        return Err(Memory);
    };
    subject.rules = Rules { kind, limits };
    Ok(config)
}

// Runs it, and says how it ended.
fn end_of(heap: &Heap, run: &Run, written: &mut Vec<u8, Heap>) -> Result<SessionEnd, Memory> {
    let config = config_of(heap, run)?;
    let mut reader = run.script;
    run_script(heap.clone()?, config, &mut reader, written, MAX_READS)
}

// What is written for a run; `?` stands behind it where it did not end with the input.
fn written_for(heap: &Heap, run: &Run) -> Result<Vec<u8, Heap>, Memory> {
    let mut written = Vec::new(heap.clone()?);
    if end_of(heap, run, &mut written)? != SessionEnd::EndOfInput {
        written.push(b'?')?;
    }
    Ok(written)
}

// A worked run: what is written for a script over a subject.
#[derive(Clone, Copy)]
pub(crate) struct Run {
    pub(crate) name: &'static str,
    pub(crate) kind: Named,
    pub(crate) room: Room,
    pub(crate) script: &'static [u8],
    pub(crate) answers: &'static [u8],
}

const RUNS: &[Run] = &[
    Run {
        name: "publish_after_its_end",
        kind: Named::Publish,
        room: Room::Wide,
        script: b"JOIN s BUFFER DELAY 1\nEND s\nJOIN s BUFFER DELAY 1\n",
        answers: b"OK 0\nOK\ns 0 DONE\nOK 1\ns 1 DONE\n",
    },
    Run {
        name: "behavior_before_and_after_end",
        kind: Named::Behavior,
        room: Room::Wide,
        script: b"JOIN s BUFFER DELAY 9\nPUB s a\nJOIN s BUFFER DELAY 9\nEND s\nJOIN s BUFFER DELAY 9\n",
        answers: b"OK 0\ns 0 NEXT z\nOK\ns 0 NEXT a\nOK 1\ns 1 NEXT a\nOK\ns 0 DONE\ns 1 DONE\nOK 2\ns 2 DONE\n",
    },
    Run {
        name: "async_last_item",
        kind: Named::Async,
        room: Room::Wide,
        script: b"JOIN s BUFFER DELAY 1\nPUB s a\nPUB s b\nEND s\nJOIN s BUFFER DELAY 1\n",
        answers: b"OK 0\nOK\nOK\nOK\ns 0 NEXT b\ns 0 DONE\nOK 1\ns 1 NEXT b\ns 1 DONE\n",
    },
    Run {
        name: "async_empty",
        kind: Named::Async,
        room: Room::Wide,
        script: b"JOIN s BUFFER DELAY 1\nEND s\n",
        answers: b"OK 0\nOK\ns 0 DONE\n",
    },
    Run {
        name: "async_failed",
        kind: Named::Async,
        room: Room::Wide,
        script: b"JOIN s BUFFER DELAY 1\nPUB s a\nFAIL s x\n",
        answers: b"OK 0\nOK\nOK\ns 0 FAILED x\n",
    },
    Run {
        name: "replay_count_into_drop",
        kind: Named::Replay(Some(2), None),
        room: Room::Wide,
        script: b"PUB s a\nPUB s b\nPUB s c\nJOIN s DROP:1 DELAY 0\nREQUEST s 0 2\n",
        answers: b"OK\nOK\nOK\nOK 0\nOK\ns 0 NEXT b\n",
    },
    Run {
        name: "replay_age_stops_at_the_end",
        kind: Named::Replay(None, Some(10)),
        room: Room::Wide,
        script: b"AT 0\nPUB s a\nAT 5\nPUB s b\nAT 10\nPUB s c\nJOIN s BUFFER DELAY 9\nAT 15\nJOIN s BUFFER DELAY 9\nEND s\nAT 1000\nJOIN s BUFFER DELAY 9\n",
        answers: b"OK\nOK\nOK\nOK\nOK\nOK\nOK 0\ns 0 NEXT b\ns 0 NEXT c\nOK\nOK 1\ns 1 NEXT c\nOK\ns 0 DONE\ns 1 DONE\nOK\nOK 2\ns 2 NEXT c\ns 2 DONE\n",
    },
    Run {
        name: "stamps_never_fall",
        kind: Named::Replay(None, Some(10)),
        room: Room::Wide,
        script: b"AT 20\nPUB s a\nAT 5\nPUB s b\nAT 29\nJOIN s BUFFER DELAY 9\nAT 30\nJOIN s BUFFER DELAY 9\n",
        answers: b"OK\nOK\nOK\nOK\nOK\nOK 0\ns 0 NEXT a\ns 0 NEXT b\nOK\nOK 1\n",
    },
    Run {
        name: "replay_by_both_bounds",
        kind: Named::Replay(Some(2), Some(10)),
        room: Room::Wide,
        script: b"AT 0\nPUB s a\nAT 5\nPUB s b\nAT 6\nPUB s c\nAT 7\nPUB s d\nAT 9\nJOIN s BUFFER DELAY 9\nAT 16\nJOIN s BUFFER DELAY 9\n",
        answers: b"OK\nOK\nOK\nOK\nOK\nOK\nOK\nOK\nOK\nOK 0\ns 0 NEXT c\ns 0 NEXT d\nOK\nOK 1\ns 1 NEXT d\n",
    },
    Run {
        name: "replay_of_a_failed_subject",
        kind: Named::Replay(None, None),
        room: Room::Wide,
        script: b"PUB s a\nFAIL s x\nJOIN s BUFFER AHEAD 0\nJOIN s BUFFER DELAY 0\nREQUEST s 1 1\n",
        answers: b"OK\nOK\nOK 0\ns 0 FAILED x\nOK 1\nOK\ns 1 NEXT a\ns 1 FAILED x\n",
    },
    Run {
        name: "held_and_joined_limits",
        kind: Named::Publish,
        room: Room::TwoInAll,
        script: b"JOIN s BUFFER DELAY 0\nJOIN s BUFFER DELAY 0\nDISPOSE s 0\nJOIN s BUFFER DELAY 0\nDISPOSE s 1\nJOIN s BUFFER DELAY 0\nDISPOSE s 1\n",
        answers: b"OK 0\nERR FULL\nOK\nOK 1\nOK\nERR SPENT\nERR OBSERVER\n",
    },
    Run {
        name: "refused_join_keeps_the_window",
        kind: Named::Replay(None, Some(10)),
        room: Room::OneAtATime,
        script: b"AT 0\nPUB s a\nJOIN s BUFFER DELAY 9\nAT 50\nJOIN s BUFFER DELAY 9\nDISPOSE s 0\nAT 5\nJOIN s BUFFER DELAY 9\n",
        answers: b"OK\nOK\nOK 0\ns 0 NEXT a\nOK\nERR FULL\nOK\nOK\nOK 1\ns 1 NEXT a\n",
    },
    Run {
        name: "tape_replay_and_latest",
        kind: Named::Replay(Some(2), None),
        room: Room::Wide,
        script: b"PUB s a\nPUB s b\nPUB s c\nJOIN s LATEST:1 DELAY 0\nJOIN s BUFFER DELAY 1\nPUB s d\nDISPOSE s 0\nREQUEST s 1 9\n",
        answers: b"OK\nOK\nOK\nOK 0\nOK 1\ns 1 NEXT b\nOK\nOK\nOK\ns 1 NEXT c\ns 1 NEXT d\n",
    },
    Run {
        name: "tape_behind_a_seed",
        kind: Named::Behavior,
        room: Room::Wide,
        script: b"JOIN s LATEST:2 DELAY 0\nPUB s a\nPUB s b\nREQUEST s 0 9\n",
        answers: b"OK 0\nOK\nOK\nOK\ns 0 NEXT a\ns 0 NEXT b\n",
    },
    Run {
        name: "overflow_in_the_opening",
        kind: Named::Replay(None, None),
        room: Room::Wide,
        script: b"PUB s a\nPUB s b\nJOIN s BOUNDED:1 DELAY 0\nREQUEST s 0 2\n",
        answers: b"OK\nOK\nOK 0\nOK\ns 0 NEXT a\ns 0 FAILED OVERFLOW\n",
    },
    Run {
        name: "held_after_an_overflow",
        kind: Named::Publish,
        room: Room::OneAtATime,
        script: b"JOIN s BOUNDED:0 AHEAD 0\nPUB s a\nJOIN s BOUNDED:0 AHEAD 1\nREQUEST s 0 1\nDISPOSE s 0\nJOIN s BOUNDED:0 AHEAD 1\nPUB s b\n",
        answers: b"OK 0\nOK\ns 0 FAILED OVERFLOW\nERR FULL\nOK\nOK\nOK 1\nOK\ns 1 NEXT b\n",
    },
    Run {
        name: "place_and_version",
        kind: Named::Behavior,
        room: Room::TwoItems,
        script: b"HELLO 3\nHELLO 2\nJOIN s BUFFER DELAY 9\nPUB s a\nHELLO 1\nPUB s b\nPUB s c\nEND s\n",
        answers: b"ERR VERSION\nOK\nOK 0\ns 0 NEXT - - z\nOK\ns 0 NEXT 0 0 a\nOK\nOK\ns 0 NEXT b\nERR SPENT\nOK\ns 0 DONE\n",
    },
    Run {
        name: "ended_goes_before_spent",
        kind: Named::Publish,
        room: Room::TwoItems,
        script: b"PUB s a\nPUB s b\nPUB s c\nFAIL s x\nPUB s d\nFAIL s y\nJOIN s BUFFER DELAY 1\n",
        answers: b"OK\nOK\nERR SPENT\nOK\nERR ENDED\nERR ENDED\nOK 0\ns 0 FAILED x\n",
    },
    Run {
        name: "async_keeps_the_last_item_within_its_limit",
        kind: Named::Async,
        room: Room::TwoItems,
        script: b"HELLO 2\nJOIN s BUFFER DELAY 1\nPUB s a\nPUB s b\nPUB s c\nEND s\n",
        answers: b"OK\nOK 0\nOK\nOK\nERR SPENT\nOK\ns 0 NEXT 1 0 b\ns 0 DONE\n",
    },
    Run {
        name: "refused_item_neither_ages_nor_counts",
        kind: Named::Replay(None, Some(10)),
        room: Room::TwoItems,
        script: b"HELLO 02\nAT 0\nPUB s a\nPUB s b\nAT 50\nPUB s c\nAT 5\nJOIN s BUFFER DELAY 9\n",
        answers: b"OK\nOK\nOK\nOK\nOK\nERR SPENT\nOK\nOK 0\ns 0 NEXT 0 0 a\ns 0 NEXT 1 0 b\n",
    },
];

/// The rows; handed out, so that what goes over them is proved without them.
pub(crate) fn runs() -> &'static [Run] {
    RUNS
}

#[test]
fn worked_runs_of_the_kinds_and_the_limits(rt: HostRuntime) -> Result<(), Fail> {
    let heap = Heap::unlimited(rt.alloc());
    for run in runs() {
        let written = written_for(&heap, run)?;
        expect_told(&rt, written.as_slice(), run.answers, &run.name);
    }
    Ok(())
}
