//! Worked runs of a hub with each of its growths refused in turn: either there is no hub or no list of its steps, or the
//! hub answers and gives what the history of the other events says.
//!
//! A run is told by the moments of its parts, in milliseconds, each with the signs of its events, and `A` to `I` where observer 1
//! requests 1 to 9 items.

ghost use Rattle.std.specs.Prelude.{◌≤◌, IfOk};

use crate::expectations::{expect_count, expect_that, expect_words};
use crate::hubs::{Ran, Reading};
use rx_heap::Heap;
use rx_history::History;
use rx_hub::{Hub, HubError, Run, Step};
use rx_note::{Errors, Event, Refusal, Rules, Strategy};
use std::slice;
use std::test::Fail;
use test_kit::{Named, Refusable, Seen, event_at, kind_of, policy_by, refuse_in_turn, rules_of};

/// A worked run: the kind of its subject, the strategy, error mode and first request of each observer in turn, and its events.
struct Row {
    name: &'static str,
    kind: Named,
    joins: &'static [(Strategy, Errors, u32)],
    parts: &'static [(u64, &'static str)],
}

const ROWS: &[Row] = &[
    Row {
        name: "first_run",
        kind: Named::Publish,
        joins: &[(Strategy::Buffer, Errors::Delay, 0)],
        parts: &[(0, "+ab1.5")],
    },
    Row {
        name: "latest_two",
        kind: Named::Publish,
        joins: &[(Strategy::Latest(2), Errors::Delay, 1)],
        parts: &[(0, "+abcd5e")],
    },
    Row {
        name: "error_ahead",
        kind: Named::Publish,
        joins: &[(Strategy::Buffer, Errors::Ahead, 1)],
        parts: &[(0, "+abc!3")],
    },
    Row {
        name: "overflow_ahead",
        kind: Named::Publish,
        joins: &[(Strategy::Bounded(1), Errors::Ahead, 1)],
        parts: &[(0, "+abc1")],
    },
    Row {
        name: "tape_replay_and_latest",
        kind: Named::Replay(Some(2), None),
        joins: &[
            (Strategy::Latest(1), Errors::Delay, 0),
            (Strategy::Buffer, Errors::Delay, 1),
        ],
        parts: &[(0, "abc++d-I")],
    },
    Row {
        name: "tape_behind_a_seed",
        kind: Named::Behavior(Some(b'z')),
        joins: &[(Strategy::Latest(2), Errors::Delay, 0)],
        parts: &[(0, "+ab9")],
    },
    Row {
        name: "overflow_delayed",
        kind: Named::Publish,
        joins: &[(Strategy::Bounded(1), Errors::Delay, 1)],
        parts: &[(0, "+abcd1.")],
    },
    Row {
        name: "overflow_room_zero",
        kind: Named::Publish,
        joins: &[(Strategy::Bounded(0), Errors::Delay, 0)],
        parts: &[(0, "+ab+c.")],
    },
    Row {
        name: "overflow_in_the_opening",
        kind: Named::Replay(None, None),
        joins: &[(Strategy::Bounded(1), Errors::Delay, 0)],
        parts: &[(0, "ab+2c")],
    },
    Row {
        name: "behavior_before_and_after_end",
        kind: Named::Behavior(Some(b'z')),
        joins: &[(Strategy::Buffer, Errors::Delay, 9)],
        parts: &[(0, "+a+.+")],
    },
    Row {
        name: "async_last_item",
        kind: Named::Async,
        joins: &[(Strategy::Buffer, Errors::Delay, 1)],
        parts: &[(0, "+ab.+")],
    },
    Row {
        name: "async_empty",
        kind: Named::Async,
        joins: &[(Strategy::Buffer, Errors::Delay, 1)],
        parts: &[(0, "+.")],
    },
    Row {
        name: "async_failed",
        kind: Named::Async,
        joins: &[(Strategy::Buffer, Errors::Delay, 1)],
        parts: &[(0, "+a!")],
    },
    Row {
        name: "replay_count_into_drop",
        kind: Named::Replay(Some(2), None),
        joins: &[(Strategy::Drop(1), Errors::Delay, 0)],
        parts: &[(0, "abc+2")],
    },
    Row {
        name: "replay_age_stops_at_the_end",
        kind: Named::Replay(None, Some(10)),
        joins: &[(Strategy::Buffer, Errors::Delay, 9)],
        parts: &[(0, "a"), (5, "b"), (10, "c+"), (15, "+."), (1000, "+")],
    },
    Row {
        name: "replay_of_a_failed_subject",
        kind: Named::Replay(None, None),
        joins: &[
            (Strategy::Buffer, Errors::Ahead, 0),
            (Strategy::Buffer, Errors::Delay, 0),
        ],
        parts: &[(0, "a!++A")],
    },
    Row {
        name: "left_and_joined_again",
        kind: Named::Replay(None, None),
        joins: &[(Strategy::Buffer, Errors::Delay, 1)],
        parts: &[(0, "+ab-c+1.")],
    },
    Row {
        name: "stamps_never_fall",
        kind: Named::Replay(None, Some(10)),
        joins: &[(Strategy::Buffer, Errors::Delay, 9)],
        parts: &[(20, "a"), (5, "b"), (29, "+"), (30, "+")],
    },
];

// Hands the table out, so that what goes over it is proved without its rows.
fn rows() -> &'static [Row] {
    ROWS
}

impl Row {
    fn rules(&self, heap: &Heap) -> Result<Rules, Fail>
        ensures { IfOk result (λ rules. rules.limits.observers ≤ 64) }
    {
        Ok(rules_of(kind_of(heap, self.kind)?))
    }

    fn events(&self, heap: &Heap) -> Result<Vec<(u32, Event), Heap>, Fail> {
        let mut joins = self.joins.iter();
        let mut events = Vec::new(heap.clone()?);
        for (at, signs) in self.parts {
            for sign in signs.as_bytes() {
                events.push((0, self.event(heap, &mut joins, *at, *sign)?))?;
            }
        }
        Ok(events)
    }

    // The event of a sign. A Join is as the next of the joins says, or as the last.
    fn event(
        &self,
        heap: &Heap,
        joins: &mut slice::Iter<'static, (Strategy, Errors, u32)>,
        at: u64,
        sign: u8,
    ) -> Result<Event, Fail> {
        if let b'A'..=b'I' = sign {
            let n = u32::from(sign - b'A').saturating_add(1);
            return Ok(Event::Request { who: 1, n });
        }
        let next = if sign == b'+' { joins.next() } else { None };
        let Some((strategy, errors, first)) = next.or(self.joins.last()) else {
            return Err(Fail::from("a run without observers"));
        };
        let policy = policy_by(*strategy, *errors)?;
        Ok(event_at(heap, policy, *first, at, sign)?)
    }

    // The history of the events that were not refused for want of memory.
    fn taken(&self, heap: &Heap, steps: &[Step]) -> Result<History, Fail> {
        let mut history = History::new(heap.clone()?);
        let mut steps = steps.iter();
        for (port, event) in self.events(heap)? {
            if !is_missed(steps.next()) {
                history.add(port, event)?;
            }
        }
        Ok(history)
    }

    fn hub(&self, free: &Heap, tight: &Heap) -> Result<Option<Hub>, Fail> {
        let Rules { kind, limits } = self.rules(free)?;
        match Hub::new(tight.clone()?, kind, limits) {
            Ok(hub) => Ok(Some(hub)),
            Err(HubError::Memory) => Ok(None),
            Err(HubError::BadLimits) => Err(Fail::from("limits")),
        }
    }

    fn reading(&self, heap: &Heap, steps: &[Step]) -> Result<Reading, Fail> {
        let history = self.taken(heap, steps)?;
        let rules = self.rules(heap)?;
        Ok(Reading { history, rules })
    }

    fn ran(&self, heap: &Heap, hub: Hub, run: Run) -> Result<Ran, Fail> {
        let reading = self.reading(heap, run.steps.as_slice())?;
        Ok(Ran { reading, run, hub })
    }

    // The run of a hub; none where the list of its steps found no memory.
    fn run_on(&self, free: &Heap, tight: &Heap, hub: Hub) -> Result<Option<Ran>, Fail> {
        let mut hub = hub;
        match hub.run(tight.clone()?, self.events(free)?) {
            Ok(run) => Ok(Some(self.ran(free, hub, run)?)),
            Err(_) => Ok(None),
        }
    }

    // The run of a hub that grows by `tight`, while all else is made by `free`; none where the hub or the list of its steps
    // found no memory.
    fn run(&self, free: &Heap, tight: &Heap) -> Result<Option<Ran>, Fail> {
        match self.hub(free, tight)? {
            Some(hub) => self.run_on(free, tight, hub),
            None => Ok(None),
        }
    }
}

fn is_missed(step: Option<&Step>) -> bool {
    match step {
        Some(step) => step.result == Err(Refusal::Memory),
        None => false,
    }
}

impl Refusable for Row {
    fn run_by(&self, free: &Heap, tight: &Heap) -> Result<Seen, Fail> {
        match &self.run(free, tight)? {
            None => Ok(Seen {
                is_made: false,
                misses: 0,
                is_right: true,
            }),
            Some(ran) => Ok(Seen {
                is_made: true,
                misses: ran.hub.misses(),
                is_right: ran.differs()?.is_none(),
            }),
        }
    }
}

// A run of a hub leaves nothing in use, nor do its events and what it gave.
#[test]
fn worked_runs_leave_nothing(rt: HostRuntime) -> Result<(), Fail> {
    let heap = Heap::with_budget(rt.alloc(), u64::MAX)?;
    for row in rows() {
        let seen = row.run_by(&heap, &heap)?;
        expect_that(&rt, seen.is_made && seen.is_right, row.name);
        expect_count(&rt, heap.used(), 0, row.name);
    }
    Ok(())
}

#[test]
fn worked_runs_with_each_growth_refused(rt: HostRuntime) -> Result<(), Fail> {
    for row in rows() {
        let refusals = refuse_in_turn(row, rt.alloc())?;
        expect_words(&rt, refusals.fault, "", row.name);
        expect_that(&rt, refusals.unmade >= 1, row.name);
        expect_that(&rt, refusals.missed >= 1, row.name);
    }
    Ok(())
}
