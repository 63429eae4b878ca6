//! Whole runs of a hub, told and held against the stored history of the same events. Told of a run is, for each event, what
//! it was answered and how much had been given by then, and behind all of them what was given, each note with the number of
//! its observer before it.
//!
//! Answers are `A` for an emission that was admitted, `J` with the number of the observer that joined, `R` for a request
//! that was taken and `L` for an observer that left; a refusal is `!`.

ghost use Rattle.std.specs.Prelude.{◌≤◌, IfOk};

use crate::draws::{Plan, drawn};
use crate::expectations::expect_told;
use crate::heaps::unlimited;
use rx_heap::Heap;
use rx_history::History;
use rx_hub::{Hub, NoObserver, Run, Step};
use rx_note::{Answer, Event, Given, Kind, Limits, Note, Refusal, Rules, Strategy};
use std::test::Fail;
use test_kit::{Named, Told, event_of, kind_of, policy_of, rules_of, sign_of};

fn events_of(
    heap: &Heap,
    strategy: Strategy,
    first: u32,
    script: &[u8],
) -> Result<Vec<(u32, Event), Heap>, Fail> {
    let policy = policy_of(strategy)?;
    let mut events = Vec::new(heap.clone()?);
    for sign in script {
        events.push((0, event_of(heap, policy, first, *sign)?))?;
    }
    Ok(events)
}

fn put_answer(told: &mut Told, answer: Result<Answer, Refusal>) {
    match answer {
        Ok(Answer::Admitted) => told.put(b'A'),
        Ok(Answer::Asked) => told.put(b'R'),
        Ok(Answer::Left) => told.put(b'L'),
        Ok(Answer::Joined(who)) => {
            told.put(b'J');
            told.put_digit(who as usize);
        }
        Err(_) => told.put(b'!'),
    }
}

fn put_steps(told: &mut Told, steps: &[Step]) {
    for step in steps {
        put_answer(told, step.result);
        told.put(b':');
        told.put_digit(step.outs_to);
        told.put(b' ');
    }
}

fn put_outs(told: &mut Told, outs: &[Given]) {
    for given in outs {
        told.put_digit(given.who as usize);
        told.put(sign_of(&given.note));
    }
}

/// A new hub by these rules.
pub(crate) fn hub_of(heap: &Heap, rules: Rules) -> Result<Hub, Fail> {
    let Rules { kind, limits } = rules;
    Ok(Hub::new(heap.clone()?, kind, limits)?)
}

/// The run of these events.
pub(crate) fn run_of(
    heap: &Heap,
    hub: &mut Hub,
    events: Vec<(u32, Event), Heap>,
) -> Result<Run, Fail> {
    Ok(hub.run(heap.clone()?, events)?)
}

fn told_of(run: &Run) -> Told {
    let mut told = Told::new();
    put_steps(&mut told, run.steps.as_slice());
    put_outs(&mut told, run.outs.as_slice());
    told
}

/// The run of these events by a new hub of these rules.
pub(crate) fn new_run_of(
    heap: &Heap,
    rules: Rules,
    events: Vec<(u32, Event), Heap>,
) -> Result<Run, Fail> {
    let mut hub = hub_of(heap, rules)?;
    run_of(heap, &mut hub, events)
}

// A run of a Publish subject: its name, the strategy and the first request of each join, the script, and what is told.
type Row = (&'static str, Strategy, u32, &'static str, &'static str);

const ROWS: &[Row] = &[
    (
        "first_run",
        Strategy::Buffer,
        0,
        "+ab1.5",
        "J0:0 A:0 A:0 R:1 A:1 R:3 0a0b0.",
    ),
    (
        "overflow_delayed",
        Strategy::Bounded(1),
        1,
        "+abcd1.",
        "J0:0 A:1 A:1 A:1 A:1 R:3 A:3 0a0b0%",
    ),
    (
        "overflow_room_zero",
        Strategy::Bounded(0),
        0,
        "+a+b9",
        "J0:0 A:1 J1:1 A:2 R:2 0%1%",
    ),
];

// Hands the table out, so that what goes over it is proved without its rows.
fn rows() -> &'static [Row] {
    ROWS
}

fn told_by(heap: &Heap, strategy: Strategy, first: u32, script: &[u8]) -> Result<Told, Fail> {
    let events = events_of(heap, strategy, first, script)?;
    let run = new_run_of(heap, rules_of(Kind::Publish), events)?;
    Ok(told_of(&run))
}

#[test]
fn runs_of_worked_events(rt: HostRuntime) -> Result<(), Fail> {
    for (name, strategy, first, script, wanted) in rows() {
        let told = told_by(&unlimited(&rt), *strategy, *first, script.as_bytes())?;
        expect_told(&rt, told.as_bytes(), wanted, name);
    }
    Ok(())
}

/// How many observers a drawn run holds at most.
pub(crate) const OBSERVERS: u32 = 32;

// The rules of a drawn run.
fn drawn_rules(heap: &Heap, named: Named, items: u32) -> Result<Rules, Fail>
    ensures { IfOk result (λ rules. rules.limits.observers ≤ 64) }
{
    let kind = kind_of(heap, named)?;
    let limits = Limits {
        observers: OBSERVERS,
        joins: 34,
        items,
    };
    Ok(Rules { kind, limits })
}

/// A history, and the rules that it is read by.
pub(crate) struct Reading {
    pub(crate) history: History,
    pub(crate) rules: Rules,
    pub(crate) ghost limited: { rules.limits.observers ≤ 64 },
}

// By hand: rx_heap says why.
impl Drop for Reading {
    fn drop(self) {
        let Reading {
            history: _,
            rules: _,
        } = self;
    }
}

/// A run of some events, the hub behind it, and the history of the same events.
pub(crate) struct Ran {
    pub(crate) reading: Reading,
    pub(crate) run: Run,
    pub(crate) hub: Hub,
}

// By hand: rx_heap says why.
impl Drop for Ran {
    fn drop(self) {
        let Ran {
            reading: _,
            run: _,
            hub: _,
        } = self;
    }
}

fn history_of(heap: &Heap, plan: Plan) -> Result<History, Fail> {
    let mut history = History::new(heap.clone()?);
    for (port, event) in drawn(heap, plan)? {
        history.add(port, event)?;
    }
    Ok(history)
}

/// The history of drawn events, read by this kind.
pub(crate) fn reading_of(heap: &Heap, named: Named, plan: Plan) -> Result<Reading, Fail> {
    let history = history_of(heap, plan)?;
    let rules = drawn_rules(heap, named, plan.items)?;
    Ok(Reading { history, rules })
}

// Of a hub of drawn rules, the run of drawn events and what the history says.
fn ran_by(heap: &Heap, hub: Hub, named: Named, plan: Plan) -> Result<Ran, Fail> {
    let mut hub = hub;
    let run = run_of(heap, &mut hub, drawn(heap, plan)?)?;
    ran_of(heap, hub, run, named, plan)
}

fn ran_of(heap: &Heap, hub: Hub, run: Run, named: Named, plan: Plan) -> Result<Ran, Fail> {
    let reading = reading_of(heap, named, plan)?;
    Ok(Ran { reading, run, hub })
}

/// The run of drawn events by a new hub of this kind.
pub(crate) fn run_drawn(heap: &Heap, named: Named, plan: Plan) -> Result<Ran, Fail> {
    let hub = hub_of(heap, drawn_rules(heap, named, plan.items)?)?;
    ran_by(heap, hub, named, plan)
}

/// How many observers joined, where each was told the number after the one before.
pub(crate) fn joined(steps: &[Step]) -> Option<u32> {
    let mut joined: u32 = 0;
    for step in steps {
        match step.result {
            Ok(Answer::Joined(who)) if who == joined => joined = joined.saturating_add(1),
            Ok(Answer::Joined(_)) => return None,
            _ => {}
        }
    }
    Some(joined)
}

// Whether what a run gave to an observer are these notes.
fn are_given(outs: &[Given], who: u32, notes: &[Note]) -> bool {
    let mut notes = notes.iter();
    for given in outs {
        if given.who == who && notes.next() != Some(&given.note) {
            return false;
        }
    }
    notes.next().is_none()
}

impl Reading {
    // Whether these were given to an observer.
    fn gave(&self, outs: &[Given], who: u32) -> Result<bool, Fail> {
        let given = self.history.given(&self.rules, who)?;
        Ok(are_given(outs, who, given.as_slice()))
    }

    // How many notes wait for an observer.
    fn waiting_len(&self, who: u32) -> Result<usize, Fail> {
        Ok(self.history.waiting(&self.rules, who)?.len())
    }
}

impl Ran {
    // Whether an observer was given what the history says.
    fn gave(&self, who: u32) -> Result<bool, Fail> {
        self.reading.gave(self.run.outs.as_slice(), who)
    }

    // Whether as many notes wait for an observer as the history says.
    fn holds(&self, who: u32) -> Result<bool, Fail> {
        let waiting = self.reading.waiting_len(who)?;
        match self.hub.waiting_of(who) {
            Ok(count) => Ok(count == waiting),
            Err(NoObserver) => Ok(waiting == 0),
        }
    }

    // The first observer for whom the run and the history differ.
    pub(crate) fn differs(&self) -> Result<Option<u32>, Fail> {
        for who in 0..joined(self.run.steps.as_slice()).unwrap_or(0) {
            if !self.gave(who)? || !self.holds(who)? {
                return Ok(Some(who));
            }
        }
        Ok(None)
    }
}
