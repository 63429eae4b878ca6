//! Stored histories. In a script `+` joins an observer, a digit requests so many items for observer 0, `-` has it leave, and
//! any other sign emits its note.
//!
//! Told is the number of events and, of observer 0 and then of observer 1, its line, what it was given and what waits for
//! it, each with a space before it; `N` stands where there is no observer, `M` for want of memory.

ghost use Rattle.std.specs.Prelude.{◌≤◌};

use crate::expectations::expect_told;
use crate::heaps::unlimited;
use rx_heap::{Heap, Memory};
use rx_history::{History, LineError};
use rx_note::{Errors, Note, Policy, Rules, Strategy};
use std::test::Fail;
use test_kit::{Named, Told, event_of, kind_of, policy_by, rules_of};

fn history_of(heap: &Heap, policy: Policy, first: u32, script: &[u8]) -> Result<History, Memory> {
    let mut history = History::new(heap.clone()?);
    for sign in script {
        history.add(0, event_of(heap, policy, first, *sign)?)?;
    }
    Ok(history)
}

fn put(told: &mut Told, notes: &Result<Vec<Note, Heap>, LineError>) {
    told.put(b' ');
    match notes {
        Ok(notes) => told.put_notes(notes.as_slice()),
        Err(LineError::NoObserver) => told.put(b'N'),
        Err(LineError::Memory) => told.put(b'M'),
    }
}

fn put_observer(told: &mut Told, history: &History, rules: &Rules, who: u32)
    requires { rules.now.limits.observers ≤ 64 }
{
    put(told, &history.line(rules, who));
    put(told, &history.given(rules, who));
    put(told, &history.waiting(rules, who));
}

fn told_by(history: &History, rules: &Rules) -> Told
    requires { rules.now.limits.observers ≤ 64 }
{
    let mut told = Told::new();
    told.put_digit(history.len());
    put_observer(&mut told, history, rules, 0);
    put_observer(&mut told, history, rules, 1);
    told
}

fn told_of(
    heap: &Heap,
    named: Named,
    policy: Policy,
    first: u32,
    script: &[u8],
) -> Result<Told, Memory> {
    let rules = rules_of(kind_of(heap, named)?);
    let history = history_of(heap, policy, first, script)?;
    Ok(told_by(&history, &rules))
}

// A row: its name, the kind, the strategy, the error mode and the first request of the joins, the script, and what is told.
type Row = (
    &'static str,
    Named,
    Strategy,
    Errors,
    u32,
    &'static str,
    &'static str,
);

const ROWS: &[Row] = &[
    (
        "line_of_a_waiting_end",
        Named::Publish,
        Strategy::Buffer,
        Errors::Delay,
        1,
        "+ab.",
        "4 ab. a b. N N N",
    ),
    (
        "audit_of_latest",
        Named::Publish,
        Strategy::Latest(2),
        Errors::Delay,
        1,
        "+abcd",
        "5 acd a cd N N N",
    ),
    (
        "drop_two",
        Named::Publish,
        Strategy::Drop(2),
        Errors::Delay,
        0,
        "+abcde",
        "6 ab  ab N N N",
    ),
    (
        "drop_two",
        Named::Publish,
        Strategy::Drop(2),
        Errors::Delay,
        0,
        "+abcde9",
        "7 ab ab  N N N",
    ),
    (
        "drop_zero_honours_demand",
        Named::Publish,
        Strategy::Drop(0),
        Errors::Delay,
        0,
        "+a1b",
        "4 b b  N N N",
    ),
    (
        "replay_count_into_drop",
        Named::Replay(Some(2), None),
        Strategy::Drop(1),
        Errors::Delay,
        0,
        "abc+2",
        "5 b b  N N N",
    ),
    (
        "async_after_completion",
        Named::Async,
        Strategy::Buffer,
        Errors::Delay,
        0,
        "+ab.+1",
        "6 b. b.  b.  b.",
    ),
    (
        "error_ahead",
        Named::Publish,
        Strategy::Buffer,
        Errors::Ahead,
        1,
        "+abc!3",
        "6 a! a!  N N N",
    ),
    (
        "completion_waits_by_ahead",
        Named::Publish,
        Strategy::Buffer,
        Errors::Ahead,
        1,
        "+abc.",
        "5 abc. a bc. N N N",
    ),
    (
        "replay_of_a_failed_subject",
        Named::Replay(None, None),
        Strategy::Buffer,
        Errors::Ahead,
        0,
        "a!+",
        "3 ! !  N N N",
    ),
    (
        "line_of_one_that_left",
        Named::Publish,
        Strategy::Buffer,
        Errors::Delay,
        1,
        "+ab-c.+2",
        "8 a a  . . ",
    ),
    (
        "left_with_the_end_waiting",
        Named::Publish,
        Strategy::Latest(1),
        Errors::Delay,
        1,
        "+abc.-",
        "6 a a  N N N",
    ),
    (
        "overflow_delayed",
        Named::Publish,
        Strategy::Bounded(1),
        Errors::Delay,
        1,
        "+abcd",
        "5 ab% a b% N N N",
    ),
    (
        "overflow_delayed",
        Named::Publish,
        Strategy::Bounded(1),
        Errors::Delay,
        1,
        "+abcd1.",
        "7 ab% ab%  N N N",
    ),
    (
        "overflow_ahead",
        Named::Publish,
        Strategy::Bounded(1),
        Errors::Ahead,
        1,
        "+abc1",
        "5 a% a%  N N N",
    ),
    (
        "overflow_room_zero",
        Named::Publish,
        Strategy::Bounded(0),
        Errors::Delay,
        0,
        "+ab+c",
        "5 % %  % % ",
    ),
    (
        "overflow_in_the_opening",
        Named::Replay(None, None),
        Strategy::Bounded(1),
        Errors::Delay,
        0,
        "ab+2",
        "4 a% a%  N N N",
    ),
    (
        "no_overflow_where_the_end_comes_first",
        Named::Publish,
        Strategy::Bounded(2),
        Errors::Ahead,
        0,
        "+ab.c+",
        "6 ab.  ab. . . ",
    ),
];

// Hands the table out, so that what goes over it is proved without its rows.
fn rows() -> &'static [Row] {
    ROWS
}

#[test]
fn histories_of_one_observer(rt: HostRuntime) -> Result<(), Fail> {
    for (name, named, strategy, errors, first, script, wanted) in rows() {
        let policy = policy_by(*strategy, *errors)?;
        let told = told_of(&unlimited(&rt), *named, policy, *first, script.as_bytes())?;
        expect_told(&rt, told.as_bytes(), wanted, name);
    }
    Ok(())
}
