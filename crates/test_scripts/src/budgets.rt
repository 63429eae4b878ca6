//! Scripts over subjects with budgets: how much waits and is kept there, and what is answered beyond.

use crate::expectations::{expect_that, expect_told};
use rx_config::read_config;
use rx_heap::{Heap, Memory};
use rx_script::run_script;
use std::alloc::Global;
use std::test::Fail;

const MAX_READS: u64 = 4_294_967_296;

// A subject with a budget, and one without.
const TWO: &[u8] =
    b"[[subject]]\nname = \"s\"\nkind = \"publish\"\nobservers = 2\nbudget = 64000\n[[subject]]\nname = \"t\"\nkind = \"publish\"\n";

// A Replay that keeps all it may.
const KEEPING: &[u8] =
    b"[[subject]]\nname = \"s\"\nkind = \"replay\"\nobservers = 2\nbudget = 64000\n";

// How many items are emitted, and the letters of each: more than the budget holds.
const ITEMS: usize = 100;

const LETTERS: usize = 1_000;

// Puts lines or notes with the text of an item behind a front.
fn put_items(lines: &mut Vec<u8>, front: &[u8], times: usize) -> Result<(), Memory> {
    for _ in 0..times {
        lines.extend_from_slice(front)?;
        for _ in 0..LETTERS {
            lines.push(b'x')?;
        }
        lines.push(b'\n')?;
    }
    Ok(())
}

fn put_times(lines: &mut Vec<u8>, line: &[u8], times: usize) -> Result<(), Memory> {
    for _ in 0..times {
        lines.extend_from_slice(line)?;
    }
    Ok(())
}

// What is written for a script over a configuration.
fn written_for(alloc: Global, config: &[u8], script: &[u8]) -> Result<Vec<u8>, Fail> {
    let heap = Heap::unlimited(alloc);
    let Ok(config) = read_config(heap.clone()?, alloc, config) else {
        return Err(Fail::from(Memory));
    };
    let mut reader = script;
    let mut written = Vec::new(alloc);
    run_script(heap, config, &mut reader, &mut written, MAX_READS)?;
    Ok(written)
}

// How many lines are answered ERR MEMORY. No other has a Y.
fn refused_in(written: &[u8]) -> usize {
    let mut refused = 0_usize;
    for byte in written {
        if *byte == b'Y' {
            refused = refused.saturating_add(1);
        }
    }
    refused
}

// How many of so many items were admitted.
fn admitted_in(written: &[u8]) -> usize {
    ITEMS.saturating_sub(refused_in(written))
}

// Items wait for an observer that does not ask, until no more are taken; then it asks for them all.
fn script_of_waiting(alloc: Global) -> Result<Vec<u8>, Memory> {
    let mut script = Vec::new(alloc);
    put_times(&mut script, b"JOIN s BUFFER DELAY 0\n", 1)?;
    put_items(&mut script, b"PUB s ", ITEMS)?;
    put_items(&mut script, b"PUB t ", 1)?;
    put_times(&mut script, b"REQUEST s 0 1000\n", 1)?;
    put_items(&mut script, b"PUB s ", 1)?;
    put_times(&mut script, b"END s\n", 1)?;
    Ok(script)
}

// What is written for it where so many were taken.
fn answers_of_waiting(alloc: Global, admitted: usize) -> Result<Vec<u8>, Memory> {
    let mut answers = Vec::new(alloc);
    put_times(&mut answers, b"OK 0\n", 1)?;
    put_times(&mut answers, b"OK\n", admitted)?;
    put_times(
        &mut answers,
        b"ERR MEMORY\n",
        ITEMS.saturating_sub(admitted),
    )?;
    put_times(&mut answers, b"OK\nOK\n", 1)?;
    put_items(&mut answers, b"s 0 NEXT ", admitted)?;
    put_times(&mut answers, b"OK\n", 1)?;
    put_items(&mut answers, b"s 0 NEXT ", 1)?;
    put_times(&mut answers, b"OK\ns 0 DONE\n", 1)?;
    Ok(answers)
}

#[test]
fn what_waits_is_within_the_budget(rt: HostRuntime) -> Result<(), Fail> {
    let script = script_of_waiting(rt.alloc())?;
    let written = written_for(rt.alloc(), TWO, script.as_slice())?;
    let admitted = admitted_in(written.as_slice());
    expect_that(&rt, (1..64).contains(&admitted), &admitted);
    let wanted = answers_of_waiting(rt.alloc(), admitted)?;
    expect_told(&rt, written.as_slice(), wanted.as_slice(), &"what waits");
    Ok(())
}

// Items of a Replay, more than it may keep, and its end; then one joins that asks for all.
fn script_of_keeping(alloc: Global) -> Result<Vec<u8>, Memory> {
    let mut script = Vec::new(alloc);
    put_items(&mut script, b"PUB s ", ITEMS)?;
    put_times(&mut script, b"END s\nJOIN s BUFFER DELAY 1000\n", 1)?;
    Ok(script)
}

// What is written for it where so many were taken.
fn answers_of_keeping(alloc: Global, admitted: usize) -> Result<Vec<u8>, Memory> {
    let mut answers = Vec::new(alloc);
    put_times(&mut answers, b"OK\n", admitted)?;
    put_times(
        &mut answers,
        b"ERR MEMORY\n",
        ITEMS.saturating_sub(admitted),
    )?;
    put_times(&mut answers, b"OK\nOK 0\n", 1)?;
    put_items(&mut answers, b"s 0 NEXT ", admitted)?;
    put_times(&mut answers, b"s 0 DONE\n", 1)?;
    Ok(answers)
}

#[test]
fn what_is_kept_is_within_the_budget(rt: HostRuntime) -> Result<(), Fail> {
    let script = script_of_keeping(rt.alloc())?;
    let written = written_for(rt.alloc(), KEEPING, script.as_slice())?;
    let admitted = admitted_in(written.as_slice());
    expect_that(&rt, (1..64).contains(&admitted), &admitted);
    let wanted = answers_of_keeping(rt.alloc(), admitted)?;
    expect_told(&rt, written.as_slice(), wanted.as_slice(), &"what is kept");
    Ok(())
}

// Items that wait at `s`; before each of them one of `t` is given and let go, if there is such.
fn script_beside(alloc: Global, others: usize) -> Result<Vec<u8>, Memory> {
    let mut script = Vec::new(alloc);
    put_times(
        &mut script,
        b"JOIN s BUFFER DELAY 0\nJOIN t BUFFER DELAY 1000\n",
        1,
    )?;
    for _ in 0..ITEMS {
        put_items(&mut script, b"PUB t ", others)?;
        put_items(&mut script, b"PUB s ", 1)?;
    }
    Ok(script)
}

// A text that another subject let go serves none with a budget: as many items wait beside it as without.
#[test]
fn each_text_is_of_its_own_subject(rt: HostRuntime) -> Result<(), Fail> {
    let alone = script_beside(rt.alloc(), 0)?;
    let beside = script_beside(rt.alloc(), 1)?;
    let refused_alone = refused_in(written_for(rt.alloc(), TWO, alone.as_slice())?.as_slice());
    let refused_beside = refused_in(written_for(rt.alloc(), TWO, beside.as_slice())?.as_slice());
    expect_that(&rt, refused_alone > 0, &"some are refused");
    expect_that(&rt, refused_beside == refused_alone, &refused_beside);
    Ok(())
}

// Two subjects with budgets of their own, the first of which is the larger.
const BOTH: &[u8] =
    b"[[subject]]\nname = \"s\"\nkind = \"publish\"\nobservers = 2\nbudget = 64000\n[[subject]]\nname = \"t\"\nkind = \"publish\"\nobservers = 2\nbudget = 32000\n";

// How many items are refused that wait at the one subject, at the other, or at both.
fn refused_at(alloc: Global, at_first: usize, at_second: usize) -> Result<usize, Fail> {
    let mut script = Vec::new(alloc);
    put_times(
        &mut script,
        b"JOIN s BUFFER DELAY 0\nJOIN t BUFFER DELAY 0\n",
        1,
    )?;
    put_items(&mut script, b"PUB s ", at_first)?;
    put_items(&mut script, b"PUB t ", at_second)?;
    Ok(refused_in(written_for(alloc, BOTH, script.as_slice())?.as_slice()))
}

// Each subject has its own budget: beside one that is full the other takes as many items as alone, and each as many as it says.
#[test]
fn each_budget_is_of_its_own_subject(rt: HostRuntime) -> Result<(), Fail> {
    let first = refused_at(rt.alloc(), ITEMS, 0)?;
    let second = refused_at(rt.alloc(), 0, ITEMS)?;
    let both = refused_at(rt.alloc(), ITEMS, ITEMS)?;
    expect_that(&rt, 0 < first && first < second, &"the larger budget");
    expect_that(&rt, second < ITEMS, &"the smaller budget");
    expect_that(&rt, both == first.saturating_add(second), &both);
    Ok(())
}

// A budget that does not hold the hub itself.
const TINY: &[u8] = b"[[subject]]\nname = \"s\"\nkind = \"publish\"\nbudget = 1\n";

#[test]
fn no_script_without_memory_for_its_hubs(rt: HostRuntime) -> Result<(), Fail> {
    let heap = Heap::unlimited(rt.alloc());
    let mut reader = b"PUB s a\n".as_slice();
    let mut written = Vec::new(rt.alloc());
    match read_config(heap.clone()?, rt.alloc(), TINY) {
        Ok(config) => {
            let ran = run_script(heap, config, &mut reader, &mut written, MAX_READS);
            expect_that(&rt, ran.is_err(), &"no memory for the hub");
        }
        Err(_) => expect_that(&rt, false, &"a configuration"),
    }
    expect_told(&rt, written.as_slice(), b"", &"nothing is written");
    Ok(())
}
