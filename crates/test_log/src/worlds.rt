//! Drawn worlds, each held against the plain reading of its list.

use crate::world::outcome_of;
use std::test::Fail;

// Which worlds are drawn: so many, from this one on. Other numbers here draw others.
const FIRST: u64 = 0;

const COUNT: u64 = 2_000;

#[test]
fn drawn_worlds(rt: HostRuntime) -> Result<(), Fail> {
    let mut entries: u64 = 0;
    let mut counted: u64 = 0;
    let mut emitted: u64 = 0;
    let mut answered: u64 = 0;
    let mut runs: u64 = 0;
    for i in 0..COUNT {
        let seed = FIRST.saturating_add(i);
        let outcome = outcome_of(rt.alloc(), seed)?;
        assert_eq!(rt; outcome.fault, "", "world {seed}");
        entries = entries.saturating_add(outcome.entries);
        counted = counted.saturating_add(outcome.counted);
        emitted = emitted.saturating_add(outcome.emitted);
        answered = answered.saturating_add(outcome.answered);
        runs = runs.saturating_add(outcome.runs);
    }
    println!(rt;
        "{entries} entries, {counted} count, {emitted} emitted, {answered} answered, {runs} runs"
    )?;
    Ok(())
}
