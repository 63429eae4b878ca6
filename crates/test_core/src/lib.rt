//! Tests of the core by its public calls: worked runs, told as tables of scripts, drawn runs of a hub held against the stored
//! history of the same events, runs with each growth refused in its turn, the line protocol, sessions over memory, budgets,
//! and tapes with what stands on them. Nothing here waits or starts a thread.
//!
//! There is no code here but tests, and nothing stands on it. It stands above all that it tests, so that none of those
//! crates is proved a second time for tests of its own.
#![tactic(auto)]

#[cfg(test)]
mod ample;
#[cfg(test)]
mod backlogs;
#[cfg(test)]
mod budgets;
#[cfg(test)]
mod clerk;
#[cfg(test)]
mod drawn_runs;
#[cfg(test)]
mod draws;
#[cfg(test)]
mod drips;
#[cfg(test)]
mod expectations;
#[cfg(test)]
mod giving_back;
#[cfg(test)]
mod heaps;
#[cfg(test)]
mod histories;
#[cfg(test)]
mod hubs;
#[cfg(test)]
mod in_turn;
#[cfg(test)]
mod lanes;
#[cfg(test)]
mod marbles;
#[cfg(test)]
mod open_sessions;
#[cfg(test)]
mod protocol;
#[cfg(test)]
mod refusals;
#[cfg(test)]
mod scribe;
#[cfg(test)]
mod sessions;
#[cfg(test)]
mod sheet;
#[cfg(test)]
mod sizes;
#[cfg(test)]
mod subjects;
#[cfg(test)]
mod tape_lanes;
#[cfg(test)]
mod tape_subjects;
#[cfg(test)]
mod tapes;
#[cfg(test)]
mod texts;
