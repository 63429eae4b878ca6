//! Tests of scripts, audits and configurations: worked runs, told as tables of scripts and what is written for them, readers
//! and writers that fail midway, runs with each growth refused in its turn, what a configuration
//! says and how it is told.
//!
//! There is no code here but tests, and nothing stands on it. It stands above all that it tests, so that none of those
//! crates is proved a second time for tests of its own.
#![tactic(auto)]

#[cfg(test)]
mod audits;
#[cfg(test)]
mod budgets;
#[cfg(test)]
mod configurations;
#[cfg(test)]
mod expectations;
#[cfg(test)]
mod key_edges;
#[cfg(test)]
mod kinds;
#[cfg(test)]
mod listings;
#[cfg(test)]
mod readings;
#[cfg(test)]
mod refusals;
#[cfg(test)]
mod rows;
