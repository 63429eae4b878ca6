//! Tests of the edge by its calls: servers with their desks, workers over connections in memory, and what faults say. What the
//! built program shows by its words and over sockets is tested by `tests/program`.
//!
//! There is no code here but tests, and nothing stands on it. It stands above all that it tests, so that none of those
//! crates is proved a second time for tests of its own.
#![tactic(auto)]

#[cfg(test)]
mod callers;
#[cfg(test)]
mod crews;
#[cfg(test)]
mod expectations;
#[cfg(test)]
mod going_on;
#[cfg(test)]
mod order;
#[cfg(test)]
mod servers;
#[cfg(test)]
mod session_desks;
#[cfg(test)]
mod starts;
#[cfg(test)]
mod texts;
#[cfg(test)]
mod three_desks;
#[cfg(test)]
mod turns;
