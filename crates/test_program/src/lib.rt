//! Tests of the program by its one call, of what it logs, and of what it writes of an answer, over readers, writers and moments that no
//! run of the built program has. What it
//! shows by its words and over sockets is tested by `tests/program`.
//!
//! There is no code here but tests, and nothing stands on it. It stands apart from `test_edge` since what a crate's tests stand on
//! is laid out together, and all of the program beside all of the servers is more than a check has memory for.
#![tactic(auto)]

#[cfg(test)]
mod expectations;
#[cfg(test)]
mod flushes;
#[cfg(test)]
mod looks;
#[cfg(test)]
mod notices;
#[cfg(test)]
mod texts;
