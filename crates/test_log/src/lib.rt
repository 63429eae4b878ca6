//! Tests of the log that machines share, by its public calls: the traps of a log as rows, a machine's part as scripts, drawn
//! worlds held against a plain reading of the whole list, and scripts with each growth refused in its turn.
//!
//! There is no code here but tests, and nothing stands on it. It stands above `rx_log`, so that this is proved once.
#![tactic(auto)]

#[cfg(test)]
mod dice;
#[cfg(test)]
mod expectations;
#[cfg(test)]
mod machines;
#[cfg(test)]
mod memory;
#[cfg(test)]
mod plain;
#[cfg(test)]
mod runner;
#[cfg(test)]
mod traps;
#[cfg(test)]
mod world;
#[cfg(test)]
mod worlds;
