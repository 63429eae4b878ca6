//! Tests of all that threads do below a server: a budget and boxes between threads, pumps with their callers, and drainers with
//! their sinks.
//!
//! There is no code here but tests, and nothing stands on it. It stands above all that it tests, so that none of those
//! crates is proved a second time for tests of its own.
#![tactic(auto)]

#[cfg(test)]
mod boxes;
#[cfg(test)]
mod counted_items;
#[cfg(test)]
mod credits;
#[cfg(test)]
mod desks;
#[cfg(test)]
mod drainers;
#[cfg(test)]
mod expectations;
#[cfg(test)]
mod forgotten_observers;
#[cfg(test)]
mod held_letters;
#[cfg(test)]
mod letters;
#[cfg(test)]
mod line_sinks;
#[cfg(test)]
mod looks;
#[cfg(test)]
mod mixed_replies;
#[cfg(test)]
mod pumps;
#[cfg(test)]
mod shared_budget;
#[cfg(test)]
mod stopped;
#[cfg(test)]
mod texts;
#[cfg(test)]
mod two_threads;
#[cfg(test)]
mod unserved;
#[cfg(test)]
mod wakes;
