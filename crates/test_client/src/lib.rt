//! Tests of the callers of a server inside a program: what each call tells, what their sinks took, and what a close tells of
//! callers that did not come back.
//!
//! There is no code here but tests, and nothing stands on it. It stands above `rx_caller`, so that that is proved once. What a
//! client of the server shows over sockets, cut and killed, is tested by `tests/commands`.
#![tactic(auto)]

#[cfg(test)]
mod callers;
