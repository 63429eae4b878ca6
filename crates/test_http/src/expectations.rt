//! What several tests look for, each in a call that is proved once: a test that fails says what was told and what was
//! wanted, with the number of its row, and behind it by how many bytes it was read.

use rx_session::SessionEnd;
use rx_sink::Flow;
use std::process::Abort;

/// These bytes are told.
pub(crate) fn expect_told(rt: &impl Abort, told: &[u8], wanted: &[u8], row: usize) {
    assert_eq!(rt; told, wanted, "row {row}");
}

/// This is so.
pub(crate) fn expect_that(rt: &impl Abort, is_so: bool, row: &str) {
    assert!(rt; is_so, "{row}");
}

/// This is so of the row of that number.
pub(crate) fn expect_row(rt: &impl Abort, is_so: bool, row: usize) {
    assert!(rt; is_so, "row {row}");
}

/// This number is counted.
pub(crate) fn expect_count(rt: &impl Abort, count: u64, wanted: u64, row: &str) {
    assert_eq!(rt; count, wanted, "{row}");
}

/// These words say what is wrong: none where nothing is.
pub(crate) fn expect_words(rt: &impl Abort, words: &str, row: usize, step: usize) {
    assert_eq!(rt; words, "", "row {row} by {step}");
}

/// This is how it ended.
pub(crate) fn expect_end(
    rt: &impl Abort,
    end: SessionEnd,
    wanted: SessionEnd,
    row: usize,
    step: usize,
) {
    assert_eq!(rt; end, wanted, "row {row} by {step}");
}

/// This is how a sink stands.
pub(crate) fn expect_flow(rt: &impl Abort, flow: Flow, wanted: Flow, call: usize) {
    assert_eq!(rt; flow, wanted, "call {call}");
}
