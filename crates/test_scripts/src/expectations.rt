//! What several tests look for, each in a call that is proved once: a test that fails says what was told and what was
//! wanted, with the words that name its row.

use rx_session::SessionEnd;
use std::fmt::Display;
use std::process::Abort;

/// How a script or an audit ended, and what was written for it.
pub(crate) struct Ran {
    pub(crate) end: SessionEnd,
    pub(crate) written: Vec<u8>,
}

// By hand: rx_heap says why.
impl Drop for Ran {
    fn drop(self) {
        let Ran { end: _, written: _ } = self;
    }
}

/// This is how a run ended, and what was written for it.
pub(crate) fn expect_ran(
    rt: &impl Abort,
    ran: &Ran,
    end: SessionEnd,
    written: &[u8],
    row: &impl Display,
) {
    expect_end(rt, ran.end, end, row);
    expect_told(rt, ran.written.as_slice(), written, row);
}

/// This is how it ended.
pub(crate) fn expect_end(rt: &impl Abort, end: SessionEnd, wanted: SessionEnd, row: &impl Display) {
    assert_eq!(rt; end, wanted, "{row}");
}

/// These bytes are told.
pub(crate) fn expect_told(rt: &impl Abort, told: &[u8], wanted: &[u8], row: &impl Display) {
    assert_eq!(rt; told, wanted, "{row}");
}

/// This is so.
pub(crate) fn expect_that(rt: &impl Abort, is_so: bool, row: &impl Display) {
    assert!(rt; is_so, "{row}");
}
