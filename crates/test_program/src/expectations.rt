//! What the tests look for, each in a call that is proved once: a test that fails says what was told and what was wanted, with the
//! words that name its row.

use std::process::Abort;

/// These signs are told.
pub(crate) fn expect_told(rt: &impl Abort, told: &[u8], wanted: &str, row: &str) {
    assert_eq!(rt; told, wanted.as_bytes(), "{row}, wanted {wanted}");
}

/// This is so.
pub(crate) fn expect_that(rt: &impl Abort, is_so: bool, row: &str) {
    assert!(rt; is_so, "{row}");
}
