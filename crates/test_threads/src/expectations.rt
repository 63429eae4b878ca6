//! What several tests look for, each in a call that is proved once: a test that fails says what was told and what was
//! wanted, with the words that name its row.

use rx_note::{Answer, Refusal};
use std::alloc::Global;
use std::fmt::Display;
use std::process::Abort;
use std::test::Fail;

/// These signs are told.
pub(crate) fn expect_told(rt: &impl Abort, told: &[u8], wanted: &str, row: &str) {
    assert_eq!(rt; told, wanted.as_bytes(), "{row}, wanted {wanted}");
}

/// These words say what is wrong: none where nothing is.
pub(crate) fn expect_words(rt: &impl Abort, words: &str, wanted: &str, row: &str) {
    assert_eq!(rt; words, wanted, "{row}");
}

/// This number is counted.
pub(crate) fn expect_count(rt: &impl Abort, count: u64, wanted: u64, row: &str) {
    assert_eq!(rt; count, wanted, "{row}");
}

/// This is so.
pub(crate) fn expect_that(rt: &impl Abort, is_so: bool, row: &str) {
    assert!(rt; is_so, "{row}");
}

/// This is what was answered.
pub(crate) fn expect_answer(
    rt: &impl Abort,
    answered: Result<Answer, Refusal>,
    wanted: Result<Answer, Refusal>,
) {
    assert_eq!(rt; answered, wanted);
}

/// This is what is said to a person.
pub(crate) fn expect_text(
    rt: &impl Abort,
    alloc: Global,
    said: &impl Display,
    text: &str,
) -> Result<(), Fail> {
    let words = format!(in alloc; "{said}")?;
    expect_words(rt, words.as_str(), text, "what is said");
    Ok(())
}
