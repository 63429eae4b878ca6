//! What the errors of the core and of the lines say to a person.

use crate::expectations::expect_words;
use rx_heap::Memory;
use rx_history::LineError as HistoryError;
use rx_hub::{HubError, NoObserver};
use rx_lane::AskError;
use rx_note::{BadRoom, KindError, Refusal, TextError};
use rx_proto::{BadLine, LineError, WriteFault};
use rx_subject::AdmitError;
use std::alloc::Global;
use std::fmt::Display;
use std::process::Abort;
use std::test::Fail;

fn expect_texts<E: Display>(
    rt: &impl Abort,
    alloc: Global,
    rows: &[(E, &str)],
) -> Result<(), Fail> {
    for (error, text) in rows {
        let words = format!(in alloc; "{error}")?;
        expect_words(rt, words.as_str(), text, "what is said");
    }
    Ok(())
}

#[test]
fn texts_of_limits(rt: HostRuntime) -> Result<(), Fail> {
    let alloc = rt.alloc();
    let texts = [
        (TextError::TooLong, "a text has at most 1024 bytes"),
        (TextError::HasLf, "a text has no line feed"),
        (TextError::Memory, "out of memory"),
    ];
    expect_texts(&rt, alloc, &texts)?;
    let room = "a room has 0 to 1024 items, under Latest 1 to 1024";
    expect_texts(&rt, alloc, &[(BadRoom, room)])?;
    let kinds = [
        (KindError::BadCount, "a count is 1 to 4096"),
        (KindError::BadAge, "an age is at least 1 millisecond"),
    ];
    expect_texts(&rt, alloc, &kinds)?;
    let limits = "limits are 1 to 64 observers, and 1 to 4294967295 joins and items";
    let hubs = [
        (HubError::BadLimits, limits),
        (HubError::Memory, "out of memory"),
    ];
    expect_texts(&rt, alloc, &hubs)?;
    expect_texts(&rt, alloc, &[(Memory, "out of memory")])
}

#[test]
fn texts_of_refused_events(rt: HostRuntime) -> Result<(), Fail> {
    let alloc = rt.alloc();
    let most = "more than 4294967295 items would be owed";
    let refusals = [
        (Refusal::Ended, "the subject has ended"),
        (Refusal::Full, "as many observers are held as may be"),
        (
            Refusal::Spent,
            "as many joins or items were accepted as may be",
        ),
        (Refusal::ZeroRequest, "a request is for at least 1 item"),
        (Refusal::NoObserver, "no observer of that number is held"),
        (Refusal::TooMuch, most),
        (Refusal::Memory, "out of memory"),
    ];
    expect_texts(&rt, alloc, &refusals)?;
    let requests = [
        (AskError::ZeroRequest, "a request is for at least 1 item"),
        (AskError::TooMuch, most),
        (AskError::Memory, "out of memory"),
    ];
    expect_texts(&rt, alloc, &requests)?;
    let notes = [
        (AdmitError::Ended, "the subject has ended"),
        (AdmitError::Memory, "out of memory"),
    ];
    expect_texts(&rt, alloc, &notes)?;
    let held = "no observer of that number is held";
    expect_texts(&rt, alloc, &[(NoObserver, held)])?;
    let joined = "no accepted join made an observer of that number";
    let histories = [
        (HistoryError::NoObserver, joined),
        (HistoryError::Memory, "out of memory"),
    ];
    expect_texts(&rt, alloc, &histories)
}

#[test]
fn texts_of_lines(rt: HostRuntime) -> Result<(), Fail> {
    let alloc = rt.alloc();
    let long = "a line has at most 1100 bytes, its text 1024";
    let syntax = "it is none of the lines that are read";
    let read = [
        (LineError::Long, long),
        (LineError::Syntax, syntax),
        (LineError::Memory, "out of memory"),
    ];
    expect_texts(&rt, alloc, &read)?;
    expect_texts(
        &rt,
        alloc,
        &[(BadLine::Long, long), (BadLine::Syntax, syntax)],
    )?;
    let written = "the writer did not take all";
    expect_texts(&rt, alloc, &[(WriteFault, written)])
}
