//! What the faults of threads say to a person.
use crate::expectations::expect_text;
use rx_drain::{DrainFault, NoThread};
use rx_pump::{CallError, PumpFault};
use rx_sink::SinkFault;
use std::alloc::Global;
use std::process::Abort;
use std::test::Fail;

fn expect_pump_texts(rt: &impl Abort, alloc: Global) -> Result<(), Fail> {
    for (fault, text) in &[
        (PumpFault::InboxGone, "no letter will come any more"),
        (PumpFault::DrainerGone(3), "drainer 3 is gone"),
        (PumpFault::CallerGone(12), "caller 12 is gone"),
    ] {
        expect_text(rt, alloc, fault, text)?;
    }
    Ok(())
}

#[test]
fn texts_of_a_pumps_faults(rt: HostRuntime) -> Result<(), Fail> {
    expect_pump_texts(&rt, rt.alloc())
}

fn expect_call_texts(rt: &impl Abort, alloc: Global) -> Result<(), Fail> {
    let gone: CallError<u8> = CallError::SubjectGone { sink: None };
    expect_text(rt, alloc, &gone, "the subject is gone")?;
    let strange: CallError<u8> = CallError::Strange { sink: Some(7) };
    expect_text(rt, alloc, &strange, "what came is no reply to this call")
}

#[test]
fn texts_of_a_calls_errors(rt: HostRuntime) -> Result<(), Fail> {
    expect_call_texts(&rt, rt.alloc())
}

fn expect_drainer_texts(rt: &impl Abort, alloc: Global) -> Result<(), Fail> {
    for (fault, text) in &[
        (DrainFault::InboxGone, "no letter will come any more"),
        (DrainFault::SubjectGone(5), "subject 5 is gone"),
    ] {
        expect_text(rt, alloc, fault, text)?;
    }
    expect_text(rt, alloc, &NoThread, "there is no thread for a drainer")?;
    expect_text(rt, alloc, &SinkFault, "the sink takes no more notes")
}

#[test]
fn texts_of_a_drainers_faults(rt: HostRuntime) -> Result<(), Fail> {
    expect_drainer_texts(&rt, rt.alloc())
}
