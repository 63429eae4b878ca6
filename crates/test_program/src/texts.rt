//! What the faults of the program say to a person, and the line that is told of each.

use crate::expectations::expect_told;
use rx_program::{ProgramFault, tell};
use rx_server::{CloseCause, CloseFault, ConfigError, Role, StartCause, StartFault};
use std::alloc::Global;
use std::process::Abort;
use std::test::Fail;

// A worker that has no thread.
const NO_WORKER: StartFault = StartFault {
    thread: Role::Worker,
    index: 3,
    cause: StartCause::NoThread,
};

// A drainer that ended by a fault.
const NO_DRAINER: CloseFault = CloseFault {
    thread: Role::Drainer,
    index: 1,
    cause: CloseCause::Ended,
};

// What is told of a fault, and the line of it.
fn expect_line(
    rt: &impl Abort,
    alloc: Global,
    fault: ProgramFault,
    text: &str,
) -> Result<(), Fail> {
    let words = format!(in alloc; "{fault}")?;
    expect_told(rt, words.as_bytes(), text, "its words");
    let mut told = Vec::new(alloc);
    tell(fault, &mut told)?;
    let line = format!(in alloc; "rxline: {text}\n")?;
    expect_told(rt, told.as_slice(), line.as_str(), text);
    Ok(())
}

#[test]
fn texts_of_the_programs_faults(rt: HostRuntime) -> Result<(), Fail> {
    let alloc = rt.alloc();
    for (fault, text) in &[
        (ProgramFault::NoConfig, "cannot read config"),
        (
            ProgramFault::Config(ConfigError::NoSubject),
            "config: no subject",
        ),
        (
            ProgramFault::Config(ConfigError::BadSubject(usize::MAX)),
            "config: subject 18446744073709551615 is refused",
        ),
        (ProgramFault::Read, "read fault"),
        (ProgramFault::Write, "write fault"),
        (ProgramFault::TooManyReads, "too many reads"),
        (ProgramFault::Memory, "out of memory"),
        (ProgramFault::Listen, "cannot listen"),
        (ProgramFault::Start(NO_WORKER), "cannot start worker 3"),
        (ProgramFault::Accept, "accept fault"),
        (ProgramFault::Serve, "serve fault"),
        (ProgramFault::Close(NO_DRAINER), "close fault: drainer 1"),
        (ProgramFault::NoHttp, "no answer by HTTP"),
    ] {
        expect_line(&rt, alloc, *fault, text)?;
    }
    Ok(())
}
