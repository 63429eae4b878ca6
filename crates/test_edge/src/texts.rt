//! What the faults of a server say to a person.

use rx_server::{AcceptStop, CloseCause, CloseFault, Role, ServeFault, StartCause, StartFault};
use std::alloc::Global;
use std::fmt::Display;
use std::process::Abort;
use std::test::Fail;

fn expect_text(
    rt: &impl Abort,
    alloc: Global,
    fault: &impl Display,
    text: &str,
) -> Result<(), Fail> {
    let words = format!(in alloc; "{fault}")?;
    assert_eq!(rt; words.as_str(), text);
    Ok(())
}

fn expect_serve_texts(rt: &impl Abort, alloc: Global) -> Result<(), Fail> {
    for (fault, text) in &[
        (ServeFault::NoDesk, "there is no desk to serve by"),
        (ServeFault::Accept, "no connection could be accepted"),
        (ServeFault::Thread(3), "worker 3 has no thread, or is gone"),
        (ServeFault::Memory, "out of memory"),
    ] {
        expect_text(rt, alloc, fault, text)?;
    }
    Ok(())
}

#[test]
fn texts_of_a_servers_faults(rt: HostRuntime) -> Result<(), Fail> {
    let alloc = rt.alloc();
    expect_serve_texts(&rt, alloc)?;
    let stop = AcceptStop::NoConnection;
    expect_text(&rt, alloc, &stop, "no connection could be accepted")?;
    let stop = AcceptStop::WorkerGone(2);
    expect_text(&rt, alloc, &stop, "worker 2 is gone")?;
    expect_text(
        &rt,
        alloc,
        &start_fault(Role::Drainer, 2),
        "cannot start drainer 2",
    )?;
    expect_text(
        &rt,
        alloc,
        &close_fault(Role::Pump, 0),
        "close fault: pump 0",
    )
}

// The thread of this role and number was not started.
fn start_fault(thread: Role, index: usize) -> StartFault {
    StartFault {
        thread,
        index,
        cause: StartCause::NoThread,
    }
}

// The thread of this role and number ended by a fault.
fn close_fault(thread: Role, index: usize) -> CloseFault {
    CloseFault {
        thread,
        index,
        cause: CloseCause::Ended,
    }
}
