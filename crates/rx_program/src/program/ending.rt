//! How who had a server stop knows that it has ended: nobody holds the lock beside its socket any more (`socket::path`).

use crate::program::host::Host;
use crate::program::program_fault::ProgramFault;
use std::fs::{File, TryLockError};
use std::io::{self, ErrorKind, Write};
use std::thread;
use std::time::Duration;

// How many milliseconds stand between two looks.
const STEP: u64 = 50;

/// Waits until the server whose socket is at this path has ended. The end of that server ends the wait, or who ends this process; a
/// server gives up its lock with its process, whatever ended that.
///
/// # Errors
///
/// `Lost`: whether it has can't be seen, and why is told on `faults`.
pub(crate) fn wait_for_end<F: Host, E: Write>(
    rt: &F,
    socket: &str,
    faults: &mut E,
) -> Result<(), ProgramFault> {
    for _ in rt.forever() {
        match has_ended(rt, socket) {
            Ok(true) => return Ok(()),
            Ok(false) => thread::sleep(rt, Duration::from_millis(STEP)),
            Err(fault) => {
                let _ = writeln!(faults, "rxline: {socket}.lock: {fault}");
                return Err(ProgramFault::Lost);
            }
        }
    }
    Ok(())
}

// Whether nobody holds the lock beside the socket at this path; where there is no file of it, nobody does. The file is not made, and
// the lock is let go at once: it is shared, so that of several who wait none is taken for the server.
fn has_ended<F: Host>(rt: &F, socket: &str) -> io::Result<bool> {
    let name = format!(in rt.alloc(); "{socket}.lock")?;
    let file = match File::open(rt, name.as_str()) {
        Ok(file) => file,
        Err(fault) if fault.kind() == ErrorKind::NotFound => return Ok(true),
        Err(fault) => return Err(fault),
    };
    match file.try_lock_shared() {
        Ok(()) => Ok(true),
        Err(TryLockError::WouldBlock) => Ok(false),
        Err(TryLockError::Error(fault)) => Err(fault),
    }
}
