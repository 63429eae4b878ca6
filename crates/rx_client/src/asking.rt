// Who asks a server something by HTTP, and hands its answer on.
ghost use Rattle.rx_client.specs.Looking.{ShowsAnswer};

use crate::answer::hand_on;
use crate::{LookFault, Plain};
use rx_heap::Heap;
use std::io::Write;
use std::net::Net;
use std::os::unix::net::UnixStream;

/// Sends a request to the server whose socket of `[http]` is at this path, and writes the body of its answer, byte by byte, where that
/// has the status that is wanted. It waits for the answer as long as the connection stays. Why it gives up is told on `faults`, where
/// more can be said than the fault.
pub(crate) fn ask<F: Net, W: Write, E: Write>(
    rt: &F,
    heap: &Heap,
    path: &str,
    request: &[u8],
    wanted: u16,
    writer: &mut W,
    faults: &mut E,
) -> Result<(), LookFault>
    ensures { ShowsAnswer wanted result (W.contents writer.old) (W.contents writer.new) }
{
    let Ok(alloc) = heap.clone() else {
        return Err(LookFault::Memory);
    };
    let mut stream = match UnixStream::connect(rt, path) {
        Ok(stream) => stream,
        Err(fault) => {
            let _ = writeln!(faults, "rxline: {path}: {fault}");
            return Err(LookFault::NoServer);
        }
    };
    // Where it can't be sent the peer may have answered already, as one that has no room for a reader.
    let _ = stream.write_all(request);
    let mut why = Vec::new(alloc);
    match hand_on(&mut stream, heap, wanted, writer, &mut why) {
        Ok(()) => Ok(()),
        Err(fault) => {
            tell_more(path, fault, why.as_slice(), faults);
            Err(fault)
        }
    }
}

// Tells what stands behind a fault: of a refusal its status, and what the server says why.
fn tell_more<E: Write>(path: &str, fault: LookFault, why: &[u8], faults: &mut E) {
    let _ = match fault {
        LookFault::Refused(status) => {
            let _ = write!(faults, "rxline: {path}: status {status}");
            tell_why(why, faults);
            writeln!(faults)
        }
        LookFault::Strange => {
            writeln!(faults, "rxline: {path}: not a server's socket of [http]")
        }
        LookFault::NoServer | LookFault::Lost | LookFault::Write | LookFault::Memory => Ok(()),
    };
}

// Tells the words of a refusal, where there are some, without the LF at their end.
fn tell_why<E: Write>(why: &[u8], faults: &mut E) {
    if why.is_empty() {
        return;
    }
    let words = match why.strip_suffix(b"\n".as_slice()) {
        Some(words) => words,
        None => why,
    };
    let _ = faults.write_all(b": ");
    let _ = Plain::new(faults).write_all(words);
}
