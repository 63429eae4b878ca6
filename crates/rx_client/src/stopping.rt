// Who asks a server to stop, by the socket of its section `[http]`.
ghost use Rattle.std.specs.Prelude.{◌≡◌, IfOk};
ghost use Rattle.rx_client.specs.Looking.{ShowsAnswer, stop_request};

use crate::LookFault;
use crate::asking::ask;
use itoa::Buffer;
use rx_heap::{Heap, Memory};
use std::io::Write;
use std::net::Net;

// The status of an answer that accepts what is to be done.
const ACCEPTED: u16 = 202;

/// Asks the server whose socket of `[http]` is at this path to stop, and to wait so many seconds at most for those who were not told
/// all yet. What it answers is written, byte by byte, where it accepts that; it stops behind its answer, and no connection tells when it
/// has. Why it gives up is told on `faults`, where more can be said than the fault.
pub fn stop<F: Net, W: Write, E: Write>(
    rt: &F,
    heap: &Heap,
    path: &str,
    within: u16,
    writer: &mut W,
    faults: &mut E,
) -> Result<(), LookFault>
    ensures { ShowsAnswer 202 result (W.contents writer.old) (W.contents writer.new) }
{
    let Ok(request) = request_of(heap, within) else {
        return Err(LookFault::Memory);
    };
    ask(rt, heap, path, request.as_slice(), ACCEPTED, writer, faults)
}

// The request that a server stops within so many seconds.
fn request_of(heap: &Heap, within: u16) -> Result<Vec<u8, Heap>, Memory>
    ensures { IfOk result (λ request. request.items ≡ stop_request within) }
{
    let mut request = Vec::from_slice(heap.clone()?, b"POST /stop?within=")?;
    request.extend_from_slice(Buffer::new().format(within).as_bytes())?;
    request.extend_from_slice(
        b" HTTP/1.1\r\nHost: rxline\r\nContent-Length: 0\r\nConnection: close\r\n\r\n",
    )?;
    Ok(request)
}
