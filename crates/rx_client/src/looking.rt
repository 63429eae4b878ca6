// Who looks at a server, by the socket of its section `[http]`.
ghost use Rattle.std.specs.Prelude.{◌≡◌};
ghost use Rattle.rx_client.specs.Looking.{ShowsAnswer, look_request};

use crate::Format;
use crate::asking::ask;
use rx_heap::Heap;
use std::io::Write;
use std::net::Net;

/// Why nothing is shown of a server, or not all of it.
#[derive(Clone, Copy, Debug, PartialEq, Eq)]
pub enum LookFault {
    /// Nobody listens at the path, or may not be connected to.
    NoServer,
    /// The answer has this status, and not the one that is wanted.
    Refused(u16),
    /// The connection ended before the answer did.
    Lost,
    /// What came is no answer by HTTP that tells the length of its body.
    Strange,
    /// What came could not be written.
    Write,
    /// There was no memory.
    Memory,
}

// The status of an answer that has what was asked for.
const FOUND: u16 = 200;

/// Asks the server whose socket of `[http]` is at this path what is seen of it, in lines or as JSON, and writes what it answers, byte
/// by byte. It waits for the answer as long as the connection stays. Why it gives up is told on `faults`, where more can be said than
/// the fault.
pub fn look<F: Net, W: Write, E: Write>(
    rt: &F,
    heap: &Heap,
    path: &str,
    format: Format,
    writer: &mut W,
    faults: &mut E,
) -> Result<(), LookFault>
    ensures { ShowsAnswer 200 result (W.contents writer.old) (W.contents writer.new) }
{
    ask(rt, heap, path, request_of(format), FOUND, writer, faults)
}

// The request for what is seen.
fn request_of(format: Format) -> &'static [u8]
    ensures { result.now ≡ look_request format }
{
    match format {
        Format::Plain => b"GET /stats.txt HTTP/1.1\r\nHost: rxline\r\nConnection: close\r\n\r\n",
        Format::Json => b"GET /stats HTTP/1.1\r\nHost: rxline\r\nConnection: close\r\n\r\n",
    }
}
