// The line by which a server tells that it stops. As those of causes it is put together on the stack, and goes out by one write.
ghost use Rattle.std.specs.Prelude.{◌≡◌};
ghost use Rattle.rx_proto.specs.Bytes.{Writes};
ghost use Rattle.rx_program.specs.Notices.{stop_line};

use crate::notices::notice_line::{ROOM, put_number};
use rx_proto::{LineBytes, WriteFault, write_bytes};
use std::io::Write;

/// Writes the line of a stop within so many seconds.
///
/// # Errors
///
/// `WriteFault`: the writer did not take all; it has a front of the line.
pub fn write_stop<E: Write>(within: u64, faults: &mut E) -> Result<(), WriteFault>
    ensures { Writes result (E.contents faults.old) (E.contents faults.new) (stop_line within) }
{
    write_bytes(faults, stop_line(within).as_bytes())
}

// The line of a stop within so many seconds.
fn stop_line(within: u64) -> LineBytes<ROOM>
    ensures { result ≡ stop_line within }
{
    let mut line = LineBytes::new();
    line.put(b"<6>rxline: stopping within ");
    put_number(within, &mut line);
    line.put(b" s\n");
    line
}
