// What a client writes of what it is told.
ghost use Rattle.rx_proto.specs.Bytes.{Writes};

use rx_proto::write_bytes;
use std::io::Write;

/// Writes bytes, and flushes them. Where that fails this is the fault.
pub(crate) fn write_out<W: Write, E: Copy>(writer: &mut W, bytes: &[u8], fault: E) -> Result<(), E>
    ensures { Writes result (W.contents writer.old) (W.contents writer.new) bytes.now }
{
    if write_bytes(writer, bytes).is_err() {
        return Err(fault);
    }
    match writer.flush() {
        Ok(()) => Ok(()),
        Err(_) => Err(fault),
    }
}
