// The last flush of an output.
ghost use Rattle.std.specs.Io.KnownBytes.{Keeps};
ghost use Rattle.rx_program.specs.Programs.{IsShown};

use crate::program::program_fault::ProgramFault;
use std::io::Write;

/// Flushes the writer, which keeps what it holds.
pub(crate) fn flushed<W: Write>(writer: &mut W) -> Result<(), ProgramFault>
    ensures shown { IsShown result }
    ensures kept { Keeps (W.contents writer.old) (W.contents writer.new) }
{
    match writer.flush() {
        Ok(()) => Ok(()),
        Err(_) => Err(ProgramFault::Write),
    }
}
