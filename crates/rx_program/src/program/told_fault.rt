// A fault, told in one line on standard error.
ghost use Rattle.std.specs.Prelude.{◌≤◌, List, ℕ};
ghost use Rattle.rx_proto.specs.Bytes.{Writes};
ghost use Rattle.rx_program.specs.Programs.{Tells, fault_text};

use crate::program::fault_cause::FaultCause;
use crate::program::program_fault::ProgramFault;
use rx_proto::{WriteFault, write_bytes};
use std::io::Write;

/// Tells a fault in one line.
pub fn tell<E: Write>(fault: ProgramFault, faults: &mut E) -> Result<(), WriteFault>
    ensures { Tells result fault (E.contents faults.old) (E.contents faults.new) }
{
    write_bytes(faults, b"rxline: ")?;
    write_fault(&fault, faults)?;
    write_bytes(faults, b"\n")
}

// Writes what is told of a fault.
fn write_fault<E: Write>(fault: &ProgramFault, faults: &mut E) -> Result<(), WriteFault>
    ensures { (words : List ℕ) × Writes result (E.contents faults.old) (E.contents faults.new) (fault_text fault.now words) }
{
    write_bytes(faults, fault.words().as_bytes())?;
    match fault.cause() {
        Some(cause) => write_cause(cause, faults),
        None => Ok(()),
    }
}

// The room for the words of a cause: the longest has a number of 20 digits.
const ROOM: usize = 64;

// Writes the words of a cause.
fn write_cause<E: Write>(cause: FaultCause, faults: &mut E) -> Result<(), WriteFault>
    ensures { (words : List ℕ) × Writes result (E.contents faults.old) (E.contents faults.new) words }
{
    let mut room = [0; ROOM];
    let len = put_cause(cause, &mut room);
    write_bytes(faults, &room[..len])
}

// Puts the words of a cause at the front of the room. How many bytes they have.
fn put_cause(cause: FaultCause, room: &mut [u8; ROOM]) -> usize
    ensures { result ≤ 64 }
{
    let mut rest = room.as_mut_slice();
    let _ = write!(rest, "{cause}");
    ROOM.saturating_sub(rest.len())
}
