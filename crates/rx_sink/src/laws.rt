//! What the sinks of this crate have taken once they are put away, and when something waits in them. The functions do nothing:
//! their clauses are the laws.
ghost use Rattle.rx_sink.specs.Taken.{CountsNotes, LeavesNotes, TellsFaults, WritesLines};
ghost use Rattle.rx_sink.specs.Waiting.{NeverWaits, WaitsOnlyWhere};

use crate::{LineSink, MemorySink, Sink};
use std::io::Write;

/// The rest of a memory sink is the list of the notes that it took.
pub fn memory_sinks_keep()
    ensures { LeavesNotes ⟦<MemorySink as Sink>⟧.acts (λ s. s.notes.items) (λ rest. rest.items) }
{}

/// A line sink wrote the lines of its start and, in its version, of the notes that it took, and after a fault a front of the
/// next line.
pub fn line_sinks_write<W: Write + Drop>()
    ensures { WritesLines ⟦<LineSink<W> as Sink>⟧.acts (λ s. s.version) (λ s. W.contents s.writer) }
{}

/// The rest of a line sink tells how many notes it took, and whether it had a fault.
pub fn line_sinks_count<W: Write + Drop>()
    ensures { CountsNotes ⟦<LineSink<W> as Sink>⟧.acts (λ s. s.notes) (λ s. s.faults) (λ rest. rest.notes) (λ rest. rest.failed) }
{}

/// Each kind of sink tells by its count of faults whether it had one: at a fault the count rises by one, up to the greatest
/// `u64`, and else it stays. So where it stayed, the sink took all that it was to be served.
pub fn counts_tell_faults<S: Sink>()
    ensures { TellsFaults S.acts }
{}

/// Nothing ever waits in a memory sink.
pub fn memory_sinks_never_wait()
    ensures { NeverWaits ⟦<MemorySink as Sink>⟧.acts }
{}

/// Something waits in a line sink only where its writer gathers what it is given.
pub fn line_sinks_wait_by_their_writer<W: Write + Drop>()
    ensures { WaitsOnlyWhere ⟦<LineSink<W> as Sink>⟧.acts (λ s. s.gathers) }
{}
