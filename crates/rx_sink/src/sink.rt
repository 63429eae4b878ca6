ghost use Rattle.std.specs.Prelude.{◌≡◌, OnOk, OnErr, IfOk};
ghost use Rattle.rx_sink.specs.Acts.{Acts, raised};

use crate::Flow;
use rx_note::Note;
use std::error::Error;
use std::fmt;

/// A sink can't go on: it did not take what it was to take, and is to be finished.
#[derive(Clone, Copy, Debug, PartialEq, Eq)]
pub struct SinkFault;

impl fmt::Display for SinkFault {
    fn fmt<W: fmt::Write>(&self, f: &mut fmt::Formatter<W>) -> fmt::Result {
        f.write_str("the sink takes no more notes")
    }
}

impl Error for SinkFault {}

/// Where the notes of one observer go. A drainer calls `start` once, then `take` for each note in its order until one is a
/// fault or the last, and `flush` between them, and then `finish`.
///
/// Each kind of sink tells by relations between its states what its calls do (`acts`), and how many faults it had: a fault
/// is answered only where that number rose. What a take or a flush answers is told there too, so that a kind in which nothing
/// ever waits can't say that something does.
pub trait Sink: Drop {
    /// What is left of a sink that was finished.
    type Rest: Drop;

    ghost acts: { Acts Self Self.Rest };

    /// Makes ready for the notes of this observer.
    fn start(&mut self, who: u32) -> Result<(), SinkFault>
        ensures ok { OnOk result (acts.started self.old who self.new) }
        ensures fault { OnErr result (acts.start_faulted self.old who self.new) }
        ensures same { OnOk result (acts.faults self.new ≡ acts.faults self.old) }
        ensures rose { OnErr result (acts.faults self.new ≡ raised (acts.faults self.old)) };

    /// Takes the next note. It need not wait for who reads it: what can't go out at once may wait in the sink. It answers
    /// whether something does.
    fn take(&mut self, note: Note) -> Result<Flow, SinkFault>
        ensures ok { IfOk result (λ flow. acts.took self.old note flow self.new) }
        ensures fault { OnErr result (acts.take_faulted self.old note self.new) }
        ensures same { OnOk result (acts.faults self.new ≡ acts.faults self.old) }
        ensures rose { OnErr result (acts.faults self.new ≡ raised (acts.faults self.old)) };

    /// Has go out what waits in the sink, as far as it can now. It answers whether something still waits.
    fn flush(&mut self) -> Result<Flow, SinkFault>
        ensures ok { IfOk result (λ flow. acts.flushed self.old flow self.new) }
        ensures fault { OnErr result (acts.flush_faulted self.old self.new) }
        ensures same { OnOk result (acts.faults self.new ≡ acts.faults self.old) }
        ensures rose { OnErr result (acts.faults self.new ≡ raised (acts.faults self.old)) };

    /// Ends the sink.
    fn finish(self) -> Self::Rest
        ensures { acts.finished self result };
}
