//! Laws of marked letters. The functions do nothing: their contracts are the laws.

ghost use Rattle.rx_drain.specs.Once.{EachSinkOnce};
ghost use Rattle.rx_drain.specs.Paying.{NothingWaits, OwesNothing};
ghost use Rattle.rx_drain.specs.Sent.{EachIsSentFor};
ghost use Rattle.rx_drain.specs.Served.{EachSinkTook, FaultlessSinksTookAll};
ghost use Rattle.rx_drain.specs.Tallies.{EachNoteCounts};

use rx_sink::Sink;

/// The sinks' notes: of what the sink of an attachment is to be served, one that is kept took all so far; one that was put
/// away after a terminal, since its observer left, or when the drainer was told to leave took all; one that had a fault took
/// what comes before the note at which it came, and at a fault of a flush the first of it.
pub fn each_sink_took<S: Drop>()
    ensures { EachSinkTook S }
{}

/// What each sink's own count of faults tells: a sink that was put away with the count that it had when it came, below the
/// greatest `u64`, took all that it was to be served.
pub fn faultless_sinks_took_all<S: Sink>()
    ensures { FaultlessSinksTookAll S.acts }
{}

/// Each sink that came and found its place is kept or was put away, and none twice.
pub fn each_sink_once<S: Drop>()
    ensures { EachSinkOnce S }
{}

/// Each attachment's calls: its subject is sent, for each attachment, a request for one item more for each item that its sink
/// took, but for those that are due while it is kept, and then at its end one disposal, but where its observer had left.
/// For an Attach whose sink found no memory just the disposal of its observer is sent, so often as sinks were missed; and for no
/// other letter anything, so nothing for a sink that was left unserved.
pub fn each_is_sent_for<S: Drop>()
    ensures { EachIsSentFor S }
{}

/// The count of notes taken is the number of notes that the sinks of all attachments took, kept or put away.
pub fn each_note_counts<S: Drop>()
    ensures { EachNoteCounts S }
{}

/// Credit is given back at once where nothing ever waits in a sink: after each turn without a fault nothing is due of any that
/// is kept.
pub fn sinks_that_never_wait_are_paid<S: Sink>()
    ensures { OwesNothing S.acts }
{}

/// Each turn of a drainer takes a letter where nothing ever waits in a sink: after each turn without a fault nothing may wait
/// in any that is kept, and then the next takes one.
pub fn sinks_that_never_wait_are_clear<S: Sink>()
    ensures { NothingWaits S.acts }
{}
