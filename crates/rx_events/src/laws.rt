//! What the event sinks have written once they are put away, and when something waits in them. The functions do nothing: their
//! clauses are the laws.
ghost use Rattle.std.specs.Prelude.{◌||◌};
ghost use Rattle.rx_sink.specs.Taken.{CountsNotes};
ghost use Rattle.rx_sink.specs.Waiting.{WaitsOnlyWhere};
ghost use Rattle.rx_events.specs.Asking.{is_reader};
ghost use Rattle.rx_events.specs.Hearing.{NotesAreHeard, StreamIsAccount};
ghost use Rattle.rx_events.specs.Written.{WritesEvents};

use crate::EventSink;
use rx_sink::Sink;
use std::io::Write;

/// An event sink wrote the head of its answer, where its reader begins, and of each note that it took the events by which that is told to
/// a reader that was told those before, with heartbeats between them; after a fault a front of what was to come next.
pub fn event_sinks_write<W: Write + Drop>()
    ensures { WritesEvents ⟦<EventSink<W> as Sink>⟧.acts W.contents }
{}

/// The rest of an event sink tells how many notes it took, and whether it had a fault.
pub fn event_sinks_count<W: Write + Drop>()
    ensures { CountsNotes ⟦<EventSink<W> as Sink>⟧.acts (λ s. s.notes) (λ s. s.faults) (λ rest. rest.notes) (λ rest. rest.failed) }
{}

/// Something waits in an event sink, or is held back, only where its writer gathers what it is given, or its reader asks for items itself.
pub fn event_sinks_wait_by_their_writer<W: Write + Drop>()
    ensures { WaitsOnlyWhere ⟦<EventSink<W> as Sink>⟧.acts (λ s. s.gathers || is_reader s.asker) }
{}

/// What the reader of an event sink hears is just what is told of its subject's notes to a reader that knows what this one does.
pub fn notes_are_heard()
    ensures { NotesAreHeard }
{}

/// Wherever the stream of an event sink is cut, and whatever heartbeats stand in it, its reader was told a front of its events, and comes again with the id of what it knows by
/// them.
pub fn stream_is_account()
    ensures { StreamIsAccount }
{}
