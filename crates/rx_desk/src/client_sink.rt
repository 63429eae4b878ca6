ghost use Rattle.std.specs.Prelude.{◌≡◌, MatchResult, OnErr, OnOk};
ghost use Rattle.rx_events.specs.Sinks.{event_acts};
ghost use Rattle.rx_sink.specs.Acts.{raised};

use rx_events::EventSink;
use rx_heap::Heap;
use rx_note::Note;
use rx_sink::{Flow, LineRest, LineSink, Sink, SinkFault};
use std::io::Write;

/// The sink of a connection. A server has one type of sinks: this tells its notes as lines, to who follows in a session, or as events,
/// to a browser.
#[derive(Drop)]
pub enum ClientSink<W: Write + Drop> {
    /// As lines.
    Lines(LineSink<W>),
    /// As events. What tells these stands in a box, since it is larger: a sink goes from thread to thread in a letter, and each letter of
    /// its kind has room for the largest.
    Events(Box<EventSink<W>, Heap>),
}

impl<W: Write + Drop> ClientSink<W> {
    ghost use Rattle.std.specs.Prelude.{◌≡◌, MatchResult};
    ghost use Rattle.rx_desk.specs.ClientSinks.{IsEvents, writer_of};

    /// The sink that tells events so, over this memory. Where there is none its writer is back.
    pub fn events(alloc: &Heap, sink: EventSink<W>) -> Result<ClientSink<W>, W>
        ensures { MatchResult result (IsEvents sink) (λ writer. writer ≡ sink.writer) }
    {
        match boxed(alloc, sink) {
            Ok(sink) => Ok(ClientSink::Events(sink)),
            Err(sink) => Err(sink.into_writer()),
        }
    }

    /// The writer of a sink that came back.
    pub fn into_writer(self) -> W
        ensures { result ≡ writer_of self }
    {
        match self {
            ClientSink::Lines(sink) => sink.into_writer(),
            ClientSink::Events(sink) => Box::into_inner(sink).into_writer(),
        }
    }
}

impl<W: Write + Drop> Sink for ClientSink<W> {
    type Rest = LineRest;

    ghost use Rattle.rx_desk.specs.ClientSinks.{client_acts};

    ghost acts = { client_acts W.contents };

    fn start(&mut self, who: u32) -> Result<(), SinkFault> {
        match self {
            ClientSink::Lines(sink) => sink.start(who),
            ClientSink::Events(sink) => start_boxed(sink, who),
        }
    }

    fn take(&mut self, note: Note) -> Result<Flow, SinkFault> {
        match self {
            ClientSink::Lines(sink) => sink.take(note),
            ClientSink::Events(sink) => sink.take(note),
        }
    }

    fn flush(&mut self) -> Result<Flow, SinkFault> {
        match self {
            ClientSink::Lines(sink) => sink.flush(),
            ClientSink::Events(sink) => sink.flush(),
        }
    }

    fn finish(self) -> LineRest {
        match self {
            ClientSink::Lines(sink) => sink.finish(),
            ClientSink::Events(sink) => Box::into_inner(sink).finish(),
        }
    }
}

// Starts a sink that stands in a box.
fn start_boxed<W: Write + Drop>(
    sink: &mut Box<EventSink<W>, Heap>,
    who: u32,
) -> Result<(), SinkFault>
    ensures ok { OnOk result ((event_acts W.contents).started sink.old.value who sink.new.value) }
    ensures fault { OnErr result ((event_acts W.contents).start_faulted sink.old.value who sink.new.value) }
    ensures same { OnOk result (sink.new.value.faults ≡ sink.old.value.faults) }
    ensures rose { OnErr result (sink.new.value.faults ≡ raised sink.old.value.faults) }
{
    sink.start(who)
}

// What is put in a box over this memory, or is back.
fn boxed<T>(alloc: &Heap, value: T) -> Result<Box<T, Heap>, T>
    ensures { MatchResult result (λ held. held.value ≡ value) (λ back. back ≡ value) }
{
    let Ok(alloc) = alloc.clone() else {
        return Err(value);
    };
    match Box::new(alloc, value) {
        Ok(held) => Ok(held),
        Err(refused) => Err(refused.value),
    }
}
