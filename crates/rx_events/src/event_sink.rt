// Nothing of an answer is written before the Join is accepted. The sink writes the head of the stream when it is started, so
// that a Join that is refused is answered by its status.
//
// An overflow is told by the strategy. Its error is that of a subject that fails with the text `OVERFLOW`, so the sink is
// told whether its observer may overflow; to others that error is the end of the subject.
ghost use Rattle.std.specs.Prelude.{◌≡◌, true, false, None, Ok, OnOk, OnErr, Some};
ghost use Rattle.rx_proto.specs.Bytes.{AppendsPrefix};
ghost use Rattle.rx_http.specs.Pieces.{heartbeat_line};
ghost use Rattle.rx_sink.specs.Kinds.{flow_behind};
ghost use Rattle.rx_events.specs.Asking.{held_by, holds};
ghost use Rattle.rx_events.specs.declared.asker.Asker.TheVariants.{Drainer, Reader};
ghost use Rattle.rx_events.specs.Sinks.{Beats, ahead_after, stuck_after};
ghost use Rattle.rx_events.specs.Telling.{standing_after, standing_at};

use crate::told_note::{write_begin, write_note};
use crate::{Asker, Standing, Tempo};
use rx_http::{Begin, Epoch, write_heartbeat};
use rx_note::Note;
use rx_sink::{Flow, LineRest, Sink, SinkFault};
use std::io::{ErrorKind, Write};

/// A sink that tells its notes as events: when it is started it writes the head of the answer and where its reader begins, and then
/// what each note is to that reader. A note whose item its reader knows already is passed over: nothing is written, and it is taken
/// like any other. A write that fails or takes no byte is a fault; the writer then has a front of what was to be written. So is a
/// flush that fails.
///
/// What the writer took is gone for this sink, in which nothing ever waits; but over a writer that gathers what it is given
/// (`gathering`) it tells by the writer's flush whether something waits there, as [`rx_sink::LineSink`] does. It takes no memory.
///
/// By a [`Tempo`] a flush writes a heartbeat first where nothing was written for long and nothing waits; and where its reader wants no more
/// than an item in a time it is stuck behind each item that it told, until a flush finds that this time is over.
#[derive(Drop)]
pub struct EventSink<W: Write + Drop> {
    writer: W,
    // What each note touches stands together.
    epoch: Epoch,
    standing: Standing,
    notes: u64,
    // How many notes were written since nothing waited.
    ahead: u32,
    // The writer gathers what it is given, and sends it when it is flushed.
    gathers: bool,
    // A flush found that something waits which can't go out.
    stuck: bool,
    // Who asks for items in the place of those that it took.
    asker: Asker,
    // By which time it tells its notes. None: as they come, and nothing else.
    tempo: Option<Tempo>,
    begin: Begin,
    faults: u64,
}

impl<W: Write + Drop> EventSink<W> {
    /// A sink that wrote nothing yet, to a reader that begins there; `bounded` where its observer may end by an overflow.
    pub fn new(writer: W, epoch: Epoch, begin: Begin, bounded: bool) -> EventSink<W>
        ensures { result ≡ record { writer = writer; epoch = epoch; begin = begin; standing = standing_at begin bounded; notes = 0; faults = 0; ahead = 0; gathers = false; stuck = false; asker = Drainer; tempo = None } }
    {
        let standing = Standing::at(&begin, bounded);
        EventSink {
            writer,
            epoch,
            begin,
            standing,
            notes: 0,
            faults: 0,
            ahead: 0,
            gathers: false,
            stuck: false,
            asker: Asker::Drainer,
            tempo: None,
        }
    }

    /// The same over a writer that may gather what it is given, and waits for nobody: what can't go out yet waits in it, and its
    /// flush is then `WouldBlock`, or Ok where nothing waits.
    pub fn gathering(writer: W, epoch: Epoch, begin: Begin, bounded: bool) -> EventSink<W>
        ensures { result ≡ record { writer = writer; epoch = epoch; begin = begin; standing = standing_at begin bounded; notes = 0; faults = 0; ahead = 0; gathers = true; stuck = false; asker = Drainer; tempo = None } }
    {
        let mut sink = EventSink::new(writer, epoch, begin, bounded);
        sink.gathers = true;
        sink
    }

    /// The same for a reader that asks for its items itself, from the first one on that is told to it. Its sink then answers that what is
    /// due is held back, also where nothing waits.
    pub fn asked(self) -> EventSink<W>
        ensures { result ≡ record self { asker = Reader false } }
    {
        let mut sink = self;
        sink.asker = Asker::Reader { told: false };
        sink
    }

    /// The same by this tempo.
    pub fn at(self, tempo: Tempo) -> EventSink<W>
        ensures { result ≡ record self { tempo = Some tempo } }
    {
        let mut sink = self;
        sink.tempo = Some(tempo);
        sink
    }

    // What its tempo makes of a note that was told, or passed over.
    fn keep_time(&mut self, note: &Note, told: bool)
        ensures { self.new ≡ record self.old { stuck = stuck_after self.old.gathers self.old.tempo told note.now self.old.stuck } }
    {
        if !told {
            return;
        }
        let is_item = matches!(note, Note::Next(_));
        if let Some(tempo) = &mut self.tempo {
            tempo.told(is_item);
            if self.gathers && is_item && tempo.is_paced() {
                self.stuck = true;
            }
        }
    }

    // Writes a heartbeat, where one is due, and has go out what waits. Whether all did: where something can't go out now it waits.
    fn send(&mut self) -> Result<bool, SinkFault>
        ensures sent { OnOk result (Beats (W.contents self.old.writer) (W.contents self.new.writer)) }
        ensures stuck { result ≡ Ok false → self.old.gathers ≡ true }
        ensures part { OnErr result (AppendsPrefix (W.contents self.old.writer) (W.contents self.new.writer) heartbeat_line) }
        ensures rest { self.new ≡ record self.old { writer = self.new.writer } }
    {
        if self.beats() && write_heartbeat(&mut self.writer).is_err() {
            return Err(SinkFault);
        }
        match self.writer.flush() {
            Ok(()) => Ok(true),
            Err(fault) if self.gathers && fault.kind() == ErrorKind::WouldBlock => Ok(false),
            Err(_) => Err(SinkFault),
        }
    }

    // Whether a heartbeat is due.
    fn beats(&mut self) -> bool
        ensures { self.new ≡ self.old }
    {
        match &mut self.tempo {
            Some(tempo) => tempo.beats(),
            None => false,
        }
    }

    // Whether a flush that found that nothing waits frees it: the pace is over that its reader wants.
    fn is_free(&mut self) -> bool
        ensures same { self.new ≡ self.old }
        ensures free { result ≡ false → self.old.gathers ≡ true }
    {
        match &mut self.tempo {
            Some(tempo) => tempo.is_over() || !self.gathers,
            None => true,
        }
    }

    // How it stands once a note was told, or passed over, by which what is due isn't held back: what was passed over isn't counted.
    fn flow(&mut self, told: bool) -> Flow
        ensures answer { result ≡ flow_behind self.old.gathers self.old.stuck false self.new.ahead }
        ensures rest { self.new ≡ record self.old { ahead = ahead_after told self.old.gathers self.old.ahead } }
    {
        if self.gathers && told {
            self.ahead = self.ahead.saturating_add(1);
        }
        Flow::behind(self.gathers, self.stuck, false, self.ahead)
    }

    /// The writer of a sink that came back.
    pub fn into_writer(self) -> W
        ensures { result ≡ self.writer }
    {
        self.writer
    }
}

impl<W: Write + Drop> Sink for EventSink<W> {
    type Rest = LineRest;

    ghost use Rattle.rx_events.specs.Sinks.{event_acts};

    ghost acts = { event_acts W.contents };

    fn start(&mut self, who: u32) -> Result<(), SinkFault> {
        let known = self.standing.known;
        let Ok(()) = write_begin(&mut self.writer, &self.epoch, &self.begin, known, who) else {
            self.faults = self.faults.saturating_add(1);
            return Err(SinkFault);
        };
        Ok(())
    }

    fn take(&mut self, note: Note) -> Result<Flow, SinkFault> {
        let Ok(()) = write_note(&mut self.writer, &self.epoch, self.standing, &note) else {
            self.faults = self.faults.saturating_add(1);
            return Err(SinkFault);
        };
        self.notes = self.notes.saturating_add(1);
        let told = self.standing.hear(&note);
        self.asker = self.asker.after(&note, told);
        self.keep_time(&note, told);
        let flow = self.flow(told);
        Ok(held_by(self.asker, flow))
    }

    fn flush(&mut self) -> Result<Flow, SinkFault> {
        let Ok(is_out) = self.send() else {
            self.faults = self.faults.saturating_add(1);
            return Err(SinkFault);
        };
        if !is_out || !self.is_free() {
            self.stuck = true;
            return Ok(Flow::Stuck);
        }
        self.ahead = 0;
        self.stuck = false;
        Ok(held_by(self.asker, Flow::Clear))
    }

    fn finish(self) -> LineRest {
        LineRest {
            notes: self.notes,
            failed: self.faults > 0,
        }
    }
}

// How a sink stands, where who asks may be the reader.
fn held_by(asker: Asker, flow: Flow) -> Flow
    ensures { result ≡ held_by (holds asker) flow }
{
    match flow {
        Flow::Clear if asker.holds() => Flow::Held,
        Flow::Ready if asker.holds() => Flow::Stuck,
        other => other,
    }
}
