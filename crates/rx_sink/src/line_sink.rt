// A sink's line is put together on the stack and written by one `write`, since sinks travel in letters and a buffer in them
// would be moved with each. That of a long text goes in pieces, its text from where it stands.
ghost use Rattle.std.specs.Prelude.{◌≡◌, ◌&&◌, true, false};
ghost use Rattle.rx_sink.specs.Kinds.{ahead_with_one, flow_behind, has_short_text};

use crate::{Flow, LineRest, Sink, SinkFault};
use rx_note::Note;
use rx_proto::{Version, write_joined, write_note};
use std::io::{ErrorKind, Write};

// The most bytes of a short text.
const SHORT_TEXT: usize = 56;

/// A sink that writes a line when it is started, `JOINED` and the number of the observer, and then the line of each note
/// in its version. A write that fails or takes no byte is a fault; the writer then has a front of the line. So is a flush that fails. A line
/// that the writer took is gone for this sink, in which nothing ever waits; but over a writer that gathers what it is given
/// (`gathering`) it tells by the writer's flush whether something waits there.
///
/// A line whose text has up to 256 bytes, 56 in the second version, is put together on the stack and written whole, by one `write`
/// where the writer takes it at once; that of a longer text by three, or four in the second version. A sink holds no line, since it
/// travels in letters.
#[derive(Drop)]
pub struct LineSink<W: Write + Drop> {
    writer: W,
    notes: u64,
    faults: u64,
    // How many lines were written since nothing waited. What is small stands last and together, so that the sink is: it travels in
    // letters, and each letter of its kind has room for one.
    ahead: u32,
    version: Version,
    // The writer gathers what it is given, and sends it when it is flushed.
    gathers: bool,
    // A flush found that something waits which can't go out.
    stuck: bool,
    // Lines may be far ahead: the last flush found that nothing waits, the one before did not find it stuck, and each line since has a
    // short text.
    far: bool,
}

impl<W: Write + Drop> LineSink<W> {
    /// A sink that wrote nothing yet.
    pub fn new(writer: W, version: Version) -> LineSink<W>
        ensures { result ≡ record { writer = writer; version = version; notes = 0; faults = 0; gathers = false; ahead = 0; stuck = false; far = false } }
    {
        LineSink {
            writer,
            version,
            notes: 0,
            faults: 0,
            gathers: false,
            ahead: 0,
            stuck: false,
            far: false,
        }
    }

    /// A sink over a writer that may gather what it is given, and waits for nobody: what can't go out yet waits in it, and its
    /// flush is then `WouldBlock`, or Ok where nothing waits. The sink wrote nothing yet.
    pub fn gathering(writer: W, version: Version) -> LineSink<W>
        ensures { result ≡ record { writer = writer; version = version; notes = 0; faults = 0; gathers = true; ahead = 0; stuck = false; far = false } }
    {
        LineSink {
            writer,
            version,
            notes: 0,
            faults: 0,
            gathers: true,
            ahead: 0,
            stuck: false,
            far: false,
        }
    }

    // How it stands once one line more was written, whose text may be short.
    fn flow(&mut self, short: bool) -> Flow
        ensures answer { result ≡ flow_behind self.old.gathers self.old.stuck self.new.far self.new.ahead }
        ensures rest { self.new ≡ record self.old { ahead = ahead_with_one self.old.gathers self.old.ahead; far = self.old.far && short } }
    {
        if self.gathers {
            self.ahead = self.ahead.saturating_add(1);
        }
        self.far = self.far && short;
        Flow::behind(self.gathers, self.stuck, self.far, self.ahead)
    }

    /// The writer of a sink that came back.
    pub fn into_writer(self) -> W
        ensures { result ≡ self.writer }
    {
        self.writer
    }
}

impl<W: Write + Drop> Sink for LineSink<W> {
    type Rest = LineRest;

    ghost use Rattle.rx_sink.specs.Kinds.{line_acts};

    ghost acts = { line_acts W.contents };

    fn start(&mut self, who: u32) -> Result<(), SinkFault> {
        let Ok(()) = write_joined(&mut self.writer, who) else {
            self.faults = self.faults.saturating_add(1);
            return Err(SinkFault);
        };
        Ok(())
    }

    fn take(&mut self, note: Note) -> Result<Flow, SinkFault> {
        let Ok(()) = write_note(&mut self.writer, &note, self.version) else {
            self.faults = self.faults.saturating_add(1);
            return Err(SinkFault);
        };
        self.notes = self.notes.saturating_add(1);
        Ok(self.flow(has_short_text(&note)))
    }

    fn flush(&mut self) -> Result<Flow, SinkFault> {
        match self.writer.flush() {
            Ok(()) => {
                self.ahead = 0;
                self.far = !self.stuck;
                self.stuck = false;
                Ok(Flow::Clear)
            }
            Err(fault) if self.gathers && fault.kind() == ErrorKind::WouldBlock => {
                self.stuck = true;
                self.far = false;
                Ok(Flow::Stuck)
            }
            Err(_) => {
                self.faults = self.faults.saturating_add(1);
                Err(SinkFault)
            }
        }
    }

    fn finish(self) -> LineRest {
        LineRest {
            notes: self.notes,
            failed: self.faults > 0,
        }
    }
}

// Whether the text of a note is short: a write holds many of its kind.
fn has_short_text(note: &Note) -> bool
    ensures { result ≡ has_short_text note.now }
{
    match note {
        Note::Next(item) => item.text.as_bytes().len() <= SHORT_TEXT,
        Note::Completed => true,
        Note::Failed(text) => text.as_bytes().len() <= SHORT_TEXT,
    }
}
