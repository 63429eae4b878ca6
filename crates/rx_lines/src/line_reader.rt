ghost use Rattle.std.specs.Prelude.{◌≡◌, [], None};
ghost use Rattle.std.specs.Borrow.{sem};
ghost use Rattle.std.specs.Io.BufRead.{Rests};
ghost use Rattle.rx_lines.specs.Nexts.{Nexts};
ghost use Rattle.rx_lines.specs.Steps.{unread};

use crate::{LineState, Next, Step};
use std::io::Read;

/// The lines of a reader, however its reads are cut. It takes no memory.
#[derive(Drop)]
pub struct LineReader<R: Drop> {
    state: LineState,
    reader: R,
}

impl<R: Read + Drop> LineReader<R> {
    ghost use Rattle.rx_lines.specs.contracts.line_reader.LineReader.{the_row};

    /// No line was read yet, and at most `max_reads` reads may be made. Every read counts, also one that fails as
    /// interrupted, which is tried again.
    pub fn new(reader: R, max_reads: u64) -> LineReader<R>
        ensures reader { result.reader ≡ reader }
        ensures unread { unread result.state ≡ [] }
        ensures reads { result.state.reads ≡ max_reads }
        ensures end { result.state.end ≡ None }
    {
        LineReader {
            state: LineState::new(max_reads),
            reader,
        }
    }

    /// Tells the next line, for which it reads as often as it must, or the end. A line that is too long is told once, when
    /// its LF was read. After an end no further read is made, and the same end is told again.
    pub fn next(&mut self) -> Next<'_>
        ensures* after { sem 𝓛 (Rests (the_row R.row) self.entry (λ new. Nexts result (R.remaining self.old.reader) (R.remaining new.reader) self.old.state new.state)) }
    {
        match self.state.advance(&mut self.reader) {
            Step::Line(len) => Next::Line(self.state.line(len)),
            Step::Long => Next::Long,
            Step::EndOfInput => Next::EndOfInput,
            Step::ReadFault => Next::ReadFault,
            Step::TooManyReads => Next::TooManyReads,
        }
    }
}
