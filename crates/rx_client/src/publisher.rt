// A producer over a connection, with so many lines on their way.
use crate::Plain;
use crate::connection::Connection;
use crate::request::put_pub;
use rx_heap::{Heap, Memory};
use rx_proto::Name;
use std::io::{BufRead, BufReader, Read, Write};
use std::net::Net;

// The most lines that are on their way at a time.
const WINDOW: u64 = 64;

const LF: u8 = b'\n';

/// What became of the lines of an input.
#[derive(Clone, Copy, Debug, PartialEq, Eq)]
pub struct Published {
    /// How many were answered `OK`.
    pub accepted: u64,
    /// Why no more were sent. None: there were no more.
    pub fault: Option<PublishFault>,
}

/// Why no more lines are sent.
#[derive(Clone, Copy, Debug, PartialEq, Eq)]
pub enum PublishFault {
    /// Nobody listens at the path, or may not be connected to.
    NoServer,
    /// A line was refused.
    Refused,
    /// The connection was lost.
    Lost,
    /// The input could not be read.
    Read,
    /// There was no memory.
    Memory,
}

/// Emits each line of an input as an item of a subject, up to 64 before the first is answered; what stands behind the last LF is a
/// line too. An answer that is no `OK` is told on `faults` with the number of its line, from 1, and so are the lines that have no
/// answer where the connection was lost. Once a line is refused no more are sent than are on their way.
pub fn publish<F: Net, R: Read, E: Write>(
    rt: &F,
    heap: &Heap,
    path: &str,
    subject: &Name,
    input: &mut R,
    faults: &mut E,
) -> Published {
    let connection = match Connection::to(rt, heap, path) {
        Ok(connection) => connection,
        Err(fault) => {
            let _ = writeln!(faults, "rxline: {path}: {fault}");
            return Published {
                accepted: 0,
                fault: Some(PublishFault::NoServer),
            };
        }
    };
    match Producer::new(connection, heap) {
        Ok(mut producer) => {
            let fault = producer.emit_all(heap, subject, input, faults).err();
            Published {
                accepted: producer.accepted,
                fault,
            }
        }
        Err(Memory) => Published {
            accepted: 0,
            fault: Some(PublishFault::Memory),
        },
    }
}

// Emits by a connection, and counts the answers.
struct Producer {
    connection: Connection,
    // The lines that go together.
    block: Vec<u8, Heap>,
    // A line of the input.
    line: Vec<u8, Heap>,
    answered: u64,
    accepted: u64,
}

impl Drop for Producer {
    fn drop(self) {
        let Producer {
            connection: _,
            block: _,
            line: _,
            answered: _,
            accepted: _,
        } = self;
    }
}

impl Producer {
    fn new(connection: Connection, heap: &Heap) -> Result<Producer, Memory> {
        Ok(Producer {
            connection,
            block: Vec::new(heap.clone()?),
            line: Vec::new(heap.clone()?),
            answered: 0,
            accepted: 0,
        })
    }

    fn emit_all<R: Read, E: Write>(
        &mut self,
        heap: &Heap,
        subject: &Name,
        input: &mut R,
        faults: &mut E,
    ) -> Result<(), PublishFault> {
        let Ok(alloc) = heap.clone() else {
            return Err(PublishFault::Memory);
        };
        let Ok(mut input) = BufReader::new(alloc, input) else {
            return Err(PublishFault::Memory);
        };
        for _ in 0..u64::MAX {
            let lines = self.gather(subject, &mut input)?;
            if lines == 0 {
                break;
            }
            self.exchange(lines, faults)?;
        }
        Ok(())
    }

    // Gathers lines that are in hand, for the first of which it may wait. How many: none at the end of the input.
    fn gather<R: Read>(
        &mut self,
        subject: &Name,
        input: &mut BufReader<&mut R, Heap>,
    ) -> Result<u64, PublishFault> {
        self.block.clear();
        for lines in 0..WINDOW {
            if lines > 0 && !input.buffer().contains(&LF) {
                return Ok(lines);
            }
            self.line.clear();
            match input.read_until(LF, &mut self.line) {
                Ok(0) => return Ok(lines),
                Ok(_) => {}
                Err(_) => return Err(PublishFault::Read),
            }
            let line = self.line.as_slice();
            let line = line.strip_suffix(b"\n".as_slice()).unwrap_or(line);
            if put_pub(&mut self.block, subject.as_bytes(), line).is_err() {
                return Err(PublishFault::Memory);
            }
        }
        Ok(WINDOW)
    }

    // Sends the lines that were gathered, so many, and hears their answers.
    fn exchange<E: Write>(&mut self, lines: u64, faults: &mut E) -> Result<(), PublishFault> {
        let first = self.answered.saturating_add(1);
        if self.connection.send(self.block.as_slice()).is_err() {
            return Err(lost(first, lines, faults));
        }
        let mut refused = Ok(());
        for behind in 0..lines {
            let Ok(answer) = self.connection.line() else {
                return Err(lost(self.answered.saturating_add(1), lines - behind, faults));
            };
            self.answered = self.answered.saturating_add(1);
            if answer == b"OK".as_slice() {
                self.accepted = self.accepted.saturating_add(1);
            } else {
                tell_refusal(self.answered, answer, faults);
                refused = Err(PublishFault::Refused);
            }
        }
        refused
    }
}

// Tells the answer to a line that is no `OK`.
fn tell_refusal<E: Write>(number: u64, answer: &[u8], faults: &mut E) {
    let _ = write!(faults, "rxline: line {number}: ");
    let _ = Plain::new(faults).write_all(answer);
    let _ = faults.write_all(b"\n");
}

// Tells that so many lines from this one on have no answer.
fn lost<E: Write>(first: u64, lines: u64, faults: &mut E) -> PublishFault {
    let last = first.saturating_add(lines.saturating_sub(1));
    let _ = writeln!(
        faults,
        "rxline: the connection was lost: of lines {first} to {last} nothing tells whether they were emitted"
    );
    PublishFault::Lost
}
