ghost use Rattle.std.specs.Prelude.{◌≡◌, ◌∷◌, []};
ghost use Rattle.rx_client.specs.Following.{listed};
ghost use Rattle.rx_client.specs.Running.{Follows, Shows, Subscribes};

use crate::connection::Connection;
use crate::flushing::write_out;
use crate::output::put_told;
use crate::pause::Pause;
use crate::plain::Plain;
use crate::{Ending, Epoch, Follower, Format, Heard, Telling, Told, read_note};
use rx_heap::{Heap, Memory};
use std::io::{self, ErrorKind, Write};
use std::net::Net;
use std::rt::Files;
use std::sync::Wait;
use std::time::Clock;

/// What is wanted of a subject.
#[derive(Clone, Copy, Debug)]
pub struct Wanted<'a> {
    /// The line by which an observer joins it, without its LF.
    pub line: &'a [u8],
    /// Its strategy is one by which the server ends an observer that is too slow.
    pub may_overflow: bool,
    /// The place from which on its items are wanted. None: those that there are for who comes anew, and the later ones.
    pub from: Option<u64>,
    /// How many items are wanted. None: all.
    pub count: Option<u64>,
    pub format: Format,
}

/// Why no more is told of a subject.
#[derive(Clone, Copy, Debug, PartialEq, Eq)]
pub enum SubscribeFault {
    /// Nobody listens at the path, or may not be connected to. (Once it has joined it comes again.)
    NoServer,
    /// The subscription was refused.
    Refused,
    /// The subject failed.
    Failed,
    /// What came is no line that a server prints.
    Strange,
    /// What was told could not be written.
    Write,
    /// There was no memory.
    Memory,
}

/// Follows a subject until it is completed, or as many items as are wanted were told: over connections that end and servers that
/// begin anew it comes again, and waits longer each time, up to five seconds. What is told is written, and what has no place there,
/// and why it gives up, is told on `faults`.
pub fn subscribe<F: Files + Net + Clock + Wait, W: Write, E: Write>(
    rt: &F,
    heap: &Heap,
    path: &str,
    wanted: Wanted<'_>,
    writer: &mut W,
    faults: &mut E,
) -> Result<(), SubscribeFault>
    ensures { Subscribes wanted.entry.format wanted.entry.from wanted.entry.may_overflow result (W.contents writer.old) (W.contents writer.new) }
{
    let Ok(alloc) = heap.clone() else {
        return Err(SubscribeFault::Memory);
    };
    let mut subscriber = Subscriber {
        follower: Follower::new(wanted.from, wanted.may_overflow),
        block: Vec::new(alloc),
        left: wanted.count,
        format: wanted.format,
    };
    let mut pause = Pause::first();
    for _ in rt.forever() {
        match subscriber.join(rt, heap, path, wanted.line, faults) {
            Ok((connection, server)) => {
                pause = Pause::first();
                match subscriber.follow(connection, server, writer, faults) {
                    Ok(true) => return Ok(()),
                    Ok(false) => {}
                    Err(fault) => return Err(fault),
                }
            }
            Err(Some(fault)) => return Err(fault),
            Err(None) => {}
        }
        pause.wait(rt);
    }
    Ok(())
}

// What comes behind a line.
#[derive(Clone, Copy)]
enum Next {
    // Another line.
    More,
    // Another connection.
    Again,
    // Nothing.
    Over,
}

// Who follows, and how what it tells is printed.
struct Subscriber {
    follower: Follower,
    // A line that is printed.
    block: Vec<u8, Heap>,
    // How many items are still wanted.
    left: Option<u64>,
    format: Format,
}

impl Drop for Subscriber {
    fn drop(self) {
        let Subscriber {
            follower: _,
            block: _,
            left: _,
            format: _,
        } = self;
    }
}

impl Subscriber {
    // A connection that has joined, and its server. `Err(None)`: not now, but it may later.
    fn join<F: Files + Net, E: Write>(
        &self,
        rt: &F,
        heap: &Heap,
        path: &str,
        line: &[u8],
        faults: &mut E,
    ) -> Result<(Connection, Epoch), Option<SubscribeFault>> {
        let comes_again = self.follower.server.is_some();
        match ask_to_join(rt, heap, path, line) {
            Ok(Joined::Yes(connection, server)) => Ok((connection, server)),
            Ok(Joined::Refused(word)) => {
                if comes_again && is_passing(word.as_slice()) {
                    return Err(None);
                }
                let _ = write!(faults, "rxline: ");
                let _ = Plain::new(faults).write_all(word.as_slice());
                let _ = faults.write_all(b"\n");
                Err(Some(SubscribeFault::Refused))
            }
            Err(fault) if fault.kind() == ErrorKind::OutOfMemory => {
                Err(Some(SubscribeFault::Memory))
            }
            Err(_) if comes_again => Err(None),
            Err(fault) => {
                let _ = writeln!(faults, "rxline: {path}: {fault}");
                Err(Some(SubscribeFault::NoServer))
            }
        }
    }

    // Tells what a connection tells that has joined at this server. Whether it is over; else it is to come again.
    fn follow<W: Write, E: Write>(
        &mut self,
        connection: Connection,
        server: Epoch,
        writer: &mut W,
        faults: &mut E,
    ) -> Result<bool, SubscribeFault>
        ensures follows { Follows self.old.format self.old.follower self.new.follower result (W.contents writer.old) (W.contents writer.new) }
        ensures format { self.new.format ≡ self.old.format }
    {
        let mut connection = connection;
        match self.begin(server, writer, faults) {
            Ok(()) => self.listen(&mut connection, writer, faults),
            Err(fault) => Err(fault),
        }
    }

    // It has joined at this server.
    fn begin<W: Write, E: Write>(
        &mut self,
        server: Epoch,
        writer: &mut W,
        faults: &mut E,
    ) -> Result<(), SubscribeFault>
        ensures follows { Follows self.old.format self.old.follower self.new.follower result (W.contents writer.old) (W.contents writer.new) }
        ensures format { self.new.format ≡ self.old.format }
    {
        let lost = self.follower.join(server);
        self.show(lost, writer, faults)
    }

    // Tells what a connection tells, until that ends. Whether it is over; else it is to come again.
    fn listen<W: Write, E: Write>(
        &mut self,
        connection: &mut Connection,
        writer: &mut W,
        faults: &mut E,
    ) -> Result<bool, SubscribeFault>
        ensures follows { Follows self.old.format self.old.follower self.new.follower result (W.contents writer.old) (W.contents writer.new) }
        ensures format { self.new.format ≡ self.old.format }
    {
        for _ in 0..u64::MAX {
            if self.left == Some(0) {
                return Ok(true);
            }
            let Ok(line) = connection.line() else {
                return Ok(false);
            };
            match self.hear_line(line, writer, faults) {
                Ok(Next::More) => {}
                Ok(Next::Again) => return Ok(false),
                Ok(Next::Over) => return Ok(true),
                Err(fault) => return Err(fault),
            }
        }
        Ok(false)
    }

    // Tells what a line tells.
    fn hear_line<W: Write, E: Write>(
        &mut self,
        line: &[u8],
        writer: &mut W,
        faults: &mut E,
    ) -> Result<Next, SubscribeFault>
        ensures follows { Follows self.old.format self.old.follower self.new.follower result (W.contents writer.old) (W.contents writer.new) }
        ensures format { self.new.format ≡ self.old.format }
    {
        let Some(heard) = read_note(line) else {
            return Err(strange(line, faults));
        };
        match self.hear(heard, writer, faults) {
            Ok(()) => self.next(),
            Err(fault) => Err(fault),
        }
    }

    // What comes behind what was heard.
    fn next(&self) -> Result<Next, SubscribeFault> {
        match self.follower.ending() {
            Ending::Open => Ok(Next::More),
            Ending::Again => Ok(Next::Again),
            Ending::Done => Ok(Next::Over),
            Ending::Failed => Err(SubscribeFault::Failed),
        }
    }

    // Tells what was heard.
    fn hear<W: Write, E: Write>(
        &mut self,
        heard: Heard<'_>,
        writer: &mut W,
        faults: &mut E,
    ) -> Result<(), SubscribeFault>
        ensures follows { Follows self.old.format self.old.follower self.new.follower result (W.contents writer.old) (W.contents writer.new) }
        ensures format { self.new.format ≡ self.old.format }
    {
        let Telling { gap, note } = self.follower.hear(heard);
        match self.show(gap, writer, faults) {
            Ok(()) => self.show(note, writer, faults),
            Err(fault) => Err(fault),
        }
    }

    // Writes what is told, if anything is.
    fn show<W: Write, E: Write>(
        &mut self,
        told: Option<Told<'_>>,
        writer: &mut W,
        faults: &mut E,
    ) -> Result<(), SubscribeFault>
        ensures shows { Shows self.old.format (listed told.entry) result (W.contents writer.old) (W.contents writer.new) }
        ensures format { self.new.format ≡ self.old.format }
        ensures follower { self.new.follower ≡ self.old.follower }
    {
        match told {
            Some(told) => self.show_one(&told, writer, faults),
            None => Ok(()),
        }
    }

    fn show_one<W: Write, E: Write>(
        &mut self,
        told: &Told<'_>,
        writer: &mut W,
        faults: &mut E,
    ) -> Result<(), SubscribeFault>
        ensures shows { Shows self.old.format (told.now ∷ []) result (W.contents writer.old) (W.contents writer.new) }
        ensures format { self.new.format ≡ self.old.format }
        ensures follower { self.new.follower ≡ self.old.follower }
    {
        self.block.clear();
        let Ok(()) = put_told(&mut self.block, told, self.format) else {
            return Err(SubscribeFault::Memory);
        };
        self.left = left_behind(self.left, told);
        if let Format::Plain = self.format {
            tell_aside(told, faults);
        }
        write_out(writer, self.block.as_slice(), SubscribeFault::Write)
    }
}

// How many items are still wanted behind what was told.
fn left_behind(left: Option<u64>, told: &Told<'_>) -> Option<u64> {
    match (left, told) {
        (Some(left), Told::Item { .. } | Told::Seed(_)) => Some(left.saturating_sub(1)),
        _ => left,
    }
}

// Tells what has no place among the texts of items.
fn tell_aside<E: Write>(told: &Told<'_>, faults: &mut E) {
    let _ = match told {
        Told::Item { .. } | Told::Seed(_) | Told::Done => Ok(()),
        Told::Missed { first, last } => writeln!(faults, "rxline: missed {first} to {last}"),
        Told::MissedFrom(first) => writeln!(faults, "rxline: missed from {first} on, if anything"),
        Told::Lost(place) => writeln!(
            faults,
            "rxline: another server: what the one before had from place {place} on is lost"
        ),
        Told::Overflow => writeln!(faults, "rxline: too slow: comes again"),
        Told::Failed(text) => tell_failed(text, faults),
    };
}

fn tell_failed<E: Write>(text: &[u8], faults: &mut E) -> io::Result<()> {
    write!(faults, "rxline: failed: ")?;
    Plain::new(faults).write_all(text)?;
    faults.write_all(b"\n")
}

// What came is no note.
fn strange<E: Write>(line: &[u8], faults: &mut E) -> SubscribeFault {
    let _ = write!(faults, "rxline: no note: ");
    let _ = Plain::new(faults).write_all(line);
    let _ = faults.write_all(b"\n");
    SubscribeFault::Strange
}

// What became of a subscription: it has joined, or this was answered.
#[derive(Drop)]
enum Joined {
    Yes(Connection, Epoch),
    Refused(Vec<u8, Heap>),
}

// Joins by this line at the server of a path, by a connection of its own. Which server it is has to be the same before and behind
// that.
fn ask_to_join<F: Files + Net>(rt: &F, heap: &Heap, path: &str, line: &[u8]) -> io::Result<Joined> {
    let server = Epoch::at(rt, path)?;
    let mut connection = Connection::to(rt, heap, path)?;
    match refusal_of(&mut connection, heap, line)? {
        Some(refused) => Ok(Joined::Refused(refused)),
        None if Epoch::at(rt, path)? == server => Ok(Joined::Yes(connection, server)),
        None => Err(io::Error::from(ErrorKind::ConnectionReset)),
    }
}

// What refuses who joins by this line. None where it has joined.
fn refusal_of(
    connection: &mut Connection,
    heap: &Heap,
    line: &[u8],
) -> io::Result<Option<Vec<u8, Heap>>> {
    send_join(connection, line)?;
    match other_than(connection.line()?, b"OK", heap)? {
        None => other_than(connection.line()?, b"JOINED ", heap),
        refused => Ok(refused),
    }
}

fn send_join(connection: &mut Connection, line: &[u8]) -> io::Result<()> {
    connection.send(b"HELLO 2\n")?;
    connection.send(line)?;
    connection.send(b"\n")
}

// An answer that does not begin as it is to.
fn other_than(answer: &[u8], wanted: &[u8], heap: &Heap) -> io::Result<Option<Vec<u8, Heap>>> {
    if answer.starts_with(wanted) {
        return Ok(None);
    }
    Ok(Some(Vec::from_slice(heap.clone()?, answer)?))
}

// Whether a refusal may pass: an observer may leave, and memory come back.
fn is_passing(answer: &[u8]) -> bool {
    answer == b"ERR FULL".as_slice() || answer == b"ERR MEMORY".as_slice()
}
