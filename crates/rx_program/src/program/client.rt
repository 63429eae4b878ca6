//! The program as a client of a server.
ghost use Rattle.std.specs.Prelude.{◌≡◌, IfOk};
ghost use Rattle.rx_proto.specs.Bytes.{Writes};
ghost use Rattle.rx_client.specs.Looking.{ShowsAnswer};
ghost use Rattle.rx_program.specs.Clients.{Emits, FollowsSubject, accepted_line, follow_fault, format_of, look_fault};

use crate::command_line::subscription::Subscription;
use crate::program::ending::wait_for_end;
use crate::program::host::Host;
use crate::program::program_fault::ProgramFault;
use itoa::Buffer;
use rx_client::{
    Format, LookFault, PublishFault, Published, SubscribeFault, Wanted, look, publish, stop,
    sub_line, subscribe,
};
use rx_heap::{Heap, Memory};
use rx_proto::{Name, write_bytes};
use std::io::{self, Read, Write};

// For how many seconds a server waits where that isn't told.
const WITHIN: u16 = 10;

/// Emits a text, or each line of an input, as items of a subject at a server, and writes how many were accepted.
pub(crate) fn publish_at<F: Host, R: Read, W: Write, E: Write>(
    rt: &F,
    socket: &str,
    subject: &str,
    text: Option<&str>,
    reader: &mut R,
    writer: &mut W,
    faults: &mut E,
) -> Result<(), ProgramFault>
    ensures { Emits result (W.contents writer.old) (W.contents writer.new) }
{
    let heap = Heap::unlimited(rt.alloc());
    let Some(subject) = Name::new(subject.as_bytes()) else {
        return Err(ProgramFault::Refused);
    };
    let published = match text {
        Some(text) => publish_text(rt, &heap, socket, &subject, text, faults),
        None => publish(rt, &heap, socket, &subject, reader, faults),
    };
    tell_published(&heap, published, writer)
}

// Emits one item of this text.
fn publish_text<F: Host, E: Write>(
    rt: &F,
    heap: &Heap,
    socket: &str,
    subject: &Name,
    text: &str,
    faults: &mut E,
) -> Published {
    match line_of(heap, text) {
        Ok(line) => publish(rt, heap, socket, subject, &mut line.as_slice(), faults),
        Err(Memory) => Published {
            accepted: 0,
            fault: Some(PublishFault::Memory),
        },
    }
}

// A line that says this text, of which one CR before its LF is no part.
fn line_of(heap: &Heap, text: &str) -> Result<Vec<u8, Heap>, Memory> {
    let mut line = Vec::from_slice(heap.clone()?, text.as_bytes())?;
    line.extend_from_slice(b"\r\n")?;
    Ok(line)
}

// Writes how many lines were accepted. How it ended: by the first fault.
fn tell_published<W: Write>(
    heap: &Heap,
    published: Published,
    writer: &mut W,
) -> Result<(), ProgramFault>
    ensures { Emits result (W.contents writer.old) (W.contents writer.new) }
{
    let Ok(line) = accepted_line(heap, published.accepted) else {
        return Err(ProgramFault::Memory);
    };
    let told = write_line(writer, line.as_slice());
    match published.fault {
        Some(fault) => Err(emit_fault(fault)),
        None => told,
    }
}

// The line that says how many lines were accepted.
fn accepted_line(heap: &Heap, accepted: u64) -> Result<Vec<u8, Heap>, Memory>
    ensures { IfOk result (λ line. line.items ≡ accepted_line accepted) }
{
    let mut line = Vec::from_slice(heap.clone()?, b"accepted ")?;
    line.extend_from_slice(Buffer::new().format(accepted).as_bytes())?;
    line.push(b'\n')?;
    Ok(line)
}

// Writes a line, and flushes it.
fn write_line<W: Write>(writer: &mut W, line: &[u8]) -> Result<(), ProgramFault>
    ensures { Writes result (W.contents writer.old) (W.contents writer.new) line.now }
{
    if write_bytes(writer, line).is_err() {
        return Err(ProgramFault::Write);
    }
    match writer.flush() {
        Ok(()) => Ok(()),
        Err(_) => Err(ProgramFault::Write),
    }
}

// A fault of emitting, as the program tells it.
fn emit_fault(fault: PublishFault) -> ProgramFault {
    match fault {
        PublishFault::NoServer => ProgramFault::Connect,
        PublishFault::Refused => ProgramFault::Refused,
        PublishFault::Lost => ProgramFault::Lost,
        PublishFault::Read => ProgramFault::Read,
        PublishFault::Memory => ProgramFault::Memory,
    }
}

/// Follows a subject at a server, and writes what a follower of it tells.
pub(crate) fn subscribe_at<F: Host, W: Write, E: Write>(
    rt: &F,
    socket: &str,
    subscription: Subscription<'_>,
    writer: &mut W,
    faults: &mut E,
) -> Result<(), ProgramFault>
    ensures { FollowsSubject subscription.entry.is_json result (W.contents writer.old) (W.contents writer.new) }
{
    let heap = Heap::unlimited(rt.alloc());
    let Subscription {
        subject,
        strategy,
        errors,
        from,
        count,
        is_json,
    } = subscription;
    let Ok(line) = sub_line(&heap, subject, strategy, errors) else {
        return Err(ProgramFault::Memory);
    };
    let wanted = Wanted {
        line: line.as_slice(),
        may_overflow: strategy.starts_with("BOUNDED"),
        from: from.and_then(number_of),
        count: count.and_then(number_of),
        format: format_of(is_json),
    };
    match subscribe(rt, &heap, socket, wanted, writer, faults) {
        Ok(()) => Ok(()),
        Err(fault) => Err(follow_fault(fault)),
    }
}

fn number_of(word: &str) -> Option<u64> {
    word.parse::<u64>().ok()
}

fn format_of(is_json: bool) -> Format
    ensures { result ≡ format_of is_json }
{
    if is_json { Format::Json } else { Format::Plain }
}

// A fault of following, as the program tells it.
fn follow_fault(fault: SubscribeFault) -> ProgramFault
    ensures { result ≡ follow_fault fault }
{
    match fault {
        SubscribeFault::NoServer => ProgramFault::Connect,
        SubscribeFault::Refused => ProgramFault::Refused,
        SubscribeFault::Failed => ProgramFault::Failed,
        SubscribeFault::Strange => ProgramFault::Strange,
        SubscribeFault::Write => ProgramFault::Write,
        SubscribeFault::Memory => ProgramFault::Memory,
    }
}

/// Asks a server what is seen of it, by the path of its socket for HTTP, and writes what it answers.
pub(crate) fn stats_at<F: Host, W: Write, E: Write>(
    rt: &F,
    socket: &str,
    is_json: bool,
    writer: &mut W,
    faults: &mut E,
) -> Result<(), ProgramFault>
    ensures { ShowsAnswer 200 result (W.contents writer.old) (W.contents writer.new) }
{
    let heap = Heap::unlimited(rt.alloc());
    match look(rt, &heap, socket, format_of(is_json), writer, faults) {
        Ok(()) => Ok(()),
        Err(fault) => Err(look_fault(fault)),
    }
}

/// Has a server stop, by the path of its socket for HTTP, and waits until it has ended.
pub(crate) fn stop_at<F: Host, E: Write>(
    rt: &F,
    socket: &str,
    within: Option<&str>,
    faults: &mut E,
) -> Result<(), ProgramFault> {
    let heap = Heap::unlimited(rt.alloc());
    let within = within.and_then(seconds_of).unwrap_or(WITHIN);
    match stop(rt, &heap, socket, within, &mut io::sink(), faults) {
        Ok(()) => wait_for_end(rt, socket, faults),
        Err(fault) => Err(look_fault(fault)),
    }
}

fn seconds_of(word: &str) -> Option<u16> {
    word.parse::<u16>().ok()
}

// A fault of looking, as the program tells it.
fn look_fault(fault: LookFault) -> ProgramFault
    ensures { result ≡ look_fault fault }
{
    match fault {
        LookFault::NoServer => ProgramFault::Connect,
        LookFault::Refused(_) => ProgramFault::Refused,
        LookFault::Lost => ProgramFault::Lost,
        LookFault::Strange => ProgramFault::NoHttp,
        LookFault::Write => ProgramFault::Write,
        LookFault::Memory => ProgramFault::Memory,
    }
}
