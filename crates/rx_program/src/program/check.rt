//! A configuration, told and not served.
ghost use Rattle.std.specs.Prelude.{◌≡◌, ◌⊎◌, Err, Some, option_map};
ghost use Rattle.rx_config.specs.Configurations.{settings_of};
ghost use Rattle.rx_proto.specs.Bytes.{Writes};
ghost use Rattle.rx_program.specs.Programs.{Checks, IsShown, Lists, ListsAndLooks, Looks};

use crate::program::config_file::read_file;
use crate::program::flushed::flushed;
use crate::program::host::Host;
use crate::program::program_fault::ProgramFault;
use crate::program::unbounded::tell_unbounded;
use crate::socket::obstacle::Obstacle;
use crate::socket::path::{in_the_way, in_the_way_beside};
use rx_config::{Config, Http, Shown, advise, config_lines, read_config};
use rx_heap::{Heap, Memory};
use rx_proto::{WriteFault, write_bytes};
use std::fs::File;
use std::io::{self, Read, Write};
use std::str;

/// Writes the configuration in the file of this path, as it would be served. Why it can't be had, where more can be said than
/// the cause, goes to `faults`; so does which subjects keep all that they take, and, where the path of a socket is told, what is in the
/// way of a server there and at the path of its events.
///
/// # Errors
///
/// `NoConfig`, `Config`: it can't be had. `Memory`. `Write`: a front of it was written. Save for `Write`, nothing was. `Listen`: all
/// was written, and something is in the way.
pub(crate) fn check_at<F: Host, W: Write, E: Write>(
    rt: &F,
    path: &str,
    socket: Option<&str>,
    writer: &mut W,
    faults: &mut E,
) -> Result<(), ProgramFault>
    ensures { Checks (Some path.now) (option_map (λ s. s.now) socket.entry) result (W.contents writer.old) (W.contents writer.new) }
{
    let heap = Heap::unlimited(rt.alloc());
    let Ok(alloc) = heap.clone() else {
        return Err(ProgramFault::Memory);
    };
    let bytes = match read_file(rt, &heap, path) {
        Ok(bytes) => bytes,
        Err(fault) => {
            tell_unread(rt, path, fault, faults);
            return Err(fault);
        }
    };
    match read_config(alloc, rt.alloc(), bytes.as_slice()) {
        Ok(config) => list_and_look(rt, &heap, &config, socket, writer, faults),
        Err(cause) => {
            let _ = advise(rt.alloc(), bytes.as_slice(), cause, faults);
            Err(ProgramFault::Config(cause))
        }
    }
}

// Tells why a file can't be read.
fn tell_unread<F: Host, E: Write>(rt: &F, path: &str, fault: ProgramFault, faults: &mut E) {
    if !matches!(fault, ProgramFault::NoConfig) {
        return;
    }
    let _ = match read_first(rt, path) {
        Ok(()) => writeln!(faults, "{}: it has more than 65536 bytes", Shown(path)),
        Err(cause) => writeln!(faults, "{}: {cause}", Shown(path)),
    };
}

// Reads the first byte of a file.
fn read_first<F: Host>(rt: &F, path: &str) -> io::Result<()> {
    File::open(rt, path)?.read(&mut [0])?;
    Ok(())
}

// Writes the lines of a configuration, and then tells what it leaves without a bound, and what is in the way of a server.
fn list_and_look<F: Host, W: Write, E: Write>(
    rt: &F,
    heap: &Heap,
    config: &Config,
    socket: Option<&str>,
    writer: &mut W,
    faults: &mut E,
) -> Result<(), ProgramFault>
    ensures { ListsAndLooks (settings_of config.now) (option_map (λ s. s.now) socket.entry) result (W.contents writer.old) (W.contents writer.new)
        ⊎ ((result ≡ Err ProgramFault.Memory) × (W.contents writer.new ≡ W.contents writer.old)) }
{
    match list(heap, config, writer) {
        Ok(()) => {
            tell_unbounded(config, faults);
            look(rt, socket, config, faults)
        }
        Err(fault) => Err(fault),
    }
}

// Tells what is in the way of a server at the path of a socket, where there is one, and at that of its events.
fn look<F: Host, E: Write>(
    rt: &F,
    socket: Option<&str>,
    config: &Config,
    faults: &mut E,
) -> Result<(), ProgramFault>
    ensures { Looks (option_map (λ s. s.now) socket.entry) result }
{
    let Some(path) = socket else {
        return Ok(());
    };
    let has_room = tell_obstacle(path, in_the_way(rt, path, config.takeover), faults);
    let has_face = match &config.http {
        Some(http) => look_beside(rt, path, http, config.takeover, faults),
        None => true,
    };
    if has_room && has_face {
        Ok(())
    } else {
        Err(ProgramFault::Listen)
    }
}

// Tells what is in the way at the path of events. Whether nothing is.
fn look_beside<F: Host, E: Write>(
    rt: &F,
    socket: &str,
    http: &Http,
    takeover: bool,
    faults: &mut E,
) -> bool {
    let Ok(path) = str::from_utf8(http.socket.as_bytes()) else {
        return false;
    };
    let obstacle = in_the_way_beside(rt, path, socket, takeover);
    tell_obstacle(path, obstacle, faults)
}

// Tells what is in the way at a path, where something is. Whether nothing is.
fn tell_obstacle<E: Write>(path: &str, obstacle: Option<Obstacle>, faults: &mut E) -> bool {
    match obstacle {
        None => true,
        Some(obstacle) => {
            let _ = writeln!(faults, "{}: {obstacle}", Shown(path));
            false
        }
    }
}

// Writes the lines of a configuration.
fn list<W: Write>(heap: &Heap, config: &Config, writer: &mut W) -> Result<(), ProgramFault>
    ensures { Lists (settings_of config.now) result (W.contents writer.old) (W.contents writer.new)
        ⊎ ((result ≡ Err ProgramFault.Memory) × (W.contents writer.new ≡ W.contents writer.old)) }
{
    match config_lines(heap, config) {
        Ok(lines) => write_out(lines.as_slice(), writer),
        Err(Memory) => Err(ProgramFault::Memory),
    }
}

// Writes bytes, and flushes the writer.
fn write_out<W: Write>(bytes: &[u8], writer: &mut W) -> Result<(), ProgramFault>
    ensures shown { IsShown result }
    ensures written { Writes result (W.contents writer.old) (W.contents writer.new) bytes.now }
{
    match write_bytes(writer, bytes) {
        Ok(()) => flushed(writer),
        Err(WriteFault) => Err(ProgramFault::Write),
    }
}
