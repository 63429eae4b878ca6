// The program over any streams: a task is carried out, and its status answered.
ghost use Rattle.std.specs.Prelude.{◌≡◌, Some, map, option_map};
ghost use Rattle.clap.specs.Words.{kind_of};
ghost use Rattle.rx_program.specs.Programs.{Answers, Does, EndsWith, IsShown, Over, Program, RunsAudit, RunsScript, Serves, done_of};

pub(crate) mod check;
pub(crate) mod client;
pub(crate) mod config_file;
pub(crate) mod draining;
pub(crate) mod ended;
pub(crate) mod ending;
pub(crate) mod fault_cause;
pub(crate) mod flushed;
pub(crate) mod host;
pub(crate) mod names;
pub(crate) mod porch;
pub(crate) mod program_fault;
pub(crate) mod server;
pub(crate) mod site;
pub(crate) mod told_fault;
pub(crate) mod unbounded;

use crate::command_line::read_words;
use crate::command_line::refused_words::refusal_of;
use crate::command_line::task::Task;
use crate::program::check::check_at;
use crate::program::client::{publish_at, stats_at, stop_at, subscribe_at};
use crate::program::config_file::config_at;
use crate::program::host::Host;
use crate::program::program_fault::ProgramFault;
use crate::program::server::serve_on;
use crate::program::told_fault::tell;
use clap::Error;
use clap::error::ErrorKind;
use rx_client::Plain;
use rx_heap::{Heap, Memory};
use rx_script::{run_audit, run_script};
use rx_session::SessionEnd;
use std::io::{Read, Write};
use std::rt::Files;

/// The most reads of one script.
const MAX_READS: u64 = 4_294_967_296;

const FINISHED: u8 = 0;

const FAULT: u8 = 1;

const WRONG_WORDS: u8 = 2;

/// The program with its streams handed in: it does what the words behind its name ask for, tells faults on `faults`, and
/// answers the exit status. A server tells on `log` what it decides of its peers, by a thread of its own.
///
/// 0: the run was finished, or help or the version was asked for, which goes to `writer`. 1: a fault, told in one line. 2: the words are
/// no command line, which is told with what would be one.
pub fn run_words<'a, F: Host, R: Read, W: Write, E: Write, L: Write + Drop + Send + 'static>(
    rt: &F,
    words: &'a [&'a str],
    reader: &mut R,
    writer: &mut W,
    faults: &mut E,
    log: L,
) -> u8
    ensures { Program (map (λ s. s.now) words.entry.now) result (record { left = R.remaining reader.old; written = W.contents writer.old }) (record { left = R.remaining reader.new; written = W.contents writer.new }) (E.contents faults.old) (E.contents faults.new) }
{
    match read_words(rt.alloc(), words) {
        Ok(task) => match refusal_of(&Heap::unlimited(rt.alloc()), task) {
            Some(why) => {
                let _ = writeln!(faults, "error: {why}");
                WRONG_WORDS
            }
            None => {
                let done = run_task(rt, task, reader, writer, faults, log);
                status_of(done, faults)
            }
        },
        Err(error) => answer(&error, writer, faults),
    }
}

// The status of what was done, whose fault is told.
fn status_of<E: Write>(done: Result<(), ProgramFault>, faults: &mut E) -> u8
    ensures { EndsWith done result (E.contents faults.old) (E.contents faults.new) }
{
    match done {
        Ok(()) => FINISHED,
        Err(fault) => {
            let _ = tell(fault, faults);
            FAULT
        }
    }
}

// Shows help that was asked for, or tells what is wrong with the words.
fn answer<W: Write, E: Write>(error: &Error, writer: &mut W, faults: &mut E) -> u8
    ensures { Answers (kind_of error.now) result (W.contents writer.old) (W.contents writer.new) (E.contents faults.old) (E.contents faults.new) }
{
    match error.kind() {
        ErrorKind::DisplayHelp | ErrorKind::DisplayVersion => {
            let done = show_help(error, writer);
            status_of(done, faults)
        }
        ErrorKind::OutOfMemory => status_of(Err(ProgramFault::Memory), faults),
        _ => {
            let _ = write!(Plain::new(faults), "{error}");
            WRONG_WORDS
        }
    }
}

// Shows the help that was asked for.
fn show_help<W: Write>(error: &Error, writer: &mut W) -> Result<(), ProgramFault>
    ensures { IsShown result }
{
    if write!(writer, "{error}").is_err() || writer.flush().is_err() {
        return Err(ProgramFault::Write);
    }
    Ok(())
}

// Does a task.
fn run_task<F: Host, R: Read, W: Write, E: Write, L: Write + Drop + Send + 'static>(
    rt: &F,
    task: Task<'_>,
    reader: &mut R,
    writer: &mut W,
    faults: &mut E,
    log: L,
) -> Result<(), ProgramFault>
    ensures { Does task.entry result (record { left = R.remaining reader.old; written = W.contents writer.old }) (record { left = R.remaining reader.new; written = W.contents writer.new }) (E.contents faults.old) (E.contents faults.new) }
{
    match task {
        Task::Script(path) => run_script_at(rt, path, reader, writer),
        Task::Audit(path) => run_audit_at(rt, path, reader, writer),
        Task::Check(path, socket) => check_at(rt, path, socket, writer, faults),
        Task::Serve(path, socket) => serve_at(rt, path, socket, writer, faults, log),
        Task::Publish(socket, subject, text) => {
            publish_at(rt, socket, subject, text, reader, writer, faults)
        }
        Task::Subscribe(socket, subscription) => {
            subscribe_at(rt, socket, subscription, writer, faults)
        }
        Task::Stats(socket, is_json) => stats_at(rt, socket, is_json, writer, faults),
        Task::Stop(socket, within) => stop_at(rt, socket, within, faults),
    }
}

// Runs a script over the configuration of a path.
fn run_script_at<F: Files + AllocGlobal, R: Read, W: Write>(
    rt: &F,
    path: Option<&str>,
    reader: &mut R,
    writer: &mut W,
) -> Result<(), ProgramFault>
    ensures { Over (option_map (λ s. s.now) path.entry) RunsScript result (record { left = R.remaining reader.old; written = W.contents writer.old }) (record { left = R.remaining reader.new; written = W.contents writer.new }) }
{
    let heap = Heap::unlimited(rt.alloc());
    match config_at(rt, &heap, path) {
        Ok(config) => done_of(run_script(heap, config, reader, writer, MAX_READS)),
        Err(fault) => Err(fault),
    }
}

// Audits a script over the configuration of a path.
fn run_audit_at<F: Files + AllocGlobal, R: Read, W: Write>(
    rt: &F,
    path: &str,
    reader: &mut R,
    writer: &mut W,
) -> Result<(), ProgramFault>
    ensures { Over (Some path.now) RunsAudit result (record { left = R.remaining reader.old; written = W.contents writer.old }) (record { left = R.remaining reader.new; written = W.contents writer.new }) }
{
    let heap = Heap::unlimited(rt.alloc());
    match config_at(rt, &heap, Some(path)) {
        Ok(config) => done_of(run_audit(heap, config, reader, writer, MAX_READS)),
        Err(fault) => Err(fault),
    }
}

// Serves the configuration of a path on a new socket.
fn serve_at<F: Host, W: Write, E: Write, L: Write + Drop + Send + 'static>(
    rt: &F,
    path: &str,
    socket: &str,
    writer: &mut W,
    faults: &mut E,
    log: L,
) -> Result<(), ProgramFault>
    ensures { Serves (Some path.now) result (W.contents writer.old) (W.contents writer.new) }
{
    let heap = Heap::unlimited(rt.alloc());
    match config_at(rt, &heap, Some(path)) {
        Ok(config) => serve_on(rt, &heap, config, socket, writer, faults, log),
        Err(fault) => Err(fault),
    }
}

// How the program ends after a run that ended so.
fn done_of(ended: Result<SessionEnd, Memory>) -> Result<(), ProgramFault>
    ensures { result ≡ done_of ended }
{
    match ended {
        Ok(SessionEnd::Quit | SessionEnd::EndOfInput | SessionEnd::HandedOver) => Ok(()),
        Ok(SessionEnd::ReadFault) => Err(ProgramFault::Read),
        Ok(SessionEnd::WriteFault) => Err(ProgramFault::Write),
        Ok(SessionEnd::TooManyReads) => Err(ProgramFault::TooManyReads),
        Err(Memory) => Err(ProgramFault::Memory),
    }
}
