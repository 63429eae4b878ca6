//! The server: a configuration served on a Unix socket.
ghost use Rattle.std.specs.Prelude.{◌≡◌};
ghost use Rattle.rx_proto.specs.Bytes.{Writes};
ghost use Rattle.rx_program.specs.Programs.{IsReported, IsShown, ReportsServer, ending, serving_fault};
ghost use Rattle.rx_program.specs.Reporting.{closed_as};
ghost use Rattle.rx_server.specs.ReportLines.{report_lines};

use crate::program::flushed::flushed;
use crate::program::host::Host;
use crate::program::names::Names;
use crate::program::program_fault::ProgramFault;
use crate::program::site::Site;
use crate::program::told_fault::tell;
use crate::socket::outgoing::Outgoing;
use rx_config::Config;
use rx_heap::Heap;
use rx_proto::{Name, WriteFault};
use rx_server::{ClientSink, CloseFault, ServeFault, SubjectReport, write_report_lines};
use rx_sink::Sink;
use std::io::Write;

/// Serves a configuration on a new Unix socket of this path, until as many connections have ended as it says. Once it listens
/// it tells so on `faults`, and on `log`, by a thread of its own, what it decides of its peers; at the end it writes the report, one line a subject, also after a fault of serving.
///
/// # Errors
///
/// `Listen`: the socket can't be had. `Start`, `Memory`: the server did not start. `Accept`, `Serve`: it served fewer
/// connections. `Close`: a thread ended by a fault, and there is no report. `Write`: the report was not written.
pub(crate) fn serve_on<F: Host, W: Write, E: Write, L: Write + Drop + Send + 'static>(
    rt: &F,
    heap: &Heap,
    config: Config,
    path: &str,
    writer: &mut W,
    faults: &mut E,
    log: L,
) -> Result<(), ProgramFault>
    ensures { ReportsServer ⟦<ClientSink<Outgoing<F>> as Sink>⟧.acts config result (W.contents writer.old) (W.contents writer.new) }
{
    let Ok(names) = Names::of(heap, &config) else {
        return Err(ProgramFault::Memory);
    };
    let site = Site::at(rt, heap, path, &config)?;
    let ended = site.serve(rt, config, path, faults, log)?;
    let reported = told(&names, &ended.closed, writer);
    end_of(ended.served, reported, faults)
}

// Tells the report of a server that was closed, or why there is none.
fn told<W: Write>(
    names: &Names,
    closed: &Result<Vec<SubjectReport, Heap>, CloseFault>,
    writer: &mut W,
) -> Result<(), ProgramFault>
    ensures { IsReported names.now (closed_as closed.now) result (W.contents writer.old) (W.contents writer.new) }
{
    match closed {
        Ok(subjects) => write_report(names.as_slice(), subjects.as_slice(), writer),
        Err(fault) => Err(ProgramFault::Close(*fault)),
    }
}

// How it ended, by how serving and closing did. Where both had a fault, the first is told here.
fn end_of<E: Write>(
    served: Result<(), ServeFault>,
    closed: Result<(), ProgramFault>,
    faults: &mut E,
) -> Result<(), ProgramFault>
    ensures { result ≡ ending served closed }
{
    let Err(fault) = served else {
        return closed;
    };
    let fault = serving_fault(fault);
    if closed.is_ok() {
        return Err(fault);
    }
    let _ = tell(fault, faults);
    closed
}

// A fault of serving, as the program tells it.
fn serving_fault(fault: ServeFault) -> ProgramFault
    ensures { result ≡ serving_fault fault }
{
    match fault {
        ServeFault::Accept => ProgramFault::Accept,
        ServeFault::NoDesk | ServeFault::Thread(_) | ServeFault::Memory => ProgramFault::Serve,
    }
}

// Writes the report, and flushes it.
fn write_report<W: Write>(
    names: &[Name],
    subjects: &[SubjectReport],
    writer: &mut W,
) -> Result<(), ProgramFault>
    ensures shown { IsShown result }
    ensures written { Writes result (W.contents writer.old) (W.contents writer.new) (report_lines names.now subjects.now) }
{
    match write_report_lines(names, subjects, writer) {
        Ok(()) => flushed(writer),
        Err(WriteFault) => Err(ProgramFault::Write),
    }
}
