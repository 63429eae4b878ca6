ghost use Rattle.std.specs.Prelude.{◌≡◌, []};
ghost use Rattle.rx_program.specs.Programs.{HasCause, fault_text};

use crate::program::fault_cause::FaultCause;
use rx_config::ConfigError;
use rx_server::{CloseFault, StartFault};
use std::error::Error;
use std::fmt;

/// Why the program gave up.
#[derive(Clone, Copy, Debug, PartialEq, Eq)]
pub enum ProgramFault {
    /// The file of the configuration can't be read, or has more than 65,536 bytes.
    NoConfig,
    /// The configuration was refused.
    Config(ConfigError),
    /// A read of the script failed.
    Read,
    /// A write failed, or took nothing.
    Write,
    /// All reads were made that may be.
    TooManyReads,
    /// There was no memory to read the words, to make the subjects, or for an audit.
    Memory,
    /// The socket can't be had: something stands at its path, or there is no such folder.
    Listen,
    /// A thread of the server can't be had.
    Start(StartFault),
    /// No connection can be accepted.
    Accept,
    /// The sessions can't be served, for want of memory or of a thread.
    Serve,
    /// A thread of the server ended by a fault.
    Close(CloseFault),
    /// Nobody listens at the path of a socket, or may not be connected to.
    Connect,
    /// A server refused a line, or what it was asked for.
    Refused,
    /// A connection was lost, and lines have no answer, or none has all of it.
    Lost,
    /// The subject that was followed failed.
    Failed,
    /// What came is no line that a server prints.
    Strange,
    /// What came is no answer by HTTP.
    NoHttp,
}

impl ProgramFault {
    /// What is told of it, before its cause where it has one.
    pub(crate) fn words(&self) -> &'static str
        ensures { result.now ≡ fault_text self.now [] }
    {
        match self {
            ProgramFault::NoConfig => "cannot read config",
            ProgramFault::Config(_) => "config: ",
            ProgramFault::Read => "read fault",
            ProgramFault::Write => "write fault",
            ProgramFault::TooManyReads => "too many reads",
            ProgramFault::Memory => "out of memory",
            ProgramFault::Listen => "cannot listen",
            ProgramFault::Start(_) => "cannot start ",
            ProgramFault::Accept => "accept fault",
            ProgramFault::Serve => "serve fault",
            ProgramFault::Close(_) => "close fault: ",
            ProgramFault::Connect => "cannot connect",
            ProgramFault::Refused => "refused",
            ProgramFault::Lost => "connection lost",
            ProgramFault::Failed => "subject failed",
            ProgramFault::Strange => "no line of a server",
            ProgramFault::NoHttp => "no answer by HTTP",
        }
    }

    /// What is told behind its words.
    pub(crate) fn cause(&self) -> Option<FaultCause>
        ensures { HasCause result self.now }
    {
        match self {
            ProgramFault::Config(cause) => Some(FaultCause::Config(*cause)),
            ProgramFault::Start(fault) => Some(FaultCause::Thread(fault.thread, fault.index)),
            ProgramFault::Close(fault) => Some(FaultCause::Thread(fault.thread, fault.index)),
            ProgramFault::NoConfig
            | ProgramFault::Read
            | ProgramFault::Write
            | ProgramFault::TooManyReads
            | ProgramFault::Memory
            | ProgramFault::Listen
            | ProgramFault::Accept
            | ProgramFault::Serve
            | ProgramFault::Connect
            | ProgramFault::Refused
            | ProgramFault::Lost
            | ProgramFault::Failed
            | ProgramFault::Strange
            | ProgramFault::NoHttp => None,
        }
    }
}

impl fmt::Display for ProgramFault {
    fn fmt<W: fmt::Write>(&self, f: &mut fmt::Formatter<W>) -> fmt::Result {
        f.write_str(self.words())?;
        match self.cause() {
            Some(cause) => cause.fmt(f),
            None => Ok(()),
        }
    }
}

impl Error for ProgramFault {}
