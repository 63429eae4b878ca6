// The epoch of a start is the wall clock's milliseconds in hexadecimal. A clock that is set back between two starts can tell an epoch
// again: then a reader that comes again is told nothing of the restart, and what stands at its places since.
ghost use Rattle.std.specs.Prelude.{IfErr};
ghost use Rattle.rx_program.specs.Programs.{LacksSocket};

use crate::notices::counted::SharedNotices;
use crate::program::host::Host;
use crate::program::program_fault::ProgramFault;
use crate::socket::clocked::Clocked;
use crate::socket::face_closer::FaceCloser;
use crate::socket::face_socket::FaceSocket;
use crate::socket::incoming::Incoming;
use crate::socket::path::listen;
use crate::socket::terms::Terms;
use rx_config::{Config, Http, Shown};
use rx_events::{Pulse, SharedPulse};
use rx_heap::Heap;
use rx_note::Text;
use rx_server::{Entrance, Epoch, Grants, Idle, SharedStop};
use rx_stats::SharedCrowd;
use std::fs::File;
use std::io::{ErrorKind, Write};
use std::os::unix::net::UnixListener;
use std::sync::Arc;
use std::time::Clock;
use std::{io, str};

/// What the face of a server is served by: its socket, and what closes that, the clock of its moments, the epoch of this start, and what is granted to browsers.
pub(crate) struct Porch<F: Host> {
    doorway: Idle<Incoming<F>, FaceSocket<F>>,
    closer: FaceCloser,
    clock: F,
    epoch: Epoch,
    grants: Grants,
    pulse: SharedPulse,
    crowd: SharedCrowd,
    stop: SharedStop,
    // The path of its socket.
    path: Text,
}

// By hand: rx_heap says why.
impl<F: Host> Drop for Porch<F> {
    fn drop(self) {
        let Porch {
            doorway: _,
            closer: _,
            clock: _,
            epoch: _,
            grants: _,
            pulse: _,
            crowd: _,
            stop: _,
            path: _,
        } = self;
    }
}

/// What a face begins with that was opened here.
pub(crate) type Opened<F> = Entrance<Clocked<F>, Incoming<F>, FaceSocket<F>, FaceCloser>;

impl<F: Host> Porch<F> {
    /// A new Unix socket by the section `[http]` of a configuration. What it decides of its connections is counted among the notices, and
    /// how many they are by this crowd. By `stop` the server is told to stop. With it comes the lock beside the socket, which is to be held
    /// as long as the server lives.
    /// Refused by `Listen` where the socket can't be had, and by `Memory`.
    pub(crate) fn at(
        rt: &F,
        heap: &Heap,
        config: &Config,
        http: &Http,
        notices: &SharedNotices,
        crowd: &SharedCrowd,
        stop: &SharedStop,
    ) -> Result<(Porch<F>, File), ProgramFault>
        ensures { IfErr result LacksSocket }
    {
        let Ok(path) = http.socket.copy() else {
            return Err(ProgramFault::Memory);
        };
        let Ok(name) = str::from_utf8(path.as_bytes()) else {
            return Err(ProgramFault::Listen);
        };
        let Ok((listener, lock)) = listen(rt, name, config.takeover) else {
            return Err(ProgramFault::Listen);
        };
        match made(rt, heap, config, listener, notices, crowd, stop) {
            Ok((doorway, closer, clock, epoch, pulse, crowd, stop)) => {
                let porch = Porch {
                    doorway,
                    closer,
                    clock,
                    epoch,
                    grants: Grants {
                        readers: u32::from(http.readers),
                        may_emit: http.emit,
                        may_stop: http.stop,
                        heartbeat: http.heartbeat,
                    },
                    pulse,
                    crowd,
                    stop,
                    path,
                };
                Ok((porch, lock))
            }
            Err(_) => Err(ProgramFault::Memory),
        }
    }

    /// Tells on `faults` that it listens, and by which epoch readers know this start.
    pub(crate) fn tell<E: Write>(&self, faults: &mut E) {
        let (Ok(path), Ok(epoch)) = (
            str::from_utf8(self.path.as_bytes()),
            str::from_utf8(self.epoch.as_bytes()),
        ) else {
            return;
        };
        let _ = writeln!(faults, "rxline: http on {}, epoch {epoch}", Shown(path));
    }

    /// What its face begins with, whose moments begin with these.
    pub(crate) fn open(self, moments: &Clocked<F>) -> Opened<F> {
        let Porch {
            doorway,
            closer,
            clock,
            epoch,
            grants,
            pulse,
            crowd,
            stop,
            path: _,
        } = self;
        Entrance {
            doorway,
            closer,
            moments: moments.beside(clock),
            epoch,
            grants,
            pulse,
            crowd,
            stop,
        }
    }

    /// What time it is for the sinks of its readers. None where that can't be shared.
    pub(crate) fn pulse(&self) -> Option<SharedPulse> {
        Arc::try_clone(&self.pulse).ok()
    }
}

// What stands over a listener, but for the lock.
fn made<F: Host>(
    rt: &F,
    heap: &Heap,
    config: &Config,
    listener: UnixListener,
    notices: &SharedNotices,
    crowd: &SharedCrowd,
    stop: &SharedStop,
) -> io::Result<
    (
        Idle<Incoming<F>, FaceSocket<F>>,
        FaceCloser,
        F,
        Epoch,
        SharedPulse,
        SharedCrowd,
        SharedStop,
    ),
> {
    let notices = Arc::try_clone(notices)?;
    let Ok(pulse) = Pulse::shared(heap.clone()?) else {
        return Err(io::Error::from(ErrorKind::OutOfMemory));
    };
    let socket = FaceSocket::new(
        listener,
        rt.clone()?,
        heap.clone()?,
        Terms::of(config),
        notices,
        Arc::try_clone(&pulse)?,
        Arc::try_clone(crowd)?,
        Arc::try_clone(stop)?,
    )?;
    let closer = socket.closer()?;
    Ok((
        Idle::new(socket),
        closer,
        rt.clone()?,
        epoch_of(rt)?,
        pulse,
        Arc::try_clone(crowd)?,
        Arc::try_clone(stop)?,
    ))
}

// The epoch of a start at the present moment.
fn epoch_of<F: Host>(rt: &F) -> io::Result<Epoch> {
    let since = u64::try_from(rt.since_1970()?.as_millis()).unwrap_or(0);
    let digits = format!(in rt.alloc(); "{since:x}")?;
    match Epoch::new(digits.as_bytes()) {
        Some(epoch) => Ok(epoch),
        None => Err(io::Error::from(ErrorKind::InvalidData)),
    }
}
