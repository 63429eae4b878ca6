ghost use Rattle.std.specs.Prelude.{◌≡◌, IfErr, IfOk, MatchResult};
ghost use Rattle.rx_program.specs.Programs.{LacksSocket};
ghost use Rattle.rx_program.specs.Reporting.{ClosesWith, closed_as};
ghost use Rattle.rx_server.specs.Servers.{RunsOn};
ghost use Rattle.rx_server.specs.declared.wired.start_fault.StartFault.{StartFault};

use crate::notices::counted::{Notices, SharedNotices};
use crate::notices::patience::Patience;
use crate::notices::teller::{end_telling, start_telling};
use crate::notices::warden::Warden;
use crate::program::draining::drain;
use crate::program::ended::Ended;
use crate::program::host::Host;
use crate::program::porch::Porch;
use crate::program::program_fault::ProgramFault;
use crate::socket::clocked::Clocked;
use crate::socket::outgoing::Outgoing;
use crate::socket::path::listen;
use crate::socket::terms::Terms;
use crate::socket::{Socket, lookout_over};
use rx_config::{Config, Shown};
use rx_heap::{Heap, Memory};
use rx_server::{
    ClientSink, CloseFault, Report, ServeFault, Server, SharedStop, StartFault, Stop,
    SubjectReport, start_unread,
};
use rx_sink::Sink;
use rx_stats::{Crowd, SharedCrowd};
use std::fs::File;
use std::io::Write;
use std::sync::Arc;

/// What a server is served by: the socket that it listens on and the lock beside it, that of its face (or the same), the clock of its moments, the memory for what its
/// desks leave, and its own memory; and by what it tells what it decides of its peers.
pub(crate) struct Site<F: Host> {
    socket: Socket<F>,
    lock: File,
    beside: File,
    clock: F,
    heap: Heap,
    own: Heap,
    porch: Option<Porch<F>>,
    notices: SharedNotices,
    // The same, for the thread that tells them.
    shared: SharedNotices,
    patience: Patience,
    warden: Warden,
    // The host of that thread.
    teller: F,
    // By which it is told to stop.
    stop: SharedStop,
}

// By hand: rx_heap says why.
impl<F: Host> Drop for Site<F> {
    fn drop(self) {
        let Site {
            socket: _,
            lock: _,
            beside: _,
            clock: _,
            heap: _,
            own: _,
            porch: _,
            notices: _,
            shared: _,
            patience: _,
            warden: _,
            teller: _,
            stop: _,
        } = self;
    }
}

impl<F: Host> Site<F> {
    /// A new Unix socket of this path, by a configuration. Refused by `Memory` before `Listen`.
    pub(crate) fn at(
        rt: &F,
        heap: &Heap,
        path: &str,
        config: &Config,
    ) -> Result<Site<F>, ProgramFault>
        ensures { IfErr result LacksSocket }
    {
        let Ok(tools) = make_tools(rt, heap) else {
            return Err(ProgramFault::Memory);
        };
        let Tools {
            host,
            clock,
            teller,
            waiting,
            heap,
            own,
            notices,
            shared,
            counted,
            stop,
            stopping,
            accepting,
            crowd,
        } = tools;
        let Ok(warden) = Warden::of(&own, config, stopping) else {
            return Err(ProgramFault::Memory);
        };
        let Ok((listener, lock)) = listen(rt, path, config.takeover) else {
            return Err(ProgramFault::Listen);
        };
        let (porch, beside) = match &config.http {
            Some(http) => {
                let (porch, beside) = Porch::at(rt, &own, config, http, &notices, &crowd, &stop)?;
                (Some(porch), beside)
            }
            None => match lock.try_clone() {
                Ok(beside) => (None, beside),
                Err(_) => return Err(ProgramFault::Listen),
            },
        };
        let terms = Terms::of(config);
        let lookout = if terms.may_stop {
            match lookout_over(&host, &own, &listener, &counted, &stop) {
                Ok(lookout) => Some(lookout),
                Err(_) => return Err(ProgramFault::Listen),
            }
        } else {
            None
        };
        let socket = Socket::new(
            listener, host, waiting, terms, counted, crowd, accepting, lookout,
        );
        Ok(Site {
            socket,
            lock,
            beside,
            clock,
            heap,
            own,
            porch,
            notices,
            shared,
            patience: Patience::of(config),
            warden,
            teller,
            stop,
        })
    }

    /// Starts the server of a configuration, tells on `faults` that it listens at this path, serves the connections that come,
    /// and closes it. Meanwhile a thread tells on `log` what it decides of its peers. `Start`: it did not start.
    // All else that a server of this sink does is done here: the types of its threads are looked through in each function that
    // has one.
    pub(crate) fn serve<E: Write, L: Write + Drop + Send + 'static>(
        self,
        rt: &F,
        config: Config,
        path: &str,
        faults: &mut E,
        log: L,
    ) -> Result<Ended, ProgramFault>
        ensures closed { IfOk result (λ ended. ClosesWith ⟦<ClientSink<Outgoing<F>> as Sink>⟧.acts config (closed_as ended.closed)) }
        ensures fault { IfErr result (λ fault. (cause : StartFault) × (fault ≡ ProgramFault.Start cause)) }
    {
        let Site {
            socket,
            lock,
            beside,
            clock,
            heap,
            own,
            porch,
            notices,
            shared,
            patience,
            warden,
            teller,
            stop,
        } = self;
        let mut warden = warden;
        let mut server = match start_watched(rt, own, config, &mut warden) {
            Ok(server) => server,
            Err(fault) => return Err(ProgramFault::Start(fault)),
        };
        tell_sockets(path, &porch, faults);
        let telling = start_telling(rt, teller, shared, patience, warden, log);
        let served = serve_by(
            rt,
            &mut server,
            socket,
            Clocked::new(clock),
            porch,
            &stop,
            &notices,
        );
        let closed = subjects_of(server.close(rt, Vec::new(heap)));
        end_telling(rt, &notices, telling);
        Ok(Ended {
            served,
            closed,
            lock,
            beside,
        })
    }
}

// Starts the server of a configuration, at whose subjects the warden looks from now on. (At none where there is no memory for their list.)
fn start_watched<F: Host>(
    rt: &F,
    own: Heap,
    config: Config,
    warden: &mut Warden,
) -> Result<Server<ClientSink<Outgoing<F>>>, StartFault>
    ensures { IfOk result (λ server. server.config ≡ config) }
{
    let server = start_unread::<ClientSink<Outgoing<F>>, F>(rt, own, config)?;
    if let Ok(looks) = server.shown() {
        warden.watch(looks);
    }
    Ok(server)
}

// Tells that a server listens at this path, and where its face does, if it has one.
fn tell_sockets<F: Host, E: Write>(path: &str, porch: &Option<Porch<F>>, faults: &mut E) {
    let _ = writeln!(faults, "rxline: listening on {}", Shown(path));
    if let Some(porch) = porch {
        porch.tell(faults);
    }
}

// Serves the connections of a socket until it is told to stop, and beside them those of a face, where there is one. Where it was told to, it
// waits for what waits.
fn serve_by<F: Host>(
    rt: &F,
    server: &mut Server<ClientSink<Outgoing<F>>>,
    socket: Socket<F>,
    moments: Clocked<F>,
    porch: Option<Porch<F>>,
    stop: &SharedStop,
    notices: &SharedNotices,
) -> Result<(), ServeFault>
    ensures { RunsOn server.old server.new }
{
    let pulse = match &porch {
        Some(porch) => porch.pulse(),
        None => None,
    };
    let served = serve_all(rt, server, socket, moments, porch);
    if stop.is_asked() {
        drain(rt, server, stop, &pulse, notices);
        return stopped(served);
    }
    served
}

// Serves the connections of a socket, and beside them those of a face, where there is one.
fn serve_all<F: Host>(
    rt: &F,
    server: &mut Server<ClientSink<Outgoing<F>>>,
    socket: Socket<F>,
    moments: Clocked<F>,
    porch: Option<Porch<F>>,
) -> Result<(), ServeFault>
    ensures { RunsOn server.old server.new }
{
    let mut socket = socket;
    let Some(porch) = porch else {
        return server.serve(rt, &mut socket, moments);
    };
    let entrance = porch.open(&moments);
    server.serve_facing(rt, &mut socket, moments, entrance)
}

// How serving ended that was told to stop: no more connections came then.
fn stopped(served: Result<(), ServeFault>) -> Result<(), ServeFault> {
    match served {
        Err(ServeFault::Accept) => Ok(()),
        other => other,
    }
}

// What a site has beside its sockets.
struct Tools<F: Host> {
    host: F,
    clock: F,
    teller: F,
    waiting: Heap,
    heap: Heap,
    own: Heap,
    notices: SharedNotices,
    // The same, for who tells them and for who counts them.
    shared: SharedNotices,
    counted: SharedNotices,
    // By which the server is told to stop, and the same for who tells that and for its socket.
    stop: SharedStop,
    stopping: SharedStop,
    accepting: SharedStop,
    crowd: SharedCrowd,
}

fn make_tools<F: Host>(rt: &F, heap: &Heap) -> Result<Tools<F>, Memory> {
    let notices = Arc::new(heap.clone()?, Notices::new())?;
    let shared = Arc::try_clone(&notices)?;
    let counted = Arc::try_clone(&notices)?;
    let stop = Stop::shared(heap.clone()?)?;
    let stopping = Arc::try_clone(&stop)?;
    let accepting = Arc::try_clone(&stop)?;
    Ok(Tools {
        host: rt.clone()?,
        clock: rt.clone()?,
        teller: rt.clone()?,
        waiting: heap.clone()?,
        heap: heap.clone()?,
        own: heap.clone()?,
        notices,
        shared,
        counted,
        stop,
        stopping,
        accepting,
        crowd: Crowd::shared(heap.clone()?)?,
    })
}

// What a closed server reports of each subject, or why there is no report.
fn subjects_of<S: Sink>(
    closed: Result<Report<S>, CloseFault>,
) -> Result<Vec<SubjectReport, Heap>, CloseFault>
    ensures { MatchResult closed (λ report. result ≡ Ok report.subjects) (λ fault. result ≡ Err fault) }
{
    match closed {
        Ok(report) => Ok(report.into_subjects()),
        Err(fault) => Err(fault),
    }
}
