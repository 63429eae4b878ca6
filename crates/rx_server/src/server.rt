ghost use Rattle.std.specs.Prelude.{◌≡◌, ◌+◌, ◌<◌, true, false, [], List, IfErr, IfOk, IfSome, MatchOption, length, map, vec_len};
ghost use Rattle.std.specs.Arc.{arc_value};
ghost use Rattle.std.specs.Vec.Iter.{into_iter_items};
ghost use Rattle.rx_hub.specs.Hubs.{HubView};
ghost use Rattle.rx_server.specs.Wirings.{Wiring};
ghost use Rattle.rx_server.specs.Servers.{IsServerOf};
ghost use Rattle.rx_server.specs.Starting.{IsStartFaultOf, NoMemoryFor};

use crate::close::rooms::Rooms;
use crate::wired::running::Running;
use crate::wired::start_fault::{Role, StartFault};
use crate::wired::wire;
use rx_config::Config;
use rx_heap::{Heap, Memory};
use rx_mailbox::{Port, let_go_all};
use rx_pump::{CallDesk, Grace, Out};
use rx_sink::Sink;
use std::marker::Model;
use std::snapshot::Snapshot;
use std::sync::{Arc, Wait};
use std::thread::Threads;
use std::vec::IntoIter;

/// Subjects and drainers that run, each in a thread of its own, and the desks that were not handed out. One that is let go
/// without `close` waits for nobody: its threads end by themselves, once the desks that were handed out have ended or are let go
/// too.
pub struct Server<S: Sink> {
    pub(crate) running: Running<S>,
    // The ports by which the drainers are told to leave.
    leaves: Vec<Port<Out<S>>, Heap>,
    pub(crate) desks: IntoIter<CallDesk<S>, Heap>,
    // All desks, as they were made: contracts alone see them.
    made: Snapshot<Vec<CallDesk<S>, Heap>>,
    pub(crate) rooms: Rooms<S>,
    // What its workers are made of.
    pub(crate) heap: Heap,
    pub(crate) config: Arc<Config, Heap>,
    // How long its close waits for what waits for observers.
    pub(crate) grace: Grace,
}

// The desks end as they are let go, and the drainers are told to leave.
impl<S: Sink> Drop for Server<S> {
    fn drop(self) {
        let Server {
            running: _,
            leaves,
            desks: _,
            made: _,
            rooms: _,
            heap: _,
            config: _,
            grace: _,
        } = self;
        let_go_all(leaves);
    }
}

impl<S: Sink> Model for Server<S> {
    ghost use Rattle.std.specs.Prelude.{◌≡◌, length, map, vec_len};
    ghost use Rattle.std.specs.Vec.Iter.{into_iter_items};
    ghost use Rattle.std.specs.Arc.{arc_value};
    ghost use Rattle.rx_server.specs.Servers.{IsWhole, ServerView, server_of};
    ghost use Rattle.rx_server.specs.Rooms.{AreRooms};

    ghost Value = { ServerView S S.Rest };

    ghost view = { λ s. server_of (arc_value s.config) s.running.pumps.items (map (λ drainer. drainer.handle.promise.0.value) s.running.drainers.items) s.leaves.items
        s.made.value.items (into_iter_items s.desks) s.rooms.desks.items };

    ghost invariant = { λ s. IsWhole (server_of (arc_value s.config) s.running.pumps.items (map (λ drainer. drainer.handle.promise.0.value) s.running.drainers.items) s.leaves.items
        s.made.value.items (into_iter_items s.desks) s.rooms.desks.items)
        × AreRooms (vec_len s.running.pumps) (vec_len s.running.drainers) (vec_len s.made.value) (length (into_iter_items s.desks)) s.rooms };
}

impl<S: Sink> Server<S> {
    ghost use Rattle.rx_workers.specs.Crews.{IsFor};
    ghost use Rattle.rx_server.specs.Rooms.{AreRooms};
    ghost use Rattle.rx_server.specs.Servers.{IsDeskOf, IsWhole, with_desk};

    /// The next desk, in their order, each once, or None where all were handed out. It has a port for each subject, of which
    /// there is one at least.
    pub fn desk(&mut self) -> Option<CallDesk<S>>
        ensures next { MatchOption result ((self.old.desks ≡ []) × (self.new ≡ self.old)) (λ desk. self.old ≡ with_desk desk self.new) }
        ensures ports { IfSome result (IsFor self.old.config) }
        ensures some { IfSome result (λ desk. 0 < length desk.ports + length desk.ended) }

        // It is one of the server's own: `close` asks for that of each desk that is handed in.
        ensures own { IfSome result (IsDeskOf self.old.made) }
    {
        self.desks.next()
    }

    /// Waits until all desks ended, and then until what waits for observers has gone to their sinks, for so many milliseconds at most.
    /// It answers how many of them are left; some are just where nothing waits. Its close waits for that no more.
    pub fn wait_within<R: Wait>(&mut self, rt: &R, ms: u64) -> u64
        ensures { self.new ≡ self.old }
    {
        self.grace = Grace::Within(0);
        match self.running.wait(rt, Grace::Within(ms)) {
            Grace::Within(left) => left,
            Grace::WhileMoving => 0,
        }
    }

    // What runs, the ports by which the drainers are told to leave, the desks that were not handed out, and room for what all
    // these leave.
    pub(crate) fn into_parts(
        self,
    ) -> (
        Running<S>,
        Vec<Port<Out<S>>, Heap>,
        IntoIter<CallDesk<S>, Heap>,
        Rooms<S>,
    )
        ensures whole { IsWhole self }
        ensures pumps { result.0.pumps.items ≡ self.pumps }
        ensures drainers { map (λ drainer. drainer.handle.promise.0.value) result.0.drainers.items ≡ self.drainers }
        ensures leaves { result.1.items ≡ self.leaves }
        ensures desks { into_iter_items result.2 ≡ self.desks }
        ensures kept { result.3.desks.items ≡ self.kept }
        ensures rooms { AreRooms (length self.pumps) (length self.drainers) (length self.made) (length self.desks) result.3 }
    {
        let Server {
            running,
            leaves,
            desks,
            made: _,
            rooms,
            heap: _,
            config: _,
            grace: _,
        } = self;
        (running, leaves, desks, rooms)
    }
}

/// Makes the hubs and boxes of a configuration, and starts its pumps and drainers, each in a thread of its own. What the sinks
/// left is kept until its close, for the report.
///
/// # Errors
///
/// The first thread of the server that could not be had, by its role and its number from 0: `Memory`, there was none for its
/// box or for what it owns, of a worker for its desk too; `NoThread`, the pump or the drainer has no thread. Threads that run
/// already end by themselves, and aren't waited for.
pub fn start<S: Sink + Send + 'static, R: Threads + Wait + Clone + Drop + Send + 'static>(
    rt: &R,
    alloc: Heap,
    config: Config,
) -> Result<Server<S>, StartFault>
where
    S::Rest: Send + 'static,
    ensures started { IfOk result (λ server. (w : Wiring S) × (hubs : List HubView) × IsServerOf config w hubs true server) }
    ensures fault { IfErr result (IsStartFaultOf config) }
{
    launch(rt, alloc, config, true)
}

/// The same, but that nothing of what the sinks left is kept, and none of it reported: a server that runs for ever grows by none
/// of its joins.
///
/// # Errors
///
/// Those of [`start`].
pub fn start_unread<S: Sink + Send + 'static, R: Threads + Wait + Clone + Drop + Send + 'static>(
    rt: &R,
    alloc: Heap,
    config: Config,
) -> Result<Server<S>, StartFault>
where
    S::Rest: Send + 'static,
    ensures started { IfOk result (λ server. (w : Wiring S) × (hubs : List HubView) × IsServerOf config w hubs false server) }
    ensures fault { IfErr result (IsStartFaultOf config) }
{
    launch(rt, alloc, config, false)
}

// Starts a server, whose drainers keep what their sinks leave or not.
fn launch<S: Sink + Send + 'static, R: Threads + Wait + Clone + Drop + Send + 'static>(
    rt: &R,
    alloc: Heap,
    config: Config,
    keeps: bool,
) -> Result<Server<S>, StartFault>
where
    S::Rest: Send + 'static,
    ensures started { IfOk result (λ server. (w : Wiring S) × (hubs : List HubView) × IsServerOf config w hubs keeps server) }
    ensures fault { IfErr result (IsStartFaultOf config) }
{
    let mut wired = wire(&alloc, &config, keeps)?;
    let rooms = wired.rooms(&alloc)?;
    let (heap, config) = shared(&alloc, config)?;
    let running = wired.run(rt, &alloc)?;
    let made = Snapshot::of(&wired.desks);
    let (leaves, desks) = wired.into_ends();
    Ok(Server {
        running,
        leaves,
        desks,
        made,
        rooms,
        heap,
        config,
        grace: Grace::WhileMoving,
    })
}

// A configuration that workers share, and the memory for them. Where there is none, the first worker is told.
fn shared(alloc: &Heap, config: Config) -> Result<(Heap, Arc<Config, Heap>), StartFault>
    ensures shared { IfOk result (λ made. arc_value made.1 ≡ config) }
    ensures fault { IfErr result (NoMemoryFor Role.Worker 0) }
{
    match share(alloc, config) {
        Ok(made) => Ok(made),
        Err(Memory) => Err(StartFault::memory(Role::Worker, 0)),
    }
}

fn share(alloc: &Heap, config: Config) -> Result<(Heap, Arc<Config, Heap>), Memory>
    ensures { IfOk result (λ made. arc_value made.1 ≡ config) }
{
    let shared = Arc::new(alloc.clone()?, config)?;
    Ok((alloc.clone()?, shared))
}
