// All parts of a server, joined by new boxes.
ghost use Rattle.std.specs.Prelude.{◌≡◌, ◌+◌, ◌^◌, ◌<◌, ◌≤◌, [], List, IfErr, IfOk, OnOk, map, vec_len};
ghost use Rattle.std.specs.Vec.Iter.{into_iter_items};
ghost use Rattle.rx_hub.specs.Hubs.{HubView};
ghost use Rattle.rx_server.specs.OpenBoxes.{AreOpenFor, IsEmptyFor};
ghost use Rattle.rx_server.specs.Starting.{CannotRun, NoMemoryFor, NoMemoryIn};
ghost use Rattle.rx_server.specs.Wirings.{IsWired, Wiring, desk_count, drainer_capacity, joined_parts, most_observers};

pub(crate) mod makers;
pub(crate) mod opened;
pub(crate) mod port_row;
pub(crate) mod running;
pub(crate) mod running_pump;
pub(crate) mod start_fault;

use crate::close::rooms::Rooms;
use crate::wired::makers::{make_desks, make_drainers, make_hubs, make_pumps};
use crate::wired::opened::{Opened, open_all};
use crate::wired::port_row::put_ports;
use crate::wired::running::{Running, start_drainers, start_pumps};
use crate::wired::start_fault::{Role, StartFault};
use rx_config::{Config, SubjectConfig};
use rx_drain::Drainer;
use rx_heap::{Heap, Memory, room};
use rx_mailbox::{Port, let_go_all};
use rx_pump::{Call, CallDesk, Out, Pump, Reply};
use rx_sink::Sink;
use std::sync::Wait;
use std::thread::Threads;
use std::vec::IntoIter;

// How many letters the box of a subject holds.
const SUBJECT_CAPACITY: usize = 64;

// The parts of a server before a thread runs.
pub(crate) struct Wired<S: Sink> {
    pub(crate) pumps: Vec<Pump<S>, Heap>,
    pub(crate) drainers: Vec<Drainer<S>, Heap>,
    pub(crate) leaves: Vec<Port<Out<S>>, Heap>,
    pub(crate) desks: Vec<CallDesk<S>, Heap>,
}

// Where not all threads could be started, those that run hear that all others end.
impl<S: Sink> Drop for Wired<S> {
    fn drop(self) {
        let Wired {
            pumps: _,
            drainers: _,
            leaves,
            desks: _,
        } = self;
        let_go_all(leaves);
    }
}

// The boxes of a server, with all their ports.
struct Boxes<S: Drop> {
    subjects: Opened<Call<S>>,
    drainers: Opened<Out<S>>,
    replies: Opened<Reply<S>>,
}

// By hand: rx_heap says why.
impl<S: Drop> Drop for Boxes<S> {
    fn drop(self) {
        let Boxes {
            subjects: _,
            drainers: _,
            replies: _,
        } = self;
    }
}

impl<S: Sink> Wired<S> {
    ghost use Rattle.rx_server.specs.OpenBoxes.{IsEmptyFor};
    ghost use Rattle.rx_server.specs.Rooms.{AreRooms};

    // No part yet, and room for all that a configuration asks for.
    fn room(alloc: &Heap, config: &Config) -> Result<Wired<S>, Memory>
        ensures { IfOk result (IsEmptyFor config.now) }
    {
        let count = config.subjects.len();
        let drainers = config.drainers as usize;
        let desks = desk_count(config);
        Ok(Wired {
            pumps: room(alloc, count)?,
            drainers: room(alloc, drainers)?,
            leaves: room(alloc, drainers)?,
            desks: room(alloc, desks)?,
        })
    }

    // Room for what they leave. Where there is none, the first pump is told.
    pub(crate) fn rooms(&self, alloc: &Heap) -> Result<Rooms<S>, StartFault>
        requires { (vec_len self.now.desks + vec_len self.now.drainers < 2 ^ 64) × (vec_len self.now.pumps + 1 < 2 ^ 64) }
        ensures rooms { IfOk result (AreRooms (vec_len self.now.pumps) (vec_len self.now.drainers) (vec_len self.now.desks) (vec_len self.now.desks)) }
        ensures no_desk { IfOk result (λ rooms. rooms.desks.items ≡ []) }
        ensures fault { IfErr result (NoMemoryFor Role.Pump 0) }
    {
        match Rooms::new(
            alloc,
            self.pumps.len(),
            self.drainers.len(),
            self.desks.len(),
        ) {
            Ok(rooms) => Ok(rooms),
            Err(Memory) => Err(StartFault::memory(Role::Pump, 0)),
        }
    }

    // The leave ports and the desks.
    pub(crate) fn into_ends(self) -> (Vec<Port<Out<S>>, Heap>, IntoIter<CallDesk<S>, Heap>)
        ensures leaves { result.0.items ≡ self.leaves.items }
        ensures desks { into_iter_items result.1 ≡ self.desks.items }
    {
        let Wired {
            pumps: _,
            drainers: _,
            leaves,
            desks,
        } = self;
        (leaves, desks.into_iter())
    }
}

impl<S: Sink + Send + 'static> Wired<S>
where
    S::Rest: Send + 'static,
{
    // Starts the pumps and the drainers, each in a thread of its own.
    pub(crate) fn run<R: Threads + Wait + Clone + Drop + Send + 'static>(
        &mut self,
        rt: &R,
        alloc: &Heap,
    ) -> Result<Running<S>, StartFault>
        ensures pumps { IfOk result (λ running. running.pumps.items ≡ self.old.pumps.items) }
        ensures drainers { IfOk result (λ running. map (λ drainer. drainer.handle.promise.0.value) running.drainers.items ≡ self.old.drainers.items) }
        ensures others { (self.new.leaves ≡ self.old.leaves) × (self.new.desks ≡ self.old.desks) }
        ensures fault { IfErr result (CannotRun (vec_len self.old.pumps) (vec_len self.old.drainers)) }
    {
        let mut running = Running::new(alloc, self.pumps.len(), self.drainers.len())?;
        start_pumps(rt, &mut self.pumps, &mut running.pumps)?;
        start_drainers(rt, &mut self.drainers, &mut running.drainers)?;
        Ok(running)
    }
}

// The parts of the server that a configuration asks for. Its drainers keep what their sinks leave or not.
pub(crate) fn wire<S: Sink>(
    alloc: &Heap,
    config: &Config,
    keeps: bool,
) -> Result<Wired<S>, StartFault>
    ensures wired { IfOk result (λ wired. (w : Wiring S) × (hubs : List HubView) × IsWired config.now w hubs keeps (joined_parts wired.pumps.items wired.drainers.items wired.leaves.items wired.desks.items)) }
    ensures fault { IfErr result (NoMemoryIn config.now) }
{
    let mut boxes = open_boxes(alloc, config)?;
    let Ok(mut wired) = Wired::room(alloc, config) else {
        return Err(StartFault::memory(Role::Pump, 0));
    };
    join(alloc, config, &mut boxes, &mut wired, keeps)?;
    Ok(wired)
}

// Opens the boxes that a configuration asks for.
fn open_boxes<S: Drop>(alloc: &Heap, config: &Config) -> Result<Boxes<S>, StartFault>
    ensures opened { IfOk result (λ boxes. (w : Wiring S) × AreOpenFor config.now w boxes) }
    ensures fault { IfErr result (NoMemoryIn config.now) }
{
    let count = config.subjects.len();
    let drainers = config.drainers as usize;
    let desks = desk_count(config);
    let senders = desks as u32 + config.drainers as u32;
    let capacity = drainer_capacity(config);
    Ok(Boxes {
        subjects: open_all(alloc, Role::Pump, count, SUBJECT_CAPACITY, senders)?,
        drainers: open_all(alloc, Role::Drainer, drainers, capacity, count as u32 + 1)?,
        replies: open_all(alloc, Role::Worker, desks, count, count as u32)?,
    })
}

// Makes the parts of these boxes.
fn join<S: Sink>(
    alloc: &Heap,
    config: &Config,
    boxes: &mut Boxes<S>,
    wired: &mut Wired<S>,
    keeps: bool,
) -> Result<(), StartFault>
    requires boxes { (w : Wiring S) × AreOpenFor config.now w boxes.old }
    requires rooms { IsEmptyFor config.now wired.old }
    ensures wired { OnOk result ((w : Wiring S) × (hubs : List HubView) × IsWired config.now w hubs keeps (joined_parts wired.new.pumps.items wired.new.drainers.items wired.new.leaves.items wired.new.desks.items)) }
    ensures fault { IfErr result (NoMemoryIn config.now) }
{
    let hubs = make_hubs(alloc, &config.subjects)?;
    let mut hubs = hubs.into_iter();
    make_pumps(
        alloc,
        &mut hubs,
        &mut boxes.subjects.inboxes,
        &mut boxes.drainers.rows,
        &mut boxes.replies.rows,
        &mut wired.pumps,
    )?;
    put_ports(&mut boxes.drainers.rows, &mut wired.leaves);
    make_desks(
        alloc,
        &mut boxes.replies.inboxes,
        &mut boxes.subjects.rows,
        &mut wired.desks,
    )?;
    make_drainers(
        alloc,
        &mut boxes.drainers.inboxes,
        &mut boxes.subjects.rows,
        &mut wired.drainers,
        keeps,
    )?;
    Ok(())
}

// How many letters the box of a drainer holds.
fn drainer_capacity(config: &Config) -> usize
    ensures capacity { result ≡ drainer_capacity config.now }
    ensures most { result ≤ 65536 }
{
    let observers = most_observers(&config.subjects) as usize;
    let asked = config.subjects.len() * observers;
    2 * asked * (config.window as usize + 2) + desk_count(config)
}

// How many desks a server has: one for each worker, and behind these one for its face, if it has one.
fn desk_count(config: &Config) -> usize
    ensures count { result ≡ desk_count config.now }
    ensures most { result ≤ 33 }
{
    match config.http {
        Some(_) => config.workers as usize + 1,
        None => config.workers as usize,
    }
}

// The most observers that one of the subjects takes.
fn most_observers(subjects: &Vec<SubjectConfig, Heap>) -> u32
    ensures most { result ≡ most_observers subjects.now.items }
    ensures bound { result ≤ 64 }
{
    let mut most = 0;
    for subject in subjects {
        most = most.max(subject.rules.limits.observers);
    }
    most
}
