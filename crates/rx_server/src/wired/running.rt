// What runs of a server.
ghost use Rattle.std.specs.Prelude.{◌≡◌, ◌<◌, ◌⊎◌, ◌≤◌, [], IfErr, IfOk, OnErr, OnOk, length, map, vec_len, vec_capacity};
ghost use Rattle.std.specs.List.{AllZip};
ghost use Rattle.rx_pump.specs.Serving as pump_serving;
ghost use Rattle.rx_drain.specs.Serving as drainer_serving;
ghost use Rattle.rx_server.specs.Rooms.{KeepsRooms};
ghost use Rattle.rx_server.specs.Servers.{IsFirst};
ghost use Rattle.rx_server.specs.Starting.{NoMemoryFor, NoThreadFor};

use crate::close::close_fault::{CloseCause, CloseFault};
use crate::close::rooms::Rooms;
use crate::close::{join_drainers, join_pumps};
use crate::wired::running_pump::{RunningPump, start_pump};
use crate::wired::start_fault::{Role, StartFault};
use rx_drain::{Drainer, RunningDrainer, start_drainer};
use rx_heap::{Heap, Memory, room};
use rx_pump::{Grace, Pump, SharedLook};
use rx_sink::Sink;
use std::sync::Wait;
use std::thread::Threads;

// Pumps and drainers, each in a thread of its own.
pub(crate) struct Running<S: Sink> {
    pub(crate) pumps: Vec<RunningPump<S>, Heap>,
    pub(crate) drainers: Vec<RunningDrainer<S>, Heap>,
}

// By hand: rx_heap says why.
impl<S: Sink> Drop for Running<S> {
    fn drop(self) {
        let Running {
            pumps: _,
            drainers: _,
        } = self;
    }
}

impl<S: Sink> Running<S> {
    // None yet, and room for so many.
    pub(crate) fn new(alloc: &Heap, pumps: usize, drainers: usize) -> Result<Running<S>, StartFault>
        ensures no_pump { IfOk result (λ running. running.pumps.items ≡ []) }
        ensures no_drainer { IfOk result (λ running. running.drainers.items ≡ []) }
        ensures room { IfOk result (λ running. (pumps ≤ vec_capacity running.pumps) × (drainers ≤ vec_capacity running.drainers)) }
        ensures fault { IfErr result (λ fault. NoMemoryFor Role.Pump 0 fault ⊎ NoMemoryFor Role.Drainer 0 fault) }
    {
        let Ok(pumps) = room(alloc, pumps) else {
            return Err(StartFault::memory(Role::Pump, 0));
        };
        let Ok(drainers) = room(alloc, drainers) else {
            return Err(StartFault::memory(Role::Drainer, 0));
        };
        Ok(Running { pumps, drainers })
    }

    // Waits until each pump heard that all desks ended, which end their ports or are let go, and until what waits has gone to who
    // takes it, but no longer than by this grace. It answers what is left of that.
    pub(crate) fn wait<R: Wait>(&self, rt: &R, grace: Grace) -> Grace {
        let mut grace = grace;
        for pump in &self.pumps {
            grace = pump.wait(rt, grace);
        }
        grace
    }

    // What shows each subject, in their order.
    pub(crate) fn shown(&self, alloc: &Heap) -> Result<Vec<SharedLook, Heap>, Memory> {
        let mut shown = Vec::new(alloc.clone()?);
        for pump in &self.pumps {
            let Some(look) = pump.shown() else {
                return Err(Memory);
            };
            shown.push(look)?;
        }
        Ok(shown)
    }

    // Waits until each thread has ended, and puts what they left into the rooms. `Err`: the first pump that ended by a fault
    // of its own, else the first such drainer.
    pub(crate) fn join<R: Threads>(self, rt: &R, rooms: &mut Rooms<S>) -> Result<(), CloseFault>
        requires no_pump { rooms.old.pumps.items ≡ [] }
        requires no_drainer { rooms.old.drainers.items ≡ [] }
        requires pumps { vec_len self.pumps ≤ vec_capacity rooms.old.pumps }
        requires drainers { vec_len self.drainers ≤ vec_capacity rooms.old.drainers }
        ensures pumped { OnOk result (AllZip pump_serving.HasPumped self.pumps.items rooms.new.pumps.items) }
        ensures drained { OnOk result (AllZip (drainer_serving.HasDrained S.acts) (map (λ drainer. drainer.handle.promise.0.value) self.drainers.items) rooms.new.drainers.items) }
        ensures failed { IfErr result (λ fault. (fault.cause ≡ CloseCause.Ended)
            × IsFirst S.acts self.pumps.items (map (λ drainer. drainer.handle.promise.0.value) self.drainers.items) fault.thread fault.index) }
        ensures others { KeepsRooms rooms.old rooms.new }
    {
        let mut running = self;
        let pumped = join_pumps(rt, &mut running.pumps, &mut rooms.pumps);
        let drained = join_drainers(rt, &mut running.drainers, &mut rooms.drainers);
        match pumped {
            Ok(()) => drained,
            Err(fault) => Err(fault),
        }
    }
}

// Starts each pump in a thread of its own. At an `Err` those that did not start are left.
pub(crate) fn start_pumps<
    S: Drop + Send + 'static,
    R: Threads + Wait + Clone + Drop + Send + 'static,
>(
    rt: &R,
    pumps: &mut Vec<Pump<S>, Heap>,
    running: &mut Vec<RunningPump<S>, Heap>,
) -> Result<(), StartFault>
    requires none { running.old.items ≡ [] }
    requires room { vec_len pumps.old ≤ vec_capacity running.old }
    ensures started { OnOk result (running.new.items ≡ pumps.old.items) }
    ensures fault { IfErr result (NoThreadFor Role.Pump (vec_len running.new)) }
    ensures fewer { OnErr result (vec_len running.new < vec_len pumps.old) }
{
    pumps.reverse();
    while let Some(pump) = pumps.pop() {
        let Ok(one) = start_pump(rt, pump) else {
            return Err(StartFault::no_thread(Role::Pump, running.len()));
        };
        running.push_reserved(one);
    }
    Ok(())
}

// Starts each drainer in a thread of its own. At an `Err` those that did not start are left.
pub(crate) fn start_drainers<
    S: Sink + Send + 'static,
    R: Threads + Wait + Clone + Drop + Send + 'static,
>(
    rt: &R,
    drainers: &mut Vec<Drainer<S>, Heap>,
    running: &mut Vec<RunningDrainer<S>, Heap>,
) -> Result<(), StartFault>
where
    S::Rest: Send + 'static,
    requires none { running.old.items ≡ [] }
    requires room { vec_len drainers.old ≤ vec_capacity running.old }
    ensures started { OnOk result (map (λ drainer. drainer.handle.promise.0.value) running.new.items ≡ drainers.old.items) }
    ensures fault { IfErr result (NoThreadFor Role.Drainer (vec_len running.new)) }
    ensures fewer { OnErr result (vec_len running.new < vec_len drainers.old) }
{
    drainers.reverse();
    while let Some(drainer) = drainers.pop() {
        let Ok(one) = start_drainer(rt, drainer) else {
            return Err(StartFault::no_thread(Role::Drainer, running.len()));
        };
        running.push_reserved(one);
    }
    Ok(())
}
