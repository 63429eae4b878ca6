// How a server is closed: its desks and leave ports end, and its threads are joined.
//
// `close` asks that the ended desks are the server's own, since no box can be compared while a program runs. A port that came
// back twice, or none, is found all the same, and told as `Unsettled`.
//
// The Byes that are left in the boxes of replies are received only where every thread ended well. An ended port keeps its
// sender, so after a fault a receiver could wait for ever.
//
// What a close needs is made at the start: room for each port of each box, and for each box that settles. So a close takes no
// memory, and has no fault of that kind.
ghost use Rattle.std.specs.Prelude.{◌≡◌, ◌+◌, ◌<◌, ◌≤◌, [], List, length, map, vec_len, vec_capacity, MatchResult};
ghost use Rattle.std.specs.List.{All, AllZip};
ghost use Rattle.std.specs.Vec.Iter.{into_iter_items};
ghost use Rattle.rx_pump.specs.Desks.{DeskView};
ghost use Rattle.rx_pump.specs.Serving as pump_serving;
ghost use Rattle.rx_drain.specs.Serving as drainer_serving;
ghost use Rattle.rx_server.specs.Ends.{Keeps, NamesFirst};
ghost use Rattle.rx_server.specs.Servers.{EndsMore, EndsEach, IsDeskOf};

pub(crate) mod close_fault;
pub(crate) mod report;
pub(crate) mod report_lines;
pub(crate) mod returned;
pub(crate) mod rooms;
pub(crate) mod settled_boxes;

use crate::close::close_fault::CloseFault;
use crate::close::report::Report;
use crate::server::Server;
use crate::wired::running_pump::RunningPump;
use crate::wired::start_fault::Role;
use rx_drain::{DrainEnd, RunningDrainer};
use rx_heap::Heap;
use rx_mailbox::finish_all;
use rx_pump::{CallDesk, EndedDesk, PumpEnd};
use rx_sink::Sink;
use std::sync::Wait;
use std::thread::Threads;
use std::vec::IntoIter;

impl<S: Sink> Server<S> {
    ghost use Rattle.rx_server.specs.Servers.{Closes, Fails, IsEndOf};

    /// Ends the desks that were not handed out, and waits until each subject heard that all desks ended and what waits for observers
    /// has gone to their sinks; but where nothing moves for a quarter of a second, a sink takes nothing, and that is given up, or where
    /// [`Server::wait_within`] waited for it already. Then it
    /// tells the drainers to leave, waits until all threads have ended, receives what is still in the boxes of the desks, settles
    /// each box that `start` made, and reports. Handed in are the desks that were handed out, each ended. One that was let go
    /// instead has ended too, but is missing.
    ///
    /// # Errors
    ///
    /// `Ended`: a thread ended by a fault of its own, the first such pump, else the first such drainer; all threads have ended
    /// then too. `Unsettled`: all served to their end, and not each desk of the server came back once, since one that was handed
    /// out was not handed in, or is gone; it names the first pump. Where each did, a report is answered.
    pub fn close<R: Threads + Wait>(
        self,
        rt: &R,
        ended: Vec<EndedDesk<S>, Heap>,
    ) -> Result<Report<S>, CloseFault>
        requires { All (IsEndOf self.made) ended.items }
        ensures { MatchResult result (Closes S.acts self ended.items) (Fails S.acts self ended.items) }
    {
        let grace = self.grace;
        let (running, mut leaves, mut desks, mut rooms) = self.into_parts();
        finish_desks(rt, &mut desks, &mut rooms.desks);
        let _left = running.wait(rt, grace);
        let told = finish_all(rt, &mut leaves, &mut rooms.leaves);
        running.join(rt, &mut rooms)?;
        match told {
            Ok(()) => rooms.settle(rt, ended),
            Err(_) => {
                // A drainer that served to its end received the Bye of each of its ports, so each of these has ended.
                let Some(port) = leaves.pop() else {
                    unreachable!()
                };
                let Some(drainer) = rooms.drainers.pop() else {
                    unreachable!()
                };
                let DrainEnd { mut inbox, .. } = drainer;
                inbox.show_open(port);
                unreachable!()
            }
        }
    }
}

// Ends the desks, and puts them behind what was ended: until the pumps have ended, replies may be on their way to them. One
// whose subject is gone is given up: its pump ended by a fault, which is found when it is joined.
pub(crate) fn finish_desks<S: Drop, R: Wait>(
    rt: &R,
    desks: &mut IntoIter<CallDesk<S>, Heap>,
    ended: &mut Vec<EndedDesk<S>, Heap>,
)
    requires { vec_len ended.old + length (into_iter_items desks.old) ≤ vec_capacity ended.old }
    ensures none { into_iter_items desks.new ≡ [] }
    ensures each { EndsEach (into_iter_items desks.old) ended.old.items ended.new.items }
    ensures own { (made : List (DeskView S)) → All (IsDeskOf made) (into_iter_items desks.old) → EndsMore made ended.old.items ended.new.items }
{
    while let Some(desk) = desks.next() {
        if let Ok(desk) = desk.finish(rt) {
            ended.push_reserved(desk);
        }
    }
}

// Waits until each pump has ended, and puts what they left into `ends`.
pub(crate) fn join_pumps<S: Sink, R: Threads>(
    rt: &R,
    pumps: &mut Vec<RunningPump<S>, Heap>,
    ends: &mut Vec<PumpEnd<S>, Heap>,
) -> Result<(), CloseFault>
    requires empty { ends.old.items ≡ [] }
    requires room { vec_len pumps.old ≤ vec_capacity ends.old }
    ensures { MatchResult result
        (λ _. AllZip pump_serving.HasPumped pumps.old.items ends.new.items)
        (NamesFirst pump_serving.HasPumped pump_serving.PumpHasFailed Role.Pump pumps.old.items) }
{
    let mut fault = None;
    pumps.reverse();
    while let Some(running) = pumps.pop() {
        keep(Role::Pump, running.join(rt), ends, &mut fault);
    }
    match fault {
        None => Ok(()),
        Some(fault) => Err(fault),
    }
}

// Waits until each drainer has ended, and puts what they left into `ends`.
pub(crate) fn join_drainers<S: Sink, R: Threads>(
    rt: &R,
    drainers: &mut Vec<RunningDrainer<S>, Heap>,
    ends: &mut Vec<DrainEnd<S>, Heap>,
) -> Result<(), CloseFault>
    requires empty { ends.old.items ≡ [] }
    requires room { vec_len drainers.old ≤ vec_capacity ends.old }
    ensures { MatchResult result
        (λ _. AllZip (drainer_serving.HasDrained S.acts) (map (λ drainer. drainer.handle.promise.0.value) drainers.old.items) ends.new.items)
        (NamesFirst (drainer_serving.HasDrained S.acts) (drainer_serving.DrainerHasFailed S.acts) Role.Drainer (map (λ drainer. drainer.handle.promise.0.value) drainers.old.items)) }
{
    let mut fault = None;
    drainers.reverse();
    while let Some(running) = drainers.pop() {
        keep(Role::Drainer, running.join(rt), ends, &mut fault);
    }
    match fault {
        None => Ok(()),
        Some(fault) => Err(fault),
    }
}

// Keeps what one more thread of a role left, unless one before it ended by a fault.
fn keep<E: Drop, F: Drop>(
    role: Role,
    joined: Result<E, F>,
    ends: &mut Vec<E, Heap>,
    fault: &mut Option<CloseFault>,
)
    requires { vec_len ends.old < vec_capacity ends.old }
    ensures kept { Keeps role joined ends.old.items fault.old ends.new.items fault.new }
    ensures room { vec_len ends.new ≤ vec_len ends.old + 1 }
    ensures capacity { vec_capacity ends.new ≡ vec_capacity ends.old }
{
    if fault.is_some() {
        return;
    }
    match joined {
        Ok(end) => ends.push_reserved(end),
        Err(_) => *fault = Some(CloseFault::ended(role, ends.len())),
    }
}
