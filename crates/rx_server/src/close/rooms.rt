// Room for what is left when a server is closed.
ghost use Rattle.std.specs.Prelude.{◌≡◌, ◌+◌, ◌++◌, ◌^◌, ◌<◌, [], length, map, IfErr, IfOk};
ghost use Rattle.std.specs.List.{sum_by};
ghost use Rattle.rx_pump.specs.Pumps.{counted};
ghost use Rattle.rx_server.specs.Returning.{CameTwice, HaveComeBack, HaveSettledSo, Unsettles};
ghost use Rattle.rx_server.specs.Servers.{HaveSettled, Reports, report_of};
ghost use Rattle.rx_server.specs.Wirings.{Wiring};

use crate::close::close_fault::{CloseCause, CloseFault};
use crate::close::report::{Report, SubjectReport};
use crate::close::returned::{Returned, return_desks, return_drainers, return_pumps};
use crate::close::settled_boxes::SettledBoxes;
use crate::wired::start_fault::Role;
use rx_drain::DrainEnd;
use rx_heap::{Heap, Memory, room};
use rx_mailbox::{EndedPort, deal};
use rx_pump::{EndedDesk, Out, PumpEnd};
use rx_sink::{Rests, Sink};
use std::sync::Wait;

// It is taken when the server starts, so that its close finds it.
pub(crate) struct Rooms<S: Sink> {
    // The desks of workers that have ended, with room for those that are left.
    pub(crate) desks: Vec<EndedDesk<S>, Heap>,
    pub(crate) leaves: Vec<EndedPort<Out<S>>, Heap>,
    pub(crate) pumps: Vec<PumpEnd<S>, Heap>,
    pub(crate) drainers: Vec<DrainEnd<S>, Heap>,
    pub(crate) subjects: Vec<SubjectReport, Heap>,
    pub(crate) put_away: Vec<Rests<S::Rest>, Heap>,
    pub(crate) returned: Returned<S>,
    pub(crate) settled: SettledBoxes<S>,
}

// By hand: rx_heap says why.
impl<S: Sink> Drop for Rooms<S> {
    fn drop(self) {
        let Rooms {
            desks: _,
            leaves: _,
            pumps: _,
            drainers: _,
            subjects: _,
            put_away: _,
            returned: _,
            settled: _,
        } = self;
    }
}

// What is told of pumps and drainers that have ended, and the parts of all boxes, with room for those that settle.
#[derive(Drop)]
struct Collected<S: Sink> {
    subjects: Vec<SubjectReport, Heap>,
    taken: u64,
    put_away: Vec<Rests<S::Rest>, Heap>,
    returned: Returned<S>,
    settled: SettledBoxes<S>,
}

impl<S: Sink> Rooms<S> {
    ghost use Rattle.rx_server.specs.Leaving.{HasLeft};
    ghost use Rattle.rx_server.specs.Rooms.{AreRooms};

    // Room for what so many pumps, drainers and desks leave.
    pub(crate) fn new(
        alloc: &Heap,
        pumps: usize,
        drainers: usize,
        desks: usize,
    ) -> Result<Rooms<S>, Memory>
        requires { (desks + drainers < 2 ^ 64) × (pumps + 1 < 2 ^ 64) }
        ensures rooms { IfOk result (AreRooms pumps drainers desks desks) }
        ensures no_desk { IfOk result (λ rooms. rooms.desks.items ≡ []) }
    {
        Ok(Rooms {
            desks: room(alloc, desks)?,
            leaves: room(alloc, drainers)?,
            pumps: room(alloc, pumps)?,
            drainers: room(alloc, drainers)?,
            subjects: room(alloc, pumps)?,
            put_away: room(alloc, drainers)?,
            returned: Returned::room(alloc, pumps, drainers, desks)?,
            settled: SettledBoxes::room(alloc, pumps, drainers, desks)?,
        })
    }

    // Settles each box, and reports. Handed in are the desks that were handed out, each ended.
    pub(crate) fn settle<R: Wait>(
        self,
        rt: &R,
        ended: Vec<EndedDesk<S>, Heap>,
    ) -> Result<Report<S>, CloseFault>
        requires { (w : Wiring S) × HasLeft w self ended.items }
        ensures settled { IfOk result (λ report. HaveSettled report.boxes self.leaves.items (ended.items ++ self.desks.items) self.pumps.items self.drainers.items) }
        ensures by_calls { IfOk result (λ report. HaveSettledSo (length self.returned.replies.items) self.leaves.items (ended.items ++ self.desks.items) self.pumps.items self.drainers.items report.boxes.subjects.items) }
        ensures reports { IfOk result (λ report. Reports report self.pumps.items self.drainers.items) }
        ensures fault { IfErr result (Unsettles (length self.returned.replies.items) self.leaves.items (ended.items ++ self.desks.items) self.pumps.items self.drainers.items) }
    {
        let all = self.collect(ended)?;
        let boxes = all.returned.settle(rt, all.settled)?;
        Ok(Report {
            subjects: all.subjects,
            taken: all.taken,
            put_away: all.put_away,
            boxes,
        })
    }

    // Puts all that is left back to its boxes. `Err` where a desk came back twice.
    fn collect(self, ended: Vec<EndedDesk<S>, Heap>) -> Result<Collected<S>, CloseFault>
        requires { (w : Wiring S) × HasLeft w self ended.items }
        ensures came { IfOk result (λ all. HaveComeBack self.returned self.leaves.items (ended.items ++ self.desks.items) self.pumps.items self.drainers.items
            all.returned.subjects.items all.returned.drainers.items all.returned.replies.items) }
        ensures settled { IfOk result (λ all. all.settled ≡ self.settled) }
        ensures subjects { IfOk result (λ all. all.subjects.items ≡ map report_of self.pumps.items) }
        ensures taken { IfOk result (λ all. all.taken ≡ counted (sum_by (λ end. end.taken) self.drainers.items)) }
        ensures put_away { IfOk result (λ all. all.put_away.items ≡ map (λ end. end.put_away) self.drainers.items) }
        ensures twice { IfErr result (λ fault. (fault ≡ record { thread = Role.Pump; index = 0; cause = CloseCause.Unsettled }) × CameTwice (ended.items ++ self.desks.items)) }
    {
        let Rooms {
            desks,
            leaves,
            pumps,
            drainers,
            subjects,
            put_away,
            mut returned,
            settled,
        } = self;
        let subjects = return_pumps(
            pumps,
            subjects,
            &mut returned.subjects,
            &mut returned.drainers,
            &mut returned.replies,
        );
        let (taken, put_away) = return_drainers(
            drainers,
            put_away,
            &mut returned.subjects,
            &mut returned.drainers,
        );
        let Ok(()) = deal(leaves, &mut returned.drainers) else {
            unreachable!()
        };
        return_desks(ended, &mut returned.subjects, &mut returned.replies)?;
        return_desks(desks, &mut returned.subjects, &mut returned.replies)?;
        Ok(Collected {
            subjects,
            taken,
            put_away,
            returned,
            settled,
        })
    }
}
