// What came back of the boxes of a server that is closed.
ghost use Rattle.std.specs.Prelude.{◌≡◌, ◌+◌, ◌^◌, ◌<◌, ◌≤◌, [], length, map, vec_capacity, vec_len, IfErr, IfOk, MatchResult, None, OnOk};
ghost use Rattle.std.specs.List.{All, AllZip, sum_by};
ghost use Rattle.rx_pump.specs.Pumps.{counted};
ghost use Rattle.rx_server.specs.Returning.{ComesAgain, HaveReturned, IsUnsettledAt, number_of};
ghost use Rattle.rx_server.specs.Servers.{report_of};
ghost use Rattle.rx_mailbox.specs.Parts.{AreOfOneBox, HasRoom, Settles, dealt_each, with_inboxes, missing};

use crate::close::close_fault::{CloseCause, CloseFault};
use crate::close::report::SubjectReport;
use crate::close::settled_boxes::SettledBoxes;
use crate::wired::start_fault::Role;
use rx_drain::DrainEnd;
use rx_heap::{Heap, Memory};
use rx_mailbox::{BoxParts, EndedPort, deal, parts_of, put_inbox, settle_each};
use rx_pump::{Call, EndedDesk, Out, PumpEnd, Reply};
use rx_sink::{Rests, Sink};
use std::sync::Wait;

// The parts of the boxes of the subjects, of the drainers, and of the replies to the desks.
pub(crate) struct Returned<S: Drop> {
    pub(crate) subjects: Vec<BoxParts<Call<S>>, Heap>,
    pub(crate) drainers: Vec<BoxParts<Out<S>>, Heap>,
    pub(crate) replies: Vec<BoxParts<Reply<S>>, Heap>,
}

// By hand: rx_heap says why.
impl<S: Drop> Drop for Returned<S> {
    fn drop(self) {
        let Returned {
            subjects: _,
            drainers: _,
            replies: _,
        } = self;
    }
}

impl<S: Drop> Returned<S> {
    ghost use Rattle.rx_server.specs.Returning.{AreEmpty};
    ghost use Rattle.rx_server.specs.Rooms.{HoldBoxes};

    // Nothing yet, and room for what comes back of so many: to a subject send the desks and the drainers, to a drainer the pumps
    // and the one that tells it to leave, and to a desk the pumps.
    pub(crate) fn room(
        alloc: &Heap,
        subjects: usize,
        drainers: usize,
        desks: usize,
    ) -> Result<Returned<S>, Memory>
        requires { (desks + drainers < 2 ^ 64) × (subjects + 1 < 2 ^ 64) }
        ensures { IfOk result (AreEmpty subjects drainers desks) }
    {
        Ok(Returned {
            subjects: parts_of(alloc, subjects, desks + drainers)?,
            drainers: parts_of(alloc, drainers, subjects + 1)?,
            replies: parts_of(alloc, desks, subjects)?,
        })
    }

    // Settles each box: those of the subjects, of the drainers, and of the replies.
    pub(crate) fn settle<R: Wait>(
        self,
        rt: &R,
        boxes: SettledBoxes<S>,
    ) -> Result<SettledBoxes<S>, CloseFault>
        requires room { HoldBoxes (length self.subjects.items) (length self.drainers.items) (length self.replies.items) boxes }
        requires subjects { All AreOfOneBox self.subjects.items }
        requires drainers { All AreOfOneBox self.drainers.items }
        requires replies { All AreOfOneBox self.replies.items }
        ensures subjects { IfOk result (λ boxes. AllZip Settles self.subjects.items boxes.subjects.items) }
        ensures drainers { IfOk result (λ boxes. AllZip Settles self.drainers.items boxes.drainers.items) }
        ensures replies { IfOk result (λ boxes. AllZip Settles self.replies.items boxes.replies.items) }
        ensures fault { IfErr result (λ fault. (fault.cause ≡ CloseCause.Unsettled) × IsUnsettledAt fault.thread fault.index self.subjects.items self.drainers.items self.replies.items) }
    {
        let Returned {
            subjects,
            drainers,
            replies,
        } = self;
        let mut boxes = boxes;
        if let Err(place) = settle_each(rt, subjects, &mut boxes.subjects) {
            return Err(CloseFault::unsettled(Role::Pump, place));
        }
        if let Err(place) = settle_each(rt, drainers, &mut boxes.drainers) {
            return Err(CloseFault::unsettled(Role::Drainer, place));
        }
        if let Err(place) = settle_each(rt, replies, &mut boxes.replies) {
            return Err(CloseFault::unsettled(Role::Worker, place));
        }
        Ok(boxes)
    }
}

// Desks that have ended came back: their ports to the boxes of the subjects, and their inboxes. `Err` where one of them had come
// back before: so the box of each subject has its port twice, and the first of them is told.
pub(crate) fn return_desks<S: Drop>(
    desks: Vec<EndedDesk<S>, Heap>,
    subjects: &mut Vec<BoxParts<Call<S>>, Heap>,
    replies: &mut Vec<BoxParts<Reply<S>>, Heap>,
) -> Result<(), CloseFault>
    requires ports { All (λ desk. length desk.ports.items ≡ length subjects.old.items) desks.items }
    requires numbers { All (λ desk. number_of desk.ports.items < length replies.old.items) desks.items }
    requires room { All (HasRoom (missing replies.old.items)) subjects.old.items }
    ensures returned { MatchResult result
        (λ _. HaveReturned desks.items subjects.old.items subjects.new.items replies.old.items replies.new.items)
        (λ fault. (fault ≡ record { thread = Role.Pump; index = 0; cause = CloseCause.Unsettled }) × ComesAgain replies.old.items desks.items) }
    ensures room { OnOk result (All (HasRoom (missing replies.new.items)) subjects.new.items) }
{
    for desk in desks {
        let EndedDesk { ports, inbox } = desk;
        let number = number_of(&ports);
        let Ok(()) = put_inbox(inbox, number, replies) else {
            return Err(CloseFault::unsettled(Role::Pump, 0));
        };
        let Ok(()) = deal(ports, subjects) else {
            unreachable!()
        };
    }
    Ok(())
}

// The number of a desk among those that were made: its ports have it.
fn number_of<S: Drop>(ports: &Vec<EndedPort<Call<S>>, Heap>) -> usize
    ensures { result ≡ number_of ports.now.items }
{
    match ports.first() {
        Some(port) => port.number() as usize,
        None => 0,
    }
}

// What pumps left came back: their inboxes, and their ports to the boxes of the drainers and of the replies. It answers what is
// reported of them.
pub(crate) fn return_pumps<S: Sink>(
    ends: Vec<PumpEnd<S>, Heap>,
    reports: Vec<SubjectReport, Heap>,
    subjects: &mut Vec<BoxParts<Call<S>>, Heap>,
    drainers: &mut Vec<BoxParts<Out<S>>, Heap>,
    replies: &mut Vec<BoxParts<Reply<S>>, Heap>,
) -> Vec<SubjectReport, Heap>
    requires empty { reports.items ≡ [] }
    requires room { vec_len ends ≤ vec_capacity reports }
    requires count { length ends.items ≤ length subjects.old.items }
    requires inboxes { All (λ parts. parts.inbox ≡ None) subjects.old.items }
    requires drainers { All (λ end. length end.drainers.items ≡ length drainers.old.items) ends.items }
    requires drainers_fit { All (HasRoom (length ends.items)) drainers.old.items }
    requires replies { All (λ end. length end.replies.items ≡ length replies.old.items) ends.items }
    requires replies_fit { All (HasRoom (length ends.items)) replies.old.items }
    ensures reports { result.items ≡ map report_of ends.items }
    ensures subjects { subjects.new.items ≡ with_inboxes (map (λ end. end.inbox) ends.items) subjects.old.items }
    ensures drainers { drainers.new.items ≡ dealt_each (map (λ end. end.drainers.items) ends.items) drainers.old.items }
    ensures replies { replies.new.items ≡ dealt_each (map (λ end. end.replies.items) ends.items) replies.old.items }
{
    let mut reports = reports;
    for end in ends {
        let place = reports.len();
        reports.push_reserved(report_of(&end));
        let PumpEnd {
            inbox,
            drainers: outs,
            replies: answers,
            ..
        } = end;
        let Ok(()) = put_inbox(inbox, place, subjects) else {
            unreachable!()
        };
        let Ok(()) = deal(outs, drainers) else {
            unreachable!()
        };
        let Ok(()) = deal(answers, replies) else {
            unreachable!()
        };
    }
    reports
}

// What is reported of a pump.
fn report_of<S: Sink>(end: &PumpEnd<S>) -> SubjectReport
    ensures { result ≡ report_of end.now }
{
    SubjectReport {
        calls: end.calls,
        refused: end.refused,
        joins: end.hub.joins(),
    }
}

// What drainers left came back: their inboxes, and their ports to the boxes of the subjects. It answers how many notes their
// sinks took, and what those left.
pub(crate) fn return_drainers<S: Sink>(
    ends: Vec<DrainEnd<S>, Heap>,
    lists: Vec<Rests<S::Rest>, Heap>,
    subjects: &mut Vec<BoxParts<Call<S>>, Heap>,
    drainers: &mut Vec<BoxParts<Out<S>>, Heap>,
) -> (u64, Vec<Rests<S::Rest>, Heap>)
    requires empty { lists.items ≡ [] }
    requires room { vec_len ends ≤ vec_capacity lists }
    requires count { length ends.items ≤ length drainers.old.items }
    requires inboxes { All (λ parts. parts.inbox ≡ None) drainers.old.items }
    requires ports { All (λ end. length end.ports.items ≡ length subjects.old.items) ends.items }
    requires ports_fit { All (HasRoom (length ends.items)) subjects.old.items }
    ensures taken { result.0 ≡ counted (sum_by (λ end. end.taken) ends.items) }
    ensures put_away { result.1.items ≡ map (λ end. end.put_away) ends.items }
    ensures drainers { drainers.new.items ≡ with_inboxes (map (λ end. end.inbox) ends.items) drainers.old.items }
    ensures subjects { subjects.new.items ≡ dealt_each (map (λ end. end.ports.items) ends.items) subjects.old.items }
{
    let mut lists = lists;
    let mut taken: u64 = 0;
    for end in ends {
        let place = lists.len();
        let DrainEnd {
            inbox,
            ports,
            put_away,
            places,
            taken: more,
        } = end;
        drop(places);
        taken = taken.saturating_add(more);
        lists.push_reserved(put_away);
        let Ok(()) = put_inbox(inbox, place, drainers) else {
            unreachable!()
        };
        let Ok(()) = deal(ports, subjects) else {
            unreachable!()
        };
    }
    (taken, lists)
}
