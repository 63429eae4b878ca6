// The parts of a server, made of new boxes.
//
// The parts of a server go into room that was made before them, and its loops take what they are made of from lists that they
// do not own. So no loop has a way out on which lists are let go, and those ways were the other part. A server is started and
// closed in steps that own one part each, for the same reason: what a function costs to prove grows with the types that it
// reaches times the ways out on which it lets something go.
ghost use Rattle.std.specs.Prelude.{◌≡◌, ◌+◌, ◌<◌, ◌≤◌, ◌++◌, ◌∷◌, [], length, map, vec_len, vec_capacity, IfErr, IfOk, OnErr, OnOk, true};
ghost use Rattle.std.specs.List.{All, enumerate_from, zip};
ghost use Rattle.std.specs.Vec.Iter.{into_iter_items};
ghost use Rattle.rx_history.specs.Histories.{NoEvents};
ghost use Rattle.rx_hub.specs.Hubs.{HubView, StandsFor};
ghost use Rattle.rx_pump.specs.Desks.{fresh_desk};
ghost use Rattle.rx_pump.specs.Pumps.{fresh_pump};
ghost use Rattle.rx_drain.specs.Drainers.{fresh_drainer};
ghost use Rattle.rx_server.specs.Starting.{NoMemoryBelow, NoMemoryFor};
ghost use Rattle.rx_server.specs.Wirings.{AreHubsOf, behind, next_port, row_ports};

use crate::wired::port_row::{PortRow, next_ports};
use crate::wired::start_fault::{Role, StartFault};
use rx_config::SubjectConfig;
use rx_drain::Drainer;
use rx_heap::{Heap, Memory, room};
use rx_hub::{Hub, HubError};
use rx_mailbox::{Inbox, Port};
use rx_note::Kind;
use rx_pump::{Call, CallDesk, Out, Pump, Reply};
use rx_sink::Sink;
use std::vec::IntoIter;

// The hubs of these subjects, in their order. `Err` at the first for which there was no memory.
pub(crate) fn make_hubs(
    alloc: &Heap,
    subjects: &Vec<SubjectConfig, Heap>,
) -> Result<Vec<Hub, Heap>, StartFault>
    requires some { 0 < length subjects.now.items }
    ensures hubs { IfOk result (λ hubs. AreHubsOf subjects.now.items hubs.items) }
    ensures fault { IfErr result (NoMemoryBelow Role.Pump (length subjects.now.items)) }
{
    let Ok(mut hubs) = room(alloc, subjects.len()) else {
        return Err(StartFault::memory(Role::Pump, 0));
    };
    for subject in subjects {
        put_hub(alloc, subject, &mut hubs)?;
    }
    Ok(hubs)
}

// Makes one more hub.
fn put_hub(
    alloc: &Heap,
    subject: &SubjectConfig,
    hubs: &mut Vec<Hub, Heap>,
) -> Result<(), StartFault>
    ensures hub { OnOk result ((hub : HubView) × (hubs.new.items ≡ hubs.old.items ++ hub ∷ []) × (hub.state.rules ≡ subject.now.rules)
        × StandsFor hub.state NoEvents × (hub.misses ≡ 0)) }
    ensures fault { IfErr result (NoMemoryFor Role.Pump (vec_len hubs.old)) }
{
    let fault = StartFault::memory(Role::Pump, hubs.len());
    let Ok(hub) = make_hub(alloc, subject) else {
        return Err(fault);
    };
    match hubs.push(hub) {
        Ok(()) => Ok(()),
        Err(_) => Err(fault),
    }
}

// The hub of a subject, over the memory of its budget, or what the others share.
fn make_hub(alloc: &Heap, subject: &SubjectConfig) -> Result<Hub, Memory>
    ensures rules { IfOk result (λ hub. hub.state.rules ≡ subject.now.rules) }
    ensures stands { IfOk result (λ hub. StandsFor hub.state NoEvents) }
    ensures misses { IfOk result (λ hub. hub.misses ≡ 0) }
{
    let kind = copy_kind(&subject.rules.kind)?;
    match Hub::new(subject.memory(alloc).clone()?, kind, subject.rules.limits) {
        Ok(hub) => Ok(hub),
        Err(HubError::Memory) => Err(Memory),
        Err(HubError::BadLimits) => unreachable!(),
    }
}

// The same kind again; a seed's text is a copy.
fn copy_kind(kind: &Kind) -> Result<Kind, Memory>
    ensures { IfOk result (λ copy. copy ≡ kind.now) }
{
    Ok(match kind {
        Kind::Publish => Kind::Publish,
        Kind::Behavior(None) => Kind::Behavior(None),
        Kind::Behavior(Some(seed)) => Kind::Behavior(Some(seed.copy()?)),
        Kind::Async => Kind::Async,
        Kind::Replay { count, age } => Kind::Replay {
            count: *count,
            age: *age,
        },
    })
}

// One pump for each hub and inbox that is left, with the next port to each drainer and of each reply box. `Err` at the first for
// which there was no memory.
pub(crate) fn make_pumps<S: Drop>(
    alloc: &Heap,
    hubs: &mut IntoIter<Hub, Heap>,
    inboxes: &mut IntoIter<Inbox<Call<S>>, Heap>,
    drainers: &mut Vec<PortRow<Out<S>>, Heap>,
    replies: &mut Vec<PortRow<Reply<S>>, Heap>,
    pumps: &mut Vec<Pump<S>, Heap>,
) -> Result<(), StartFault>
    requires hubs { All (λ hub. StandsFor hub.state NoEvents) (into_iter_items hubs.old) }
    requires inboxes { All (λ inbox. (inbox.received ≡ []) × (length replies.old.items ≤ inbox.ports)) (into_iter_items inboxes.old) }
    requires some { 0 < vec_len drainers.old }
    requires drainers { All (λ row. length (into_iter_items inboxes.old) ≤ row.count) drainers.old.items }
    requires replies { All (λ row. length (into_iter_items inboxes.old) ≤ row.count) replies.old.items }
    requires none { pumps.old.items ≡ [] }
    requires room { length (into_iter_items inboxes.old) ≤ vec_capacity pumps.old }
    ensures pumps { OnOk result (pumps.new.items
        ≡ map (λ x. fresh_pump x.1.0 x.1.1 (row_ports x.0 drainers.old.items) (row_ports x.0 replies.old.items)) (enumerate_from 0 (zip (into_iter_items hubs.old) (into_iter_items inboxes.old)))) }
    ensures drainers { OnOk result (drainers.new.items ≡ map (behind (vec_len pumps.new)) drainers.old.items) }
    ensures fault { IfErr result (NoMemoryFor Role.Pump (vec_len pumps.new)) }
    ensures fewer { OnErr result (vec_len pumps.new < length (into_iter_items inboxes.old)) }
{
    while let Some(inbox) = inboxes.next() {
        let Some(hub) = hubs.next() else {
            return Ok(());
        };
        put_pump(alloc, hub, inbox, drainers, replies, pumps)?;
    }
    Ok(())
}

// Makes one more pump.
fn put_pump<S: Drop>(
    alloc: &Heap,
    hub: Hub,
    inbox: Inbox<Call<S>>,
    drainers: &mut Vec<PortRow<Out<S>>, Heap>,
    replies: &mut Vec<PortRow<Reply<S>>, Heap>,
    pumps: &mut Vec<Pump<S>, Heap>,
) -> Result<(), StartFault>
    requires hub { StandsFor hub.state NoEvents }
    requires inbox { inbox.received ≡ [] }
    requires ports { vec_len replies.old ≤ inbox.ports }
    requires some { 0 < vec_len drainers.old }
    requires drainers { All (λ row. 0 < row.count) drainers.old.items }
    requires replies { All (λ row. 0 < row.count) replies.old.items }
    requires room { vec_len pumps.old < vec_capacity pumps.old }
    ensures pumps { OnOk result (pumps.new.items ≡ pumps.old.items ++ fresh_pump hub inbox (map next_port drainers.old.items) (map next_port replies.old.items) ∷ []) }
    ensures capacity { vec_capacity pumps.new ≡ vec_capacity pumps.old }
    ensures drainers { OnOk result (drainers.new.items ≡ map (behind 1) drainers.old.items) }
    ensures replies { OnOk result (replies.new.items ≡ map (behind 1) replies.old.items) }
    ensures fault { IfErr result (NoMemoryFor Role.Pump (vec_len pumps.old)) }
    ensures same { OnErr result (pumps.new ≡ pumps.old) }
{
    match make_pump(alloc, hub, inbox, drainers, replies) {
        Ok(pump) => {
            pumps.push_reserved(pump);
            Ok(())
        }
        Err(Memory) => Err(StartFault::memory(Role::Pump, pumps.len())),
    }
}

// A pump of this hub and this inbox, which tells when all its callers have ended.
fn make_pump<S: Drop>(
    alloc: &Heap,
    hub: Hub,
    inbox: Inbox<Call<S>>,
    drainers: &mut Vec<PortRow<Out<S>>, Heap>,
    replies: &mut Vec<PortRow<Reply<S>>, Heap>,
) -> Result<Pump<S>, Memory>
    requires hub { StandsFor hub.state NoEvents }
    requires inbox { inbox.received ≡ [] }
    requires ports { vec_len replies.old ≤ inbox.ports }
    requires some { 0 < vec_len drainers.old }
    requires drainers { All (λ row. 0 < row.count) drainers.old.items }
    requires replies { All (λ row. 0 < row.count) replies.old.items }
    ensures pump { IfOk result (λ pump. pump ≡ fresh_pump hub inbox (map next_port drainers.old.items) (map next_port replies.old.items)) }
    ensures drainers { OnOk result (drainers.new.items ≡ map (behind 1) drainers.old.items) }
    ensures replies { OnOk result (replies.new.items ≡ map (behind 1) replies.old.items) }
{
    let PumpPorts {
        heap,
        to_drainers,
        to_callers,
    } = pump_ports(alloc, drainers, replies)?;
    let callers = to_callers.len() as u64;
    let Ok(mut pump) = Pump::new(heap, hub, inbox, to_drainers, to_callers) else {
        return Err(Memory);
    };
    pump.tell(alloc.clone()?, callers)?;
    drop(pump.show(alloc.clone()?)?);
    Ok(pump)
}

// What a pump has beside its hub and its inbox.
#[derive(Drop)]
struct PumpPorts<S: Drop> {
    heap: Heap,
    to_drainers: Vec<Port<Out<S>>, Heap>,
    to_callers: Vec<Port<Reply<S>>, Heap>,
}

// The next port to each drainer and of each reply box.
fn pump_ports<S: Drop>(
    alloc: &Heap,
    drainers: &mut Vec<PortRow<Out<S>>, Heap>,
    replies: &mut Vec<PortRow<Reply<S>>, Heap>,
) -> Result<PumpPorts<S>, Memory>
    requires drainers { All (λ row. 0 < row.count) drainers.old.items }
    requires replies { All (λ row. 0 < row.count) replies.old.items }
    ensures to_drainers { IfOk result (λ ports. ports.to_drainers.items ≡ map next_port drainers.old.items) }
    ensures to_callers { IfOk result (λ ports. ports.to_callers.items ≡ map next_port replies.old.items) }
    ensures drainers { OnOk result (drainers.new.items ≡ map (behind 1) drainers.old.items) }
    ensures replies { OnOk result (replies.new.items ≡ map (behind 1) replies.old.items) }
{
    let heap = alloc.clone()?;
    let to_drainers = next_ports(alloc, drainers)?;
    let to_callers = next_ports(alloc, replies)?;
    Ok(PumpPorts {
        heap,
        to_drainers,
        to_callers,
    })
}

// One desk for each inbox that is left, with the next port to each subject. `Err` at the first for which there was no memory.
pub(crate) fn make_desks<S: Drop>(
    alloc: &Heap,
    inboxes: &mut IntoIter<Inbox<Reply<S>>, Heap>,
    subjects: &mut Vec<PortRow<Call<S>>, Heap>,
    desks: &mut Vec<CallDesk<S>, Heap>,
) -> Result<(), StartFault>
    requires inboxes { All (λ inbox. inbox.received ≡ []) (into_iter_items inboxes.old) }
    requires subjects { All (λ row. length (into_iter_items inboxes.old) ≤ row.count) subjects.old.items }
    requires none { desks.old.items ≡ [] }
    requires room { length (into_iter_items inboxes.old) ≤ vec_capacity desks.old }
    ensures desks { OnOk result (desks.new.items ≡ map (λ x. fresh_desk (row_ports x.0 subjects.old.items) x.1) (enumerate_from 0 (into_iter_items inboxes.old))) }
    ensures subjects { OnOk result (subjects.new.items ≡ map (behind (vec_len desks.new)) subjects.old.items) }
    ensures fault { IfErr result (NoMemoryFor Role.Worker (vec_len desks.new)) }
    ensures fewer { OnErr result (vec_len desks.new < length (into_iter_items inboxes.old)) }
{
    while let Some(inbox) = inboxes.next() {
        put_desk(alloc, inbox, subjects, desks)?;
    }
    Ok(())
}

// Makes one more desk.
fn put_desk<S: Drop>(
    alloc: &Heap,
    inbox: Inbox<Reply<S>>,
    subjects: &mut Vec<PortRow<Call<S>>, Heap>,
    desks: &mut Vec<CallDesk<S>, Heap>,
) -> Result<(), StartFault>
    requires inbox { inbox.received ≡ [] }
    requires subjects { All (λ row. 0 < row.count) subjects.old.items }
    requires room { vec_len desks.old < vec_capacity desks.old }
    ensures desks { OnOk result (desks.new.items ≡ desks.old.items ++ fresh_desk (map next_port subjects.old.items) inbox ∷ []) }
    ensures capacity { vec_capacity desks.new ≡ vec_capacity desks.old }
    ensures subjects { OnOk result (subjects.new.items ≡ map (behind 1) subjects.old.items) }
    ensures fault { IfErr result (NoMemoryFor Role.Worker (vec_len desks.old)) }
    ensures same { OnErr result (desks.new ≡ desks.old) }
{
    match make_desk(alloc, inbox, subjects) {
        Ok(desk) => {
            desks.push_reserved(desk);
            Ok(())
        }
        Err(Memory) => Err(StartFault::memory(Role::Worker, desks.len())),
    }
}

// A desk with this inbox.
fn make_desk<S: Drop>(
    alloc: &Heap,
    inbox: Inbox<Reply<S>>,
    subjects: &mut Vec<PortRow<Call<S>>, Heap>,
) -> Result<CallDesk<S>, Memory>
    requires inbox { inbox.received ≡ [] }
    requires subjects { All (λ row. 0 < row.count) subjects.old.items }
    ensures desk { IfOk result (λ desk. desk ≡ fresh_desk (map next_port subjects.old.items) inbox) }
    ensures subjects { OnOk result (subjects.new.items ≡ map (behind 1) subjects.old.items) }
{
    let heap = alloc.clone()?;
    let subjects = next_ports(alloc, subjects)?;
    match CallDesk::new(heap, subjects, inbox) {
        Ok(desk) => Ok(desk),
        Err(_) => Err(Memory),
    }
}

// One drainer for each inbox that is left, with the next port to each subject, which keeps what its sinks leave or not. `Err` at
// the first for which there was no memory.
pub(crate) fn make_drainers<S: Sink>(
    alloc: &Heap,
    inboxes: &mut IntoIter<Inbox<Out<S>>, Heap>,
    subjects: &mut Vec<PortRow<Call<S>>, Heap>,
    drainers: &mut Vec<Drainer<S>, Heap>,
    keeps: bool,
) -> Result<(), StartFault>
    requires inboxes { All (λ inbox. (inbox.received ≡ []) × (inbox.ports ≡ length subjects.old.items + 1)) (into_iter_items inboxes.old) }
    requires subjects { All (λ row. length (into_iter_items inboxes.old) ≤ row.count) subjects.old.items }
    requires none { drainers.old.items ≡ [] }
    requires room { length (into_iter_items inboxes.old) ≤ vec_capacity drainers.old }
    ensures drainers { OnOk result (drainers.new.items ≡ map (λ x. fresh_drainer keeps x.1 (row_ports x.0 subjects.old.items)) (enumerate_from 0 (into_iter_items inboxes.old))) }
    ensures fault { IfErr result (NoMemoryFor Role.Drainer (vec_len drainers.new)) }
    ensures fewer { OnErr result (vec_len drainers.new < length (into_iter_items inboxes.old)) }
{
    while let Some(inbox) = inboxes.next() {
        put_drainer(alloc, inbox, subjects, drainers, keeps)?;
    }
    Ok(())
}

// Makes one more drainer.
fn put_drainer<S: Sink>(
    alloc: &Heap,
    inbox: Inbox<Out<S>>,
    subjects: &mut Vec<PortRow<Call<S>>, Heap>,
    drainers: &mut Vec<Drainer<S>, Heap>,
    keeps: bool,
) -> Result<(), StartFault>
    requires inbox { inbox.received ≡ [] }
    requires senders { inbox.ports ≡ vec_len subjects.old + 1 }
    requires subjects { All (λ row. 0 < row.count) subjects.old.items }
    requires room { vec_len drainers.old < vec_capacity drainers.old }
    ensures drainers { OnOk result (drainers.new.items ≡ drainers.old.items ++ fresh_drainer keeps inbox (map next_port subjects.old.items) ∷ []) }
    ensures capacity { vec_capacity drainers.new ≡ vec_capacity drainers.old }
    ensures subjects { OnOk result (subjects.new.items ≡ map (behind 1) subjects.old.items) }
    ensures fault { IfErr result (NoMemoryFor Role.Drainer (vec_len drainers.old)) }
    ensures same { OnErr result (drainers.new ≡ drainers.old) }
{
    match make_drainer(alloc, inbox, subjects, keeps) {
        Ok(drainer) => {
            drainers.push_reserved(drainer);
            Ok(())
        }
        Err(Memory) => Err(StartFault::memory(Role::Drainer, drainers.len())),
    }
}

// A drainer with this inbox.
fn make_drainer<S: Sink>(
    alloc: &Heap,
    inbox: Inbox<Out<S>>,
    subjects: &mut Vec<PortRow<Call<S>>, Heap>,
    keeps: bool,
) -> Result<Drainer<S>, Memory>
    requires inbox { inbox.received ≡ [] }
    requires senders { inbox.ports ≡ vec_len subjects.old + 1 }
    requires subjects { All (λ row. 0 < row.count) subjects.old.items }
    ensures drainer { IfOk result (λ drainer. drainer ≡ fresh_drainer keeps inbox (map next_port subjects.old.items)) }
    ensures subjects { OnOk result (subjects.new.items ≡ map (behind 1) subjects.old.items) }
{
    let heap = alloc.clone()?;
    let subjects = next_ports(alloc, subjects)?;
    match Drainer::new(heap, inbox, subjects) {
        Ok(drainer) => Ok(keeping(drainer, keeps)),
        Err(_) => Err(Memory),
    }
}

// A drainer that keeps what its sinks leave, but where it is told not to.
fn keeping<S: Sink>(drainer: Drainer<S>, keeps: bool) -> Drainer<S>
    requires { drainer.keeps ≡ true }
    ensures { result ≡ record drainer { keeps = keeps } }
{
    if keeps {
        return drainer;
    }
    let mut drainer = drainer;
    drainer.forget();
    drainer
}
