// How workers are hired for desks.
ghost use Rattle.std.specs.Prelude.{◌≡◌, ◌+◌, ◌≤◌, [], OnOk, IfErr, IfOk, MatchBool, MatchResult, map, vec_len, vec_capacity};
ghost use Rattle.std.specs.List.{All};
ghost use Rattle.std.specs.Arc.{arc_value};
ghost use Rattle.rx_mailbox.specs.Boxes.{capacity_of, incoming, outgoing};
ghost use Rattle.rx_pump.specs.Desks.{KeepsDesk};
ghost use Rattle.rx_workers.specs.Crews.{AreOut, IsFor, NamesLast, worker_desk};
ghost use Rattle.rx_workers.specs.Service.{IsNewOver, port_to};

use crate::crew::hired::Hired;
use crate::crew::idle::Idle;
use crate::crew::serve_fault::ServeFault;
use crate::readiness::Readiness;
use crate::worker::Worker;
use crate::worker::running_worker::start_worker;
use rx_config::Config;
use rx_desk::{ClientSink, Moments};
use rx_heap::{Heap, Memory, room};
use rx_mailbox::{EndedPort, Inbox, OpenError, Port, open};
use rx_pump::CallDesk;
use std::io::{Read, Write};
use std::sync::{Arc, Mutex, Wait};
use std::thread::Threads;

/// How many connections wait for a worker at most.
pub(crate) const WORKER_BOX: usize = 16;

// What a worker has beside its desk, the port to its inbox, and room for that once it has ended.
#[derive(Drop)]
struct Tools<M: Drop, C: Drop, W: Drop> {
    heap: Heap,
    own: Heap,
    config: Arc<Config, Heap>,
    moments: Arc<Mutex<M>, Heap>,
    inbox: Inbox<(C, W)>,
    port: Port<(C, W)>,
    room: Vec<EndedPort<(C, W)>, Heap>,
}

fn make_tools<M: Drop, C: Drop, W: Drop>(
    heap: &Heap,
    config: &Arc<Config, Heap>,
    moments: &Arc<Mutex<M>, Heap>,
) -> Result<Tools<M, C, W>, Memory>
    ensures config { IfOk result (λ tools. arc_value tools.config ≡ arc_value config.now) }
    ensures inbox { IfOk result (λ tools. tools.inbox ≡ incoming tools.inbox.box 1 []) }
    ensures capacity { IfOk result (λ tools. capacity_of tools.inbox.box ≡ 16) }
    ensures port { IfOk result (λ tools. tools.port ≡ outgoing tools.inbox.box 0 []) }
    ensures room { IfOk result (λ tools. (tools.room.items ≡ []) × (1 ≤ vec_capacity tools.room)) }
{
    let (inbox, port) = open_box(heap)?;
    Ok(Tools {
        heap: heap.clone()?,
        own: heap.clone()?,
        config: Arc::try_clone(config)?,
        moments: Arc::try_clone(moments)?,
        inbox,
        port,
        room: room(heap, 1)?,
    })
}

// The inbox of a worker, and the port to it.
fn open_box<T: Drop>(heap: &Heap) -> Result<(Inbox<T>, Port<T>), Memory>
    ensures inbox { IfOk result (λ made. made.0 ≡ incoming made.0.box 1 []) }
    ensures capacity { IfOk result (λ made. capacity_of made.0.box ≡ 16) }
    ensures port { IfOk result (λ made. made.1 ≡ outgoing made.0.box 0 []) }
{
    let (inbox, mut ports) = match open(heap.clone()?, WORKER_BOX, 1) {
        Ok(made) => made,
        Err(OpenError::Memory) => return Err(Memory),
        Err(OpenError::BadSize) => unreachable!(),
    };
    let Some(port) = ports.pop() else {
        unreachable!()
    };
    Ok((inbox, port))
}

// A desk for which no worker was hired, and whether there was memory for one.
#[derive(Drop)]
struct Unhired<W: Write + Drop> {
    desk: CallDesk<ClientSink<W>>,
    has_memory: bool,
}

// Hires a worker for a desk: it begins to serve in a thread of its own.
fn hire<
    M: Moments + Drop + Send + 'static,
    C: Read + Drop + Send + 'static,
    W: Write + Drop + Send + 'static,
    P: Readiness<C> + Drop + Send + 'static,
    R: Threads + Wait + Clone + Drop + Send + 'static,
>(
    rt: &R,
    heap: &Heap,
    config: &Arc<Config, Heap>,
    moments: &Arc<Mutex<M>, Heap>,
    readiness: Idle<C, P>,
    desk: CallDesk<ClientSink<W>>,
) -> Result<(Hired<M, C, W, P>, Port<(C, W)>), Unhired<W>>
    requires { IsFor (arc_value config.now) desk }
    ensures { MatchResult result
        (λ hired. IsNewOver (arc_value config.now) desk hired.0 × (hired.1 ≡ port_to hired.0))
        (λ back. KeepsDesk desk back.desk) }
{
    let Ok(tools) = make_tools(heap, config, moments) else {
        return Err(Unhired {
            desk,
            has_memory: false,
        });
    };
    let Tools {
        heap,
        own,
        config,
        moments,
        inbox,
        port,
        room,
    } = tools;
    let worker = Worker::new(heap, own, config, moments, desk, inbox, readiness);
    match start_worker(rt, worker, port) {
        Ok((worker, port)) => Ok((Hired::new(worker, room), port)),
        Err(end) => Err(Unhired {
            desk: end.desk,
            has_memory: true,
        }),
    }
}

// Hires a worker for each desk, the last one first, each with what it waits by.
pub(crate) fn hire_all<
    M: Moments + Drop + Send + 'static,
    C: Read + Drop + Send + 'static,
    W: Write + Drop + Send + 'static,
    P: Readiness<C> + Drop + Send + 'static,
    R: Threads + Wait + Clone + Drop + Send + 'static,
>(
    rt: &R,
    heap: &Heap,
    config: &Arc<Config, Heap>,
    moments: &Arc<Mutex<M>, Heap>,
    readiness: &mut Vec<Idle<C, P>, Heap>,
    desks: &mut Vec<CallDesk<ClientSink<W>>, Heap>,
    workers: &mut Vec<Hired<M, C, W, P>, Heap>,
    ports: &mut Vec<Port<(C, W)>, Heap>,
) -> Result<(), ServeFault>
    requires fit { All (IsFor (arc_value config.now)) desks.old.items }
    requires none { workers.old.items ≡ [] }
    requires no_port { ports.old.items ≡ [] }
    requires workers { vec_len desks.old ≤ vec_capacity workers.old }
    requires ports { vec_len desks.old ≤ vec_capacity ports.old }
    requires readiness { vec_len desks.old ≡ vec_len readiness.old }
    ensures out { AreOut desks.old.items desks.new.items workers.new.items }
    ensures room { vec_len desks.new + vec_len workers.new ≤ vec_capacity desks.new }
    ensures new { All (λ one. IsNewOver (arc_value config.now) (worker_desk one) one) workers.new.items }
    ensures ports { ports.new.items ≡ map port_to workers.new.items }
    ensures all { OnOk result (desks.new.items ≡ []) }
    ensures fault { IfErr result (NamesLast (vec_len desks.new)) }
{
    while let Some(desk) = desks.pop() {
        let Some(waits) = readiness.pop() else {
            unreachable!()
        };
        match hire(rt, heap, config, moments, waits, desk) {
            Ok(hired) => {
                let (worker, port) = hired;
                workers.push_reserved(worker);
                ports.push_reserved(port);
            }
            Err(back) => {
                let place = desks.len();
                let fault = fault_of(back.has_memory, place);
                desks.push_reserved(back.desk);
                return Err(fault);
            }
        }
    }
    Ok(())
}

// Why there is no worker for the desk at this place.
fn fault_of(has_memory: bool, place: usize) -> ServeFault
    ensures { MatchBool has_memory (result ≡ ServeFault.Thread place) (result ≡ ServeFault.Memory) }
{
    if has_memory {
        ServeFault::Thread(place)
    } else {
        ServeFault::Memory
    }
}
