// The connections of a listener, served by a crew of workers.
//
// A worker that is lost is told in the place of a listener that failed, since not all that was accepted was served then.
ghost use Rattle.std.specs.Prelude.{◌≡◌, ◌↔◌, ◌+◌, ◌≤◌, ◌<◌, ℕ, [], Err, OnOk, IfErr, IfOk, map, reverse, vec_len, vec_capacity};
ghost use Rattle.std.specs.Arc.{arc_value};
ghost use Rattle.std.specs.List.{All, AllZip};
ghost use Rattle.rx_pump.specs.Desks.{KeepsDesk};
ghost use Rattle.rx_workers.specs.Accepting.{AcceptsAll, HoldsNothing};
ghost use Rattle.rx_workers.specs.Crews.{AreOut, IsFor, IsPortOf, worker_desk};
ghost use Rattle.rx_workers.specs.Service.{DealsUntil, IsNewOver, ServesUntil, fault_in, port_to, reception, surroundings, with_lost};
ghost use Rattle.rx_workers.specs.Workers.{peers};

pub(crate) mod acceptor;
pub(crate) mod ends;
pub(crate) mod hired;
pub(crate) mod hires;
pub(crate) mod idle;
pub(crate) mod serve_fault;

use crate::crew::acceptor::{AcceptStop, accept_all};
use crate::crew::ends::end_all;
use crate::crew::hired::Hired;
use crate::crew::hires::hire_all;
use crate::crew::idle::Idle;
use crate::crew::serve_fault::ServeFault;
use crate::listener::Listener;
use rx_config::Config;
use rx_desk::{ClientSink, Moments};
use rx_heap::{Heap, Memory, room};
use rx_mailbox::Port;
use rx_pump::CallDesk;
use std::sync::{Arc, Mutex, Wait};
use std::thread::Threads;

/// Serves the connections of a listener, as many as the configuration says, by one worker for each desk, in a thread of its
/// own. Connection i, from 0, goes to the worker of desk i modulo their number. It returns once all workers have ended; the desks
/// are then where they were, as their calls left them.
///
/// # Errors
///
/// `NoDesk`, `Memory`, or `Thread` of a worker that did not begin: nothing was accepted. `Accept`: fewer connections were, and each
/// was served. `Thread` of a worker that is gone: of those that were accepted some may not have been served.
pub fn serve_connections<
    L: Listener,
    M: Moments + Drop + Send + 'static,
    R: Threads + Wait + Clone + Drop + Send + 'static,
>(
    rt: &R,
    heap: &Heap,
    config: &Arc<Config, Heap>,
    listener: &mut L,
    moments: M,
    desks: &mut Vec<CallDesk<ClientSink<L::Writer>>, Heap>,
) -> Result<(), ServeFault>
    requires { All (IsFor (arc_value config.now)) desks.old.items }
    ensures no_desk { (result ≡ Err ServeFault.NoDesk) ↔ (desks.old.items ≡ []) }
    ensures served { ServesUntil (surroundings L.accepts L.fails (peers M.tells L.Reader.remaining L.Writer.contents)) (arc_value config.now) result
        (reception listener.old desks.old.items) (reception listener.new desks.new.items) }
    ensures desks { AllZip KeepsDesk desks.old.items desks.new.items }
{
    if desks.is_empty() {
        return Err(ServeFault::NoDesk);
    }
    let Ok(bench) = make_bench::<M, L>(heap, moments, desks.len()) else {
        return Err(ServeFault::Memory);
    };
    let Bench {
        moments,
        mut readiness,
        mut wakers,
        mut workers,
        mut ports,
    } = bench;
    watch_all(listener, desks.len(), &mut readiness, &mut wakers)?;
    let dealt = deal_all(
        rt,
        heap,
        config,
        &moments,
        listener,
        &mut readiness,
        &wakers,
        desks,
        &mut workers,
        &mut ports,
    );
    let lost = end_all(rt, workers, ports, &wakers, desks);
    drop(wakers);
    with_lost(dealt, lost)
}

// The moments of a crew, and room for its workers, for what each waits by, and for the ports and the wakers to them.
#[derive(Drop)]
struct Bench<M: Moments + Drop + Send + 'static, L: Listener> {
    moments: Arc<Mutex<M>, Heap>,
    readiness: Vec<Idle<L::Reader, L::Readiness>, Heap>,
    wakers: Vec<L::Waker, Heap>,
    workers: Vec<Hired<M, L::Reader, L::Writer, L::Readiness>, Heap>,
    ports: Vec<Port<(L::Reader, L::Writer)>, Heap>,
}

fn make_bench<M: Moments + Drop + Send + 'static, L: Listener>(
    heap: &Heap,
    moments: M,
    count: usize,
) -> Result<Bench<M, L>, Memory>
    ensures readiness { IfOk result (λ bench. (bench.readiness.items ≡ []) × (count ≤ vec_capacity bench.readiness)) }
    ensures wakers { IfOk result (λ bench. (bench.wakers.items ≡ []) × (count ≤ vec_capacity bench.wakers)) }
    ensures workers { IfOk result (λ bench. (bench.workers.items ≡ []) × (count ≤ vec_capacity bench.workers)) }
    ensures ports { IfOk result (λ bench. (bench.ports.items ≡ []) × (count ≤ vec_capacity bench.ports)) }
{
    let Ok(moments) = Arc::new(heap.clone()?, Mutex::new(moments)) else {
        return Err(Memory);
    };
    Ok(Bench {
        moments,
        readiness: room(heap, count)?,
        wakers: room(heap, count)?,
        workers: room(heap, count)?,
        ports: room(heap, count)?,
    })
}

// What so many workers wait by, each with its waker. `Thread` of the first that has none.
fn watch_all<L: Listener>(
    listener: &L,
    count: usize,
    readiness: &mut Vec<Idle<L::Reader, L::Readiness>, Heap>,
    wakers: &mut Vec<L::Waker, Heap>,
) -> Result<(), ServeFault>
    requires none { readiness.old.items ≡ [] }
    requires readiness { count ≤ vec_capacity readiness.old }
    requires no_waker { wakers.old.items ≡ [] }
    requires wakers { count ≤ vec_capacity wakers.old }
    ensures readiness { OnOk result (vec_len readiness.new ≡ count) }
    ensures wakers { OnOk result (vec_len wakers.new ≡ count) }
    ensures fault { IfErr result (λ fault. (place : ℕ) × (fault ≡ ServeFault.Thread place) × (place < count)) }
    ensures first { IfErr result (λ fault. fault ≡ ServeFault.Thread (vec_len readiness.new)) }
{
    for place in 0..count {
        let Ok(watch) = listener.watch() else {
            return Err(ServeFault::Thread(place));
        };
        readiness.push_reserved(watch.readiness);
        wakers.push_reserved(watch.waker);
    }
    Ok(())
}

// Hires a worker for each desk, and deals the connections to them. At an `Err` fewer workers were hired, or fewer connections dealt.
fn deal_all<
    L: Listener,
    M: Moments + Drop + Send + 'static,
    R: Threads + Wait + Clone + Drop + Send + 'static,
>(
    rt: &R,
    heap: &Heap,
    config: &Arc<Config, Heap>,
    moments: &Arc<Mutex<M>, Heap>,
    listener: &mut L,
    readiness: &mut Vec<Idle<L::Reader, L::Readiness>, Heap>,
    wakers: &Vec<L::Waker, Heap>,
    desks: &mut Vec<CallDesk<ClientSink<L::Writer>>, Heap>,
    workers: &mut Vec<Hired<M, L::Reader, L::Writer, L::Readiness>, Heap>,
    ports: &mut Vec<Port<(L::Reader, L::Writer)>, Heap>,
) -> Result<(), ServeFault>
    requires some { 0 < vec_len desks.old }
    requires fit { All (IsFor (arc_value config.now)) desks.old.items }
    requires none { workers.old.items ≡ [] }
    requires no_port { ports.old.items ≡ [] }
    requires workers { vec_len desks.old ≤ vec_capacity workers.old }
    requires ports { vec_len desks.old ≤ vec_capacity ports.old }
    requires readiness { vec_len desks.old ≡ vec_len readiness.old }
    ensures out { AreOut desks.old.items desks.new.items workers.new.items }
    ensures room { vec_len desks.new + vec_len workers.new ≤ vec_capacity desks.new }
    ensures new { All (λ one. IsNewOver (arc_value config.now) (worker_desk one) one) workers.new.items }
    ensures ports { AllZip IsPortOf (reverse workers.new.items) (reverse ports.new.items) }
    ensures dealt { DealsUntil L.accepts L.fails (arc_value config.now).connections result listener.old listener.new desks.new.items workers.new.items ports.new.items }
{
    hire_all(rt, heap, config, moments, readiness, desks, workers, ports)?;
    fault_in(accept(rt, listener, ports, wakers, config.connections))
}

// Accepts the connections for the workers, the last one of whom was hired for the first desk.
fn accept<L: Listener, R: Wait>(
    rt: &R,
    listener: &mut L,
    ports: &mut Vec<Port<(L::Reader, L::Writer)>, Heap>,
    wakers: &Vec<L::Waker, Heap>,
    connections: u32,
) -> Result<(), AcceptStop>
    requires some { 0 < vec_len ports.old }
    requires nothing { All HoldsNothing ports.old.items }
    ensures { AcceptsAll L.accepts L.fails connections result listener.old listener.new (reverse ports.old.items) (reverse ports.new.items) }
{
    ports.reverse();
    let accepted = accept_all(rt, listener, ports, wakers, connections);
    ports.reverse();
    accepted
}

// The fault that an acceptor's stop is.
fn fault_in(accepted: Result<(), AcceptStop>) -> Result<(), ServeFault>
    ensures { result ≡ fault_in accepted }
{
    match accepted {
        Ok(()) => Ok(()),
        Err(AcceptStop::NoConnection) => Err(ServeFault::Accept),
        Err(AcceptStop::WorkerGone(place)) => Err(ServeFault::Thread(place)),
    }
}

// How serving ended, by how dealing did, and by the first worker that did not have all that was dealt to it.
fn with_lost(dealt: Result<(), ServeFault>, lost: Option<usize>) -> Result<(), ServeFault>
    ensures { result ≡ with_lost dealt lost }
{
    match (dealt, lost) {
        (Ok(()) | Err(ServeFault::Accept), Some(place)) => Err(ServeFault::Thread(place)),
        _ => dealt,
    }
}
