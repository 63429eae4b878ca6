// How the workers of a crew end, and their desks come back.
//
// A worker's box is settled as soon as the worker has ended, one after another from the first desk on, and each is told that
// no connection comes any more right before: so a worker whose sessions have ended waits on beside the others, which costs a
// thread that sleeps, and its observers are looked after meanwhile. The room for that is taken with the box.
ghost use Rattle.std.specs.Prelude.{◌≡◌, ◌+◌, ◌<◌, ◌≤◌, ℕ, List, [], None, Some, IfSome, map, reverse, vec_len, vec_capacity};
ghost use Rattle.std.specs.List.{All, AllZip};
ghost use Rattle.rx_config.specs.declared.config.Config.{Config};
ghost use Rattle.rx_pump.specs.Desks.{DeskView, KeepsDesk};
ghost use Rattle.rx_desk.specs.declared.client_sink.ClientSink.{ClientSink};
ghost use Rattle.rx_workers.specs.Accepting.{Deals};
ghost use Rattle.rx_workers.specs.Crews.{AreOut, IsPortOf, worker_desk, first_lost};
ghost use Rattle.rx_workers.specs.Service.{FirstEndsEarly, HaveServedAll, IsNewOver, port_to};
ghost use Rattle.rx_workers.specs.Workers.{peers};

use crate::crew::hired::{Hired, ReturnedDesk};
use crate::readiness::{Readiness, Waker};
use rx_desk::{ClientSink, Moments};
use rx_heap::Heap;
use rx_mailbox::Port;
use rx_pump::CallDesk;
use std::io::{Read, Write};
use std::sync::Wait;
use std::thread::Threads;

// Tells each worker, from the last on, by the port at its place that no connection comes any more, waits until it has ended, and
// puts its desk behind the others. A waker has to stay until its worker has ended. Answers the first place of a desk whose worker
// did not have all that was sent to it.
pub(crate) fn end_all<
    M: Moments + Drop,
    C: Read + Drop,
    W: Write + Drop,
    P: Readiness<C> + Drop,
    B: Waker,
    R: Threads + Wait,
>(
    rt: &R,
    workers: Vec<Hired<M, C, W, P>, Heap>,
    ports: Vec<Port<(C, W)>, Heap>,
    wakers: &Vec<B, Heap>,
    desks: &mut Vec<CallDesk<ClientSink<W>>, Heap>,
) -> Option<usize>
    requires room { vec_len desks.old + vec_len workers ≤ vec_capacity desks.old }
    requires ports { AllZip IsPortOf (reverse workers.items) (reverse ports.items) }
    ensures desks { (all : List (DeskView (ClientSink W))) → AreOut all desks.old.items workers.items → AllZip KeepsDesk all desks.new.items }
    ensures served { result ≡ None → desks.old.items ≡ [] → (config : Config) → (xs : List (C × W)) → All (λ one. IsNewOver config (worker_desk one) one) workers.items → Deals xs (reverse (map port_to workers.items)) (reverse ports.items) → HaveServedAll (peers M.tells C.remaining W.contents) config xs (map worker_desk (reverse workers.items)) desks.new.items }
    ensures lost { IfSome result (λ place. place < vec_len desks.new) }
    ensures first { (place : ℕ) → result ≡ Some place → desks.old.items ≡ [] → (config : Config) → (xs : List (C × W)) → All (λ one. IsNewOver config (worker_desk one) one) workers.items → Deals xs (reverse (map port_to workers.items)) (reverse ports.items) → FirstEndsEarly (peers M.tells C.remaining W.contents) config xs place (map worker_desk (reverse workers.items)) desks.new.items }
{
    let mut workers = workers;
    let mut ports = ports;
    let mut lost = None;
    while let Some(worker) = workers.pop() {
        let Some(port) = ports.pop() else {
            unreachable!()
        };
        let place = desks.len();
        let ReturnedDesk { desk, has_all } = worker.end(rt, port, wakers, place);
        desks.push_reserved(desk);
        lost = first_lost(lost, place, has_all);
    }
    lost
}

// The first place of a desk whose worker did not have all, with one more.
fn first_lost(lost: Option<usize>, place: usize, has_all: bool) -> Option<usize>
    ensures { result ≡ first_lost lost place has_all }
{
    if lost.is_none() && !has_all {
        return Some(place);
    }
    lost
}
