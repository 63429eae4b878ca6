//! Workers that were hired for desks, and how they end.
ghost use Rattle.std.specs.Prelude.{◌≡◌, ◌≤◌, ◌↔◌, [], List, IfSome, IsFalse, IsSomeAnd, IsTrue, vec_capacity};
ghost use Rattle.rx_config.specs.declared.config.Config.{Config};
ghost use Rattle.rx_mailbox.specs.Boxes.{outgoing};
ghost use Rattle.rx_mailbox.specs.Settling.{GotAll};
ghost use Rattle.rx_mailbox.specs.Letters.{posts};
ghost use Rattle.rx_pump.specs.Desks.{KeepsDesk};
ghost use Rattle.rx_workers.specs.Crews.{SettlesWith, worker_desk};
ghost use Rattle.rx_workers.specs.Service.{EndsEarly, HasServedJust, IsNewOver};
ghost use Rattle.rx_workers.specs.Workers.{peers};

use crate::crew::acceptor::wake_at;
use crate::readiness::{Readiness, Waker};
use crate::worker::running_worker::RunningWorker;
use crate::worker::task::dismiss;
use crate::worker::worker_end::WorkerEnd;
use rx_desk::{ClientSink, Moments};
use rx_heap::Heap;
use rx_mailbox::{EndedPort, Inbox, Port, settle};
use rx_pump::CallDesk;
use std::io::{Read, Write};
use std::marker::Model;
use std::sync::Wait;
use std::thread::Threads;

/// A worker that serves in a thread of its own, and room for the port to its inbox once that has ended. Contracts see the worker
/// that was handed in.
pub(crate) struct Hired<
    M: Moments + Drop,
    C: Read + Drop,
    W: Write + Drop,
    P: Readiness<C> + Drop,
> {
    worker: RunningWorker<M, C, W, P>,
    room: Vec<EndedPort<(C, W)>, Heap>,
}

// By hand: rx_heap says why.
impl<M: Moments + Drop, C: Read + Drop, W: Write + Drop, P: Readiness<C> + Drop> Drop
    for Hired<M, C, W, P> {
    fn drop(self) {
        let Hired { worker: _, room: _ } = self;
    }
}

impl<M: Moments + Drop, C: Read + Drop, W: Write + Drop, P: Readiness<C> + Drop> Model
    for Hired<M, C, W, P> {
    ghost use Rattle.std.specs.Prelude.{◌≡◌, ◌≤◌, [], vec_capacity};
    ghost use Rattle.rx_workers.specs.Working.{WorkerView};

    ghost Value = { WorkerView (Unit {0}) C W };

    ghost view = { λ h. h.worker };

    ghost invariant = { λ h. (h.room.items ≡ []) × (1 ≤ vec_capacity h.room) };
}

/// What comes back of a worker that has ended.
#[derive(Drop)]
pub(crate) struct ReturnedDesk<W: Write + Drop> {
    /// Its desk, as its calls left it.
    pub(crate) desk: CallDesk<ClientSink<W>>,
    /// Whether all that was sent to it came, and then its Bye.
    pub(crate) has_all: bool,
}

impl<M: Moments + Drop, C: Read + Drop, W: Write + Drop, P: Readiness<C> + Drop> Hired<M, C, W, P> {
    /// A worker that serves, and room for one port.
    pub(crate) fn new(
        worker: RunningWorker<M, C, W, P>,
        room: Vec<EndedPort<(C, W)>, Heap>,
    ) -> Hired<M, C, W, P>
        requires none { room.items ≡ [] }
        requires room { 1 ≤ vec_capacity room }
        ensures { result ≡ worker }
    {
        Hired { worker, room }
    }

    /// Tells the worker by the port to its inbox that no connection comes any more, wakes it by the waker at this place, and waits until it
    /// has ended. Then its box is settled.
    pub(crate) fn end<B: Waker, R: Threads + Wait>(
        self,
        rt: &R,
        port: Port<(C, W)>,
        wakers: &Vec<B, Heap>,
        place: usize,
    ) -> ReturnedDesk<W>
        requires { port.box ≡ self.inbox.box }
        ensures desk { KeepsDesk (worker_desk self) result.desk }
        ensures served { IsTrue result.has_all → (config : Config) → (xs : List (C × W)) → IsNewOver config (worker_desk self) self → port ≡ outgoing self.inbox.box 0 (posts 0 xs) → HasServedJust (peers M.tells C.remaining W.contents) config xs (worker_desk self) result.desk }
        ensures early { IsFalse result.has_all → (config : Config) → (xs : List (C × W)) → IsNewOver config (worker_desk self) self → port ≡ outgoing self.inbox.box 0 (posts 0 xs) → EndsEarly (peers M.tells C.remaining W.contents) config xs (worker_desk self) result.desk }
    {
        let Hired { worker, room } = self;
        let dismissed = dismiss(rt, port);
        wake_at(wakers, place);
        let WorkerEnd {
            desk,
            inbox,
            sessions: _,
        } = worker.join(rt);
        let has_all = ended_and_settled(inbox, dismissed, room);
        ReturnedDesk { desk, has_all }
    }
}

// Whether the one port of a box ended, and the box settles with it: all that the port put has come then.
fn ended_and_settled<T: Drop>(
    inbox: Inbox<T>,
    dismissed: Option<EndedPort<T>>,
    room: Vec<EndedPort<T>, Heap>,
) -> bool
    requires of_box { IfSome dismissed (λ port. port.box ≡ inbox.box) }
    requires none { room.items ≡ [] }
    requires room { 1 ≤ vec_capacity room }
    ensures settles { IsTrue result ↔ IsSomeAnd dismissed (SettlesWith inbox) }
    ensures came { IsTrue result → IsSomeAnd dismissed (GotAll inbox) }
{
    match dismissed {
        Some(port) => has_settled(inbox, port, room),
        None => false,
    }
}

// Whether a box settles with its one port: all that this put has come then.
fn has_settled<T: Drop>(inbox: Inbox<T>, port: EndedPort<T>, room: Vec<EndedPort<T>, Heap>) -> bool
    requires of_box { port.box ≡ inbox.box }
    requires none { room.items ≡ [] }
    requires room { 1 ≤ vec_capacity room }
    ensures settles { IsTrue result ↔ SettlesWith inbox port }
    ensures came { IsTrue result → GotAll inbox port }
{
    let mut ports = room;
    ports.push_reserved(port);
    settle(inbox, ports).is_ok()
}
