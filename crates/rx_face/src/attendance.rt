// It is a worker of its own over the clients of `rx_workers`, and no worker of that crate: what those say is said of lines, they count
// their sessions, and end once each is over. A face accepts too, so that one thread does for all of it.
//
// A stop is not put off: where the doorway is closed, exchanges that are under way are let go with their connections, and no observer is
// disposed of. Their sinks are the server's, which puts them away as it closes.
ghost use Rattle.std.specs.Prelude.{◌≡◌, [], OnOk};
ghost use Rattle.rx_exchange.specs.Exchanges.{IsNew};
ghost use Rattle.rx_workers.specs.Clients.{IsTalk, client_at};
ghost use Rattle.rx_workers.specs.Watching.{AreWatched};
ghost use Rattle.rx_face.specs.Facing.{DoesSome, attended};

use crate::Doorway;
use rx_desk::{EventDesk, Moments};
use rx_exchange::Exchange;
use rx_heap::Heap;
use rx_workers::{Clients, Pause, Ready, Talk, admit, begin, leave};
use std::io::{Read, Write};
use std::marker::Model;
use std::sync::Wait;

// The most reads of one exchange.
const MAX_READS: u64 = 4_294_967_296;

// The clients that are served before it is asked again whether a connection came.
const MOST_READY: u32 = 1_024;

/// A face at work: the desk of its exchanges, and its clients.
pub(crate) struct Attendance<'a, R, M: Drop, C: Drop, W: Write + Drop> {
    heap: &'a Heap,
    desk: EventDesk<'a, R, M, W>,
    clients: Clients<C, W, Exchange>,
}

// By hand: rx_heap says why.
impl<'a, R, M: Drop, C: Drop, W: Write + Drop> Drop for Attendance<'a, R, M, C, W> {
    fn drop(self) {
        let Attendance {
            heap: _,
            desk: _,
            clients: _,
        } = self;
    }
}

impl<'a, R, M: Drop, C: Drop, W: Write + Drop> Model for Attendance<'a, R, M, C, W> {
    ghost use Rattle.rx_face.specs.Facing.{Attended, attended};

    ghost Value = { Attended M C W };

    ghost view = { λ a. attended a.desk a.clients };
}

impl<'a, R, M: Drop, C: Drop, W: Write + Drop> Attendance<'a, R, M, C, W> {
    /// Nothing came yet.
    pub(crate) fn new(
        heap: &'a Heap,
        clients: Heap,
        desk: EventDesk<'a, R, M, W>,
    ) -> Attendance<'a, R, M, C, W>
        ensures { result ≡ attended desk.entry [] }
    {
        Attendance {
            heap,
            desk,
            clients: Clients::new(clients),
        }
    }

    /// The desk. Who followed is watched no more.
    pub(crate) fn into_desk(self) -> EventDesk<'a, R, M, W>
        ensures { result ≡ self.entry.desk }
    {
        let Attendance {
            heap: _,
            desk,
            clients: _,
        } = self;
        desk
    }
}

impl<'a, R: Wait, M: Moments + Drop, C: Read + Drop, W: Write + Drop> Attendance<'a, R, M, C, W> {
    /// Serves each connection that comes, until the doorway is closed.
    pub(crate) fn serve<P: Doorway<C, W>>(&mut self, rt: &R, doorway: &mut P)
        requires { AreWatched (P.watched doorway.old) self.old.clients }
        ensures goes { DoesSome M.tells C.remaining W.contents self.old self.new }
        ensures watched { AreWatched (P.watched doorway.new) self.new.clients }
    {
        for _ in rt.forever() {
            if doorway.is_closed() {
                return;
            }
            self.admit_all(rt, doorway);
            doorway.wait();
            self.serve_ready(doorway);
        }
    }

    // Gives each connection that came by now a place, and waits for none.
    fn admit_all<P: Doorway<C, W>>(&mut self, rt: &R, doorway: &mut P)
        requires { AreWatched (P.watched doorway.old) self.old.clients }
        ensures goes { DoesSome M.tells C.remaining W.contents self.old self.new }
        ensures watched { AreWatched (P.watched doorway.new) self.new.clients }
    {
        for _ in rt.forever() {
            let Some(connection) = doorway.arrive() else {
                return;
            };
            self.admit(connection, doorway);
        }
    }

    // Gives a connection a place; or gives it up.
    fn admit<P: Doorway<C, W>>(&mut self, connection: (C, W), doorway: &mut P)
        requires { AreWatched (P.watched doorway.old) self.old.clients }
        ensures goes { DoesSome M.tells C.remaining W.contents self.old self.new }
        ensures watched { AreWatched (P.watched doorway.new) self.new.clients }
    {
        admit(&mut self.clients, connection, doorway);
    }

    // Serves the clients that are ready.
    fn serve_ready<P: Doorway<C, W>>(&mut self, doorway: &mut P)
        requires { AreWatched (P.watched doorway.old) self.old.clients }
        ensures goes { DoesSome M.tells C.remaining W.contents self.old self.new }
        ensures watched { AreWatched (P.watched doorway.new) self.new.clients }
    {
        for _ in 0..MOST_READY {
            let Some(ready) = doorway.next() else {
                return;
            };
            self.attend(ready, doorway);
        }
    }

    // Serves the client that is ready: an exchange begins where it had yet to, and has a turn, and a follower who hung up is parted
    // with.
    fn attend<P: Doorway<C, W>>(&mut self, ready: Ready, doorway: &mut P)
        requires { AreWatched (P.watched doorway.old) self.old.clients }
        ensures goes { DoesSome M.tells C.remaining W.contents self.old self.new }
        ensures watched { AreWatched (P.watched doorway.new) self.new.clients }
    {
        self.start(ready.key, doorway);
        self.turn(ready.key, doorway);
        if ready.is_gone {
            self.part(ready.key, doorway);
        }
    }

    // The exchange of the connection at this place begins, where nothing came of it yet; or the connection is given up.
    fn start<P: Doorway<C, W>>(&mut self, place: usize, doorway: &mut P)
        requires { AreWatched (P.watched doorway.old) self.old.clients }
        ensures goes { DoesSome M.tells C.remaining W.contents self.old self.new }
        ensures watched { AreWatched (P.watched doorway.new) self.new.clients }
    {
        if !self.clients.is_silent(place) {
            return;
        }
        let exchange = Exchange::new(MAX_READS);
        begin(self.heap, &mut self.clients, place, exchange, doorway);
    }

    // The exchange at this place has a turn, if there is one. Where it goes on at once it is told by the next wait.
    fn turn<P: Doorway<C, W>>(&mut self, place: usize, doorway: &mut P)
        requires { AreWatched (P.watched doorway.old) self.old.clients }
        ensures goes { DoesSome M.tells C.remaining W.contents self.old self.new }
        ensures watched { AreWatched (P.watched doorway.new) self.new.clients }
    {
        let Some(talk) = self.clients.take_talk(place) else {
            return;
        };
        let Talk {
            mut reader,
            writer,
            session: mut exchange,
            aim,
        } = talk;
        let turned = exchange.turn(&mut reader, writer, &mut self.desk);
        let joined = self.desk.joined();
        let pause = Pause {
            place,
            is_last: true,
            aim,
        };
        let (_, left) = leave(turned, reader, exchange, joined, pause, doorway);
        self.clients.put(place, left);
    }

    // The observer of the follower at this place is disposed of, and the place is vacant.
    fn part<P: Doorway<C, W>>(&mut self, place: usize, doorway: &mut P)
        requires { AreWatched (P.watched doorway.old) self.old.clients }
        ensures goes { DoesSome M.tells C.remaining W.contents self.old self.new }
        ensures watched { AreWatched (P.watched doorway.new) self.new.clients }
    {
        let Some(follower) = self.clients.take_follower(place) else {
            return;
        };
        doorway.forget(&follower.reader, place);
        self.desk.dispose(follower.observer);
    }
}
