ghost use Rattle.std.specs.Prelude.{◌≡◌, ◌↔◌, [], false, true, IsFalse, IsTrue};
ghost use Rattle.rx_workers.specs.Clients.{IsTalk, client_at};
ghost use Rattle.rx_workers.specs.Watching.{AreWatched};
ghost use Rattle.rx_workers.specs.Working.{HasArrivals, HasConnection, HasNoConnection, HasTurnTo, HasTurns, IsFinished, PartsAt, ServesAt, StartsAt, state};

use crate::readiness::{Readiness, Ready};
use crate::worker::admission::{admit, begin};
use crate::worker::client::Talk;
use crate::worker::clients::Clients;
use crate::worker::parting::{Pause, leave};
use rx_desk::{Moments, SessionDesk};
use rx_heap::Heap;
use rx_mailbox::{Inbox, Letter, Post, TryRecvFault};
use rx_session::OpenSession;
use std::io::{Read, Write};
use std::marker::Model;
use std::sync::Wait;

// The most reads of one session.
const MAX_READS: u64 = 4_294_967_296;

/// A worker at work: the desk of its sessions, the inbox of its connections, its clients, and how many sessions it began.
pub(crate) struct Shift<'a, R, M: Drop, C: Drop, W: Write + Drop> {
    heap: &'a Heap,
    desk: SessionDesk<'a, R, M, W>,
    inbox: Inbox<(C, W)>,
    clients: Clients<C, W, OpenSession>,
    sessions: u64,
    // A connection may come.
    is_open: bool,
}

// By hand: rx_heap says why.
impl<'a, R, M: Drop, C: Drop, W: Write + Drop> Drop for Shift<'a, R, M, C, W> {
    fn drop(self) {
        let Shift {
            heap: _,
            desk: _,
            inbox: _,
            clients: _,
            sessions: _,
            is_open: _,
        } = self;
    }
}

impl<'a, R, M: Drop, C: Drop, W: Write + Drop> Model for Shift<'a, R, M, C, W> {
    ghost use Rattle.rx_workers.specs.Working.{State, state};

    ghost Value = { State M C W };

    ghost view = { λ s. state s.desk s.inbox s.clients s.sessions s.is_open };
}

impl<'a, R, M: Drop, C: Drop, W: Write + Drop> Shift<'a, R, M, C, W> {
    /// Nothing came yet.
    pub(crate) fn new(
        heap: &'a Heap,
        clients: Heap,
        desk: SessionDesk<'a, R, M, W>,
        inbox: Inbox<(C, W)>,
    ) -> Shift<'a, R, M, C, W>
        ensures { result ≡ state desk.entry inbox [] 0 true }
    {
        Shift {
            heap,
            desk,
            inbox,
            clients: Clients::new(clients),
            sessions: 0,
            is_open: true,
        }
    }

    /// Whether no connection comes any more, and no session is under way or has yet to begin.
    pub(crate) fn is_over(&self) -> bool
        ensures { IsTrue result ↔ IsFinished self.now }
    {
        !self.is_open && self.clients.is_quiet()
    }

    /// The desk, the inbox, and how many sessions there were. Who followed is watched no more.
    pub(crate) fn into_parts(self) -> (SessionDesk<'a, R, M, W>, Inbox<(C, W)>, u64)
        ensures desk { result.0 ≡ self.entry.session }
        ensures inbox { result.1 ≡ self.entry.inbox }
        ensures sessions { result.2 ≡ self.entry.sessions }
    {
        let Shift {
            heap: _,
            desk,
            inbox,
            clients: _,
            sessions,
            is_open: _,
        } = self;
        (desk, inbox, sessions)
    }
}

impl<'a, R: Wait, M: Moments + Drop, C: Read + Drop, W: Write + Drop> Shift<'a, R, M, C, W> {
    /// Gives each connection that came by now a place, and waits for none.
    pub(crate) fn admit_all<P: Readiness<C>>(&mut self, rt: &R, readiness: &mut P)
        requires { AreWatched (P.watched readiness.old) self.old.clients }
        ensures arrivals { HasArrivals M.tells C.remaining W.contents self.old self.new }
        ensures watched { AreWatched (P.watched readiness.new) self.new.clients }
    {
        if !self.is_open {
            return;
        }
        for _ in rt.forever() {
            if !self.admit_next(rt, readiness) {
                return;
            }
        }
    }

    // Gives the next connection a place, if one came. Whether another one may be there.
    fn admit_next<P: Readiness<C>>(&mut self, rt: &R, readiness: &mut P) -> bool
        requires { AreWatched (P.watched readiness.old) self.old.clients }
        ensures came { IsTrue result → HasConnection M.tells C.remaining W.contents self.old self.new }
        ensures none { IsFalse result → HasNoConnection M.tells C.remaining W.contents self.old self.new }
        ensures watched { AreWatched (P.watched readiness.new) self.new.clients }
    {
        let letter = match self.inbox.try_recv(rt) {
            Ok(letter) => letter,
            Err(TryRecvFault::Empty) => return false,
            Err(TryRecvFault::Gone) => {
                self.is_open = false;
                return false;
            }
        };
        let Letter { from: _, post } = letter;
        match post {
            Post::Body(connection) => {
                admit(&mut self.clients, connection, readiness);
                true
            }
            Post::Bye => {
                self.is_open = false;
                false
            }
        }
    }

    /// Serves the client that is ready: a session begins where it had yet to, and has a turn or two, and a follower who hung up is
    /// parted with.
    pub(crate) fn serve<P: Readiness<C>>(&mut self, ready: Ready, readiness: &mut P)
        requires { AreWatched (P.watched readiness.old) self.old.clients }
        ensures serves { ServesAt M.tells C.remaining W.contents ready.key ready.is_gone self.old self.new }
        ensures watched { AreWatched (P.watched readiness.new) self.new.clients }
    {
        self.start(ready.key, readiness);
        self.turn_some(ready.key, readiness);
        if ready.is_gone {
            self.part(ready.key, readiness);
        }
    }

    // The session of the connection at this place begins, where nothing came of it yet.
    fn start<P: Readiness<C>>(&mut self, place: usize, readiness: &mut P)
        requires { AreWatched (P.watched readiness.old) self.old.clients }
        ensures starts { StartsAt M.tells C.remaining W.contents place self.old self.new }
        ensures watched { AreWatched (P.watched readiness.new) self.new.clients }
    {
        if !self.clients.is_silent(place) {
            return;
        }
        let session = OpenSession::new(MAX_READS);
        if begin(self.heap, &mut self.clients, place, session, readiness) {
            self.sessions = self.sessions.saturating_add(1);
        }
    }

    // The session at this place has a turn, which carries out what came, and one more where it goes on at once, which mostly finds
    // that nothing more did. Then others have theirs.
    fn turn_some<P: Readiness<C>>(&mut self, place: usize, readiness: &mut P)
        requires { AreWatched (P.watched readiness.old) self.old.clients }
        ensures turns { HasTurns M.tells C.remaining W.contents place self.old self.new }
        ensures watched { AreWatched (P.watched readiness.new) self.new.clients }
    {
        if self.turn(place, false, readiness) {
            self.turn(place, true, readiness);
        }
    }

    // The session at this place has a turn, if there is one. Whether it goes on at once: where this is the last turn for now,
    // its connection is told again by the next wait.
    fn turn<P: Readiness<C>>(&mut self, place: usize, is_last: bool, readiness: &mut P) -> bool
        requires { AreWatched (P.watched readiness.old) self.old.clients }
        ensures turned { IsTalk (client_at place self.old.clients) → HasTurnTo M.tells C.remaining W.contents place result self.old self.new }
        ensures idle { ¬ IsTalk (client_at place self.old.clients) → result ≡ false }
        ensures kept { ¬ IsTalk (client_at place self.old.clients) → self.new ≡ self.old }
        ensures talks { result ≡ true → IsTalk (client_at place self.old.clients) × IsTalk (client_at place self.new.clients) }
        ensures watched { AreWatched (P.watched readiness.new) self.new.clients }
    {
        let Some(talk) = self.clients.take_talk(place) else {
            return false;
        };
        let Talk {
            mut reader,
            writer,
            mut session,
            aim,
        } = talk;
        let turned = session.turn(&mut reader, writer, &mut self.desk);
        let joined = self.desk.joined();
        let pause = Pause {
            place,
            is_last,
            aim,
        };
        let (goes_on, left) = leave(turned, reader, session, joined, pause, readiness);
        self.clients.put(place, left);
        goes_on
    }

    // The observer of the follower at this place is disposed of, and the place is vacant.
    fn part<P: Readiness<C>>(&mut self, place: usize, readiness: &mut P)
        requires { AreWatched (P.watched readiness.old) self.old.clients }
        ensures parts { PartsAt M.tells C.remaining W.contents place self.old self.new }
        ensures watched { AreWatched (P.watched readiness.new) self.new.clients }
    {
        let Some(follower) = self.clients.take_follower(place) else {
            return;
        };
        readiness.forget(&follower.reader, place);
        self.desk.dispose(follower.observer);
    }
}
