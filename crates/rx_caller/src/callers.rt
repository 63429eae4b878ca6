ghost use Rattle.std.specs.Prelude.{◌≡◌, ◌∷◌, [], ◌++◌, IfOk, MatchResult};
ghost use Rattle.std.specs.List.{All};
ghost use Rattle.rx_caller.specs.declared.caller_error.CallerError.TheVariants.{NoDesk};

use crate::origin::Origin;
use crate::{Caller, CallerError, EndedCaller};
use rx_heap::{Heap, Memory};
use rx_pump::EndedDesk;
use rx_server::{CloseFault, Report, Server};
use rx_sink::Sink;
use std::marker::Model;
use std::sync::Wait;
use std::thread::Threads;

/// A server whose desks callers have: it hands them out, takes back what they left, and is closed. One that is let go without
/// `close` waits for nobody, as a server.
pub struct Callers<S: Sink> {
    server: Server<S>,
    ended: Vec<EndedDesk<S>, Heap>,
}

// It stands here, and isn't derived, so that what lets go of it is one call that is proved once.
impl<S: Sink> Drop for Callers<S> {
    fn drop(self) {
        let Callers {
            server: _,
            ended: _,
        } = self;
    }
}

impl<S: Sink> Model for Callers<S> {
    ghost use Rattle.std.specs.List.{All};
    ghost use Rattle.rx_server.specs.Servers.{IsEndOf};
    ghost use Rattle.rx_caller.specs.Calling.{CallersView};

    ghost Value = { CallersView S S.Rest };

    ghost view = { λ c. record { server = c.server; ended = c.ended.items } };

    ghost invariant = { λ c. All (IsEndOf c.server.made) c.ended.items };
}

impl<S: Sink> Callers<S> {
    ghost use Rattle.rx_server.specs.Servers.{Closes, Fails, with_desk};

    /// The callers of a server that was started: of the desks that it didn't hand out yet, since one that it did is missing at the
    /// close. What callers leave takes memory of this heap.
    pub fn of(server: Server<S>, heap: Heap) -> Callers<S>
        ensures server { result.server ≡ server }
        ensures none { result.ended ≡ [] }
    {
        Callers {
            server,
            ended: Vec::new(heap),
        }
    }

    /// The caller of the next desk, in their order, each once. There are as many as the configuration has workers.
    ///
    /// # Errors
    ///
    /// `NoDesk`: all were handed out.
    pub fn next(&mut self) -> Result<Caller<S>, CallerError>
        ensures next { MatchResult result
            (λ caller. self.old.server ≡ with_desk caller.desk self.new.server)
            (λ error. (error ≡ NoDesk) × (self.old.server.desks ≡ []) × (self.new.server ≡ self.old.server)) }
        ensures own { IfOk result (λ caller. caller.made ≡ self.old.server.made) }
        ensures made { self.new.server.made ≡ self.old.server.made }
        ensures ended { self.new.ended ≡ self.old.ended }
    {
        match self.server.desk() {
            Some(desk) => Ok(Caller {
                desk,
                server: Origin::of(&self.server),
            }),
            None => Err(CallerError::NoDesk),
        }
    }

    /// Takes back what a caller of this server left.
    ///
    /// # Errors
    ///
    /// `Memory`: there was none for it, and it is gone, so that the close answers `Unsettled`.
    pub fn take(&mut self, caller: EndedCaller<S>) -> Result<(), Memory>
        requires { caller.made ≡ self.old.server.made }
        ensures server { self.new.server ≡ self.old.server }
        ensures taken { MatchResult result
            (λ _. self.new.ended ≡ self.old.ended ++ caller.end ∷ [])
            (λ _. self.new.ended ≡ self.old.ended) }
    {
        if self.ended.reserve(1).is_err() {
            return Err(Memory);
        }
        self.ended.push_reserved(caller.into_desk());
        Ok(())
    }

    /// Closes the server, as [`Server::close`] does, and reports. It waits until each caller that was handed out has finished or
    /// is let go.
    ///
    /// # Errors
    ///
    /// `Ended`: a thread of the server ended by a fault. `Unsettled`: not each caller came back.
    pub fn close<R: Threads + Wait>(self, rt: &R) -> Result<Report<S>, CloseFault>
        ensures { MatchResult result (Closes S.acts self.server self.ended) (Fails S.acts self.server self.ended) }
    {
        let Callers { server, ended } = self;
        server.close(rt, ended)
    }
}
