ghost use Rattle.std.specs.Prelude.{◌≡◌, ◌<◌, ◌≢◌, ◌≤◌, [], true, false, None, length, IfOk, MatchOption};
ghost use Rattle.rx_mailbox.specs.Parts.{AreOfOneBox, CannotSettle, IsFull, Settles, with_inbox, with_port};

use crate::inbox::Inbox;
use crate::port::ended_port::EndedPort;
use crate::settlement::rest::settle_rest;
use crate::settlement::settled::Settled;
use rx_heap::{Heap, Memory};
use std::marker::Model;
use std::sync::Wait;

/// What came back of one box so far: its inbox, and the ports of it that have ended.
pub struct BoxParts<B: Drop> {
    pub(crate) inbox: Option<Inbox<B>>,
    pub(crate) ports: Vec<EndedPort<B>, Heap>,
}

// By hand: rx_heap says why.
impl<B: Drop> Drop for BoxParts<B> {
    fn drop(self) {
        let BoxParts { inbox: _, ports: _ } = self;
    }
}

impl<B: Drop> Model for BoxParts<B> {
    ghost use Rattle.std.specs.Prelude.{vec_capacity};
    ghost use Rattle.rx_mailbox.specs.Parts.{PartsView};

    ghost Value = { PartsView B };

    ghost view = { λ p. record { inbox = p.inbox; ports = p.ports.items; room = vec_capacity p.ports } };
}

impl<B: Drop> BoxParts<B> {
    /// Nothing came back yet; there is room for as many ports as the box has.
    pub fn new(alloc: &Heap, senders: usize) -> Result<BoxParts<B>, Memory>
        ensures inbox { IfOk result (λ parts. parts.inbox ≡ None) }
        ensures ports { IfOk result (λ parts. parts.ports ≡ []) }
        ensures room { IfOk result (λ parts. senders ≤ parts.room) }
    {
        Ok(BoxParts {
            inbox: None,
            ports: Vec::with_capacity(alloc.clone()?, senders)?,
        })
    }

    /// Whether its inbox came back.
    pub fn has_inbox(&self) -> bool
        ensures came { result ≡ true → self.now.inbox ≢ None }
        ensures missing { result ≡ false → self.now.inbox ≡ None }
    {
        self.inbox.is_some()
    }

    /// Its inbox came back.
    pub fn put_inbox(&mut self, inbox: Inbox<B>)
        ensures { self.new ≡ with_inbox inbox self.old }
    {
        self.inbox = Some(inbox);
    }

    /// One of its ports came back. False where as many came back before as there is room for: then nothing changed.
    pub fn put_port(&mut self, port: EndedPort<B>) -> bool
        ensures put { result ≡ true → self.new ≡ with_port port self.old }
        ensures same { result ≡ false → self.new ≡ self.old }
        ensures full { result ≡ false → IsFull self.old }
    {
        if self.ports.len() == self.ports.capacity() {
            return false;
        }
        self.ports.push_reserved(port);
        true
    }

    // The box, settled, with what was still in it received. None where its inbox didn't come back, or not each of its ports once.
    pub(crate) fn settle<R: Wait>(self, rt: &R) -> Option<Settled<B>>
        requires { AreOfOneBox self }
        ensures { MatchOption result (CannotSettle self) (Settles self) }
    {
        let BoxParts { inbox, ports } = self;
        let inbox = inbox?;
        match settle_rest(rt, inbox, ports) {
            Ok(settled) => Some(settled),
            Err(_) => None,
        }
    }
}
