// An ended port keeps its sender, because settling joins through it. So an inbox is told that it is gone only after every
// port and every ended port was dropped.
ghost use Rattle.std.specs.Prelude.{◌≡◌, []};
ghost use Rattle.crossbeam_channel.specs.Claims.{view};
ghost use Rattle.rx_mailbox.specs.Boxes.{HasBye};
ghost use Rattle.rx_mailbox.specs.Passes.{inbox_of, IsNoted, IsReader, KeepsNotes};
ghost use Rattle.rx_mailbox.specs.Rests.{IsJoined};

use crate::bell::bells::SharedBells;
use crate::channel::rule::{JoinPort, Show};
use crate::channel::{BoxPass, BoxSender};
use std::marker::Model;

/// A port after its Bye. Contracts see its number and its own list, whose last letter is the Bye.
pub struct EndedPort<B: Drop> {
    pub(crate) number: u32,
    // The inbox's pass is joined with this one through it, when the box settles.
    pub(crate) sender: BoxSender<B>,
    pub(crate) bells: SharedBells,
    pub(crate) pass: BoxPass<B>,
}

// By hand: rx_heap says why.
impl<B: Drop> Drop for EndedPort<B> {
    fn drop(self) {
        let EndedPort {
            number: _,
            sender,
            bells,
            pass: _,
        } = self;
        // The inbox is told once the last port is gone.
        drop(sender);
        bells.letter.ring();
    }
}

impl<B: Drop> Model for EndedPort<B> {
    ghost use Rattle.std.specs.Prelude.{true};
    ghost use Rattle.crossbeam_channel.specs.Claims.{view as pass_view, IsSeatAt};
    ghost use Rattle.crossbeam_channel.specs.Ends.{sends_on};
    ghost use Rattle.rx_mailbox.specs.Boxes.{Outgoing};
    ghost use Rattle.rx_mailbox.specs.Passes.{port_of, IsPort};

    ghost Value = { Outgoing B };

    ghost view = { λ p. port_of p.number p.pass };

    ghost invariant = { λ p. IsSeatAt (sends_on p.sender) p.pass × IsPort p.number true (pass_view p.pass) };
}

impl<B: Drop> EndedPort<B> {
    /// Its number in the box, from 0.
    pub fn number(&self) -> u32
        ensures { result ≡ self.now.number }
    {
        self.number
    }
    // Joins its pass into that of the inbox, which received its Bye: then all that it put was received.
    pub(crate) fn join_into(self, pass: &mut BoxPass<B>)
        requires reader { IsReader (view pass.old) }
        requires free { pass.old.me.1 ≡ [] }
        requires from_box { self.box ≡ (inbox_of pass.old).box }
        requires bye { HasBye (inbox_of pass.old) self.number }
        ensures reader { IsReader (view pass.new) }
        ensures free { pass.new.me.1 ≡ [] }
        ensures same { inbox_of pass.new ≡ inbox_of pass.old }
        ensures keeps { KeepsNotes (view pass.old) (view pass.new) }
        ensures noted { IsNoted (view pass.new) self }
    {
        let EndedPort {
            number: _,
            sender,
            bells: _,
            pass: own,
        } = self;
        sender.absorb::<JoinPort>(pass, own);
        sender.learn_as::<Show>(pass);
    }

    // Joins its pass into that of the inbox, which may not have received its Bye yet.
    pub(crate) fn note_into(self, pass: &mut BoxPass<B>)
        requires reader { IsReader (view pass.old) }
        requires free { pass.old.me.1 ≡ [] }
        requires from_box { self.box ≡ (inbox_of pass.old).box }
        ensures reader { IsReader (view pass.new) }
        ensures free { pass.new.me.1 ≡ [] }
        ensures same { inbox_of pass.new ≡ inbox_of pass.old }
        ensures keeps { KeepsNotes (view pass.old) (view pass.new) }
        ensures joined { IsJoined (view pass.new) self }
    {
        let EndedPort {
            number: _,
            sender,
            bells: _,
            pass: own,
        } = self;
        sender.absorb::<JoinPort>(pass, own);
    }
}
