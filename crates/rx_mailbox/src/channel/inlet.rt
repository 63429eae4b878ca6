ghost use Rattle.std.specs.Prelude.{◌≡◌, ◌<◌, ◌↔◌, [], true, vec_len, if◌then◌else◌, slice_set, IsTrue, IfOk, MatchResult};
ghost use Rattle.crossbeam_channel.specs.Claims.{view, IsSeatAt};
ghost use Rattle.crossbeam_channel.specs.Ends.{receives_on};
ghost use Rattle.rx_mailbox.specs.Batches.{carried};
ghost use Rattle.rx_mailbox.specs.Boxes.{with_letters, HasBye, HasEachBye};
ghost use Rattle.rx_mailbox.specs.Letters.{ends};
ghost use Rattle.rx_mailbox.specs.Passes.{inbox_of, IsReader};

use crate::bell::Bell;
use crate::bell::bells::SharedBells;
use crate::channel::outlet::Outlet;
use crate::channel::{BoxPass, BoxReceiver, take};
use crate::letter::batch::Batch;
use crate::letter::{Letter, Post};
use crossbeam_channel::TryRecvError;
use rx_heap::Heap;
use std::marker::Model;
use std::sync::Wait;

/// The way by which an inbox takes letters out of its box. Contracts see an inbox that has nothing in hand.
pub(crate) struct Inlet<B: Drop> {
    pub(crate) receiver: BoxReceiver<B>,
    pub(crate) bells: SharedBells,
    pub(crate) pass: BoxPass<B>,
    // Of each port, whether its Bye was taken.
    pub(crate) byes: Vec<bool, Heap>,
}

// By hand: rx_heap says why.
impl<B: Drop> Drop for Inlet<B> {
    fn drop(self) {
        let Inlet {
            receiver,
            bells,
            pass: _,
            byes: _,
        } = self;
        // A port that waits for room is told once the inbox is gone.
        drop(receiver);
        bells.inbox_goes();
    }
}

impl<B: Drop> Model for Inlet<B> {
    ghost use Rattle.crossbeam_channel.specs.Claims.{view as pass_view, IsSeatAt};
    ghost use Rattle.crossbeam_channel.specs.Ends.{receives_on};
    ghost use Rattle.rx_mailbox.specs.Boxes.{Incoming};
    ghost use Rattle.rx_mailbox.specs.Passes.{inbox_of, IsReader, IsTally};

    ghost Value = { Incoming B };

    ghost view = { λ i. inbox_of i.pass };

    ghost invariant = { λ i. IsSeatAt (receives_on i.receiver) i.pass × IsReader (pass_view i.pass) × IsTally i.byes.items (pass_view i.pass) };
}

impl<B: Drop> Inlet<B> {
    /// Takes what a port put at once, and waits for nothing. `Err` where there is none, and nothing changed: it says whether
    /// some may still come.
    pub(crate) fn take<R: Wait>(&mut self, rt: &R) -> Result<Letter<Batch<B>>, TryRecvError>
        ensures taken { MatchResult result (λ x. self.new ≡ with_letters self.old (carried x)) (λ _. self.new ≡ self.old) }

        // It is from a port of the box whose Bye had not come.
        ensures port { IfOk result (λ x. x.from < self.old.ports) }
        ensures before_bye { IfOk result (λ x. ¬ HasBye self.old x.from) }
    {
        let taken = take(rt, &self.receiver, &mut self.pass);
        if let Ok(letter) = &taken {
            self.bells.room.ring();
            mark(&mut self.byes, letter);
        }
        taken
    }

    /// What its inbox waits on for a letter.
    pub(crate) fn bell(&self) -> &Bell {
        &self.bells.letter
    }

    /// Its pass.
    pub(crate) fn into_pass(self) -> BoxPass<B>
        ensures pass { inbox_of result ≡ self }
        ensures reader { IsReader (view result) }
        ensures free { result.me.1 ≡ [] }
    {
        let Inlet {
            receiver: _,
            bells: _,
            pass,
            byes: _,
        } = self;
        pass
    }

    /// The way by which it takes letters, and its pass.
    pub(crate) fn into_ends(self) -> (BoxReceiver<B>, BoxPass<B>)
        ensures seat { IsSeatAt (receives_on result.0) result.1 }
        ensures pass { inbox_of result.1 ≡ self }
        ensures reader { IsReader (view result.1) }
    {
        let Inlet {
            receiver,
            bells: _,
            pass,
            byes: _,
        } = self;
        (receiver, pass)
    }

    /// Lets go of a port that has not ended: no Bye of it was received.
    pub(crate) fn show_open(&mut self, outlet: Outlet<B>)
        requires { outlet.box ≡ self.old.box }
        ensures same { self.new ≡ self.old }
        ensures open { ¬ HasBye self.old outlet.number }
    {
        outlet.show_open(&mut self.pass);
    }

    /// How many ports the box has.
    pub(crate) fn ports(&self) -> usize
        ensures { result ≡ self.now.ports }
    {
        self.byes.len()
    }

    /// Whether the Bye of each port was taken.
    pub(crate) fn has_each_bye(&self) -> bool
        ensures { IsTrue result ↔ HasEachBye self.now }
    {
        self.byes.iter().all(|came| *came)
    }
}

// Marks the port of the letter as ended, where the letter is a Bye.
fn mark<B>(byes: &mut Vec<bool, Heap>, letter: &Letter<B>)
    requires { letter.now.from < vec_len byes.old }
    ensures { byes.new.items ≡ (if ends letter.now.post then slice_set byes.old.items letter.now.from true else byes.old.items) }
{
    if let Post::Bye = letter.post {
        byes[letter.from as usize] = true;
    }
}
