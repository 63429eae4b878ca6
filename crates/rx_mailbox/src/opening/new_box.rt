ghost use Rattle.std.specs.Prelude.{◌≡◌, ◌+◌, [], IfOk, OnOk};
ghost use Rattle.crossbeam_channel.specs.Claims.{view, IsSeatAt};
ghost use Rattle.crossbeam_channel.specs.Ends.{sends_on, receives_on};
ghost use Rattle.rx_mailbox.specs.declared.channel.rule.View.TheVariants.{Receives};
ghost use Rattle.rx_mailbox.specs.Boxes.{capacity_of, outgoing};
ghost use Rattle.rx_mailbox.specs.Passes.{box_of, inbox_of, taken_of, IsReader, IsTally};
ghost use Rattle.rx_mailbox.specs.Sizes.{IsSize};

use crate::bell::bells::{Bells, SharedBells};
use crate::bell::patience::Patience;
use crate::channel::inlet::Inlet;
use crate::channel::outlet::Outlet;
use crate::channel::rule::{MailboxRule, SplitPort, View};
use crate::channel::{BoxPass, BoxReceiver, BoxSender};
use crate::inbox::Inbox;
use crate::letter::Letter;
use crate::letter::batch::Batch;
use crate::letter::lists::{Lists, SharedLists};
use crate::opening::leavings::{Leavings, SharedLeavings};
use crate::port::Port;
use crossbeam_channel::bounded_with;
use rx_heap::{Heap, Memory};
use std::collections::VecDeque;
use std::sync::Arc;

/// A box whose ports are being made: both ends of its channel, and the pass that those of the ports are split from.
pub(crate) struct NewBox<B: Drop> {
    sender: BoxSender<B>,
    receiver: BoxReceiver<B>,
    bells: SharedBells,
    lists: SharedLists<B>,
    leavings: SharedLeavings<B>,
    hand: VecDeque<B, Heap>,
    pass: BoxPass<B>,
    byes: Vec<bool, Heap>,
    heap: Heap,
    ghost none: { hand.items ≡ [] },
    ghost sends: { IsSeatAt (sends_on sender) pass },
    ghost receives: { IsSeatAt (receives_on receiver) pass },
}

// By hand: rx_heap says why.
impl<B: Drop> Drop for NewBox<B> {
    fn drop(self) {
        let NewBox {
            sender: _,
            receiver: _,
            bells: _,
            lists: _,
            leavings: _,
            hand: _,
            pass: _,
            byes: _,
            heap: _,
        } = self;
    }
}

impl<B: Drop> NewBox<B> {
    /// A box of a size that is allowed, with no port yet.
    pub(crate) fn new(alloc: Heap, capacity: usize, senders: u32) -> Result<NewBox<B>, Memory>
        requires { IsSize capacity senders }
        ensures view { IfOk result (λ new. view new.pass ≡ Receives 0 [] []) }
        ensures tally { IfOk result (λ new. IsTally {B = B} new.byes.items (Receives senders [] [])) }
        ensures capacity { IfOk result (λ new. capacity_of (box_of new.pass) ≡ capacity) }
    {
        let byes = vec![in alloc.clone()?; false; senders as usize]?;
        let bells = Bells::shared(alloc.clone()?)?;
        let lists = Lists::shared(alloc.clone()?, capacity, senders as usize)?;
        let leavings = Leavings::shared(alloc.clone()?, Arc::try_clone(&bells)?, senders as usize)?;
        let hand = VecDeque::new(alloc.clone()?);
        let heap = alloc.clone()?;
        let (sender, receiver, pass) = bounded_with::<
            Letter<Batch<B>>,
            View<Batch<B>>,
            MailboxRule,
            Heap,
        >(alloc, capacity)?;
        Ok(NewBox {
            sender,
            receiver,
            bells,
            lists,
            leavings,
            hand,
            pass,
            byes,
            heap,
        })
    }

    /// The port with the next number.
    pub(crate) fn port(&mut self, number: u32) -> Result<Port<B>, Memory>
        requires { view self.old.pass ≡ Receives number [] [] }
        ensures view { OnOk result (view self.new.pass ≡ Receives (number + 1) [] []) }
        ensures same_box { box_of self.new.pass ≡ box_of self.old.pass }
        ensures byes { self.new.byes.items ≡ self.old.byes.items }
        ensures port { IfOk result (λ port. port ≡ outgoing (box_of self.old.pass) number []) }
    {
        // The sender comes last, so that no way out has to let one go: that would be proved for itself.
        let bells = Arc::try_clone(&self.bells)?;
        let lists = Arc::try_clone(&self.lists)?;
        let leavings = Arc::try_clone(&self.leavings)?;
        let held = VecDeque::new(self.heap.clone()?);
        let sender = self.sender.try_clone()?;
        let own = sender.another::<SplitPort>(&mut self.pass);
        let outlet = Outlet {
            number,
            sender,
            bells,
            pass: own,
        };
        Ok(Port {
            outlet,
            lists,
            leavings,
            held,
            spare: None,
            owes_ring: false,
        })
    }

    /// Its inbox, once each port is made.
    pub(crate) fn into_inbox(self) -> Inbox<B>
        requires reader { IsReader (view self.pass) }
        requires tally { IsTally self.byes.items (view self.pass) }
        requires first { taken_of (view self.pass) ≡ [] }
        ensures { result ≡ inbox_of self.pass }
    {
        let NewBox {
            sender: _,
            receiver,
            bells,
            lists,
            leavings,
            hand,
            pass,
            byes,
            heap: _,
        } = self;
        let inlet = Inlet {
            receiver,
            bells,
            pass,
            byes,
        };
        Inbox {
            inlet,
            lists,
            leavings,
            hand,
            from: 0,
            letters: 0,
            patience: Patience::new(),
        }
    }
}
