ghost use Rattle.std.specs.Prelude.{◌≡◌, [], MatchResult};
ghost use Rattle.crossbeam_channel.specs.Claims.{view};
ghost use Rattle.rx_mailbox.specs.declared.letter.Post.TheVariants.{Body, Bye};
ghost use Rattle.rx_mailbox.specs.Batches.{bodies_in};
ghost use Rattle.rx_mailbox.specs.Boxes.{with_bodies, with_post, HasBye};
ghost use Rattle.rx_mailbox.specs.Passes.{inbox_of, IsReader};

use crate::bell::bells::SharedBells;
use crate::channel::rule::{JoinPort, Show};
use crate::channel::{BoxPass, BoxSender, Unput, put, try_put};
use crate::letter::Post;
use crate::letter::batch::Batch;
use crate::opening::leavings::Leavings;
use crate::port::ended_port::EndedPort;
use rx_heap::Heap;
use std::collections::VecDeque;
use std::marker::Model;
use std::sync::Wait;

/// The way by which a port puts letters into its box. Contracts see a port that holds nothing back. No put wakes an inbox that
/// sleeps, but where it waits for room.
pub(crate) struct Outlet<B: Drop> {
    pub(crate) number: u32,
    pub(crate) sender: BoxSender<B>,
    pub(crate) bells: SharedBells,
    pub(crate) pass: BoxPass<B>,
}

// By hand: rx_heap says why.
impl<B: Drop> Drop for Outlet<B> {
    fn drop(self) {
        let Outlet {
            number: _,
            sender,
            bells,
            pass: _,
        } = self;
        // The inbox is told once the last port is gone.
        drop(sender);
        bells.letter.ring();
    }
}

impl<B: Drop> Model for Outlet<B> {
    ghost use Rattle.std.specs.Prelude.{false};
    ghost use Rattle.crossbeam_channel.specs.Claims.{view as pass_view, IsSeatAt};
    ghost use Rattle.crossbeam_channel.specs.Ends.{sends_on};
    ghost use Rattle.rx_mailbox.specs.Boxes.{Outgoing};
    ghost use Rattle.rx_mailbox.specs.Passes.{port_of, IsPort};

    ghost Value = { Outgoing B };

    ghost view = { λ o. port_of o.number o.pass };

    ghost invariant = { λ o. IsSeatAt (sends_on o.sender) o.pass × IsPort o.number false (pass_view o.pass) };
}

impl<B: Drop> Outlet<B> {
    /// The number of its port.
    pub(crate) fn number(&self) -> u32
        ensures { result ≡ self.now.number }
    {
        self.number
    }

    /// Puts a body, and waits while the box is full. `Err` hands it back where the inbox is gone, and nothing changed.
    pub(crate) fn put_one<R: Wait>(
        &mut self,
        rt: &R,
        leavings: &Leavings<B>,
        body: B,
    ) -> Result<(), B>
        ensures { MatchResult result
            (λ _. self.new ≡ with_post self.old (Body body))
            (λ back. (back ≡ body) × (self.new ≡ self.old)) }
    {
        match self.put(rt, leavings, Batch::One(body)) {
            Ok(()) => Ok(()),
            Err(Batch::One(body)) => Err(body),
            Err(Batch::Many(_)) => unreachable!(),
        }
    }

    /// Puts several bodies at once, and waits while the box is full. `Err` hands them back where the inbox is gone, and nothing
    /// changed.
    pub(crate) fn put_many<R: Wait>(
        &mut self,
        rt: &R,
        leavings: &Leavings<B>,
        bodies: VecDeque<B, Heap>,
    ) -> Result<(), VecDeque<B, Heap>>
        ensures { MatchResult result
            (λ _. self.new ≡ with_bodies bodies.items self.old)
            (λ back. (back.items ≡ bodies.items) × (self.new ≡ self.old)) }
    {
        match self.put(rt, leavings, Batch::Many(bodies)) {
            Ok(()) => Ok(()),
            Err(Batch::Many(bodies)) => Err(bodies),
            Err(Batch::One(_)) => unreachable!(),
        }
    }

    /// As `put_one` and `put_many`, but waits for no room: `Err` hands the batch back too where there is none.
    pub(crate) fn try_put<R: Wait>(&mut self, rt: &R, batch: Batch<B>) -> Result<(), Batch<B>>
        ensures { MatchResult result
            (λ _. self.new ≡ with_bodies (bodies_in batch) self.old)
            (λ back. (back ≡ batch) × (self.new ≡ self.old)) }
    {
        let outcome = try_put(
            rt,
            &self.sender,
            &mut self.pass,
            self.number,
            Post::Body(batch),
        );
        match outcome {
            Ok(()) => Ok(()),
            Err(
                Unput {
                    post: Post::Body(batch),
                    is_full: _,
                },
            ) => Err(batch),
            Err(
                Unput {
                    post: Post::Bye,
                    is_full: _,
                },
            ) => unreachable!(),
        }
    }

    // Puts a batch.
    fn put<R: Wait>(
        &mut self,
        rt: &R,
        leavings: &Leavings<B>,
        batch: Batch<B>,
    ) -> Result<(), Batch<B>>
        ensures { MatchResult result
            (λ _. self.new ≡ with_bodies (bodies_in batch) self.old)
            (λ back. (back ≡ batch) × (self.new ≡ self.old)) }
    {
        let outcome = put(
            rt,
            &self.sender,
            &self.bells,
            leavings,
            &mut self.pass,
            self.number,
            Post::Body(batch),
        );
        match outcome {
            Ok(()) => Ok(()),
            Err(Post::Body(batch)) => Err(batch),
            Err(Post::Bye) => unreachable!(),
        }
    }

    /// Whether the inbox is gone.
    pub(crate) fn is_inbox_gone(&self) -> bool {
        self.bells.is_inbox_gone()
    }

    /// Whether the inbox does not sleep.
    pub(crate) fn is_inbox_awake(&self) -> bool {
        self.bells.letter.is_awake()
    }

    /// Whether the inbox sleeps so that a nudge wakes it.
    pub(crate) fn sleeps_lightly(&self) -> bool {
        self.bells.letter.sleeps_lightly()
    }

    /// Wakes the inbox, if it sleeps so that a nudge does.
    pub(crate) fn nudge(&self) {
        self.bells.letter.nudge();
    }

    /// Wakes the inbox, if it sleeps.
    pub(crate) fn ring(&self) {
        self.bells.letter.ring();
    }

    /// Puts Bye, after which this port puts nothing, and waits while the box is full. `Err` hands the outlet back where the inbox
    /// is gone, and nothing changed.
    pub(crate) fn finish<R: Wait>(
        self,
        rt: &R,
        leavings: &Leavings<B>,
    ) -> Result<EndedPort<B>, Outlet<B>>
        ensures { MatchResult result (λ ended. ended ≡ with_post self Bye) (λ back. back ≡ self) }
    {
        let Outlet {
            number,
            sender,
            bells,
            mut pass,
        } = self;
        match put(rt, &sender, &bells, leavings, &mut pass, number, Post::Bye) {
            Ok(()) => {
                bells.letter.ring();
                Ok(EndedPort {
                    number,
                    sender,
                    bells,
                    pass,
                })
            }
            Err(_) => Err(Outlet {
                number,
                sender,
                bells,
                pass,
            }),
        }
    }

    /// The same, but it waits for no room: `Err` hands the outlet back too where there is none.
    pub(crate) fn try_finish<R: Wait>(self, rt: &R) -> Result<EndedPort<B>, Outlet<B>>
        ensures { MatchResult result (λ ended. ended ≡ with_post self Bye) (λ back. back ≡ self) }
    {
        let Outlet {
            number,
            sender,
            bells,
            mut pass,
        } = self;
        match try_put(rt, &sender, &mut pass, number, Post::Bye) {
            Ok(()) => Ok(EndedPort {
                number,
                sender,
                bells,
                pass,
            }),
            Err(_) => Err(Outlet {
                number,
                sender,
                bells,
                pass,
            }),
        }
    }

    // Joins its pass into that of the inbox: no Bye of it was received.
    pub(crate) fn show_open(self, pass: &mut BoxPass<B>)
        requires reader { IsReader (view pass.old) }
        requires free { pass.old.me.1 ≡ [] }
        requires from_box { self.box ≡ (inbox_of pass.old).box }
        ensures reader { IsReader (view pass.new) }
        ensures free { pass.new.me.1 ≡ [] }
        ensures same { inbox_of pass.new ≡ inbox_of pass.old }
        ensures open { ¬ HasBye (inbox_of pass.old) self.number }
    {
        let Outlet {
            number: _,
            sender,
            bells: _,
            pass: own,
        } = self;
        sender.absorb::<JoinPort>(pass, own);
        sender.learn_as::<Show>(pass);
    }
}
