// The channel of a box, the one way in which a port puts a letter, and the one in which the inbox takes one.
ghost use Rattle.std.specs.Prelude.{◌≡◌, ◌++◌, ◌∷◌, [], false, IfErr, MatchResult};
ghost use Rattle.crossbeam_channel.specs.Claims.{view, IsSeatAt};
ghost use Rattle.crossbeam_channel.specs.Ends.{sends_on, receives_on};
ghost use Rattle.rx_mailbox.specs.declared.channel.rule.View.TheVariants.{Sends};
ghost use Rattle.rx_mailbox.specs.Letters.{letter};
ghost use Rattle.rx_mailbox.specs.Passes.{own_of, IsPort, IsReader, TakesOne};
ghost use Rattle.rx_mailbox.specs.Steps.{Shows};

pub(crate) mod inlet;
pub(crate) mod outlet;
pub(crate) mod rule;

use crate::bell::bells::Bells;
use crate::bell::{LOOKS, Sleep};
use crate::channel::rule::{MailboxRule, Put, Take, View};
use crate::letter::batch::Batch;
use crate::letter::{Letter, Post};
use crate::opening::leavings::Leavings;
use crossbeam_channel::{Pass, RuledReceiver, RuledSender, TryRecvError, TrySendError};
use rx_heap::Heap;
use std::sync::Wait;

pub(crate) type BoxSender<B> = RuledSender<Letter<Batch<B>>, View<Batch<B>>, MailboxRule, Heap>;

pub(crate) type BoxReceiver<B> = RuledReceiver<Letter<Batch<B>>, View<Batch<B>>, MailboxRule, Heap>;

pub(crate) type BoxPass<B> = Pass<Letter<Batch<B>>, View<Batch<B>>>;

// A post that was not put.
#[derive(Drop)]
pub(crate) struct Unput<B: Drop> {
    pub(crate) post: Post<Batch<B>>,
    // The box is full; else its inbox is gone.
    pub(crate) is_full: bool,
}

// Puts a letter of the port at the back where there is room, and waits for none, or hands the post back. It rings no inbox.
pub(crate) fn try_put<B: Drop, R: Wait>(
    rt: &R,
    sender: &BoxSender<B>,
    pass: &mut BoxPass<B>,
    number: u32,
    post: Post<Batch<B>>,
) -> Result<(), Unput<B>>
    requires pass { IsSeatAt (sends_on sender.now) pass.old }
    requires port { IsPort number false (view pass.old) }
    ensures pass { IsSeatAt (sends_on sender.now) pass.new }
    ensures put { MatchResult result
        (λ _. view pass.new ≡ Sends number (own_of (view pass.old) ++ letter number post ∷ []))
        (λ back. (back.post ≡ post) × (view pass.new ≡ view pass.old)) }
{
    match sender.try_send_as::<Put, R>(rt, pass, Letter { from: number, post }) {
        Ok(()) => Ok(()),
        Err(TrySendError::Full(back)) => {
            let Letter { from: _, post } = back;
            Err(Unput {
                post,
                is_full: true,
            })
        }
        Err(error) => {
            let Letter { from: _, post } = error.into_inner();
            Err(Unput {
                post,
                is_full: false,
            })
        }
    }
}

// Puts a letter of the port at the back, and waits while there is no room, or hands the post back. It rings no inbox that
// sleeps, but where it waits for room.
pub(crate) fn put<B: Drop, R: Wait>(
    rt: &R,
    sender: &BoxSender<B>,
    bells: &Bells,
    leavings: &Leavings<B>,
    pass: &mut BoxPass<B>,
    number: u32,
    post: Post<Batch<B>>,
) -> Result<(), Post<Batch<B>>>
    requires pass { IsSeatAt (sends_on sender.now) pass.old }
    requires port { IsPort number false (view pass.old) }
    ensures pass { IsSeatAt (sends_on sender.now) pass.new }
    ensures put { MatchResult result
        (λ _. view pass.new ≡ Sends number (own_of (view pass.old) ++ letter number post ∷ []))
        (λ back. (back ≡ post) × (view pass.new ≡ view pass.old)) }
{
    match sender.try_send_as::<Put, R>(rt, pass, Letter { from: number, post }) {
        Ok(()) => Ok(()),
        Err(refused) => put_again(rt, sender, bells, leavings, pass, refused.into_inner()),
    }
}

// The same of a letter that was refused once.
#[inline(never)] // so that a letter for which there is room is moved less often
fn put_again<B: Drop, R: Wait>(
    rt: &R,
    sender: &BoxSender<B>,
    bells: &Bells,
    leavings: &Leavings<B>,
    pass: &mut BoxPass<B>,
    refused: Letter<Batch<B>>,
) -> Result<(), Post<Batch<B>>>
    requires pass { IsSeatAt (sends_on sender.now) pass.old }
    requires port { IsPort refused.from false (view pass.old) }
    ensures pass { IsSeatAt (sends_on sender.now) pass.new }
    ensures put { MatchResult result
        (λ _. view pass.new ≡ Sends refused.from (own_of (view pass.old) ++ letter refused.from refused.post ∷ []))
        (λ back. (back ≡ refused.post) × (view pass.new ≡ view pass.old)) }
{
    let mut letter = refused;
    let mut looks = 0;
    for _ in rt.forever() {
        match sender.try_send_as::<Put, R>(rt, pass, letter) {
            Ok(()) => return Ok(()),
            Err(TrySendError::Full(back)) => letter = back,
            Err(error) => {
                // The inbox may have rung for the last time before this port set the flag by which another sleeps.
                bells.room.ring();
                let Letter { from: _, post } = error.into_inner();
                return Err(post);
            }
        }
        // Nobody else makes room where the inbox was let go.
        if leavings.discard(rt) {
            continue;
        }
        // The inbox may sleep beside a box that was filled without a ring.
        bells.letter.ring();
        looks = bells.room.wait(rt, looks, LOOKS, Sleep::Light);
    }
    unreachable!()
}

// Takes the letter at the front, if there is one. `Err` says whether none will come any more.
pub(crate) fn take<B: Drop, R: Wait>(
    rt: &R,
    receiver: &BoxReceiver<B>,
    pass: &mut BoxPass<B>,
) -> Result<Letter<Batch<B>>, TryRecvError>
    requires pass { IsSeatAt (receives_on receiver.now) pass.old }
    requires reader { IsReader (view pass.old) }
    ensures pass { IsSeatAt (receives_on receiver.now) pass.new }
    ensures taken { MatchResult result (λ letter. TakesOne (view pass.old) letter (view pass.new)) (λ _. view pass.new ≡ view pass.old) }
    ensures none { IfErr result (λ _. Shows (view pass.new) []) }
{
    receiver.try_recv_as::<Take, R>(rt, pass)
}
