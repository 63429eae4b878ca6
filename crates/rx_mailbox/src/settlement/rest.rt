// How a box settles whose ports have all ended, while letters are still in it.
ghost use Rattle.std.specs.Prelude.{◌≡◌, [], IfOk, IfErr, length};
ghost use Rattle.std.specs.List.{All};
ghost use Rattle.crossbeam_channel.specs.Claims.{view, IsSeatAt};
ghost use Rattle.crossbeam_channel.specs.Ends.{receives_on};
ghost use Rattle.rx_mailbox.specs.Batches.{carried};
ghost use Rattle.rx_mailbox.specs.Boxes.{AreOf, HasEachBye};
ghost use Rattle.rx_mailbox.specs.Passes.{inbox_in, inbox_of, notes_of, IsEmptied, IsNoted, IsReader, KeepsNotes};
ghost use Rattle.rx_mailbox.specs.Rests.{IsJoined, ReceivesMore};
ghost use Rattle.rx_mailbox.specs.Settling.{IsEachOnce, GotAll, letter_count};
ghost use Rattle.rx_mailbox.specs.Steps.{Shows};

use crate::channel::{BoxPass, BoxReceiver, take};
use crate::inbox::Inbox;
use crate::letter::batch::Batch;
use crate::letter::{Letter, Post};
use crate::port::ended_port::EndedPort;
use crate::settlement::is_each_once;
use crate::settlement::settle_cause::SettleCause;
use crate::settlement::settled::Settled;
use crate::settlement::unsettled::Unsettled;
use rx_heap::Heap;
use std::sync::Wait;

/// Ends a box of which each port has ended, and receives before that what is still in it: of each port all that it put was
/// received, in its order, and nothing is left in the box. It waits for no letter, since each has been put. `Err` gives all parts
/// back, where they are not each port of the box once.
pub fn settle_rest<B: Drop, R: Wait>(
    rt: &R,
    inbox: Inbox<B>,
    ports: Vec<EndedPort<B>, Heap>,
) -> Result<Settled<B>, Unsettled<B>>
    requires { AreOf inbox ports.items }
    ensures received { IfOk result (λ settled. ReceivesMore inbox (inbox_in settled)) }
    ensures complete { IfOk result (λ settled. IsEachOnce inbox.ports ports.items × HasEachBye (inbox_in settled)) }
    ensures shares { IfOk result (λ settled. All (GotAll (inbox_in settled)) ports.items) }
    ensures joined { IfOk result (λ settled. All (IsNoted settled.knows) ports.items) }
    ensures empty { IfOk result IsEmptied }

    // On an error all parts come back.
    ensures back { IfErr result (λ back. (back.inbox ≡ inbox) × (back.ports.items ≡ ports.items)) }
    ensures cause { IfErr result (λ back. (back.cause ≡ SettleCause.Stranger) × ¬ IsEachOnce inbox.ports ports.items) }
{
    if !is_each_once(&inbox, &ports) {
        return Err(Unsettled {
            cause: SettleCause::Stranger,
            inbox,
            ports,
        });
    }
    let (receiver, mut pass, letters) = inbox.into_ends();
    note_all(&mut pass, ports);
    let letters = take_rest(rt, &receiver, &mut pass, letters);
    Ok(Settled { pass, letters })
}

// Joins the passes of ended ports into that of the inbox, which may not have received their Byes yet.
fn note_all<B: Drop>(pass: &mut BoxPass<B>, ports: Vec<EndedPort<B>, Heap>)
    requires reader { IsReader (view pass.old) }
    requires free { pass.old.me.1 ≡ [] }
    requires from_box { AreOf (inbox_of pass.old) ports.items }
    ensures reader { IsReader (view pass.new) }
    ensures free { pass.new.me.1 ≡ [] }
    ensures same { inbox_of pass.new ≡ inbox_of pass.old }
    ensures joined { All (IsJoined (view pass.new)) ports.items }
{
    for port in ports {
        port.note_into(pass);
    }
}

// Takes what is in the box until nothing is, and answers how many letters were received with those that had been.
fn take_rest<B: Drop, R: Wait>(
    rt: &R,
    receiver: &BoxReceiver<B>,
    pass: &mut BoxPass<B>,
    received: u64,
) -> u64
    requires seat { IsSeatAt (receives_on receiver.now) pass.old }
    requires reader { IsReader (view pass.old) }
    requires received { received ≡ letter_count (inbox_of pass.old).received }
    ensures reader { IsReader (view pass.new) }
    ensures received { ReceivesMore (inbox_of pass.old) (inbox_of pass.new) }
    ensures notes { notes_of (view pass.new) ≡ notes_of (view pass.old) }
    ensures none { Shows (view pass.new) [] }
    ensures letters { result ≡ letter_count (inbox_of pass.new).received }
{
    let mut letters = received;
    for _ in rt.forever() {
        match take(rt, receiver, pass) {
            Ok(letter) => letters = letters.saturating_add(carried(letter)),
            Err(_) => return letters,
        }
    }
    unreachable!()
}

// How many letters one of the channel carries.
fn carried<B: Drop>(letter: Letter<Batch<B>>) -> u64
    ensures { result ≡ length (carried letter) }
{
    let Letter { from: _, post } = letter;
    match post {
        Post::Bye | Post::Body(Batch::One(_)) => 1,
        Post::Body(Batch::Many(bodies)) => bodies.len() as u64,
    }
}
