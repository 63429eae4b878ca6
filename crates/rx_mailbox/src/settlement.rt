// A box ends: of each port all that it put was received.
ghost use Rattle.std.specs.Prelude.{◌≡◌, ◌==◌, ◌<◌, ◌↔◌, ℕ, [], IsTrue, IfOk, IfErr};
ghost use Rattle.std.specs.List.{All, count_by};
ghost use Rattle.crossbeam_channel.specs.Claims.{view};
ghost use Rattle.rx_mailbox.specs.Boxes.{AreOf, HasBye, HasEachBye};
ghost use Rattle.rx_mailbox.specs.Passes.{inbox_in, inbox_of, IsEmptied, IsNoted, IsReader, KeepsNotes};
ghost use Rattle.rx_mailbox.specs.Settling.{IsEachOnce, GotAll, IsCause};

pub(crate) mod box_parts;
pub(crate) mod deal_of_rows;
pub(crate) mod each_box;
pub(crate) mod rest;
pub(crate) mod settle_cause;
pub(crate) mod settled;
pub(crate) mod unsettled;

use crate::channel::BoxPass;
use crate::inbox::Inbox;
use crate::port::ended_port::EndedPort;
use crate::settlement::settle_cause::SettleCause;
use crate::settlement::settled::Settled;
use crate::settlement::unsettled::Unsettled;
use rx_heap::Heap;

/// Ends a box of which each port has ended and each Bye was received: of each port all that it put was received, in its
/// order, and nothing is left in the box. It takes no memory and waits for no letter. `Err` gives all parts back: first
/// `Stranger`, then `MissingBye`.
pub fn settle<B: Drop>(
    inbox: Inbox<B>,
    ports: Vec<EndedPort<B>, Heap>,
) -> Result<Settled<B>, Unsettled<B>>
    requires { AreOf inbox ports.items }
    ensures received { IfOk result (λ settled. inbox_in settled ≡ inbox) }
    ensures complete { IfOk result (λ settled. IsEachOnce inbox.ports ports.items × HasEachBye inbox) }
    ensures shares { IfOk result (λ settled. All (GotAll inbox) ports.items) }
    ensures joined { IfOk result (λ settled. All (IsNoted settled.knows) ports.items) }
    ensures empty { IfOk result IsEmptied }

    // On an error all parts come back.
    ensures back { IfErr result (λ back. (back.inbox ≡ inbox) × (back.ports.items ≡ ports.items)) }
    ensures cause { IfErr result (λ back. IsCause inbox ports.items back.cause) }
{
    if !is_each_once(&inbox, &ports) {
        return Err(Unsettled {
            cause: SettleCause::Stranger,
            inbox,
            ports,
        });
    }
    if !inbox.has_each_bye() {
        return Err(Unsettled {
            cause: SettleCause::MissingBye,
            inbox,
            ports,
        });
    }
    let (mut pass, letters) = inbox.into_pass();
    join_all(&mut pass, ports);
    Ok(Settled { pass, letters })
}

// Whether these are the ports of the inbox's box by number, each once.
pub(crate) fn is_each_once<B: Drop>(inbox: &Inbox<B>, ports: &Vec<EndedPort<B>, Heap>) -> bool
    ensures { IsTrue result ↔ IsEachOnce inbox.now.ports ports.now.items }
{
    let made = inbox.ports();
    let ports = ports.as_slice();
    are_below(ports, made) && has_each_once(ports, made)
}

// Whether each port has a number below `made`.
fn are_below<B: Drop>(ports: &[EndedPort<B>], made: usize) -> bool
    ensures { IsTrue result ↔ All (λ port. port.number < made) ports.now }
{
    ports.iter().all(|port| (port.number() as usize) < made)
}

// Whether each number below `made` is that of just one port.
fn has_each_once<B: Drop>(ports: &[EndedPort<B>], made: usize) -> bool
    ensures { IsTrue result ↔ ((number : ℕ) → number < made → count_by (λ port. port.number == number) ports.now ≡ 1) }
{
    for number in 0..made {
        if count(ports, number) != 1 {
            return false;
        }
    }
    true
}

// How many of the ports have this number.
fn count<B: Drop>(ports: &[EndedPort<B>], number: usize) -> usize
    ensures { result ≡ count_by (λ port. port.number == number) ports.now }
{
    ports
        .iter()
        .filter(|port| port.number() as usize == number)
        .count()
}

// Joins the passes of ended ports into that of the inbox, which received their Byes: then all that they put was received.
fn join_all<B: Drop>(pass: &mut BoxPass<B>, ports: Vec<EndedPort<B>, Heap>)
    requires reader { IsReader (view pass.old) }
    requires free { pass.old.me.1 ≡ [] }
    requires from_box { AreOf (inbox_of pass.old) ports.items }
    requires byes { All (λ port. HasBye (inbox_of pass.old) port.number) ports.items }
    ensures reader { IsReader (view pass.new) }
    ensures same { inbox_of pass.new ≡ inbox_of pass.old }
    ensures keeps { KeepsNotes (view pass.old) (view pass.new) }
    ensures noted { All (IsNoted (view pass.new)) ports.items }
{
    for port in ports {
        port.join_into(pass);
    }
}
