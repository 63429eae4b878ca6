// What a drainer sends its subjects.
//
// What comes for a subject without a port is dropped: a drainer of a right box meets none.
ghost use Rattle.std.specs.Prelude.{◌≡◌, [], ◌∷◌, List, None, map, replicate};
ghost use Rattle.rx_pump.specs.Opened.{all_opened, calls_in};
ghost use Rattle.rx_sink.specs.KeptSinks.{events_asked};
ghost use Rattle.rx_note.specs.declared.event.Event.{Event};
ghost use Rattle.rx_note.specs.declared.event.Event.TheVariants.{Dispose, Request};
ghost use Rattle.rx_drain.specs.Calls.{SendsEvents, call, partings_of};

use crate::DrainFault;
use rx_heap::Heap;
use rx_mailbox::Port;
use rx_note::Event;
use rx_pump::Call;
use rx_sink::{Asks, Kept, Sink};
use std::sync::Wait;

// As many items are asked for by one letter at the most.
const MOST_ITEMS: u64 = u32::MAX as u64;

// Asks the subject for what it is to be asked, all items by one letter. That may be held back, need not wake the subject, and waits
// for no room as long as there is memory: the subject may wait for room in the drainer's box. It answers the fault, if there is one.
#[inline(always)] // once for each note, behind which mostly nothing is asked
pub(crate) fn send_asks<S: Drop, R: Wait>(
    rt: &R,
    subjects: &mut Vec<Port<Call<S>>, Heap>,
    subject: u32,
    asks: Asks,
) -> Option<DrainFault>
    ensures { SendsEvents result (map (λ event. (subject, event)) (events_asked asks)) (all_opened subjects.old.items) (all_opened subjects.new.items) }
{
    if asks.items == 0 && !asks.leaves {
        return None;
    }
    send_some(rt, subjects, subject, asks)
}

// The same where something is asked.
#[inline(never)] // behind one note in eight
fn send_some<S: Drop, R: Wait>(
    rt: &R,
    subjects: &mut Vec<Port<Call<S>>, Heap>,
    subject: u32,
    asks: Asks,
) -> Option<DrainFault>
    ensures { SendsEvents result (map (λ event. (subject, event)) (events_asked asks)) (all_opened subjects.old.items) (all_opened subjects.new.items) }
{
    let who = asks.who;
    let together = asks.items.min(MOST_ITEMS) as u32;
    let fault = send_requests(rt, subjects, subject, who, together);
    if fault.is_some() {
        return fault;
    }
    let fault = send_singly(rt, subjects, subject, who, asks.items - u64::from(together));
    if fault.is_some() {
        return fault;
    }
    if asks.leaves {
        return send_disposal(rt, subjects, subject, who);
    }
    None
}

// Asks the subject for what is beyond one letter, item by item, as `send_asks` does: hardly ever is there any.
fn send_singly<S: Drop, R: Wait>(
    rt: &R,
    subjects: &mut Vec<Port<Call<S>>, Heap>,
    subject: u32,
    who: u32,
    n: u64,
) -> Option<DrainFault>
    ensures { SendsEvents result (map (λ event. (subject, event)) (replicate n (Request who 1))) (all_opened subjects.old.items) (all_opened subjects.new.items) }
{
    for _ in 0..n {
        let fault = send_requests(rt, subjects, subject, who, 1);
        if fault.is_some() {
            return fault;
        }
    }
    None
}

// Asks the subject for so many items more for an observer, by one letter, as `send_asks` does.
fn send_requests<S: Drop, R: Wait>(
    rt: &R,
    subjects: &mut Vec<Port<Call<S>>, Heap>,
    subject: u32,
    who: u32,
    n: u32,
) -> Option<DrainFault>
    ensures { SendsEvents result (map (λ event. (subject, event)) (replicate n (Request who 1))) (all_opened subjects.old.items) (all_opened subjects.new.items) }
{
    if n == 0 {
        return None;
    }
    send(rt, subjects, subject, Event::Request { who, n })
}

// Asks for what is due of each sink, and has its observer disposed of, in their order, as `send_asks` does. It answers the fault, if
// there is one.
pub(crate) fn part_all<S: Sink, R: Wait>(
    rt: &R,
    subjects: &mut Vec<Port<Call<S>>, Heap>,
    kept: &[Kept<S>],
) -> Option<DrainFault>
    ensures { SendsEvents result (partings_of kept.now) (all_opened subjects.old.items) (all_opened subjects.new.items) }
{
    for one in kept {
        let asks = Asks {
            who: one.who,
            items: u64::from(one.due),
            leaves: true,
        };
        let fault = send_asks(rt, subjects, one.subject, asks);
        if fault.is_some() {
            return fault;
        }
    }
    None
}

// Asks the subject to let an observer go, as `send_asks` does.
fn send_disposal<S: Drop, R: Wait>(
    rt: &R,
    subjects: &mut Vec<Port<Call<S>>, Heap>,
    subject: u32,
    who: u32,
) -> Option<DrainFault>
    ensures { SendsEvents result ((subject, Dispose who) ∷ []) (all_opened subjects.old.items) (all_opened subjects.new.items) }
{
    send(rt, subjects, subject, Event::Dispose { who })
}

// Sends an event to the subject at a place, if there is a port to it: it stands for one or several. It answers the fault, if there is
// one.
fn send<S: Drop, R: Wait>(
    rt: &R,
    subjects: &mut Vec<Port<Call<S>>, Heap>,
    subject: u32,
    event: Event,
) -> Option<DrainFault>
    ensures { (first : Event) (rest : List Event) → calls_in {S = S} 0 None event ≡ map call (first ∷ rest)
        → SendsEvents result (map (λ event. (subject, event)) (first ∷ rest)) (all_opened subjects.old.items) (all_opened subjects.new.items) }
{
    let place = subject as usize;
    if place >= subjects.len() {
        return None;
    }
    let call = Call {
        ticket: 0,
        event,
        sink: None,
    };
    let Ok(()) = subjects[place].hold(rt, call) else {
        return Some(DrainFault::SubjectGone(place));
    };
    None
}

// Whether requests are held back for which their box had no room.
pub(crate) fn holds_back<S: Drop>(subjects: &Vec<Port<Call<S>>, Heap>) -> bool {
    subjects.iter().any(|port| port.holds_back())
}

// Whether a subject sleeps that is to be asked for more.
pub(crate) fn would_wake<S: Drop>(subjects: &Vec<Port<Call<S>>, Heap>) -> bool {
    subjects.iter().any(|port| port.would_wake())
}
