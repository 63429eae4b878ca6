// One call: the hub takes its event, and the ports put what it gave and answered.
ghost use Rattle.std.specs.Prelude.{◌≡◌, ◌≢◌, ◌<◌, ◌≤◌, [], ◌∷◌, ◌++◌, ℕ, Some, None, length, map, replicate, vec_len, option_to_list, MatchOption, MatchResult};
ghost use Rattle.rx_pump.specs.declared.call.Call.{Call};
ghost use Rattle.rx_hub.specs.Hubs.{is_miss};
ghost use Rattle.rx_mailbox.specs.Boxes.{all_told};
ghost use Rattle.rx_mailbox.specs.Letters.{letter, posts};
ghost use Rattle.rx_mailbox.specs.declared.letter.Letter.{Letter};
ghost use Rattle.rx_mailbox.specs.declared.letter.Post.TheVariants.{Body};
ghost use Rattle.rx_pump.specs.Marks.{give, to_port};
ghost use Rattle.rx_mailbox.specs.PortRows.{Puts};
ghost use Rattle.rx_pump.specs.Opened.{ask, opened_letter};
ghost use Rattle.rx_pump.specs.Pumps.{Makes, pump_with};
ghost use Rattle.rx_pump.specs.Turns.{HandlesCall, Sends, callers_of, ports_of};

use crate::call::Call;
use crate::out::Out;
use crate::pump::deliveries::{detach, give_all, leaver, part, send_all};
use crate::pump::pump_fault::PumpFault;
use crate::pump::pump_parts::PumpParts;
use crate::pump::tally::Tally;
use crate::reply::Reply;
use rx_heap::Heap;
use rx_mailbox::Port;
use rx_note::{Answer, Event, Given, Refusal};
use std::sync::Wait;

// What became of a call.
#[derive(Clone, Copy)]
pub(crate) struct Handled {
    // It was refused for want of memory.
    pub(crate) refused: bool,
    pub(crate) fault: Option<PumpFault>,
}

// Makes the calls for which the letter of a port with this call stands: hands each to the hub, and sends what comes of it. It
// answers the fault, if there is one. `outs` is but room.
#[inline(always)] // once for each letter, which is moved no further where it asks for items
pub(crate) fn handle<S: Drop, R: Wait>(
    rt: &R,
    parts: &mut PumpParts<S>,
    outs: &mut Vec<Given, Heap>,
    tally: &mut Tally,
    port: u32,
    call: Call<S>,
) -> Option<PumpFault>
    requires { 0 < vec_len parts.old.drainers }
    ensures makes { (misses_before : ℕ) → Makes (pump_with parts.old tally.old.calls tally.old.refused misses_before None)
        (letter port (Body call))
        (pump_with parts.new tally.new.calls tally.new.refused misses_before result) }
    ensures inbox { parts.new.inbox ≡ parts.old.inbox }
    ensures of_port { result ≢ Some PumpFault.InboxGone }
{
    match asked(&call, port, parts.replies.len()) {
        Some((who, n)) => ask_each(rt, parts, outs, tally, port, who, n),
        None => {
            let handled = handle_any(rt, parts, outs, port, call);
            tally.count(handled.refused);
            handled.fault
        }
    }
}

// The observer for whom a call asks for items that brings no sink, and that is told no reply, and for how many it asks: it stands for
// so many calls. None where it stands for itself. The ports of lower numbers than `callers` are told replies.
#[inline(always)] // once for each letter
fn asked<S: Drop>(call: &Call<S>, port: u32, callers: usize) -> Option<(u32, u32)>
    ensures { MatchOption result
        (opened_letter callers (letter port (Body call.now)) ≡ letter port (Body call.now) ∷ [])
        (λ asked. (callers ≤ port) × (opened_letter callers (letter port (Body call.now)) ≡ posts port (replicate asked.1 (ask call.now.ticket asked.0)))) }
{
    if (port as usize) < callers || call.sink.is_some() {
        return None;
    }
    match &call.event {
        Event::Request { who, n } => Some((*who, *n)),
        _ => None,
    }
}

// Makes so many calls of a port that is told no reply, each of which asks for one item more for an observer: the hub takes them by
// one call, and what they give goes out. It answers the fault, if there is one.
fn ask_each<S: Drop, R: Wait>(
    rt: &R,
    parts: &mut PumpParts<S>,
    outs: &mut Vec<Given, Heap>,
    tally: &mut Tally,
    port: u32,
    who: u32,
    n: u32,
) -> Option<PumpFault>
    requires some { 0 < vec_len parts.old.drainers }
    requires silent { vec_len parts.old.replies ≤ port }
    ensures makes { (misses_before ticket : ℕ) (x : Letter (Call S)) → opened_letter (callers_of parts.old) x ≡ posts port (replicate n (ask ticket who))
        → Makes (pump_with parts.old tally.old.calls tally.old.refused misses_before None) x
        (pump_with parts.new tally.new.calls tally.new.refused misses_before result) }
    ensures inbox { parts.new.inbox ≡ parts.old.inbox }
    ensures of_port { result ≢ Some PumpFault.InboxGone }
{
    outs.clear();
    let missed = parts.hub.request_each(port, who, n, outs);
    tally.count_each(n, missed);
    drainer_gone(give_all(rt, &mut parts.drainers, outs))
}

// The fault where a drainer is gone.
fn drainer_gone(outcome: Result<(), usize>) -> Option<PumpFault>
    ensures { MatchResult outcome (λ _. result ≡ None) (λ place. result ≡ Some (PumpFault.DrainerGone place)) }
{
    match outcome {
        Ok(()) => None,
        Err(place) => Some(PumpFault::DrainerGone(place)),
    }
}

// Any call: hands it to the hub, and sends what comes of it.
#[inline(never)] // so that a request makes no room for it
fn handle_any<S: Drop, R: Wait>(
    rt: &R,
    parts: &mut PumpParts<S>,
    outs: &mut Vec<Given, Heap>,
    port: u32,
    call: Call<S>,
) -> Handled
    requires { 0 < vec_len parts.old.drainers }
    ensures handles { HandlesCall parts.old.hub parts.new.hub (ports_of parts.old) (ports_of parts.new) result.refused result.fault port call }
    ensures inbox { parts.new.inbox ≡ parts.old.inbox }
    ensures of_port { result.fault ≢ Some PumpFault.InboxGone }
{
    let Call {
        ticket,
        event,
        sink,
    } = call;
    let leaving = leaver(&event);
    outs.clear();
    let result = parts.hub.step(port, event, outs);
    let (first, sink) = part(result, sink);
    let reply = Reply {
        ticket,
        result,
        sink,
        items: parts.hub.items(),
    };
    let last = detach(leaving, result);
    let fault = send(rt, parts, first, outs, last, port, reply);
    Handled {
        refused: is_memory(result),
        fault,
    }
}

// Whether memory was wanting.
fn is_memory(answered: Result<Answer, Refusal>) -> bool
    ensures { result ≡ is_miss answered }
{
    matches!(answered, Err(Refusal::Memory))
}

// Sends what a call sends, and then its reply. It answers the fault, if there is one. All of it may be held back, and nobody
// need be woken.
fn send<S: Drop, R: Wait>(
    rt: &R,
    parts: &mut PumpParts<S>,
    first: Option<Out<S>>,
    outs: &mut Vec<Given, Heap>,
    last: Option<Out<S>>,
    port: u32,
    reply: Reply<S>,
) -> Option<PumpFault>
    requires { 0 < vec_len parts.old.drainers }
    ensures sends { Sends result (option_to_list first ++ map give outs.old.items ++ option_to_list last) port reply (ports_of parts.old) (ports_of parts.new) }
    ensures inbox { parts.new.inbox ≡ parts.old.inbox }
    ensures hub { parts.new.hub ≡ parts.old.hub }
{
    if let Err(place) = send_all(rt, &mut parts.drainers, first, outs, last) {
        return Some(PumpFault::DrainerGone(place));
    }
    send_reply(rt, &mut parts.replies, port, reply)
}

// Sends a reply to the port's calls, if there is a port for it. It answers the fault, if there is one. It waits for no room, since
// its caller may wait for room in the box of calls.
fn send_reply<S: Drop, R: Wait>(
    rt: &R,
    callers: &mut Vec<Port<Reply<S>>, Heap>,
    port: u32,
    reply: Reply<S>,
) -> Option<PumpFault>
    ensures { MatchOption result
        (Puts (λ p. to_port port p reply) (all_told callers.old.items) (all_told callers.new.items))
        (λ fault. (fault ≡ PumpFault.CallerGone port) × (all_told callers.new.items ≡ all_told callers.old.items) × (port < length (all_told callers.old.items))) }
{
    let place = port as usize;
    if place >= callers.len() {
        return None;
    }
    let Ok(()) = callers[place].hold(rt, reply) else {
        return Some(PumpFault::CallerGone(place));
    };
    None
}
