// One call of a desk: what it sends.
//
// A call that a port hands back uses no ticket, since it was never put.
ghost use Rattle.std.specs.Prelude.{◌≡◌, ◌<◌, vec_len, MatchResult};
ghost use Rattle.rx_mailbox.specs.Boxes.{all_told};
ghost use Rattle.rx_pump.specs.Marks.{to_port};
ghost use Rattle.rx_mailbox.specs.PortRows.{Puts};

use crate::call::Call;
use rx_heap::Heap;
use rx_mailbox::{Port, ring_all};
use rx_note::Event;
use std::sync::Wait;

// Sends a call to a subject. `Err` has the sink of a call that was handed back.
pub(crate) fn send_call<S: Drop, R: Wait>(
    rt: &R,
    ports: &mut Vec<Port<Call<S>>, Heap>,
    subject: usize,
    call: Call<S>,
) -> Result<(), Option<S>>
    requires { subject < vec_len ports.old }
    ensures { MatchResult result
        (λ _. Puts (λ place. to_port subject place call) (all_told ports.old.items) (all_told ports.new.items))
        (λ back. (back ≡ call.sink) × (all_told ports.new.items ≡ all_told ports.old.items)) }
{
    match ports[subject].send(rt, call) {
        Ok(()) => Ok(()),
        Err(back) => Err(back.sink),
    }
}

// Sends a call to a subject with others, behind which it waits to go. `Err` has the event of a call that was handed back.
pub(crate) fn post_call<S: Drop, R: Wait>(
    rt: &R,
    ports: &mut Vec<Port<Call<S>>, Heap>,
    subject: usize,
    call: Call<S>,
) -> Result<(), Event>
    requires { subject < vec_len ports.old }
    ensures { MatchResult result
        (λ _. Puts (λ place. to_port subject place call) (all_told ports.old.items) (all_told ports.new.items))
        (λ back. (back ≡ call.event) × (all_told ports.new.items ≡ all_told ports.old.items)) }
{
    match ports[subject].hold_back(rt, call) {
        Ok(()) => Ok(()),
        Err(back) => Err(back.event),
    }
}

// Has go all that the ports hold back, if they hold something back. A subject's pump never waits for room for its replies
// (`Port::hold`), so waiting for room in the box of one keeps none of the others waiting.
pub(crate) fn ring_held<S: Drop, R: Wait>(
    rt: &R,
    ports: &mut Vec<Port<Call<S>>, Heap>,
    holds: &mut bool,
)
    ensures { all_told ports.new.items ≡ all_told ports.old.items }
{
    if !*holds {
        return;
    }
    ring_all(rt, ports);
    *holds = false;
}
