// What a pump sends its drainers for one call.
//
// A drainer and a caller go by place: observer `who` belongs to the drainer at place `who` modulo their number, the reply to
// a letter from port p goes by the reply port at place p, whatever these ports' own numbers in their boxes are.
ghost use Rattle.std.specs.Prelude.{◌≡◌, ◌<◌, ◌%◌, [], ◌∷◌, ◌++◌, map, vec_len, option_to_list};
ghost use Rattle.rx_mailbox.specs.Boxes.{all_told};
ghost use Rattle.rx_pump.specs.Marks.{attach_of, detach_of, give, sent_back, who_of};
ghost use Rattle.rx_pump.specs.Marks as marks;
ghost use Rattle.rx_pump.specs.Sends.{SendsOuts};

use crate::out::Out;
use rx_heap::Heap;
use rx_mailbox::Port;
use rx_note::{Answer, Event, Given, Refusal};
use std::sync::Wait;

pub(crate) type Drainers<S> = Vec<Port<Out<S>>, Heap>;

// Splits the sink of a call that was answered so: what goes to the drainer of the observer that it made, and what goes
// back.
pub(crate) fn part<S: Drop>(
    answered: Result<Answer, Refusal>,
    sink: Option<S>,
) -> (Option<Out<S>>, Option<S>)
    ensures attached { option_to_list result.0 ≡ attach_of answered sink }
    ensures back { result.1 ≡ sent_back answered sink }
{
    match (answered, sink) {
        (Ok(Answer::Joined(who)), Some(sink)) => (Some(Out::Attach { who, sink }), None),
        (_, sink) => (None, sink),
    }
}

// The observer that an event asks to leave.
pub(crate) fn leaver(event: &Event) -> Option<u32>
    ensures { result ≡ marks.leaver event.now }
{
    match event {
        Event::Dispose { who } => Some(*who),
        _ => None,
    }
}

// What goes last to the drainer of an observer that was asked to leave, where that was answered so.
pub(crate) fn detach<S: Drop>(
    leaver: Option<u32>,
    answered: Result<Answer, Refusal>,
) -> Option<Out<S>>
    ensures { option_to_list result ≡ detach_of leaver answered }
{
    match (leaver, answered) {
        (Some(who), Ok(_)) => Some(Out::Detach { who }),
        _ => None,
    }
}

// Sends what a call sends: the sink of the observer that it made, the notes that it gave, and that an observer left. It
// need not wake a drainer, and may hold some back. `Err` has the place of the drainer that is gone.
pub(crate) fn send_all<S: Drop, R: Wait>(
    rt: &R,
    drainers: &mut Drainers<S>,
    first: Option<Out<S>>,
    outs: &mut Vec<Given, Heap>,
    last: Option<Out<S>>,
) -> Result<(), usize>
    requires { 0 < vec_len drainers.old }
    ensures { SendsOuts (option_to_list first ++ map give outs.old.items ++ option_to_list last) result (all_told drainers.old.items) (all_told drainers.new.items) }
{
    send_any(rt, drainers, first)?;
    give_all(rt, drainers, outs)?;
    send_any(rt, drainers, last)
}

// Sends the out, if there is one.
fn send_any<S: Drop, R: Wait>(
    rt: &R,
    drainers: &mut Drainers<S>,
    out: Option<Out<S>>,
) -> Result<(), usize>
    requires { 0 < vec_len drainers.old }
    ensures { SendsOuts (option_to_list out) result (all_told drainers.old.items) (all_told drainers.new.items) }
{
    match out {
        Some(out) => send(rt, drainers, out),
        None => Ok(()),
    }
}

// Sends the notes, in their order, as `send_all` does.
pub(crate) fn give_all<S: Drop, R: Wait>(
    rt: &R,
    drainers: &mut Drainers<S>,
    outs: &mut Vec<Given, Heap>,
) -> Result<(), usize>
    requires { 0 < vec_len drainers.old }
    ensures { SendsOuts (map give outs.old.items) result (all_told drainers.old.items) (all_told drainers.new.items) }
{
    // From the back, so that each note is moved out, and the list keeps its room.
    outs.reverse();
    while let Some(given) = outs.pop() {
        let Given { who, note } = given;
        send_to(rt, drainers, who, Out::Give { who, note })?;
    }
    Ok(())
}

// Sends an out to the drainer of its observer.
fn send<S: Drop, R: Wait>(rt: &R, drainers: &mut Drainers<S>, out: Out<S>) -> Result<(), usize>
    requires { 0 < vec_len drainers.old }
    ensures { SendsOuts (out ∷ []) result (all_told drainers.old.items) (all_told drainers.new.items) }
{
    let who = out.who();
    send_to(rt, drainers, who, out)
}

// Sends an out to the drainer of this observer, which is its.
#[inline(always)] // once for each note
fn send_to<S: Drop, R: Wait>(
    rt: &R,
    drainers: &mut Drainers<S>,
    who: u32,
    out: Out<S>,
) -> Result<(), usize>
    requires some { 0 < vec_len drainers.old }
    requires of { who ≡ who_of out }
    ensures { SendsOuts (out ∷ []) result (all_told drainers.old.items) (all_told drainers.new.items) }
{
    let place = place_among(who, drainers.len());
    let Ok(()) = drainers[place].send_quietly(rt, out) else {
        return Err(place);
    };
    Ok(())
}

// The place of an observer's drainer among so many. One has them all, and then nothing is divided.
#[inline(always)] // the same
fn place_among(who: u32, drainers: usize) -> usize
    requires { 0 < drainers }
    ensures place { result ≡ who % drainers }
    ensures within { result < drainers }
{
    if drainers == 1 {
        0
    } else {
        who as usize % drainers
    }
}
