//! A pump with its drainer and its caller: a run on one thread, whose letters are told, also with each growth refused in its
//! turn.

ghost use Rattle.std.specs.Prelude.{◌≡◌, ◌≤◌, [], vec_len, IfSome};
ghost use Rattle.std.specs.List.{All};
ghost use Rattle.rx_mailbox.specs.Boxes.{AreOf};
ghost use Rattle.rx_mailbox.specs.PortRows.{IsFresh};
ghost use Rattle.rx_pump.specs.Serving.{HasPumped};
ghost use Rattle.test_threads.specs.Wiring.{IsOne};

use crate::boxes::{close, copy, finish, first_of_two_if, made, send, two_if, unlimited};
use crate::expectations::{expect_count, expect_that, expect_words};
use crate::letters::told_of;
use rx_heap::Heap;
use rx_hub::Hub;
use rx_mailbox::{EndedPort, Inbox, Port, open};
use rx_note::{Event, Kind, Rules, Strategy};
use rx_pump::{Call, Out, Pump, PumpEnd, PumpFault, PumpStop, Reply};
use std::process::Abort;
use std::sync::Wait;
use std::test::Fail;
use test_kit::{Refusable, Seen, event_of, policy_of, refuse_in_turn, rules_of};

// The event of a sign.
fn event_by(rt: &impl Abort, heap: &Heap, sign: u8) -> Event {
    let policy = policy_of(Strategy::Buffer).expect(rt, "a policy");
    event_of(heap, policy, 1, sign).expect(rt, "an event")
}

// The call of a sign.
pub(crate) fn call_of(
    rt: &impl Abort,
    heap: &Heap,
    ticket: u64,
    sign: u8,
    sink: Option<u8>,
) -> Call<u8> {
    let event = event_by(rt, heap, sign);
    Call {
        ticket,
        event,
        sink,
    }
}

// The calls of a run: each with its port, 0 or 1, its ticket, the sign of its event and its sink.
const CALLS: [(u8, u64, u8, Option<u8>); 5] = [
    (0, 1, b'+', Some(7)),
    (0, 2, b'a', None),
    (1, 0, b'1', None),
    (0, 3, b'-', None),
    (0, 4, b'-', Some(9)),
];

// Sends the calls.
fn send_calls(
    rt: &(impl Wait + Abort),
    heap: &Heap,
    first: &mut Port<Call<u8>>,
    second: &mut Port<Call<u8>>,
)
    ensures first { first.new.box ≡ first.old.box }
    ensures second { second.new.box ≡ second.old.box }
{
    for (port, ticket, sign, sink) in &CALLS {
        let call = call_of(rt, heap, *ticket, *sign, *sink);
        match port {
            0 => send(rt, first, call),
            _ => send(rt, second, call),
        }
    }
}

/// A pump of a new subject by these rules, which grows by `tight`. None where there was no memory for its hub or for it.
pub(crate) fn pump_if(
    rt: &impl Abort,
    heap: &Heap,
    tight: &Heap,
    rules: Rules,
    inbox: Inbox<Call<u8>>,
    drainer: Port<Out<u8>>,
    callers: Vec<Port<Reply<u8>>, Heap>,
) -> Option<Pump<u8>>
    requires inbox { inbox.received ≡ [] }
    requires drainer { IsFresh drainer }
    requires callers { All IsFresh callers.items }
    requires ports { vec_len callers ≤ inbox.ports }
    ensures inbox { IfSome result (λ pump. pump.inbox ≡ inbox) }
    ensures callers { IfSome result (λ pump. pump.replies ≡ callers.items) }
{
    let Rules { kind, limits } = rules;
    let hub = Hub::new(copy(rt, tight), kind, limits).ok()?;
    let drainers = vec![in copy(rt, heap); drainer].expect(rt, "memory");
    Pump::new(copy(rt, tight), hub, inbox, drainers, callers).ok()
}

/// Serves to the end.
pub(crate) fn serve(rt: &(impl Wait + Abort), pump: Pump<u8>) -> PumpEnd<u8>
    ensures { HasPumped pump result }
{
    match pump.serve(rt) {
        Ok(left) => left,
        Err(_) => panic!(rt; "the pump stopped"),
    }
}

/// A new box with one port. None where there was no memory for it.
pub(crate) fn one_if<B: Drop>(
    rt: &impl Abort,
    alloc: Heap,
    capacity: usize,
) -> Option<(Inbox<B>, Port<B>)>
    ensures { IfSome result (λ made. IsOne made.0 made.1) }
{
    let (inbox, mut ports) = made(rt, open(alloc, capacity, 1))?;
    let port = ports.pop().expect(rt, "port 0");
    Some((inbox, port))
}

// A pump, and the boxes that it sends to.
#[derive(Drop)]
struct Fed {
    pump: Pump<u8>,
    outs: Inbox<Out<u8>>,
    replies: Inbox<Reply<u8>>,
}

// What a pump is to serve: the ports of its calls, and what it sends to.
#[derive(Drop)]
struct Wired {
    fed: Fed,
    first: Port<Call<u8>>,
    second: Port<Call<u8>>,
    ghost first_is: { first.box ≡ fed.pump.inbox.box },
    ghost second_is: { second.box ≡ fed.pump.inbox.box },
}

// A new pump of these calls with the boxes that it sends to, which grow by `tight`. Of the drainers' box the pump has port
// 0. None where there was no memory for one of them.
fn fed_if(rt: &impl Abort, heap: &Heap, tight: &Heap, inbox: Inbox<Call<u8>>) -> Option<Fed>
    requires received { inbox.received ≡ [] }
    requires ports { 1 ≤ inbox.ports }
    ensures { IfSome result (λ fed. fed.pump.inbox ≡ inbox) }
{
    let (outs, drainer) = first_of_two_if::<Out<u8>>(rt, copy(rt, tight), 16)?;
    let (replies, caller) = one_if::<Reply<u8>>(rt, copy(rt, tight), 8)?;
    let callers = vec![in copy(rt, heap); caller].expect(rt, "memory");
    let rules = rules_of(Kind::Publish);
    let pump = pump_if(rt, heap, tight, rules, inbox, drainer, callers)?;
    Some(Fed {
        pump,
        outs,
        replies,
    })
}

// A new pump with its boxes, which grow by `tight`. None where there was no memory for one of them.
fn wired_if(rt: &impl Abort, heap: &Heap, tight: &Heap) -> Option<Wired> {
    let (inbox, first, second) = two_if::<Call<u8>>(rt, copy(rt, tight), 64)?;
    let fed = fed_if(rt, heap, tight, inbox)?;
    Some(Wired { fed, first, second })
}

// What became of calls that were all sent before the pump served.
#[derive(Drop)]
struct Run {
    inbox: Inbox<Call<u8>>,
    ports: Vec<EndedPort<Call<u8>>, Heap>,
    outs: Inbox<Out<u8>>,
    replies: Inbox<Reply<u8>>,
    calls: u64,
    refused: u64,
    ghost wired: { AreOf inbox ports.items },
}

// The list of the two ports of a box.
fn both_of(
    rt: &impl Abort,
    heap: &Heap,
    inbox: &Inbox<Call<u8>>,
    first: EndedPort<Call<u8>>,
    second: EndedPort<Call<u8>>,
) -> Vec<EndedPort<Call<u8>>, Heap>
    requires first { first.box ≡ inbox.now.box }
    requires second { second.box ≡ inbox.now.box }
    ensures { AreOf inbox.now result.items }
{
    vec![in copy(rt, heap); first, second].expect(rt, "memory")
}

// The two ports end, and the pump serves.
fn served(
    rt: &(impl Wait + Abort),
    heap: &Heap,
    fed: Fed,
    first: Port<Call<u8>>,
    second: Port<Call<u8>>,
) -> Run
    requires first { first.box ≡ fed.pump.inbox.box }
    requires second { second.box ≡ fed.pump.inbox.box }
{
    let Fed {
        pump,
        outs,
        replies,
    } = fed;
    let first = finish(rt, first);
    let second = finish(rt, second);
    let left = serve(rt, pump);
    let ports = both_of(rt, heap, &left.inbox, first, second);
    Run {
        inbox: left.inbox,
        ports,
        outs,
        replies,
        calls: left.calls,
        refused: left.refused,
    }
}

// Two ports send the calls and end, and the pump serves.
fn run_of(rt: &(impl Wait + Abort), heap: &Heap, wired: Wired) -> Run {
    let Wired {
        fed,
        mut first,
        mut second,
    } = wired;
    send_calls(rt, heap, &mut first, &mut second);
    served(rt, heap, fed, first, second)
}

/// What a run sends the drainer and the caller, and how many of its calls are refused for want of memory.
struct Sent {
    outs: &'static str,
    replies: &'static str,
    refused: u64,
}

// What is sent where no call is refused, and where the joining is or the emission: its reply says so and has its sink, and
// what else is sent is that of a subject that never met it.
const SENT: &[Sent] = &[
    Sent {
        outs: "+07 =0a -0 . ",
        replies: "1J0_0 2A_1 3L_1 4n91 . ",
        refused: 0,
    },
    Sent {
        outs: ". ",
        replies: "1m70 2A_1 3n_1 4n91 . ",
        refused: 1,
    },
    Sent {
        outs: "+07 -0 . ",
        replies: "1J0_0 2m_0 3L_0 4n90 . ",
        refused: 1,
    },
];

// Hands the table out, so that what goes over it is proved without its rows.
fn sent_table() -> &'static [Sent] {
    SENT
}

impl Sent {
    // Whether this is what was sent.
    fn is(&self, outs: &[u8], replies: &[u8], refused: u64) -> bool {
        self.refused == refused
            && self.outs.as_bytes() == outs
            && self.replies.as_bytes() == replies
    }
}

// The place among `SENT` of what was sent.
fn place_of_sent(outs: &[u8], replies: &[u8], refused: u64) -> Option<usize> {
    for (place, sent) in sent_table().iter().enumerate() {
        if sent.is(outs, replies, refused) {
            return Some(place);
        }
    }
    None
}

// The place among `SENT` of what a run sent.
fn place_of_run(rt: &(impl Wait + Abort), run: &mut Run) -> Option<usize> {
    let outs = told_of(rt, &mut run.outs);
    let replies = told_of(rt, &mut run.replies);
    place_of_sent(outs.as_bytes(), replies.as_bytes(), run.refused)
}

// The place among `SENT` of what a run sent, whose box then settles.
fn place_of(rt: &(impl Wait + Abort), run: Run) -> Option<usize> {
    let mut run = run;
    let place = place_of_run(rt, &mut run);
    expect_count(rt, run.calls, 5, "calls");
    close(rt, run.inbox, run.ports, 7);
    place
}

// Runs a pump that is wired. How many calls were refused, and the place of what it sent.
fn outcome_of(rt: &(impl Wait + Abort), heap: &Heap, wired: Wired) -> (u64, Option<usize>) {
    let run = run_of(rt, heap, wired);
    (run.refused, place_of(rt, run))
}

#[test]
fn pump_letter_by_letter(rt: HostRuntime) {
    let heap = unlimited(&rt);
    let wired = wired_if(&rt, &heap, &heap).expect(&rt, "a pump");
    let (_, place) = outcome_of(&rt, &heap, wired);
    expect_that(&rt, place == Some(0), "what was sent");
}

/// The same run, with a growth refused.
#[derive(Drop)]
struct LetterByLetter<'a, R> {
    rt: &'a R,
}

// What is seen of a pump, or where there was no memory for it.
fn seen_of(rt: &(impl Wait + Abort), free: &Heap, wired: Option<Wired>) -> Seen {
    match wired {
        Some(wired) => {
            let (misses, place) = outcome_of(rt, free, wired);
            Seen {
                is_made: true,
                misses,
                is_right: place.is_some(),
            }
        }
        None => Seen {
            is_made: false,
            misses: 0,
            is_right: true,
        },
    }
}

impl<R: Wait + Abort> Refusable for LetterByLetter<'_, R> {
    fn run_by(&self, free: &Heap, tight: &Heap) -> Result<Seen, Fail> {
        Ok(seen_of(self.rt, free, wired_if(self.rt, free, tight)))
    }
}

#[test]
fn pump_with_each_growth_refused(rt: HostRuntime) -> Result<(), Fail> {
    let refusals = refuse_in_turn(&LetterByLetter { rt: &rt }, rt.alloc())?;
    expect_words(&rt, refusals.fault, "", "a pump");
    expect_that(&rt, refusals.unmade >= 10, "pumps that were not made");
    expect_that(&rt, refusals.missed >= 2, "calls that were refused");
    Ok(())
}

/// What is gone before a pump serves.
#[derive(Clone, Copy, PartialEq, Eq)]
enum Lost {
    Nothing,
    Drainer,
    Caller,
    /// The ports of its calls, which have put no Bye.
    Ports,
}

// What is gone, whether calls were sent before, how many turns the pump takes before it serves, and the fault at which it stops.
const STOPS: &[(Lost, bool, u32, Option<PumpFault>)] = &[
    (Lost::Nothing, true, 0, None),
    (Lost::Nothing, true, 7, None),
    (Lost::Drainer, true, 0, Some(PumpFault::DrainerGone(0))),
    (Lost::Drainer, false, 0, Some(PumpFault::DrainerGone(0))),
    (Lost::Caller, true, 0, Some(PumpFault::CallerGone(0))),
    (Lost::Caller, false, 0, Some(PumpFault::CallerGone(0))),
    (Lost::Ports, true, 0, Some(PumpFault::InboxGone)),
    (Lost::Ports, false, 0, Some(PumpFault::InboxGone)),
];

// Hands the table out, so that what goes over it is proved without its rows.
fn stops_table() -> &'static [(Lost, bool, u32, Option<PumpFault>)] {
    STOPS
}

fn fault_in(served: Result<PumpEnd<u8>, PumpStop<u8>>) -> Option<PumpFault> {
    match served {
        Ok(_) => None,
        Err(stop) => Some(stop.fault),
    }
}

// A value, or None where it is let go.
fn kept_if<T: Drop>(is_kept: bool, value: T) -> Option<T> {
    if is_kept { Some(value) } else { None }
}

// Takes so many turns and serves, with what it sends to gone or not. The fault at which it stops.
fn fault_without(rt: &(impl Wait + Abort), fed: Fed, lost: Lost, turns: u32) -> Option<PumpFault> {
    let Fed {
        mut pump,
        outs,
        replies,
    } = fed;
    let outs = kept_if(lost != Lost::Drainer, outs);
    let replies = kept_if(lost != Lost::Caller, replies);
    for _ in 0..turns {
        expect_that(rt, pump.turn(rt).is_ok(), "a turn");
    }
    let fault = fault_in(pump.serve(rt));
    drop(outs);
    drop(replies);
    fault
}

// The two ports end, or are gone.
fn end_unless(rt: &(impl Wait + Abort), lost: Lost, first: Port<Call<u8>>, second: Port<Call<u8>>) {
    if lost != Lost::Ports {
        drop(finish(rt, first));
        drop(finish(rt, second));
    }
}

// The fault at which a pump stops that is wired anew.
fn fault_of(
    rt: &(impl Wait + Abort),
    heap: &Heap,
    lost: Lost,
    has_calls: bool,
    turns: u32,
) -> Option<PumpFault> {
    let Wired {
        fed,
        mut first,
        mut second,
    } = wired_if(rt, heap, heap)?;
    if has_calls {
        send_calls(rt, heap, &mut first, &mut second);
    }
    end_unless(rt, lost, first, second);
    fault_without(rt, fed, lost, turns)
}

#[test]
fn pump_names_what_is_gone(rt: HostRuntime) {
    let heap = unlimited(&rt);
    for (row, (lost, has_calls, turns, wanted)) in stops_table().iter().enumerate() {
        let fault = fault_of(&rt, &heap, *lost, *has_calls, *turns);
        assert_eq!(rt; fault, *wanted, "row {row}");
    }
}
