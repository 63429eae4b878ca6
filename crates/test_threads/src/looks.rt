//! Looks at the subject of a pump: what they tell, and when there is none.
//!
//! In these scripts a capital letter joins an observer that requests one item: `B` by Buffer, `A` so too with errors ahead, `D`
//! by Drop with room for 2 items, `L` by Latest for 1, `O` by Bounded for 3. A look is told by the number of its items, its end
//! or `_`, and how many joined and how many calls missed memory; behind a space each of an observer by its number, its strategy
//! and room, `a` or `d` for its errors, how many notes wait, and how many items it is owed.

ghost use Rattle.std.specs.Prelude.{◌≡◌, ◌<◌, [], length};
ghost use Rattle.rx_mailbox.specs.PortRows.{IsFresh};
ghost use Rattle.rx_pump.specs.Desks.{KeepsDesk};
ghost use Rattle.rx_pump.specs.Serving.{HasPumped};

use crate::boxes::{copy, send, unlimited};
use crate::counted_items::{Bench, bench_of};
use crate::desks::{admit, desk_of, finish_desk};
use crate::expectations::{expect_count, expect_that, expect_told};
use crate::pumps::serve;
use rx_heap::Heap;
use rx_hub::{ObserverLook, SubjectEnd, SubjectLook};
use rx_mailbox::{Inbox, Port};
use rx_note::{Errors, Event, Kind, Refusal, Strategy};
use rx_pump::{Call, CallDesk, EndedDesk, Pump, PumpEnd, Reply, Shown};
use std::process::Abort;
use std::sync::Wait;
use std::thread::{Threads, join};
use test_kit::{Named, Told, event_of, kind_of, policy_by, rules_of};

// A subject, the calls to it, and what is seen behind them.
const ROWS: &[(Named, &str, &str)] = &[
    (Named::Publish, "", "0_00"),
    (Named::Publish, "aBbc", "3_10 0B0d10"),
    (Named::Publish, "BDab2", "2_20 0B0d01 1D2d10"),
    (Named::Publish, "LAabc!", "3!20 0L1d20 1B0a00"),
    (Named::Publish, "BO-a.", "1.20 1O3d00"),
    (Named::Publish, "Oabcde", "5_10 0O3d40"),
    (Named::Behavior(Some(b's')), "B", "0_10 0B0d00"),
    (Named::Replay(None, None), "abL", "2_10 0L1d10"),
];

// Hands the table out, so that what goes over it is proved without its rows.
fn rows() -> &'static [(Named, &'static str, &'static str)] {
    ROWS
}

// The strategy and error mode of a sign.
fn choice_of(sign: u8) -> Option<(Strategy, Errors)> {
    match sign {
        b'B' => Some((Strategy::Buffer, Errors::Delay)),
        b'A' => Some((Strategy::Buffer, Errors::Ahead)),
        b'D' => Some((Strategy::Drop(2), Errors::Delay)),
        b'L' => Some((Strategy::Latest(1), Errors::Delay)),
        b'O' => Some((Strategy::Bounded(3), Errors::Delay)),
        _ => None,
    }
}

// The event of a sign.
fn event_by(rt: &impl Abort, heap: &Heap, sign: u8) -> Event {
    let (choice, sign) = match choice_of(sign) {
        Some(choice) => (choice, b'+'),
        None => ((Strategy::Buffer, Errors::Delay), sign),
    };
    let policy = policy_by(choice.0, choice.1).expect(rt, "a policy");
    event_of(heap, policy, 1, sign).expect(rt, "an event")
}

// The call of who looks: it is refused, and changes nothing.
const LOOKING: Event = Event::Request {
    who: u32::MAX,
    n: 0,
};

// Makes a call, which the pump takes.
fn make(rt: &(impl Wait + Abort), pump: &mut Pump<u8>, port: &mut Port<Call<u8>>, event: Event) {
    let call = Call {
        ticket: 0,
        event,
        sink: None,
    };
    send(rt, port, call);
    expect_that(rt, pump.turn(rt).is_ok(), "a turn");
}

fn put_strategy(told: &mut Told, strategy: Strategy) {
    let (sign, room) = match strategy {
        Strategy::Buffer => (b'B', 0),
        Strategy::Drop(room) => (b'D', room),
        Strategy::Latest(room) => (b'L', room),
        Strategy::Bounded(room) => (b'O', room),
    };
    told.put(sign);
    told.put_digit(room as usize);
}

fn put_observer(told: &mut Told, observer: &ObserverLook) {
    told.put(b' ');
    told.put_digit(observer.who as usize);
    put_strategy(told, observer.strategy);
    told.put(match observer.errors {
        Errors::Ahead => b'a',
        Errors::Delay => b'd',
    });
    told.put_digit(observer.waiting);
    told.put_digit(observer.owed as usize);
}

fn told_of(look: &SubjectLook) -> Told {
    let mut told = Told::new();
    told.put_digit(look.items as usize);
    told.put(match look.end {
        SubjectEnd::Open => b'_',
        SubjectEnd::Completed => b'.',
        SubjectEnd::Failed => b'!',
    });
    told.put_digit(look.joins as usize);
    told.put_digit(look.misses as usize);
    for observer in &look.observers {
        put_observer(&mut told, observer);
    }
    told
}

// What is seen behind these calls.
fn seen_after(rt: &(impl Wait + Abort), heap: &Heap, kind: Kind, signs: &[u8]) -> Told {
    let Bench {
        mut pump,
        mut port,
        outs: _outs,
        replies: _replies,
    } = bench_of(rt, heap, rules_of(kind));
    let shown = pump.show(copy(rt, heap)).expect(rt, "memory");
    for sign in signs {
        make(rt, &mut pump, &mut port, event_by(rt, heap, *sign));
    }
    expect_that(rt, shown.take(rt).is_none(), "nobody wants a look");
    shown.want(rt).expect(rt, "memory");
    expect_that(rt, shown.take(rt).is_none(), "no letter came");
    make(rt, &mut pump, &mut port, LOOKING);
    let look = shown.take(rt).expect(rt, "a look");
    expect_that(rt, shown.take(rt).is_none(), "it was taken");
    told_of(&look)
}

#[test]
fn a_look_tells_what_the_calls_came_to(rt: HostRuntime) {
    let heap = unlimited(&rt);
    for (named, signs, wanted) in rows() {
        let kind = kind_of(&heap, *named).expect(&rt, "a kind");
        let told = seen_after(&rt, &heap, kind, signs.as_bytes());
        expect_told(&rt, told.as_bytes(), wanted, signs);
    }
}

// Who watches is shown the subject by the letters that come anyway, beside one that asks; each only what came since it last looked.
#[test]
fn a_watch_beside_one_who_asks(rt: HostRuntime) {
    let heap = unlimited(&rt);
    let Bench {
        mut pump,
        mut port,
        outs: _outs,
        replies: _replies,
    } = bench_of(&rt, &heap, rules_of(Kind::Publish));
    let shown = pump.show(copy(&rt, &heap)).expect(&rt, "memory");
    expect_that(&rt, shown.watch(&rt).is_none(), "nothing came");
    for sign in b"Babc" {
        make(&rt, &mut pump, &mut port, event_by(&rt, &heap, *sign));
    }
    shown.want(&rt).expect(&rt, "memory");
    let first = shown.watch(&rt).expect(&rt, "a look");
    expect_count(&rt, u64::from(first.joins), 1, "it was filled by the first");
    expect_that(&rt, shown.watch(&rt).is_none(), "no letter came");
    make(&rt, &mut pump, &mut port, LOOKING);
    let asked = shown.take(&rt).expect(&rt, "what was asked for");
    expect_that(&rt, asked.backlog.is_none(), "only who watches asks for it");
    let second = shown.watch(&rt).expect(&rt, "a second look");
    expect_count(&rt, u64::from(second.items), 3, "items");
    let backlog = second.backlog.expect(&rt, "a backlog");
    expect_count(&rt, backlog.bytes, 2, "bytes");
}

// How many items come between two looks of who watches, and how many the second one has: that of the first of them, or 256 further on,
// or as many further on as waited then.
const BURSTS: &[(u32, u32)] = &[
    (256, 1),
    (257, 257),
    (512, 257),
    (513, 513),
    (1_024, 513),
    (1_025, 1_025),
];

// The items of the look behind so many, of which the observer is given one.
fn watched_after(rt: &(impl Wait + Abort), heap: &Heap, items: u32) -> u32 {
    let Bench {
        mut pump,
        mut port,
        outs: _outs,
        mut replies,
    } = bench_of(rt, heap, rules_of(Kind::Publish));
    let shown = pump.show(copy(rt, heap)).expect(rt, "memory");
    make(rt, &mut pump, &mut port, event_by(rt, heap, b'B'));
    expect_that(rt, shown.watch(rt).is_some(), "a look");
    for _ in 0..items {
        make(rt, &mut pump, &mut port, event_by(rt, heap, b'a'));
        let _ = replies.recv(rt).expect(rt, "a reply");
    }
    shown.watch(rt).expect(rt, "a look").items
}

// A burst between two looks is seen, though nothing comes behind it.
#[test]
fn a_burst_is_watched(rt: HostRuntime) {
    let heap = unlimited(&rt);
    for (items, wanted) in BURSTS {
        let seen = watched_after(&rt, &heap, *items);
        expect_count(&rt, u64::from(seen), u64::from(*wanted), "items seen");
    }
}

#[test]
fn a_pump_that_is_gone_shows_nothing(rt: HostRuntime) {
    let heap = unlimited(&rt);
    let Bench {
        mut pump,
        port: _port,
        outs: _outs,
        replies: _replies,
    } = bench_of(&rt, &heap, rules_of(Kind::Publish));
    let shown = pump.show(copy(&rt, &heap)).expect(&rt, "memory");
    shown.want(&rt).expect(&rt, "memory");
    drop(pump);
    expect_that(&rt, shown.take(&rt).is_none(), "a look");
}

// Emits an item and looks: how many items are seen, and the desk that has ended, to which the pump's Bye is to come.
fn look_by(
    rt: &(impl Wait + Abort),
    heap: &Heap,
    shown: &Shown,
    port: Port<Call<u8>>,
    replies: Inbox<Reply<u8>>,
) -> (u32, EndedDesk<u8>)
    requires port { IsFresh port }
    requires replies { replies.received ≡ [] }
{
    let mut desk = desk_of(rt, heap, port, replies);
    admit(rt, heap, &mut desk);
    shown.want(rt).expect(rt, "memory");
    ask(rt, &mut desk);
    let look = shown.take(rt).expect(rt, "a look");
    (look.items, finish_desk(rt, desk))
}

// Makes the call of who looks.
fn ask(rt: &(impl Wait + Abort), desk: &mut CallDesk<u8>)
    requires { 0 < length desk.old.ports }
    ensures { KeepsDesk desk.old desk.new }
{
    match desk.call(rt, 0, LOOKING, None) {
        Ok(reply) => expect_that(rt, reply.result == Err(Refusal::ZeroRequest), "refused"),
        Err(_) => panic!(rt; "no reply"),
    }
}

// The pump serves on a thread of its own.
fn items_seen<R: Threads + Wait + Abort + Sync>(rt: &R, heap: &Heap) -> u32 {
    let Bench {
        mut pump,
        port,
        outs: _outs,
        replies,
    } = bench_of(rt, heap, rules_of(Kind::Publish));
    let shown = pump.show(copy(rt, heap)).expect(rt, "memory");
    let ((items, _desk), _left) = join(
        rt,
        || -> (u32, EndedDesk<u8>)
            requires { (IsFresh port) × (replies.received ≡ []) }
        { look_by(rt, heap, &shown, port, replies) },
        || -> PumpEnd<u8>
            ensures { HasPumped pump result }
        { serve(rt, pump) },
    );
    items
}

#[test]
fn a_look_by_another_thread(rt: HostRuntime) {
    let items = items_seen(&rt, &unlimited(&rt));
    expect_count(&rt, u64::from(items), 1, "items");
}
