//! Credit of sinks in which notes wait: a drainer turn by turn on one thread, with two observers whose sinks are valves.
//!
//! Letters are told in pairs: the observer and the sign of its note, `-` for its leaving; `pp` is a body of the leave port,
//! which only has the drainer look after its sinks. What the subject is sent is told as for other drainers.

use crate::boxes::{copy, finish, first_of_two, send, two, unlimited};
use crate::drainers::{drainer_of, note, put_call};
use crate::expectations::{expect_count, expect_that, expect_told};
use rx_drain::{DrainEnd, Drainer};
use rx_heap::Heap;
use rx_mailbox::{Inbox, Port};
use rx_pump::{Call, Out};
use std::alloc::Global;
use std::process::Abort;
use std::sync::atomic::{AtomicU64, Ordering};
use std::sync::{Arc, Wait};
use std::test::Fail;
use test_kit::{BROKEN, Told, Valve};

// So many letters fit in a box here.
const ROOM: usize = 256;

// A drainer with the sinks of observers 0 and 1, the ports to its box, and the calls to its subject.
#[derive(Drop)]
struct Bench {
    drainer: Drainer<Valve>,
    pump: Port<Out<Valve>>,
    leave: Port<Out<Valve>>,
    calls: Inbox<Call<Valve>>,
}

fn attach(
    rt: &(impl Wait + Abort),
    pump: &mut Port<Out<Valve>>,
    who: u32,
    opened: &Arc<AtomicU64, Global>,
) {
    let sink = Valve::of(opened).expect(rt, "a valve");
    send(rt, pump, Out::Attach { who, sink });
}

// The two sinks are opened for so many notes as these numbers say.
fn make_bench(
    rt: &(impl Wait + Abort),
    heap: &Heap,
    first: &Arc<AtomicU64, Global>,
    second: &Arc<AtomicU64, Global>,
) -> Bench {
    let (inbox, mut pump, leave) = two::<Out<Valve>>(rt, copy(rt, heap), ROOM);
    let (calls, subject) = first_of_two::<Call<Valve>>(rt, copy(rt, heap), ROOM);
    let drainer = drainer_of(rt, copy(rt, heap), inbox, heap, subject).expect(rt, "memory");
    attach(rt, &mut pump, 0, first);
    attach(rt, &mut pump, 1, second);
    Bench {
        drainer,
        pump,
        leave,
        calls,
    }
}

// Sends the drainer a letter that is told by two signs.
fn send_pair(rt: &(impl Wait + Abort), heap: &Heap, bench: &mut Bench, from: u8, sign: u8) {
    if from == b'p' {
        send(rt, &mut bench.leave, Out::Detach { who: 0 });
        return;
    }
    let who = u32::from(from.saturating_sub(b'0'));
    if sign == b'-' {
        send(rt, &mut bench.pump, Out::Detach { who });
        return;
    }
    let note = note(rt, heap, sign);
    send(rt, &mut bench.pump, Out::Give { who, note });
}

// What the subject was sent since it was last told.
fn told_calls(rt: &impl Wait, calls: &mut Inbox<Call<Valve>>) -> Told {
    let mut told = Told::new();
    for _ in 0..ROOM {
        let Ok(letter) = calls.try_recv(rt) else {
            return told;
        };
        put_call(&mut told, &letter.post);
    }
    told
}

// The drainer takes these letters in one turn. What its subject was sent at that.
fn told_turn(rt: &(impl Wait + Abort), heap: &Heap, bench: &mut Bench, letters: &[u8]) -> Told {
    for pair in letters.chunks(2) {
        if let [from, sign] = pair {
            send_pair(rt, heap, bench, *from, *sign);
        }
    }
    let turned = bench.drainer.turn(rt);
    expect_that(rt, turned.is_ok(), "a turn");
    told_calls(rt, &mut bench.calls)
}

// What the sinks let out, behind each other, in the order in which they were put away.
fn told_rests(end: &DrainEnd<Valve>) -> Told {
    let mut told = Told::new();
    for away in end.put_away.as_slice() {
        told.put_all(away.rest.as_bytes());
        told.put(b'|');
    }
    told
}

// What a drainer sent its subject at its end, and what its sinks let out.
#[derive(Clone, Copy)]
struct Ended {
    calls: Told,
    rests: Told,
}

// The drainer is told to leave.
fn end_of(rt: &(impl Wait + Abort), bench: Bench) -> Ended {
    let Bench {
        drainer,
        pump,
        leave,
        mut calls,
    } = bench;
    drop(finish(rt, pump));
    drop(finish(rt, leave));
    let Ok(end) = drainer.serve(rt) else {
        panic!(rt; "the drainer stopped");
    };
    Ended {
        calls: told_calls(rt, &mut calls),
        rests: told_rests(&end),
    }
}

// A drainer goes turn by turn, the sink of observer 0 opened for so many notes before each; there is no turn where there are
// no letters. The other's is opened for three.
fn expect_turns(
    rt: &(impl Wait + Abort),
    heap: &Heap,
    global: Global,
    turns: &[(u64, &str, &str)],
    calls_wanted: &str,
    rests_wanted: &str,
) -> Result<(), Fail> {
    let first = Arc::new(global, AtomicU64::new(0))?;
    let second = Arc::new(global, AtomicU64::new(3))?;
    let mut bench = make_bench(rt, heap, &first, &second);
    for (opened, letters, wanted) in turns {
        first.store(*opened, Ordering::SeqCst);
        if letters.is_empty() {
            continue;
        }
        let told = told_turn(rt, heap, &mut bench, letters.as_bytes());
        expect_told(rt, told.as_bytes(), wanted, letters);
    }
    let ended = end_of(rt, bench);
    expect_told(rt, ended.calls.as_bytes(), calls_wanted, "at the end");
    expect_told(rt, ended.rests.as_bytes(), rests_wanted, "what went out");
    Ok(())
}

#[test]
fn stuck_for_a_while(rt: HostRuntime) -> Result<(), Fail> {
    let heap = unlimited(&rt);
    // An item is paid at once where the sink is not stuck. Observer 1 waits for nobody. What is due of observer 0 is paid
    // once, when all has gone out.
    let turns = [
        (0, "0a1a", "r0r1"),
        (0, "0b1b", "r1"),
        (0, "0c1c", "r1"),
        (2, "pp", ""),
        (3, "pp", "r0r0"),
        (3, "pp", ""),
        (4, "0d", "r0"),
        (4, "1d", "r1"),
        (4, "1e", ""),
    ];
    expect_turns(&rt, &heap, rt.alloc(), &turns, "d0r1d1.", "abcd|abc|")
}

#[test]
fn terminal_waits_for_its_sink(rt: HostRuntime) -> Result<(), Fail> {
    let heap = unlimited(&rt);
    let turns = [
        (0, "0a", "r0"),
        (0, "0b", ""),
        (0, "0.", ""),
        (1, "0c", ""),
        (2, "pp", ""),
        (3, "pp", "r0d0"),
        (3, "pp", ""),
    ];
    expect_turns(&rt, &heap, rt.alloc(), &turns, "d1.", "ab.||")
}

#[test]
fn due_goes_before_each_end(rt: HostRuntime) -> Result<(), Fail> {
    let heap = unlimited(&rt);
    for (turns, calls_wanted, rests_wanted) in [
        // Its observer leaves, before a terminal and after one.
        (
            [(0, "0a", "r0"), (0, "0b", ""), (0, "0-", "r0")],
            "d1.",
            "||",
        ),
        (
            [(0, "0a", "r0"), (1, "0b0.", ""), (1, "0-", "r0d0")],
            "d1.",
            "a||",
        ),
        // A flush is a fault.
        (
            [(0, "0a", "r0"), (0, "0b", ""), (BROKEN, "pp", "r0d0")],
            "d1.",
            "||",
        ),
        // It is flushed once more before the Bye of the leave port is heard.
        (
            [(0, "0a", "r0"), (0, "0b", ""), (2, "", "")],
            "r0d0d1.",
            "ab||",
        ),
    ] {
        expect_turns(&rt, &heap, rt.alloc(), &turns, calls_wanted, rests_wanted)?;
    }
    Ok(())
}

// What becomes of an observer by the rules of credit: for how many of the items that it was given its sink was opened, how many
// are paid, for how many of those a request was told, and whether the sink was last found stuck.
#[derive(Clone, Copy)]
struct Account {
    given: u64,
    opened: u64,
    paid: u64,
    told: u64,
    stuck: bool,
}

impl Account {
    fn new() -> Account {
        Account {
            given: 0,
            opened: 0,
            paid: 0,
            told: 0,
            stuck: false,
        }
    }

    fn give(&mut self) {
        self.given = self.given.saturating_add(1);
        self.pay();
    }

    fn open(&mut self, more: u64) {
        self.opened = self.opened.saturating_add(more);
    }

    // It is flushed at the end of a turn.
    fn flush(&mut self) {
        self.stuck = self.opened < self.given;
        self.pay();
    }

    fn pay(&mut self) {
        if !self.stuck {
            self.paid = self.given;
        }
    }
}

// The next number of a fixed row, below a bound.
fn draw(row: &mut u64, bound: u64) -> u64 {
    *row = row
        .wrapping_mul(6_364_136_223_846_793_005)
        .wrapping_add(1_442_695_040_888_963_407);
    (*row >> 33) % bound.max(1)
}

// The sign of the item of this number.
fn sign_by(number: u64) -> u8 {
    b'a'.saturating_add((number % 26) as u8)
}

// Puts letters with up to two items for an observer.
fn put_drawn(letters: &mut Told, row: &mut u64, from: u8, account: &mut Account) {
    for _ in 0..draw(row, 3) {
        letters.put(from);
        letters.put(sign_by(account.given));
        account.give();
    }
}

// How many items observer `who` is asked for.
fn requests_for(told: &Told, who: u8) -> u64 {
    let mut count: u64 = 0;
    for pair in told.as_bytes().chunks(2) {
        if pair == [b'r', who].as_slice() {
            count = count.saturating_add(1);
        }
    }
    count
}

// The sink is opened for up to two notes more.
fn open_drawn(row: &mut u64, opened: &AtomicU64, account: &mut Account) {
    let more = draw(row, 3);
    account.open(more);
    opened.store(account.opened, Ordering::SeqCst);
}

// At the end of a turn an observer was asked for as many items more as its account says.
fn expect_paid(rt: &impl Abort, told: &Told, who: u8, account: &mut Account) {
    account.flush();
    let more = account.paid.saturating_sub(account.told);
    expect_count(rt, requests_for(told, who), more, "requests of a turn");
    account.told = account.paid;
}

// Puts the items that an observer was given.
fn put_given(told: &mut Told, account: &Account) {
    for number in 0..account.given {
        told.put(sign_by(number));
    }
    told.put(b'|');
}

// The two sinks, for how many notes each is opened, and the accounts of their observers.
#[derive(Drop)]
struct Drawn {
    row: u64,
    first_opened: Arc<AtomicU64, Global>,
    second_opened: Arc<AtomicU64, Global>,
    first: Account,
    second: Account,
}

impl Drawn {
    fn of(global: Global, row: u64) -> Result<Drawn, Fail> {
        Ok(Drawn {
            row,
            first_opened: Arc::new(global, AtomicU64::new(0))?,
            second_opened: Arc::new(global, AtomicU64::new(0))?,
            first: Account::new(),
            second: Account::new(),
        })
    }

    // The letters of the next turn, before which the sinks are opened for some notes more.
    fn letters(&mut self) -> Told {
        let mut letters = Told::new();
        letters.put_all(b"pp");
        put_drawn(&mut letters, &mut self.row, b'0', &mut self.first);
        put_drawn(&mut letters, &mut self.row, b'1', &mut self.second);
        open_drawn(&mut self.row, &self.first_opened, &mut self.first);
        open_drawn(&mut self.row, &self.second_opened, &mut self.second);
        letters
    }

    // One turn with these letters.
    fn expect_turn(
        &mut self,
        rt: &(impl Wait + Abort),
        heap: &Heap,
        bench: &mut Bench,
        letters: &[u8],
    ) {
        let told = told_turn(rt, heap, bench, letters);
        expect_paid(rt, &told, b'0', &mut self.first);
        expect_paid(rt, &told, b'1', &mut self.second);
    }

    // The sinks are opened for all that they took.
    fn open_all(&mut self) {
        self.first.opened = self.first.given;
        self.second.opened = self.second.given;
        self.first_opened.store(self.first.given, Ordering::SeqCst);
        self.second_opened
            .store(self.second.given, Ordering::SeqCst);
    }

    // All went out, and was paid.
    fn expect_all(&self, rt: &(impl Wait + Abort), bench: Bench) {
        expect_count(rt, self.first.paid, self.first.given, "paid of the first");
        expect_count(
            rt,
            self.second.paid,
            self.second.given,
            "paid of the second",
        );
        let ended = end_of(rt, bench);
        expect_told(rt, ended.calls.as_bytes(), "d0d1.", "at the end");
        let mut wanted = Told::new();
        put_given(&mut wanted, &self.first);
        put_given(&mut wanted, &self.second);
        let same = ended.rests.as_bytes() == wanted.as_bytes();
        expect_that(rt, same, "what went out");
    }
}

// So many turns with drawn letters, and at the end one in which all goes out.
const DRAWN_TURNS: u64 = 40;

fn expect_drawn(
    rt: &(impl Wait + Abort),
    heap: &Heap,
    global: Global,
    row: u64,
) -> Result<(), Fail> {
    let mut drawn = Drawn::of(global, row)?;
    let mut bench = make_bench(rt, heap, &drawn.first_opened, &drawn.second_opened);
    for _ in 0..DRAWN_TURNS {
        let letters = drawn.letters();
        drawn.expect_turn(rt, heap, &mut bench, letters.as_bytes());
    }
    drawn.open_all();
    drawn.expect_turn(rt, heap, &mut bench, b"pp");
    drawn.expect_all(rt, bench);
    Ok(())
}

#[test]
fn drawn_turns(rt: HostRuntime) -> Result<(), Fail> {
    let heap = unlimited(&rt);
    for row in 0..8 {
        expect_drawn(&rt, &heap, rt.alloc(), row)?;
    }
    Ok(())
}
