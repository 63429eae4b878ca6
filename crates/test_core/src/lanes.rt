//! Lanes, call by call. In a script a letter offers its item, `.` ends the lane, `!` by the failure `x`, where it has not ended;
//! a digit requests so many items, and `*` requests 4,294,967,293; `+` makes room for four items; `?` asks for the state, `=`
//! whether memory was asked for since that room was made, and a space is told as it is.
//!
//! Told is what comes back of an item or the end, and behind each request all that requests have given so far; before
//! that, where the request was refused, `Z` for no items, `T` for too much, `M` for want of memory. The state is how many
//! items wait, how many notes wait, how many items are owed, and `!` where the lane is over, else `-`. Where memory was asked
//! for `>` is told, else `=`.

use crate::in_turn::{Script, expect_in_turn};
use crate::tape_lanes::put_outs;
use rx_heap::{Heap, Memory};
use rx_lane::{AskError, Lane};
use rx_note::{Errors, Given, Item, Note, Policy, Strategy};
use std::test::Fail;
use test_kit::{Tale, Told, item, note_of, policy_by, sign_of};

// How many items are made room for at a time.
const SEVERAL: usize = 4;

// A new lane, or one that was joined with a first request.
fn lane_of(heap: &Heap, policy: Policy, first: Option<u32>) -> Result<Lane, Memory> {
    match first {
        Some(first) => Lane::joined(heap.clone()?, policy, first),
        None => Lane::new(heap.clone()?, policy),
    }
}

// Offers an item; nothing after the end.
fn offer(lane: &mut Lane, item: Item) -> Result<Option<Note>, Memory> {
    if lane.is_ended() {
        return Ok(None);
    }
    lane.reserve(1)?;
    Ok(lane.offer(item))
}

fn put_back(told: &mut Told, back: &Option<Note>) {
    if let Some(note) = back {
        told.put(sign_of(note));
    }
}

/// A lane that is tried, the memory that it grows by and how many growths of it were asked for by the time at which room for
/// several items was made, the number of its observer where that is told to its requests, what they gave so far without it and
/// with it, what is told, and how many calls were refused for want of memory and then made again.
struct Tried {
    lane: Lane,
    heap: Heap,
    asked: u64,
    who: Option<u32>,
    given: Vec<Note, Heap>,
    outs: Vec<Given, Heap>,
    told: Told,
    misses: u64,
}

// By hand: rx_heap says why.
impl Drop for Tried {
    fn drop(self) {
        let Tried {
            lane: _,
            heap: _,
            asked: _,
            who: _,
            given: _,
            outs: _,
            told: _,
            misses: _,
        } = self;
    }
}

impl Tried {
    fn asked_once(&mut self, n: u32) -> Result<(), AskError> {
        match self.who {
            None => self.lane.ask(n, &mut self.given),
            Some(who) => self.lane.ask_for(who, n, &mut self.outs),
        }
    }

    fn asked(&mut self, n: u32) -> Result<(), AskError> {
        match self.asked_once(n) {
            Err(AskError::Memory) => {
                self.misses = self.misses.saturating_add(1);
                self.asked_once(n)
            }
            answered => answered,
        }
    }

    fn ask(&mut self, n: u32) {
        match self.asked(n) {
            Ok(()) => {}
            Err(AskError::ZeroRequest) => self.told.put(b'Z'),
            Err(AskError::TooMuch) => self.told.put(b'T'),
            Err(AskError::Memory) => self.told.put(b'M'),
        }
        match self.who {
            None => self.told.put_notes(self.given.as_slice()),
            Some(who) => put_outs(&mut self.told, who, self.outs.as_slice()),
        }
    }

    fn put_state(&mut self) {
        self.told.put_digit(self.lane.waiting_len());
        self.told.put_digit(self.lane.waiting_notes());
        self.told.put_digit(self.lane.owed() as usize);
        let is_over = self.lane.is_over();
        self.told.put(if is_over { b'!' } else { b'-' });
    }

    fn offered(&mut self, heap: &Heap, text: &[u8]) -> Result<Option<Note>, Memory> {
        match offer(&mut self.lane, item(heap, text)?) {
            Ok(back) => Ok(back),
            Err(Memory) => {
                self.misses = self.misses.saturating_add(1);
                offer(&mut self.lane, item(heap, text)?)
            }
        }
    }

    fn offer(&mut self, heap: &Heap, text: &[u8]) -> Result<(), Memory> {
        let back = self.offered(heap, text)?;
        put_back(&mut self.told, &back);
        Ok(())
    }

    fn reserved(&mut self) -> Result<(), Memory> {
        match self.lane.reserve(SEVERAL) {
            Ok(()) => Ok(()),
            Err(Memory) => {
                self.misses = self.misses.saturating_add(1);
                self.lane.reserve(SEVERAL)
            }
        }
    }

    fn reserve(&mut self) -> Result<(), Memory> {
        self.reserved()?;
        self.asked = self.heap.asked();
        Ok(())
    }

    fn put_growth(&mut self) {
        let is_none = self.heap.asked() == self.asked;
        self.told.put(if is_none { b'=' } else { b'>' });
    }

    fn end(&mut self, note: Note) {
        if self.lane.is_ended() {
            return;
        }
        let back = self.lane.end(note);
        put_back(&mut self.told, &back);
    }

    fn step(&mut self, heap: &Heap, sign: u8) -> Result<(), Memory> {
        match sign {
            b' ' => self.told.put(b' '),
            b'?' => self.put_state(),
            b'+' => self.reserve()?,
            b'=' => self.put_growth(),
            b'*' => self.ask(4_294_967_293),
            b'0'..=b'9' => self.ask(u32::from(sign - b'0')),
            b'.' | b'!' => self.end(note_of(heap, sign)?),
            letter => self.offer(heap, &[letter])?,
        }
        Ok(())
    }

    fn run(&mut self, heap: &Heap, script: &[u8]) -> Result<(), Memory> {
        for sign in script {
            self.step(heap, *sign)?;
        }
        Ok(())
    }
}

// A lane, and how many calls to make it were refused.
fn made(tight: &Heap, policy: Policy, first: Option<u32>) -> Result<(Lane, u64), Memory> {
    match lane_of(tight, policy, first) {
        Ok(lane) => Ok((lane, 0)),
        Err(Memory) => Ok((lane_of(tight, policy, first)?, 1)),
    }
}

fn start(
    tight: &Heap,
    policy: Policy,
    first: Option<u32>,
    who: Option<u32>,
) -> Result<Tried, Memory> {
    let given = Vec::new(tight.clone()?);
    let outs = Vec::new(tight.clone()?);
    let heap = tight.clone()?;
    let (lane, misses) = made(tight, policy, first)?;
    Ok(Tried {
        lane,
        heap,
        asked: 0,
        who,
        given,
        outs,
        told: Told::new(),
        misses,
    })
}

/// A script for a lane of a strategy, joined with a first request or new, and the number of its observer where that is told to
/// its requests.
#[derive(Clone, Copy)]
struct Row {
    who: Option<u32>,
    strategy: Strategy,
    errors: Errors,
    first: Option<u32>,
    script: &'static str,
}

impl Script for Row {
    // Tries a lane that grows by `tight`, as the list of what it gives does.
    fn tell(&self, free: &Heap, tight: &Heap) -> Result<Tale, Fail> {
        let policy = policy_by(self.strategy, self.errors)?;
        let mut tried = start(tight, policy, self.first, self.who)?;
        tried.run(free, self.script.as_bytes())?;
        Ok(Tale {
            told: tried.told,
            misses: tried.misses,
        })
    }
}

// The strategy and the error mode of a lane, the first request if it was joined, the script, and what is told.
const ROWS: &[(Strategy, Errors, Option<u32>, &str, &str)] = &[
    (
        Strategy::Latest(2),
        Errors::Delay,
        None,
        "01a bcd? 5? .? *",
        "Za 220- cd003- .003! Tcd",
    ),
    (
        Strategy::Buffer,
        Errors::Delay,
        Some(0),
        "a.? 1?",
        "120- a.000!",
    ),
    (Strategy::Buffer, Errors::Delay, Some(0), "abc.9", "abc."),
    // No block that holds two items holds four more, and all the memory for these is taken before the first of them.
    (
        Strategy::Buffer,
        Errors::Delay,
        Some(0),
        "ab+cdef=.? 9",
        "=670- abcdef.",
    ),
    (Strategy::Drop(0), Errors::Delay, Some(0), "abc.9", "."),
    (Strategy::Drop(1), Errors::Delay, Some(0), "abc.9", "a."),
    (Strategy::Drop(2), Errors::Delay, Some(0), "abc.9", "ab."),
    (
        Strategy::Drop(1024),
        Errors::Delay,
        Some(0),
        "abc.9",
        "abc.",
    ),
    (Strategy::Latest(1), Errors::Delay, Some(0), "abc.9", "c."),
    (Strategy::Latest(2), Errors::Delay, Some(0), "abc.9", "bc."),
    (
        Strategy::Latest(1024),
        Errors::Delay,
        Some(0),
        "abc.9",
        "abc.",
    ),
    (
        Strategy::Bounded(1024),
        Errors::Delay,
        Some(0),
        "abc.9",
        "abc.",
    ),
    (Strategy::Buffer, Errors::Ahead, Some(0), "ab!? 9", "!000! "),
    (
        Strategy::Drop(2),
        Errors::Ahead,
        Some(0),
        "abc!? 9",
        "!000! ",
    ),
    (
        Strategy::Latest(2),
        Errors::Ahead,
        Some(0),
        "abc!? 9",
        "!000! ",
    ),
    (
        Strategy::Latest(2),
        Errors::Ahead,
        Some(0),
        "abc.? 9",
        "230- bc.",
    ),
    (
        Strategy::Buffer,
        Errors::Delay,
        Some(0),
        "ab!? 9",
        "230- ab!",
    ),
    (
        Strategy::Bounded(0),
        Errors::Delay,
        Some(0),
        "ab? 9",
        "%000! ",
    ),
    (
        Strategy::Bounded(1),
        Errors::Delay,
        Some(1),
        "abcd? 1?",
        "a120- b%000!",
    ),
    (
        Strategy::Bounded(1),
        Errors::Ahead,
        Some(1),
        "abcd? 1?",
        "a%000! 001!",
    ),
    (
        Strategy::Bounded(2),
        Errors::Delay,
        None,
        "01abcde.? 9",
        "Za230- bc%",
    ),
    (
        Strategy::Bounded(2),
        Errors::Delay,
        Some(0),
        "ab.c!? 9",
        "230- ab.",
    ),
    (
        Strategy::Bounded(2),
        Errors::Ahead,
        Some(0),
        "ab!c? 9",
        "!000! ",
    ),
];

// Hands the table out, so that what goes over it is proved without its rows.
fn rows() -> &'static [(Strategy, Errors, Option<u32>, &'static str, &'static str)] {
    ROWS
}

#[test]
fn lane_call_by_call(rt: HostRuntime) -> Result<(), Fail> {
    for (strategy, errors, first, script, wanted) in rows() {
        for who in [None, Some(7)] {
            let row = Row {
                who,
                strategy: *strategy,
                errors: *errors,
                first: *first,
                script,
            };
            expect_in_turn(&rt, rt.alloc(), &row, wanted, script)?;
        }
    }
    Ok(())
}
