//! Lanes on a tape, call by call, by the signs of the lanes with queues of their own: a letter is put on the tape and offered,
//! `.` ends the lane, `!` by the failure `x`, where it has not ended; a digit requests so many items; `?` asks for the state, and
//! a space is told as it is. Before the lane joins, the letters of `before` stand on the tape, of which it is offered the last ones, behind a lead.
//!
//! Told is what joining gives, what comes back of an item or the end, and behind each request all that was given so far; before
//! that, where the request was refused, `Z` for no items, `T` for too much, `M` for want of memory. The state is how many items
//! wait, how many notes wait, how many items are owed, and `!` where the lane is over, else `-`.
//!
//! Each script is tried twice: with requests that give notes, and with those that give them addressed to an observer, where `#`
//! is told before a note that is addressed to another.

ghost use Rattle.std.specs.Prelude.{IfOk};
ghost use Rattle.rx_lane.specs.TapeLanes.{StandsBack, IsShared};

use crate::in_turn::{Script, expect_in_turn};
use rx_heap::{Heap, Memory};
use rx_lane::{AskError, TapeLane};
use rx_note::{Errors, Given, Item, Note, Policy, Strategy};
use rx_tape::Tape;
use std::test::Fail;
use test_kit::{Tale, Told, item, note_of, policy_by, sign_of};

/// A lane that is tried with its tape, the number of its observer where that is told to its requests, what they gave so far
/// without it and with it, what is told, and how many calls were refused for want of memory and then made again.
struct Tried {
    tape: Tape,
    lane: TapeLane,
    who: Option<u32>,
    given: Vec<Note, Heap>,
    outs: Vec<Given, Heap>,
    told: Told,
    misses: u64,
    ghost stands: { StandsBack tape lane.cursor lane.back },
}

// By hand: rx_heap says why.
impl Drop for Tried {
    fn drop(self) {
        let Tried {
            tape: _,
            lane: _,
            who: _,
            given: _,
            outs: _,
            told: _,
            misses: _,
        } = self;
    }
}

impl Tried {
    fn count_miss(&mut self) {
        self.misses = self.misses.saturating_add(1);
    }

    fn put_back(&mut self, back: &Option<Note>) {
        if let Some(note) = back {
            self.told.put(sign_of(note));
        }
    }

    fn asked_once(&mut self, n: u32) -> Result<(), AskError> {
        match self.who {
            None => self.lane.ask(n, &mut self.tape, &mut self.given),
            Some(who) => self.lane.ask_for(who, n, &mut self.tape, &mut self.outs),
        }
    }

    fn asked(&mut self, n: u32) -> Result<(), AskError> {
        match self.asked_once(n) {
            Err(AskError::Memory) => {
                self.count_miss();
                self.asked_once(n)
            }
            answered => answered,
        }
    }

    fn ask(&mut self, n: u32) {
        match self.asked(n) {
            Ok(()) => {}
            Err(AskError::ZeroRequest) => self.told.put(b'Z'),
            Err(AskError::TooMuch) => self.told.put(b'T'),
            Err(AskError::Memory) => self.told.put(b'M'),
        }
        match self.who {
            None => self.told.put_notes(self.given.as_slice()),
            Some(who) => put_outs(&mut self.told, who, self.outs.as_slice()),
        }
    }

    fn put_state(&mut self) {
        self.told.put_digit(self.lane.waiting_len());
        self.told.put_digit(self.lane.waiting_notes());
        self.told.put_digit(self.lane.owed() as usize);
        let is_over = self.lane.is_over();
        self.told.put(if is_over { b'!' } else { b'-' });
    }

    // Puts an item on the tape and offers it, with a copy where it is owed; nothing after the end.
    fn offered(&mut self, item: Item, copy: Option<Item>) -> Result<Option<Item>, Memory> {
        if self.lane.is_ended() {
            return Ok(None);
        }
        self.tape.push(item)?;
        Ok(self.lane.offer(copy, &mut self.tape))
    }

    fn copy_owed(&self, item: &Item) -> Result<Option<Item>, Memory> {
        if self.lane.owed() > 0 {
            Ok(Some(item.copy()?))
        } else {
            Ok(None)
        }
    }

    // The same of the item of this text.
    fn offered_text(&mut self, heap: &Heap, text: &[u8]) -> Result<Option<Item>, Memory> {
        let item = item(heap, text)?;
        let copy = self.copy_owed(&item)?;
        self.offered(item, copy)
    }

    fn offered_at_last(&mut self, heap: &Heap, text: &[u8]) -> Result<Option<Item>, Memory> {
        match self.offered_text(heap, text) {
            Ok(back) => Ok(back),
            Err(Memory) => {
                self.count_miss();
                self.offered_text(heap, text)
            }
        }
    }

    fn offer(&mut self, heap: &Heap, text: &[u8]) -> Result<(), Memory> {
        let back = self.offered_at_last(heap, text)?;
        self.put_back(&back.map(Note::Next));
        Ok(())
    }

    fn end(&mut self, note: Note) {
        if self.lane.is_ended() {
            return;
        }
        let back = self.lane.end_on(note, &mut self.tape);
        self.put_back(&back);
    }

    fn step(&mut self, heap: &Heap, sign: u8) -> Result<(), Memory> {
        match sign {
            b' ' => self.told.put(b' '),
            b'?' => self.put_state(),
            b'0'..=b'9' => self.ask(u32::from(sign - b'0')),
            b'.' | b'!' => self.end(note_of(heap, sign)?),
            letter => self.offer(heap, &[letter])?,
        }
        Ok(())
    }

    fn run(&mut self, heap: &Heap, script: &[u8]) -> Result<(), Memory> {
        for sign in script {
            self.step(heap, *sign)?;
        }
        Ok(())
    }
}

// Puts the signs of notes that are addressed to an observer.
pub(crate) fn put_outs(told: &mut Told, who: u32, outs: &[Given]) {
    for given in outs {
        if given.who != who {
            told.put(b'#');
        }
        told.put(sign_of(&given.note));
    }
}

// Puts the items of these letters on a tape, and says how many pushes were refused and then made again.
fn push_all(tape: &mut Tape, heap: &Heap, letters: &[u8]) -> Result<u64, Memory> {
    let mut misses: u64 = 0;
    for letter in letters {
        if tape.push(item(heap, &[*letter])?).is_err() {
            misses = misses.saturating_add(1);
            tape.push(item(heap, &[*letter])?)?;
        }
    }
    Ok(misses)
}

/// A strategy that shares a tape, and an error mode.
#[derive(Clone, Copy)]
struct Shared {
    room: Option<u16>,
    errors: Errors,
}

// The policy of `Buffer`, or of `Latest` with a room.
fn shared_policy(shared: Shared) -> Result<Policy, Fail>
    ensures { IfOk result (λ policy. IsShared policy.strategy) }
{
    let strategy = match shared.room {
        Some(room) => Strategy::Latest(room),
        None => Strategy::Buffer,
    };
    let policy = policy_by(strategy, shared.errors)?;
    match policy.strategy() {
        Strategy::Drop(_) | Strategy::Bounded(_) => Err(Memory)?,
        _ => Ok(policy),
    }
}

/// The number of a lane's observer where that is told to its requests, what stands on the tape before it joins, how many of
/// these it is offered behind a lead, its policy and its first request, and a script.
#[derive(Clone, Copy)]
struct Row {
    who: Option<u32>,
    before: &'static str,
    lead: Option<u8>,
    back: usize,
    shared: Shared,
    first: u32,
    script: &'static str,
}

// The lead of a row.
fn lead_of(heap: &Heap, lead: Option<u8>) -> Result<Option<Item>, Memory> {
    match lead {
        Some(letter) => Ok(Some(item(heap, &[letter])?)),
        None => Ok(None),
    }
}

impl Row {
    // A lane that joins: what it gives at once is put behind `given`.
    fn joined(
        &self,
        heap: &Heap,
        policy: Policy,
        tape: &mut Tape,
        given: &mut Vec<Note, Heap>,
    ) -> Result<TapeLane, Memory>
        requires { IsShared policy.strategy }
        ensures { IfOk result (λ lane. StandsBack tape.new lane.cursor lane.back) }
    {
        let back = self.back.min(tape.len());
        let lead = lead_of(heap, self.lead)?;
        TapeLane::new(policy, self.first, lead, back, tape, given)
    }

    // The same, made again where it was refused, and how often it was.
    fn joined_at_last(
        &self,
        heap: &Heap,
        policy: Policy,
        tape: &mut Tape,
        given: &mut Vec<Note, Heap>,
    ) -> Result<(TapeLane, u64), Memory>
        requires { IsShared policy.strategy }
        ensures { IfOk result (λ made. StandsBack tape.new made.0.cursor made.0.back) }
    {
        match self.joined(heap, policy, tape, given) {
            Ok(lane) => Ok((lane, 0)),
            Err(Memory) => {
                let lane = self.joined(heap, policy, tape, given)?;
                Ok((lane, 1))
            }
        }
    }

    // A lane with its tape, and what it gave at once.
    fn start(&self, free: &Heap, tight: &Heap, policy: Policy) -> Result<Tried, Memory>
        requires { IsShared policy.strategy }
    {
        let outs = Vec::new(tight.clone()?);
        let mut given = Vec::new(tight.clone()?);
        let mut tape = Tape::new(tight.clone()?);
        let refused = push_all(&mut tape, free, self.before.as_bytes())?;
        let (lane, misses) = self.joined_at_last(free, policy, &mut tape, &mut given)?;
        let mut told = Told::new();
        told.put_notes(given.as_slice());
        given.clear();
        Ok(Tried {
            tape,
            lane,
            who: self.who,
            given,
            outs,
            told,
            misses: misses.saturating_add(refused),
        })
    }
}

impl Script for Row {
    fn tell(&self, free: &Heap, tight: &Heap) -> Result<Tale, Fail> {
        let policy = shared_policy(self.shared)?;
        let mut tried = self.start(free, tight, policy)?;
        tried.run(free, self.script.as_bytes())?;
        Ok(Tale {
            told: tried.told,
            misses: tried.misses,
        })
    }
}

// The items before, the lead, how far back the cursor begins, the room under `Latest`, the error mode, the first request, the
// script, and what is told.
const ROWS: &[(
    &str,
    Option<u8>,
    usize,
    Option<u16>,
    Errors,
    u32,
    &str,
    &str,
)] = &[
    (
        "",
        None,
        0,
        Some(2),
        Errors::Delay,
        0,
        "01a bcd? 5? .?",
        "Za 220- cd003- .003!",
    ),
    ("", None, 0, None, Errors::Delay, 0, "a.? 1?", "120- a.000!"),
    ("", None, 0, None, Errors::Delay, 0, "abc.9", "abc."),
    ("", None, 0, Some(1), Errors::Delay, 0, "abc.9", "c."),
    ("", None, 0, None, Errors::Ahead, 0, "ab!? 9", "!000! "),
    (
        "",
        None,
        0,
        Some(2),
        Errors::Ahead,
        0,
        "abc.? 9",
        "230- bc.",
    ),
    (
        "",
        None,
        0,
        Some(2),
        Errors::Ahead,
        0,
        "ab.c!? 9",
        "230- ab.",
    ),
    (
        "",
        None,
        0,
        None,
        Errors::Ahead,
        1,
        "abc!d.? 1?",
        "a!000! 001!",
    ),
    ("abc", None, 2, Some(1), Errors::Delay, 0, "? 9", "110- c"),
    ("abc", None, 2, None, Errors::Delay, 1, "d? 9", "b220- cd"),
    ("abc", Some(b'z'), 0, Some(2), Errors::Delay, 0, "ab9", "ab"),
    (
        "abc",
        Some(b'z'),
        2,
        None,
        Errors::Delay,
        2,
        "? 9",
        "zb110- c",
    ),
    (
        "abc",
        Some(b'z'),
        3,
        None,
        Errors::Delay,
        9,
        "?",
        "zabc005-",
    ),
];

// Hands the table out, so that what goes over it is proved without its rows.
fn rows() -> &'static [(
    &'static str,
    Option<u8>,
    usize,
    Option<u16>,
    Errors,
    u32,
    &'static str,
    &'static str,
)] {
    ROWS
}

#[test]
fn tape_lane_call_by_call(rt: HostRuntime) -> Result<(), Fail> {
    for (before, lead, back, room, errors, first, script, wanted) in rows() {
        for who in [None, Some(7)] {
            let row = Row {
                who,
                before,
                lead: *lead,
                back: *back,
                shared: Shared {
                    room: *room,
                    errors: *errors,
                },
                first: *first,
                script,
            };
            expect_in_turn(&rt, rt.alloc(), &row, wanted, script)?;
        }
    }
    Ok(())
}
