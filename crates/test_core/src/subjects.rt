//! Subjects, call by call. In a script a number is the moment of the calls behind it, up to the next space; a letter
//! admits its item, `.` the completion, `!` the failure, and behind `~` they are only previewed; `?` asks for the opening
//! of a joiner, `+` joins one, `=` asks for the state, and a space is told as it is.
//!
//! Told is what a note offers, or `E` where the subject has ended, `M` for want of memory; the items and the end of an
//! opening; of the state the stamp, and `!` where the subject has ended, else `-`. Of a kind that is out of its limits
//! nothing is told but `C` for its count, `A` for its age.

use crate::in_turn::{Script, expect_in_turn};
use rx_heap::{Heap, Memory};
use rx_note::{Item, KindError, Note};
use rx_subject::{AdmitError, Offer, Opening, Subject};
use std::test::Fail;
use test_kit::{Named, Tale, Told, kind_of, note_of, sign_of, sign_of_item};

pub(crate) fn put_item(told: &mut Told, item: &Option<Item>) {
    if let Some(item) = item {
        told.put(sign_of_item(item));
    }
}

pub(crate) fn put_end(told: &mut Told, end: &Option<Note>) {
    if let Some(end) = end {
        told.put(sign_of(end));
    }
}

pub(crate) fn put_offered(told: &mut Told, offered: &Result<Offer, AdmitError>) {
    match offered {
        Ok(offer) => {
            put_item(told, &offer.item);
            put_end(told, &offer.end);
        }
        Err(AdmitError::Ended) => told.put(b'E'),
        Err(AdmitError::Memory) => told.put(b'M'),
    }
}

fn put_opening(told: &mut Told, opening: &Opening) {
    for item in &opening.items {
        told.put(sign_of_item(item));
    }
    put_end(told, &opening.end);
}

/// A subject that is tried, the moment of the next call, in milliseconds, whether the next note is only previewed, what is
/// told, and how many calls were refused for want of memory and then made again.
struct Tried {
    subject: Subject,
    moment: u64,
    previews: bool,
    told: Told,
    misses: u64,
}

// By hand: rx_heap says why.
impl Drop for Tried {
    fn drop(self) {
        let Tried {
            subject: _,
            moment: _,
            previews: _,
            told: _,
            misses: _,
        } = self;
    }
}

impl Tried {
    fn add_digit(&mut self, digit: u8) {
        self.moment = self
            .moment
            .saturating_mul(10)
            .saturating_add(u64::from(digit));
    }

    fn part(&mut self) {
        self.moment = 0;
        self.told.put(b' ');
    }

    fn count_miss(&mut self) {
        self.misses = self.misses.saturating_add(1);
    }

    fn admitted(&mut self, heap: &Heap, sign: u8) -> Result<Result<Offer, AdmitError>, Memory> {
        let note = note_of(heap, sign)?;
        // No row comes near as many items as there are places.
        if self.subject.items() == u32::MAX {
            return Err(Memory);
        }
        Ok(self.subject.admit(0, note, self.moment))
    }

    fn admit(&mut self, heap: &Heap, sign: u8) -> Result<(), Memory> {
        let offered = self.admitted(heap, sign)?;
        if !is_memory(&offered) {
            put_offered(&mut self.told, &offered);
            return Ok(());
        }
        self.count_miss();
        let offered = self.admitted(heap, sign)?;
        put_offered(&mut self.told, &offered);
        Ok(())
    }

    fn preview(&mut self, note: &Note) {
        self.previews = false;
        let mut offered = self.subject.preview(0, note);
        if is_memory(&offered) {
            self.count_miss();
            offered = self.subject.preview(0, note);
        }
        put_offered(&mut self.told, &offered);
    }

    fn open(&mut self) {
        let mut opened = self.subject.opening(self.moment);
        if opened.is_err() {
            self.count_miss();
            opened = self.subject.opening(self.moment);
        }
        match &opened {
            Ok(opening) => put_opening(&mut self.told, opening),
            Err(_) => self.told.put(b'M'),
        }
    }

    fn put_state(&mut self) {
        self.told.put_digit(self.subject.stamp() as usize);
        let is_ended = self.subject.is_ended();
        self.told.put(if is_ended { b'!' } else { b'-' });
    }

    fn take(&mut self, heap: &Heap, sign: u8) -> Result<(), Memory> {
        if self.previews {
            self.preview(&note_of(heap, sign)?);
            Ok(())
        } else {
            self.admit(heap, sign)
        }
    }

    fn step(&mut self, heap: &Heap, sign: u8) -> Result<(), Memory> {
        match sign {
            b' ' => self.part(),
            b'0'..=b'9' => self.add_digit(sign - b'0'),
            b'~' => self.previews = true,
            b'?' => self.open(),
            b'+' => self.subject.joined(self.moment),
            b'=' => self.put_state(),
            other => self.take(heap, other)?,
        }
        Ok(())
    }

    fn run(&mut self, heap: &Heap, script: &[u8]) -> Result<(), Memory> {
        for sign in script {
            self.step(heap, *sign)?;
        }
        Ok(())
    }
}

pub(crate) fn is_memory(offered: &Result<Offer, AdmitError>) -> bool {
    matches!(offered, Err(AdmitError::Memory))
}

// A subject, and how many calls to make it were refused.
fn made(free: &Heap, tight: &Heap, named: Named) -> Result<(Subject, u64), Memory> {
    let kind = kind_of(free, named)?;
    match Subject::new(tight.clone()?, kind) {
        Ok(subject) => Ok((subject, 0)),
        Err(_) => Ok((Subject::new(tight.clone()?, kind_of(free, named)?)?, 1)),
    }
}

/// A script for a subject of a kind.
#[derive(Clone, Copy)]
struct Row {
    named: Named,
    script: &'static str,
}

fn told_alone(sign: u8) -> Tale {
    let mut told = Told::new();
    told.put(sign);
    Tale { told, misses: 0 }
}

impl Row {
    fn run(&self, free: &Heap, tight: &Heap) -> Result<Tale, Memory> {
        let (subject, misses) = made(free, tight, self.named)?;
        let mut tried = Tried {
            subject,
            moment: 0,
            previews: false,
            told: Told::new(),
            misses,
        };
        tried.run(free, self.script.as_bytes())?;
        Ok(Tale {
            told: tried.told,
            misses: tried.misses,
        })
    }
}

impl Script for Row {
    // Tries a subject that grows by `tight`, while all else is made by `free`.
    fn tell(&self, free: &Heap, tight: &Heap) -> Result<Tale, Fail> {
        match kind_of(free, self.named)?.check() {
            Ok(()) => Ok(self.run(free, tight)?),
            Err(KindError::BadCount) => Ok(told_alone(b'C')),
            Err(KindError::BadAge) => Ok(told_alone(b'A')),
        }
    }
}

/// Kinds, scripts and what is told of them.
const ROWS: &[(Named, &str, &str)] = &[
    (
        Named::Replay(Some(2), None),
        "1a 2b 3c 3? ~. 4. 9d = 9?",
        "a b c bc . . E 4! bc.",
    ),
    (
        Named::Replay(None, Some(10)),
        "0a 5b 10c 10? 15? 15. 1000?",
        "a b c bc c . c.",
    ),
    (Named::Replay(None, Some(10)), "0a 5b 15! 1000?", "a b ! !"),
    (
        Named::Replay(None, Some(3)),
        "0a 2b 1? 4+ = 1? 3+ = 4. 9+ = 99?",
        "a b ab  4- b  4- .  9! b.",
    ),
    (
        Named::Replay(None, Some(3)),
        "8a 5b = 10? 11?",
        "a b 8- ab ",
    ),
    (
        Named::Replay(Some(2), Some(10)),
        "0a 1b 2c 2? 11? 12?",
        "a b c bc c ",
    ),
    (
        Named::Replay(None, None),
        "0a 9b ~c ? ~. ? = 5. ?",
        "a b c ab . ab 9- . ab.",
    ),
    (
        Named::Behavior(Some(b'z')),
        "? a ? b ? . ?",
        "Z a a b b . .",
    ),
    (Named::Behavior(Some(b'z')), "! ?", "! !"),
    (Named::Behavior(None), "? a ? ! ?", " a a ! !"),
    (Named::Async, "ab ? ~. ~! . ?", "  b. ! b. b."),
    (Named::Async, "ab ~! ! ?", " ! ! !"),
    (Named::Async, "~a . ?", " . ."),
    (Named::Publish, "a ? . ? d ~d ~.", "a  . . E E E"),
    (Named::Publish, "! ? .", "! ! E"),
    (Named::Replay(Some(0), None), "", "C"),
    (Named::Replay(None, Some(0)), "", "A"),
    (Named::Replay(Some(0), Some(0)), "", "C"),
    (Named::Replay(Some(1), Some(1)), "ab ?", "ab b"),
    (Named::Replay(Some(1), None), "ab ?", "ab b"),
    (Named::Replay(Some(4096), Some(1)), "ab ?", "ab ab"),
    (Named::Replay(Some(4096), None), "ab ?", "ab ab"),
    (Named::Replay(Some(4097), None), "", "C"),
];

/// The rows; handed out, so that what goes over them is proved without them.
pub(crate) fn rows() -> &'static [(Named, &'static str, &'static str)] {
    ROWS
}

#[test]
fn subject_call_by_call(rt: HostRuntime) -> Result<(), Fail> {
    for (named, script, wanted) in rows() {
        let row = Row {
            named: *named,
            script,
        };
        expect_in_turn(&rt, rt.alloc(), &row, wanted, script)?;
    }
    Ok(())
}
