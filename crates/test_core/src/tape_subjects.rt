//! Subjects on a tape, call by call, by the rows of the subjects that keep their items themselves: scripts and what is told of
//! them are the same. Behind each note the tape is trimmed to what the subject keeps.

ghost use Rattle.std.specs.Prelude.{◌≤◌, length};

use crate::expectations::expect_count;
use crate::heaps::unlimited;
use crate::in_turn::{Script, expect_in_turn};
use crate::subjects::{is_memory, put_end, put_item, put_offered, rows};
use crate::tapes::cursor_of;
use rx_heap::{Heap, Memory};
use rx_note::Note;
use rx_subject::{AdmitError, Offer, TapeOpening, TapeSubject};
use rx_tape::Tape;
use std::test::Fail;
use test_kit::{Named, Tale, Told, kind_of, note_of, sign_of_item};

/// A subject that is tried with its tape, the moment of the next call, in milliseconds, whether the next note is only
/// previewed, what is told, and how many calls were refused for want of memory and then made again.
struct Tried {
    tape: Tape,
    subject: TapeSubject,
    moment: u64,
    previews: bool,
    told: Told,
    misses: u64,
    ghost within: { length subject.stamps ≤ length tape.items },
}

// By hand: rx_heap says why.
impl Drop for Tried {
    fn drop(self) {
        let Tried {
            tape: _,
            subject: _,
            moment: _,
            previews: _,
            told: _,
            misses: _,
        } = self;
    }
}

impl Tried {
    fn add_digit(&mut self, digit: u8) {
        self.moment = self
            .moment
            .saturating_mul(10)
            .saturating_add(u64::from(digit));
    }

    fn part(&mut self) {
        self.moment = 0;
        self.told.put(b' ');
    }

    fn count_miss(&mut self) {
        self.misses = self.misses.saturating_add(1);
    }

    fn admitted(&mut self, heap: &Heap, sign: u8) -> Result<Result<Offer, AdmitError>, Memory> {
        let note = note_of(heap, sign)?;
        // No row comes near as many items as there are places.
        if self.subject.items() == u32::MAX {
            return Err(Memory);
        }
        Ok(self.subject.admit(0, note, self.moment, &mut self.tape))
    }

    fn admit(&mut self, heap: &Heap, sign: u8) -> Result<(), Memory> {
        let offered = self.admitted(heap, sign)?;
        if !is_memory(&offered) {
            put_offered(&mut self.told, &offered);
            return Ok(());
        }
        self.count_miss();
        let offered = self.admitted(heap, sign)?;
        put_offered(&mut self.told, &offered);
        Ok(())
    }

    fn preview(&mut self, note: &Note) {
        self.previews = false;
        let mut offered = self.subject.preview(0, note);
        if is_memory(&offered) {
            self.count_miss();
            offered = self.subject.preview(0, note);
        }
        put_offered(&mut self.told, &offered);
    }

    // The cursor of the tape's last items, of which there are so many.
    fn cursor_at_last(&mut self, back: usize) -> Result<u32, Memory> {
        match cursor_of(&mut self.tape, back) {
            Ok(cursor) => Ok(cursor),
            Err(Memory) => {
                self.count_miss();
                cursor_of(&mut self.tape, back)
            }
        }
    }

    // The signs of an opening: its lead, and the tape's last items from a cursor that is made for it.
    fn put_opening(&mut self, opening: &TapeOpening) -> Result<(), Memory> {
        put_item(&mut self.told, &opening.lead);
        let cursor = self.cursor_at_last(opening.back)?;
        for place in 0..opening.back {
            if let Some(item) = self.tape.read_ahead(cursor, place) {
                self.told.put(sign_of_item(item));
            }
        }
        self.tape.release(cursor);
        put_end(&mut self.told, &opening.end);
        Ok(())
    }

    fn opened(&mut self) -> Result<TapeOpening, Memory> {
        match self.subject.opening(self.moment, &self.tape) {
            Ok(opening) => Ok(opening),
            Err(Memory) => {
                self.count_miss();
                self.subject.opening(self.moment, &self.tape)
            }
        }
    }

    fn open(&mut self) -> Result<(), Memory> {
        let opened = self.opened()?;
        self.put_opening(&opened)
    }

    fn put_state(&mut self) {
        self.told.put_digit(self.subject.stamp() as usize);
        let is_ended = self.subject.is_ended();
        self.told.put(if is_ended { b'!' } else { b'-' });
    }

    fn take(&mut self, heap: &Heap, sign: u8) -> Result<(), Memory> {
        if self.previews {
            self.preview(&note_of(heap, sign)?);
        } else {
            self.admit(heap, sign)?;
            self.tape.trim(self.subject.keep());
        }
        Ok(())
    }

    fn step(&mut self, heap: &Heap, sign: u8) -> Result<(), Memory> {
        match sign {
            b' ' => self.part(),
            b'0'..=b'9' => self.add_digit(sign - b'0'),
            b'~' => self.previews = true,
            b'?' => self.open()?,
            b'+' => self.subject.joined(self.moment),
            b'=' => self.put_state(),
            other => self.take(heap, other)?,
        }
        Ok(())
    }

    fn run(&mut self, heap: &Heap, script: &[u8]) -> Result<(), Memory> {
        for sign in script {
            self.step(heap, *sign)?;
        }
        Ok(())
    }
}

fn start(free: &Heap, tight: &Heap, named: Named) -> Result<Tried, Memory> {
    let mut misses = 0;
    let subject = match TapeSubject::new(tight.clone()?, kind_of(free, named)?) {
        Ok(subject) => subject,
        Err(Memory) => {
            misses = 1;
            TapeSubject::new(tight.clone()?, kind_of(free, named)?)?
        }
    };
    Ok(Tried {
        tape: Tape::new(tight.clone()?),
        subject,
        moment: 0,
        previews: false,
        told: Told::new(),
        misses,
    })
}

/// A script for a subject of a kind.
#[derive(Clone, Copy)]
struct Row {
    named: Named,
    script: &'static str,
}

impl Row {
    // How many items are on the tape in the end.
    fn kept(&self, heap: &Heap) -> Result<usize, Memory> {
        let mut tried = start(heap, heap, self.named)?;
        tried.run(heap, self.script.as_bytes())?;
        Ok(tried.tape.len())
    }
}

impl Script for Row {
    fn tell(&self, free: &Heap, tight: &Heap) -> Result<Tale, Fail> {
        let mut tried = start(free, tight, self.named)?;
        tried.run(free, self.script.as_bytes())?;
        Ok(Tale {
            told: tried.told,
            misses: tried.misses,
        })
    }
}

// Whether a kind is within its limits.
fn is_within(heap: &Heap, named: Named) -> Result<bool, Memory> {
    Ok(kind_of(heap, named)?.check().is_ok())
}

#[test]
fn tape_subject_call_by_call(rt: HostRuntime) -> Result<(), Fail> {
    let heap = unlimited(&rt);
    for (named, script, wanted) in rows() {
        if is_within(&heap, *named)? {
            let row = Row {
                named: *named,
                script,
            };
            expect_in_turn(&rt, rt.alloc(), &row, wanted, script)?;
        }
    }
    Ok(())
}

// A kind, a script, and how many items the tape keeps.
const KEPT: [(Named, &str, u64); 7] = [
    (Named::Publish, "abc", 0),
    (Named::Async, "abc", 0),
    (Named::Behavior(None), "abc", 1),
    (Named::Replay(Some(2), None), "abc", 2),
    (Named::Replay(None, None), "abc", 3),
    (Named::Replay(None, Some(10)), "0a 5b 10c", 2),
    (Named::Replay(None, Some(10)), "0a 5b 10c 10. 99+", 2),
];

#[test]
fn a_tape_keeps_what_joiners_may_need(rt: HostRuntime) -> Result<(), Fail> {
    let heap = unlimited(&rt);
    for (named, script, kept) in &KEPT {
        let row = Row {
            named: *named,
            script,
        };
        expect_count(&rt, row.kept(&heap)? as u64, *kept, script);
    }
    Ok(())
}
