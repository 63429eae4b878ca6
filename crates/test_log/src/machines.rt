//! A machine's part as scripts: events, and what is told of each, also with each growth refused in its turn.
//!
//! The events: `c` it has caught up, `u` its connection came, `d` its connection broke, `p` a call to publish an item, `e` one to
//! end the subject, `a` what it is to append next goes under way, `r` the oldest that is under way arrives and is read, `=` so
//! does a copy of it, `l` it is lost, `s` the two oldest change places, `x` a foreign item arrives and is read, `n` so does a
//! tenure of another run of its node, `@` 10 milliseconds pass.
//!
//! What is told: of `a` a `t` for a tenure, the number of a note, `-` for nothing; of what is read the sign of how it stands, and
//! a letter for the call that it answers, `A` the first; `F` of a call that was refused since the machine is full.

use crate::expectations::{expect_that, expect_told};
use crate::traps::sign_of;
use rx_heap::{Heap, Memory};
use rx_log::{Call, CallError, Entry, Holder, Machine, Pace, Read, ReadError, Total};
use rx_note::{Item, Note, Text};
use std::test::Fail;
use test_kit::{Refusable, Seen, refuse_in_turn};

const SPAN: u64 = 8;

const PACE: Pace = Pace {
    most: 3,
    window: 2,
    patience: 10,
};

const ROWS: &[(&str, &str, &str)] = &[
    ("answered_where_it_stands", "acaparar", "-t-o10A"),
    (
        "no_more_than_a_window_under_way",
        "carpppaaararr",
        "to12-0A31B2C",
    ),
    ("full", "carppppa", "toF1"),
    ("a_copy_answers_nothing", "carpa=r", "to10A-"),
    ("one_before_it_is_lost", "carppaalraraarr", "to12-to120A1B"),
    ("arrives_before_the_new_tenure", "carpadauarra", "to1-t0Ao-"),
    (
        "arrives_behind_the_new_tenure",
        "carpaduasrrar",
        "to1to-10A",
    ),
    ("the_tenure_is_lost", "cal@ar", "tto"),
    ("a_note_is_lost", "carpal@arar", "to1to10A"),
    (
        "nothing_goes_while_a_tenure_is_asked_for",
        "carppa@aararar",
        "to1t-0A-o11B",
    ),
    (
        "numbers_begin_anew_behind_a_tenure",
        "carparuarpar",
        "to10Ato11B",
    ),
    ("waits_for_nothing", "car@a", "to-"),
    ("another_run_of_its_node", "carnpauaca", "too---"),
    ("a_late_tenure_of_the_run_before", "canrarpar", "to-to10A"),
    ("half_a_span_behind_its_tenure", "carxxxxaxa", "to0123-4t"),
    ("behind_the_end", "carepaarr", "to12.A|B"),
    ("two_tenures_under_way", "cauarrpar", "tto-10A"),
    (
        "a_copy_of_a_note_of_a_tenure_given_up",
        "carpa=uarra",
        "to10At-o-",
    ),
];

// Hands the table out, so that what goes over it is proved without its rows.
fn rows() -> &'static [(&'static str, &'static str, &'static str)] {
    ROWS
}

/// A machine, and what of it is under way.
#[derive(Drop)]
struct Stand {
    machine: Machine,
    free: Heap,
    way: Vec<Entry, Heap>,
    told: Vec<u8, Heap>,
    calls: u64,
    moment: u64,
    misses: u64,
}

impl Stand {
    fn new(free: &Heap, tight: &Heap) -> Result<Stand, Memory> {
        let holder = Holder { node: 1, run: 1 };
        Ok(Stand {
            machine: Machine::new(tight.clone()?, holder, PACE, SPAN, 0)?,
            free: free.clone()?,
            way: Vec::new(free.clone()?),
            told: Vec::new(free.clone()?),
            calls: 0,
            moment: 0,
            misses: 0,
        })
    }

    fn act(&mut self, event: u8) -> Result<(), Fail> {
        match event {
            b'c' => self.machine.caught_up(),
            b'u' => self.machine.connected(),
            b'd' => self.machine.disconnected(),
            b'@' => {
                self.moment = self.moment.saturating_add(10);
                self.machine.tick(self.moment);
            }
            b'p' | b'e' => self.publish(event)?,
            b'a' => self.append()?,
            b'l' => drop(self.take()?),
            b's' => {
                let first = self.take()?;
                let second = self.take()?;
                self.way.insert(0, first)?;
                self.way.insert(0, second)?;
            }
            _ => {
                let entry = self.arriving(event)?;
                self.read(&entry)?;
            }
        }
        Ok(())
    }

    fn act_all(&mut self, events: &str) -> Result<(), Fail> {
        for event in events.as_bytes() {
            self.act(*event)?;
        }
        Ok(())
    }

    // A call, made again where it was refused for want of memory.
    fn publish(&mut self, event: u8) -> Result<(), Fail> {
        for _ in 0..2 {
            let call = Call {
                ticket: self.calls,
                note: note_of(&self.free, event)?,
            };
            match self.machine.publish(call) {
                Ok(()) => {
                    self.calls = self.calls.saturating_add(1);
                    return Ok(());
                }
                Err(CallError::Full) => {
                    self.told.push(b'F')?;
                    return Ok(());
                }
                Err(CallError::Memory) => self.misses = self.misses.saturating_add(1),
            }
        }
        Err(Fail::from("refused twice"))
    }

    fn append(&mut self) -> Result<(), Fail> {
        let appended = match self.machine.append() {
            Ok(appended) => appended,
            Err(_) => {
                self.misses = self.misses.saturating_add(1);
                self.machine.append()?
            }
        };
        let sign = match &appended {
            None => b'-',
            Some(Entry::Own { number, .. }) => digit(*number),
            Some(_) => b't',
        };
        self.told.push(sign)?;
        if let Some(entry) = appended {
            self.way.push(entry)?;
        }
        Ok(())
    }

    fn take(&mut self) -> Result<Entry, Fail> {
        if self.way.is_empty() {
            return Err(Fail::from("nothing is under way"));
        }
        Ok(self.way.remove(0))
    }

    // What arrives.
    fn arriving(&mut self, event: u8) -> Result<Entry, Fail> {
        match event {
            b'r' => self.take(),
            b'=' => match self.way.first() {
                Some(
                    Entry::Own {
                        tenure,
                        number,
                        note,
                    },
                ) => Ok(Entry::Own {
                    tenure: *tenure,
                    number: *number,
                    note: note.copy()?,
                }),
                _ => Err(Fail::from("no note is under way")),
            },
            b'x' => Ok(Entry::Foreign {
                text: text_of(&self.free)?,
            }),
            b'n' => Ok(Entry::Tenure {
                holder: Holder { node: 1, run: 2 },
                base: self.machine.at(),
                total: Total::nothing(),
            }),
            _ => Err(Fail::from("no event")),
        }
    }

    fn read(&mut self, entry: &Entry) -> Result<(), Fail> {
        let place = self.machine.at().saturating_add(1);
        let read = match self.machine.read(place, entry) {
            Ok(read) => read,
            Err(_) => {
                self.misses = self.misses.saturating_add(1);
                self.machine.read(place, entry)?
            }
        };
        self.told.push(sign_of(entry, read.standing))?;
        if let Some(ticket) = read.answers {
            self.told
                .push(b'A'.saturating_add(u8::try_from(ticket).unwrap_or(0)))?;
        }
        Ok(())
    }

    // Reads at this place: `G` where entries before it were not read, `P` where it was, `-` where no call is answered.
    fn read_at(&mut self, place: u64, entry: &Entry) -> Result<(), Fail> {
        let sign = match self.machine.read(place, entry) {
            Ok(Read { answers: None, .. }) => b'-',
            Ok(_) => b'A',
            Err(ReadError::Gone) => b'G',
            Err(ReadError::Passed) => b'P',
            Err(ReadError::Memory) => b'!',
        };
        self.told.push(sign)?;
        Ok(())
    }
}

fn digit(number: u64) -> u8 {
    b'0'.saturating_add(u8::try_from(number).unwrap_or(0))
}

fn note_of(heap: &Heap, event: u8) -> Result<Note, Fail> {
    match event {
        b'e' => Ok(Note::Completed),
        _ => Ok(Note::Next(Item::new(text_of(heap)?))),
    }
}

// A text that stands in a block, which its copies share.
fn text_of(heap: &Heap) -> Result<Text, Fail> {
    Ok(Text::new(heap.clone()?, b"an item of more than twenty bytes")?)
}

/// A script, and what is to be told of it.
#[derive(Clone, Copy)]
struct Script {
    events: &'static str,
    told: &'static str,
}

impl Refusable for Script {
    fn run_by(&self, free: &Heap, tight: &Heap) -> Result<Seen, Fail> {
        let Ok(mut stand) = Stand::new(free, tight) else {
            return Ok(Seen {
                is_made: false,
                misses: 0,
                is_right: true,
            });
        };
        stand.act_all(self.events)?;
        Ok(Seen {
            is_made: true,
            misses: stand.misses,
            is_right: stand.told.as_slice() == self.told.as_bytes(),
        })
    }
}

#[test]
fn parts_of_a_machine(rt: HostRuntime) -> Result<(), Fail> {
    let heap = Heap::unlimited(rt.alloc());
    for (name, events, told) in rows() {
        let mut stand = Stand::new(&heap, &heap)?;
        stand.act_all(events)?;
        expect_told(&rt, stand.told.as_slice(), told, name);
    }
    Ok(())
}

#[test]
fn growths_refused_in_turn(rt: HostRuntime) -> Result<(), Fail> {
    let mut missed: u64 = 0;
    for (name, events, told) in rows() {
        let refusals = refuse_in_turn(&Script { events, told }, rt.alloc())?;
        expect_told(&rt, refusals.fault.as_bytes(), "", name);
        missed = missed.saturating_add(refusals.missed);
    }
    expect_that(&rt, missed > 0, "growths that were missed");
    Ok(())
}

#[test]
fn entries_out_of_their_place(rt: HostRuntime) -> Result<(), Fail> {
    let heap = Heap::unlimited(rt.alloc());
    let mut stand = Stand::new(&heap, &heap)?;
    let entry = stand.arriving(b'x')?;
    for place in &[2, 1, 1, 2] {
        stand.read_at(*place, &entry)?;
    }
    expect_told(&rt, stand.told.as_slice(), "G-P-", "places");
    expect_that(&rt, stand.machine.at() == 2, "that two were read");
    Ok(())
}
