//! A drawn world: machines over a list into which appends are put late, twice, never and out of order, that read with all sorts
//! of lags, lose their connections, die, and begin in the middle.

use crate::dice::Dice;
use crate::plain::{Meant, holder_of, known_behind, meanings};
use crate::runner::{Emitted, Runner};
use rx_heap::{Heap, Memory};
use rx_log::{Call, Entry, Holder, Total};
use rx_note::{Item, Note, Text};
use std::alloc::Global;
use std::str;
use std::test::Fail;

const NODES: u64 = 3;

/// What came of a world: of how much, and what is wrong, no text where nothing is.
#[derive(Clone, Copy)]
pub(crate) struct Outcome {
    pub(crate) entries: u64,
    pub(crate) counted: u64,
    pub(crate) emitted: u64,
    pub(crate) answered: u64,
    pub(crate) runs: u64,
    pub(crate) fault: &'static str,
}

#[derive(Drop)]
pub(crate) struct World {
    alloc: Global,
    heap: Heap,
    dice: Dice,
    span: u64,
    window: u64,
    // So many times in a thousand.
    lose: u64,
    double: u64,
    late: u64,
    has_ends: bool,
    log: Vec<Entry, Heap>,
    // What was appended and has not arrived.
    way: Vec<Entry, Heap>,
    runners: Vec<Runner, Heap>,
    // Which run each node is at.
    current: Vec<usize, Heap>,
    // Which run made each call, by its ticket.
    callers: Vec<usize, Heap>,
}

/// Draws a world and holds it against the plain reading of its list.
pub(crate) fn outcome_of(alloc: Global, seed: u64) -> Result<Outcome, Fail> {
    let mut world = World::new(alloc, seed)?;
    for _ in 0..NODES {
        let number = world.runners.len();
        let runner = world.begin(number as u64)?;
        world.runners.push(runner)?;
        world.current.push(number)?;
    }
    let steps = world.dice.from(50, 600);
    for now in 0..steps {
        world.act(now)?;
    }
    world.outcome()
}

impl World {
    fn new(alloc: Global, seed: u64) -> Result<World, Memory> {
        let heap = Heap::unlimited(alloc);
        let mut dice = Dice::new(seed);
        Ok(World {
            alloc,
            span: dice.from(4, 16),
            window: dice.from(1, 6),
            lose: dice.below(300),
            double: dice.below(300),
            late: dice.below(400),
            has_ends: dice.happens(300),
            dice,
            log: Vec::new(heap.clone()?),
            way: Vec::new(heap.clone()?),
            runners: Vec::new(heap.clone()?),
            current: Vec::new(heap.clone()?),
            callers: Vec::new(heap.clone()?),
            heap,
        })
    }

    // A run of a node, which begins at the first entry or in the middle.
    fn begin(&mut self, node: u64) -> Result<Runner, Memory> {
        let len = self.log.len() as u64;
        let kept = self.dice.below(5);
        let spans = self.dice.from(4, 7);
        let begun = match self.dice.happens(200) {
            true => 0,
            false => len
                .saturating_sub(kept)
                .saturating_sub(spans.saturating_mul(self.span)),
        };
        let holder = Holder {
            node,
            run: (self.runners.len() as u64).saturating_add(1_000),
        };
        Runner::new(&self.heap, holder, self.span, self.window, begun, len)
    }

    // Something happens to one of the machines, or to what is under way.
    fn act(&mut self, now: u64) -> Result<(), Fail> {
        let node = self.dice.below(NODES);
        let number = self.current.get(node as usize).copied().unwrap_or(0);
        let act = self.dice.below(1_000);
        if act < 300 {
            self.publish(number)?;
        } else if act < 500 {
            self.arrive()?;
        } else if act < 520 {
            self.log.push(Entry::Foreign {
                text: text_of(self.alloc, &self.heap, now)?,
            })?;
        } else if act < 900 {
            self.read(number)?;
        } else if act < 990 {
            self.turn(number, act, now);
        } else if let Some(place) = self.current.get_mut(node as usize) {
            *place = self.runners.len();
            let runner = self.begin(node)?;
            self.runners.push(runner)?;
        }
        self.append(number)
    }

    // A call is made.
    fn publish(&mut self, number: usize) -> Result<(), Fail> {
        let ticket = self.callers.len() as u64;
        let text = text_of(self.alloc, &self.heap, ticket)?;
        let is_end = self.has_ends && ticket > 8 && self.dice.happens(50);
        let note = match is_end {
            true => Note::Failed(text),
            false => Note::Next(Item::new(text)),
        };
        let Some(runner) = self.runners.get_mut(number) else {
            return Ok(());
        };
        if runner.publish(Call { ticket, note })? {
            self.callers.push(number)?;
        }
        Ok(())
    }

    // Something that is under way arrives: what was appended first, or any of it, and maybe it stays under way too.
    fn arrive(&mut self) -> Result<(), Fail> {
        let len = self.way.len() as u64;
        let is_late = self.dice.happens(self.late);
        let index = match is_late {
            true => self.dice.below(len),
            false => 0,
        };
        let Some(entry) = self.way.get(index as usize) else {
            return Ok(());
        };
        self.log.push(copy_of(entry)?)?;
        if !(is_late && self.dice.happens(300)) && (index as usize) < self.way.len() {
            drop(self.way.remove(index as usize));
        }
        Ok(())
    }

    // A machine reads up to three entries.
    fn read(&mut self, number: usize) -> Result<(), Fail> {
        for _ in 0..self.dice.from(1, 4) {
            if let Some(runner) = self.runners.get_mut(number) {
                runner.read(&self.heap, &self.log)?;
            }
        }
        Ok(())
    }

    // A moment passes, or a connection breaks or comes.
    fn turn(&mut self, number: usize, act: u64, now: u64) {
        let Some(runner) = self.runners.get_mut(number) else {
            return;
        };
        if act < 960 {
            runner.machine.tick(now);
        } else if act < 970 {
            runner.machine.disconnected();
        } else {
            runner.machine.connected();
        }
    }

    // What a machine appends is lost, or under way, once or twice.
    fn append(&mut self, number: usize) -> Result<(), Fail> {
        for _ in 0..16 {
            let Some(runner) = self.runners.get_mut(number) else {
                return Ok(());
            };
            let Some(entry) = runner.machine.append()? else {
                return Ok(());
            };
            if self.dice.happens(self.double) {
                self.way.push(copy_of(&entry)?)?;
            }
            if !self.dice.happens(self.lose) {
                self.way.push(entry)?;
            }
        }
        Ok(())
    }

    // Whether all that was told is as the plain reading has it.
    fn outcome(&self) -> Result<Outcome, Fail> {
        let meant = meanings(self.heap.clone()?, self.span, &self.log)?;
        let mut outcome = Outcome {
            entries: self.log.len() as u64,
            counted: 0,
            emitted: 0,
            answered: 0,
            runs: self.runners.len() as u64,
            fault: self.order_fault(&meant)?,
        };
        for means in &meant {
            outcome.counted = outcome.counted.saturating_add(u64::from(means.counts));
        }
        for runner in &self.runners {
            outcome.emitted = outcome.emitted.saturating_add(runner.emits.len() as u64);
            outcome.answered = outcome.answered.saturating_add(runner.answers.len() as u64);
            if !self.is_emitted(runner, &meant) {
                outcome.fault = "what was emitted";
            }
            if !self.is_answered(runner, &meant) {
                outcome.fault = "what was answered";
            }
        }
        Ok(outcome)
    }

    // Whether a run emitted all that is emitted from where it knows on, up to where it read, and nothing else.
    fn is_emitted(&self, runner: &Runner, meant: &Vec<Meant, Heap>) -> bool {
        let Some(known) = known_behind(self.span, runner.begun, &self.log, meant) else {
            return runner.emits.is_empty();
        };
        let mut emits = runner.emits.iter();
        for (i, means) in meant.iter().enumerate() {
            let at = (i as u64).saturating_add(1);
            let Some(place) = means.place else {
                continue;
            };
            let is_told = known < at && at <= runner.machine.at();
            if is_told && emits.next() != Some(&Emitted { at, place }) {
                return false;
            }
        }
        emits.next().is_none()
    }

    // Whether a run answered each note of its own that counts, up to where it read, and nothing else.
    fn is_answered(&self, runner: &Runner, meant: &Vec<Meant, Heap>) -> bool {
        let mut answers = runner.answers.iter();
        for (i, means) in meant.iter().enumerate() {
            let at = (i as u64).saturating_add(1);
            let Some(entry) = self.log.get(i) else {
                return false;
            };
            let is_own = means.counts && holder_of(&self.log, entry) == Some(runner.holder);
            if !is_own || at > runner.machine.at() {
                continue;
            }
            let Some(answer) = answers.next() else {
                return false;
            };
            if answer.at != at
                || answer.place != means.place
                || ticket_of(entry) != Some(answer.ticket)
            {
                return false;
            }
        }
        answers.next().is_none()
    }

    // Whether a call counts twice, or the calls of a run out of their order.
    fn order_fault(&self, meant: &Vec<Meant, Heap>) -> Result<&'static str, Fail> {
        let mut latest = Vec::new(self.heap.clone()?);
        for _ in 0..self.runners.len() {
            latest.push(0u64)?;
        }
        for (i, means) in meant.iter().enumerate() {
            let ticket = match self.log.get(i) {
                Some(entry) if means.counts => ticket_of(entry),
                _ => None,
            };
            let Some(ticket) = ticket else {
                continue;
            };
            let caller = self
                .callers
                .get(ticket as usize)
                .copied()
                .unwrap_or(usize::MAX);
            let Some(before) = latest.get_mut(caller) else {
                return Ok("a call of nobody");
            };
            let next = ticket.saturating_add(1);
            if next <= *before {
                return Ok("a call that counts twice, or out of its order");
            }
            *before = next;
        }
        Ok("")
    }
}

// The ticket that an own entry's text tells.
fn ticket_of(entry: &Entry) -> Option<u64> {
    let Entry::Own { note, .. } = entry else {
        return None;
    };
    let text = match note {
        Note::Next(item) => &item.text,
        Note::Failed(text) => text,
        Note::Completed => return None,
    };
    let digits = str::from_utf8(text.as_bytes()).ok()?;
    digits.parse::<u64>().ok()
}

fn text_of(alloc: Global, heap: &Heap, number: u64) -> Result<Text, Fail> {
    let digits = format!(in alloc; "{number}")?;
    Ok(Text::new(heap.clone()?, digits.as_bytes())?)
}

fn copy_of(entry: &Entry) -> Result<Entry, Memory> {
    match entry {
        Entry::Tenure {
            holder,
            base,
            total,
        } => Ok(Entry::Tenure {
            holder: *holder,
            base: *base,
            total: Total {
                items: total.items,
                ended: total.ended,
            },
        }),
        Entry::Own {
            tenure,
            number,
            note,
        } => Ok(Entry::Own {
            tenure: *tenure,
            number: *number,
            note: note.copy()?,
        }),
        Entry::Foreign { text } => Ok(Entry::Foreign { text: text.copy()? }),
    }
}
