ghost use Rattle.std.specs.Prelude.{◌≡◌, ◌==◌, ◌^◌, if◌then◌else◌, min, MatchResult, None, OnErr, Some};
ghost use Rattle.hazoxe_c.specs.Desks.{IsTextOf};
ghost use Rattle.rx_note.specs.declared.note.Note.TheVariants.{Completed, Failed};
ghost use Rattle.rx_note.specs.declared.event.Event.TheVariants.{Emit, Request, Dispose};

use crate::batch::tell_all;
use crate::counts::Counts;
use crate::fault::Fault;
use crate::note_head::{NoteHead, ToldNote, told_note, write_text};
use crate::queue::Queue;
use crate::subject_rules::{SubjectRules, check_text};
use crate::taken::Taken;
use rx_heap::Heap;
use rx_hub::Hub;
use rx_note::{Answer, Event, Note, Policy, Refusal, Text};
use std::alloc::Global;
use std::marker::Model;

/// What a subject is to a program in C: a hub, and the notes that it gave and that were not taken yet.
#[derive(Drop)]
pub struct Desk {
    hub: Hub,
    heap: Heap,
    given: Queue,
}

impl Model for Desk {
    ghost use Rattle.hazoxe_c.specs.Desks.{DeskView};

    ghost Value = { DeskView };

    ghost view = { λ d. record { hub = d.hub; given = d.given } };
}

impl Desk {
    ghost use Rattle.hazoxe_c.specs.Desks.{Stepped, Emitted, item_note};
    ghost use Rattle.hazoxe_c.specs.Steps.{Told};
    ghost use Rattle.hazoxe_c.specs.Asking.{HasJoined};
    ghost use Rattle.hazoxe_c.specs.Opening.{Made, IsMade, rules_fault};
    ghost use Rattle.hazoxe_c.specs.Batches.{TakesMany};
    ghost use Rattle.hazoxe_c.specs.Taking.{Peeked, Takes, Waits, counts_of, first_of};

    /// A desk of the subject that is asked for. Refused in the order of `SubjectRules::check`, `Memory`.
    pub fn open(alloc: Global, rules: &SubjectRules, seed: &[u8]) -> Result<Desk, Fault>
        ensures { Made rules.now seed.now result }
    {
        match rules.check(seed) {
            Ok(()) => Desk::make(alloc, rules, seed),
            Err(fault) => Err(fault),
        }
    }

    // The desk of a subject that can be had.
    fn make(alloc: Global, rules: &SubjectRules, seed: &[u8]) -> Result<Desk, Fault>
        requires { rules_fault rules.now seed.now ≡ None }
        ensures { IsMade rules.now seed.now result }
    {
        let heap = heap_of(alloc, rules.budget)?;
        let kind = rules.kind(new_text(&heap, seed)?);
        let hub = match Hub::new(copy_of(&heap)?, kind, rules.limits()) {
            Ok(hub) => hub,
            Err(_) => return Err(Fault::MEMORY),
        };
        let given = Queue::new(copy_of(&heap)?);
        Ok(Desk { hub, heap, given })
    }

    #[inline(always)] // so that an event is moved once
    fn tell(&mut self, port: u32, event: Event) -> Result<Answer, Refusal>
        ensures { Told self.old.hub self.new.hub self.old.given self.new.given result (port, event) }
    {
        self.given.step(&mut self.hub, port, event)
    }

    #[inline(always)] // as of `tell`
    fn step(&mut self, port: u32, event: Event) -> Result<(), Fault>
        ensures { Stepped (port, event) self.old self.new result }
    {
        match self.tell(port, event) {
            Ok(_) => Ok(()),
            Err(refusal) => Err(Fault::Refused(refusal)),
        }
    }

    /// A producer emits an item of this text, by a port, at a moment in milliseconds. Refused in the order `TooLong`, `HasLf`,
    /// `Memory` for the text, and then as `Hub::step` refuses.
    pub fn next(&mut self, port: u32, at: u64, text: &[u8]) -> Result<(), Fault>
        ensures { Emitted port at item_note text.now self.old self.new result }
    {
        let text = new_text(&self.heap, text)?;
        self.step(port, Event::item(text, at))
    }

    /// A producer completes the subject.
    pub fn complete(&mut self, port: u32, at: u64) -> Result<(), Fault>
        ensures { Stepped (port, Emit Completed at) self.old self.new result }
    {
        let note = Note::Completed;
        self.step(port, Event::Emit { note, at })
    }

    /// A producer ends the subject by an error of this text. Refused as `next`.
    pub fn fail(&mut self, port: u32, at: u64, text: &[u8]) -> Result<(), Fault>
        ensures { Emitted port at Failed text.now self.old self.new result }
    {
        let text = new_text(&self.heap, text)?;
        let note = Note::Failed(text);
        self.step(port, Event::Emit { note, at })
    }

    /// An observer joins, and its number is written to `who`.
    pub fn join(&mut self, policy: Policy, first: u32, at: u64, who: &mut u32) -> Result<(), Fault>
        ensures { HasJoined policy first at self.old self.new who.old who.new result }
    {
        match self.tell(0, Event::Join { policy, first, at }) {
            Ok(Answer::Joined(number)) => {
                *who = number;
                Ok(())
            }
            Ok(_) => Ok(()),
            Err(refusal) => Err(Fault::Refused(refusal)),
        }
    }

    /// An observer requests `n` items more.
    pub fn request(&mut self, who: u32, n: u32) -> Result<(), Fault>
        ensures { Stepped (0, Request who n) self.old self.new result }
    {
        self.step(0, Event::Request { who, n })
    }

    /// An observer leaves.
    pub fn dispose(&mut self, who: u32) -> Result<(), Fault>
        ensures { Stepped (0, Dispose who) self.old self.new result }
    {
        self.step(0, Event::Dispose { who })
    }

    /// Tells of the first note that was given and not taken yet. `NothingGiven` where there is none.
    pub fn peek(&self, head: &mut NoteHead) -> Result<(), Fault>
        ensures { Peeked (first_of self.now.given) head.old head.new result }
    {
        let Some(given) = self.given.first() else {
            return Err(Fault::NothingGiven);
        };
        let ToldNote {
            head: told,
            text: _,
        } = told_note(given);
        *head = told;
        Ok(())
    }

    /// Tells of it, writes its text to the front of the buffer, and takes it. Refused in the order `NothingGiven`;
    /// `BufferTooSmall`, where it was told of, and stays.
    pub fn take(&mut self, head: &mut NoteHead, buffer: &mut [u8]) -> Result<(), Fault>
        ensures { Takes (first_of self.old.given) self.old self.new head.old head.new buffer.old buffer.new result }
    {
        let Some(given) = self.given.first() else {
            return Err(Fault::NothingGiven);
        };
        let ToldNote { head: told, text } = told_note(given);
        *head = told;
        if !write_text(text, buffer) {
            return Err(Fault::BufferTooSmall);
        }
        self.given.pop();
        Ok(())
    }

    /// Tells of the first notes that were given and not taken yet, of as many as there are heads for and bytes for the texts,
    /// writes to `taken` how many they are, and takes them.
    pub fn take_many(
        &mut self,
        heads: &mut [NoteHead],
        buffer: &mut [u8],
        taken: &mut Taken,
    ) -> Result<(), Fault>
        ensures { TakesMany taken.new heads.old heads.new buffer.old buffer.new self.old self.new result }
    {
        let told = tell_all(self.given.notes(), heads, buffer);
        self.given.pop_many(told.notes);
        *taken = told;
        Ok(())
    }

    /// Writes to `count` how many notes wait for an observer. `NoObserver` where none of that number is held.
    pub fn waiting(&self, who: u32, count: &mut usize) -> Result<(), Fault>
        ensures { Waits who count.old count.new self.now self.now result }
    {
        match self.hub.waiting_of(who) {
            Ok(waiting) => {
                *count = waiting;
                Ok(())
            }
            Err(_) => Err(Fault::Refused(Refusal::NoObserver)),
        }
    }

    /// What can be counted of it.
    pub fn counts(&self) -> Counts
        ensures { result ≡ counts_of self.now }
    {
        Counts {
            observers: self.hub.observers(),
            joins: self.hub.joins(),
            given: self.given.len(),
            misses: self.hub.misses(),
        }
    }
}

// All memory of `alloc`, or no more than so many bytes of it.
fn heap_of(alloc: Global, budget: u64) -> Result<Heap, Fault>
    ensures { MatchResult result (λ heap. heap.limit ≡ (if budget == 0 then None else Some (min budget (2 ^ 48)))) (λ fault. fault ≡ Fault.Refused Refusal.Memory) }
{
    if budget == 0 {
        return Ok(Heap::unlimited(alloc));
    }
    match Heap::with_budget(alloc, budget) {
        Ok(heap) => Ok(heap),
        Err(_) => Err(Fault::MEMORY),
    }
}

// One owner more of the same heap.
#[inline(always)] // with each text
fn copy_of(heap: &Heap) -> Result<Heap, Fault>
    ensures { OnErr result (result ≡ Err (Fault.Refused Refusal.Memory)) }
{
    match heap.clone() {
        Ok(copy) => Ok(copy),
        Err(_) => Err(Fault::MEMORY),
    }
}

// The text of these bytes.
#[inline(always)] // with each text
fn new_text(heap: &Heap, bytes: &[u8]) -> Result<Text, Fault>
    ensures { IsTextOf bytes.now result }
{
    check_text(bytes)?;
    match Text::of_line(copy_of(heap)?, bytes) {
        Ok(text) => Ok(text),
        Err(_) => Err(Fault::MEMORY),
    }
}
