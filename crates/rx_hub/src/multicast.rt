// A hub's tape has no more items than the most that wait for one observer, or are kept for joiners. That is a fact of the
// private type `Multicast`, after each step; it rests on every cursor of the tape being that of a seat.
ghost use Rattle.std.specs.Prelude.{◌≡◌, ◌<◌, ◌≤◌, ◌^◌, ℕ, List, true, max, length, vec_capacity, IfOk, IsOk, OnErr, OnOk};
ghost use Rattle.rx_note.specs.declared.event.Event.TheVariants.{Emit, Join, Request, Dispose};
ghost use Rattle.rx_note.specs.declared.given.Given.{Given};
ghost use Rattle.rx_history.specs.Histories.{History, has_room};
ghost use Rattle.rx_subject.specs.Subjects.{HasPlace};
ghost use Rattle.rx_hub.specs.Hubs.{StandsFor, Takes};
ghost use Rattle.rx_hub.specs.Counts.{waiting_count};
ghost use Rattle.rx_hub.specs.Looks.{IsSeen};
ghost use Rattle.rx_hub.specs.Audiences.{most_waiting};
ghost use Rattle.rx_hub.specs.States.{state_by, IsOfHistory};

use crate::audience::Audience;
use crate::backlog::Backlog;
use crate::emission::Emission;
use crate::no_observer::NoObserver;
use crate::subject_end::SubjectEnd;
use crate::subject_look::SubjectLook;
use rx_heap::{Heap, Memory};
use rx_lane::{AskError, Joiner};
use rx_note::{Answer, Event, Given, Kind, Limits, Note, Policy, Refusal};
use rx_subject::TapeSubject;

/// A subject and its observers, by rising number.
pub(crate) struct Multicast {
    pub(crate) limits: Limits,
    pub(crate) subject: TapeSubject,
    pub(crate) joins: u32,
    pub(crate) audience: Audience,
    // No more observers are held than the limits allow.
    ghost fits: { (length audience.observers ≤ limits.observers) × (limits.observers < 2 ^ 32) },
    // What the subject keeps is on the tape.
    ghost within: { length subject.stamps ≤ length audience.items },
    // It stands for some history.
    ghost stands: { IsOfHistory (state_by limits subject joins audience) },
    // No more items are on the tape than the most that wait for one observer, or are kept for joiners.
    ghost tight: { length audience.items ≤ max (length subject.stamps) (most_waiting audience.observers) },
}

// By hand: rx_heap says why.
impl Drop for Multicast {
    fn drop(self) {
        let Multicast {
            limits: _,
            subject: _,
            joins: _,
            audience: _,
        } = self;
    }
}

impl Multicast {
    ghost use Rattle.rx_hub.specs.Multicasts.{state_of, state_at_first};

    /// A subject with no event and no observer yet.
    pub(crate) fn new(alloc: Heap, kind: Kind, limits: Limits) -> Result<Multicast, Memory>
        ensures { IfOk result (λ made. state_of made ≡ state_at_first (record { kind = kind; limits = limits })) }
    {
        let audience = Audience::new(alloc.clone()?, limits.observers as usize)?;
        let subject = TapeSubject::new(alloc, kind)?;
        Ok(Multicast {
            limits,
            subject,
            joins: 0,
            audience,
        })
    }

    /// Takes one event from a port. An emission, by far the commonest, is taken in line, so that its text is moved once; all else
    /// is out of line, and an emission has no room to make for what that needs.
    #[inline(always)] // so that an event is moved once
    pub(crate) fn take(
        &mut self,
        port: u32,
        event: Event,
        outs: &mut Vec<Given, Heap>,
    ) -> Result<Answer, Refusal>
        ensures { Takes (state_of self.old) (state_of self.new) outs.old.items outs.new.items result (port, event) }
    {
        match event {
            Event::Emit { note, at } => self.emit(port, note, at, outs),
            Event::Join { policy, first, at } => self.join(policy, first, at, outs),
            Event::Request { who, n } => self.request(who, n, outs),
            Event::Dispose { who } => self.dispose(who),
        }
    }

    /// How many observers are held.
    pub(crate) fn observers(&self) -> u32
        ensures { result ≡ length self.now.audience.observers }
    {
        self.audience.len() as u32
    }

    /// How many notes wait for an observer.
    pub(crate) fn waiting_of(&self, who: u32) -> Result<usize, NoObserver>
        ensures { (H : History) → StandsFor (state_of self.now) H → result ≡ waiting_count (state_of self.now).rules H who }
    {
        let Some(place) = self.audience.place_of(who) else {
            return Err(NoObserver);
        };
        Ok(self.audience.waiting_notes(place))
    }

    /// Writes what is seen of it in place of what was seen before. It counts no Memory answers. `Memory` where there was none for
    /// the rows.
    pub(crate) fn look(&self, seen: &mut SubjectLook) -> Result<(), Memory>
        ensures seen { OnOk result ((H : History) → StandsFor (state_of self.now) H → IsSeen (state_of self.now).rules H seen.new) }
        ensures room { length self.now.audience.observers ≤ vec_capacity seen.old.observers → IsOk result }
        ensures misses { seen.new.misses ≡ seen.old.misses }
    {
        self.audience.show(&mut seen.observers)?;
        seen.items = self.subject.items();
        seen.end = SubjectEnd::of(self.subject.end());
        seen.joins = self.joins;
        seen.bytes = self.audience.bytes();
        Ok(())
    }

    /// What waits for the observer for whom most notes wait; None where none waits for any.
    pub(crate) fn backlog(&self) -> Option<Backlog> {
        self.audience.backlog(self.subject.keep())
    }

    // A note is emitted from a port.
    #[inline(always)] // so that a text is moved once
    fn emit(
        &mut self,
        port: u32,
        note: Note,
        at: u64,
        outs: &mut Vec<Given, Heap>,
    ) -> Result<Answer, Refusal>
        ensures { Takes (state_of self.old) (state_of self.new) outs.old.items outs.new.items result (port, Emit note at) }
    {
        if self.subject.is_ended() {
            return Err(Refusal::Ended);
        }
        if !self.has_room(&note) {
            return Err(Refusal::Spent);
        }
        let emission = Emission { port, note, at };
        let Ok(()) = self.audience.admit(&mut self.subject, emission, outs) else {
            return Err(Refusal::Memory);
        };
        self.audience.trim(self.subject.keep());
        Ok(Answer::Admitted)
    }

    // Whether a note finds room: an item does where fewer were accepted than the limits allow.
    #[inline(always)] // on the path of every emission
    fn has_room(&self, note: &Note) -> bool
        ensures room { result ≡ has_room self.now.limits self.now.subject.count note.now }
        ensures place { result ≡ true → HasPlace self.now.subject.count note.now }
    {
        match note {
            Note::Next(_) => self.subject.items() < self.limits.items,
            Note::Completed | Note::Failed(_) => true,
        }
    }

    // An observer joins.
    #[inline(never)] // rare, and an emission makes no room for what it needs
    fn join(
        &mut self,
        policy: Policy,
        first: u32,
        at: u64,
        outs: &mut Vec<Given, Heap>,
    ) -> Result<Answer, Refusal>
        ensures { (port : ℕ) → Takes (state_of self.old) (state_of self.new) outs.old.items outs.new.items result (port, Join policy first at) }
    {
        if self.audience.len() >= self.limits.observers as usize {
            return Err(Refusal::Full);
        }
        if self.joins >= self.limits.joins {
            return Err(Refusal::Spent);
        }
        let who = self.joins;
        let joiner = Joiner { who, policy, first };
        let Ok(()) = self.audience.open(joiner, at, &self.subject, outs) else {
            return Err(Refusal::Memory);
        };
        self.joins = who + 1;
        self.subject.joined(at);
        self.audience.trim(self.subject.keep());
        Ok(Answer::Joined(who))
    }

    // An observer requests items.
    #[inline(never)] // an emission makes no room for what it needs
    pub(crate) fn request(
        &mut self,
        who: u32,
        n: u32,
        outs: &mut Vec<Given, Heap>,
    ) -> Result<Answer, Refusal>
        ensures takes { (port : ℕ) → Takes (state_of self.old) (state_of self.new) outs.old.items outs.new.items result (port, Request who n) }
        ensures refused { OnErr result ((state_of self.new ≡ state_of self.old) × (outs.new.items ≡ outs.old.items)) }
    {
        if n == 0 {
            return Err(Refusal::ZeroRequest);
        }
        let Some(place) = self.audience.place_of(who) else {
            return Err(Refusal::NoObserver);
        };
        let keep = self.subject.keep();
        match self.audience.ask(place, n, keep, outs) {
            Ok(()) => {
                self.audience.trim(keep);
                Ok(Answer::Asked)
            }
            Err(AskError::ZeroRequest) => Err(Refusal::ZeroRequest),
            Err(AskError::TooMuch) => Err(Refusal::TooMuch),
            Err(AskError::Memory) => Err(Refusal::Memory),
        }
    }

    // An observer leaves, with what waits for it.
    #[inline(never)] // rare, and an emission makes no room for what it needs
    fn dispose(&mut self, who: u32) -> Result<Answer, Refusal>
        ensures { (port : ℕ) (outs : List Given) → Takes (state_of self.old) (state_of self.new) outs outs result (port, Dispose who) }
    {
        let Some(place) = self.audience.place_of(who) else {
            return Err(Refusal::NoObserver);
        };
        self.audience.remove(place);
        self.audience.trim(self.subject.keep());
        Ok(Answer::Left)
    }
}
