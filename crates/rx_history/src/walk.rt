ghost use Rattle.std.specs.Prelude.{ℕ, ◌≡◌, ◌≤◌, ◌++◌, map, if◌then◌else◌, Option, IfOk, OnOk};
ghost use Rattle.std.specs.Option.{option_map};
ghost use Rattle.rx_note.specs.declared.event.Event.TheVariants.{Emit, Join, Request};
ghost use Rattle.rx_note.specs.Signals.{Signals, ◌▸◌, Requested, Offered};
ghost use Rattle.rx_history.specs.Histories.{roster_of as roster_after, followed_by, ended_by, may_request, signals as signals_in};
ghost use Rattle.rx_history.specs.Stored.{history_of};
ghost use Rattle.rx_history.specs.Traces.{MayTrace};

use crate::past::{Past, terminal_in};
use crate::roster::Roster;
use crate::trace::Trace;
use rx_heap::{Heap, Memory};
use rx_note::{Event, Item, Note, Policy, Rules, copy_of};

/// A walk over the events of a subject, from the first one on, for the sake of one observer: the observers that are held,
/// the past of the subject, and the trace of the observer once it has joined.
pub(crate) struct Walk {
    pub(crate) who: u32,
    pub(crate) roster: Roster,
    pub(crate) past: Past,
    pub(crate) trace: Option<Trace>,
}

// By hand: rx_heap says why.
impl Drop for Walk {
    fn drop(self) {
        let Walk {
            who: _,
            roster: _,
            past: _,
            trace: _,
        } = self;
    }
}

impl Walk {
    ghost use Rattle.rx_history.specs.Walks.{Passes};

    // The trace, once the walk is over.
    fn into_trace(self) -> Option<Trace>
        ensures { result ≡ self.trace }
    {
        let Walk {
            who: _,
            roster: _,
            past: _,
            trace,
        } = self;
        trace
    }

    /// Goes on over one event from a port.
    fn turn(&mut self, heap: &Heap, rules: &Rules, port: u32, event: &Event) -> Result<(), Memory>
        requires { rules.now.limits.observers ≤ 64 }
        ensures passes { OnOk result (Passes rules.now self.old self.new (port, event.now)) }
        ensures who { self.new.who ≡ self.old.who }
    {
        match event {
            Event::Emit { note, at } => self.emit(rules, port, note, *at),
            Event::Join { policy, first, at } => self.join(heap, rules, *policy, *first, *at),
            Event::Request { who, n } => {
                self.request(*who, *n);
                Ok(())
            }
            Event::Dispose { who } => {
                self.roster.leave(*who);
                Ok(())
            }
        }
    }

    // A note is emitted from a port; it is refused where the subject has ended, and an item also where there are as many as
    // the limit. What it offers is told from the past before it.
    fn emit(&mut self, rules: &Rules, port: u32, note: &Note, at: u64) -> Result<(), Memory>
        ensures passes { OnOk result (Passes rules.now self.old self.new (port, Emit note.now at)) }
        ensures who { self.new.who ≡ self.old.who }
    {
        if !self.past.accepts(&rules.limits, note) {
            return Ok(());
        }
        if !self.roster.holds(self.who) {
            return self.past.emit(&rules.limits, port, note, at);
        }
        let offers = self.past.offers(rules, port, note)?;
        follow(&mut self.trace, offers, terminal_in(note)?)?;
        self.past.emit(&rules.limits, port, note, at)
    }

    // An observer joins; it is refused where the limits are reached. Its number is the count of the Joins before it.
    fn join(
        &mut self,
        heap: &Heap,
        rules: &Rules,
        policy: Policy,
        first: u32,
        at: u64,
    ) -> Result<(), Memory>
        requires { rules.now.limits.observers ≤ 64 }
        ensures passes { OnOk result ((port : ℕ) → Passes rules.now self.old self.new (port, Join policy first at)) }
        ensures who { self.new.who ≡ self.old.who }
    {
        if !self.roster.admits(&rules.limits) {
            return Ok(());
        }
        let who = self.roster.joins();
        self.roster.join();
        self.past.join(at);
        if who == self.who {
            let mut trace = Trace::joined(heap.clone()?, policy, first);
            trace.follow(self.past.opening(&rules.kind)?, copy_of(&self.past.end)?)?;
            self.trace = Some(trace);
        }
        Ok(())
    }

    // An observer requests items; it is refused where no such observer is held.
    fn request(&mut self, who: u32, n: u32)
        ensures passes { (rules : Rules) (port : ℕ) → Passes rules self.old self.new (port, Request who n) }
        ensures who { self.new.who ≡ self.old.who }
    {
        if who == self.who && self.roster.holds(who) {
            request_by(&mut self.trace, n);
        }
    }
}

// Offers items to the observer, if it has joined, and then ends its signals where there is an end.
fn follow(
    trace: &mut Option<Trace>,
    offers: Vec<Item, Heap>,
    end: Option<Note>,
) -> Result<(), Memory>
    ensures { OnOk result ((signals : Option Signals) → MayTrace trace.old signals
        → MayTrace trace.new (option_map (λ s. followed_by s (map Offered offers.items ++ ended_by end)) signals)) }
{
    match trace {
        Some(trace) => trace.follow(offers, end),
        None => Ok(()),
    }
}

// Requests items for the observer, if it has joined.
fn request_by(trace: &mut Option<Trace>, n: u32)
    ensures { (signals : Option Signals) → MayTrace trace.old signals
        → MayTrace trace.new (option_map (λ s. if may_request n s then s ▸ Requested n else s) signals) }
{
    if let Some(trace) = trace {
        trace.request(n);
    }
}

/// The observers after these entries.
pub(crate) fn roster_of(rules: &Rules, entries: &[(u32, Event)]) -> Roster
    requires { rules.now.limits.observers ≤ 64 }
    ensures { result ≡ roster_after rules.now.limits (history_of entries.now) }
{
    let mut roster = Roster::new();
    for entry in entries {
        roster.turn(&rules.limits, &entry.1);
    }
    roster
}

/// The trace of observer `who` after these entries; None where it has not joined.
pub(crate) fn trace_of(
    heap: &Heap,
    rules: &Rules,
    who: u32,
    entries: &[(u32, Event)],
) -> Result<Option<Trace>, Memory>
    requires { rules.now.limits.observers ≤ 64 }
    ensures { IfOk result (λ trace. MayTrace trace (signals_in rules.now (history_of entries.now) who)) }
{
    let mut walk = Walk {
        who,
        roster: Roster::new(),
        past: Past::new(heap.clone()?),
        trace: None,
    };
    for entry in entries {
        walk.turn(heap, rules, entry.0, &entry.1)?;
    }
    Ok(walk.into_trace())
}
