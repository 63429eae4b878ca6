// A stored history walks its events twice or three times: the first walk finds out who is held and how many have joined, and
// takes no memory, so that `NoObserver` is exact and comes before `Memory`. It has room for 64 observers at a time, the
// greatest limit of this project; so `line`, `given` and `waiting` have the condition that the rules are in that limit.
ghost use Rattle.std.specs.Prelude.{◌≡◌, ◌≤◌, ◌↔◌, [], ◌∷◌, ◌++◌, None, is_some, Err, length, IfOk, OnOk, OnErr};
ghost use Rattle.rx_history.specs.Histories.{is_held, signals, line_of, given_to, waiting_for};
ghost use Rattle.rx_history.specs.Stored.{history_of};

use crate::LineError;
use crate::trace::Trace;
use crate::walk::{roster_of, trace_of};
use rx_heap::{Heap, Memory};
use rx_note::{Event, Note, Rules};
use std::marker::Model;

/// The events of a subject as they came, accepted or refused, each with the number of the port that it came by.
/// Contracts see a history as the list of these, the oldest first.
///
/// It reads what an observer is to be given from the events alone, from the first one on at each call, by rules that are
/// in this project's limits: no more than 64 observers are held at a time.
pub struct History {
    entries: Vec<(u32, Event), Heap>,
}

// By hand: rx_heap says why.
impl Drop for History {
    fn drop(self) {
        let History { entries: _ } = self;
    }
}

impl Model for History {
    ghost use Rattle.std.specs.Prelude.{List};
    ghost use Rattle.rx_history.specs.Histories.{Entry};

    ghost Value = { List Entry };

    ghost view = { λ h. h.entries.items };
}

impl History {
    ghost use Rattle.rx_history.specs.Traces.{TracesObserver};

    /// A history with no event yet. It takes no memory.
    pub fn new(alloc: Heap) -> History
        ensures { result ≡ [] }
    {
        History {
            entries: Vec::new(alloc),
        }
    }

    /// Puts an event from a port last. On `Memory` the history is as it was.
    pub fn add(&mut self, port: u32, event: Event) -> Result<(), Memory>
        ensures ok { OnOk result (self.new ≡ self.old ++ (port, event) ∷ []) }
        ensures err { OnErr result (self.new ≡ self.old) }
    {
        self.entries.push((port, event))?;
        Ok(())
    }

    /// How many events it has.
    pub fn len(&self) -> usize
        ensures { result ≡ length self.now }
    {
        self.entries.len()
    }

    /// All that an observer is to be given; of one that is held no more, what it was given. Refused in the order
    /// `NoObserver`, `Memory`.
    pub fn line(&self, rules: &Rules, who: u32) -> Result<Vec<Note, Heap>, LineError>
        requires { rules.now.limits.observers ≤ 64 }
        ensures no_observer { (result ≡ Err LineError.NoObserver)
            ↔ (signals rules.now (history_of self.now) who ≡ None) }
        ensures line { IfOk result (λ notes. notes.items ≡ line_of rules.now (history_of self.now) who) }
    {
        let trace = self.trace(rules, who)?;
        if self.holds(rules, who) {
            Ok(trace.line()?)
        } else {
            Ok(trace.given()?)
        }
    }

    /// What an observer was given. Refused in the order `NoObserver`, `Memory`.
    pub fn given(&self, rules: &Rules, who: u32) -> Result<Vec<Note, Heap>, LineError>
        requires { rules.now.limits.observers ≤ 64 }
        ensures no_observer { (result ≡ Err LineError.NoObserver)
            ↔ (signals rules.now (history_of self.now) who ≡ None) }
        ensures given { IfOk result (λ notes. notes.items ≡ given_to rules.now (history_of self.now) who) }
    {
        Ok(self.trace(rules, who)?.given()?)
    }

    /// What waits for an observer; for one that is held no more, nothing. Refused in the order `NoObserver`, `Memory`.
    pub fn waiting(&self, rules: &Rules, who: u32) -> Result<Vec<Note, Heap>, LineError>
        requires { rules.now.limits.observers ≤ 64 }
        ensures no_observer { (result ≡ Err LineError.NoObserver)
            ↔ (signals rules.now (history_of self.now) who ≡ None) }
        ensures waiting { IfOk result (λ notes. notes.items ≡ waiting_for rules.now (history_of self.now) who) }
    {
        let trace = self.trace(rules, who)?;
        if self.holds(rules, who) {
            Ok(trace.waiting()?)
        } else {
            Ok(Vec::new(self.heap()?))
        }
    }

    // The allocator of its entries.
    fn heap(&self) -> Result<Heap, Memory> {
        Ok(self.entries.allocator().clone()?)
    }

    // Whether an observer has joined.
    fn has_joined(&self, rules: &Rules, who: u32) -> bool
        requires { rules.now.limits.observers ≤ 64 }
        ensures { result ≡ is_some (signals rules.now (history_of self.now) who) }
    {
        who < roster_of(rules, &self.entries).joins()
    }

    // Whether an observer is held.
    fn holds(&self, rules: &Rules, who: u32) -> bool
        requires { rules.now.limits.observers ≤ 64 }
        ensures { result ≡ is_held rules.now (history_of self.now) who }
    {
        roster_of(rules, &self.entries).holds(who)
    }

    // What the events mean for an observer.
    fn trace(&self, rules: &Rules, who: u32) -> Result<Trace, LineError>
        requires { rules.now.limits.observers ≤ 64 }
        ensures no_observer { (result ≡ Err LineError.NoObserver)
            ↔ (signals rules.now (history_of self.now) who ≡ None) }
        ensures traces { IfOk result (λ trace. TracesObserver rules.now (history_of self.now) who trace) }
    {
        if !self.has_joined(rules, who) {
            return Err(LineError::NoObserver);
        }
        let heap = self.entries.allocator();
        match trace_of(heap, rules, who, &self.entries)? {
            Some(trace) => Ok(trace),
            None => unreachable!(),
        }
    }
}
