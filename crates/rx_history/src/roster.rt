ghost use Rattle.std.specs.Prelude.{ℕ, ◌≡◌, ◌+◌, ◌<◌, ◌≤◌, ◌^◌, ◌==◌, true, [], length, if◌then◌else◌};
ghost use Rattle.std.specs.List.{list_any};
ghost use Rattle.rx_history.specs.Histories.{History, ◌▹◌, roster_of, admits, with_one_more, without_one};

use rx_note::{Event, Limits};
use std::marker::Model;

/// The most observers that are held at a time, by the limits of this project.
const MOST: usize = 64;

/// How many Joins were accepted, and the observers that are held, by rising number. It takes no memory.
#[derive(Drop)]
pub(crate) struct Roster {
    joins: u32,
    numbers: [u32; MOST],
    count: usize,
}

impl Model for Roster {
    ghost use Rattle.std.specs.Prelude.{◌≤◌, take};
    ghost use Rattle.rx_history.specs.Histories.{Roster as Observers};

    ghost Value = { Observers };

    ghost view = { λ r. record { joins = r.joins; held = take r.count r.numbers } };

    ghost invariant = { λ r. r.count ≤ 64 };
}

impl Roster {
    /// Nobody has joined.
    pub(crate) fn new() -> Roster
        ensures { result ≡ record { joins = 0; held = [] } }
    {
        Roster {
            joins: 0,
            numbers: [0; MOST],
            count: 0,
        }
    }

    /// How many Joins were accepted.
    pub(crate) fn joins(&self) -> u32
        ensures { result ≡ self.now.joins }
    {
        self.joins
    }

    /// Whether the next Join is accepted.
    pub(crate) fn admits(&self, limits: &Limits) -> bool
        ensures admitted { result ≡ admits limits.now self.now }
        ensures room { result ≡ true → length self.now.held < limits.now.observers }
        ensures more { result ≡ true → self.now.joins + 1 < 2 ^ 32 }
    {
        self.count < limits.observers as usize && self.joins < limits.joins
    }

    /// Whether an observer is held.
    pub(crate) fn holds(&self, who: u32) -> bool
        ensures { result ≡ list_any (λ k. k == who) self.now.held }
    {
        self.numbers[..self.count].contains(&who)
    }

    /// Goes on over one event.
    pub(crate) fn turn(&mut self, limits: &Limits, event: &Event)
        requires { limits.now.observers ≤ 64 }
        ensures { (H : History) (port : ℕ) → self.old ≡ roster_of limits.now H → self.new ≡ roster_of limits.now (H ▹ (port, event.now)) }
    {
        match event {
            Event::Join { .. } => {
                if self.admits(limits) {
                    self.join();
                }
            }
            Event::Dispose { who } => self.leave(*who),
            Event::Emit { .. } | Event::Request { .. } => {}
        }
    }

    /// One observer more, whose number is the count of the Joins before it.
    pub(crate) fn join(&mut self)
        requires room { length self.old.held < 64 }
        requires more { self.old.joins + 1 < 2 ^ 32 }
        ensures { self.new ≡ with_one_more self.old }
    {
        self.numbers[self.count] = self.joins;
        self.count += 1;
        self.joins += 1;
    }

    /// An observer leaves, if it is held.
    pub(crate) fn leave(&mut self, who: u32)
        ensures { self.new ≡ without_one who self.old }
    {
        let mut kept = 0;
        for place in 0..self.count {
            let number = self.numbers[place];
            self.numbers[kept] = number;
            kept = count_with(kept, number != who);
        }
        self.count = kept;
    }
}

// The count with one more, where it counts.
fn count_with(count: usize, counts: bool) -> usize
    requires { count ≤ 64 }
    ensures { result ≡ (if counts then count + 1 else count) }
{
    if counts { count + 1 } else { count }
}
