ghost use Rattle.std.specs.Prelude.{◌≡◌, ◌+◌, ◌-◌, ◌<◌, ◌≤◌, ◌^◌, ℕ, nat_le, true, false, List, None, Some, IfOk, OnOk, OnErr, IfSome, IfNone, if◌then◌else◌};
ghost use Rattle.rx_note.specs.declared.note.Note.{Note};
ghost use Rattle.rx_log.specs.declared.entry.Entry.TheVariants.{Tenure, Own, Foreign};
ghost use Rattle.rx_log.specs.declared.holder.Holder.{Holder};
ghost use Rattle.rx_log.specs.Logs.{Log, Behind, opens, is_open, counts, holder_at};
ghost use Rattle.rx_log.specs.Totals.{ends, claimed, known_next};

use crate::mark::Mark;
use crate::term::Term;
use crate::{Entry, Holder, Standing, Total, recent, terms};
use rx_heap::{Heap, Memory};
use rx_note::Note;
use std::collections::VecDeque;
use std::marker::Model;

// How many entries are read at most: more than any log has, and so few that no count of them can overflow.
const MOST_ENTRIES: u64 = (1 << 63) - 1;

/// What the entries of a log mean, one at a time in their order, from its first entry on or from any other.
///
/// It takes memory for each node of which a tenure stands within a span, and, until it knows what the log comes to, for each
/// note that counts within a span. A step costs the more the more nodes there are, and no more for a longer log.
///
/// The rule is this project's own.
#[derive(Drop)]
pub struct Rule {
    span: u64,
    begun: u64,
    at: u64,
    terms: Vec<Term, Heap>,
    total: Option<Total>,
    recent: VecDeque<Mark, Heap>,
}

impl Model for Rule {
    ghost use Rattle.std.specs.Prelude.{◌≡◌, ◌+◌, ◌≤◌, ◌^◌, Some};
    ghost use Rattle.rx_log.specs.declared.total.Total.{Total};
    ghost use Rattle.rx_log.specs.Rules.{RuleState};

    ghost Value = { RuleState };

    ghost view = { λ r. record { span = r.span; begun = r.begun; at = r.at; terms = r.terms.items; total = r.total; recent = r.recent.items } };

    ghost invariant = { λ r. (told : Total) → r.total ≡ Some told → told.items ≤ r.at + 2 ^ 63 };
}

impl Rule {
    ghost use Rattle.rx_log.specs.Rules.{StandsFor, Notes, IsOpenBy, Follows};

    /// The rule of a log of which the first `begun` entries are not known; 0 where it is read from its first entry on. The span
    /// is part of the rule: who reads by another one reads another log.
    ///
    /// # Errors
    ///
    /// `Memory`.
    pub fn new(alloc: Heap, span: u64, begun: u64) -> Result<Rule, Memory>
        ensures stands { IfOk result (λ rule. StandsFor rule (Behind begun)) }
        ensures span { IfOk result (λ rule. rule.span ≡ span) }
    {
        let total = if begun == 0 {
            Some(Total::nothing())
        } else {
            None
        };
        Ok(Rule {
            span,
            begun,
            at: begun,
            terms: Vec::new(alloc.clone()?),
            total,
            recent: VecDeque::new(alloc),
        })
    }

    /// The span that it goes by.
    pub fn span(&self) -> u64
        ensures { result ≡ self.now.span }
    {
        self.span
    }

    /// How many entries it has read up to, which is the place of the last.
    pub fn at(&self) -> u64
        ensures { result ≡ self.now.at }
    {
        self.at
    }

    /// What the log comes to, None where that is not known yet.
    pub fn total(&self) -> Option<Total>
        ensures { result ≡ self.now.total }
    {
        self.total
    }

    /// Reads the entry at the next place, and tells how it stands.
    ///
    /// # Errors
    ///
    /// `Memory`, which leaves the rule as it was; also where 9,223,372,036,854,775,807 entries were read.
    pub fn step(&mut self, entry: &Entry) -> Result<Standing, Memory>
        ensures ok { IfOk result (λ stands. (L : Log) → StandsFor self.old L → Follows self.old self.new L entry.now stands) }
        ensures span { self.new.span ≡ self.old.span }
        ensures err { OnErr result (self.new ≡ self.old) }
    {
        if self.at >= MOST_ENTRIES {
            return Err(Memory);
        }
        match entry {
            Entry::Tenure {
                holder,
                base,
                total,
            } => self.step_tenure(*holder, *base, *total),
            Entry::Own {
                tenure,
                number,
                note,
            } => self.step_own(*tenure, *number, is_terminal(note)),
            Entry::Foreign { text: _ } => self.step_foreign(),
        }
    }

    // A tenure at the next place.
    fn step_tenure(&mut self, holder: Holder, base: u64, told: Total) -> Result<Standing, Memory>
        requires { self.old.at < 2 ^ 63 - 1 }
        ensures ok { IfOk result (λ stands. (L : Log) → StandsFor self.old L → Follows self.old self.new L (Tenure holder base told) stands) }
        ensures span { self.new.span ≡ self.old.span }
        ensures err { OnErr result (self.new ≡ self.old) }
    {
        let counts = self.opens(holder.node, base);
        let total = self.known_with(counts, base, told);
        terms::stand(&mut self.terms, holder, self.at, counts, self.span)?;
        self.at += 1;
        self.total = total;
        Ok(standing_of(counts))
    }

    // An own entry at the next place.
    fn step_own(&mut self, tenure: u64, number: u64, is_end: bool) -> Result<Standing, Memory>
        requires { self.old.at < 2 ^ 63 - 1 }
        ensures ok { IfOk result (λ stands. (L : Log) (note : Note) → ends note ≡ is_end → StandsFor self.old L
            → Follows self.old self.new L (Own tenure number note) stands) }
        ensures span { self.new.span ≡ self.old.span }
        ensures err { OnErr result (self.new ≡ self.old) }
    {
        let Some(by) = self.counts(tenure, number) else {
            self.at += 1;
            return Ok(Standing::Void);
        };
        let before = self.total;
        self.note(is_end)?;
        terms::count(&mut self.terms, tenure, number);
        Ok(Standing::Counts {
            by: Some(by),
            before,
        })
    }

    // A foreign entry at the next place.
    fn step_foreign(&mut self) -> Result<Standing, Memory>
        requires { self.old.at < 2 ^ 63 - 1 }
        ensures ok { IfOk result (λ stands. (L : Log) (text : List ℕ) → StandsFor self.old L → Follows self.old self.new L (Foreign text) stands) }
        ensures span { self.new.span ≡ self.old.span }
        ensures err { OnErr result (self.new ≡ self.old) }
    {
        let before = self.total;
        self.note(false)?;
        Ok(Standing::Counts { by: None, before })
    }

    // A note counts at the next place.
    fn note(&mut self, is_end: bool) -> Result<(), Memory>
        requires { self.old.at < 2 ^ 63 - 1 }
        ensures ok { OnOk result (Notes self.old self.new is_end) }
        ensures err { OnErr result (self.new ≡ self.old) }
    {
        let place = self.at + 1;
        match self.total {
            Some(total) => self.total = Some(total.with_note(is_end)),
            None => {
                let mark = Mark {
                    place,
                    ends: is_end,
                };
                recent::remember(&mut self.recent, mark, self.span)?;
            }
        }
        self.at = place;
        Ok(())
    }

    // Whether the next place is no more than a span behind another one.
    fn is_near(&self, place: u64) -> bool
        requires { self.now.at < 2 ^ 63 - 1 }
        ensures { result ≡ nat_le (self.now.at + 1) (place + self.now.span) }
    {
        (self.at + 1).saturating_sub(place) <= self.span
    }

    // Whether a tenure counts at the next place.
    fn opens(&self, node: u64, base: u64) -> bool
        requires { self.now.at < 2 ^ 63 - 1 }
        ensures { (L : Log) → StandsFor self.now L → result ≡ opens self.now.span L node base }
    {
        if !self.is_near(base) {
            return false;
        }
        match terms::term_of(&self.terms, node) {
            Some(term) => term.last <= base,
            None => true,
        }
    }

    // What is known with a tenure at the next place, of which it is known whether it counts.
    fn known_with(&self, counts: bool, base: u64, told: Total) -> Option<Total>
        requires { self.now.at < 2 ^ 63 - 1 }
        ensures known { (L : Log) (holder : Holder) → StandsFor self.now L → counts ≡ opens self.now.span L holder.node base
            → result ≡ known_next self.now.span L (Tenure holder base told) self.now.total }
        ensures unknown { result ≡ None → self.now.total ≡ None }
        ensures within { IfSome result (λ total. total.items ≤ self.now.at + 2 ^ 63) }
    {
        match self.total {
            Some(total) => Some(total),
            None => self.claimed(counts, base, told),
        }
    }

    // What the log comes to by a tenure at the next place, of which it is known whether it counts.
    fn claimed(&self, counts: bool, base: u64, told: Total) -> Option<Total>
        requires { self.now.at < 2 ^ 63 - 1 }
        ensures claimed { (L : Log) (holder : Holder) → StandsFor self.now L → counts ≡ opens self.now.span L holder.node base
            → self.now.total ≡ None → result ≡ claimed self.now.span L (Tenure holder base told) }
        ensures within { IfSome result (λ total. total.items ≤ self.now.at + 2 ^ 63) }
    {
        if counts && self.is_known(base) && base <= self.at && told.items <= base {
            Some(recent::with_marks(&self.recent, base, told))
        } else {
            None
        }
    }

    // Whether two spans of what stands before a base are known.
    fn is_known(&self, base: u64) -> bool
        ensures { result ≡ nat_le (self.now.begun + self.now.span + self.now.span) base }
    {
        base >= self.begun && (base - self.begun) / 2 >= self.span
    }

    // Who holds the tenure behind which this number counts at the next place; None where it does not count.
    fn counts(&self, tenure: u64, number: u64) -> Option<Holder>
        requires { self.now.at < 2 ^ 63 - 1 }
        ensures none { IfNone result ((L : Log) → StandsFor self.now L → counts self.now.span L tenure number ≡ false) }
        ensures some { IfSome result (λ by. (L : Log) → StandsFor self.now L → (counts self.now.span L tenure number ≡ true) × (holder_at tenure L ≡ Some by)) }
    {
        let term = self.open(tenure)?;
        if number > 0 && number - 1 == term.number {
            Some(term.holder)
        } else {
            None
        }
    }

    // What is had of the node of a tenure that is open at the next place; None where it is not.
    fn open(&self, tenure: u64) -> Option<Term>
        requires { self.now.at < 2 ^ 63 - 1 }
        ensures none { IfNone result ((L : Log) → StandsFor self.now L → is_open self.now.span L tenure ≡ false) }
        ensures some { IfSome result (λ term. (L : Log) → StandsFor self.now L → IsOpenBy self.now.span L tenure term) }
    {
        if tenure == 0 || !self.is_near(tenure) {
            return None;
        }
        terms::term_at(&self.terms, tenure)
    }
}

// How a tenure stands.
fn standing_of(counts: bool) -> Standing
    ensures { result ≡ (if counts then Standing.Opens else Standing.Void) }
{
    if counts {
        Standing::Opens
    } else {
        Standing::Void
    }
}

// Whether a note ends its subject.
fn is_terminal(note: &Note) -> bool
    ensures { result ≡ ends note.now }
{
    match note {
        Note::Next(_) => false,
        Note::Completed | Note::Failed(_) => true,
    }
}
