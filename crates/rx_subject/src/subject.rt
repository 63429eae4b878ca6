// A `Subject` is a tape and its `TapeSubject`, with no cursor on the tape, so that each rule of a kind stands once and
// whatever tries a `Subject` tries what a hub runs. Against the window that it had before, the crate is 400 lines shorter
// (2,550 then, of code, definitions and proofs) and has 52 functions in place of 70, and the ring that each subject took for
// the one item of Async is a field. A `Subject` whose tape was pushed takes a little memory for each item, which is trimmed
// again at once where nobody joins later.
//
// `Subject::new` has no condition on the kind: a count of 0 keeps nothing, an age of 0 lets no item be young, and both do
// what the definitions say. `Kind::check` is for those that read a kind from outside.
ghost use Rattle.std.specs.Prelude.{◌≡◌, ◌↔◌, ◌≤◌, ℕ, length, is_some, true, Err, IfOk, OnOk, OnErr, option_to_list};
ghost use Rattle.rx_note.specs.declared.event.Event.TheVariants.{Emit, Join};
ghost use Rattle.rx_note.specs.declared.rules.Rules.{Rules};
ghost use Rattle.rx_note.specs.Choices.{Choice};
ghost use Rattle.rx_history.specs.Histories.{History, NoEvents, ◌▹◌, has_room, count_with, item_count, may_join, signalled};
ghost use Rattle.rx_tape.specs.Tapes.{waits};
ghost use Rattle.rx_subject.specs.Offers.{offer_signals, Opens};
ghost use Rattle.rx_subject.specs.Subjects.{StandsFor, HasPlace, signals_by, subject_at_first, after_join};

use crate::admit_error::AdmitError;
use crate::offer::Offer;
use crate::opening::Opening;
use crate::tape_opening::TapeOpening;
use crate::tape_subject::TapeSubject;
use rx_heap::{Heap, Memory};
use rx_note::{Item, Kind, Note};
use rx_tape::Tape;
use std::marker::Model;

/// What a subject keeps for later joiners: a [`TapeSubject`] and a tape of its own. Contracts see its kind, its end, the
/// greatest moment and the number of items so far and the items that it keeps, and tell by the history that it stands for what
/// it offers and opens with.
///
/// The kinds are those of the page Subject (<https://reactivex.io/documentation/subject.html>); moments, ages and seeds are
/// this project's own.
pub struct Subject {
    subject: TapeSubject,
    tape: Tape,
    heap: Heap,
}

// By hand: rx_heap says why.
impl Drop for Subject {
    fn drop(self) {
        let Subject {
            subject: _,
            tape: _,
            heap: _,
        } = self;
    }
}

impl Model for Subject {
    ghost use Rattle.std.specs.Prelude.{◌≤◌, length};
    ghost use Rattle.rx_subject.specs.Subjects.{SubjectState};
    ghost use Rattle.rx_subject.specs.TapeSubjects.{subject_on};

    ghost Value = { SubjectState };

    ghost view = { λ s. subject_on s.tape.items s.subject };

    ghost invariant = { λ s. length s.subject.stamps ≤ length s.tape.items };
}

impl Subject {
    /// A subject of this kind, with no event yet. `Memory` where there was none for it.
    pub fn new(alloc: Heap, kind: Kind) -> Result<Subject, Memory>
        ensures state { IfOk result (λ subject. subject ≡ subject_at_first kind) }
        ensures stands { IfOk result (λ subject. (rules : Rules) → rules.kind ≡ kind → StandsFor subject rules NoEvents) }
    {
        let tape = Tape::new(alloc.clone()?);
        let heap = alloc.clone()?;
        let subject = TapeSubject::new(alloc, kind)?;
        Ok(Subject {
            subject,
            tape,
            heap,
        })
    }

    /// Takes a note that comes by a port at a moment, in milliseconds, and says what it offers to every observer: an item stands
    /// at the next place. It knows no limit of items but that of the places. Refused in the order `Ended`, `Memory`; a refusal
    /// leaves the subject.
    pub fn admit(&mut self, port: u32, note: Note, at: u64) -> Result<Offer, AdmitError>
        requires { HasPlace self.old.count note }
        ensures ended { (result ≡ Err AdmitError.Ended) ↔ (is_some self.old.terminal ≡ true) }
        ensures err { OnErr result (self.new ≡ self.old) }
        ensures offers { IfOk result (λ offer. offer_signals offer ≡ signals_by self.old port note) }
        ensures signalled { IfOk result (λ offer. (rules : Rules) (H : History) → StandsFor self.old rules H → offer_signals offer ≡ signalled rules H port note) }
        ensures stands { OnOk result ((rules : Rules) (H : History) → has_room rules.limits (item_count rules H) note ≡ true → StandsFor self.old rules H
            → StandsFor self.new rules (H ▹ (port, Emit note at))) }
        ensures count { OnOk result (self.new.count ≡ count_with self.old.count note) }
        ensures kind { self.new.kind ≡ self.old.kind }
    {
        let offer = self.subject.admit(port, note, at, &mut self.tape)?;
        self.trim();
        Ok(offer)
    }

    /// What `admit` would offer, refused alike; the texts are copies. Nothing is changed.
    pub fn preview(&self, port: u32, note: &Note) -> Result<Offer, AdmitError>
        ensures ended { (result ≡ Err AdmitError.Ended) ↔ (is_some self.now.terminal ≡ true) }
        ensures offers { IfOk result (λ offer. offer_signals offer ≡ signals_by self.now port note.now) }
        ensures signalled { IfOk result (λ offer. (rules : Rules) (H : History) → StandsFor self.now rules H → offer_signals offer ≡ signalled rules H port note.now) }
    {
        self.subject.preview(port, note)
    }

    /// What an observer begins with that joins at a moment, in milliseconds: the opening items of the kind, and the end
    /// where there is one. `Memory` where there was none for them.
    pub fn opening(&self, at: u64) -> Result<Opening, Memory>
        ensures { IfOk result (λ opening. (rules : Rules) (H : History) → StandsFor self.now rules H → Opens opening rules H at) }
    {
        let begins = self.subject.opening(at, &self.tape)?;
        let items = copied(self.heap.clone()?, &begins, &self.tape)?;
        Ok(Opening {
            items,
            end: begins.end,
        })
    }

    /// An observer joined at a moment, in milliseconds.
    pub fn joined(&mut self, at: u64)
        ensures state { self.new ≡ after_join self.old at }
        ensures stands { (rules : Rules) (H : History) (port : ℕ) (policy : Choice) (first : ℕ) → may_join rules H ≡ true
            → StandsFor self.old rules H → StandsFor self.new rules (H ▹ (port, Join policy first at)) }
    {
        self.subject.joined(at);
        self.trim();
    }

    /// Whether the subject has ended.
    pub fn is_ended(&self) -> bool
        ensures { result ≡ is_some self.now.terminal }
    {
        self.subject.is_ended()
    }

    /// The greatest moment of the accepted emissions and joins so far, in milliseconds; 0 before the first.
    pub fn stamp(&self) -> u64
        ensures { result ≡ self.now.clock }
    {
        self.subject.stamp()
    }

    /// How many items were accepted, which is the place of the next. It takes no memory.
    pub fn items(&self) -> u32
        ensures { result ≡ self.now.count }
    {
        self.subject.items()
    }

    // Removes from the tape what no later joiner needs.
    fn trim(&mut self)
        ensures { self.new ≡ self.old }
    {
        self.tape.trim(self.subject.keep());
    }
}

// Copies of the items that a joiner begins with, in their order.
fn copied(heap: Heap, begins: &TapeOpening, tape: &Tape) -> Result<Vec<Item, Heap>, Memory>
    requires { begins.now.back ≤ length tape.now.items }
    ensures { IfOk result (λ items. items.items ≡ waits begins.now.lead tape.now.items begins.now.back) }
{
    let mut items = copied_lead(heap, &begins.lead)?;
    for place in tape.len() - begins.back..tape.len() {
        let Some(item) = tape.item(place) else {
            unreachable!()
        };
        items.push(item.copy()?)?;
    }
    Ok(items)
}

// A list of a copy of the lead, if there is one.
fn copied_lead(heap: Heap, lead: &Option<Item>) -> Result<Vec<Item, Heap>, Memory>
    ensures { IfOk result (λ items. items.items ≡ option_to_list lead.now) }
{
    let mut items = Vec::new(heap);
    if let Some(lead) = lead {
        items.push(lead.copy()?)?;
    }
    Ok(items)
}
