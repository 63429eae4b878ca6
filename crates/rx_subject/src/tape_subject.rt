// A subject on a tape keeps the stamps of the last items, of Async the last item itself, which is offered only at the
// completion and so never waits on the tape before. By `admit` it is no item of the tape then either; `admit_offered`, which
// the hub calls, puts each item that is offered on the tape, so that an observer is always offered the tape's last item.
ghost use Rattle.std.specs.Prelude.{◌≡◌, ◌≢◌, ◌↔◌, ◌≤◌, ◌<◌, ◌+◌, ℕ, List, [], None, Some, max, length, is_some, true, false, Err, IfOk, OnOk, OnErr, option_to_list};
ghost use Rattle.rx_note.specs.declared.event.Event.TheVariants.{Emit, Join};
ghost use Rattle.rx_note.specs.declared.kind.Kind.TheVariants.{Publish, Async};
ghost use Rattle.rx_note.specs.declared.note.Note.TheVariants.{Next};
ghost use Rattle.rx_note.specs.declared.item.Item.{Item};
ghost use Rattle.rx_note.specs.declared.rules.Rules.{Rules};
ghost use Rattle.rx_note.specs.Choices.{Choice};
ghost use Rattle.rx_history.specs.Histories.{History, NoEvents, ◌▹◌, terminal_in, has_room, count_with, item_count, may_join, signalled};
ghost use Rattle.rx_tape.specs.Tapes.{pushed, waits};
ghost use Rattle.rx_subject.specs.Offers.{offer_signals};
ghost use Rattle.rx_subject.specs.Subjects.{StandsFor, HasPlace, signals_by, offered_by, items_by, after_item, after_end, after_join};
ghost use Rattle.rx_subject.specs.TapeSubjects.{TapeSubjectState, tape_subject_at_first, subject_on, taped, pushed_all, TapeOpens};

use crate::admit_error::AdmitError;
use crate::kept::{Kept, copy_kept};
use crate::kinds::{age_kept, count_kept, item_offered, last_offered, seed_of};
use crate::offer::Offer;
use crate::stamps::{count_old_stamps, drop_old_stamps, keep_stamp, reserve_stamp};
use crate::tape_opening::TapeOpening;
use rx_heap::{Heap, Memory};
use rx_note::{Item, Kind, Note, Text, copy_of};
use rx_tape::Tape;
use std::collections::VecDeque;
use std::marker::Model;

/// What a subject keeps for later joiners where its items stand on a tape that its observers share: the stamps of the last
/// ones alone. Contracts see it as the [`Subject`](crate::Subject) that it is over the items of its tape.
///
/// The kinds are those of the page Subject (<https://reactivex.io/documentation/subject.html>); moments, ages, seeds and the
/// tape are this project's own.
pub struct TapeSubject {
    kind: Kind,
    // Of Async its last item, which does not stand on the tape: no observer waits for it before the completion.
    own: Option<Kept>,
    stamps: VecDeque<u64, Heap>,
    terminal: Option<Note>,
    stamp: u64,
    count: u32,
}

// By hand: rx_heap says why.
impl Drop for TapeSubject {
    fn drop(self) {
        let TapeSubject {
            kind: _,
            own: _,
            stamps: _,
            terminal: _,
            stamp: _,
            count: _,
        } = self;
    }
}

impl Model for TapeSubject {
    ghost use Rattle.std.specs.Prelude.{◌≡◌, length};
    ghost use Rattle.rx_subject.specs.Windows.{count_kept as count_kept_by};
    ghost use Rattle.rx_subject.specs.TapeSubjects.{TapeSubjectState, beyond, own_of};

    ghost Value = { TapeSubjectState };

    ghost view = { λ s. record { kind = s.kind; terminal = s.terminal; clock = s.stamp; count = s.count; own = own_of s.own; stamps = s.stamps.items } };

    ghost invariant = { λ s. beyond (count_kept_by s.kind) (length s.stamps.items) ≡ 0 };
}

impl TapeSubject {
    /// A subject of this kind, with no event yet. `Memory` where there was none for it.
    pub fn new(alloc: Heap, kind: Kind) -> Result<TapeSubject, Memory>
        ensures state { IfOk result (λ subject. subject ≡ tape_subject_at_first kind) }
        ensures stands { IfOk result (λ subject. (items : List Item) (rules : Rules) → rules.kind ≡ kind → StandsFor (subject_on items subject) rules NoEvents) }
    {
        let stamps = VecDeque::new(alloc);
        Ok(TapeSubject {
            kind,
            own: None,
            stamps,
            terminal: None,
            stamp: 0,
            count: 0,
        })
    }

    /// Takes a note that comes by a port at a moment, in milliseconds, puts its item on the tape (none of Async), at the next
    /// place, and says what the note offers to every observer. It knows no limit of items but that of the places. Refused in
    /// the order `Ended`, `Memory`; a refusal leaves the subject and the tape.
    pub fn admit(
        &mut self,
        port: u32,
        note: Note,
        at: u64,
        tape: &mut Tape,
    ) -> Result<Offer, AdmitError>
        requires stamps { length self.old.stamps ≤ length tape.old.items }
        requires place { HasPlace self.old.count note }
        ensures ended { (result ≡ Err AdmitError.Ended) ↔ (is_some self.old.terminal ≡ true) }
        ensures err { OnErr result ((self.new ≡ self.old) × (tape.new ≡ tape.old)) }
        ensures offers { IfOk result (λ offer. offer_signals offer ≡ signals_by (subject_on tape.old.items self.old) port note) }
        ensures signalled { IfOk result (λ offer. (rules : Rules) (H : History) → StandsFor (subject_on tape.old.items self.old) rules H → offer_signals offer ≡ signalled rules H port note) }
        ensures stands { OnOk result ((rules : Rules) (H : History) → has_room rules.limits (item_count rules H) note ≡ true
            → StandsFor (subject_on tape.old.items self.old) rules H → StandsFor (subject_on tape.new.items self.new) rules (H ▹ (port, Emit note at))) }
        ensures tape { OnOk result (tape.new ≡ pushed_all tape.old (taped self.old.kind port self.old.count note)) }
        ensures within { length self.new.stamps ≤ length tape.new.items }
        ensures count { OnOk result (self.new.count ≡ count_with self.old.count note) }
        ensures kind { self.new.kind ≡ self.old.kind }
    {
        if self.is_ended() {
            return Err(AdmitError::Ended);
        }
        match note {
            Note::Next(
                Item {
                    from: _,
                    place: _,
                    text,
                },
            ) => {
                let item = self.next_item(port, text);
                let offer = self.admit_item(item, at, tape)?;
                Ok(offer)
            }
            terminal => {
                let offer = self.admit_end(terminal, at)?;
                Ok(offer)
            }
        }
    }

    /// Takes a note as `admit` does, and puts each item that it offers on the tape: of Async the last one, at completion. It
    /// hands out no copies, for `preview` tells what is offered. Refused alike.
    pub fn admit_offered(
        &mut self,
        port: u32,
        note: Note,
        at: u64,
        tape: &mut Tape,
    ) -> Result<(), AdmitError>
        requires stamps { length self.old.stamps ≤ length tape.old.items }
        requires place { HasPlace self.old.count note }
        ensures ended { (result ≡ Err AdmitError.Ended) ↔ (is_some self.old.terminal ≡ true) }
        ensures err { OnErr result ((self.new ≡ self.old) × (tape.new ≡ tape.old)) }
        ensures stands { OnOk result ((rules : Rules) (H : History) → has_room rules.limits (item_count rules H) note ≡ true
            → StandsFor (subject_on tape.old.items self.old) rules H → StandsFor (subject_on tape.new.items self.new) rules (H ▹ (port, Emit note at))) }
        ensures count { OnOk result (self.new.count ≡ count_with self.old.count note) }
        ensures tape { OnOk result (tape.new ≡ pushed_all tape.old (offered_by (subject_on tape.old.items self.old) port note)) }
        ensures within { length self.new.stamps ≤ length tape.new.items }
        ensures kind { self.new.kind ≡ self.old.kind }
    {
        if self.is_ended() {
            return Err(AdmitError::Ended);
        }
        match note {
            Note::Next(
                Item {
                    from: _,
                    place: _,
                    text,
                },
            ) => {
                let item = self.next_item(port, text);
                self.keep_item(item, at, tape)?;
            }
            terminal => {
                let last = last_offered(&self.kind, &self.own, &terminal)?;
                put_on(tape, last)?;
                self.keep_end(terminal, at);
            }
        }
        Ok(())
    }

    /// Takes an item that comes by the port that it names and has the next place, at a moment, in milliseconds, and puts it on
    /// the tape. It is meant before the end, and for a kind that keeps no item back. `Memory` leaves the subject and the tape.
    pub fn admit_on(&mut self, item: Item, at: u64, tape: &mut Tape) -> Result<(), Memory>
        requires stamps { length self.old.stamps ≤ length tape.old.items }
        requires open { is_some self.old.terminal ≡ false }
        requires offered { self.old.kind ≢ Async }
        requires next { item.place ≡ self.old.count }
        requires place { self.old.count < 4294967295 }
        ensures err { OnErr result ((self.new ≡ self.old) × (tape.new ≡ tape.old)) }
        ensures stands { OnOk result ((from place : ℕ) (rules : Rules) (H : History) → has_room rules.limits (item_count rules H) (Next item) ≡ true
            → StandsFor (subject_on tape.old.items self.old) rules H
            → StandsFor (subject_on tape.new.items self.new) rules (H ▹ (item.from, Emit (Next (record { from = from; place = place; text = item.text })) at))) }
        ensures count { OnOk result (self.new.count ≡ self.old.count + 1) }
        ensures tape { OnOk result (tape.new ≡ pushed tape.old item) }
        ensures within { length self.new.stamps ≤ length tape.new.items }
        ensures kind { self.new.kind ≡ self.old.kind }
    {
        self.keep_item(item, at, tape)?;
        Ok(())
    }

    /// Takes an item that comes by the port that it names and has the next place, at a moment, in milliseconds, where the kind is
    /// Async, which keeps it back: nothing is offered, the tape needs no room for it, and it takes no memory. It is meant before
    /// the end.
    pub fn keep_back(&mut self, item: Item, at: u64)
        requires keeps_back { self.old.kind ≡ Async }
        requires open { is_some self.old.terminal ≡ false }
        requires next { item.place ≡ self.old.count }
        requires place { self.old.count < 4294967295 }
        ensures stands { (items : List Item) (from place : ℕ) (rules : Rules) (H : History) → has_room rules.limits (item_count rules H) (Next item) ≡ true
            → StandsFor (subject_on items self.old) rules H
            → StandsFor (subject_on items self.new) rules (H ▹ (item.from, Emit (Next (record { from = from; place = place; text = item.text })) at)) }
        ensures offers { (items : List Item) (from place : ℕ) → signals_by (subject_on items self.old) item.from (Next (record { from = from; place = place; text = item.text })) ≡ [] }
        ensures count { self.new.count ≡ self.old.count + 1 }
        ensures stamps { self.new.stamps ≡ self.old.stamps }
        ensures kind { self.new.kind ≡ self.old.kind }
    {
        self.keep_own(item, at);
    }

    /// Takes an item that comes at a moment, in milliseconds, where the kind is Publish, which keeps nothing of it: it need be
    /// neither at hand nor on the tape. It is meant before the end.
    pub fn pass_item(&mut self, at: u64)
        requires publishes { self.old.kind ≡ Publish }
        requires open { is_some self.old.terminal ≡ false }
        requires place { self.old.count < 4294967295 }
        ensures stands { (items : List Item) (port : ℕ) (item : Item) (rules : Rules) (H : History) → has_room rules.limits (item_count rules H) (Next item) ≡ true
            → StandsFor (subject_on items self.old) rules H → StandsFor (subject_on items self.new) rules (H ▹ (port, Emit (Next item) at)) }
        ensures count { self.new.count ≡ self.old.count + 1 }
        ensures stamps { self.new.stamps ≡ self.old.stamps }
        ensures kind { self.new.kind ≡ self.old.kind }
    {
        let later = self.stamp.max(at);
        self.count_item(later);
    }

    /// What `admit` would offer, refused alike; the texts are copies. Nothing is changed.
    pub fn preview(&self, port: u32, note: &Note) -> Result<Offer, AdmitError>
        ensures ended { (result ≡ Err AdmitError.Ended) ↔ (is_some self.now.terminal ≡ true) }
        ensures offers { (items : List Item) → IfOk result (λ offer. offer_signals offer ≡ signals_by (subject_on items self.now) port note.now) }
        ensures signalled { (items : List Item) → IfOk result (λ offer. (rules : Rules) (H : History) → StandsFor (subject_on items self.now) rules H → offer_signals offer ≡ signalled rules H port note.now) }
        ensures item { (items : List Item) → IfOk result (λ offer. option_to_list offer.item ≡ offered_by (subject_on items self.now) port note.now) }
    {
        if self.is_ended() {
            return Err(AdmitError::Ended);
        }
        match note {
            Note::Next(item) => {
                let item = item_offered(&self.kind, port, self.count, item)?;
                Ok(Offer { item, end: None })
            }
            terminal => {
                let item = last_offered(&self.kind, &self.own, terminal)?;
                let end = Some(terminal.copy()?);
                Ok(Offer { item, end })
            }
        }
    }

    /// What an observer begins with that joins at a moment, in milliseconds: a lead of its own, so many of the last items of
    /// the tape, and the end where there is one. `Memory` where there was none for the lead or the end.
    pub fn opening(&self, at: u64, tape: &Tape) -> Result<TapeOpening, Memory>
        requires { length self.now.stamps ≤ length tape.now.items }
        ensures opens { IfOk result (λ opening. (rules : Rules) (H : History) → StandsFor (subject_on tape.now.items self.now) rules H → TapeOpens opening tape.now.items rules H at) }
        ensures within { IfOk result (λ opening. opening.back ≤ length tape.now.items) }
    {
        let _tape = tape;
        let (lead, back) = self.opening_items(at)?;
        let end = copy_of(&self.terminal)?;
        Ok(TapeOpening { lead, back, end })
    }

    /// An observer joined at a moment, in milliseconds.
    pub fn joined(&mut self, at: u64)
        ensures state { (items : List Item) → length self.old.stamps ≤ length items → subject_on items self.new ≡ after_join (subject_on items self.old) at }
        ensures stands { (items : List Item) (rules : Rules) (H : History) (port : ℕ) (policy : Choice) (first : ℕ) → length self.old.stamps ≤ length items
            → may_join rules H ≡ true → StandsFor (subject_on items self.old) rules H
            → StandsFor (subject_on items self.new) rules (H ▹ (port, Join policy first at)) }
        ensures within { length self.new.stamps ≤ length self.old.stamps }
        ensures kind { self.new.kind ≡ self.old.kind }
        ensures terminal { self.new.terminal ≡ self.old.terminal }
        ensures count { self.new.count ≡ self.old.count }
    {
        self.pass_to(at);
    }

    /// Whether the subject has ended.
    pub fn is_ended(&self) -> bool
        ensures { result ≡ is_some self.now.terminal }
    {
        self.terminal.is_some()
    }

    /// Its end, once there is one.
    pub fn end(&self) -> &Option<Note>
        ensures { result.now ≡ self.now.terminal }
    {
        &self.terminal
    }

    /// Whether it keeps its items back until the completion, as Async does.
    pub fn keeps_back(&self) -> bool
        ensures { (result ≡ true) ↔ (self.now.kind ≡ Async) }
    {
        is_async(&self.kind)
    }

    /// Whether it keeps nothing for later joiners, as Publish does.
    pub fn keeps_nothing(&self) -> bool
        ensures { (result ≡ true) ↔ (self.now.kind ≡ Publish) }
    {
        matches!(self.kind, Kind::Publish)
    }

    /// The greatest moment of the accepted emissions and joins so far, in milliseconds; 0 before the first.
    pub fn stamp(&self) -> u64
        ensures { result ≡ self.now.clock }
    {
        self.stamp
    }

    /// How many items were accepted, which is the place of the next. It takes no memory.
    #[inline] // asked for every item
    pub fn items(&self) -> u32
        ensures { result ≡ self.now.count }
    {
        self.count
    }

    /// How many of the last items of the tape later joiners may need.
    pub fn keep(&self) -> usize
        ensures { result ≡ length self.now.stamps }
    {
        self.stamps.len()
    }

    // Raises the stamp to a moment at least; once the subject ended its items grow no older.
    fn pass_to(&mut self, at: u64)
        ensures kind { self.new.kind ≡ self.old.kind }
        ensures terminal { self.new.terminal ≡ self.old.terminal }
        ensures count { self.new.count ≡ self.old.count }
        ensures state { (items : List Item) → length self.old.stamps ≤ length items → subject_on items self.new ≡ after_join (subject_on items self.old) at }
        ensures within { length self.new.stamps ≤ length self.old.stamps }
    {
        self.stamp = self.stamp.max(at);
        if self.terminal.is_none() {
            drop_old_stamps(&mut self.stamps, age_kept(&self.kind), self.stamp);
        }
    }

    // The item of a text that comes by a port, at the next place.
    fn next_item(&self, port: u32, text: Text) -> Item
        ensures { result ≡ record { from = port; place = self.now.count; text = text } }
    {
        Item {
            from: port,
            place: self.count,
            text,
        }
    }

    // An item more was accepted, at a stamp.
    #[inline(always)] // two stores, once for each item
    fn count_item(&mut self, stamp: u64)
        requires { self.old.count < 4294967295 }
        ensures { self.new ≡ record self.old { clock = stamp; count = self.old.count + 1 } }
    {
        self.stamp = stamp;
        self.count += 1;
    }

    // Takes an item. The text of what it offers is a copy.
    fn admit_item(&mut self, item: Item, at: u64, tape: &mut Tape) -> Result<Offer, Memory>
        requires stamps { length self.old.stamps ≤ length tape.old.items }
        requires next { item.place ≡ self.old.count }
        requires place { self.old.count < 4294967295 }
        ensures err { OnErr result ((self.new ≡ self.old) × (tape.new ≡ tape.old)) }
        ensures state { OnOk result (subject_on tape.new.items self.new ≡ after_item (subject_on tape.old.items self.old) item at) }
        ensures offers { IfOk result (λ offer. offer_signals offer ≡ signals_by (subject_on tape.old.items self.old) item.from (Next item)) }
        ensures tape { OnOk result (tape.new ≡ pushed_all tape.old (taped self.old.kind item.from item.place (Next item))) }
        ensures within { length self.new.stamps ≤ length tape.new.items }
    {
        let offered = item_offered(&self.kind, item.from, item.place, &item)?;
        self.keep_item(item, at, tape)?;
        Ok(Offer {
            item: offered,
            end: None,
        })
    }

    // Keeps an item, of Async by itself and else on the tape.
    fn keep_item(&mut self, item: Item, at: u64, tape: &mut Tape) -> Result<(), Memory>
        requires stamps { length self.old.stamps ≤ length tape.old.items }
        requires place { self.old.count < 4294967295 }
        ensures err { OnErr result ((self.new ≡ self.old) × (tape.new ≡ tape.old)) }
        ensures state { OnOk result (subject_on tape.new.items self.new ≡ after_item (subject_on tape.old.items self.old) item at) }
        ensures tape { OnOk result (tape.new ≡ pushed_all tape.old (taped self.old.kind item.from item.place (Next item))) }
        ensures within { length self.new.stamps ≤ length tape.new.items }
    {
        if is_async(&self.kind) {
            self.keep_own(item, at);
            return Ok(());
        }
        let stamp = self.stamp.max(at);
        let count = count_kept(&self.kind);
        reserve_stamp(&mut self.stamps, count)?;
        tape.push(item)?;
        keep_stamp(&mut self.stamps, stamp, count);
        drop_old_stamps(&mut self.stamps, age_kept(&self.kind), stamp);
        self.count_item(stamp);
        Ok(())
    }

    // Keeps an item by itself, in the place of the last one. It takes no memory.
    fn keep_own(&mut self, item: Item, at: u64)
        requires keeps_back { self.old.kind ≡ Async }
        requires place { self.old.count < 4294967295 }
        ensures state { (items : List Item) → subject_on items self.new ≡ after_item (subject_on items self.old) item at }
        ensures stamps { self.new.stamps ≡ self.old.stamps }
        ensures kind { self.new.kind ≡ self.old.kind }
    {
        let stamp = self.stamp.max(at);
        self.own = Some(Kept { item, stamp });
        self.count_item(stamp);
    }

    // Takes the end.
    fn admit_end(&mut self, terminal: Note, at: u64) -> Result<Offer, Memory>
        ensures err { OnErr result (self.new ≡ self.old) }
        ensures state { OnOk result ((items : List Item) → length self.old.stamps ≤ length items → subject_on items self.new ≡ after_end (subject_on items self.old) terminal at) }
        ensures offers { IfOk result (λ offer. (items : List Item) (port : ℕ) → terminal_in terminal ≡ Some terminal → offer_signals offer ≡ signals_by (subject_on items self.old) port terminal) }
        ensures within { length self.new.stamps ≤ length self.old.stamps }
    {
        let item = last_offered(&self.kind, &self.own, &terminal)?;
        let end = Some(terminal.copy()?);
        self.keep_end(terminal, at);
        Ok(Offer { item, end })
    }

    // Keeps the end.
    fn keep_end(&mut self, terminal: Note, at: u64)
        ensures state { (items : List Item) → length self.old.stamps ≤ length items → subject_on items self.new ≡ after_end (subject_on items self.old) terminal at }
        ensures within { length self.new.stamps ≤ length self.old.stamps }
    {
        self.stamp = self.stamp.max(at);
        drop_old_stamps(&mut self.stamps, age_kept(&self.kind), self.stamp);
        self.terminal = Some(terminal);
    }

    // The lead of a joiner at a moment, and how many of the tape's last items it is offered.
    fn opening_items(&self, at: u64) -> Result<(Option<Item>, usize), Memory>
        ensures items { (items : List Item) → length self.now.stamps ≤ length items → IfOk result (λ begins. waits begins.0 items begins.1
            ≡ items_by self.now.kind self.now.terminal (subject_on items self.now).window (max self.now.clock at)) }
        ensures within { IfOk result (λ begins. begins.1 ≤ length self.now.stamps) }
    {
        let kept = self.stamps.len();
        match (&self.kind, &self.terminal) {
            (Kind::Behavior(seed), None) if kept == 0 => Ok((seed_of(seed)?, 0)),
            (Kind::Behavior(_), None) => Ok((None, 1)),
            (Kind::Async, Some(Note::Completed)) => Ok((copy_kept(&self.own)?, 0)),
            (Kind::Replay { count: _, age }, None) => {
                let old = count_old_stamps(&self.stamps, *age, self.stamp.max(at));
                Ok((None, kept - old))
            }
            (Kind::Replay { .. }, Some(_)) => Ok((None, kept)),
            _ => Ok((None, 0)),
        }
    }
}

// Whether a kind keeps its items back.
fn is_async(kind: &Kind) -> bool
    ensures { (result ≡ true) ↔ (kind.now ≡ Async) }
{
    matches!(kind, Kind::Async)
}

// Puts an item, if there is one, on the tape.
fn put_on(tape: &mut Tape, item: Option<Item>) -> Result<(), Memory>
    ensures ok { OnOk result (tape.new ≡ pushed_all tape.old (option_to_list item)) }
    ensures err { OnErr result (tape.new ≡ tape.old) }
{
    if let Some(item) = item {
        tape.push(item)?;
    }
    Ok(())
}
