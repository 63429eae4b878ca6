// The list of what is given has room for a joiner's whole opening reserved, also where most of it waits or is lost: a join
// may so answer `Memory` a little before the last byte is used.
//
// The hub asks for as many places as it has observers before an emission of an item, and for twice as many before one that
// ends the subject, since its offer has room for an item and an end; so too where an item overflows at an observer. It may so
// answer `Memory` a little before the last byte is used.
ghost use Rattle.std.specs.Prelude.{◌≡◌, ◌+◌, ◌<◌, ◌≤◌, ◌==◌, ◌++◌, ℕ, max, length, take, drop, get_or, position, false, true, None, IfOk, IfSome, OnOk, OnErr};
ghost use Rattle.rx_note.specs.Signals.{Signals, waiting};
ghost use Rattle.rx_tape.specs.Tapes.{last_items};
ghost use Rattle.rx_lane.specs.Lanes.{RefusesRequest};
ghost use Rattle.rx_lane.specs.Lanes as lanes;
ghost use Rattle.rx_subject.specs.TapeSubjects.{subject_on};
ghost use Rattle.rx_hub.specs.declared.subscription.Subscription.{Subscription};
ghost use Rattle.rx_hub.specs.Subscriptions.{Observer, IsAt, AsksAt, JoinsInto};
ghost use Rattle.rx_hub.specs.Audiences.{places_of, observers_on, AllOn, Apart, Owned, most_waiting, audience_at_first};

mod emitted;
mod shown;

use crate::seat::Seat;
use crate::subscription::{Subscription, end_by, put};
use rx_heap::{Heap, Memory};
use rx_lane::{AskError, Joiner};
use rx_note::Given;
use rx_subject::{TapeOpening, TapeSubject};
use rx_tape::Tape;
use std::marker::Model;

/// The observers of a subject, by rising number, and the tape that they share. Contracts see the items of the tape and what
/// waits for each observer.
pub(crate) struct Audience {
    tape: Tape,
    subscriptions: Vec<Subscription, Heap>,
}

// By hand: rx_heap says why.
impl Drop for Audience {
    fn drop(self) {
        let Audience {
            tape: _,
            subscriptions: _,
        } = self;
    }
}

impl Model for Audience {
    ghost use Rattle.std.specs.Prelude.{false};
    ghost use Rattle.rx_hub.specs.Audiences.{AudienceState, places_of, observers_on, AllOn, Apart, Owned, AllIdle};

    ghost Value = { AudienceState };

    ghost view = { λ a. record { items = a.tape.items; observers = observers_on a.tape.items (places_of a.subscriptions.items) } };

    ghost invariant = { λ a. AllOn a.tape false (places_of a.subscriptions.items) × Apart (places_of a.subscriptions.items) × Owned a.tape (places_of a.subscriptions.items) × AllIdle a.subscriptions.items };
}

impl Audience {
    /// A tape with no item and room for so many observers.
    pub(crate) fn new(alloc: Heap, most: usize) -> Result<Audience, Memory>
        ensures { IfOk result (λ audience. audience ≡ audience_at_first) }
    {
        let subscriptions = Vec::with_capacity(alloc.clone()?, most)?;
        Ok(Audience {
            tape: Tape::new(alloc),
            subscriptions,
        })
    }

    /// How many observers are held.
    pub(crate) fn len(&self) -> usize
        ensures { result ≡ length self.now.observers }
    {
        self.subscriptions.len()
    }

    /// The place of the observer of this number. They stand by rising number, so that it need not be looked for among all.
    pub(crate) fn place_of(&self, who: u32) -> Option<usize>
        ensures found { IfSome result (λ place. IsAt self.now.observers place who) }
        ensures none { result ≡ None → position (λ o. o.who == who) self.now.observers ≡ None }
    {
        let known = place_by_order(&self.subscriptions, who);
        if known.is_some() {
            return known;
        }
        place_in(&self.subscriptions, who)
    }

    /// How many notes wait for the observer at a place.
    pub(crate) fn waiting_notes(&self, place: usize) -> usize
        requires { place < length self.now.observers }
        ensures { (default : Observer) (s : Signals) → lanes.StandsFor (get_or self.now.observers place default).lane s → result ≡ length (waiting s) }
    {
        self.subscriptions[place].seat.waiting_notes()
    }

    /// An observer joins, and what it is given at once is put at the end of `outs`. `Memory` leaves the observers and `outs`.
    pub(crate) fn open(
        &mut self,
        joiner: Joiner,
        at: u64,
        subject: &TapeSubject,
        outs: &mut Vec<Given, Heap>,
    ) -> Result<(), Memory>
        requires { length subject.now.stamps ≤ length self.old.items }
        ensures err { OnErr result ((self.new ≡ self.old) × (outs.new.items ≡ outs.old.items)) }
        ensures items { self.new.items ≡ self.old.items }
        ensures joins { OnOk result (JoinsInto self.old.observers self.new.observers joiner (subject_on self.old.items subject.now) at outs.old.items outs.new.items) }
    {
        let who = joiner.who;
        let TapeOpening { lead, back, end } = subject.opening(at, &self.tape)?;
        let Some(most) = back.checked_add(2) else {
            return Err(Memory);
        };
        outs.reserve(most)?;
        self.subscriptions.reserve(1)?;
        let mut seat = Seat::open(joiner, lead, back, &mut self.tape, outs)?;
        let last = end_by(&mut seat, end, &mut self.tape);
        put(who, last, outs);
        self.subscriptions
            .push_reserved(Subscription::new(who, seat));
        Ok(())
    }

    /// Adds a request of the observer at a place, and puts at the end of `outs` what is then given. The last `keep` items of the
    /// tape stay. Refused as its queue does, which leaves all.
    pub(crate) fn ask(
        &mut self,
        place: usize,
        n: u32,
        keep: usize,
        outs: &mut Vec<Given, Heap>,
    ) -> Result<(), AskError>
        requires { place < length self.old.observers }
        ensures refuses { (default : Observer) → RefusesRequest (get_or self.old.observers place default).lane.owing n result }
        ensures err { OnErr result ((self.new ≡ self.old) × (outs.new.items ≡ outs.old.items)) }
        ensures kept { (count : ℕ) → count ≤ keep → count ≤ length self.old.items
            → (count ≤ length self.new.items) × (last_items self.new.items count ≡ last_items self.old.items count) }
        ensures asked { OnOk result ((default : Observer) → AsksAt self.old.observers self.new.observers place default n outs.old.items outs.new.items) }
    {
        if keep == 0 && self.subscriptions.len() == 1 {
            self.ask_alone(place, n, outs)
        } else {
            self.ask_among(place, n, outs)
        }
    }

    // Adds a request of the only observer, for which items may leave the tape.
    fn ask_alone(
        &mut self,
        place: usize,
        n: u32,
        outs: &mut Vec<Given, Heap>,
    ) -> Result<(), AskError>
        requires place { place < length self.old.observers }
        requires alone { length self.old.observers ≡ 1 }
        ensures refuses { (default : Observer) → RefusesRequest (get_or self.old.observers place default).lane.owing n result }
        ensures err { OnErr result ((self.new ≡ self.old) × (outs.new.items ≡ outs.old.items)) }
        ensures asked { OnOk result ((default : Observer) → AsksAt self.old.observers self.new.observers place default n outs.old.items outs.new.items) }
    {
        self.subscriptions[place].ask_alone(n, &mut self.tape, outs)
    }

    // Adds a request of one of the observers, for which the tape keeps its items.
    fn ask_among(
        &mut self,
        place: usize,
        n: u32,
        outs: &mut Vec<Given, Heap>,
    ) -> Result<(), AskError>
        requires { place < length self.old.observers }
        ensures refuses { (default : Observer) → RefusesRequest (get_or self.old.observers place default).lane.owing n result }
        ensures err { OnErr result ((self.new ≡ self.old) × (outs.new.items ≡ outs.old.items)) }
        ensures items { self.new.items ≡ self.old.items }
        ensures asked { OnOk result ((default : Observer) → AsksAt self.old.observers self.new.observers place default n outs.old.items outs.new.items) }
    {
        self.subscriptions[place].ask(n, &mut self.tape, outs)
    }

    /// The observer at a place leaves, with what waits for it.
    pub(crate) fn remove(&mut self, place: usize)
        requires { place < length self.old.observers }
        ensures observers { self.new.observers ≡ take place self.old.observers ++ drop (place + 1) self.old.observers }
        ensures items { self.new.items ≡ self.old.items }
    {
        let Subscription {
            who: _,
            seat,
            ready: _,
        } = self.subscriptions.remove(place);
        seat.close(&mut self.tape);
    }

    /// Removes from the tape what no observer waits for, save the last `keep` items.
    pub(crate) fn trim(&mut self, keep: usize)
        ensures observers { self.new.observers ≡ self.old.observers }
        ensures tight { length self.new.items ≤ max keep (most_waiting self.new.observers) }
        ensures kept { (count : ℕ) → count ≤ keep → count ≤ length self.old.items
            → (count ≤ length self.new.items) × (last_items self.new.items count ≡ last_items self.old.items count) }
    {
        self.tape.trim(keep);
    }
}

// The place of the observer of this number, as the first number and, where some left between it and that one, halving tell it.
fn place_by_order(subscriptions: &Vec<Subscription, Heap>, who: u32) -> Option<usize>
    ensures { IfSome result (λ place. (place < length subscriptions.now.items) × ((default : Subscription) → (get_or subscriptions.now.items place default).who ≡ who)) }
{
    let guess = place_if_none_left(subscriptions, who);
    if is_at(subscriptions, guess, who) {
        return Some(guess);
    }
    let place = subscriptions.partition_point(|one| one.who < who);
    if is_at(subscriptions, place, who) {
        return Some(place);
    }
    None
}

// The place of the observer of this number, if none left that came between the first of all and it.
fn place_if_none_left(subscriptions: &Vec<Subscription, Heap>, who: u32) -> usize {
    match subscriptions.first() {
        Some(first) => who.saturating_sub(first.who) as usize,
        None => 0,
    }
}

// Whether the observer at a place has this number.
fn is_at(subscriptions: &Vec<Subscription, Heap>, place: usize, who: u32) -> bool
    ensures { result ≡ true → (place < length subscriptions.now.items) × ((default : Subscription) → (get_or subscriptions.now.items place default).who ≡ who) }
{
    match subscriptions.get(place) {
        Some(one) => one.who == who,
        None => false,
    }
}

// The place of the observer of this number.
fn place_in(subscriptions: &Vec<Subscription, Heap>, who: u32) -> Option<usize>
    ensures { result ≡ position (λ s. s.who == who) subscriptions.now.items }
{
    subscriptions.iter().position(|s| s.who == who)
}
