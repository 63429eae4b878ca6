ghost use Rattle.std.specs.Prelude.{◌≡◌, ◌+◌, ◌<◌, ◌≤◌, ◌++◌, ◌∷◌, [], ℕ, List, true, false, is_some, length, map, option_to_list, IfOk, OnOk, OnErr, vec_len, vec_capacity};
ghost use Rattle.rx_note.specs.declared.item.Item.{Item};
ghost use Rattle.rx_note.specs.Signals.{Offered};
ghost use Rattle.rx_tape.specs.Tapes.{TapeState};
ghost use Rattle.rx_history.specs.Histories.{addressed, ended_by};
ghost use Rattle.rx_lane.specs.Lanes.{RefusesRequest};
ghost use Rattle.rx_subject.specs.Offers.{offer_signals, most_given};
ghost use Rattle.rx_hub.specs.declared.seat.Seat.TheVariants.{Own};
ghost use Rattle.rx_hub.specs.Seats.{lane_of, cursor_of, Stands, Leaves, IsAlone, TakesMore, HoldsCopy, copy_needed, given_now, needed, owing_of, overflows_at, IsReady, IsIdle, HoldsAside};
ghost use Rattle.rx_hub.specs.Looks.{row_at};
ghost use Rattle.rx_hub.specs.Subscriptions.{Serves, Feeds, FeedsInto, AsksInto};

use crate::observer_look::ObserverLook;
use crate::seat::Seat;
use rx_heap::{Heap, Memory};
use rx_lane::{AskError, Lane};
use rx_note::{Given, Item, Note, copy_of};
use rx_subject::Offer;
use rx_tape::Tape;

/// An observer that is held: its number and its seat.
#[derive(Drop)]
pub(crate) struct Subscription {
    pub(crate) who: u32,
    pub(crate) seat: Seat,
    // The copies of what is being offered, between the two passes of an emission.
    pub(crate) ready: Offer,
}

impl Subscription {
    ghost use Rattle.rx_hub.specs.Audiences.{place_of, observer_on};

    /// An observer in a seat.
    pub(crate) fn new(who: u32, seat: Seat) -> Subscription
        ensures place { place_of result ≡ record { who = who; seat = seat } }
        ensures idle { IsIdle result.ready }
    {
        Subscription {
            who,
            seat,
            ready: Offer {
                item: None,
                end: None,
            },
        }
    }

    /// What is seen of it.
    pub(crate) fn look(&self) -> ObserverLook
        ensures { (tape : TapeState) → Stands tape false self.now.seat → result ≡ row_at (observer_on tape.items (place_of self.now)) }
    {
        ObserverLook {
            who: self.who,
            strategy: self.seat.strategy(),
            errors: self.seat.errors(),
            waiting: self.seat.waiting_notes(),
            owed: self.seat.owing(),
        }
    }

    /// Puts an item that is owed at the end of `outs`.
    #[inline(always)] // once for each observer of an emission
    pub(crate) fn give(&self, item: Item, outs: &mut Vec<Given, Heap>)
        requires owed { 0 < owing_of self.now.seat }
        requires room { vec_len outs.old < vec_capacity outs.old }
        ensures given { outs.new.items ≡ outs.old.items ++ addressed self.now.who (given_now self.now.seat item) }
        ensures len { vec_len outs.new ≡ vec_len outs.old + 1 }
        ensures capacity { vec_capacity outs.new ≡ vec_capacity outs.old }
    {
        outs.push_reserved(Given {
            who: self.who,
            note: Note::Next(item),
        });
    }

    /// Puts a copy of an item at the end of `outs` if it is owed; of one that is not, makes ready the copy that a queue of its
    /// own keeps. Whether the item fits; where it overflows, nothing is put.
    #[inline(always)] // once for each observer of an emission
    pub(crate) fn give_now(
        &mut self,
        item: &Item,
        outs: &mut Vec<Given, Heap>,
    ) -> Result<bool, Memory>
        requires { vec_len outs.old < vec_capacity outs.old }
        ensures place { place_of self.new ≡ place_of self.old }
        ensures fits { IfOk result (λ fits. fits ≡ true → overflows_at self.old.seat ≡ false) }
        ensures given { IfOk result (λ fits. fits ≡ true → outs.new.items ≡ outs.old.items ++ addressed self.old.who (given_now self.old.seat item.now)) }
        ensures holds { IfOk result (λ fits. fits ≡ true → HoldsCopy item.now self.new.ready.item self.new.seat) }
        ensures none { IfOk result (λ fits. fits ≡ false → outs.new.items ≡ outs.old.items) }
        ensures aside { HoldsAside self.old.seat self.old.ready → HoldsAside self.new.seat self.new.ready }
        ensures err { OnErr result (outs.new.items ≡ outs.old.items) }
        ensures len { vec_len outs.new ≤ vec_len outs.old + 1 }
        ensures capacity { vec_capacity outs.new ≡ vec_capacity outs.old }
    {
        if self.seat.owed() > 0 {
            self.give(item.copy()?, outs);
        } else if let Seat::Own(lane) = &self.seat {
            if overflows(lane) {
                return Ok(false);
            }
            self.ready.item = copy_kept(lane, item)?;
        }
        Ok(true)
    }

    /// Offers the last item of the tape, which was given already if it is owed.
    #[inline(always)] // once for each observer of an emission
    pub(crate) fn pass(&mut self, tape: &mut Tape)
        requires stands { Stands tape.old true self.old.seat }
        requires open { TakesMore self.old.seat }
        requires fits { overflows_at self.old.seat ≡ false }
        ensures fed { (items : List Item) (item : Item) → tape.old.items ≡ items ++ item ∷ [] → HoldsCopy item self.old.ready.item self.old.seat
            → Feeds (observer_on items (place_of self.old)) (observer_on tape.new.items (place_of self.new)) (Offered item ∷ []) (given_now self.old.seat item) }
        ensures idle { HoldsAside self.old.seat self.old.ready → IsIdle self.new.ready }
        ensures stands { Stands tape.new false self.new.seat }
        ensures cursor { cursor_of self.new.seat ≡ cursor_of self.old.seat }
        ensures leaves { Leaves tape.old tape.new (cursor_of self.old.seat) }
    {
        self.seat.pass(&mut self.ready.item, tape);
    }

    /// Passes an item that is owed and was given, and that is not on the tape.
    #[inline(always)] // once for each observer of an emission
    pub(crate) fn pass_owed(&mut self)
        requires owed { 0 < owing_of self.old.seat }
        requires open { TakesMore self.old.seat }
        ensures fed { (items : List Item) (item : Item) → Feeds (observer_on items (place_of self.old)) (observer_on items (place_of self.new)) (Offered item ∷ []) (given_now self.old.seat item) }
        ensures ready { self.new.ready ≡ self.old.ready }
        ensures stands { (tape : TapeState) → Stands tape false self.old.seat → Stands tape false self.new.seat }
        ensures cursor { cursor_of self.new.seat ≡ cursor_of self.old.seat }
    {
        self.seat.pass_owed();
    }

    /// Makes ready the copies that an offer takes.
    pub(crate) fn prepare(&mut self, offer: &Offer) -> Result<(), Memory>
        ensures place { place_of self.new ≡ place_of self.old }
        ensures ready { OnOk result (IsReady offer.now self.new.ready self.new.seat) }
    {
        self.ready.item = self.seat.copy(&offer.item)?;
        self.ready.end = copy_of(&offer.end)?;
        Ok(())
    }

    /// Lets go of what was made ready.
    pub(crate) fn forget(&mut self)
        ensures place { place_of self.new ≡ place_of self.old }
        ensures idle { IsIdle self.new.ready }
    {
        self.ready.item = None;
        self.ready.end = None;
    }

    /// Puts at the end of `outs` what an offer gives to the observer at once. Its item is the last of the tape.
    #[inline(always)] // once for each observer of an emission
    pub(crate) fn feed(&mut self, offer: &Offer, tape: &mut Tape, outs: &mut Vec<Given, Heap>)
        requires stands { Stands tape.old (is_some offer.now.item) self.old.seat }
        requires open { TakesMore self.old.seat }
        requires ready { IsReady offer.now self.old.ready self.old.seat }
        requires room { vec_len outs.old + most_given offer.now ≤ vec_capacity outs.old }
        ensures fed { (items : List Item) → tape.old.items ≡ items ++ option_to_list offer.now.item
            → FeedsInto (observer_on items (place_of self.old)) (observer_on tape.new.items (place_of self.new)) (offer_signals offer.now) outs.old.items outs.new.items }
        ensures idle { IsIdle self.new.ready }
        ensures stands { Stands tape.new false self.new.seat }
        ensures cursor { cursor_of self.new.seat ≡ cursor_of self.old.seat }
        ensures leaves { Leaves tape.old tape.new (cursor_of self.old.seat) }
        ensures len { vec_len outs.new ≤ vec_len outs.old + most_given offer.now }
        ensures capacity { vec_capacity outs.new ≡ vec_capacity outs.old }
    {
        let copy = self.ready.item.take();
        let end = self.ready.end.take();
        let note = offer_to(&mut self.seat, &offer.item, copy, tape);
        put(self.who, note, outs);
        let note = end_by(&mut self.seat, end, tape);
        put(self.who, note, outs);
    }

    /// Adds a request, and puts at the end of `outs` what is then given. Refused as the queue does, which leaves both.
    pub(crate) fn ask(
        &mut self,
        n: u32,
        tape: &mut Tape,
        outs: &mut Vec<Given, Heap>,
    ) -> Result<(), AskError>
        requires { Stands tape.old false self.old.seat }
        ensures refuses { RefusesRequest (lane_of tape.old.items self.old.seat).owing n result }
        ensures err { OnErr result ((observer_on tape.new.items (place_of self.new) ≡ observer_on tape.old.items (place_of self.old)) × (outs.new.items ≡ outs.old.items)) }
        ensures ready { self.new.ready ≡ self.old.ready }
        ensures asked { OnOk result (AsksInto (observer_on tape.old.items (place_of self.old)) (observer_on tape.new.items (place_of self.new)) n outs.old.items outs.new.items) }
        ensures stands { Stands tape.new false self.new.seat }
        ensures cursor { cursor_of self.new.seat ≡ cursor_of self.old.seat }
        ensures leaves { Leaves tape.old tape.new (cursor_of self.old.seat) }
    {
        match &mut self.seat {
            Seat::Shared(lane) => lane.ask_for(self.who, n, tape, outs),
            Seat::Own(lane) => lane.ask_for(self.who, n, outs),
        }
    }

    /// Adds a request as `ask` does, where the tape has no other cursor and nobody needs later what is given now: it may be
    /// taken off the tape.
    #[inline(never)] // a request among several stays short
    pub(crate) fn ask_alone(
        &mut self,
        n: u32,
        tape: &mut Tape,
        outs: &mut Vec<Given, Heap>,
    ) -> Result<(), AskError>
        requires stands { Stands tape.old false self.old.seat }
        requires alone { IsAlone tape.old (cursor_of self.old.seat) }
        ensures refuses { RefusesRequest (lane_of tape.old.items self.old.seat).owing n result }
        ensures err { OnErr result ((observer_on tape.new.items (place_of self.new) ≡ observer_on tape.old.items (place_of self.old)) × (tape.new.items ≡ tape.old.items) × (outs.new.items ≡ outs.old.items)) }
        ensures ready { self.new.ready ≡ self.old.ready }
        ensures asked { OnOk result (AsksInto (observer_on tape.old.items (place_of self.old)) (observer_on tape.new.items (place_of self.new)) n outs.old.items outs.new.items) }
        ensures stands { Stands tape.new false self.new.seat }
        ensures cursor { cursor_of self.new.seat ≡ cursor_of self.old.seat }
        ensures alone { IsAlone tape.new (cursor_of self.new.seat) }
    {
        match &mut self.seat {
            Seat::Shared(lane) => lane.ask_alone(self.who, n, tape, outs),
            Seat::Own(lane) => lane.ask_for(self.who, n, outs),
        }
    }
}

// Whether an item that is offered now overflows a queue.
fn overflows(lane: &Lane) -> bool
    ensures { result ≡ overflows_at (Own lane.now) }
{
    !lane.is_ended() && lane.overflows_next()
}

// A copy of an item that is not owed, where the queue has not ended and does not lose it.
fn copy_kept(lane: &Lane, item: &Item) -> Result<Option<Item>, Memory>
    ensures { IfOk result (λ copy. copy ≡ copy_needed (Own lane.now) item.now) }
{
    if lane.is_ended() || lane.loses_next() {
        Ok(None)
    } else {
        Ok(Some(item.copy()?))
    }
}

// Offers the last item of the tape, where there is an item, and answers the note that it gives at once. It stands on the
// path of every emission, once for each observer.
#[inline(always)] // once for each observer of an emission
fn offer_to(
    seat: &mut Seat,
    item: &Option<Item>,
    copy: Option<Item>,
    tape: &mut Tape,
) -> Option<Note>
    requires stands { Stands tape.old (is_some item.now) seat.old }
    requires open { TakesMore seat.old }
    ensures serves { (items : List Item) → tape.old.items ≡ items ++ option_to_list item.now → copy ≡ needed seat.old item.now
        → Serves (lane_of items seat.old) (lane_of tape.new.items seat.new) (map Offered (option_to_list item.now)) (option_to_list result) }
    ensures count { length (option_to_list result) ≤ length (option_to_list item.now) }
    ensures stands { Stands tape.new false seat.new }
    ensures open { TakesMore seat.new }
    ensures cursor { cursor_of seat.new ≡ cursor_of seat.old }
    ensures leaves { Leaves tape.old tape.new (cursor_of seat.old) }
{
    if item.is_none() {
        return None;
    }
    seat.offer(copy, tape)
}

// Ends a queue by a terminal, if there is one, and answers it where it is given at once.
#[inline(always)] // once for each observer of an emission
pub(crate) fn end_by(seat: &mut Seat, end: Option<Note>, tape: &mut Tape) -> Option<Note>
    requires stands { Stands tape.old false seat.old }
    requires open { TakesMore seat.old }
    ensures serves { Serves (lane_of tape.old.items seat.old) (lane_of tape.new.items seat.new) (ended_by end) (option_to_list result) }
    ensures count { length (option_to_list result) ≤ length (option_to_list end) }
    ensures stands { Stands tape.new false seat.new }
    ensures cursor { cursor_of seat.new ≡ cursor_of seat.old }
    ensures leaves { Leaves tape.old tape.new (cursor_of seat.old) }
{
    seat.end(end?, tape)
}

// Puts a note, if there is one, at the end of `outs`, for an observer.
#[inline(always)] // once for each observer of an emission
pub(crate) fn put(who: u32, note: Option<Note>, outs: &mut Vec<Given, Heap>)
    requires { vec_len outs.old + length (option_to_list note) ≤ vec_capacity outs.old }
    ensures items { outs.new.items ≡ outs.old.items ++ addressed who (option_to_list note) }
    ensures len { vec_len outs.new ≡ vec_len outs.old + length (option_to_list note) }
    ensures capacity { vec_capacity outs.new ≡ vec_capacity outs.old }
{
    if let Some(note) = note {
        outs.push_reserved(Given { who, note });
    }
}
