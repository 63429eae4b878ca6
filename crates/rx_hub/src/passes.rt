// The passes of an emission over all observers: what may be refused comes in the first, and what can't fail in the second.
//
// A refused emission leaves nothing behind. The copies that queues of their own keep of an item are made ready before the
// last growth, so where that is refused they are let go at once (`passes::take_back`, `forget_all`). That nothing is ready
// between two steps is an invariant of the audience, so the prover refuses a way out that leaves a copy. A Publish subject
// keeps no stamp, so an item takes no room there that is given back at once.
//
// What all observers are owed, and nobody may need later, goes by no tape. A Publish subject keeps nothing for those who join
// later, so an item that each of its observers is given at once is pushed nowhere, and no cursor moves. An emission asks this
// first (`passes::are_owed`); then the item is copied for all observers but the last, which is given the item itself, and the
// lanes count one item less that is owed.
ghost use Rattle.std.specs.Prelude.{◌≡◌, ◌+◌, ◌*◌, ◌<◌, ◌≤◌, ◌↔◌, ◌==◌, ◌++◌, ◌∷◌, [], List, take, is_some, option_to_list, true, false, IsTrue, IfOk, OnOk, vec_len, vec_capacity};
ghost use Rattle.std.specs.List.{All};
ghost use Rattle.rx_note.specs.declared.item.Item.{Item};
ghost use Rattle.rx_note.specs.Signals.{Offered};
ghost use Rattle.rx_tape.specs.Tapes.{TapeState};
ghost use Rattle.rx_subject.specs.Offers.{offer_signals, most_given};
ghost use Rattle.rx_hub.specs.Seats.{IsReady, HoldsCopy};
ghost use Rattle.rx_hub.specs.Subscriptions.{AllFedInto};
ghost use Rattle.rx_hub.specs.Audiences.{places_of, observers_on, gifts, AllOn, AllOwed, AllTakeMore, AllFit, AllIdle, AllAside, Apart, Owned, cursors};

use crate::subscription::Subscription;
use rx_heap::{Heap, Memory};
use rx_note::{Given, Item};
use rx_subject::Offer;
use rx_tape::Tape;

// Whether each observer is owed an item.
#[inline(always)] // on the path of every emission
pub(crate) fn are_owed(subscriptions: &Vec<Subscription, Heap>) -> bool
    ensures { IsTrue result ↔ AllOwed (places_of subscriptions.now.items) }
{
    for i in 0..subscriptions.len() {
        if subscriptions[i].seat.owed() == 0 {
            return false;
        }
    }
    true
}

// Puts an item at the end of `outs` for each observer, all of which are owed it: copies, and to the last the item itself. On
// `Memory` some may have been put.
#[inline(always)] // on the path of every emission
pub(crate) fn give_owed(
    subscriptions: &Vec<Subscription, Heap>,
    item: Item,
    outs: &mut Vec<Given, Heap>,
) -> Result<(), Memory>
    requires owed { AllOwed (places_of subscriptions.now.items) }
    requires room { vec_len outs.old + vec_len subscriptions.now ≤ vec_capacity outs.old }
    ensures given { OnOk result (outs.new.items ≡ outs.old.items ++ gifts item (places_of subscriptions.now.items)) }
    ensures front { take (vec_len outs.old) outs.new.items ≡ outs.old.items }
{
    let Some(last) = subscriptions.len().checked_sub(1) else {
        return Ok(());
    };
    give_copies(subscriptions, last, &item, outs)?;
    subscriptions[last].give(item, outs);
    Ok(())
}

// Puts a copy of an item at the end of `outs` for each of the first observers, so many, all of which are owed it. On `Memory`
// some may have been put.
#[inline(always)] // on the path of every emission
fn give_copies(
    subscriptions: &Vec<Subscription, Heap>,
    count: usize,
    item: &Item,
    outs: &mut Vec<Given, Heap>,
) -> Result<(), Memory>
    requires within { count ≤ vec_len subscriptions.now }
    requires owed { AllOwed (places_of subscriptions.now.items) }
    requires room { vec_len outs.old + count ≤ vec_capacity outs.old }
    ensures given { OnOk result (outs.new.items ≡ outs.old.items ++ gifts item.now (take count (places_of subscriptions.now.items))) }
    ensures front { take (vec_len outs.old) outs.new.items ≡ outs.old.items }
    ensures len { OnOk result (vec_len outs.new ≡ vec_len outs.old + count) }
    ensures capacity { vec_capacity outs.new ≡ vec_capacity outs.old }
{
    if count == 0 {
        return Ok(());
    }
    put_copies(subscriptions, count, item, outs)
}

// The same, out of line, so that what goes to one observer alone stays short.
#[inline(never)] // what goes to one observer alone stays short
fn put_copies(
    subscriptions: &Vec<Subscription, Heap>,
    count: usize,
    item: &Item,
    outs: &mut Vec<Given, Heap>,
) -> Result<(), Memory>
    requires within { count ≤ vec_len subscriptions.now }
    requires owed { AllOwed (places_of subscriptions.now.items) }
    requires room { vec_len outs.old + count ≤ vec_capacity outs.old }
    ensures given { OnOk result (outs.new.items ≡ outs.old.items ++ gifts item.now (take count (places_of subscriptions.now.items))) }
    ensures front { take (vec_len outs.old) outs.new.items ≡ outs.old.items }
    ensures len { OnOk result (vec_len outs.new ≡ vec_len outs.old + count) }
    ensures capacity { vec_capacity outs.new ≡ vec_capacity outs.old }
{
    for i in 0..count {
        let copy = item.copy()?;
        subscriptions[i].give(copy, outs);
    }
    Ok(())
}

// Puts a copy of an item at the end of `outs` for each observer to which it is owed, and makes ready the copies that others
// keep. Whether it fits all of them; where it overflows at one, and on `Memory`, some may have been put.
pub(crate) fn give_item(
    subscriptions: &mut Vec<Subscription, Heap>,
    item: &Item,
    outs: &mut Vec<Given, Heap>,
) -> Result<bool, Memory>
    requires { vec_len outs.old + vec_len subscriptions.old ≤ vec_capacity outs.old }
    ensures places { places_of subscriptions.new.items ≡ places_of subscriptions.old.items }
    ensures len { vec_len subscriptions.new ≡ vec_len subscriptions.old }
    ensures fits { IfOk result (λ fits. fits ≡ true → AllFit (places_of subscriptions.old.items)) }
    ensures given { IfOk result (λ fits. fits ≡ true → outs.new.items ≡ outs.old.items ++ gifts item.now (places_of subscriptions.old.items)) }
    ensures holds { IfOk result (λ fits. fits ≡ true → All (λ s. HoldsCopy item.now s.ready.item s.seat) subscriptions.new.items) }
    ensures aside { IfOk result (λ fits. fits ≡ true → AllAside subscriptions.old.items → AllAside subscriptions.new.items) }
    ensures front { take (vec_len outs.old) outs.new.items ≡ outs.old.items }
{
    for i in 0..subscriptions.len() {
        let fits = subscriptions[i].give_now(item, outs)?;
        if !fits {
            return Ok(false);
        }
    }
    Ok(true)
}

// Passes an item that each observer is owed and was given, and that is not on the tape.
#[inline(always)] // on the path of every emission
pub(crate) fn pass_owed_all(subscriptions: &mut Vec<Subscription, Heap>)
    requires owed { AllOwed (places_of subscriptions.old.items) }
    requires open { AllTakeMore (places_of subscriptions.old.items) }
    ensures fed { (items : List Item) (item : Item) → AllFedInto (Offered item ∷ []) (observers_on items (places_of subscriptions.old.items))
        (observers_on items (places_of subscriptions.new.items)) [] (gifts item (places_of subscriptions.old.items)) }
    ensures idle { AllIdle subscriptions.old.items → AllIdle subscriptions.new.items }
    ensures on { (tape : TapeState) → AllOn tape false (places_of subscriptions.old.items) → AllOn tape false (places_of subscriptions.new.items) }
    ensures cursors { cursors (places_of subscriptions.new.items) ≡ cursors (places_of subscriptions.old.items) }
{
    for i in 0..subscriptions.len() {
        subscriptions[i].pass_owed();
    }
}

// Offers each observer the last item of the tape, which fits, and was given already if it is owed.
pub(crate) fn pass_all(subscriptions: &mut Vec<Subscription, Heap>, tape: &mut Tape)
    requires on { AllOn tape.old true (places_of subscriptions.old.items) }
    requires open { AllTakeMore (places_of subscriptions.old.items) }
    requires fits { AllFit (places_of subscriptions.old.items) }
    requires apart { Apart (places_of subscriptions.old.items) }
    ensures fed { (items : List Item) (item : Item) → tape.old.items ≡ items ++ item ∷ [] → All (λ s. HoldsCopy item s.ready.item s.seat) subscriptions.old.items
        → AllFedInto (Offered item ∷ []) (observers_on items (places_of subscriptions.old.items))
        (observers_on tape.new.items (places_of subscriptions.new.items)) [] (gifts item (places_of subscriptions.old.items)) }
    ensures idle { AllAside subscriptions.old.items → AllIdle subscriptions.new.items }
    ensures on { AllOn tape.new false (places_of subscriptions.new.items) }
    ensures cursors { cursors (places_of subscriptions.new.items) ≡ cursors (places_of subscriptions.old.items) }
    ensures owned { Owned tape.old (places_of subscriptions.old.items) → Owned tape.new (places_of subscriptions.new.items) }
    ensures items { tape.new.items ≡ tape.old.items }
{
    for i in 0..subscriptions.len() {
        subscriptions[i].pass(tape);
    }
}

// Makes ready the copies that each observer takes of an offer.
pub(crate) fn prepare_all(
    subscriptions: &mut Vec<Subscription, Heap>,
    offer: &Offer,
) -> Result<(), Memory>
    ensures places { places_of subscriptions.new.items ≡ places_of subscriptions.old.items }
    ensures len { vec_len subscriptions.new ≡ vec_len subscriptions.old }
    ensures ready { OnOk result (All (λ s. IsReady offer.now s.ready s.seat) subscriptions.new.items) }
{
    for i in 0..subscriptions.len() {
        subscriptions[i].prepare(offer)?;
    }
    Ok(())
}

// Takes back what the first pass of a refused item put behind the first `before` notes, and what it made ready.
pub(crate) fn take_back(
    subscriptions: &mut Vec<Subscription, Heap>,
    before: usize,
    outs: &mut Vec<Given, Heap>,
)
    ensures places { places_of subscriptions.new.items ≡ places_of subscriptions.old.items }
    ensures idle { AllIdle subscriptions.new.items }
    ensures items { outs.new.items ≡ take before outs.old.items }
{
    outs.truncate(before);
    forget_all(subscriptions);
}

// Lets go of what was made ready for each observer.
pub(crate) fn forget_all(subscriptions: &mut Vec<Subscription, Heap>)
    ensures places { places_of subscriptions.new.items ≡ places_of subscriptions.old.items }
    ensures idle { AllIdle subscriptions.new.items }
{
    for i in 0..subscriptions.len() {
        subscriptions[i].forget();
    }
}

// Feeds each observer what an offer gives, by rising number. Its item is the last of the tape.
pub(crate) fn feed_all(
    subscriptions: &mut Vec<Subscription, Heap>,
    offer: &Offer,
    tape: &mut Tape,
    outs: &mut Vec<Given, Heap>,
)
    requires ready { All (λ s. IsReady offer.now s.ready s.seat) subscriptions.old.items }
    requires on { AllOn tape.old (is_some offer.now.item) (places_of subscriptions.old.items) }
    requires open { AllTakeMore (places_of subscriptions.old.items) }
    requires apart { Apart (places_of subscriptions.old.items) }
    requires outs_room { vec_len outs.old + vec_len subscriptions.old * most_given offer.now ≤ vec_capacity outs.old }
    ensures fed { (items : List Item) → tape.old.items ≡ items ++ option_to_list offer.now.item
        → AllFedInto (offer_signals offer.now) (observers_on items (places_of subscriptions.old.items))
        (observers_on tape.new.items (places_of subscriptions.new.items)) outs.old.items outs.new.items }
    ensures idle { AllIdle subscriptions.new.items }
    ensures on { AllOn tape.new false (places_of subscriptions.new.items) }
    ensures cursors { cursors (places_of subscriptions.new.items) ≡ cursors (places_of subscriptions.old.items) }
    ensures owned { Owned tape.old (places_of subscriptions.old.items) → Owned tape.new (places_of subscriptions.new.items) }
    ensures items { tape.new.items ≡ tape.old.items }
{
    for i in 0..subscriptions.len() {
        subscriptions[i].feed(offer, tape, outs);
    }
}
