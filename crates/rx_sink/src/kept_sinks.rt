// What a letter or a flush does to the sinks that are kept and to those that were put away.
ghost use Rattle.std.specs.Prelude.{◌≡◌, if◌then◌else◌, ◌+◌, ◌<◌, ◌≤◌, ℕ, [], ◌++◌, List, None, IfSome, length, vec_len};
ghost use Rattle.std.specs.List.{position};
ghost use Rattle.rx_sink.specs.Acts.{raised};
ghost use Rattle.rx_sink.specs.Attachments.{Attachment, Why, attaching, closed, detaching, flushing, giving, is_for};
ghost use Rattle.rx_sink.specs.KeptSinks.{EndsAct, IsKeptAt, PartsOne, Pushes, Stand, Tends, events_asked, sinks};
ghost use Rattle.rx_sink.specs.Rests.{HasRoomFor};

use crate::{Asks, Kept, Places, PutAway, Rests, Sink, SinkFault};
use rx_heap::Heap;
use rx_note::Note;

/// The sink of an observer comes. Where one is kept for that observer it is left unserved. Else a place is made for it, and it is
/// started; where there is no memory for the place it is left unserved too. It answers what its subject is to be asked, the
/// observer being disposed of where there was no memory and where the start was a fault; and the sink that is left unserved, as
/// it came: that is still to be finished.
#[inline(never)] // rare, and who gives a note makes no room for it
pub fn attach<S: Sink>(
    kept: &mut Vec<Kept<S>, Heap>,
    away: &mut Rests<S::Rest>,
    places: &mut Places,
    subject: u32,
    who: u32,
    sink: S,
) -> (Asks, Option<S>)
    requires room { HasRoomFor (vec_len kept.old) away.old }
    ensures room { HasRoomFor (vec_len kept.new) away.new }
    ensures keeps { away.new.keeps ≡ away.old.keeps }
    ensures attaches { (place taken : ℕ) → Tends S.acts (attaching place subject who sink)
        (sinks kept.old.items away.old.items places.old.misses taken) (sinks kept.new.items away.new.items places.new.misses taken) (events_asked result.0) result.1 }
{
    if let Some(_place) = look(kept.as_slice(), places, subject, who) {
        return (Asks::nothing(who), Some(sink));
    }
    let Ok(()) = places.grow(kept, away) else {
        return (Asks::leave(who), Some(sink));
    };
    let mut one = sink;
    match one.start(who) {
        Ok(()) => {
            kept.push_reserved(Kept {
                subject,
                who,
                sink: one,
                due: 0,
                over: false,
                may_wait: true,
            });
            places.add(kept);
            (Asks::nothing(who), None)
        }
        Err(_) => {
            let rest = one.finish();
            away.push_reserved(PutAway { subject, who, rest });
            (Asks::leave(who), None)
        }
    }
}

/// A note comes for an observer, whose sink takes it, if one is kept that took no terminal. It answers what the subject is to
/// be asked: one item more for each that is due, unless the sink is stuck. The observer is disposed of, and its sink put away,
/// after a terminal where nothing waits in the sink, and after a fault. In `taken` it counts a note that was taken; the count
/// stays at the greatest `u64`.
pub fn give<S: Sink>(
    kept: &mut Vec<Kept<S>, Heap>,
    away: &mut Rests<S::Rest>,
    places: &mut Places,
    taken: &mut u64,
    subject: u32,
    who: u32,
    note: Note,
) -> Asks
    requires room { HasRoomFor (vec_len kept.old) away.old }
    ensures room { HasRoomFor (vec_len kept.new) away.new }
    ensures keeps { away.new.keeps ≡ away.old.keeps }
    ensures misses { places.new.misses ≡ places.old.misses }
    ensures gives { (misses : ℕ) → Tends S.acts (giving subject who note)
        (sinks kept.old.items away.old.items misses taken.old) (sinks kept.new.items away.new.items misses taken.new) (events_asked result) None }
{
    let Some(place) = look(kept.as_slice(), places, subject, who) else {
        return Asks::nothing(who);
    };
    if kept[place].over {
        return Asks::nothing(who);
    }
    let took = kept[place].take(note);
    *taken = tallied(*taken, took.is_ok());
    end_act(kept, away, place, took)
}

/// The sink of an observer is flushed, if one is kept. It answers what the subject is to be asked: one item more for each that
/// is due, unless the sink is stuck. The observer is disposed of, and its sink put away, where nothing waits any more in one
/// that took a terminal, and after a fault. Where the sink stands at the place `near` one look finds it.
pub fn flush_one<S: Sink>(
    kept: &mut Vec<Kept<S>, Heap>,
    away: &mut Rests<S::Rest>,
    near: usize,
    subject: u32,
    who: u32,
) -> Asks
    requires room { HasRoomFor (vec_len kept.old) away.old }
    ensures room { HasRoomFor (vec_len kept.new) away.new }
    ensures keeps { away.new.keeps ≡ away.old.keeps }
    ensures len { vec_len kept.old ≤ vec_len kept.new + 1 }
    ensures flushes { (misses taken : ℕ) → Tends S.acts (flushing subject who)
        (sinks kept.old.items away.old.items misses taken) (sinks kept.new.items away.new.items misses taken) (events_asked result) None }
{
    let Some(place) = find(kept.as_slice(), near, subject, who) else {
        return Asks::nothing(who);
    };
    let flushed = kept[place].flush();
    end_act(kept, away, place, flushed)
}

/// An observer left: its sink is put away, if one is kept. It answers what the subject is to be asked: one item more for each
/// that is due, and where the sink took a terminal that the observer be disposed of.
#[inline(never)] // the same
pub fn detach<S: Sink>(
    kept: &mut Vec<Kept<S>, Heap>,
    away: &mut Rests<S::Rest>,
    places: &mut Places,
    subject: u32,
    who: u32,
) -> Asks
    requires room { HasRoomFor (vec_len kept.old) away.old }
    ensures room { HasRoomFor (vec_len kept.new) away.new }
    ensures keeps { away.new.keeps ≡ away.old.keeps }
    ensures misses { places.new.misses ≡ places.old.misses }
    ensures detaches { (misses taken : ℕ) → Tends S.acts (detaching subject who)
        (sinks kept.old.items away.old.items misses taken) (sinks kept.new.items away.new.items misses taken) (events_asked result) None }
{
    let Some(place) = look(kept.as_slice(), places, subject, who) else {
        return Asks::nothing(who);
    };
    let leaves = kept[place].over;
    part(kept, away, place, leaves)
}

/// All sinks that are kept are put away, in their order.
pub fn put_all_away<S: Sink>(kept: &mut Vec<Kept<S>, Heap>, away: &mut Rests<S::Rest>)
    requires room { HasRoomFor (vec_len kept.old) away.old }
    ensures room { HasRoomFor 0 away.new }
    ensures keeps { away.new.keeps ≡ away.old.keeps }
    ensures kept { kept.new.items ≡ [] }
    ensures closes { (held : List (Attachment S)) (gone : List (Attachment S × Why))
        → Stand S.acts held gone kept.old.items away.old.items → Stand S.acts [] (gone ++ closed held) kept.new.items away.new.items }
{
    // From the back, so that each sink is moved out.
    kept.reverse();
    while let Some(one) = kept.pop() {
        push_away(away, one);
    }
}

// Puts the sink at this place away where it is done, or had a fault at what was done last. It answers what is to be asked.
fn end_act<S: Sink>(
    kept: &mut Vec<Kept<S>, Heap>,
    away: &mut Rests<S::Rest>,
    place: usize,
    act: Result<Asks, SinkFault>,
) -> Asks
    requires within { place < vec_len kept.old }
    requires room { HasRoomFor (vec_len kept.old) away.old }
    ensures room { HasRoomFor (vec_len kept.new) away.new }
    ensures keeps { away.new.keeps ≡ away.old.keeps }
    ensures len { vec_len kept.old ≤ vec_len kept.new + 1 }
    ensures ends { EndsAct S.acts place act kept.old.items kept.new.items away.old.items away.new.items result }
{
    let Ok(asks) = act else {
        return part(kept, away, place, true);
    };
    if asks.leaves {
        let _parting = part(kept, away, place, true);
        return asks;
    }
    // Part by part: an answer that is moved whole is loaded in other sizes than it was stored in, and the processor waits for that.
    Asks {
        who: asks.who,
        items: asks.items,
        leaves: false,
    }
}

// Moves the sink at this place to those that were put away. It answers that all is to be asked for that is due, and whether
// the observer is to be let go.
#[inline(never)] // a sink goes but once
fn part<S: Sink>(
    kept: &mut Vec<Kept<S>, Heap>,
    away: &mut Rests<S::Rest>,
    place: usize,
    leaves: bool,
) -> Asks
    requires within { place < vec_len kept.old }
    requires room { HasRoomFor (vec_len kept.old) away.old }
    ensures room { HasRoomFor (vec_len kept.new) away.new }
    ensures keeps { away.new.keeps ≡ away.old.keeps }
    ensures len { vec_len kept.old ≤ vec_len kept.new + 1 }
    ensures parts { PartsOne S.acts place leaves kept.old.items kept.new.items away.old.items away.new.items result }
{
    let one = kept.remove(place);
    let asks = Asks {
        who: one.who,
        items: u64::from(one.due),
        leaves,
    };
    push_away(away, one);
    asks
}

// Finishes a sink, and puts it behind those that were put away.
fn push_away<S: Sink>(away: &mut Rests<S::Rest>, one: Kept<S>)
    requires { HasRoomFor 1 away.old }
    ensures room { (n : ℕ) → HasRoomFor (n + 1) away.old → HasRoomFor n away.new }
    ensures keeps { away.new.keeps ≡ away.old.keeps }
    ensures pushes { Pushes S.acts one away.old.items away.new.items }
{
    let Kept {
        subject,
        who,
        sink,
        due: _,
        over: _,
        may_wait: _,
    } = one;
    let rest = sink.finish();
    away.push_reserved(PutAway { subject, who, rest });
}

// The place of the sink that is kept for an observer. What one observer asked for goes to it together, so it is mostly the one that
// was found before.
#[inline(always)] // once for each note
fn look<S: Sink>(kept: &[Kept<S>], places: &mut Places, subject: u32, who: u32) -> Option<usize>
    ensures within { IfSome result (λ place. place < length kept.now) }
    ensures found { IfSome result (λ place. IsKeptAt subject who place kept.now) }
    ensures none { result ≡ None → position (is_for subject who) kept.now ≡ None }
    ensures misses { places.new.misses ≡ places.old.misses }
{
    let last = places.last();
    if last < kept.len() && is_kept_for(&kept[last], subject, who) {
        return Some(last);
    }
    search(kept, places, subject, who)
}

// The same where it is another: it is looked for where it stood before.
#[inline(never)] // once for each observer of an item
fn search<S: Sink>(kept: &[Kept<S>], places: &mut Places, subject: u32, who: u32) -> Option<usize>
    ensures within { IfSome result (λ place. place < length kept.now) }
    ensures found { IfSome result (λ place. IsKeptAt subject who place kept.now) }
    ensures none { result ≡ None → position (is_for subject who) kept.now ≡ None }
    ensures misses { places.new.misses ≡ places.old.misses }
{
    let near = places.near(subject, who);
    let found = find(kept, near, subject, who);
    if let Some(place) = found {
        places.found(subject, who, near, place);
    }
    found
}

// The place of the sink that is kept for an observer. It is looked for from this place down, and then from behind there up:
// a sink that goes has those behind it move down.
fn find<S: Sink>(kept: &[Kept<S>], near: usize, subject: u32, who: u32) -> Option<usize>
    ensures within { IfSome result (λ place. place < length kept.now) }
    ensures found { IfSome result (λ place. IsKeptAt subject who place kept.now) }
    ensures none { result ≡ None → position (is_for subject who) kept.now ≡ None }
{
    let first = near.min(kept.len().saturating_sub(1));
    for step in 0..kept.len() {
        let place = place_at(first, step);
        if is_kept_for(&kept[place], subject, who) {
            return Some(place);
        }
    }
    None
}

// The place that is looked at in this step: from `first` down to 0, and then from behind `first` up.
fn place_at(first: usize, step: usize) -> usize
    ensures down { step ≤ first → result + step ≡ first }
    ensures up { first < step → result ≡ step }
{
    if step <= first { first - step } else { step }
}

// Whether a sink is kept for this observer.
fn is_kept_for<S: Sink>(one: &Kept<S>, subject: u32, who: u32) -> bool
    ensures { result ≡ is_for subject who one.now }
{
    one.subject == subject && one.who == who
}

// The number of notes taken with one more, where it was.
fn tallied(taken: u64, fine: bool) -> u64
    ensures { result ≡ (if fine then raised taken else taken) }
{
    if fine { taken.saturating_add(1) } else { taken }
}
