// An observer under Drop has a lane of its own beside the tape, since what waits for it is no end of the tape. So has one
// under Bounded: what waits in front of its overflow is no end of the tape either, once more items come. It takes a copy of
// each item that is not owed, save where it has ended, and where `Lane::loses_next` says that it would lose it.
ghost use Rattle.std.specs.Prelude.{◌≡◌, ◌≤◌, ◌<◌, ◌+◌, ◌++◌, ◌∷◌, [], ℕ, List, true, false, None, Some, map, length, option_to_list, if◌then◌else◌, IfOk, OnErr, vec_len, vec_capacity};
ghost use Rattle.rx_note.specs.declared.item.Item.{Item};
ghost use Rattle.rx_note.specs.declared.note.Note.{Note};
ghost use Rattle.rx_note.specs.declared.note.Note.TheVariants.{Next};
ghost use Rattle.rx_note.specs.Signals.{Signals, Offered, Ended, waiting};
ghost use Rattle.rx_history.specs.Histories.{addressed};
ghost use Rattle.rx_tape.specs.Tapes.{TapeState, place_of, waits};
ghost use Rattle.rx_lane.specs.Lanes.{StandsFor, HasRoomFor};
ghost use Rattle.rx_lane.specs.Queues.{NeedsNoMemory};
ghost use Rattle.rx_lane.specs.TapeLanes.{HoldsSame};
ghost use Rattle.rx_hub.specs.declared.seat.Seat.TheVariants.{Own};
ghost use Rattle.rx_hub.specs.Seats.{HoldsCopy, given_now, overflows_at};
ghost use Rattle.rx_hub.specs.Subscriptions.{Serves, BeginsInto};

use crate::subscription::put;
use rx_heap::{Heap, Memory};
use rx_lane::{Joiner, Lane, TapeLane};
use rx_note::{Errors, Given, Item, Note, Strategy};
use rx_tape::Tape;

/// Where what waits for an observer stands.
#[derive(Drop)]
pub(crate) enum Seat {
    /// On the tape that the observers share.
    Shared(TapeLane),
    /// In a queue of its own: what waits under `Drop` is no end of the tape, and under `Bounded` it may end before the others.
    Own(Lane),
}

impl Seat {
    ghost use Rattle.rx_hub.specs.Seats.{lane_of, cursor_of, owing_of, Stands, Leaves, TakesMore, HoldsCopy, copy_needed, given_now, needed, overflows_at, copy_left};

    /// The seat of an observer that joins with this policy and a request of `first` items, and is then offered `lead`, if
    /// there is one, and the last `back` items of the tape. What it gives at once is put at the end of `outs`. `Memory`
    /// leaves the tape and `outs`.
    pub(crate) fn open(
        joiner: Joiner,
        lead: Option<Item>,
        back: usize,
        tape: &mut Tape,
        outs: &mut Vec<Given, Heap>,
    ) -> Result<Seat, Memory>
        requires there { back ≤ length tape.old.items }
        ensures err { OnErr result (HoldsSame tape.old tape.new × (outs.new.items ≡ outs.old.items)) }
        ensures begins { IfOk result (λ seat. BeginsInto (lane_of tape.new.items seat) joiner (map Offered (waits lead tape.old.items back)) outs.old.items outs.new.items) }
        ensures stands { IfOk result (λ seat. Stands tape.new false seat) }
        ensures open { IfOk result (λ seat. TakesMore seat) }
        ensures fresh { IfOk result (λ seat. (cursor : ℕ) → cursor_of seat ≡ Some cursor → place_of tape.old.places cursor ≡ None) }
        ensures leaves { IfOk result (λ seat. Leaves tape.old tape.new (cursor_of seat)) }
        ensures count { IfOk result (λ seat. length outs.new.items ≤ length outs.old.items + length (option_to_list lead) + back) }
        ensures capacity { vec_capacity outs.old ≤ vec_capacity outs.new }
    {
        match joiner.policy.strategy() {
            Strategy::Drop(_) | Strategy::Bounded(_) => {
                let lane = own_lane(joiner, lead, back, tape, outs)?;
                Ok(Seat::Own(lane))
            }
            Strategy::Buffer | Strategy::Latest(_) => {
                let lane = TapeLane::open_for(joiner, lead, back, tape, outs)?;
                Ok(Seat::Shared(lane))
            }
        }
    }

    /// By which strategy its observer joined.
    pub(crate) fn strategy(&self) -> Strategy
        ensures { (items : List Item) → result ≡ (lane_of items self.now).policy.strategy }
    {
        match self {
            Seat::Shared(lane) => lane.strategy(),
            Seat::Own(lane) => lane.strategy(),
        }
    }

    /// By which error mode.
    pub(crate) fn errors(&self) -> Errors
        ensures { (items : List Item) → result ≡ (lane_of items self.now).policy.errors }
    {
        match self {
            Seat::Shared(lane) => lane.errors(),
            Seat::Own(lane) => lane.errors(),
        }
    }

    /// How many items its observer may be given before it requests more, whether or not it has ended.
    pub(crate) fn owing(&self) -> u32
        ensures { (items : List Item) → result ≡ (lane_of items self.now).owing }
    {
        match self {
            Seat::Shared(lane) => lane.owed(),
            Seat::Own(lane) => lane.owed(),
        }
    }

    /// How many items are given at once that are offered: as many as are owed, and none once it has ended.
    pub(crate) fn owed(&self) -> u32
        ensures { result ≡ owing_of self.now }
    {
        match self {
            Seat::Shared(lane) => lane.owed(),
            Seat::Own(lane) => {
                let owed = lane.owed();
                if lane.is_ended() { 0 } else { owed }
            }
        }
    }

    /// How many items wait.
    pub(crate) fn waiting_len(&self) -> usize
        ensures { (tape : TapeState) → Stands tape false self.now → result ≡ length (lane_of tape.items self.now).items }
    {
        match self {
            Seat::Shared(lane) => lane.waiting_len(),
            Seat::Own(lane) => lane.waiting_len(),
        }
    }

    /// How many notes wait: the items, and the terminal where one waits behind them.
    pub(crate) fn waiting_notes(&self) -> usize
        ensures state { (tape : TapeState) → Stands tape false self.now → result ≡ length (lane_of tape.items self.now).items + length (lane_of tape.items self.now).last }
        ensures waiting { (tape : TapeState) (s : Signals) → Stands tape false self.now → StandsFor (lane_of tape.items self.now) s → result ≡ length (waiting s) }
    {
        match self {
            Seat::Shared(lane) => lane.waiting_notes(),
            Seat::Own(lane) => lane.waiting_notes(),
        }
    }

    /// How many bytes the texts have that wait, of those on the tape without the last `keep`, which stay for others anyway; in a step
    /// for each. Nothing is promised of it.
    pub(crate) fn waiting_bytes(&self, keep: usize, tape: &Tape) -> u64 {
        match self {
            Seat::Shared(lane) => bytes_between(lane.waiting_len(), keep, tape),
            Seat::Own(lane) => lane.waiting_bytes(),
        }
    }

    /// A copy of an item that is to be offered, where the offer needs one.
    pub(crate) fn copy(&self, item: &Option<Item>) -> Result<Option<Item>, Memory>
        ensures { IfOk result (λ copy. copy ≡ needed self.now item.now) }
    {
        match item {
            Some(item) if self.takes_copy() => Ok(Some(item.copy()?)),
            _ => Ok(None),
        }
    }

    // Whether an offer needs a copy of its item.
    fn takes_copy(&self) -> bool
        ensures { (item : Item) → copy_needed self.now item ≡ (if result then Some item else None) }
    {
        match self {
            Seat::Shared(lane) => lane.owed() > 0,
            Seat::Own(lane) => !(lane.is_ended() || lane.loses_next()),
        }
    }

    /// Offers the last item of the tape, with the copy that is needed. What it gives at once comes back: the item, or the error
    /// of an overflow.
    #[inline(always)] // once for each observer of an emission
    pub(crate) fn offer(&mut self, copy: Option<Item>, tape: &mut Tape) -> Option<Note>
        requires stands { Stands tape.old true self.old }
        requires open { TakesMore self.old }
        ensures serves { (items : List Item) (item : Item) → tape.old.items ≡ items ++ item ∷ [] → copy ≡ copy_needed self.old item
            → Serves (lane_of items self.old) (lane_of tape.new.items self.new) (Offered item ∷ []) (option_to_list result) }
        ensures stands { Stands tape.new false self.new }
        ensures open { TakesMore self.new }
        ensures cursor { cursor_of self.new ≡ cursor_of self.old }
        ensures leaves { Leaves tape.old tape.new (cursor_of self.old) }
    {
        match self {
            Seat::Shared(lane) => note_of(lane.offer(copy, tape)),
            Seat::Own(lane) => match copy {
                Some(item) => offer_own(lane, item),
                None => None,
            },
        }
    }

    /// Offers the last item of the tape, which was given already if it is owed; a queue of its own that keeps it takes the copy.
    #[inline(always)] // once for each observer of an emission
    pub(crate) fn pass(&mut self, copy: &mut Option<Item>, tape: &mut Tape)
        requires stands { Stands tape.old true self.old }
        requires open { TakesMore self.old }
        requires fits { overflows_at self.old ≡ false }
        ensures serves { (items : List Item) (item : Item) → tape.old.items ≡ items ++ item ∷ [] → HoldsCopy item copy.old self.old
            → Serves (lane_of items self.old) (lane_of tape.new.items self.new) (Offered item ∷ []) (given_now self.old item) }
        ensures left { copy.new ≡ copy_left self.old copy.old }
        ensures stands { Stands tape.new false self.new }
        ensures cursor { cursor_of self.new ≡ cursor_of self.old }
        ensures leaves { Leaves tape.old tape.new (cursor_of self.old) }
    {
        match self {
            Seat::Shared(lane) => lane.pass(tape),
            Seat::Own(lane) => pass_own(lane, copy.take()),
        }
    }

    /// Passes an item that is owed and was given, and that is not on the tape.
    #[inline(always)] // once for each observer of an emission
    pub(crate) fn pass_owed(&mut self)
        requires owed { 0 < owing_of self.old }
        requires open { TakesMore self.old }
        ensures serves { (items : List Item) (item : Item) → Serves (lane_of items self.old) (lane_of items self.new) (Offered item ∷ []) (given_now self.old item) }
        ensures stands { (tape : TapeState) → Stands tape false self.old → Stands tape false self.new }
        ensures cursor { cursor_of self.new ≡ cursor_of self.old }
    {
        match self {
            Seat::Shared(lane) => lane.pass_owed(),
            Seat::Own(lane) => lane.pass(),
        }
    }

    /// Ends the queue by a terminal, which comes back where it is given at once.
    pub(crate) fn end(&mut self, note: Note, tape: &mut Tape) -> Option<Note>
        requires stands { Stands tape.old false self.old }
        requires open { TakesMore self.old }
        ensures serves { Serves (lane_of tape.old.items self.old) (lane_of tape.new.items self.new) (Ended note ∷ []) (option_to_list result) }
        ensures stands { Stands tape.new false self.new }
        ensures cursor { cursor_of self.new ≡ cursor_of self.old }
        ensures leaves { Leaves tape.old tape.new (cursor_of self.old) }
    {
        match self {
            Seat::Shared(lane) => lane.end_on(note, tape),
            Seat::Own(lane) => end_own(lane, note),
        }
    }

    /// Lets the queue go with what waits, and releases its cursor.
    pub(crate) fn close(self, tape: &mut Tape)
        ensures leaves { Leaves tape.old tape.new (cursor_of self) }
        ensures released { (cursor : ℕ) → cursor_of self ≡ Some cursor → place_of tape.new.places cursor ≡ None }
    {
        match self {
            Seat::Shared(lane) => lane.close(tape),
            Seat::Own(_) => {}
        }
    }
}

// The queue of its own of an observer that joins and is then offered `lead`, if there is one, and the last `back` items of
// the tape. What it gives at once is put at the end of `outs`. `Memory` leaves `outs`.
fn own_lane(
    joiner: Joiner,
    lead: Option<Item>,
    back: usize,
    tape: &Tape,
    outs: &mut Vec<Given, Heap>,
) -> Result<Lane, Memory>
    requires there { back ≤ length tape.now.items }
    requires needs_no_room { (count spare : ℕ) → NeedsNoMemory joiner.policy.strategy count spare }
    ensures err { OnErr result (outs.new.items ≡ outs.old.items) }
    ensures begins { IfOk result (λ lane. BeginsInto lane.state joiner (map Offered (waits lead tape.now.items back)) outs.old.items outs.new.items) }
    ensures room { IfOk result (λ lane. (count : ℕ) → HasRoomFor lane count) }
    ensures count { IfOk result (λ lane. length outs.new.items ≤ length outs.old.items + length (option_to_list lead) + back) }
    ensures capacity { vec_capacity outs.old ≤ vec_capacity outs.new }
{
    let items = last_copies(outs.allocator().clone()?, lead, back, tape)?;
    outs.reserve(items.len())?;
    let mut lane = Lane::joined(tape.allocator().clone()?, joiner.policy, joiner.first)?;
    offer_all(joiner.who, &mut lane, items, outs);
    Ok(lane)
}

// Offers an item to a queue of its own. What it gives at once comes back; one that has ended gives nothing.
fn offer_own(lane: &mut Lane, item: Item) -> Option<Note>
    requires { (count : ℕ) → HasRoomFor lane.old count }
    ensures serves { Serves lane.old.state lane.new.state (Offered item ∷ []) (option_to_list result) }
    ensures room { (count : ℕ) → HasRoomFor lane.new count }
{
    if lane.is_ended() {
        return None;
    }
    lane.offer(item)
}

// Ends a queue of its own, if it has not ended by an overflow. The terminal comes back where it is given at once.
fn end_own(lane: &mut Lane, note: Note) -> Option<Note>
    requires { (count : ℕ) → HasRoomFor lane.old count }
    ensures serves { Serves lane.old.state lane.new.state (Ended note ∷ []) (option_to_list result) }
    ensures room { (count : ℕ) → HasRoomFor lane.new count }
{
    if lane.is_ended() {
        return None;
    }
    lane.end(note)
}

// How many bytes the texts have of the last `back` items of the tape, without the last `keep`.
fn bytes_between(back: usize, keep: usize, tape: &Tape) -> u64 {
    let first = tape.len().saturating_sub(back);
    let end = tape.len().saturating_sub(keep);
    let mut bytes: u64 = 0;
    for place in first..end {
        if let Some(item) = tape.item(place) {
            bytes = bytes.saturating_add(item.text.as_bytes().len() as u64);
        }
    }
    bytes
}

// An item as a note.
#[inline(always)] // once for each observer of an emission
fn note_of(item: Option<Item>) -> Option<Note>
    ensures { option_to_list result ≡ map Next (option_to_list item) }
{
    match item {
        Some(item) => Some(Note::Next(item)),
        None => None,
    }
}

// Offers an item that fits to a queue of its own, which was given already if it is owed; else the queue takes the copy, if it
// keeps one.
fn pass_own(lane: &mut Lane, copy: Option<Item>)
    requires room { (count : ℕ) → HasRoomFor lane.old count }
    requires fits { overflows_at (Own lane.old) ≡ false }
    ensures serves { (item : Item) → HoldsCopy item copy (Own lane.old)
        → Serves lane.old.state lane.new.state (Offered item ∷ []) (given_now (Own lane.old) item) }
    ensures room { (count : ℕ) → HasRoomFor lane.new count }
{
    if lane.is_ended() {
        return;
    }
    if lane.owed() > 0 {
        lane.pass();
    } else if let Some(item) = copy {
        let _ = lane.offer(item);
    }
}

// An item, if there is one, and copies of the last `back` items of the tape.
fn last_copies(
    alloc: Heap,
    lead: Option<Item>,
    back: usize,
    tape: &Tape,
) -> Result<Vec<Item, Heap>, Memory>
    requires { back ≤ length tape.now.items }
    ensures { IfOk result (λ items. items.items ≡ waits lead tape.now.items back) }
{
    let first = tape.len() - back;
    let mut items = listed(alloc, lead)?;
    for place in 0..back {
        let Some(item) = tape.item(first + place) else {
            unreachable!()
        };
        items.push(item.copy()?)?;
    }
    Ok(items)
}

// A list of one item, or of none.
fn listed(alloc: Heap, item: Option<Item>) -> Result<Vec<Item, Heap>, Memory>
    ensures { IfOk result (λ items. items.items ≡ option_to_list item) }
{
    let mut items = Vec::new(alloc);
    if let Some(item) = item {
        items.push(item)?;
    }
    Ok(items)
}

// Offers several items, and puts at the end of `outs` what is given at once.
fn offer_all(who: u32, lane: &mut Lane, items: Vec<Item, Heap>, outs: &mut Vec<Given, Heap>)
    requires lane_room { (count : ℕ) → HasRoomFor lane.old count }
    requires outs_room { vec_len outs.old + vec_len items ≤ vec_capacity outs.old }
    ensures serves { (notes : List Note) × (outs.new.items ≡ outs.old.items ++ addressed who notes) × Serves lane.old.state lane.new.state (map Offered items.items) notes }
    ensures room { (count : ℕ) → HasRoomFor lane.new count }
    ensures len { vec_len outs.new ≤ vec_len outs.old + vec_len items }
    ensures capacity { vec_capacity outs.new ≡ vec_capacity outs.old }
{
    for item in items {
        let came = offer_own(lane, item);
        put(who, came, outs);
    }
}
