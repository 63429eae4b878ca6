// The error of an overflow is made where the lane is made, and kept until the end: so an offer takes no memory and can't be
// refused, and a join says `Memory` where there was none. (Its text has 8 bytes, which take no memory today; the contract of
// a text allows the refusal all the same.)
//
// `Lane::joined` stands beside `Lane::new`, since an observer may join with a request for 0 items, which `ask` refuses; and
// `waiting_notes` beside `waiting_len`, since a hub counts the terminal too.
ghost use Rattle.std.specs.Prelude.{◌≡◌, ◌≤◌, ◌<◌, ◌+◌, ◌^◌, ◌↔◌, [], ◌++◌, ◌∷◌, true, false, is_some, Some, Ok, Err, None, map, take, drop, length, option_to_list, OnOk, OnErr, IfOk, min, vec_len, vec_capacity};
ghost use Rattle.rx_note.specs.Signals.{Signals, Start, ◌▸◌, Requested, Offered, Ended, terminal_of, goes_ahead, owed, waiting, waiting_items};
ghost use Rattle.rx_note.specs.declared.item.Item.{Item};
ghost use Rattle.rx_note.specs.declared.note.Note.TheVariants.{Next};
ghost use Rattle.rx_note.specs.declared.strategy.Strategy.TheVariants.{Buffer};
ghost use Rattle.rx_lane.specs.Lanes.{StandsFor, loses_next, overflows_next, KeepsOverflow, HasRoomFor, KeepsRoom, Gives, GoesOn, GivesInto, GivesTo, RefusesRequest, addressed, is_over};
ghost use Rattle.rx_lane.specs.Queues.{items_of, overfills, strategy_of, spare_of};

use crate::ask_error::{AskError, owed_with};
use crate::last::{give_last, put_last};
use crate::queue::Queue;
use rx_heap::{Heap, Memory};
use rx_note::{Errors, Given, Item, Note, Policy, Strategy};
use std::marker::Model;

/// The queue of one observer. Contracts see what waits in it and what it owes, and tell by the observer's signals what
/// it gives.
///
/// Demand is that of the Observable Contract (<https://reactivex.io/documentation/contract.html>), strategies are those of
/// the Backpressure operators (<https://reactivex.io/documentation/operators/backpressure.html>); rooms, `Latest` and all
/// refusals are this project's own.
pub struct Lane {
    // It stands first here and in `TapeLane`, so that what asks it of either looks at one place.
    owed: u32,
    errors: Errors,
    queue: Queue,
    last: Option<Note>,
    // Under `Bounded`, before the end, the error by which an overflow would end the lane: so an offer takes no memory.
    overflow: Option<Note>,
    ended: bool,
}

// By hand: rx_heap says why.
impl Drop for Lane {
    fn drop(self) {
        let Lane {
            errors: _,
            queue: _,
            last: _,
            overflow: _,
            ended: _,
            owed: _,
        } = self;
    }
}

impl Model for Lane {
    ghost use Rattle.std.specs.Prelude.{option_to_list};
    ghost use Rattle.rx_lane.specs.Lanes.{LaneView};
    ghost use Rattle.rx_lane.specs.Queues.{items_of, strategy_of, spare_of};

    ghost Value = { LaneView };

    ghost view = { λ l. record {
      state = record {
        policy = record { strategy = strategy_of l.queue; errors = l.errors };
        items = items_of l.queue;
        last = option_to_list l.last;
        ended = l.ended;
        owing = l.owed;
      };
      spare = spare_of l.queue;
    } };

    ghost use Rattle.std.specs.Prelude.{◌≡◌, false, true};
    ghost use Rattle.rx_note.specs.Choices.{is_in_limits};
    ghost use Rattle.rx_lane.specs.Lanes.{KeepsOverflow};

    ghost invariant = { λ l. (l.ended ≡ false → KeepsOverflow (strategy_of l.queue) l.overflow) × (is_in_limits (strategy_of l.queue) ≡ true) };
}

impl Lane {
    /// The lane of an observer with this policy, by no signal yet. Except under `Buffer` all its memory is taken here, for as many
    /// items as the room; `Memory` where there was none.
    pub fn new(alloc: Heap, policy: Policy) -> Result<Lane, Memory>
        ensures { IfOk result (λ lane. StandsFor lane.state (Start policy)) }
    {
        Lane::owing(alloc, policy, 0)
    }

    /// The lane of an observer that joins with this policy and a request of `first` items, 0 allowed. It takes memory as
    /// `new` does.
    pub fn joined(alloc: Heap, policy: Policy, first: u32) -> Result<Lane, Memory>
        ensures { IfOk result (λ lane. StandsFor lane.state (Start policy ▸ Requested first)) }
    {
        Lane::owing(alloc, policy, first)
    }

    // An empty lane that owes so many items.
    fn owing(alloc: Heap, policy: Policy, owed: u32) -> Result<Lane, Memory>
        ensures policy { IfOk result (λ lane. lane.state.policy ≡ policy) }
        ensures rest { IfOk result (λ lane. (lane.state.items ≡ []) × (lane.state.last ≡ []) × (lane.state.ended ≡ false) × (lane.state.owing ≡ owed)) }
    {
        let overflow = overflow_of(alloc.clone()?, policy.strategy())?;
        let queue = Queue::new(alloc, policy.strategy())?;
        Ok(Lane {
            errors: policy.errors(),
            queue,
            last: None,
            overflow,
            ended: false,
            owed,
        })
    }

    /// Makes room for `items` offers; under `Buffer` there always is. `Memory` leaves the lane, and comes only where
    /// there was no such room already.
    pub fn reserve(&mut self, items: usize) -> Result<(), Memory>
        ensures state { self.new.state ≡ self.old.state }
        ensures room { OnOk result (HasRoomFor self.new items) }
        ensures keeps_room { KeepsRoom self.old self.new 0 }
        ensures refused { OnErr result ((self.old.state.policy.strategy ≡ Buffer) × (self.old.spare < items)) }
    {
        self.queue.reserve(items)
    }

    /// Its strategy.
    pub fn strategy(&self) -> Strategy
        ensures { result ≡ self.now.state.policy.strategy }
    {
        self.queue.strategy()
    }

    /// Its error mode.
    pub fn errors(&self) -> Errors
        ensures { result ≡ self.now.state.policy.errors }
    {
        self.errors
    }

    /// How many more items may be given before the observer requests more.
    pub fn owed(&self) -> u32
        ensures state { result ≡ self.now.state.owing }
        ensures owed { (s : Signals) → StandsFor self.now.state s → result ≡ owed s }
    {
        self.owed
    }

    /// How many items wait; except under `Buffer` no more than the room.
    pub fn waiting_len(&self) -> usize
        ensures state { result ≡ length self.now.state.items }
        ensures waiting { (s : Signals) → StandsFor self.now.state s → result ≡ length (waiting_items s) }
        ensures within { result < 2 ^ 63 }
    {
        self.queue.len()
    }

    /// How many notes wait: the items, and the terminal where one waits behind them.
    pub fn waiting_notes(&self) -> usize
        ensures state { result ≡ length self.now.state.items + length self.now.state.last }
        ensures waiting { (s : Signals) → StandsFor self.now.state s → result ≡ length (waiting s) }
    {
        let items = self.waiting_len();
        match self.last {
            Some(_) => items + 1,
            None => items,
        }
    }

    /// How many bytes the texts have that wait, in a step for each. Nothing is promised of it.
    pub fn waiting_bytes(&self) -> u64 {
        self.queue.bytes()
    }

    /// Whether an item that is offered now is lost: by `Drop`, where nothing is owed and the room is full.
    pub fn loses_next(&self) -> bool
        ensures { result ≡ loses_next self.now.state }
    {
        self.owed == 0 && self.queue.is_full()
    }

    /// Whether an item that is offered now overflows and ends the lane: by `Bounded`, where nothing is owed and the room is
    /// full. It is meant before the end.
    pub fn overflows_next(&self) -> bool
        ensures { result ≡ overflows_next self.now.state }
    {
        self.owed == 0 && self.queue.overflows()
    }

    /// Whether it has ended: a terminal waits or was given.
    pub fn is_ended(&self) -> bool
        ensures state { result ≡ self.now.state.ended }
        ensures ended { (s : Signals) → StandsFor self.now.state s → result ≡ is_some (terminal_of s) }
    {
        self.ended
    }

    /// Whether the terminal was given.
    pub fn is_over(&self) -> bool
        ensures { (s : Signals) → StandsFor self.now.state s → result ≡ is_over s }
    {
        self.ended && self.last.is_none()
    }

    /// Adds a request of `n` items, and puts at the end of `outs` what is then given: items from the front, and the
    /// terminal behind the last of them. After the end it still gives what waits. Refused in the order `ZeroRequest`,
    /// `TooMuch`, `Memory`; a refusal leaves the lane and `outs`.
    pub fn ask(&mut self, n: u32, outs: &mut Vec<Note, Heap>) -> Result<(), AskError>
        ensures refuses { RefusesRequest self.old.state.owing n result }
        ensures err { OnErr result ((self.new.state ≡ self.old.state) × (outs.new.items ≡ outs.old.items)) }
        ensures gives { OnOk result (GivesInto self.old.state (Requested n) outs.old.items outs.new.items) }
        ensures stands { OnOk result (GoesOn self.old.state self.new.state (Requested n)) }
        ensures room { KeepsRoom self.old self.new 0 }
        ensures count { length outs.new.items
            ≤ length outs.old.items + min (self.old.state.owing + n) (length self.old.state.items) + 1 }
    {
        let owed = owed_with(self.owed, n)?;
        let waiting = self.waiting_len();
        let given = waiting.min(owed as usize);
        let all = given == waiting;
        let notes = if all { self.waiting_notes() } else { given };
        if outs.reserve(notes).is_err() {
            return Err(AskError::Memory);
        }
        move_items(given, &mut self.queue, outs);
        self.owed = owed - given as u32;
        if all {
            give_last(&mut self.last, outs);
        }
        Ok(())
    }

    /// Adds a request of `n` items as `ask` does, and puts at the end of `outs` what is then given, addressed to the observer of
    /// the number `who`. Refused in the order `ZeroRequest`, `TooMuch`, `Memory`; a refusal leaves the lane and `outs`.
    pub fn ask_for(&mut self, who: u32, n: u32, outs: &mut Vec<Given, Heap>) -> Result<(), AskError>
        ensures refuses { RefusesRequest self.old.state.owing n result }
        ensures err { OnErr result ((self.new.state ≡ self.old.state) × (outs.new.items ≡ outs.old.items)) }
        ensures gives { OnOk result (GivesTo who self.old.state (Requested n) outs.old.items outs.new.items) }
        ensures stands { OnOk result (GoesOn self.old.state self.new.state (Requested n)) }
        ensures room { KeepsRoom self.old self.new 0 }
    {
        let owed = owed_with(self.owed, n)?;
        let waiting = self.waiting_len();
        let given = waiting.min(owed as usize);
        let all = given == waiting;
        let notes = if all { self.waiting_notes() } else { given };
        if outs.reserve(notes).is_err() {
            return Err(AskError::Memory);
        }
        move_items_to(who, given, &mut self.queue, outs);
        self.owed = owed - given as u32;
        if all {
            put_last(who, self.last.take(), outs);
        }
        Ok(())
    }

    /// Offers an item, which comes back as a note where it is given at once; else it waits, or it or the oldest that waits is
    /// lost, by the strategy. Where it overflows, the lane ends by the error `OVERFLOW`, which comes back where it is given at
    /// once, and the item is let go. It takes no memory: room for it was reserved.
    #[inline(always)] // once for each observer of an emission
    pub fn offer(&mut self, item: Item) -> Option<Note>
        requires room { HasRoomFor self.old 1 }
        requires open { self.old.state.ended ≡ false }
        ensures gives { Gives self.old.state (Offered item) (option_to_list result) }
        ensures stands { GoesOn self.old.state self.new.state (Offered item) }
        ensures room { KeepsRoom self.old self.new 1 }
    {
        if self.owed > 0 {
            self.pass();
            return Some(Note::Next(item));
        }
        if self.queue.overflows() {
            return self.overflow();
        }
        self.queue.push(item);
        None
    }

    // Ends by an overflow.
    fn overflow(&mut self) -> Option<Note>
        requires open { self.old.state.ended ≡ false }
        requires none_owed { self.old.state.owing ≡ 0 }
        requires full { overfills self.old.state.policy.strategy (length self.old.state.items) ≡ true }
        ensures gives { (item : Item) → Gives self.old.state (Offered item) (option_to_list result) }
        ensures stands { (item : Item) → GoesOn self.old.state self.new.state (Offered item) }
        ensures room { KeepsRoom self.old self.new 0 }
    {
        let Some(note) = self.overflow.take() else {
            unreachable!()
        };
        self.ended = true;
        end_queue(self.errors, note, &mut self.queue, &mut self.last)
    }

    /// Passes an item that is owed and that the caller gives: no item need be at hand.
    #[inline(always)] // once for each observer of an emission
    pub fn pass(&mut self)
        requires owed { 0 < self.old.state.owing }
        requires open { self.old.state.ended ≡ false }
        ensures gives { (item : Item) → Gives self.old.state (Offered item) (Next item ∷ []) }
        ensures stands { (item : Item) → GoesOn self.old.state self.new.state (Offered item) }
        ensures room { KeepsRoom self.old self.new 0 }
    {
        self.owed -= 1;
    }

    /// Ends the lane by a terminal, which comes back where it is given at once; else it waits behind the items. An error that
    /// goes ahead of them discards them. It takes no memory.
    pub fn end(&mut self, note: Note) -> Option<Note>
        requires { self.old.state.ended ≡ false }
        ensures gives { Gives self.old.state (Ended note) (option_to_list result) }
        ensures stands { GoesOn self.old.state self.new.state (Ended note) }
        ensures room { KeepsRoom self.old self.new 0 }
    {
        self.ended = true;
        end_queue(self.errors, note, &mut self.queue, &mut self.last)
    }
}

// The error by which an overflow ends a lane, where the strategy has one.
fn overflow_of(alloc: Heap, strategy: Strategy) -> Result<Option<Note>, Memory>
    ensures { IfOk result (λ kept. KeepsOverflow strategy kept) }
{
    match strategy {
        Strategy::Bounded(_) => Ok(Some(Note::overflow(alloc)?)),
        Strategy::Buffer | Strategy::Drop(_) | Strategy::Latest(_) => Ok(None),
    }
}

// Puts a terminal behind the items that wait, and answers it where it is given at once. One that goes ahead discards them.
fn end_queue(errors: Errors, note: Note, queue: &mut Queue, last: &mut Option<Note>) -> Option<Note>
    ensures ahead { goes_ahead errors note ≡ true → (result ≡ Some note) × (items_of queue.new ≡ []) × (last.new ≡ last.old) }
    ensures at_once { goes_ahead errors note ≡ false → length (items_of queue.old) ≡ 0
        → (result ≡ Some note) × (items_of queue.new ≡ items_of queue.old) × (last.new ≡ last.old) }
    ensures behind { goes_ahead errors note ≡ false → 0 < length (items_of queue.old)
        → (result ≡ None) × (items_of queue.new ≡ items_of queue.old) × (last.new ≡ Some note) }
    ensures strategy { strategy_of queue.new ≡ strategy_of queue.old }
    ensures spare { spare_of queue.old ≤ spare_of queue.new }
{
    if errors.goes_ahead(&note) {
        queue.clear();
        return Some(note);
    }
    if queue.len() == 0 {
        return Some(note);
    }
    *last = Some(note);
    None
}

// Moves the front items into `outs`.
fn move_items(count: usize, queue: &mut Queue, outs: &mut Vec<Note, Heap>)
    requires there { count ≤ length (items_of queue.old) }
    requires room { vec_len outs.old + count ≤ vec_capacity outs.old }
    ensures moved { outs.new.items ≡ outs.old.items ++ map Next (take count (items_of queue.old)) }
    ensures left { items_of queue.new ≡ drop count (items_of queue.old) }
    ensures strategy { strategy_of queue.new ≡ strategy_of queue.old }
    ensures spare { spare_of queue.old ≤ spare_of queue.new }
    ensures capacity { vec_capacity outs.new ≡ vec_capacity outs.old }
{
    for _ in 0..count {
        let Some(item) = queue.pop() else {
            unreachable!()
        };
        outs.push_reserved(Note::Next(item));
    }
}

// Moves the front items into `outs`, addressed to an observer.
fn move_items_to(who: u32, count: usize, queue: &mut Queue, outs: &mut Vec<Given, Heap>)
    requires there { count ≤ length (items_of queue.old) }
    requires room { vec_len outs.old + count ≤ vec_capacity outs.old }
    ensures moved { outs.new.items ≡ outs.old.items ++ addressed who (map Next (take count (items_of queue.old))) }
    ensures left { items_of queue.new ≡ drop count (items_of queue.old) }
    ensures strategy { strategy_of queue.new ≡ strategy_of queue.old }
    ensures spare { spare_of queue.old ≤ spare_of queue.new }
    ensures len { vec_len outs.new ≡ vec_len outs.old + count }
    ensures capacity { vec_capacity outs.new ≡ vec_capacity outs.old }
{
    for _ in 0..count {
        let Some(item) = queue.pop() else {
            unreachable!()
        };
        let note = Note::Next(item);
        outs.push_reserved(Given { who, note });
    }
}
