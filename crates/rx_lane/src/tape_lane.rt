// A request of a `TapeLane` asks nothing of a cursor where nothing waits on the tape. By `end` an error ahead lets what waits
// go and leaves the cursor where it was; `end_on`, which the hub calls, moves it to the end, so that the tape need not hold
// those items until the observer leaves.
//
// A request on the tape puts its notes where they go, addressed to their observer: `TapeLane::ask_for` makes room once, for
// just what it gives, and copies item after item from the tape. So a request that gives very many notes holds each once, and
// one that gives none takes no memory.
ghost use Rattle.std.specs.Prelude.{ℕ, ◌≡◌, ◌≤◌, ◌<◌, ◌+◌, ◌-◌, [], ◌++◌, ◌∷◌, List, ◌⊎◌, is_some, Ok, Err, None, Some, map, take, length, min, option_to_list, vec_len, vec_capacity, OnOk, OnErr, IfOk};
ghost use Rattle.rx_note.specs.declared.item.Item.{Item};
ghost use Rattle.rx_note.specs.declared.note.Note.TheVariants.{Next};
ghost use Rattle.rx_note.specs.Signals.{Signals, Requested, Offered, Ended, terminal_of, owed};
ghost use Rattle.rx_tape.specs.Tapes.{waits, Spares, MovesOn};
ghost use Rattle.rx_lane.specs.Lanes.{StandsFor, MayBeSent, Gives, GoesOn, GivesInto, GivesTo, RefusesRequest, addressed, is_over};
ghost use Rattle.rx_lane.specs.TapeLanes.{lane_on, StandsBack, StandsWhereSome, IsAlone, IsShared, Offers, Passes};

mod entry;

use crate::ask_error::{AskError, owed_with};
use crate::last::put_last;
use crate::waiting::{Waiting, copy_lead, move_passed};
use rx_heap::{Heap, Memory};
use rx_note::{Errors, Given, Item, Note, Policy, Strategy};
use rx_tape::Tape;
use std::marker::Model;

/// The queue of one observer whose items stand on a tape that it shares with others. Contracts see its cursor and how many
/// of the tape's last items wait, and tell by the observer's signals what it gives: over the items of its tape it is the
/// queue that a [`Lane`](crate::Lane) is.
///
/// Its strategy is `Buffer` or `Latest`. What waits under `Drop` is no end of the tape, so it takes a lane of its own. That
/// items are shared is this project's own; demand and strategies are those of `Lane`.
pub struct TapeLane {
    owed: u32,
    policy: Policy,
    waiting: Waiting,
    last: Option<Note>,
    ended: bool,
}

// By hand: rx_heap says why.
impl Drop for TapeLane {
    fn drop(self) {
        let TapeLane {
            policy: _,
            waiting: _,
            last: _,
            ended: _,
            owed: _,
        } = self;
    }
}

impl Model for TapeLane {
    ghost use Rattle.std.specs.Prelude.{option_to_list};
    ghost use Rattle.rx_lane.specs.TapeLanes.{TapeLaneState, IsShared};

    ghost Value = { TapeLaneState };

    ghost view = { λ l. record {
      policy = l.policy;
      cursor = l.waiting.cursor;
      lead = l.waiting.lead;
      back = l.waiting.back;
      last = option_to_list l.last;
      ended = l.ended;
      owing = l.owed;
    } };

    ghost invariant = { λ l. IsShared l.policy.strategy };
}

impl TapeLane {
    /// Its strategy.
    pub fn strategy(&self) -> Strategy
        ensures { result ≡ self.now.policy.strategy }
    {
        self.policy.strategy()
    }

    /// Its error mode.
    pub fn errors(&self) -> Errors
        ensures { result ≡ self.now.policy.errors }
    {
        self.policy.errors()
    }

    /// How many more items may be given before the observer requests more.
    pub fn owed(&self) -> u32
        ensures state { result ≡ self.now.owing }
        ensures owed { (items : List Item) (s : Signals) → StandsFor (lane_on items self.now) s → result ≡ owed s }
    {
        self.owed
    }

    /// How many items wait; under `Latest` no more than the room.
    pub fn waiting_len(&self) -> usize
        ensures { result ≡ length (option_to_list self.now.lead) + self.now.back }
    {
        self.waiting.len()
    }

    /// How many notes wait: the items, and the terminal where one waits behind them.
    pub fn waiting_notes(&self) -> usize
        ensures { result ≡ length (option_to_list self.now.lead) + self.now.back + length self.now.last }
    {
        let items = self.waiting_len();
        match self.last {
            Some(_) => items + 1,
            None => items,
        }
    }

    /// Whether it has ended: a terminal waits or was given.
    pub fn is_ended(&self) -> bool
        ensures state { result ≡ self.now.ended }
        ensures ended { (items : List Item) (s : Signals) → StandsFor (lane_on items self.now) s → result ≡ is_some (terminal_of s) }
    {
        self.ended
    }

    /// Whether the terminal was given.
    pub fn is_over(&self) -> bool
        ensures { (items : List Item) (s : Signals) → StandsFor (lane_on items self.now) s → result ≡ is_over s }
    {
        self.ended && self.last.is_none()
    }

    /// Adds a request of `n` items, and puts at the end of `outs` copies of the items that are then given, and the terminal
    /// behind the last of them. After the end it still gives what waits. Refused in the order `ZeroRequest`, `TooMuch`,
    /// `Memory`; a refusal leaves the lane, the tape and `outs`.
    pub fn ask(
        &mut self,
        n: u32,
        tape: &mut Tape,
        outs: &mut Vec<Note, Heap>,
    ) -> Result<(), AskError>
        requires { StandsWhereSome tape.old self.old.cursor self.old.back }
        ensures refuses { RefusesRequest self.old.owing n result }
        ensures err { OnErr result ((self.new ≡ self.old) × (tape.new ≡ tape.old) × (outs.new.items ≡ outs.old.items)) }
        ensures gives { OnOk result (GivesInto (lane_on tape.old.items self.old) (Requested n) outs.old.items outs.new.items) }
        ensures stands { OnOk result (GoesOn (lane_on tape.old.items self.old) (lane_on tape.new.items self.new) (Requested n)) }
        ensures count { length outs.new.items
            ≤ length outs.old.items + min (self.old.owing + n) (length (option_to_list self.old.lead) + self.old.back) + 1 }
        ensures stands_back { StandsBack tape.old self.old.cursor self.old.back → StandsBack tape.new self.new.cursor self.new.back }
        ensures stands_where { StandsWhereSome tape.new self.new.cursor self.new.back }
        ensures cursor { self.new.cursor ≡ self.old.cursor }
        ensures spares { Spares tape.old tape.new self.old.cursor }
    {
        let owed = owed_with(self.owed, n)?;
        let items = self.released(owed);
        let before = outs.len();
        let Ok(()) = outs.reserve(self.notes_released(items)) else {
            return Err(AskError::Memory);
        };
        let Ok(()) = self.waiting.copy_out(items, tape, outs) else {
            outs.truncate(before);
            return Err(AskError::Memory);
        };
        if let Some(note) = self.release(items, owed, tape) {
            outs.push_reserved(note);
        }
        Ok(())
    }

    /// Adds a request of `n` items as `ask` does, and puts at the end of `outs` what is then given, addressed to the observer of
    /// the number `who`. Refused in the order `ZeroRequest`, `TooMuch`, `Memory`; a refusal leaves the lane, the tape and `outs`.
    #[inline(always)] // on the path of every request
    pub fn ask_for(
        &mut self,
        who: u32,
        n: u32,
        tape: &mut Tape,
        outs: &mut Vec<Given, Heap>,
    ) -> Result<(), AskError>
        requires { StandsWhereSome tape.old self.old.cursor self.old.back }
        ensures refuses { RefusesRequest self.old.owing n result }
        ensures err { OnErr result ((self.new ≡ self.old) × (tape.new ≡ tape.old) × (outs.new.items ≡ outs.old.items)) }
        ensures gives { OnOk result (GivesTo who (lane_on tape.old.items self.old) (Requested n) outs.old.items outs.new.items) }
        ensures stands { OnOk result (GoesOn (lane_on tape.old.items self.old) (lane_on tape.new.items self.new) (Requested n)) }
        ensures count { length outs.new.items
            ≤ length outs.old.items + min (self.old.owing + n) (length (option_to_list self.old.lead) + self.old.back) + 1 }
        ensures stands_back { StandsBack tape.old self.old.cursor self.old.back → StandsBack tape.new self.new.cursor self.new.back }
        ensures stands_where { StandsWhereSome tape.new self.new.cursor self.new.back }
        ensures cursor { self.new.cursor ≡ self.old.cursor }
        ensures spares { Spares tape.old tape.new self.old.cursor }
    {
        let owed = owed_with(self.owed, n)?;
        let items = self.released(owed);
        let before = outs.len();
        let Ok(()) = outs.reserve(self.notes_released(items)) else {
            return Err(AskError::Memory);
        };
        let Ok(()) = self.waiting.copy_to(who, items, tape, outs) else {
            outs.truncate(before);
            return Err(AskError::Memory);
        };
        let last = self.release(items, owed, tape);
        put_last(who, last, outs);
        Ok(())
    }

    /// Adds a request of `n` items as `ask_for` does, where no other cursor stands on the tape and nobody needs later what is
    /// given now: it may be taken off the tape, and no copy made of it. What is given, the refusals and what they leave are
    /// those of `ask_for`.
    pub fn ask_alone(
        &mut self,
        who: u32,
        n: u32,
        tape: &mut Tape,
        outs: &mut Vec<Given, Heap>,
    ) -> Result<(), AskError>
        requires stands_back { StandsBack tape.old self.old.cursor self.old.back }
        requires alone { IsAlone tape.old self.old.cursor }
        ensures refuses { RefusesRequest self.old.owing n result }
        ensures err { OnErr result ((self.new ≡ self.old) × (tape.new ≡ tape.old) × (outs.new.items ≡ outs.old.items)) }
        ensures gives { OnOk result (GivesTo who (lane_on tape.old.items self.old) (Requested n) outs.old.items outs.new.items) }
        ensures stands { OnOk result (GoesOn (lane_on tape.old.items self.old) (lane_on tape.new.items self.new) (Requested n)) }
        ensures stands_back { StandsBack tape.new self.new.cursor self.new.back }
        ensures alone { IsAlone tape.new self.new.cursor }
        ensures cursor { self.new.cursor ≡ self.old.cursor }
    {
        if self.waiting.back < tape.len() {
            return self.ask_for(who, n, tape, outs);
        }
        let owed = owed_with(self.owed, n)?;
        let items = self.released(owed);
        let Ok(()) = outs.reserve(self.notes_released(items)) else {
            return Err(AskError::Memory);
        };
        let Ok(last) = self.move_out(who, items, owed, tape, outs) else {
            return Err(AskError::Memory);
        };
        put_last(who, last, outs);
        Ok(())
    }

    // Takes the items that are given where so many are owed off a tape on which all wait, and puts them at the end of `outs`,
    // which has room for them. The terminal comes back where it goes behind the last of them. `Memory` leaves all.
    fn move_out(
        &mut self,
        who: u32,
        items: usize,
        owed: u32,
        tape: &mut Tape,
        outs: &mut Vec<Given, Heap>,
    ) -> Result<Option<Note>, Memory>
        requires stands_back { StandsBack tape.old self.old.cursor self.old.back }
        requires alone { IsAlone tape.old self.old.cursor }
        requires wait { self.old.back ≡ length tape.old.items }
        requires items { items ≡ min (length (option_to_list self.old.lead) + self.old.back) owed }
        requires room { vec_len outs.old + items ≤ vec_capacity outs.old }
        ensures err { OnErr result ((self.new ≡ self.old) × (tape.new ≡ tape.old) × (outs.new.items ≡ outs.old.items)) }
        ensures put { OnOk result (outs.new.items ≡ outs.old.items ++ addressed who (map Next (take items (waits self.old.lead tape.old.items self.old.back)))) }
        ensures len { OnOk result (vec_len outs.new ≡ vec_len outs.old + items) }
        ensures capacity { vec_capacity outs.new ≡ vec_capacity outs.old }
        ensures gives { (n : ℕ) → owed ≡ self.old.owing + n
            → IfOk result (λ last. Gives (lane_on tape.old.items self.old) (Requested n) (map Next (take items (waits self.old.lead tape.old.items self.old.back)) ++ option_to_list last)) }
        ensures goes_on { (n : ℕ) → owed ≡ self.old.owing + n
            → OnOk result (GoesOn (lane_on tape.old.items self.old) (lane_on tape.new.items self.new) (Requested n)) }
        ensures all { IfOk result (λ last. option_to_list last ≡ self.old.last ⊎ last ≡ None) }
        ensures part { items < length (option_to_list self.old.lead) + self.old.back → IfOk result (λ last. last ≡ None) }
        ensures stands_back { StandsBack tape.new self.new.cursor self.new.back }
        ensures alone { IsAlone tape.new self.new.cursor }
        ensures cursor { self.new.cursor ≡ self.old.cursor }
    {
        let more = copy_lead(who, items, &self.waiting.lead, outs)?;
        let last = self.release(items, owed, tape);
        move_passed(who, more, tape, outs);
        Ok(last)
    }

    // How many of the items that wait are given where so many are owed.
    fn released(&self, owed: u32) -> usize
        ensures { result ≡ min (length (option_to_list self.now.lead) + self.now.back) owed }
    {
        self.waiting.len().min(owed as usize)
    }

    // How many notes are given with so many items: behind the last of them the terminal, where one waits.
    fn notes_released(&self, items: usize) -> usize
        ensures all { items ≡ length (option_to_list self.now.lead) + self.now.back → result ≡ items + length self.now.last }
        ensures items { items ≤ length (option_to_list self.now.lead) + self.now.back → items ≤ result }
    {
        if items == self.waiting.len() {
            self.waiting_notes()
        } else {
            items
        }
    }

    // Passes the items that are given where so many are owed. The terminal comes back where it goes behind the last of them.
    #[inline(always)] // on the path of every request
    fn release(&mut self, items: usize, owed: u32, tape: &mut Tape) -> Option<Note>
        requires stands { StandsWhereSome tape.old self.old.cursor self.old.back }
        requires items { items ≡ min (length (option_to_list self.old.lead) + self.old.back) owed }
        ensures gives { (n : ℕ) → owed ≡ self.old.owing + n
            → Gives (lane_on tape.old.items self.old) (Requested n) (map Next (take items (waits self.old.lead tape.old.items self.old.back)) ++ option_to_list result) }
        ensures goes_on { (n : ℕ) → owed ≡ self.old.owing + n
            → GoesOn (lane_on tape.old.items self.old) (lane_on tape.new.items self.new) (Requested n) }
        ensures all { option_to_list result ≡ self.old.last ⊎ result ≡ None }
        ensures part { items < length (option_to_list self.old.lead) + self.old.back → result ≡ None }
        ensures back { self.new.back ≡ self.old.back - (items - length (option_to_list self.old.lead)) }
        ensures stands_back { StandsBack tape.old self.old.cursor self.old.back → StandsBack tape.new self.new.cursor self.new.back }
        ensures stands_where { StandsWhereSome tape.new self.new.cursor self.new.back }
        ensures cursor { self.new.cursor ≡ self.old.cursor }
        ensures spares { Spares tape.old tape.new self.old.cursor }
    {
        let all = items == self.waiting.len();
        self.waiting.skip(items, tape);
        self.owed = owed - items as u32;
        if all { self.last.take() } else { None }
    }

    /// Offers the last item of the tape; where it is owed `copy` is that item and comes back, else `copy` is None, the item
    /// waits, and by `Latest` the oldest that waits is lost where the room is full. It takes no memory.
    #[inline(always)] // once for each observer of an emission
    pub fn offer(&mut self, copy: Option<Item>, tape: &mut Tape) -> Option<Item>
        requires open { MayBeSent self.old.policy self.old.ended }
        requires stands { StandsBack tape.old self.old.cursor (self.old.back + 1) }
        ensures offers { Offers tape.old tape.new self.old self.new copy result }
        ensures open { (self.new.policy ≡ self.old.policy) × (self.new.ended ≡ self.old.ended) }
        ensures stands_back { StandsBack tape.new self.new.cursor self.new.back }
        ensures cursor { self.new.cursor ≡ self.old.cursor }
        ensures spares { Spares tape.old tape.new self.old.cursor }
    {
        self.pass(tape);
        copy
    }

    /// Offers the last item of the tape as `offer` does, where the caller has given it already if it is owed.
    #[inline(always)] // once for each observer of an emission
    pub fn pass(&mut self, tape: &mut Tape)
        requires open { MayBeSent self.old.policy self.old.ended }
        requires stands { StandsBack tape.old self.old.cursor (self.old.back + 1) }
        ensures passes { Passes tape.old tape.new self.old self.new }
        ensures open { (self.new.policy ≡ self.old.policy) × (self.new.ended ≡ self.old.ended) }
        ensures stands_back { StandsBack tape.new self.new.cursor self.new.back }
        ensures cursor { self.new.cursor ≡ self.old.cursor }
        ensures spares { Spares tape.old tape.new self.old.cursor }
    {
        let _within = tape.len();
        self.waiting.back += 1;
        if self.owed > 0 {
            self.owed -= 1;
            self.waiting.skip(1, tape);
            return;
        }
        self.waiting.make_room(self.policy.strategy(), tape);
    }

    /// Passes an item that is owed and that the caller gives: it need be neither at hand nor on the tape.
    #[inline(always)] // once for each observer of an emission
    pub fn pass_owed(&mut self)
        requires open { MayBeSent self.old.policy self.old.ended }
        requires owed { 0 < self.old.owing }
        ensures gives { (items : List Item) (item : Item) → Gives (lane_on items self.old) (Offered item) (Next item ∷ []) }
        ensures stands { (items : List Item) (item : Item) → GoesOn (lane_on items self.old) (lane_on items self.new) (Offered item) }
        ensures back { (self.new.back ≡ self.old.back) × (self.new.cursor ≡ self.old.cursor) }
    {
        self.owed -= 1;
    }

    /// Offers an item that isn't on the tape, which comes back where it is given at once; else it waits. It takes no memory. It
    /// is meant where nothing waits.
    pub fn offer_lead(&mut self, item: Item) -> Option<Item>
        requires open { MayBeSent self.old.policy self.old.ended }
        requires none_waits { (self.old.lead ≡ None) × (self.old.back ≡ 0) }
        ensures gives { (items : List Item) → Gives (lane_on items self.old) (Offered item) (map Next (option_to_list result)) }
        ensures stands { (items : List Item) → GoesOn (lane_on items self.old) (lane_on items self.new) (Offered item) }
        ensures back { (self.new.back ≡ 0) × (self.new.cursor ≡ self.old.cursor) }
    {
        if self.owed > 0 {
            self.owed -= 1;
            return Some(item);
        }
        self.waiting.lead = Some(item);
        None
    }

    /// Ends the lane by a terminal, which comes back where it is given at once; else it waits behind the items. An error that
    /// goes ahead of them lets them go. It takes no memory.
    pub fn end(&mut self, note: Note) -> Option<Note>
        requires { MayBeSent self.old.policy self.old.ended }
        ensures gives { (items : List Item) → self.old.back ≤ length items → Gives (lane_on items self.old) (Ended note) (option_to_list result) }
        ensures stands { (items : List Item) → self.old.back ≤ length items → GoesOn (lane_on items self.old) (lane_on items self.new) (Ended note) }
        ensures back { (self.new.back ≡ self.old.back) ⊎ (self.new.back ≡ 0) }
        ensures cursor { self.new.cursor ≡ self.old.cursor }
    {
        self.ended = true;
        if self.policy.errors().goes_ahead(&note) {
            self.waiting.clear();
            return Some(note);
        }
        if self.waiting.len() == 0 {
            return Some(note);
        }
        self.last = Some(note);
        None
    }

    /// Ends the lane as `end` does, and moves its cursor past what waits no more.
    pub fn end_on(&mut self, note: Note, tape: &mut Tape) -> Option<Note>
        requires open { MayBeSent self.old.policy self.old.ended }
        requires stands { StandsBack tape.old self.old.cursor self.old.back }
        ensures gives { Gives (lane_on tape.old.items self.old) (Ended note) (option_to_list result) }
        ensures stands { GoesOn (lane_on tape.old.items self.old) (lane_on tape.new.items self.new) (Ended note) }
        ensures stands_back { StandsBack tape.new self.new.cursor self.new.back }
        ensures cursor { self.new.cursor ≡ self.old.cursor }
        ensures spares { Spares tape.old tape.new self.old.cursor }
    {
        let waited = self.waiting.back;
        let given = self.end(note);
        let gone = waited - self.waiting.back;
        tape.advance_by(self.waiting.cursor, gone);
        given
    }

    /// Lets the lane go with what waits, and releases its cursor.
    pub fn close(self, tape: &mut Tape)
        ensures { MovesOn tape.old tape.new self.cursor None }
    {
        tape.release(self.waiting.cursor);
    }
}
