ghost use Rattle.std.specs.Prelude.{◌≡◌, ◌+◌, ◌-◌, ◌<◌, ◌≤◌, ◌^◌, ◌++◌, [], None, map, take, drop, length, min, slice_get, option_copied, option_to_list, IfOk, OnOk, OnErr, vec_len, vec_capacity};
ghost use Rattle.rx_note.specs.declared.note.Note.TheVariants.{Next};
ghost use Rattle.rx_tape.specs.Tapes.{last_items, waits, with_fewer, HavePassed, Spares};
ghost use Rattle.rx_lane.specs.Lanes.{addressed};
ghost use Rattle.rx_lane.specs.TapeLanes.{StandsBack, StandsWhereSome, IsShared, within_room};

use rx_heap::{Heap, Memory};
use rx_note::{Given, Item, Note, Strategy};
use rx_tape::Tape;

// From so many items on, a request that takes them off the tape gives memory back half-way.
const MANY: usize = 4096;

/// What waits for an observer whose items stand on a tape: an item of its own in front, and the last `back` items of the
/// tape, at which its cursor stands.
#[derive(Drop)]
pub(crate) struct Waiting {
    pub(crate) cursor: u32,
    pub(crate) lead: Option<Item>,
    pub(crate) back: usize,
    ghost fits: { back < 2 ^ 63 },
}

impl Waiting {
    /// How many items wait.
    pub(crate) fn len(&self) -> usize
        ensures { result ≡ length (option_to_list self.now.lead) + self.now.back }
    {
        match self.lead {
            Some(_) => self.back + 1,
            None => self.back,
        }
    }

    // The item of this place, from the one that has waited longest on.
    fn at<'a>(&'a self, place: usize, tape: &'a Tape) -> Option<&'a Item>
        requires { StandsWhereSome tape.now self.now.cursor self.now.back }
        ensures { place < length (option_to_list self.now.lead) + self.now.back
            → option_copied result ≡ slice_get (waits self.now.lead tape.now.items self.now.back) place }
    {
        match &self.lead {
            Some(item) if place == 0 => Some(item),
            Some(_) => tape.read_ahead(self.cursor, place - 1),
            None => tape.read_ahead(self.cursor, place),
        }
    }

    /// Puts copies of the first `count` items at the end of `outs`, which has room for them. On `Memory` some of them may
    /// have been put.
    pub(crate) fn copy_out(
        &self,
        count: usize,
        tape: &Tape,
        outs: &mut Vec<Note, Heap>,
    ) -> Result<(), Memory>
        requires there { count ≤ length (option_to_list self.now.lead) + self.now.back }
        requires stands { StandsWhereSome tape.now self.now.cursor self.now.back }
        requires room { vec_len outs.old + count ≤ vec_capacity outs.old }
        ensures ok { OnOk result (outs.new.items ≡ outs.old.items ++ map Next (take count (waits self.now.lead tape.now.items self.now.back))) }
        ensures front { take (vec_len outs.old) outs.new.items ≡ outs.old.items }
        ensures capacity { vec_capacity outs.new ≡ vec_capacity outs.old }
    {
        for place in 0..count {
            let Some(item) = self.at(place, tape) else {
                unreachable!()
            };
            outs.push_reserved(Note::Next(item.copy()?));
        }
        Ok(())
    }

    /// Puts copies of the first `count` items, addressed to an observer, at the end of `outs`, which has room for them. On
    /// `Memory` some of them may have been put.
    #[inline(always)] // on the path of every request
    pub(crate) fn copy_to(
        &self,
        who: u32,
        count: usize,
        tape: &Tape,
        outs: &mut Vec<Given, Heap>,
    ) -> Result<(), Memory>
        requires there { count ≤ length (option_to_list self.now.lead) + self.now.back }
        requires stands { StandsWhereSome tape.now self.now.cursor self.now.back }
        requires room { vec_len outs.old + count ≤ vec_capacity outs.old }
        ensures ok { OnOk result (outs.new.items ≡ outs.old.items ++ addressed who (map Next (take count (waits self.now.lead tape.now.items self.now.back)))) }
        ensures front { take (vec_len outs.old) outs.new.items ≡ outs.old.items }
        ensures capacity { vec_capacity outs.new ≡ vec_capacity outs.old }
    {
        let more = copy_lead(who, count, &self.lead, outs)?;
        copy_items(who, more, self.back, tape, outs)
    }

    /// Passes the first `count` items.
    #[inline(always)] // once for each observer of an emission
    pub(crate) fn skip(&mut self, count: usize, tape: &mut Tape)
        requires there { count ≤ length (option_to_list self.old.lead) + self.old.back }
        requires stands { StandsWhereSome tape.old self.old.cursor self.old.back }
        ensures waits { waits self.new.lead tape.new.items self.new.back ≡ drop count (waits self.old.lead tape.old.items self.old.back) }
        ensures stands_back { StandsBack tape.old self.old.cursor self.old.back → StandsBack tape.new self.new.cursor self.new.back }
        ensures back { self.new.back ≡ self.old.back - (count - length (option_to_list self.old.lead)) }
        ensures cursor { self.new.cursor ≡ self.old.cursor }
        ensures spares { Spares tape.old tape.new self.old.cursor }
    {
        let more = self.skip_lead(count);
        self.back -= more;
        tape.advance_by(self.cursor, more);
    }

    // Passes the item in front, if there is one, and says how many others are then to be passed.
    #[inline(always)] // once for each observer of an emission
    fn skip_lead(&mut self, count: usize) -> usize
        ensures more { result ≡ count - length (option_to_list self.old.lead) }
        ensures lead { option_to_list self.new.lead ≡ drop count (option_to_list self.old.lead) }
        ensures rest { (self.new.cursor ≡ self.old.cursor) × (self.new.back ≡ self.old.back) }
    {
        if self.lead.is_some() {
            self.drop_lead(count)
        } else {
            count
        }
    }

    #[cold]
    fn drop_lead(&mut self, count: usize) -> usize
        ensures more { result ≡ count - length (option_to_list self.old.lead) }
        ensures lead { option_to_list self.new.lead ≡ drop count (option_to_list self.old.lead) }
        ensures rest { (self.new.cursor ≡ self.old.cursor) × (self.new.back ≡ self.old.back) }
    {
        if count > 0 && self.lead.take().is_some() {
            count - 1
        } else {
            count
        }
    }

    /// Loses what the strategy has no room for.
    pub(crate) fn make_room(&mut self, strategy: Strategy, tape: &mut Tape)
        requires shared { IsShared strategy }
        requires stands { StandsBack tape.old self.old.cursor self.old.back }
        ensures waits { waits self.new.lead tape.new.items self.new.back ≡ within_room strategy (waits self.old.lead tape.old.items self.old.back) }
        ensures stands_back { StandsBack tape.new self.new.cursor self.new.back }
        ensures cursor { self.new.cursor ≡ self.old.cursor }
        ensures spares { Spares tape.old tape.new self.old.cursor }
    {
        if let Strategy::Latest(room) = strategy {
            self.skip(self.len().saturating_sub(room as usize), tape);
        }
    }

    /// Lets all go that waits. The cursor stays.
    pub(crate) fn clear(&mut self)
        ensures lead { self.new.lead ≡ None }
        ensures back { self.new.back ≡ 0 }
        ensures cursor { self.new.cursor ≡ self.old.cursor }
    {
        self.lead = None;
        self.back = 0;
    }
}

/// Puts a copy of the item in front, if there is one, at the end of `outs`, for an observer, and says how many others are
/// then to be given.
#[inline(always)] // on the path of every request
pub(crate) fn copy_lead(
    who: u32,
    count: usize,
    lead: &Option<Item>,
    outs: &mut Vec<Given, Heap>,
) -> Result<usize, Memory>
    requires { vec_len outs.old + count ≤ vec_capacity outs.old }
    ensures more { IfOk result (λ more. more ≡ count - length (option_to_list lead.now)) }
    ensures ok { OnOk result (outs.new.items ≡ outs.old.items ++ addressed who (map Next (take count (option_to_list lead.now)))) }
    ensures err { OnErr result (outs.new.items ≡ outs.old.items) }
    ensures capacity { vec_capacity outs.new ≡ vec_capacity outs.old }
{
    match lead {
        Some(item) if count > 0 => {
            let note = Note::Next(item.copy()?);
            outs.push_reserved(Given { who, note });
            Ok(count - 1)
        }
        _ => Ok(count),
    }
}

// Puts copies of the first `count` of the last `back` items of a tape at the end of `outs`, for an observer. On `Memory`
// some of them may have been put.
#[inline(always)] // on the path of every request
fn copy_items(
    who: u32,
    count: usize,
    back: usize,
    tape: &Tape,
    outs: &mut Vec<Given, Heap>,
) -> Result<(), Memory>
    requires there { back ≤ length tape.now.items }
    requires within { count ≤ back }
    requires room { vec_len outs.old + count ≤ vec_capacity outs.old }
    ensures ok { OnOk result (outs.new.items ≡ outs.old.items ++ addressed who (map Next (take count (last_items tape.now.items back)))) }
    ensures front { take (vec_len outs.old) outs.new.items ≡ outs.old.items }
    ensures capacity { vec_capacity outs.new ≡ vec_capacity outs.old }
{
    let first = tape.len() - back;
    for place in 0..count {
        let Some(item) = tape.item(first + place) else {
            unreachable!()
        };
        let note = Note::Next(item.copy()?);
        outs.push_reserved(Given { who, note });
    }
    Ok(())
}

/// Takes the first `count` items off a tape, which every cursor has passed, and puts them at the end of `outs`, which has
/// room for them, for an observer. The tape gives back the memory that it no longer needs, where they are many half-way too.
pub(crate) fn move_passed(who: u32, count: usize, tape: &mut Tape, outs: &mut Vec<Given, Heap>)
    requires there { count ≤ length tape.old.items }
    requires passed { HavePassed tape.old count }
    requires room { vec_len outs.old + count ≤ vec_capacity outs.old }
    ensures put { outs.new.items ≡ outs.old.items ++ addressed who (map Next (take count tape.old.items)) }
    ensures left { tape.new ≡ with_fewer tape.old count }
    ensures capacity { vec_capacity outs.new ≡ vec_capacity outs.old }
{
    let half = count / 2;
    move_first(who, half, tape, outs);
    shrink(half, tape);
    move_first(who, count - half, tape, outs);
    tape.give_back();
}

// Has a tape that lost so many items give back memory, where they were many beside those that are left.
fn shrink(gone: usize, tape: &mut Tape)
    ensures { tape.new ≡ tape.old }
{
    if gone >= MANY && gone >= tape.len() / 2 {
        tape.shrink_to_fit();
    }
}

// The same, with no thought of memory.
fn move_first(who: u32, count: usize, tape: &mut Tape, outs: &mut Vec<Given, Heap>)
    requires there { count ≤ length tape.old.items }
    requires passed { HavePassed tape.old count }
    requires room { vec_len outs.old + count ≤ vec_capacity outs.old }
    ensures put { outs.new.items ≡ outs.old.items ++ addressed who (map Next (take count tape.old.items)) }
    ensures left { tape.new ≡ with_fewer tape.old count }
    ensures capacity { vec_capacity outs.new ≡ vec_capacity outs.old }
{
    for _ in 0..count {
        let note = Note::Next(tape.take_first());
        outs.push_reserved(Given { who, note });
    }
}
