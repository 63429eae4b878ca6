// How a lane on a tape begins: with a cursor so far back, a lead, and a first request, of which what is owed is given at once.
ghost use Rattle.std.specs.Prelude.{◌≡◌, ◌≤◌, ◌+◌, ◌++◌, false, None, map, take, length, min, option_to_list, vec_len, vec_capacity, OnOk, OnErr, IfOk};
ghost use Rattle.rx_note.specs.declared.note.Note.TheVariants.{Next};
ghost use Rattle.rx_tape.specs.Tapes.{waits, place_of, Spares};
ghost use Rattle.rx_lane.specs.Lanes.{addressed};
ghost use Rattle.rx_lane.specs.TapeLanes.{lane_on, StandsBack, StandsWhereSome, IsShared, HoldsSame, Begins, BeginsInto, BeginsTo};

use crate::joiner::Joiner;
use crate::tape_lane::TapeLane;
use crate::waiting::Waiting;
use rx_heap::{Heap, Memory};
use rx_note::{Given, Item, Note, Policy};
use rx_tape::Tape;

impl TapeLane {
    /// The lane of an observer that joins with this policy and a request of `first` items, 0 allowed, and is then offered
    /// `lead`, if there is one, and the last `back` items of the tape. What it gives at once is put at the end of `outs`.
    /// `Memory` leaves the tape and `outs`.
    pub fn new(
        policy: Policy,
        first: u32,
        lead: Option<Item>,
        back: usize,
        tape: &mut Tape,
        outs: &mut Vec<Note, Heap>,
    ) -> Result<TapeLane, Memory>
        requires shared { IsShared policy.strategy }
        requires there { back ≤ length tape.old.items }
        ensures err { OnErr result (HoldsSame tape.old tape.new × (outs.new.items ≡ outs.old.items)) }
        ensures begins { IfOk result (λ lane. BeginsInto (lane_on tape.new.items lane) policy first (waits lead tape.old.items back) outs.old.items outs.new.items) }
        ensures policy { IfOk result (λ lane. (lane.policy ≡ policy) × (lane.ended ≡ false)) }
        ensures stands_back { IfOk result (λ lane. StandsBack tape.new lane.cursor lane.back) }
        ensures fresh { IfOk result (λ lane. place_of tape.old.places lane.cursor ≡ None) }
        ensures spares { IfOk result (λ lane. Spares tape.old tape.new lane.cursor) }
        ensures count { length outs.new.items ≤ length outs.old.items + length (option_to_list lead) + back }
    {
        let _within = tape.len();
        let cursor = tape.cursor(back)?;
        let waiting = Waiting { cursor, lead, back };
        let given = waiting.len().min(first as usize);
        let before = outs.len();
        let Ok(()) = copy_into(&waiting, given, tape, outs) else {
            outs.truncate(before);
            tape.release(cursor);
            return Err(Memory);
        };
        Ok(TapeLane::opened(policy, first, waiting, given, tape))
    }

    /// The lane of an observer that joins, as `new` makes it. What it gives at once is put at the end of `outs`, addressed to the
    /// observer. `Memory` leaves the tape and `outs`.
    pub fn open_for(
        joiner: Joiner,
        lead: Option<Item>,
        back: usize,
        tape: &mut Tape,
        outs: &mut Vec<Given, Heap>,
    ) -> Result<TapeLane, Memory>
        requires shared { IsShared joiner.policy.strategy }
        requires there { back ≤ length tape.old.items }
        ensures err { OnErr result (HoldsSame tape.old tape.new × (outs.new.items ≡ outs.old.items)) }
        ensures begins { IfOk result (λ lane. BeginsTo (lane_on tape.new.items lane) joiner (waits lead tape.old.items back) outs.old.items outs.new.items) }
        ensures policy { IfOk result (λ lane. (lane.policy ≡ joiner.policy) × (lane.ended ≡ false)) }
        ensures stands_back { IfOk result (λ lane. StandsBack tape.new lane.cursor lane.back) }
        ensures fresh { IfOk result (λ lane. place_of tape.old.places lane.cursor ≡ None) }
        ensures spares { IfOk result (λ lane. Spares tape.old tape.new lane.cursor) }
        ensures count { length outs.new.items ≤ length outs.old.items + length (option_to_list lead) + back }
        ensures capacity { vec_capacity outs.old ≤ vec_capacity outs.new }
    {
        let Joiner { who, policy, first } = joiner;
        let _within = tape.len();
        let cursor = tape.cursor(back)?;
        let waiting = Waiting { cursor, lead, back };
        let given = waiting.len().min(first as usize);
        let before = outs.len();
        let Ok(()) = copy_for(who, &waiting, given, tape, outs) else {
            outs.truncate(before);
            tape.release(cursor);
            return Err(Memory);
        };
        Ok(TapeLane::opened(policy, first, waiting, given, tape))
    }

    // The lane of an observer that joined and was given so many of the items that it was offered.
    fn opened(
        policy: Policy,
        first: u32,
        mut waiting: Waiting,
        given: usize,
        tape: &mut Tape,
    ) -> TapeLane
        requires shared { IsShared policy.strategy }
        requires stands { StandsBack tape.old waiting.cursor waiting.back }
        requires given { given ≡ min (length (option_to_list waiting.lead) + waiting.back) first }
        ensures begins { Begins (lane_on tape.new.items result) policy first (waits waiting.lead tape.old.items waiting.back)
            (map Next (take given (waits waiting.lead tape.old.items waiting.back))) }
        ensures policy { (result.policy ≡ policy) × (result.ended ≡ false) }
        ensures stands_back { StandsBack tape.new result.cursor result.back }
        ensures cursor { result.cursor ≡ waiting.cursor }
        ensures spares { Spares tape.old tape.new waiting.cursor }
    {
        waiting.skip(given, tape);
        waiting.make_room(policy.strategy(), tape);
        TapeLane {
            policy,
            waiting,
            last: None,
            ended: false,
            owed: first - given as u32,
        }
    }
}

// Room for the first `count` items that wait, and copies of them at the end of `outs`. On `Memory` some may have been put.
fn copy_into(
    waiting: &Waiting,
    count: usize,
    tape: &Tape,
    outs: &mut Vec<Note, Heap>,
) -> Result<(), Memory>
    requires there { count ≤ length (option_to_list waiting.now.lead) + waiting.now.back }
    requires stands { StandsWhereSome tape.now waiting.now.cursor waiting.now.back }
    ensures ok { OnOk result (outs.new.items ≡ outs.old.items ++ map Next (take count (waits waiting.now.lead tape.now.items waiting.now.back))) }
    ensures front { take (vec_len outs.old) outs.new.items ≡ outs.old.items }
{
    outs.reserve(count)?;
    waiting.copy_out(count, tape, outs)
}

// The same, addressed to an observer.
fn copy_for(
    who: u32,
    waiting: &Waiting,
    count: usize,
    tape: &Tape,
    outs: &mut Vec<Given, Heap>,
) -> Result<(), Memory>
    requires there { count ≤ length (option_to_list waiting.now.lead) + waiting.now.back }
    requires stands { StandsWhereSome tape.now waiting.now.cursor waiting.now.back }
    ensures ok { OnOk result (outs.new.items ≡ outs.old.items ++ addressed who (map Next (take count (waits waiting.now.lead tape.now.items waiting.now.back)))) }
    ensures front { take (vec_len outs.old) outs.new.items ≡ outs.old.items }
    ensures capacity { vec_capacity outs.old ≤ vec_capacity outs.new }
{
    outs.reserve(count)?;
    waiting.copy_to(who, count, tape, outs)
}
