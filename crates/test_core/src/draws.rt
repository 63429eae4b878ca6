//! Events drawn by a fixed rule.

use rx_heap::Heap;
use rx_note::{BadRoom, Errors, Event, Note, Policy, Strategy, Text};
use std::test::Fail;
use test_kit::{item, policy_by};

// The first event that may be an item.
const FIRST_ITEM: u32 = 20;

/// Which events are drawn.
#[derive(Clone, Copy)]
pub(crate) struct Plan {
    /// How many.
    pub(crate) events: u32,
    /// The strategy and the error mode of each join, whatever was drawn for it. None leaves what was drawn.
    pub(crate) policy: Option<(Strategy, Errors)>,
    /// Whether the end is an error.
    pub(crate) fails: bool,
    /// How many items are accepted at most.
    pub(crate) items: u32,
}

/// Draws events.
#[derive(Drop)]
struct Draw {
    state: u64,
    // The greatest moment so far, in milliseconds.
    moment: u64,
    plan: Plan,
}

impl Draw {
    // The next number below `bound`.
    fn below(&mut self, bound: u64) -> u32 {
        self.state = self
            .state
            .wrapping_mul(6_364_136_223_846_793_005)
            .wrapping_add(1_442_695_040_888_963_407);
        let high = self.state.checked_div(8_589_934_592).unwrap_or(0);
        u32::try_from(high.checked_rem(bound).unwrap_or(0)).unwrap_or(0)
    }

    // The next strategy, with a room of at most 3 items.
    fn strategy(&mut self) -> Strategy {
        let room = u16::try_from(self.below(4)).unwrap_or(0);
        match self.below(4) {
            0 => Strategy::Buffer,
            1 => Strategy::Drop(room),
            2 => Strategy::Latest(room.max(1)),
            _ => Strategy::Bounded(room),
        }
    }

    fn errors(&mut self) -> Errors {
        match self.below(2) {
            0 => Errors::Ahead,
            _ => Errors::Delay,
        }
    }

    fn policy(&mut self) -> Result<Policy, BadRoom> {
        let strategy = self.strategy();
        let errors = self.errors();
        match self.plan.policy {
            Some((strategy, errors)) => policy_by(strategy, errors),
            None => policy_by(strategy, errors),
        }
    }

    // The next moment. One in eight steps back.
    fn at(&mut self) -> u64 {
        if self.below(8) == 0 {
            let back = u64::from(self.below(30));
            return self.moment.saturating_sub(back);
        }
        let step = u64::from(self.below(12));
        self.moment = self.moment.saturating_add(step);
        self.moment
    }

    fn join(&mut self) -> Result<Event, Fail> {
        let policy = self.policy()?;
        let first = self.below(4);
        let at = self.at();
        Ok(Event::Join { policy, first, at })
    }

    fn request(&mut self) -> Event {
        let who = self.below(34);
        let n = self.below(4);
        Event::Request { who, n }
    }

    fn dispose(&mut self) -> Event {
        let who = self.below(34);
        Event::Dispose { who }
    }

    fn end(&mut self, heap: &Heap) -> Result<Event, Fail> {
        let note = if self.plan.fails {
            Note::Failed(Text::new(heap.clone()?, b"x")?)
        } else {
            Note::Completed
        };
        Ok(self.emit(note))
    }

    fn text(&mut self) -> &'static [u8] {
        match self.below(4) {
            0 => b"a".as_slice(),
            1 =>
                b"a text of more than fifty-six bytes, which takes one of the larger blocks".as_slice(),
            2 => b"a text that takes memory".as_slice(),
            _ => b"".as_slice(),
        }
    }

    fn emit(&mut self, note: Note) -> Event {
        let at = self.at();
        Event::Emit { note, at }
    }

    // The event at a place. Joins are drawn more often where there is no item yet, and where there may be the end.
    fn event(&mut self, heap: &Heap, place: u32) -> Result<Event, Fail> {
        let has_items = place >= FIRST_ITEM;
        let may_end = place >= self.plan.events / 4 * 3;
        match self.below(48) {
            0..=2 => self.join(),
            3..=8 if !has_items || may_end => self.join(),
            9 | 10 if may_end => self.end(heap),
            11 => Ok(self.dispose()),
            27..=47 if has_items => {
                let item = item(heap, self.text())?;
                Ok(self.emit(Note::Next(item)))
            }
            _ => Ok(self.request()),
        }
    }
}

/// The events that are drawn, each with the port that it comes by. No item comes among the first 20; the end may come among
/// the last quarter.
pub(crate) fn drawn(heap: &Heap, plan: Plan) -> Result<Vec<(u32, Event), Heap>, Fail> {
    let mut draw = Draw {
        state: 11,
        moment: 0,
        plan,
    };
    let mut events = Vec::new(heap.clone()?);
    for place in 0..plan.events {
        let port = draw.below(3);
        events.push((port, draw.event(heap, place)?))?;
    }
    Ok(events)
}
