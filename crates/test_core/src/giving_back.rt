//! What a hub takes of a budget and gives back: what a burst needed once that has drained, the text of an emission that was
//! refused, and all of it when the hub goes; and that an item which is kept back takes no room.

use crate::expectations::{expect_answer, expect_count, expect_that};
use crate::heaps::{copy, unlimited};
use rx_heap::Heap;
use rx_hub::Hub;
use rx_note::{Answer, Event, Given, Kind, Limits, Note, Refusal, Strategy};
use std::process::Abort;
use std::test::Fail;
use test_kit::{policy_of, text_of};

// The bytes of the texts, of which some stand in their items and some in blocks of each size.
const TEXTS: [usize; 6] = [1, 30, 60, 200, 400, 1000];

/// A hub, the memory that its texts take, and what it gave in its last step.
struct Charged {
    hub: Hub,
    texts: Heap,
    outs: Vec<Given, Heap>,
}

// By hand: rx_heap says why.
impl Drop for Charged {
    fn drop(self) {
        let Charged {
            hub: _,
            texts: _,
            outs: _,
        } = self;
    }
}

impl Charged {
    fn new(rt: &impl Abort, kind: Kind, heap: &Heap, texts: &Heap, free: &Heap) -> Charged {
        let limits = Limits {
            observers: 2,
            joins: 2,
            items: u32::MAX,
        };
        let hub = Hub::new(copy(rt, heap), kind, limits).expect(rt, "a hub");
        Charged {
            hub,
            texts: copy(rt, texts),
            outs: Vec::new(copy(rt, free)),
        }
    }

    fn step(&mut self, event: Event) -> Result<Answer, Refusal> {
        self.outs.clear();
        let answered = self.hub.step(0, event, &mut self.outs);
        self.outs.clear();
        answered
    }

    fn join(&mut self, rt: &impl Abort, strategy: Strategy) -> Result<Answer, Refusal> {
        let policy = policy_of(strategy).expect(rt, "a policy");
        self.step(Event::Join {
            policy,
            first: 0,
            at: 0,
        })
    }

    // An item of so many bytes is emitted at a moment.
    fn emit(&mut self, rt: &impl Abort, bytes: usize, at: u64) -> Result<Answer, Refusal> {
        let letters = [b'a'; 1024];
        let text = text_of(&self.texts, &letters[..bytes.min(letters.len())]);
        self.step(Event::item(text.expect(rt, "a text"), at))
    }
}

fn kind_at(place: u32) -> Kind {
    match place {
        0 => Kind::Publish,
        1 => Kind::Behavior(None),
        2 => Kind::Replay {
            count: Some(3),
            age: None,
        },
        _ => Kind::Replay {
            count: None,
            age: Some(3),
        },
    }
}

// The bytes that a hub holds, its texts among them, once so many items were emitted, one in each millisecond, and all that
// waited was given.
fn held_after(
    rt: &impl Abort,
    free: &Heap,
    heap: &Heap,
    (kind, observers, bytes): (u32, u32, usize),
    items: u32,
) -> u64 {
    let mut charged = Charged::new(rt, kind_at(kind), heap, heap, free);
    for who in 0..observers {
        let answered = charged.join(rt, Strategy::Buffer);
        expect_answer(rt, answered, Ok(Answer::Joined(who)));
    }
    for at in 0..items {
        let answered = charged.emit(rt, bytes, u64::from(at));
        expect_answer(rt, answered, Ok(Answer::Admitted));
    }
    for who in 0..observers {
        let answered = charged.step(Event::Request { who, n: items });
        expect_answer(rt, answered, Ok(Answer::Asked));
    }
    heap.used()
}

// A long burst leaves what a short one does.
fn expect_drained(rt: &impl Abort, free: &Heap, heap: &Heap, row: (u32, u32, usize)) {
    let short = held_after(rt, free, heap, row, 300);
    expect_count(rt, heap.used(), 0, "bytes that a hub keeps when it goes");
    let long = held_after(rt, free, heap, row, 3_000);
    expect_count(rt, long, short, "bytes that a long burst leaves");
    expect_count(rt, heap.used(), 0, "bytes that a hub keeps when it goes");
}

#[test]
fn what_a_burst_needed_goes_back(rt: HostRuntime) -> Result<(), Fail> {
    let heap = Heap::with_budget(rt.alloc(), u64::MAX)?;
    for kind in 0..4 {
        for observers in 1..3 {
            for bytes in TEXTS {
                expect_drained(&rt, &unlimited(&rt), &heap, (kind, observers, bytes));
            }
        }
    }
    Ok(())
}

// Emits until want of memory, which is to come within so many items. The refused text is given back at once.
fn expect_let_go(rt: &impl Abort, charged: &mut Charged, bytes: usize, most: u32) {
    for _ in 0..most {
        let before = charged.texts.used();
        if charged.emit(rt, bytes, 0) == Err(Refusal::Memory) {
            let after = charged.texts.used();
            return expect_count(rt, after, before, "bytes of a text that was refused");
        }
    }
    expect_that(rt, false, "an emission is refused");
}

// Observer 0 keeps copies of its own in a room of 1,024, and the tape of observer 1 is what finds no memory.
fn refuse_one(
    rt: &impl Abort,
    free: &Heap,
    (heap, texts): (&Heap, &Heap),
    strategy: Strategy,
    bytes: usize,
) {
    let mut charged = Charged::new(rt, Kind::Publish, heap, texts, free);
    expect_answer(rt, charged.join(rt, strategy), Ok(Answer::Joined(0)));
    expect_answer(
        rt,
        charged.join(rt, Strategy::Buffer),
        Ok(Answer::Joined(1)),
    );
    expect_let_go(rt, &mut charged, bytes, 1_000);
}

#[test]
fn a_refused_emission_leaves_nothing(rt: HostRuntime) -> Result<(), Fail> {
    let heap = Heap::with_budget(rt.alloc(), 53_000)?;
    let texts = Heap::with_budget(rt.alloc(), u64::MAX)?;
    for bytes in TEXTS {
        for strategy in [Strategy::Drop(1024), Strategy::Bounded(1024)] {
            refuse_one(&rt, &unlimited(&rt), (&heap, &texts), strategy, bytes);
        }
    }
    Ok(())
}

// An item is four words, so a room of 1,024 takes 32,768 bytes.
#[test]
fn a_room_is_charged_to_its_hub(rt: HostRuntime) -> Result<(), Fail> {
    let free = unlimited(&rt);
    for strategy in [Strategy::Drop(1024), Strategy::Bounded(1024)] {
        let heap = Heap::with_budget(rt.alloc(), 32_767)?;
        let mut charged = Charged::new(&rt, Kind::Publish, &heap, &free, &free);
        let answered = charged.join(&rt, strategy);
        expect_answer(&rt, answered, Err(Refusal::Memory));
    }
    Ok(())
}

// A Replay of all items has four words of each on its tape and one for its stamp. Room for either doubles, and all else that a
// hub holds is less than 1,000 bytes.
fn expect_kept(rt: &impl Abort, free: &Heap, heap: &Heap, items: u32, room: u64) {
    let kind = Kind::Replay {
        count: None,
        age: None,
    };
    let mut charged = Charged::new(rt, kind, heap, free, free);
    for at in 0..items {
        let answered = charged.emit(rt, 1, u64::from(at));
        expect_answer(rt, answered, Ok(Answer::Admitted));
    }
    let most = room.saturating_mul(40).saturating_add(1_000);
    expect_that(rt, heap.used() < most, "bytes of a Replay");
}

#[test]
fn a_replay_keeps_an_item_and_a_stamp(rt: HostRuntime) -> Result<(), Fail> {
    let heap = Heap::with_budget(rt.alloc(), 1 << 20)?;
    for (items, room) in [(10, 16), (1_000, 1_024)] {
        expect_kept(&rt, &unlimited(&rt), &heap, items, room);
    }
    Ok(())
}

// An item of Async is offered to nobody before the completion, which does need room for what it gives.
#[test]
fn an_item_kept_back_takes_no_room(rt: HostRuntime) -> Result<(), Fail> {
    let free = unlimited(&rt);
    let none = Heap::with_budget(rt.alloc(), 0)?;
    let mut charged = Charged::new(&rt, Kind::Async, &free, &free, &free);
    for who in 0..2 {
        let answered = charged.join(&rt, Strategy::Buffer);
        expect_answer(&rt, answered, Ok(Answer::Joined(who)));
    }
    charged.outs = Vec::new(copy(&rt, &none));
    for at in 0..3 {
        let answered = charged.emit(&rt, 1, at);
        expect_answer(&rt, answered, Ok(Answer::Admitted));
    }
    let end = Event::Emit {
        note: Note::Completed,
        at: 3,
    };
    expect_answer(&rt, charged.step(end), Err(Refusal::Memory));
    Ok(())
}
