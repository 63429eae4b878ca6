//! A hub over a budget of bytes in use, a list of what is given over one, and what a text takes of one.

use crate::expectations::{expect_answer, expect_count, expect_that};
use crate::heaps::{copy, unlimited};
use rx_heap::{Heap, Memory};
use rx_hub::Hub;
use rx_note::{Answer, Event, Given, Kind, Limits, MAX_TEXT, Refusal, Strategy, Text, TextError};
use std::alloc::Global;
use std::process::Abort;
use std::test::Fail;
use test_kit::{policy_of, text_of};

const BUDGET: u64 = 4_096;

// No hub admits as many items within the budget.
const MAX_ITEMS: u32 = 1_000;

/// A hub with one observer or two that grows by a budget, and what it gave. The budget bears what waits; the items that are
/// emitted and the list of what is given are made by `free`.
struct Waiting {
    free: Heap,
    hub: Hub,
    outs: Vec<Given, Heap>,
}

// By hand: rx_heap says why.
impl Drop for Waiting {
    fn drop(self) {
        let Waiting {
            free: _,
            hub: _,
            outs: _,
        } = self;
    }
}

impl Waiting {
    // The hub grows by `tight`, the list of what it gives by `list`.
    fn new(rt: &impl Abort, free: Heap, tight: Heap, list: Heap) -> Waiting {
        let limits = Limits {
            observers: 2,
            joins: 2,
            items: u32::MAX,
        };
        let outs = Vec::new(list);
        let hub = Hub::new(tight, Kind::Publish, limits).expect(rt, "a hub");
        Waiting { free, hub, outs }
    }

    fn step(&mut self, event: Event) -> Result<Answer, Refusal> {
        self.hub.step(0, event, &mut self.outs)
    }

    fn join(&mut self, rt: &impl Abort) -> Result<Answer, Refusal> {
        let policy = policy_of(Strategy::Buffer).expect(rt, "a policy");
        self.step(Event::Join {
            policy,
            first: 0,
            at: 0,
        })
    }

    fn request(&mut self, n: u32) -> Result<Answer, Refusal> {
        self.step(Event::Request { who: 0, n })
    }

    fn emit(&mut self, rt: &impl Abort) -> Result<Answer, Refusal> {
        let text = text_of(&self.free, b"a").expect(rt, "a text");
        self.step(Event::item(text, 0))
    }

    // Emits until want of memory, so many items at most: how many were admitted; none where no emission found that.
    fn fill(&mut self, rt: &impl Abort, most: u32) -> Option<u32> {
        for admitted in 0..most {
            if matches!(self.emit(rt), Err(Refusal::Memory)) {
                return Some(admitted);
            }
        }
        None
    }
}

// Room for items doubles, from four on, and an item takes 32 bytes: beside an observer the budget has room for 64 items, and
// not for 128.
const WITHIN_BUDGET: u32 = 64;

// Fills the budget.
fn fill_first(rt: &impl Abort, waiting: &mut Waiting, tight: &Heap) {
    expect_answer(rt, waiting.join(rt), Ok(Answer::Joined(0)));
    expect_that(
        rt,
        waiting.fill(rt, MAX_ITEMS) == Some(WITHIN_BUDGET),
        "as many items as there is room for",
    );
    expect_answer(rt, waiting.emit(rt), Err(Refusal::Memory));
    expect_count(rt, waiting.hub.misses(), 2, "misses");
    expect_that(rt, tight.used() <= BUDGET, "within the budget");
}

// Requests some of what waits, fills the budget again, and requests all.
fn fill_again(rt: &impl Abort, waiting: &mut Waiting) {
    expect_answer(rt, waiting.request(3), Ok(Answer::Asked));
    expect_that(
        rt,
        waiting.fill(rt, MAX_ITEMS) == Some(3),
        "three items more",
    );
    expect_answer(rt, waiting.request(MAX_ITEMS), Ok(Answer::Asked));
    let given = waiting.outs.len() as u64;
    expect_count(rt, given, u64::from(WITHIN_BUDGET + 3), "given");
    expect_answer(rt, waiting.emit(rt), Ok(Answer::Admitted));
}

fn fill_twice(rt: &impl Abort, free: &Heap, tight: &Heap) {
    let mut waiting = Waiting::new(rt, copy(rt, free), copy(rt, tight), copy(rt, free));
    fill_first(rt, &mut waiting, tight);
    fill_again(rt, &mut waiting);
}

#[test]
fn what_waits_fills_a_budget(rt: HostRuntime) -> Result<(), Fail> {
    let tight = Heap::with_budget(rt.alloc(), BUDGET)?;
    fill_twice(&rt, &unlimited(&rt), &tight);
    expect_count(&rt, tight.used(), 0, "bytes that were not given back");
    Ok(())
}

// The bytes that a list of so many notes takes.
fn bytes_of(alloc: Global, notes: usize) -> Result<u64, Fail> {
    let heap = Heap::with_budget(alloc, u64::MAX)?;
    let _list: Vec<Given, Heap> = Vec::with_capacity(heap.clone()?, notes)?;
    Ok(heap.used())
}

// The first of so many observers requests so many of 1,000 items that wait for each.
fn request_some(rt: &impl Abort, free: &Heap, tight: &Heap, observers: u32, n: u32) {
    let mut waiting = Waiting::new(rt, copy(rt, free), copy(rt, free), copy(rt, tight));
    for who in 0..observers {
        expect_answer(rt, waiting.join(rt), Ok(Answer::Joined(who)));
    }
    expect_that(
        rt,
        waiting.fill(rt, MAX_ITEMS) == None,
        "no emission is refused",
    );
    expect_answer(rt, waiting.request(n), Ok(Answer::Asked));
    expect_count(rt, waiting.outs.len() as u64, u64::from(n), "given");
}

// The list has a few places at the first emission, and gives them back once it has room for the request.
#[test]
fn a_request_holds_each_note_once(rt: HostRuntime) -> Result<(), Fail> {
    for (observers, n) in [(1, 1), (1, MAX_ITEMS), (2, 1), (2, MAX_ITEMS)] {
        let bytes = bytes_of(rt.alloc(), n as usize + 8)?;
        let tight = Heap::with_budget(rt.alloc(), bytes)?;
        request_some(&rt, &unlimited(&rt), &tight, observers, n);
        expect_count(&rt, tight.used(), 0, "bytes that were not given back");
    }
    Ok(())
}

// How often a list grows to which a hub adds so many notes, one an emission.
fn growths_of_a_list(rt: &impl Abort, free: &Heap, list: &Heap, notes: u32) -> u64 {
    let mut waiting = Waiting::new(rt, copy(rt, free), copy(rt, free), copy(rt, list));
    expect_answer(rt, waiting.join(rt), Ok(Answer::Joined(0)));
    expect_answer(rt, waiting.request(notes), Ok(Answer::Asked));
    expect_that(
        rt,
        waiting.fill(rt, notes) == None,
        "no emission is refused",
    );
    expect_count(rt, waiting.outs.len() as u64, u64::from(notes), "given");
    list.asked()
}

// From four notes on its room doubles, and after eight times that it is 1,024.
#[test]
fn a_list_grows_by_doubling(rt: HostRuntime) -> Result<(), Fail> {
    let list = Heap::with_budget(rt.alloc(), u64::MAX)?;
    let growths = growths_of_a_list(&rt, &unlimited(&rt), &list, 1_000);
    expect_that(&rt, growths <= 9, "growths of a list of 1,000 notes");
    expect_count(&rt, list.used(), 0, "bytes that were not given back");
    Ok(())
}

// The bytes that a hub's tape holds before and after its only observer requests all that waits, so many items.
fn held_around_a_request(rt: &impl Abort, free: &Heap, tight: &Heap, items: u32) -> (u64, u64) {
    let mut waiting = Waiting::new(rt, copy(rt, free), copy(rt, tight), copy(rt, free));
    expect_answer(rt, waiting.join(rt), Ok(Answer::Joined(0)));
    expect_that(
        rt,
        waiting.fill(rt, items) == None,
        "no emission is refused",
    );
    let before = tight.used();
    expect_answer(rt, waiting.request(items), Ok(Answer::Asked));
    expect_count(rt, waiting.outs.len() as u64, u64::from(items), "given");
    (before, tight.used())
}

// Half-way there are as many items on the tape as went, so that it gives back what is beyond them.
#[test]
fn a_large_request_gives_memory_back(rt: HostRuntime) -> Result<(), Fail> {
    let tight = Heap::with_budget(rt.alloc(), u64::MAX)?;
    let (before, after) = held_around_a_request(&rt, &unlimited(&rt), &tight, 10_000);
    expect_that(&rt, after <= before / 2, "half of it comes back");
    expect_count(&rt, tight.used(), 0, "bytes that were not given back");
    Ok(())
}

// How many growths a text of so many bytes takes, whether it says that it stands in a block, and whether it is refused where
// there is no memory.
fn growths_of(alloc: Global, len: usize) -> Result<(u64, Option<bool>, bool), Fail> {
    let letters = [b'a'; MAX_TEXT];
    let bytes = &letters[..len.min(MAX_TEXT)];
    let ample = Heap::with_budget(alloc, BUDGET)?;
    let in_block = stands_in_block(ample.clone()?, bytes);
    let tight = Heap::with_budget(alloc, 0)?;
    let refused = Text::new(tight, bytes).err() == Some(TextError::Memory);
    Ok((ample.asked(), in_block, refused))
}

// Whether a text of these bytes says that it stands in a block. None where it was not made.
fn stands_in_block(heap: Heap, bytes: &[u8]) -> Option<bool> {
    let text = Text::new(heap, bytes).ok()?;
    Some(text.has_block())
}

// The bytes of a text, and its growths.
const GROWTHS: [(usize, u64); 6] = [(0, 0), (20, 0), (21, 1), (56, 1), (57, 1), (1024, 1)];

#[test]
fn a_text_takes_few_growths(rt: HostRuntime) -> Result<(), Fail> {
    for (len, growths) in &GROWTHS {
        let (asked, in_block, refused) = growths_of(rt.alloc(), *len)?;
        expect_count(&rt, asked, *growths, "growths of a text");
        expect_that(&rt, in_block == Some(*growths > 0), "a text in a block");
        expect_that(&rt, refused == (*growths > 0), "a text without memory");
    }
    Ok(())
}

// A text of so many letters.
fn letters_of(heap: &Heap, len: usize) -> Result<Text, Memory> {
    let letters = [b'a'; MAX_TEXT];
    text_of(heap, &letters[..len.min(MAX_TEXT)])
}

// Whether a text of so many bytes is refilled by so many others while a copy shares it or not, and how many growths both
// took together.
fn refilled(alloc: Global, len: usize, other: usize, shared: bool) -> Result<(bool, u64), Memory> {
    let heap = Heap::with_budget(alloc, BUDGET)?;
    let mut text = letters_of(&heap, len)?;
    let did = refill(
        &mut text,
        letters_of(&Heap::unlimited(alloc), other)?,
        shared,
    )?;
    Ok((did, heap.asked()))
}

fn refill(text: &mut Text, other: Text, shared: bool) -> Result<bool, Memory> {
    let copy = if shared { Some(text.copy()?) } else { None };
    let did = text.refill(other.as_bytes());
    drop(copy);
    Ok(did)
}

// How long a text and the one that takes its place are, whether a copy shares it, and whether it is refilled.
const REFILLS: &[(usize, usize, bool, bool)] = &[
    (21, 56, false, true),
    (56, 21, false, true),
    (50, 50, true, false),
    (50, 20, false, false),
    (50, 57, false, false),
    (57, 50, false, false),
    (57, 120, false, true),
    (121, 184, false, true),
    (185, 248, false, true),
    (249, 376, false, true),
    (377, 504, false, true),
    (505, 760, false, true),
    (761, 1024, false, true),
    (505, 504, false, false),
    (1024, 1024, true, false),
    (20, 50, false, false),
];

// Hands the table out, so that what goes over it is proved without its rows.
fn refills() -> &'static [(usize, usize, bool, bool)] {
    REFILLS
}

#[test]
fn a_text_in_a_block_of_its_own_is_refilled(rt: HostRuntime) -> Result<(), Fail> {
    for (len, other, shared, did) in refills() {
        let (is_refilled, asked) = refilled(rt.alloc(), *len, *other, *shared)?;
        expect_that(&rt, is_refilled == *did, "a text that is refilled");
        expect_count(&rt, asked, (*len > 20) as u64, "growths of two texts");
    }
    Ok(())
}
