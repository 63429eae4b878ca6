//! Handles under a limit: a budget is kept and given back, and a growth is refused in its turn.
//!
//! In a script a digit takes a block of so many times ten bytes, `/` cuts the last one to half of its room, and `-` gives it
//! back. Told is `!` where a block was refused, behind `?` the bytes used, in tens, and behind `#` how many growths were asked
//! for.

use crate::expectations::{expect_count, expect_that, expect_told};
use rx_heap::Heap;
use std::alloc::Global;
use std::process::Abort;
use std::test::Fail;
use test_kit::Told;

/// The memory of a test: the runtime's, without a limit.
pub(crate) fn unlimited(rt: &HostRuntime) -> Heap {
    Heap::unlimited(rt.alloc())
}

/// Another handle on the same memory.
pub(crate) fn copy(rt: &impl Abort, heap: &Heap) -> Heap {
    heap.clone().expect(rt, "a handle")
}

/// A handle that is tried, the blocks that were taken by it, and what is told.
struct Tried {
    heap: Heap,
    blocks: Vec<Vec<u8, Heap>>,
    told: Told,
}

// By hand: rx_heap says why.
impl Drop for Tried {
    fn drop(self) {
        let Tried {
            heap: _,
            blocks: _,
            told: _,
        } = self;
    }
}

impl Tried {
    fn take(&mut self, bytes: usize) -> Result<(), Fail> {
        match Vec::with_capacity(self.heap.clone()?, bytes) {
            Ok(block) => self.blocks.push(block)?,
            Err(_) => self.told.put(b'!'),
        }
        Ok(())
    }

    fn cut(&mut self) {
        if let Some(block) = self.blocks.last_mut() {
            block.shrink_to(block.capacity() / 2);
        }
    }

    fn step(&mut self, sign: u8) -> Result<(), Fail> {
        match sign {
            b'0'..=b'9' => self.take(10 * usize::from(sign - b'0'))?,
            b'/' => self.cut(),
            b'?' => self.told.put_digit((self.heap.used() / 10) as usize),
            b'#' => self.told.put_digit(self.heap.asked() as usize),
            _ => drop(self.blocks.pop()),
        }
        Ok(())
    }
}

fn heap_of(alloc: Global, budget: Option<u64>) -> Result<Heap, Fail> {
    match budget {
        None => Ok(Heap::unlimited(alloc)),
        Some(bytes) => Ok(Heap::with_budget(alloc, bytes)?),
    }
}

fn told_of(alloc: Global, budget: Option<u64>, script: &[u8]) -> Result<Told, Fail> {
    let mut tried = Tried {
        heap: heap_of(alloc, budget)?,
        blocks: Vec::new(alloc),
        told: Told::new(),
    };
    for sign in script {
        tried.step(*sign)?;
    }
    Ok(tried.told)
}

// The bytes of a budget, a script, and what is told.
const BUDGETS: [(Option<u64>, &str, &str); 6] = [
    (Some(90), "6?4?3?1?-?-?9?1-?", "6!69!9609!0"),
    (Some(90), "96#?", "!29"),
    (Some(90), "8?/?5?#", "8493"),
    (Some(0), "1?0#", "!01"),
    (Some(u64::MAX), "9?", "9"),
    (None, "99?#", "00"),
];

#[test]
fn a_budget_is_kept_and_given_back(rt: HostRuntime) -> Result<(), Fail> {
    for (budget, script, wanted) in &BUDGETS {
        let told = told_of(rt.alloc(), *budget, script.as_bytes())?;
        expect_told(&rt, told.as_bytes(), wanted, script);
    }
    Ok(())
}

// More bytes in one block than any machine has addresses, and fewer than a budget may have: the runtime refuses them.
const NO_BLOCK: usize = 1 << 47;

// Whether a new block of so many bytes is refused.
fn is_block_refused(heap: &Heap) -> Result<bool, Fail> {
    let block: Result<Vec<u8, Heap>, _> = Vec::with_capacity(heap.clone()?, NO_BLOCK);
    Ok(block.is_err())
}

// A block that the runtime refuses is not charged, and a list that it lets grow no further keeps what it was charged.
#[test]
fn what_the_runtime_refuses_is_not_charged(rt: HostRuntime) -> Result<(), Fail> {
    let heap = Heap::with_budget(rt.alloc(), u64::MAX)?;
    let mut list: Vec<u8, Heap> = Vec::with_capacity(heap.clone()?, 100)?;
    expect_that(&rt, is_block_refused(&heap)?, "a block of all addresses");
    expect_count(&rt, heap.used(), 100, "bytes behind a block");
    expect_that(&rt, list.reserve(NO_BLOCK).is_err(), "a list of as many");
    expect_count(&rt, heap.used(), 100, "bytes behind a growth");
    expect_count(&rt, heap.asked(), 3, "growths");
    drop(list);
    expect_count(&rt, heap.used(), 0, "bytes that were not given back");
    Ok(())
}

/// What is seen of a list that grows while one growth is refused.
#[derive(Clone, Copy)]
struct Growing {
    refused: u32,
    // Whether it holds in the end what was pushed.
    is_whole: bool,
}

// Pushes ten bytes, each once more where it was refused.
fn grow(heap: &Heap) -> Result<Growing, Fail> {
    let mut bytes = Vec::new(heap.clone()?);
    let mut refused: u32 = 0;
    for byte in b"0123456789" {
        if bytes.push(*byte).is_err() {
            refused = refused.saturating_add(1);
            bytes.push(*byte)?;
        }
    }
    let is_whole = bytes.as_slice() == b"0123456789".as_slice();
    Ok(Growing { refused, is_whole })
}

// The list is whole and its bytes are back, and it met a refusal where its growths went so far.
fn expect_grown(rt: &impl Abort, heap: &Heap, seen: Growing, growth: u64) {
    expect_that(rt, seen.is_whole, "a list that is not whole");
    expect_count(rt, heap.used(), 0, "bytes that were not given back");
    let is_met = heap.asked() > growth;
    assert!(rt; (seen.refused == 1) == is_met, "growth {growth}");
}

#[test]
fn each_growth_of_a_list_is_refused_in_turn(rt: HostRuntime) -> Result<(), Fail> {
    let mut met: u64 = 0;
    for growth in 0..100 {
        let heap = Heap::refusing(rt.alloc(), growth)?;
        let seen = grow(&heap)?;
        expect_grown(&rt, &heap, seen, growth);
        met = met.saturating_add(u64::from(seen.refused));
    }
    expect_that(&rt, met >= 2, "growths that were met");
    Ok(())
}
