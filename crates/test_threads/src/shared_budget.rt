//! A budget that two threads share: they never have the same bytes.

use crate::expectations::{expect_count, expect_that};
use rx_heap::Heap;
use std::sync::atomic::{AtomicU64, Ordering};
use std::test::Fail;
use std::thread::join;

/// How often a thread had its block, and how often another one had its own at the same time.
#[derive(Clone, Copy)]
struct Turns {
    had: u64,
    shared: u64,
}

fn block(heap: &Heap, bytes: usize) -> Option<Vec<u8, Heap>> {
    let heap = heap.clone().ok()?;
    Vec::with_capacity(heap, bytes).ok()
}

// Takes a block and gives it back, a thousand times. More than one block is more than the budget.
fn take_turns(heap: &Heap, holders: &AtomicU64) -> Turns {
    let mut turns = Turns { had: 0, shared: 0 };
    for _ in 0..1_000 {
        let block = block(heap, 60);
        if block.is_some() {
            turns.had = turns.had.saturating_add(1);
            let others = holders.fetch_add(1, Ordering::SeqCst);
            turns.shared = turns.shared.saturating_add(others);
            holders.fetch_sub(1, Ordering::SeqCst);
        }
        drop(block);
    }
    turns
}

#[test]
fn two_threads_over_one_budget(rt: HostRuntime) -> Result<(), Fail> {
    let heap = Heap::with_budget(rt.alloc(), 100)?;
    let holders = AtomicU64::new(0);
    let (first, second) = join(
        &rt,
        || take_turns(&heap, &holders),
        || take_turns(&heap, &holders),
    );
    expect_that(&rt, first.had > 0 || second.had > 0, "no block at all");
    expect_count(&rt, first.shared, 0, "shared by the first");
    expect_count(&rt, second.shared, 0, "shared by the second");
    expect_count(&rt, heap.asked(), 2_000, "growths");
    expect_count(&rt, heap.used(), 0, "bytes that were not given back");
    Ok(())
}
