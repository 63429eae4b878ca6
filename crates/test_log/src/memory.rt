//! What a rule takes of memory doesn't grow with its log.

use rx_heap::Heap;
use rx_log::{Entry, Holder, Rule, Total};
use rx_note::Text;
use std::test::Fail;

const SPAN: u64 = 8;

// Whether, behind so many entries, each fourth a tenure of another node, a rule holds what it held behind the first 200.
fn holds_alike(alloc: std::alloc::Global, begun: u64, count: u64) -> Result<bool, Fail> {
    let heap = Heap::with_budget(alloc, 1_000_000)?;
    let free = Heap::unlimited(alloc);
    let mut rule = Rule::new(heap.clone()?, SPAN, begun)?;
    let mut held = 0;
    for i in 0..count {
        let entry = match i % 4 {
            0 => tenure_of(i, rule.at()),
            _ => Entry::Foreign {
                text: Text::new(free.clone()?, b"text")?,
            },
        };
        rule.step(&entry)?;
        if i == 200 {
            held = heap.used();
        }
    }
    Ok(held > 0 && heap.used() == held)
}

// A tenure that tells nothing that is believed.
fn tenure_of(node: u64, base: u64) -> Entry {
    Entry::Tenure {
        holder: Holder { node, run: 1 },
        base,
        total: Total {
            items: u64::MAX,
            ended: false,
        },
    }
}

#[test]
fn memory_is_of_a_span(rt: HostRuntime) -> Result<(), Fail> {
    for begun in [0, 5] {
        assert!(rt; holds_alike(rt.alloc(), begun, 20_000)?, "behind {begun}");
    }
    Ok(())
}
