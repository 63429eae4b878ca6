//! What waits for the observer for whom most notes wait, in bytes of texts.
//!
//! In these scripts a capital letter joins an observer that requests one item: `B` by Buffer, `D` by Drop with room for 2 items, `L` by
//! Latest for 1; any other sign emits its note. Told is the number of the observer and how many bytes wait for it, each text having
//! one, or `-` where nothing waits for any.

use crate::expectations::expect_told;
use crate::heaps::unlimited;
use crate::hubs::{hub_of, run_of};
use rx_heap::Heap;
use rx_note::{Event, Kind, Strategy};
use std::test::Fail;
use test_kit::{Named, Told, event_of, kind_of, policy_of, rules_of};

// A kind, what comes, and what waits behind it.
const ROWS: &[(Named, &str, &str)] = &[
    (Named::Publish, "", "-"),
    (Named::Publish, "Ba", "-"),
    (Named::Publish, "Babc", "02"),
    (Named::Publish, "Labc", "01"),
    (Named::Publish, "Dabcde", "02"),
    (Named::Publish, "LDabc", "12"),
    (Named::Publish, "DBabcd", "13"),
    (Named::Publish, "BBabc", "02"),
    // What the subject keeps for those who join later does not wait for this one alone.
    (Named::Replay(None, None), "Babc", "00"),
    (Named::Replay(Some(1), None), "Babc", "01"),
];

// Hands the table out, so that what goes over it is proved without its rows.
fn rows() -> &'static [(Named, &'static str, &'static str)] {
    ROWS
}

// The event of a sign.
fn event_by(heap: &Heap, sign: u8) -> Result<Event, Fail> {
    let (strategy, sign) = match sign {
        b'B' => (Strategy::Buffer, b'+'),
        b'D' => (Strategy::Drop(2), b'+'),
        b'L' => (Strategy::Latest(1), b'+'),
        other => (Strategy::Buffer, other),
    };
    Ok(event_of(heap, policy_of(strategy)?, 1, sign)?)
}

// What waits behind these signs.
fn told_after(heap: &Heap, kind: Kind, signs: &[u8]) -> Result<Told, Fail> {
    let mut events = Vec::new(heap.clone()?);
    for sign in signs {
        events.push((0, event_by(heap, *sign)?))?;
    }
    let mut hub = hub_of(heap, rules_of(kind))?;
    run_of(heap, &mut hub, events)?;
    let mut told = Told::new();
    match hub.backlog() {
        Some(backlog) => {
            told.put_digit(backlog.who as usize);
            told.put_digit(backlog.bytes as usize);
        }
        None => told.put(b'-'),
    }
    Ok(told)
}

#[test]
fn bytes_of_the_longest_backlog(rt: HostRuntime) -> Result<(), Fail> {
    let heap = unlimited(&rt);
    for (named, signs, wanted) in rows() {
        let told = told_after(&heap, kind_of(&heap, *named)?, signs.as_bytes())?;
        expect_told(&rt, told.as_bytes(), wanted, signs);
    }
    Ok(())
}
