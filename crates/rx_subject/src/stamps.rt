// The stamps of the last items, by which they grow too old.
ghost use Rattle.std.specs.Prelude.{◌≡◌, ◌≢◌, ◌≤◌, ◌<◌, ◌∷◌, ◌++◌, [], ℕ, Some, length, drop, OnOk};
ghost use Rattle.std.specs.VecDeque.{deque_len, deque_capacity};
ghost use Rattle.rx_subject.specs.TapeSubjects.{old_count, beyond};

use rx_heap::{Heap, Memory, give_back};
use std::collections::VecDeque;

/// Makes room for one stamp more, if any is kept.
pub(crate) fn reserve_stamp(
    stamps: &mut VecDeque<u64, Heap>,
    count: Option<usize>,
) -> Result<(), Memory>
    ensures items { stamps.new.items ≡ stamps.old.items }
    ensures room { OnOk result (count ≢ Some 0 → deque_len stamps.new < deque_capacity stamps.new) }
{
    if !matches!(count, Some(0)) {
        stamps.reserve(1)?;
    }
    Ok(())
}

/// Keeps a stamp more, and drops those at the front that are beyond the count.
pub(crate) fn keep_stamp(stamps: &mut VecDeque<u64, Heap>, stamp: u64, count: Option<usize>)
    requires room { count ≢ Some 0 → deque_len stamps.old < deque_capacity stamps.old }
    requires within { beyond count (length stamps.old.items) ≡ 0 }
    ensures { stamps.new.items ≡ drop (beyond count (length (stamps.old.items ++ stamp ∷ []))) (stamps.old.items ++ stamp ∷ []) }
{
    if matches!(count, Some(0)) {
        return;
    }
    stamps.push_back_reserved(stamp);
    if let Some(most) = count {
        drop_stamps(stamps, stamps.len().saturating_sub(most));
    }
}

/// Drops the stamps at the front that are too old at a moment.
pub(crate) fn drop_old_stamps(stamps: &mut VecDeque<u64, Heap>, age: Option<u64>, now: u64)
    ensures { stamps.new.items ≡ drop (old_count age now stamps.old.items) stamps.old.items }
{
    drop_stamps(stamps, count_old_stamps(stamps, age, now));
}

/// How many stamps at the front are too old at a moment.
pub(crate) fn count_old_stamps(stamps: &VecDeque<u64, Heap>, age: Option<u64>, now: u64) -> usize
    ensures count { result ≡ old_count age now stamps.now.items }
    ensures within { result ≤ length stamps.now.items }
{
    let Some(age) = age else {
        return 0;
    };
    for place in 0..stamps.len() {
        let Some(stamp) = stamps.get(place) else {
            unreachable!()
        };
        if now.saturating_sub(*stamp) < age {
            return place;
        }
    }
    stamps.len()
}

// Drops stamps from the front, and gives back the room that the others have no use for.
fn drop_stamps(stamps: &mut VecDeque<u64, Heap>, count: usize)
    ensures { stamps.new.items ≡ drop count stamps.old.items }
{
    for _ in 0..count {
        let _stamp = stamps.pop_front();
    }
    give_back(stamps);
}
