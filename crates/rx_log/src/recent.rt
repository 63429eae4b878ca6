// The notes that counted lately, by which a total is made whole that stands at an earlier place.
ghost use Rattle.std.specs.Prelude.{◌≡◌, ◌+◌, ◌<◌, ◌≤◌, ◌^◌, length, OnOk, OnErr};
ghost use Rattle.rx_log.specs.Rules.{Remembers, with_marks};

use crate::Total;
use crate::mark::Mark;
use rx_heap::{Heap, Memory};
use std::collections::VecDeque;

/// What a log comes to by these marks, where it comes to `told` at a base.
pub(crate) fn with_marks(recent: &VecDeque<Mark, Heap>, base: u64, told: Total) -> Total
    requires { told.items + length recent.now.items < 2 ^ 64 }
    ensures total { result ≡ with_marks base told recent.now.items }
    ensures within { result.items ≤ told.items + length recent.now.items }
{
    let mut total = told;
    for i in 0..recent.len() {
        let mark = recent[i];
        if mark.place > base {
            total = total.with_note(mark.ends);
        }
    }
    total
}

/// Keeps that a note counted, and forgets an earlier one that is more than a span behind it. `Memory` leaves the marks.
pub(crate) fn remember(
    recent: &mut VecDeque<Mark, Heap>,
    mark: Mark,
    span: u64,
) -> Result<(), Memory>
    ensures ok { OnOk result (Remembers span recent.old.items recent.new.items mark) }
    ensures err { OnErr result (recent.new.items ≡ recent.old.items) }
{
    recent.push_back(mark)?;
    if mark.place >= span && recent[0].place <= mark.place - span {
        recent.pop_front();
    }
    Ok(())
}
