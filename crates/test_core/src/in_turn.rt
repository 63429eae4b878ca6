//! Scripts that tell the same with each of their growths refused in turn.

use crate::expectations::{expect_told, expect_words};
use rx_heap::Heap;
use std::alloc::Global;
use std::process::Abort;
use std::test::Fail;
use test_kit::{Refusable, Seen, Tale, refuse_in_turn};

/// A script that tells the same whatever growth is refused, since it makes a call that was refused again.
pub(crate) trait Script {
    /// Runs it: what is tried grows by `tight`, and all else is made by `free`.
    fn tell(&self, free: &Heap, tight: &Heap) -> Result<Tale, Fail>;
}

/// A script, and what is to be told of it.
#[derive(Drop)]
struct Wanted<'a, S> {
    script: &'a S,
    told: &'a str,
}

impl<S: Script> Refusable for Wanted<'_, S> {
    fn run_by(&self, free: &Heap, tight: &Heap) -> Result<Seen, Fail> {
        let tale = self.script.tell(free, tight)?;
        Ok(Seen {
            is_made: true,
            misses: tale.misses,
            is_right: tale.told.as_bytes() == self.told.as_bytes(),
        })
    }
}

/// This is told of a script, also with each growth refused in its turn.
pub(crate) fn expect_in_turn(
    rt: &impl Abort,
    alloc: Global,
    script: &impl Script,
    told: &str,
    row: &str,
) -> Result<(), Fail> {
    let heap = Heap::unlimited(alloc);
    let tale = script.tell(&heap, &heap)?;
    expect_told(rt, tale.told.as_bytes(), told, row);
    let refusals = refuse_in_turn(&Wanted { script, told }, alloc)?;
    expect_words(rt, refusals.fault, "", row);
    Ok(())
}
