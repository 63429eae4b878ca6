//! Runs with each of their growths refused in turn.

use crate::told::Told;
use rx_heap::Heap;
use std::alloc::Global;
use std::test::Fail;

/// What is seen of a run.
#[derive(Clone, Copy)]
pub struct Seen {
    /// Whether there was something to run: making it was not refused.
    pub is_made: bool,
    /// How many calls were refused for want of memory.
    pub misses: u64,
    /// Whether all that was told of it is right.
    pub is_right: bool,
}

/// A run that can meet a refusal.
pub trait Refusable {
    /// Runs it: what is tried grows by `tight`, and all else is made by `free`.
    fn run_by(&self, free: &Heap, tight: &Heap) -> Result<Seen, Fail>;
}

/// How many runs were refused as a whole, how many in a call, and what is wrong; no text where nothing is.
#[derive(Clone, Copy)]
pub struct Refusals {
    pub unmade: u64,
    pub missed: u64,
    pub fault: &'static str,
}

// No run here has as many growths.
const MAX_GROWTHS: u64 = 1_000;

/// Runs it with the first growth refused, the second, and so on, until a run meets no refusal.
pub fn refuse_in_turn(run: &impl Refusable, alloc: Global) -> Result<Refusals, Fail> {
    let mut refusals = Refusals {
        unmade: 0,
        missed: 0,
        fault: "",
    };
    for growth in 0..MAX_GROWTHS {
        let tight = Heap::refusing(alloc, growth)?;
        let seen = run.run_by(&Heap::unlimited(alloc), &tight)?;
        let is_met = tight.asked() > growth;
        refusals.count(seen, is_met, tight.used());
        if !is_met || refusals.fault != "" {
            return Ok(refusals);
        }
    }
    refusals.fault = "growths without an end";
    Ok(refusals)
}

impl Refusals {
    // Counts a run in, which met a refusal or none, and left so many bytes unreturned.
    fn count(&mut self, seen: Seen, is_met: bool, used: u64) {
        if used != 0 {
            self.fault = "bytes that were not given back";
        } else if !seen.is_right {
            self.fault = "what was told";
        } else if !is_met && (!seen.is_made || seen.misses != 0) {
            self.fault = "a refusal where no growth was refused";
        } else if is_met && seen.is_made && seen.misses != 1 {
            self.fault = "no refusal where a growth was refused";
        } else if !seen.is_made {
            self.unmade = self.unmade.saturating_add(1);
        } else {
            self.missed = self.missed.saturating_add(seen.misses);
        }
    }
}

/// What a script told, and how many of its calls were refused for want of memory and then made again.
#[derive(Clone, Copy)]
pub struct Tale {
    pub told: Told,
    pub misses: u64,
}
