ghost use Rattle.std.specs.Prelude.{◌≡◌, ◌≤◌, [], ◌∷◌, ◌++◌, ◌⊎◌, true, false, vec_len, vec_capacity, MatchResult};
ghost use Rattle.rx_sink.specs.Kinds.{fails_at};

use crate::{Flow, Sink, SinkFault};
use rx_heap::Heap;
use rx_note::Note;

/// A sink that keeps the notes that it takes; nothing ever waits in it. Its rest is their list.
#[derive(Drop)]
pub struct MemorySink {
    notes: Vec<Note, Heap>,
    // The note of this number and each later one is a fault.
    fail_at: Option<u32>,
    faults: u64,
}

impl MemorySink {
    /// A sink that took nothing yet. It has a fault at the note of the number `fail_at`, counted from 0, and at each later
    /// one, and where there is no memory for a note. It takes no memory here.
    pub fn new(alloc: Heap, fail_at: Option<u32>) -> MemorySink
        ensures notes { result.notes.items ≡ [] }
        ensures fail_at { result.fail_at ≡ fail_at }
        ensures faults { result.faults ≡ 0 }
    {
        MemorySink {
            notes: Vec::new(alloc),
            fail_at,
            faults: 0,
        }
    }
}

impl Sink for MemorySink {
    type Rest = Vec<Note, Heap>;

    ghost use Rattle.rx_sink.specs.Kinds.{memory_acts};

    ghost acts = { memory_acts };

    fn start(&mut self, _who: u32) -> Result<(), SinkFault> {
        Ok(())
    }

    fn take(&mut self, note: Note) -> Result<Flow, SinkFault> {
        let Ok(()) = put(&mut self.notes, self.fail_at, note) else {
            self.faults = self.faults.saturating_add(1);
            return Err(SinkFault);
        };
        Ok(Flow::Clear)
    }

    fn flush(&mut self) -> Result<Flow, SinkFault> {
        Ok(Flow::Clear)
    }

    fn finish(self) -> Vec<Note, Heap> {
        self.notes
    }
}

// Puts a note behind the others, unless it is one at which the sink fails.
fn put(notes: &mut Vec<Note, Heap>, fail_at: Option<u32>, note: Note) -> Result<(), SinkFault>
    ensures { MatchResult result
        (λ _. (notes.new.items ≡ notes.old.items ++ note ∷ []) × (fails_at fail_at (vec_len notes.old) ≡ false))
        (λ _. (notes.new.items ≡ notes.old.items)
        × ((fails_at fail_at (vec_len notes.old) ≡ true) ⊎ (vec_capacity notes.old ≤ vec_len notes.old))) }
{
    if fails_at(fail_at, notes.len()) {
        return Err(SinkFault);
    }
    match notes.push(note) {
        Ok(()) => Ok(()),
        Err(_) => Err(SinkFault),
    }
}

// Whether a sink that fails from that note on fails at the note of this number.
fn fails_at(fail_at: Option<u32>, number: usize) -> bool
    ensures { result ≡ fails_at fail_at number }
{
    match fail_at {
        None => false,
        Some(first) => first as usize <= number,
    }
}
