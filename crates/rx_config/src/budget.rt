// The memory of one subject.
ghost use Rattle.std.specs.Prelude.{◌≡◌, ◌^◌, min, Some};

use rx_heap::{Heap, Memory};
use std::alloc::Global;
use std::fmt;
use std::marker::Model;

/// The memory of a subject that has no more than so many bytes. Its hub and the texts that it is handed are made over this heap,
/// so that all of them together stay within it. Contracts see its bytes.
#[derive(Drop)]
pub struct Budget {
    bytes: u64,
    heap: Heap,
    ghost bounded: { heap.limit ≡ Some (min bytes (2 ^ 48)) },
}

impl Model for Budget {
    ghost use Rattle.std.specs.Prelude.{ℕ};

    ghost Value = { ℕ };

    ghost view = { λ b. b.bytes };
}

impl Budget {
    ghost use Rattle.std.specs.Prelude.{IfOk};

    /// A budget of so many bytes of the runtime's memory, of which nothing is taken yet. No more than 2^48 are ever taken.
    ///
    /// # Errors
    ///
    /// `Memory`: there was none for the count of the bytes, which stays until the program ends.
    pub fn new(runtime: Global, bytes: u64) -> Result<Budget, Memory>
        ensures { IfOk result (λ budget. budget ≡ bytes) }
    {
        let heap = Heap::with_budget(runtime, bytes)?;
        Ok(Budget { bytes, heap })
    }

    /// How many bytes it has.
    pub fn bytes(&self) -> u64
        ensures { result ≡ self.now }
    {
        self.bytes
    }

    /// The heap that gives no more than these.
    pub fn heap(&self) -> &Heap
        ensures { result.now.limit ≡ Some (min self.now (2 ^ 48)) }
    {
        &self.heap
    }
}

impl fmt::Debug for Budget {
    fn fmt<W: fmt::Write>(&self, f: &mut fmt::Formatter<W>) -> fmt::Result {
        write!(f, "{} bytes", self.bytes)
    }
}
