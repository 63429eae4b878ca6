ghost use Rattle.std.specs.Prelude.{◌≡◌, ◌<◌, ◌^◌, SomeIff, length, vec_len};

use rx_heap::Heap;
use std::marker::Model;

/// The body of an answer that was put together: less than 4 GiB. Contracts see it as the list of its bytes.
#[derive(Drop)]
pub struct Document {
    bytes: Vec<u8, Heap>,
}

impl Model for Document {
    ghost use Rattle.std.specs.Prelude.{◌<◌, ◌^◌, List, ℕ, vec_len};

    ghost Value = { List ℕ };

    ghost view = { λ d. d.bytes.items };

    ghost invariant = { λ d. vec_len d.bytes < 2 ^ 32 };
}

impl Document {
    /// The body of these bytes. None where there are 4 GiB or more.
    pub fn new(bytes: Vec<u8, Heap>) -> Option<Document>
        ensures { SomeIff result (vec_len bytes < 2 ^ 32) bytes.items }
    {
        if bytes.len() > u32::MAX as usize {
            return None;
        }
        Some(Document { bytes })
    }

    /// Its bytes.
    pub fn as_bytes(&self) -> &[u8]
        ensures bytes { result.now ≡ self.now }
        ensures few { length self.now < 2 ^ 32 }
    {
        self.bytes.as_slice()
    }
}
