ghost use Rattle.std.specs.Prelude.{◌≡◌, ◌≤◌, SomeIff, length};
ghost use Rattle.percent_encoding.specs.Percent.{percent_decode};

use percent_encoding::percent_decode;
use std::marker::Model;

// The most bytes that a word of a query has.
const MAX_WORD: usize = 64;

/// A word of a query, its escapes resolved. Contracts see it as the list of its bytes.
#[derive(Drop)]
pub(crate) struct Word {
    bytes: [u8; MAX_WORD],
    len: usize,
}

impl Model for Word {
    ghost use Rattle.std.specs.Prelude.{List, ℕ, take, ◌≤◌};

    ghost Value = { List ℕ };

    ghost view = { λ w. take w.len w.bytes };

    ghost invariant = { λ w. w.len ≤ 64 };
}

impl Word {
    /// The word that these bytes of a query say. None exactly where it has more than 64 bytes.
    pub(crate) fn decoded(value: &[u8]) -> Option<Word>
        ensures { SomeIff result (length (percent_decode value.now) ≤ 64) (percent_decode value.now) }
    {
        let mut bytes = [0; MAX_WORD];
        let mut len = 0;
        for byte in percent_decode(value) {
            if len == MAX_WORD {
                return None;
            }
            bytes[len] = byte;
            len += 1;
        }
        Some(Word { bytes, len })
    }

    /// Its bytes.
    pub(crate) fn as_bytes(&self) -> &[u8]
        ensures { result.now ≡ self.now }
    {
        &self.bytes[..self.len]
    }
}
