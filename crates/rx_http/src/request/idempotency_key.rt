ghost use Rattle.std.specs.Prelude.{◌≡◌, ◌≤◌, ◌↔◌, take, option_map, IsTrue, SomeIff, nat_eq};
ghost use Rattle.std.specs.Cmp.{partial_equiv_from_equiv};
ghost use Rattle.std.specs.Cmp.Lexicographic.{nat_list_eq_equiv, pointwise};
ghost use Rattle.rx_http.specs.Keys.{IsKey, IsKeyByte, SaysKey};
ghost use Rattle.rx_http.specs.Words.{IsFound};

use std::marker::Model;

// The most bytes that a key has.
const MAX_KEY: usize = 64;

/// By what a producer names an emission, in the field `Idempotency-Key`: 1 to 64 visible characters of ASCII. Contracts see a key as the
/// list of its bytes.
#[derive(Drop, Debug)]
pub struct IdempotencyKey {
    bytes: [u8; MAX_KEY],
    len: usize,
}

impl Model for IdempotencyKey {
    ghost use Rattle.std.specs.Prelude.{List, ℕ, take, ◌≤◌};
    ghost use Rattle.rx_http.specs.Keys.{IsKey};

    ghost Value = { List ℕ };

    ghost view = { λ k. take k.len k.bytes };

    ghost invariant = { λ k. (k.len ≤ 64) × IsKey (take k.len k.bytes) };
}

impl IdempotencyKey {
    /// The key of these bytes. None exactly where they are no key.
    pub fn new(bytes: &[u8]) -> Option<IdempotencyKey>
        ensures { SomeIff result (IsKey bytes.now) bytes.now }
    {
        if !is_key(bytes) {
            return None;
        }
        let len = bytes.len();
        let mut held = [0; MAX_KEY];
        held[..len].copy_from_slice(bytes);
        Some(IdempotencyKey { bytes: held, len })
    }

    /// The same.
    pub fn copy(&self) -> IdempotencyKey
        ensures { result ≡ self.now }
    {
        IdempotencyKey {
            bytes: self.bytes,
            len: self.len,
        }
    }

    /// Its bytes.
    pub fn as_bytes(&self) -> &[u8]
        ensures bytes { result.now ≡ self.now }
        ensures key { IsKey self.now }
    {
        &self.bytes[..self.len]
    }
}

impl PartialEq for IdempotencyKey {
    ghost eq = { pointwise nat_eq };

    ghost laws = { partial_equiv_from_equiv nat_list_eq_equiv };

    fn eq(&self, other: &Self) -> bool {
        self.as_bytes() == other.as_bytes()
    }
}

impl Eq for IdempotencyKey {
    ghost laws = { nat_list_eq_equiv };
}

/// The key that the value of a field says, if there is that field. None where that is no key.
pub(crate) fn key_of(word: Option<&[u8]>) -> Option<Option<IdempotencyKey>>
    ensures { IsFound (SaysKey (option_map (λ word. word.now) word.entry)) result }
{
    let Some(word) = word else {
        return Some(None);
    };
    match IdempotencyKey::new(word) {
        Some(key) => Some(Some(key)),
        None => None,
    }
}

fn is_key(bytes: &[u8]) -> bool
    ensures { IsTrue result ↔ IsKey bytes.now }
{
    if bytes.is_empty() || bytes.len() > MAX_KEY {
        return false;
    }
    for byte in bytes {
        if !is_key_byte(*byte) {
            return false;
        }
    }
    true
}

// Whether a byte may stand in a key.
fn is_key_byte(byte: u8) -> bool
    ensures { IsTrue result ↔ IsKeyByte byte }
{
    b'!' <= byte && byte <= b'~'
}
