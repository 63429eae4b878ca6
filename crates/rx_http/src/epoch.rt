ghost use Rattle.std.specs.Prelude.{◌≡◌, ◌≤◌, ◌↔◌, take, IsTrue, SomeIff, nat_eq};
ghost use Rattle.std.specs.Cmp.{partial_equiv_from_equiv};
ghost use Rattle.std.specs.Cmp.Lexicographic.{nat_list_eq_equiv, pointwise};
ghost use Rattle.rx_http.specs.Epochs.{IsEpoch, IsEpochByte};

use std::marker::Model;

// The most bytes that an epoch has.
const MAX_EPOCH: usize = 16;

/// What tells one start of a server from any other: 1 to 16 bytes of `0` to `9` and `a` to `z`. Epochs are compared, and stand
/// in no order. Contracts see an epoch as the list of its bytes.
#[derive(Drop, Debug)]
pub struct Epoch {
    bytes: [u8; MAX_EPOCH],
    len: usize,
}

impl Model for Epoch {
    ghost use Rattle.std.specs.Prelude.{List, ℕ, take, ◌≤◌};
    ghost use Rattle.rx_http.specs.Epochs.{IsEpoch};

    ghost Value = { List ℕ };

    ghost view = { λ e. take e.len e.bytes };

    ghost invariant = { λ e. (e.len ≤ 16) × IsEpoch (take e.len e.bytes) };
}

impl Epoch {
    /// The epoch of these bytes. None exactly where they are no epoch.
    pub fn new(bytes: &[u8]) -> Option<Epoch>
        ensures { SomeIff result (IsEpoch bytes.now) bytes.now }
    {
        if !is_epoch(bytes) {
            return None;
        }
        let len = bytes.len();
        let mut held = [0; MAX_EPOCH];
        held[..len].copy_from_slice(bytes);
        Some(Epoch { bytes: held, len })
    }

    /// The same.
    pub fn copy(&self) -> Epoch
        ensures { result ≡ self.now }
    {
        Epoch {
            bytes: self.bytes,
            len: self.len,
        }
    }

    /// Its bytes.
    pub fn as_bytes(&self) -> &[u8]
        ensures bytes { result.now ≡ self.now }
        ensures epoch { IsEpoch self.now }
    {
        &self.bytes[..self.len]
    }
}

impl PartialEq for Epoch {
    ghost eq = { pointwise nat_eq };

    ghost laws = { partial_equiv_from_equiv nat_list_eq_equiv };

    fn eq(&self, other: &Self) -> bool {
        self.as_bytes() == other.as_bytes()
    }
}

impl Eq for Epoch {
    ghost laws = { nat_list_eq_equiv };
}

fn is_epoch(bytes: &[u8]) -> bool
    ensures { IsTrue result ↔ IsEpoch bytes.now }
{
    if bytes.is_empty() || bytes.len() > MAX_EPOCH {
        return false;
    }
    for byte in bytes {
        if !is_epoch_byte(*byte) {
            return false;
        }
    }
    true
}

// Whether a byte may stand in an epoch.
fn is_epoch_byte(byte: u8) -> bool
    ensures { IsTrue result ↔ IsEpochByte byte }
{
    byte.is_ascii_digit() || byte.is_ascii_lowercase()
}
