ghost use Rattle.std.specs.Prelude.{◌≡◌, ◌≤◌, ◌↔◌, take, IsTrue, SomeIff, nat_eq};
ghost use Rattle.std.specs.Cmp.{partial_equiv_from_equiv};
ghost use Rattle.std.specs.Cmp.Lexicographic.{nat_list_eq_equiv, pointwise};
ghost use Rattle.rx_proto.specs.Names.{IsName, IsNameByte};

use std::marker::Model;

// The most bytes that a name has.
pub(crate) const MAX_NAME: usize = 32;

/// The name of a subject: 1 to 32 bytes of `a` to `z`, `0` to `9` and `-`. Contracts see a name as the list of its bytes.
#[derive(Drop, Debug)]
pub struct Name {
    bytes: [u8; MAX_NAME],
    len: usize,
}

impl Model for Name {
    ghost use Rattle.std.specs.Prelude.{List, ℕ, take, ◌≤◌};
    ghost use Rattle.rx_proto.specs.Names.{IsName};

    ghost Value = { List ℕ };

    ghost view = { λ n. take n.len n.bytes };

    ghost invariant = { λ n. (n.len ≤ 32) × IsName (take n.len n.bytes) };
}

impl Name {
    /// The name of these bytes. None exactly where they are no name.
    pub fn new(bytes: &[u8]) -> Option<Name>
        ensures { SomeIff result (IsName bytes.now) bytes.now }
    {
        if is_name(bytes) {
            Some(Name::of(bytes))
        } else {
            None
        }
    }

    /// The name of these bytes, which are one.
    pub fn of(bytes: &[u8]) -> Name
        requires { IsName bytes.now }
        ensures { result ≡ bytes.now }
    {
        let len = bytes.len();
        let mut held = [0; MAX_NAME];
        held[..len].copy_from_slice(bytes);
        Name { bytes: held, len }
    }

    /// Its bytes.
    pub fn as_bytes(&self) -> &[u8]
        ensures bytes { result.now ≡ self.now }
        ensures name { IsName self.now }
    {
        &self.bytes[..self.len]
    }

    /// Its bytes at the front of a block of fixed size, and how many they are.
    #[inline] // once for each note that a script prints
    pub fn padded(&self) -> (&[u8; MAX_NAME], usize)
        ensures bytes { take result.1 result.0.now ≡ self.now }
        ensures within { result.1 ≤ 32 }
    {
        (&self.bytes, self.len)
    }
}

impl PartialEq for Name {
    ghost eq = { pointwise nat_eq };

    ghost laws = { partial_equiv_from_equiv nat_list_eq_equiv };

    fn eq(&self, other: &Self) -> bool {
        self.as_bytes() == other.as_bytes()
    }
}

impl Eq for Name {
    ghost laws = { nat_list_eq_equiv };
}

pub(crate) fn is_name(bytes: &[u8]) -> bool
    ensures { IsTrue result ↔ IsName bytes.now }
{
    if bytes.is_empty() || bytes.len() > MAX_NAME {
        return false;
    }
    for byte in bytes {
        if !is_name_byte(*byte) {
            return false;
        }
    }
    true
}

// Whether a byte may stand in a name.
#[inline(always)] // once for each byte of a name
pub(crate) fn is_name_byte(byte: u8) -> bool
    ensures { IsTrue result ↔ IsNameByte byte }
{
    byte.is_ascii_lowercase() || byte.is_ascii_digit() || byte == b'-'
}
