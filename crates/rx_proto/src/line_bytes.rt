ghost use Rattle.std.specs.Prelude.{◌≡◌, ◌≤◌, ◌+◌, ◌++◌, [], length};

use std::marker::Model;

/// A line that is to be written, of at most `N` bytes. It takes no memory. Contracts see the list of its bytes.
#[derive(Drop)]
pub struct LineBytes<const N: usize> {
    bytes: [u8; N],
    len: usize,
}

impl<const N: usize> Model for LineBytes<N> {
    ghost use Rattle.std.specs.Prelude.{List, ℕ, take, ◌≤◌};

    ghost Value = { List ℕ };

    ghost view = { λ l. take l.len l.bytes };

    ghost invariant = { λ l. l.len ≤ N };
}

impl<const N: usize> LineBytes<N> {
    /// No byte.
    pub fn new() -> LineBytes<N>
        ensures { result ≡ [] }
    {
        LineBytes {
            bytes: [0; N],
            len: 0,
        }
    }

    /// Its bytes.
    pub fn as_bytes(&self) -> &[u8]
        ensures bytes { result.now ≡ self.now }
        ensures within { length self.now ≤ N }
    {
        &self.bytes[..self.len]
    }

    /// Puts these bytes behind those that it has.
    #[inline] // so that a piece of fixed size is copied by that
    pub fn put(&mut self, bytes: &[u8])
        requires { length self.old + length bytes.now ≤ N }
        ensures { self.new ≡ self.old ++ bytes.now }
    {
        let len = self.len + bytes.len();
        let room = &mut self.bytes[..];
        room[self.len..len].copy_from_slice(bytes);
        self.len = len;
    }
}
