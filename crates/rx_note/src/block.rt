ghost use Rattle.std.specs.Prelude.{◌≡◌, ◌≤◌, true, false, length, take, IfOk};
ghost use Rattle.std.specs.Arc.{arc_value};

use rx_heap::{Heap, Memory};
use std::marker::Model;
use std::sync::Arc;

/// The bytes of a text that its copies share, `N` at most. Contracts see the list of them.
#[derive(Drop)]
pub(crate) struct Block<const N: usize> {
    len: usize,
    bytes: [u8; N],
}

impl<const N: usize> Model for Block<N> {
    ghost use Rattle.std.specs.Prelude.{◌≤◌, List, ℕ, take};

    ghost Value = { List ℕ };

    ghost view = { λ b. take b.len b.bytes };

    ghost invariant = { λ b. b.len ≤ N };
}

impl<const N: usize> Block<N> {
    /// A block of these bytes, in one growth. It is kept out of line, so that who makes a small block has no room for a large one.
    #[inline(never)] // said above
    pub(crate) fn shared(alloc: Heap, bytes: &[u8]) -> Result<Arc<Block<N>, Heap>, Memory>
        requires { length bytes.now ≤ N }
        ensures { IfOk result (λ block. arc_value block ≡ bytes.now) }
    {
        match Arc::new(alloc, Block::new(bytes)) {
            Ok(block) => Ok(block),
            Err(_) => Err(Memory),
        }
    }

    fn new(bytes: &[u8]) -> Block<N>
        requires { length bytes.now ≤ N }
        ensures { result ≡ bytes.now }
    {
        let mut made = Block {
            len: 0,
            bytes: [0; N],
        };
        made.fill(bytes);
        made
    }

    #[inline] // a part of the two that make and refill a block
    fn fill(&mut self, bytes: &[u8])
        requires { length bytes.now ≤ N }
        ensures { self.new ≡ bytes.now }
    {
        let len = bytes.len();
        self.len = len;
        self.bytes[..len].copy_from_slice(bytes);
    }

    /// Puts these bytes in the place of its own, where no copy shares the block. Whether it did so.
    #[inline] // once for each line that a script refills a text from
    pub(crate) fn refill(shared: &mut Arc<Block<N>, Heap>, bytes: &[u8]) -> bool
        requires { length bytes.now ≤ N }
        ensures filled { result ≡ true → arc_value shared.new ≡ bytes.now }
        ensures kept { result ≡ false → shared.new ≡ shared.old }
    {
        let Some(block) = Arc::get_mut(shared) else {
            return false;
        };
        block.fill(bytes);
        true
    }

    /// Its bytes at the front of those that it has room for, and how many they are.
    #[inline(always)] // a part of what a text does
    pub(crate) fn padded(&self) -> (&[u8; N], usize)
        ensures bytes { take result.1 result.0.now ≡ self.now }
        ensures within { result.1 ≤ N }
    {
        (&self.bytes, self.len)
    }

    /// The same block, shared by one more.
    pub(crate) fn share(block: &Arc<Block<N>, Heap>) -> Result<Arc<Block<N>, Heap>, Memory>
        ensures { IfOk result (λ copy. arc_value copy ≡ arc_value block.now) }
    {
        match Arc::try_clone(block) {
            Ok(block) => Ok(block),
            Err(_) => Err(Memory),
        }
    }

    /// The bytes.
    pub(crate) fn as_bytes(&self) -> &[u8]
        ensures { result.now ≡ self.now }
    {
        &self.bytes[..self.len]
    }
}
