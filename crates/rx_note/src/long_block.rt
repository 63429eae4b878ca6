ghost use Rattle.std.specs.Prelude.{◌≡◌, ◌≤◌, true, false, length, IfOk};

use crate::block::Block;
use rx_heap::{Heap, Memory};
use std::sync::Arc;

/// The block of a long text, which its copies share: the smallest that has room for the bytes, so that about half of it is left
/// over at most, and of one with more than 120 bytes about a third. What is done with one is kept out of line, so that the way of
/// shorter texts stays short.
pub(crate) enum LongBlock {
    UpTo120(Arc<Block<120>, Heap>),
    UpTo184(Arc<Block<184>, Heap>),
    UpTo248(Arc<Block<248>, Heap>),
    UpTo376(Arc<Block<376>, Heap>),
    UpTo504(Arc<Block<504>, Heap>),
    UpTo760(Arc<Block<760>, Heap>),
    UpTo1024(Arc<Block<1024>, Heap>),
}

// By hand: rx_heap says why.
impl Drop for LongBlock {
    fn drop(self) {
        match self {
            LongBlock::UpTo120(_) => {}
            LongBlock::UpTo184(_) => {}
            LongBlock::UpTo248(_) => {}
            LongBlock::UpTo376(_) => {}
            LongBlock::UpTo504(_) => {}
            LongBlock::UpTo760(_) => {}
            LongBlock::UpTo1024(_) => {}
        }
    }
}

impl LongBlock {
    ghost use Rattle.rx_note.specs.Bodies.{bytes_in};

    /// A block of these bytes, in one growth.
    #[inline(never)] // the type says why
    pub(crate) fn new(alloc: Heap, bytes: &[u8]) -> Result<LongBlock, Memory>
        requires { length bytes.now ≤ 1024 }
        ensures { IfOk result (λ block. bytes_in block ≡ bytes.now) }
    {
        match bytes.len() {
            0..=120 => Ok(LongBlock::UpTo120(Block::shared(alloc, bytes)?)),
            121..=184 => Ok(LongBlock::UpTo184(Block::shared(alloc, bytes)?)),
            185..=248 => Ok(LongBlock::UpTo248(Block::shared(alloc, bytes)?)),
            249..=376 => Ok(LongBlock::UpTo376(Block::shared(alloc, bytes)?)),
            377..=504 => Ok(LongBlock::UpTo504(Block::shared(alloc, bytes)?)),
            505..=760 => Ok(LongBlock::UpTo760(Block::shared(alloc, bytes)?)),
            _ => Ok(LongBlock::UpTo1024(Block::shared(alloc, bytes)?)),
        }
    }

    /// Puts these bytes in the place of its own, where its block is the smallest that has room for them and no copy shares it.
    /// Whether it did so.
    #[inline(never)] // the type says why
    pub(crate) fn refill(&mut self, bytes: &[u8]) -> bool
        ensures filled { result ≡ true → bytes_in self.new ≡ bytes.now }
        ensures kept { result ≡ false → self.new ≡ self.old }
    {
        match (self, bytes.len()) {
            (LongBlock::UpTo120(block), 57..=120) => Block::refill(block, bytes),
            (LongBlock::UpTo184(block), 121..=184) => Block::refill(block, bytes),
            (LongBlock::UpTo248(block), 185..=248) => Block::refill(block, bytes),
            (LongBlock::UpTo376(block), 249..=376) => Block::refill(block, bytes),
            (LongBlock::UpTo504(block), 377..=504) => Block::refill(block, bytes),
            (LongBlock::UpTo760(block), 505..=760) => Block::refill(block, bytes),
            (LongBlock::UpTo1024(block), 761..=1024) => Block::refill(block, bytes),
            _ => false,
        }
    }

    /// The bytes.
    #[inline(never)] // the type says why
    pub(crate) fn as_bytes(&self) -> &[u8]
        ensures { result.now ≡ bytes_in self.now }
    {
        match self {
            LongBlock::UpTo120(block) => block.as_bytes(),
            LongBlock::UpTo184(block) => block.as_bytes(),
            LongBlock::UpTo248(block) => block.as_bytes(),
            LongBlock::UpTo376(block) => block.as_bytes(),
            LongBlock::UpTo504(block) => block.as_bytes(),
            LongBlock::UpTo760(block) => block.as_bytes(),
            LongBlock::UpTo1024(block) => block.as_bytes(),
        }
    }

    /// The same block, shared by one more.
    #[inline(never)] // the type says why
    pub(crate) fn share(&self) -> Result<LongBlock, Memory>
        ensures { IfOk result (λ copy. bytes_in copy ≡ bytes_in self.now) }
    {
        match self {
            LongBlock::UpTo120(block) => Ok(LongBlock::UpTo120(Block::share(block)?)),
            LongBlock::UpTo184(block) => Ok(LongBlock::UpTo184(Block::share(block)?)),
            LongBlock::UpTo248(block) => Ok(LongBlock::UpTo248(Block::share(block)?)),
            LongBlock::UpTo376(block) => Ok(LongBlock::UpTo376(Block::share(block)?)),
            LongBlock::UpTo504(block) => Ok(LongBlock::UpTo504(Block::share(block)?)),
            LongBlock::UpTo760(block) => Ok(LongBlock::UpTo760(Block::share(block)?)),
            LongBlock::UpTo1024(block) => Ok(LongBlock::UpTo1024(Block::share(block)?)),
        }
    }
}
