ghost use Rattle.std.specs.Prelude.{◌≡◌, ◌≤◌, true, false, length, IfOk};

use crate::block::Block;
use crate::front::Front;
use crate::long_block::LongBlock;
use rx_heap::{Heap, Memory};
use std::sync::Arc;

/// The most bytes of a short text, so many that a `Text` has 24 bytes in all, and that its words are moved whole.
const SHORT: usize = 20;

/// The most bytes of a medium text, so many that its block has 64 in all.
const MEDIUM: usize = 56;

/// Where the bytes of a text are. Most texts are short: these take no memory, and their copies touch no count. A longer one
/// takes one growth.
pub(crate) enum Body {
    /// Here, the first `len` of these.
    Short { len: u16, bytes: [u8; SHORT] },
    /// In a small block that the copies share.
    Medium(Arc<Block<MEDIUM>, Heap>),
    /// In a larger one.
    Long(LongBlock),
}

// By hand, so that to let a text go is one step in each function that does, whichever form it has.
impl Drop for Body {
    #[inline(always)] // a short one costs its holder a test
    fn drop(self) {
        match self {
            Body::Short { len: _, bytes: _ } => {}
            Body::Medium(block) => let_go(block),
            Body::Long(block) => let_go_long(block),
        }
    }
}

// Lets go of a block that the copies share. It is kept out of line, so that to let a short text go costs one test. The block is
// taken out of its count, which is cheaper where no copy shares it.
#[inline(never)] // said above
fn let_go(block: Arc<Block<MEDIUM>, Heap>) {
    drop(Arc::try_unwrap(block));
}

// Lets go of a larger one, which isn't taken out, since that would move its bytes.
#[inline(never)] // as of the small ones
fn let_go_long(block: LongBlock) {
    drop(block);
}

impl Body {
    ghost use Rattle.rx_note.specs.Bodies.{bytes_of, IsWithin};
    ghost use Rattle.rx_note.specs.Fronts.{front_bytes, IsFront};

    /// The body of these bytes.
    #[inline(always)] // a short one is made in its place
    pub(crate) fn new(alloc: Heap, bytes: &[u8]) -> Result<Body, Memory>
        requires { length bytes.now ≤ 1024 }
        ensures bytes { IfOk result (λ body. bytes_of body ≡ bytes.now) }
        ensures within { IfOk result (λ body. IsWithin body) }
    {
        if bytes.len() <= SHORT {
            return Ok(Body::short(bytes));
        }
        Body::shared(alloc, bytes)
    }

    // The body of bytes that the copies share. It is kept out of line, so that a short text is made in place.
    #[inline(never)] // said above
    fn shared(alloc: Heap, bytes: &[u8]) -> Result<Body, Memory>
        requires { length bytes.now ≤ 1024 }
        ensures bytes { IfOk result (λ body. bytes_of body ≡ bytes.now) }
        ensures within { IfOk result (λ body. IsWithin body) }
    {
        if bytes.len() <= MEDIUM {
            Ok(Body::Medium(Block::shared(alloc, bytes)?))
        } else {
            Ok(Body::Long(LongBlock::new(alloc, bytes)?))
        }
    }

    #[inline(always)] // a part of `new`
    fn short(bytes: &[u8]) -> Body
        requires { length bytes.now ≤ 20 }
        ensures bytes { bytes_of result ≡ bytes.now }
        ensures within { IsWithin result }
    {
        let len = bytes.len();
        let mut front = [0; SHORT];
        front[..len].copy_from_slice(bytes);
        Body::Short {
            len: len as u16,
            bytes: front,
        }
    }

    /// Puts these bytes in the place of its own, where it stands in a block that has room for them, and no much larger one, no
    /// copy shares it, and they are too many for a short text. Whether it did so.
    #[inline] // a part of what a text does
    pub(crate) fn refill(&mut self, bytes: &[u8]) -> bool
        ensures bytes { result ≡ true → bytes_of self.new ≡ bytes.now }
        ensures within { result ≡ true → IsWithin self.new }
        ensures kept { result ≡ false → self.new ≡ self.old }
    {
        match self {
            Body::Medium(block) if bytes.len() > SHORT && bytes.len() <= MEDIUM => {
                Block::refill(block, bytes)
            }
            Body::Long(block) => block.refill(bytes),
            _ => false,
        }
    }

    /// Whether its bytes stand in a block.
    pub(crate) fn has_block(&self) -> bool {
        match self {
            Body::Short { .. } => false,
            Body::Medium(_) | Body::Long(_) => true,
        }
    }

    /// The bytes.
    pub(crate) fn as_bytes(&self) -> &[u8]
        requires { IsWithin self.now }
        ensures { result.now ≡ bytes_of self.now }
    {
        match self {
            Body::Short { len, bytes } => &bytes[..*len as usize],
            Body::Medium(block) => block.as_bytes(),
            Body::Long(block) => block.as_bytes(),
        }
    }

    /// The bytes, for one who copies them.
    #[inline(always)] // a part of what a text does
    pub(crate) fn front(&self) -> Front<'_>
        requires { IsWithin self.now }
        ensures bytes { front_bytes result ≡ bytes_of self.now }
        ensures within { IsFront result }
    {
        match self {
            Body::Short { len, bytes } => Front::UpTo20(bytes, *len as usize),
            Body::Medium(block) => {
                let (bytes, len) = block.padded();
                Front::UpTo56(bytes, len)
            }
            Body::Long(block) => Front::Whole(block.as_bytes()),
        }
    }

    /// A body of the same bytes.
    pub(crate) fn copy(&self) -> Result<Body, Memory>
        requires { IsWithin self.now }
        ensures bytes { IfOk result (λ body. bytes_of body ≡ bytes_of self.now) }
        ensures within { IfOk result (λ body. IsWithin body) }
    {
        match self {
            Body::Short { len, bytes } => Ok(Body::Short {
                len: *len,
                bytes: *bytes,
            }),
            Body::Medium(block) => Ok(Body::Medium(Block::share(block)?)),
            Body::Long(block) => Ok(Body::Long(block.share()?)),
        }
    }
}
