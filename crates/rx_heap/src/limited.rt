// A block that it hands out is memory of the size and alignment asked for, which the allocator within handed out; what is
// given back goes back to that allocator, and any thread may give it back where that allocator allows it; a block that could
// not be resized is as it was.
//
// A heap has a `shrink` of its own, though the allocator's trait has one. The trait's own takes a new block before it gives
// the old one back, so a list within a budget could find no room to be cut; and a proof that rests on a body of the trait's
// is checked anew in each crate above, with all that cites it: in the hub more than a quarter of what was checked was proofs
// of the crates below.
ghost use Rattle.std.specs.Prelude.{◌≡◌, ◌^◌, min, IfOk, None, Some};

use crate::budget::Budget;
use crate::limit::Limit;
use crate::refused::Memory;
use std::alloc::{AllocError, Allocator, Global};
use std::mem::size_of;

/// An allocator under a limit, which its clones share.
///
/// A block is charged to the handle that allocated it, with the bytes that were asked for, and its bytes come back when it is
/// given back. So a text is charged to the heap that it was made over, whoever holds a copy of it. A collection that grows
/// needs the bytes that it has more; one that is cut to its length gives those back that it has less.
#[derive(Clone)]
pub struct Limited<B: Allocator + Drop> {
    inner: B,
    limit: Limit,
}

// By hand: rx_heap says why.
impl<B: Allocator + Drop> Drop for Limited<B> {
    #[inline(always)] // nothing is done
    fn drop(self) {
        let Limited { inner: _, limit: _ } = self;
    }
}

impl Limited<Global> {
    /// All memory of `alloc`: it refuses only what `alloc` does, and counts nothing. Making it takes no memory.
    pub fn unlimited(alloc: Global) -> Limited<Global>
        ensures { result.limit ≡ None }
    {
        Limited {
            inner: alloc,
            limit: Limit::none(),
        }
    }

    /// No more than `bytes` bytes of `alloc` at a time, for all clones together and from any thread; at most 2^48.
    ///
    /// It errs on the safe side: two threads never get the same bytes, but one may be refused while a refusal of the other's
    /// is under way. The count itself, some 50 bytes, stays until the program ends: make one for a part of the program, and
    /// none for each call.
    ///
    /// # Errors
    ///
    /// `Memory`: there was none for the count itself, which is not charged to the budget.
    pub fn with_budget(alloc: Global, bytes: u64) -> Result<Limited<Global>, Memory>
        ensures { IfOk result (λ heap. heap.limit ≡ Some (min bytes (2 ^ 48))) }
    {
        Limited::under(alloc, Budget::of_bytes(bytes))
    }

    /// All memory of `alloc`, but the growth of this number alone is refused: counted from 0, over all clones, whether it
    /// allocates a block anew or resizes one. For tests of what a refusal leaves.
    ///
    /// # Errors
    ///
    /// `Memory`: there was none for the count itself.
    pub fn refusing(alloc: Global, growth: u64) -> Result<Limited<Global>, Memory> {
        Limited::under(alloc, Budget::refusing(growth))
    }

    fn under(alloc: Global, budget: Budget) -> Result<Limited<Global>, Memory>
        ensures { IfOk result (λ heap. heap.limit ≡ Some budget.most) }
    {
        let limit = Limit::of(alloc, budget)?;
        Ok(Limited {
            inner: alloc,
            limit,
        })
    }

    /// The bytes that all clones hold together at this moment, refused growths that are under way counted in; 0 where there
    /// is no limit.
    pub fn used(&self) -> u64 {
        self.limit.used()
    }

    /// The growths that all clones have asked for so far, refused ones counted in; 0 where there is no limit.
    pub fn asked(&self) -> u64 {
        self.limit.asked()
    }
}

// `shrink` is written out, though the trait has one, since the proof of the trait's would be checked anew in each crate above,
// with all that rests on it.
unsafe impl<B: Allocator + Drop> Allocator for Limited<B> {
    ghost dealloc_token = { λ heap ty ptr. B.dealloc_token heap.inner ty ptr };

    fn allocate(&self, size: usize, align: usize) -> Result<*mut u8, AllocError> {
        if self.limit.refuses(size) {
            return Err(AllocError);
        }
        match self.inner.allocate(size, align) {
            Ok(block) => Ok(block),
            Err(refused) => {
                self.limit.regains(size);
                Err(refused)
            }
        }
    }

    unsafe fn deallocate(&self, ptr: *mut u8, size: usize, align: usize) {
        self.inner.deallocate(ptr, size, align);
        self.limit.regains(size);
    }

    unsafe fn grow<T>(
        &self,
        ptr: *mut T,
        len: usize,
        old_cap: usize,
        new_cap: usize,
    ) -> Result<*mut T, AllocError> {
        if self.limit.refuses_change(old_cap, new_cap, size_of::<T>()) {
            return Err(AllocError);
        }
        match self.inner.grow(ptr, len, old_cap, new_cap) {
            Ok(block) => Ok(block),
            Err(refused) => {
                self.limit.regains_change(old_cap, new_cap, size_of::<T>());
                Err(refused)
            }
        }
    }

    unsafe fn shrink<T>(
        &self,
        ptr: *mut T,
        len: usize,
        old_cap: usize,
        new_cap: usize,
    ) -> Result<*mut T, AllocError> {
        if self.limit.refuses_change(old_cap, new_cap, size_of::<T>()) {
            return Err(AllocError);
        }
        match self.inner.shrink(ptr, len, old_cap, new_cap) {
            Ok(block) => {
                self.limit.regains_change(new_cap, old_cap, size_of::<T>());
                Ok(block)
            }
            Err(refused) => Err(refused),
        }
    }
}
