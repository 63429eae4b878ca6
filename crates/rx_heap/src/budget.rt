ghost use Rattle.std.specs.Prelude.{◌≡◌, ◌^◌, min};

use std::sync::atomic::{AtomicU64, Ordering};

/// What the clones of one handle have taken together, and what they may take.
#[derive(Drop)]
pub(crate) struct Budget {
    most: u64,
    refused: Option<u64>,
    used: AtomicU64,
    asked: AtomicU64,
}

/// The most bytes of a budget: no machine has more addresses, and no count of bytes below it can wrap.
const MAX_BYTES: u64 = 1 << 48;

impl Budget {
    /// A budget of `bytes` bytes.
    pub(crate) fn of_bytes(bytes: u64) -> Budget
        ensures { result.most ≡ min bytes (2 ^ 48) }
    {
        Budget::new(bytes.min(MAX_BYTES), None)
    }

    /// A budget without a bound that refuses the growth of this number alone, counted from 0.
    pub(crate) fn refusing(growth: u64) -> Budget {
        Budget::new(MAX_BYTES, Some(growth))
    }

    fn new(most: u64, refused: Option<u64>) -> Budget
        ensures { result.most ≡ most }
    {
        Budget {
            most,
            refused,
            used: AtomicU64::new(0),
            asked: AtomicU64::new(0),
        }
    }

    /// Takes `size` bytes, or none where they are refused.
    ///
    /// It adds first and looks then, so that two threads never get the same bytes. So a thread may be refused while another
    /// one's refusal is under way, which errs on the safe side.
    ///
    /// It is kept out of line, and `regains` in line, so that a growth without a limit stays short.
    #[cold]
    #[inline(never)] // said above
    pub(crate) fn takes(&self, size: u64) -> bool {
        let growth = self.asked.fetch_add(1, Ordering::SeqCst);
        if self.refused == Some(growth) || size > self.most {
            return false;
        }
        let used = self.used.fetch_add(size, Ordering::SeqCst);
        if used <= self.most - size {
            return true;
        }
        self.regains(size);
        false
    }

    /// Takes `size` bytes back.
    #[inline(always)] // said at `takes`
    pub(crate) fn regains(&self, size: u64) {
        self.used.fetch_sub(size, Ordering::SeqCst);
    }

    pub(crate) fn used(&self) -> u64 {
        self.used.load(Ordering::SeqCst)
    }

    pub(crate) fn asked(&self) -> u64 {
        self.asked.load(Ordering::SeqCst)
    }
}
