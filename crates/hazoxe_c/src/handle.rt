ghost use Rattle.std.specs.Prelude.{◌≡◌, Option, Some, true, is_some};
ghost use Rattle.hazoxe_c.specs.Desks.{DeskView};

use crate::desk::Desk;
use crate::loose::Loose;
use std::alloc::Global;
use std::marker::{Model, Send};
use std::ptr;

/// The one owner of a desk, in a form that a program in C can keep: its address, or nothing. Contracts see what it owns.
#[repr(C)]
pub struct Handle {
    at: *mut u8,
    pub ghost value: { Option DeskView },
}

impl Model for Handle {
    ghost use Rattle.hazoxe_c.specs.Held.{held_at};

    ghost also_owns = { λ h. held_at h.at h.value };
}

impl Handle {
    /// The handle that owns nothing.
    pub(crate) fn empty() -> Handle
        ensures { result.value ≡ None }
    {
        Handle {
            at: ptr::null_mut(),
        }
    }

    fn of(desk: Loose<Desk, Global>) -> Handle
        ensures { result.value ≡ Some desk.value }
    {
        let Loose { at, alloc: _ } = desk;
        Handle { at: at as *mut u8 }
    }

    fn into_loose(self, alloc: Global) -> Loose<Desk, Global>
        requires { is_some self.value ≡ true }
        ensures { Some result.value ≡ self.value }
    {
        let Handle { at } = self;
        Loose {
            at: at as *mut Desk,
            alloc,
        }
    }

    /// The handle of this desk.
    #[inline(always)] // on the path of every call
    pub(crate) fn of_desk(desk: Box<Desk, Global>) -> Handle
        ensures { result.value ≡ Some desk.value }
    {
        Handle::of(Loose::of(desk))
    }

    /// The desk that it owns.
    #[inline(always)] // on the path of every call
    pub(crate) fn into_desk(self, alloc: Global) -> Box<Desk, Global>
        requires { is_some self.value ≡ true }
        ensures { Some result.value ≡ self.value }
    {
        self.into_loose(alloc).into_box()
    }

    /// Lets go of a handle that owns nothing.
    #[inline(always)] // on the path of every call
    pub(crate) fn forget(self)
        requires { self.value ≡ None }
    {
        let Handle { at: _ } = self;
    }
}

// A desk may go to another thread, and a handle owns nothing else: `proofs/handle/Handle/TheSendSync`.
unsafe impl Send for Handle {}
