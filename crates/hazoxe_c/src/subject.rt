ghost use Rattle.std.specs.Prelude.{◌≡◌, is_some, ◌==◌, option_map};
ghost use Rattle.hazoxe_c.specs.declared.subject.TheConstants.{HELD};

use crate::desk::Desk;
use crate::handle::Handle;
use std::alloc::Global;
use std::mem;

/// What stands in the struct of a program in C that holds a subject, so that one in which something else stands is told.
const HELD: u64 = 0x4861_7a6f_7865_2e31;

/// What a program in C keeps of a subject. All zeroes hold none.
#[repr(C)]
pub struct Subject {
    handle: Handle,
    mark: u64,
    ghost marked: { is_some handle.value ≡ (mark == HELD) },
}

impl Subject {
    /// Whether it holds a subject.
    pub(crate) fn is_held(&self) -> bool
        ensures { result ≡ is_some self.now.handle.value }
    {
        self.mark == HELD
    }

    /// Takes the desk out, where there is one.
    #[inline(always)] // on the path of every call
    pub(crate) fn take(&mut self, alloc: Global) -> Option<Box<Desk, Global>>
        ensures desk { option_map (λ b. b.value) result ≡ self.old.handle.value }
        ensures left { self.new.handle.value ≡ None }
    {
        if self.mark != HELD {
            return None;
        }
        let empty = Subject {
            handle: Handle::empty(),
            mark: 0,
        };
        let Subject { handle, mark: _ } = mem::replace(self, empty);
        Some(handle.into_desk(alloc))
    }

    /// Puts a desk into a struct that holds none.
    #[inline(always)] // on the path of every call
    pub(crate) fn put(&mut self, desk: Box<Desk, Global>)
        requires { self.old.handle.value ≡ None }
        ensures { self.new.handle.value ≡ Some desk.value }
    {
        let full = Subject {
            handle: Handle::of_desk(desk),
            mark: HELD,
        };
        let Subject { handle, mark: _ } = mem::replace(self, full);
        handle.forget();
    }
}
