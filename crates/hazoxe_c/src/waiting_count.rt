// The calls of the library that count.
ghost use Rattle.std.specs.Prelude.{◌≡◌};
ghost use Rattle.hazoxe_c.specs.Asking.{Serves};
ghost use Rattle.hazoxe_c.specs.Taking.{Waits, Counted};

use crate::counts::Counts;
use crate::fault::{Fault, code};
use crate::subject::Subject;
use std::alloc::Global;

/// How many notes wait for observer `who`, the terminal included, is written to `count`. Refused in the order `NoSubject`,
/// `NoObserver`; then `count` stays as it was.
#[unsafe(no_mangle)]
pub extern "C" fn hazoxe_proved_waiting(
    alloc: Global,
    subject: &mut Subject,
    who: u32,
    count: &mut usize,
) -> u32
    ensures { Serves subject.old.handle.value subject.new.handle.value result (count.new ≡ count.old) (Waits who count.old count.new) }
{
    let Some(desk) = subject.take(alloc) else {
        return code(Err(Fault::NoSubject));
    };
    let told = desk.waiting(who, count);
    subject.put(desk);
    code(told)
}

/// What can be counted of the subject. `NoSubject` where there is none; then `counts` stays as it was.
#[unsafe(no_mangle)]
pub extern "C" fn hazoxe_proved_count(
    alloc: Global,
    subject: &mut Subject,
    counts: &mut Counts,
) -> u32
    ensures { Serves subject.old.handle.value subject.new.handle.value result (counts.new ≡ counts.old) (Counted counts.old counts.new) }
{
    let Some(desk) = subject.take(alloc) else {
        return code(Err(Fault::NoSubject));
    };
    *counts = desk.counts();
    subject.put(desk);
    code(Ok(()))
}
