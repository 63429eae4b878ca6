// The calls of the library by which a subject is made and let go.
ghost use Rattle.std.specs.Result.{result_map_both};
ghost use Rattle.hazoxe_c.specs.Opening.{Opens, Closes, Made};

use crate::desk::Desk;
use crate::fault::{Fault, code};
use crate::subject::Subject;
use crate::subject_rules::SubjectRules;
use std::alloc::Global;

/// Makes the subject that is asked for, in a struct that holds none. Refused in the order `HoldsSubject`, that of
/// `SubjectRules::check`, `Memory`; then the struct stays as it was.
#[unsafe(no_mangle)]
pub extern "C" fn hazoxe_proved_open(
    alloc: Global,
    subject: &mut Subject,
    rules: &SubjectRules,
    seed: &[u8],
) -> u32
    ensures { Opens rules.now seed.now subject.old.handle.value subject.new.handle.value result }
{
    if subject.is_held() {
        return code(Err(Fault::HoldsSubject));
    }
    match open_box(alloc, rules, seed) {
        Ok(desk) => {
            subject.put(desk);
            code(Ok(()))
        }
        Err(fault) => code(Err(fault)),
    }
}

// The desk in a block of its own.
fn open_box(alloc: Global, rules: &SubjectRules, seed: &[u8]) -> Result<Box<Desk, Global>, Fault>
    ensures { Made rules.now seed.now (result_map_both (λ b. b.value) (λ fault. fault) result) }
{
    let desk = Desk::open(alloc, rules, seed)?;
    match Box::new(alloc, desk) {
        Ok(desk) => Ok(desk),
        Err(_) => Err(Fault::MEMORY),
    }
}

/// Lets go of a subject, with the notes that were not taken. `NoSubject` where the struct holds none.
#[unsafe(no_mangle)]
pub extern "C" fn hazoxe_proved_close(alloc: Global, subject: &mut Subject) -> u32
    ensures { Closes subject.old.handle.value subject.new.handle.value result }
{
    match subject.take(alloc) {
        Some(_) => code(Ok(())),
        None => code(Err(Fault::NoSubject)),
    }
}
