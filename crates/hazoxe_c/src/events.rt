// The calls of the library that are an event of a subject each.
ghost use Rattle.std.specs.Prelude.{◌≡◌};
ghost use Rattle.rx_note.specs.declared.note.Note.TheVariants.{Completed, Failed};
ghost use Rattle.rx_note.specs.declared.event.Event.TheVariants.{Emit, Request, Dispose};
ghost use Rattle.hazoxe_c.specs.Desks.{Stepped, Emitted, item_note};
ghost use Rattle.hazoxe_c.specs.Asking.{Serves, Joins, policy_read};

use crate::fault::{Fault, code};
use crate::policies::read_policy;
use crate::subject::Subject;
use std::alloc::Global;

/// A producer emits an item of this text, by a port, at a moment in milliseconds. Refused in the order `NoSubject`, `TooLong`,
/// `HasLf`, `Memory` for the text, `Ended`, `Spent`, `Memory`.
#[unsafe(no_mangle)]
pub extern "C" fn hazoxe_proved_next(
    alloc: Global,
    subject: &mut Subject,
    port: u32,
    at: u64,
    text: &[u8],
) -> u32
    ensures { Serves subject.old.handle.value subject.new.handle.value result (Unit {0}) (Emitted port at item_note text.now) }
{
    let Some(mut desk) = subject.take(alloc) else {
        return code(Err(Fault::NoSubject));
    };
    let told = desk.next(port, at, text);
    subject.put(desk);
    code(told)
}

/// A producer completes the subject. Refused in the order `NoSubject`, `Ended`, `Memory`.
#[unsafe(no_mangle)]
pub extern "C" fn hazoxe_proved_complete(
    alloc: Global,
    subject: &mut Subject,
    port: u32,
    at: u64,
) -> u32
    ensures { Serves subject.old.handle.value subject.new.handle.value result (Unit {0}) (Stepped (port, Emit Completed at)) }
{
    let Some(mut desk) = subject.take(alloc) else {
        return code(Err(Fault::NoSubject));
    };
    let told = desk.complete(port, at);
    subject.put(desk);
    code(told)
}

/// A producer ends the subject by an error of this text. Refused as `hazoxe_proved_next`, but for `Spent`.
#[unsafe(no_mangle)]
pub extern "C" fn hazoxe_proved_error(
    alloc: Global,
    subject: &mut Subject,
    port: u32,
    at: u64,
    text: &[u8],
) -> u32
    ensures { Serves subject.old.handle.value subject.new.handle.value result (Unit {0}) (Emitted port at Failed text.now) }
{
    let Some(mut desk) = subject.take(alloc) else {
        return code(Err(Fault::NoSubject));
    };
    let told = desk.fail(port, at, text);
    subject.put(desk);
    code(told)
}

/// An observer joins at a moment in milliseconds, with a policy (`read_policy`) and a request of `first` items, and its number
/// is written to `who`. Refused in the order `NoSubject`, that of `read_policy`, `Full`, `Spent`, `Memory`; then `who` stays.
#[unsafe(no_mangle)]
pub extern "C" fn hazoxe_proved_join(
    alloc: Global,
    subject: &mut Subject,
    strategy: u32,
    room: u32,
    errors: u32,
    first: u32,
    at: u64,
    who: &mut u32,
) -> u32
    ensures { Serves subject.old.handle.value subject.new.handle.value result (who.new ≡ who.old)
        (λ old new. Joins (policy_read strategy room errors) first at old new who.old who.new) }
{
    let Some(mut desk) = subject.take(alloc) else {
        return code(Err(Fault::NoSubject));
    };
    let told = match read_policy(strategy, room, errors) {
        Ok(policy) => desk.join(policy, first, at, who),
        Err(fault) => Err(fault),
    };
    subject.put(desk);
    code(told)
}

/// Observer `who` requests `n` items more. Refused in the order `NoSubject`, `ZeroRequest`, `NoObserver`, `TooMuch`, `Memory`.
#[unsafe(no_mangle)]
pub extern "C" fn hazoxe_proved_request(
    alloc: Global,
    subject: &mut Subject,
    who: u32,
    n: u32,
) -> u32
    ensures { Serves subject.old.handle.value subject.new.handle.value result (Unit {0}) (Stepped (0, Request who n)) }
{
    let Some(mut desk) = subject.take(alloc) else {
        return code(Err(Fault::NoSubject));
    };
    let told = desk.request(who, n);
    subject.put(desk);
    code(told)
}

/// Observer `who` leaves, with what waits for it. Refused in the order `NoSubject`, `NoObserver`; it takes no memory.
#[unsafe(no_mangle)]
pub extern "C" fn hazoxe_proved_dispose(alloc: Global, subject: &mut Subject, who: u32) -> u32
    ensures { Serves subject.old.handle.value subject.new.handle.value result (Unit {0}) (Stepped (0, Dispose who)) }
{
    let Some(mut desk) = subject.take(alloc) else {
        return code(Err(Fault::NoSubject));
    };
    let told = desk.dispose(who);
    subject.put(desk);
    code(told)
}
