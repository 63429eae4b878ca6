// What waits in the sinks goes out, as far as it can now.
//
// A sink in which nothing waits may have something to do all the same: one whose reader is gone may have its fault, one whose reader was
// told nothing for long tells it that. A drainer that rests looks after all of them then (`look_after`); one that never does so behind
// each 16th turn (`Rounds`), so that none is forgotten however much comes for the others.
//
// When a server closes, it is the drainer that waits for peers, for a quarter of a second in all, in rounds over all its
// sinks (`flushing::flush_last`); a wait of each writer's own as it goes would add up.
ghost use Rattle.std.specs.Prelude.{◌≡◌, ◌+◌, ◌<◌, ◌≤◌, false, None, vec_len};
ghost use Rattle.rx_pump.specs.Pumps.{AreSame};
ghost use Rattle.rx_drain.specs.Drainers.{Fits, FlushesAll, FlushesAt, any_may_wait, view_of};

use crate::drainer::asks::send_asks;
use crate::{DrainFault, DrainerLeft};
use rx_mailbox::nudge_all;
use rx_sink::{Kept, Sink, flush_one};
use std::sync::Wait;
use std::sync::atomic::AtomicU64;
use std::time::Duration;

// How often the sinks are flushed before the drainer leaves, and for how many milliseconds it rests after each time: a quarter
// of a second in all.
const LAST_ROUNDS: u32 = 25;

const LAST_REST: u64 = 10;

// Flushes each sink in which something may wait, and asks the subjects for what is due of those that are not stuck. It
// answers the fault, if there is one.
fn flush_all<S: Sink, R: Wait>(
    rt: &R,
    hands: &mut DrainerLeft<S>,
    leave: usize,
) -> Option<DrainFault>
    requires { Fits leave false None hands.old }
    ensures fits { Fits leave false result hands.new }
    ensures inbox { hands.new.parts.inbox ≡ hands.old.parts.inbox }
    ensures ports { AreSame (view_of hands.old false None).ports (view_of hands.new false result).ports }
    ensures keeps { hands.new.put_away.keeps ≡ hands.old.put_away.keeps }
    ensures flushes { FlushesAll S.acts (view_of hands.old false None) (view_of hands.new false result) }
{
    flush_due(rt, hands, leave, false)
}

// Flushes all sinks, also those in which nothing waits: one whose reader is gone may have its fault then. It answers the fault
// of a subject, if there is one.
pub(crate) fn look_after<S: Sink, R: Wait>(
    rt: &R,
    hands: &mut DrainerLeft<S>,
    leave: usize,
) -> Option<DrainFault>
    requires { Fits leave false None hands.old }
    ensures fits { Fits leave false result hands.new }
    ensures inbox { hands.new.parts.inbox ≡ hands.old.parts.inbox }
    ensures ports { AreSame (view_of hands.old false None).ports (view_of hands.new false result).ports }
    ensures keeps { hands.new.put_away.keeps ≡ hands.old.put_away.keeps }
    ensures flushes { FlushesAll S.acts (view_of hands.old false None) (view_of hands.new false result) }
{
    flush_due(rt, hands, leave, true)
}

// Flushes all sinks, or each in which something may wait, and asks the subjects for what is due of those that are not stuck. It
// answers the fault, if there is one.
pub(crate) fn flush_due<S: Sink, R: Wait>(
    rt: &R,
    hands: &mut DrainerLeft<S>,
    leave: usize,
    all: bool,
) -> Option<DrainFault>
    requires { Fits leave false None hands.old }
    ensures fits { Fits leave false result hands.new }
    ensures inbox { hands.new.parts.inbox ≡ hands.old.parts.inbox }
    ensures ports { AreSame (view_of hands.old false None).ports (view_of hands.new false result).ports }
    ensures keeps { hands.new.put_away.keeps ≡ hands.old.put_away.keeps }
    ensures flushes { FlushesAll S.acts (view_of hands.old false None) (view_of hands.new false result) }
{
    let fault = flush_each(rt, hands, leave, all);
    let _is_left = nudge_all(rt, &mut hands.parts.subjects);
    fault
}

// Flushes all sinks, or each in which something may wait. What it asks for may be held back, so that many requests go
// at once.
fn flush_each<S: Sink, R: Wait>(
    rt: &R,
    hands: &mut DrainerLeft<S>,
    leave: usize,
    all: bool,
) -> Option<DrainFault>
    requires { Fits leave false None hands.old }
    ensures fits { Fits leave false result hands.new }
    ensures inbox { hands.new.parts.inbox ≡ hands.old.parts.inbox }
    ensures ports { AreSame (view_of hands.old false None).ports (view_of hands.new false result).ports }
    ensures keeps { hands.new.put_away.keeps ≡ hands.old.put_away.keeps }
    ensures flushes { FlushesAll S.acts (view_of hands.old false None) (view_of hands.new false result) }
{
    // From the last one on, so that a sink that is put away leaves the places of those to come as they are.
    let mut place = hands.kept.len();
    while place > 0 {
        place -= 1;
        if all || hands.kept[place].may_wait {
            let fault = flush_at(rt, hands, leave, place);
            if fault.is_some() {
                return fault;
            }
        }
    }
    None
}

// Flushes the sinks until nothing waits in any, but for about a quarter of a second at most, all of them together. It answers
// the fault, if there is one.
pub(crate) fn flush_last<S: Sink, R: Wait>(
    rt: &R,
    hands: &mut DrainerLeft<S>,
    leave: usize,
) -> Option<DrainFault>
    requires { Fits leave false None hands.old }
    ensures fits { Fits leave false result hands.new }
    ensures inbox { hands.new.parts.inbox ≡ hands.old.parts.inbox }
    ensures ports { AreSame (view_of hands.old false None).ports (view_of hands.new false result).ports }
    ensures keeps { hands.new.put_away.keeps ≡ hands.old.put_away.keeps }
    ensures flushes { FlushesAll S.acts (view_of hands.old false None) (view_of hands.new false result) }
{
    for _ in 0..LAST_ROUNDS {
        let fault = flush_all(rt, hands, leave);
        if fault.is_some() {
            return fault;
        }
        if !may_wait(&hands.kept) {
            return None;
        }
        rest(rt);
    }
    flush_all(rt, hands, leave)
}

// Lets some milliseconds pass: nobody wakes it.
fn rest<R: Wait>(rt: &R) {
    AtomicU64::new(0).park_timeout(rt, 0, Duration::from_millis(LAST_REST));
}

// Whether something may wait in one of the sinks.
pub(crate) fn may_wait<S: Sink>(kept: &[Kept<S>]) -> bool
    ensures { result ≡ any_may_wait kept.now }
{
    kept.iter().any(|one| one.may_wait)
}

// Flushes the sink at this place, and asks its subject for what is due, unless the sink is stuck. It answers the fault, if
// there is one.
fn flush_at<S: Sink, R: Wait>(
    rt: &R,
    hands: &mut DrainerLeft<S>,
    leave: usize,
    place: usize,
) -> Option<DrainFault>
    requires within { place < vec_len hands.old.kept }
    requires fits { Fits leave false None hands.old }
    ensures fits { Fits leave false result hands.new }
    ensures inbox { hands.new.parts.inbox ≡ hands.old.parts.inbox }
    ensures ports { AreSame (view_of hands.old false None).ports (view_of hands.new false result).ports }
    ensures keeps { hands.new.put_away.keeps ≡ hands.old.put_away.keeps }
    ensures len { vec_len hands.old.kept ≤ vec_len hands.new.kept + 1 }
    ensures flushes { FlushesAt S.acts place (view_of hands.old false None) (view_of hands.new false result) }
{
    let one = &hands.kept[place];
    let subject = one.subject;
    let who = one.who;
    let asks = flush_one(&mut hands.kept, &mut hands.put_away, place, subject, who);
    send_asks(rt, &mut hands.parts.subjects, subject, asks)
}
