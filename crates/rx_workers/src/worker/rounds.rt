// The connections of a worker, each served by a session among the others.
ghost use Rattle.std.specs.Prelude.{◌≡◌, false};
ghost use Rattle.rx_workers.specs.Clients.{IsQuiet};
ghost use Rattle.rx_workers.specs.Watching.{AreWatched};
ghost use Rattle.rx_workers.specs.Working.{DoesSome};

use crate::readiness::Readiness;
use crate::worker::shift::Shift;
use rx_desk::Moments;
use std::io::{Read, Write};
use std::sync::Wait;

// The clients that are served before it is asked again whether a connection came.
const MOST_READY: u32 = 1_024;

// Serves each connection that comes, until the Bye or until none comes any more, and then until each session has ended.
pub(crate) fn serve_all<
    'a,
    R: Wait,
    M: Moments + Drop,
    C: Read + Drop,
    W: Write + Drop,
    P: Readiness<C>,
>(rt: &R, shift: &mut Shift<'a, R, M, C, W>, readiness: &mut P)
    requires { AreWatched (P.watched readiness.old) shift.old.clients }
    ensures goes { DoesSome M.tells C.remaining W.contents shift.old shift.new }
    ensures closed { shift.new.is_open ≡ false }
    ensures quiet { IsQuiet shift.new.clients }
    ensures watched { AreWatched (P.watched readiness.new) shift.new.clients }
{
    for _ in rt.forever() {
        shift.admit_all(rt, readiness);
        if shift.is_over() {
            return;
        }
        readiness.wait();
        serve_ready(shift, readiness);
    }
    unreachable!()
}

// Serves the clients that are ready.
fn serve_ready<'a, R: Wait, M: Moments + Drop, C: Read + Drop, W: Write + Drop, P: Readiness<C>>(
    shift: &mut Shift<'a, R, M, C, W>,
    readiness: &mut P,
)
    requires { AreWatched (P.watched readiness.old) shift.old.clients }
    ensures goes { DoesSome M.tells C.remaining W.contents shift.old shift.new }
    ensures watched { AreWatched (P.watched readiness.new) shift.new.clients }
{
    for _ in 0..MOST_READY {
        let Some(ready) = readiness.next() else {
            return;
        };
        shift.serve(ready, readiness);
    }
}
