// What a turn of a session leaves at its place.
//
// A peer that hung up is found by the worker that had its session: it goes on to watch the connection for that alone, and
// disposes of the observer by its own desk. The writer, as it goes, shuts the connection down, so that the peer hears the end
// though the worker still watches. That an observer has left by then is an answer like any other.
ghost use Rattle.std.specs.Prelude.{◌≡◌, Some};
ghost use Rattle.rx_workers.specs.Watching.{IsAimed, Watches, WatchesSame, aim_of};
ghost use Rattle.rx_workers.specs.Talks.{GoesOn, Leaves, goes_at_once, left_by};

use crate::readiness::{Aim, Readiness};
use crate::worker::client::{Client, Follower, Talk};
use rx_desk::Joined;
use rx_heap::Heap;
use rx_session::{SessionEnd, Turn};

/// Where a session pauses, and for what its connection was watched: after the last turn for now one that would go on at once
/// is told again by the next wait.
#[derive(Clone, Copy)]
pub struct Pause {
    /// The place of the session.
    pub place: usize,
    /// Whether it has no further turn now.
    pub is_last: bool,
    /// What its connection is watched for.
    pub aim: Aim,
}

/// What is left by a turn that came to this: whether the session goes on at once, and who is at its place.
pub fn leave<C: Drop, W: Drop, T: Drop, P: Readiness<C>>(
    turned: Turn<W>,
    reader: C,
    session: Box<T, Heap>,
    joined: Option<Joined>,
    pause: Pause,
    readiness: &mut P,
) -> (bool, Option<Client<C, W, T>>)
    requires { P.watched readiness.old pause.place ≡ Some pause.aim }
    ensures goes_on { result.0 ≡ goes_at_once turned }
    ensures leaves { Leaves turned reader session.value joined result.1 }
    ensures aimed { IsAimed turned pause.aim result.1 }
    ensures watched { Watches pause.place (aim_of result.1) (P.watched readiness.old) (P.watched readiness.new) }
{
    match turned {
        Turn::Again(writer) => {
            again::<C, P>(pause, readiness);
            (true, talks(reader, writer, session, pause.aim))
        }
        Turn::Waits(writer) => {
            let aim = watch(&reader, pause, Aim::Bytes, readiness);
            (false, talks(reader, writer, session, aim))
        }
        Turn::Stuck(writer) => {
            let aim = watch(&reader, pause, Aim::Both, readiness);
            (false, talks(reader, writer, session, aim))
        }
        Turn::Over(end, _) => (false, end_at(end, reader, joined, pause.place, readiness)),
    }
}

// A session that goes on.
fn talks<C: Drop, W: Drop, T: Drop>(
    reader: C,
    writer: W,
    session: Box<T, Heap>,
    aim: Aim,
) -> Option<Client<C, W, T>>
    ensures goes_on { GoesOn reader writer session.value result }
    ensures aimed { aim_of result ≡ Some aim }
{
    Some(Client::Talks(Talk {
        reader,
        writer,
        session,
        aim,
    }))
}

// Has a connection told again where its session has no further turn now.
fn again<C, P: Readiness<C>>(pause: Pause, readiness: &mut P)
    ensures { WatchesSame (P.watched readiness.old) (P.watched readiness.new) }
{
    if pause.is_last {
        readiness.again(pause.place);
    }
}

// Has a connection watched for this.
fn watch<C, P: Readiness<C>>(reader: &C, pause: Pause, aim: Aim, readiness: &mut P) -> Aim
    requires { P.watched readiness.old pause.place ≡ Some pause.aim }
    ensures aim { result ≡ aim }
    ensures watched { Watches pause.place (Some aim) (P.watched readiness.old) (P.watched readiness.new) }
{
    if pause.aim != aim {
        readiness.change(reader, pause.place, aim);
    }
    aim
}

// What a session that ended so leaves at its place.
fn end_at<C: Drop, W: Drop, T: Drop, P: Readiness<C>>(
    end: SessionEnd,
    reader: C,
    joined: Option<Joined>,
    place: usize,
    readiness: &mut P,
) -> Option<Client<C, W, T>>
    ensures left { result ≡ left_by end reader joined }
    ensures watched { Watches place (aim_of result) (P.watched readiness.old) (P.watched readiness.new) }
{
    match (end, joined) {
        (SessionEnd::HandedOver, Some(observer)) => {
            readiness.name(&reader, observer);
            readiness.change(&reader, place, Aim::HangUp);
            Some(Client::Follows(Follower { reader, observer }))
        }
        _ => {
            readiness.forget(&reader, place);
            None
        }
    }
}
