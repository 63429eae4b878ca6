// How a connection that came is given a place, and how its session begins there.
//
// A session has blocks for the bytes that it reads and writes, and many a connection says nothing for long. So it is made once
// its connection is ready for the first time, which the end of its bytes or of its time is too.
ghost use Rattle.std.specs.Prelude.{◌≡◌, IfOk};
ghost use Rattle.rx_workers.specs.Clients.{IsSilent, client_at};
ghost use Rattle.rx_workers.specs.Watching.{AreWatched};
ghost use Rattle.rx_workers.specs.Talks.{Admits, Starts};

use crate::readiness::{Aim, Readiness};
use crate::worker::client::{Client, Talk};
use crate::worker::clients::Clients;
use rx_heap::{Heap, Memory};

/// Gives a connection a place, and answers which. None where there is no memory for one, or it can't be watched: the connection is
/// given up.
pub fn admit<C: Drop, W: Drop, T: Drop, P: Readiness<C>>(
    clients: &mut Clients<C, W, T>,
    connection: (C, W),
    readiness: &mut P,
) -> Option<usize>
    requires { AreWatched (P.watched readiness.old) clients.old }
    ensures admits { Admits result connection clients.old clients.new }
    ensures watched { AreWatched (P.watched readiness.new) clients.new }
{
    let (reader, writer) = connection;
    let Ok(place) = clients.vacancy() else {
        return None;
    };
    let Ok(()) = readiness.begin(&reader, place) else {
        return None;
    };
    clients.put(place, Some(Client::Silent(reader, writer)));
    Some(place)
}

/// Begins this session over the connection at this place, of which nothing came yet. Whether it did: where there is no memory for the
/// session, the connection is given up.
pub fn begin<C: Drop, W: Drop, T: Drop, P: Readiness<C>>(
    heap: &Heap,
    clients: &mut Clients<C, W, T>,
    place: usize,
    session: T,
    readiness: &mut P,
) -> bool
    requires silent { IsSilent (client_at place clients.old) }
    requires watched { AreWatched (P.watched readiness.old) clients.old }
    ensures starts { (connection : C × W) × Starts (λ begun. begun ≡ session) result place connection clients.old clients.new }
    ensures watched { AreWatched (P.watched readiness.new) clients.new }
{
    let Some((reader, writer)) = clients.take_silent(place) else {
        unreachable!();
    };
    let Ok(session) = boxed(heap, session) else {
        readiness.forget(&reader, place);
        return false;
    };
    let talk = Talk {
        reader,
        writer,
        session,
        aim: Aim::Bytes,
    };
    clients.put(place, Some(Client::Talks(talk)));
    true
}

// A session, in a box.
fn boxed<T: Drop>(heap: &Heap, session: T) -> Result<Box<T, Heap>, Memory>
    ensures { IfOk result (λ held. held.value ≡ session) }
{
    match Box::new(heap.clone()?, session) {
        Ok(held) => Ok(held),
        Err(_) => Err(Memory),
    }
}
