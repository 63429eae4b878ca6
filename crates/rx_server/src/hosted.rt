// How a server serves: by a crew of workers, one for each desk that was not handed out, and by a face that has the last of them.
ghost use Rattle.std.specs.Prelude.{◌≡◌, ◌≢◌, ◌↔◌, ◌+◌, ◌≤◌, ◌<◌, ◌∷◌, ◌++◌, List, [], Err, MatchBool, OnOk, length, vec_len, vec_capacity};
ghost use Rattle.std.specs.Arc.{arc_value};
ghost use Rattle.std.specs.List.{All, AllZip};
ghost use Rattle.std.specs.Vec.Iter.{into_iter_items};
ghost use Rattle.rx_pump.specs.Desks.{KeepsDesk};
ghost use Rattle.rx_workers.specs.Crews.{IsFor};
ghost use Rattle.rx_workers.specs.Service.{reception, surroundings};
ghost use Rattle.rx_workers.specs.Workers.{peers};
ghost use Rattle.rx_server.specs.Beside.{ServesBeside};

use crate::close::finish_desks;
use crate::server::Server;
use rx_config::Config;
use rx_face::{Closer, Doorway, Entrance, start_face};
use rx_heap::{Heap, Memory, room};
use rx_pump::{CallDesk, SharedLook};
use rx_workers::{ClientSink, Listener, Moments, ServeFault, serve_connections};
use std::io::Write;
use std::sync::{Arc, Wait};
use std::thread::Threads;
use std::vec::IntoIter;

impl<W: Write + Drop + Send + 'static> Server<ClientSink<W>> {
    ghost use Rattle.rx_pump.specs.Desks.{DeskView};
    ghost use Rattle.rx_desk.specs.declared.client_sink.ClientSink.{ClientSink};
    ghost use Rattle.rx_workers.specs.Service.{ServesUntil, reception, surroundings};
    ghost use Rattle.rx_workers.specs.Workers.{peers};
    ghost use Rattle.rx_server.specs.Beside.{ServesIfAble};
    ghost use Rattle.rx_server.specs.Servers.{RunsOn};

    /// Serves each connection that comes by a session, until as many have ended as the configuration says. A worker serves for
    /// each desk that was not handed out, in a thread of its own; connection i, from 0, goes to worker i modulo their number.
    /// When it returns, all workers have ended, and the server keeps their desks, ended too.
    ///
    /// # Errors
    ///
    /// `NoDesk`: each desk was handed out. `Memory`: there was none for the workers. `Thread`: a worker has no thread or nothing to
    /// wait by, or is gone. `Accept`: the listener failed, and each connection before was served. The server can be closed after
    /// each.
    pub fn serve<
        L: Listener<Writer = W>,
        M: Moments + Drop + Send + 'static,
        R: Threads + Wait + Clone + Drop + Send + 'static,
    >(&mut self, rt: &R, listener: &mut L, moments: M) -> Result<(), ServeFault>
        ensures no_desk { (result ≡ Err ServeFault.NoDesk) ↔ (self.old.desks ≡ []) }
        ensures untouched { self.old.desks ≡ [] → self.new ≡ self.old }
        ensures taken { OnOk result (self.new.desks ≡ []) }

        // By its desks, which were left so.
        ensures served { (after : List (DeskView (ClientSink W))) × ServesUntil (surroundings L.accepts L.fails (peers M.tells L.Reader.remaining W.contents)) self.old.config result
            (reception listener.old self.old.desks) (reception listener.new after) }
        ensures same { RunsOn self.old self.new }
    {
        let count = self.desks.len();
        if count == 0 {
            return Err(ServeFault::NoDesk);
        }
        let Ok(mut desks) = room(&self.heap, count) else {
            return Err(ServeFault::Memory);
        };
        take_all(&mut self.desks, &mut desks);
        let served = serve_connections(rt, &self.heap, &self.config, listener, moments, &mut desks);
        finish_desks(rt, &mut desks.into_iter(), &mut self.rooms.desks);
        served
    }

    /// The same, and beside it a face serves those who ask for events, by the last of the desks and in a thread of its own. It begins
    /// before the first connection of a session is accepted, and ends once the crew has, however that came.
    ///
    /// # Errors
    ///
    /// Those of [`Server::serve`]. `Thread` of the last desk too, where there is no thread for the face: nothing was accepted.
    pub fn serve_facing<
        L: Listener<Writer = W>,
        M: Moments + Drop + Send + 'static,
        P: Doorway<L::Reader, W> + Drop + Send + 'static,
        B: Closer + Drop,
        R: Threads + Wait + Clone + Drop + Send + 'static,
    >(
        &mut self,
        rt: &R,
        listener: &mut L,
        moments: M,
        entrance: Entrance<M, L::Reader, P, B>,
    ) -> Result<(), ServeFault>
        ensures no_desk { (result ≡ Err ServeFault.NoDesk) ↔ (length self.old.desks < 2) }
        ensures untouched { length self.old.desks < 2 → self.new ≡ self.old }
        ensures taken { OnOk result (self.new.desks ≡ []) }
        ensures served { ServesIfAble (surroundings L.accepts L.fails (peers M.tells L.Reader.remaining W.contents)) self.old.config result
            (reception listener.old self.old.desks) listener.new }
        ensures same { RunsOn self.old self.new }
    {
        let count = self.desks.len();
        if count < 2 {
            return Err(ServeFault::NoDesk);
        }
        let Ok(mut desks) = room(&self.heap, count) else {
            return Err(ServeFault::Memory);
        };
        let Ok(mut left) = room(&self.heap, count) else {
            return Err(ServeFault::Memory);
        };
        let Ok(shown) = self.running.shown(&self.heap) else {
            return Err(ServeFault::Memory);
        };
        take_all(&mut self.desks, &mut desks);
        let (served, back) = serve_beside(
            rt,
            &self.heap,
            &self.config,
            listener,
            moments,
            entrance,
            shown,
            &mut desks,
        );
        left.push_reserved(back);
        take_all(&mut desks.into_iter(), &mut left);
        finish_desks(rt, &mut left.into_iter(), &mut self.rooms.desks);
        served
    }

    /// What shows each subject to another thread, in their order. Nothing is promised of what is seen.
    ///
    /// # Errors
    ///
    /// `Memory`: there was none for the list.
    pub fn shown(&self) -> Result<Vec<SharedLook, Heap>, Memory> {
        self.running.shown(&self.heap)
    }
}

// Serves by a crew, beside a face that has the last desk, which is back.
fn serve_beside<
    L: Listener,
    M: Moments + Drop + Send + 'static,
    P: Doorway<L::Reader, L::Writer> + Drop + Send + 'static,
    B: Closer + Drop,
    R: Threads + Wait + Clone + Drop + Send + 'static,
>(
    rt: &R,
    heap: &Heap,
    config: &Arc<Config, Heap>,
    listener: &mut L,
    moments: M,
    entrance: Entrance<M, L::Reader, P, B>,
    shown: Vec<SharedLook, Heap>,
    desks: &mut Vec<CallDesk<ClientSink<L::Writer>>, Heap>,
) -> (Result<(), ServeFault>, CallDesk<ClientSink<L::Writer>>)
    requires fit { All (IsFor (arc_value config.now)) desks.old.items }
    requires some { 1 < vec_len desks.old }
    ensures served { ServesBeside (surroundings L.accepts L.fails (peers M.tells L.Reader.remaining L.Writer.contents)) (arc_value config.now) result.0
        (reception listener.old desks.old.items) (reception listener.new (desks.new.items ++ result.1 ∷ [])) }
    ensures kept { AllZip KeepsDesk desks.old.items (desks.new.items ++ result.1 ∷ []) }
    ensures some { result.0 ≢ Err ServeFault.NoDesk }
{
    let Some(desk) = desks.pop() else {
        unreachable!()
    };
    match start_face(rt, heap, config, entrance, shown, desk) {
        Ok(face) => {
            let served = serve_connections(rt, heap, config, listener, moments, desks);
            (served, face.end(rt))
        }
        Err(back) => {
            let fault = fault_of(back.has_memory, desks.len());
            (Err(fault), back.desk)
        }
    }
}

// Why there is no face, whose desk stands at this place.
fn fault_of(has_memory: bool, place: usize) -> ServeFault
    ensures { MatchBool has_memory (result ≡ ServeFault.Thread place) (result ≡ ServeFault.Memory) }
{
    if has_memory {
        ServeFault::Thread(place)
    } else {
        ServeFault::Memory
    }
}

// Moves what is left behind what was taken, in its order.
fn take_all<T: Drop>(left: &mut IntoIter<T, Heap>, taken: &mut Vec<T, Heap>)
    requires { vec_len taken.old + length (into_iter_items left.old) ≤ vec_capacity taken.old }
    ensures taken { taken.new.items ≡ taken.old.items ++ into_iter_items left.old }
    ensures none { into_iter_items left.new ≡ [] }
{
    while let Some(one) = left.next() {
        taken.push_reserved(one);
    }
}
