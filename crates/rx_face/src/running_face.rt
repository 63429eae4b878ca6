//! A face in a thread of its own.
ghost use Rattle.std.specs.Prelude.{◌≡◌, IfOk, MatchResult};
ghost use Rattle.std.specs.Arc.{arc_value};
ghost use Rattle.rx_pump.specs.Desks.{KeepsDesk};
ghost use Rattle.rx_workers.specs.Crews.{IsFor};
ghost use Rattle.rx_face.specs.Facing.{HasServed, IsFaceOver};

use crate::{Closer, Doorway, Entrance, Face};
use rx_config::Config;
use rx_desk::{ClientSink, Moments};
use rx_heap::{Heap, Memory};
use rx_pump::{CallDesk, SharedLook};
use std::io::{Read, Write};
use std::marker::Model;
use std::snapshot::Snapshot;
use std::sync::{Arc, Wait};
use std::thread;
use std::thread::{Promise, PromisedHandle, Threads};

/// What the thread of a face answers is what `serve` promises of that face.
#[derive(Drop)]
pub(crate) struct Faced<M: Drop, C: Drop, W: Write + Drop, P: Doorway<C, W> + Drop>(
    Snapshot<Face<M, C, W, P>>,
);

impl<M: Moments + Drop, C: Read + Drop, W: Write + Drop, P: Doorway<C, W> + Drop> Promise<
    CallDesk<ClientSink<W>>,
> for Faced<M, C, W, P> {
    ghost use Rattle.rx_face.specs.Facing.{HasServed};

    ghost kept_by = { λ p end. HasServed M.tells C.remaining W.contents p.0.value end };
}

/// A face that serves in a thread of its own. One that is let go without a `join` is not waited for. Contracts see the face that was
/// handed in.
pub struct RunningFace<
    M: Moments + Drop,
    C: Read + Drop,
    W: Write + Drop,
    P: Doorway<C, W> + Drop,
    B: Closer + Drop,
> {
    handle: PromisedHandle<CallDesk<ClientSink<W>>, Faced<M, C, W, P>>,
    closer: B,
}

// By hand: rx_heap says why.
impl<
    M: Moments + Drop,
    C: Read + Drop,
    W: Write + Drop,
    P: Doorway<C, W> + Drop,
    B: Closer + Drop,
> Drop for RunningFace<M, C, W, P, B> {
    fn drop(self) {
        let RunningFace {
            handle: _,
            closer: _,
        } = self;
    }
}

/// What is back where no face was started.
#[derive(Drop)]
pub struct Unfaced<W: Write + Drop> {
    /// Its desk, as it was but for what it may have received. Its ports haven't ended.
    pub desk: CallDesk<ClientSink<W>>,
    /// Whether there was memory for it; then there was no thread.
    pub has_memory: bool,
}

/// Starts a thread in which a face serves by this desk, until it is ended. `Err` where there is no memory or no thread for it.
pub fn start_face<
    M: Moments + Drop + Send + 'static,
    C: Read + Drop + Send + 'static,
    W: Write + Drop + Send + 'static,
    P: Doorway<C, W> + Drop + Send + 'static,
    B: Closer + Drop,
    R: Threads + Wait + Clone + Drop + Send + 'static,
>(
    rt: &R,
    heap: &Heap,
    config: &Arc<Config, Heap>,
    entrance: Entrance<M, C, P, B>,
    shown: Vec<SharedLook, Heap>,
    desk: CallDesk<ClientSink<W>>,
) -> Result<RunningFace<M, C, W, P, B>, Unfaced<W>>
    requires { IsFor (arc_value config.now) desk }
    ensures { MatchResult result
        (λ running. IsFaceOver (arc_value config.now) entrance.moments entrance.epoch entrance.grants desk running)
        (λ back. KeepsDesk desk back.desk) }
{
    let Ok(tools) = make_tools(rt, heap, config) else {
        return Err(Unfaced {
            desk,
            has_memory: false,
        });
    };
    let Tools {
        own,
        memory,
        clients,
        config,
    } = tools;
    let Entrance {
        doorway,
        closer,
        moments,
        epoch,
        grants,
        pulse,
        crowd,
        stop,
    } = entrance;
    let face = Face::new(
        memory, clients, config, moments, epoch, grants, shown, pulse, crowd, stop, desk, doorway,
    );
    match start(rt, own, face, closer) {
        Ok(running) => Ok(running),
        Err(desk) => Err(Unfaced {
            desk,
            has_memory: true,
        }),
    }
}

// What a face has beside its desk and its entrance, and the runtime of its thread.
#[derive(Drop)]
struct Tools<R: Drop> {
    own: R,
    memory: Heap,
    clients: Heap,
    config: Arc<Config, Heap>,
}

fn make_tools<R: Clone + Drop>(
    rt: &R,
    heap: &Heap,
    config: &Arc<Config, Heap>,
) -> Result<Tools<R>, Memory>
    ensures { IfOk result (λ tools. arc_value tools.config ≡ arc_value config.now) }
{
    let Ok(own) = rt.clone() else {
        return Err(Memory);
    };
    Ok(Tools {
        own,
        memory: heap.clone()?,
        clients: heap.clone()?,
        config: Arc::try_clone(config)?,
    })
}

// Starts the thread of a face. Where there is none the doorway is closed, and this is the desk.
fn start<
    M: Moments + Drop + Send + 'static,
    C: Read + Drop + Send + 'static,
    W: Write + Drop + Send + 'static,
    P: Doorway<C, W> + Drop + Send + 'static,
    B: Closer + Drop,
    R: Threads + Wait + Drop + Send + 'static,
>(
    rt: &R,
    own: R,
    face: Face<M, C, W, P>,
    closer: B,
) -> Result<RunningFace<M, C, W, P, B>, CallDesk<ClientSink<W>>>
    ensures { MatchResult result (λ running. running ≡ face) (HasServed M.tells C.remaining W.contents face) }
{
    let promise = Faced(Snapshot::of(&face));
    match thread::spawn_with(rt, promise, move || face.serve(&own)) {
        Ok(handle) => Ok(RunningFace { handle, closer }),
        Err(refused) => {
            closer.close();
            Err((refused.value)())
        }
    }
}

impl<
    M: Moments + Drop,
    C: Read + Drop,
    W: Write + Drop,
    P: Doorway<C, W> + Drop,
    B: Closer + Drop,
> Model for RunningFace<M, C, W, P, B> {
    ghost use Rattle.rx_desk.specs.EventDesks.{EventView};
    ghost use Rattle.rx_desk.specs.declared.client_sink.ClientSink.{ClientSink};

    ghost Value = { EventView M (ClientSink W) };

    ghost view = { λ r. r.handle.promise.0.value };
}

impl<
    M: Moments + Drop,
    C: Read + Drop,
    W: Write + Drop,
    P: Doorway<C, W> + Drop,
    B: Closer + Drop,
> RunningFace<M, C, W, P, B> {
    ghost use Rattle.rx_face.specs.Facing.{HasServed};

    /// Closes the doorway, and waits until the thread has ended. It answers the desk, as its calls left it, whose ports haven't ended.
    pub fn end<R: Threads>(self, rt: &R) -> CallDesk<ClientSink<W>>
        ensures { HasServed M.tells C.remaining W.contents self result }
    {
        let RunningFace { handle, closer } = self;
        closer.close();
        handle.join(rt)
    }
}
