ghost use Rattle.std.specs.Prelude.{◌≡◌, ◌+◌, [], None, length, false, true, vec_len};
ghost use Rattle.std.specs.Arc.{arc_value};
ghost use Rattle.rx_desk.specs.SessionDesks.{no_queue};

use crate::Doorway;
use crate::attendance::Attendance;
use rx_config::Config;
use rx_desk::{ClientSink, EventDesk, Grants, Moments, SessionDesk, SharedStop};
use rx_events::SharedPulse;
use rx_heap::Heap;
use rx_http::Epoch;
use rx_pump::{CallDesk, SharedLook};
use rx_stats::SharedCrowd;
use rx_workers::Idle;
use std::io::{Read, Write};
use std::marker::Model;
use std::sync::{Arc, Wait};

/// Serves the connections that come to its doorway, each by an exchange that has its turns among those of the others, by a desk of its
/// own. Contracts see the desk of its exchanges.
pub struct Face<M: Drop, C: Drop, W: Write + Drop, P: Doorway<C, W> + Drop> {
    heap: Heap,
    // The memory for the list of its clients.
    own: Heap,
    config: Arc<Config, Heap>,
    moments: M,
    epoch: Epoch,
    grants: Grants,
    // What shows each subject, in their order.
    shown: Vec<SharedLook, Heap>,
    // What time it is for its sinks.
    pulse: SharedPulse,
    // How many connections the server has.
    crowd: SharedCrowd,
    stop: SharedStop,
    desk: CallDesk<ClientSink<W>>,
    doorway: Idle<C, P>,
}

// By hand: rx_heap says why.
impl<M: Drop, C: Drop, W: Write + Drop, P: Doorway<C, W> + Drop> Drop for Face<M, C, W, P> {
    fn drop(self) {
        let Face {
            heap: _,
            own: _,
            config: _,
            moments: _,
            epoch: _,
            grants: _,
            shown: _,
            pulse: _,
            crowd: _,
            stop: _,
            desk: _,
            doorway: _,
        } = self;
    }
}

impl<M: Drop, C: Drop, W: Write + Drop, P: Doorway<C, W> + Drop> Model for Face<M, C, W, P> {
    ghost use Rattle.std.specs.Prelude.{◌≡◌, ◌+◌, [], None, length, false, true, vec_len};
    ghost use Rattle.std.specs.Arc.{arc_value};
    ghost use Rattle.rx_desk.specs.EventDesks.{EventView};
    ghost use Rattle.rx_desk.specs.SessionDesks.{no_queue};
    ghost use Rattle.rx_desk.specs.declared.client_sink.ClientSink.{ClientSink};

    ghost Value = { EventView M (ClientSink W) };

    ghost view = { λ f. record { session = record { subjects = (arc_value f.config).subjects.items; window = (arc_value f.config).window; moments = f.moments; calls = f.desk; joined = None; queue = no_queue }; epoch = f.epoch; grants = f.grants; held = 0; asking = []; kept = []; is_well = true; stopping = false } };

    ghost invariant = { λ f. length f.desk.ports + length f.desk.ended ≡ vec_len (arc_value f.config).subjects };
}

impl<M: Moments + Drop, C: Read + Drop, W: Write + Drop, P: Doorway<C, W> + Drop> Face<M, C, W, P> {
    ghost use Rattle.rx_face.specs.Facing.{HasServed};

    /// A face of a server of this epoch that grants so much, over a desk that has a port for each subject, in the order of the
    /// configuration, as `shown` shows them; how many connections there are, `crowd` tells. Its sinks have the time of this pulse. It
    /// tells by `stop` that it is asked to stop. The list of its clients takes the memory `own`.
    pub fn new(
        heap: Heap,
        own: Heap,
        config: Arc<Config, Heap>,
        moments: M,
        epoch: Epoch,
        grants: Grants,
        shown: Vec<SharedLook, Heap>,
        pulse: SharedPulse,
        crowd: SharedCrowd,
        stop: SharedStop,
        desk: CallDesk<ClientSink<W>>,
        doorway: Idle<C, P>,
    ) -> Face<M, C, W, P>
        requires { length desk.ports + length desk.ended ≡ vec_len (arc_value config).subjects }
        ensures { result ≡ record { session = record { subjects = (arc_value config).subjects.items; window = (arc_value config).window; moments = moments; calls = desk; joined = None; queue = no_queue }; epoch = epoch; grants = grants; held = 0; asking = []; kept = []; is_well = true; stopping = false } }
    {
        Face {
            heap,
            own,
            config,
            moments,
            epoch,
            grants,
            shown,
            pulse,
            crowd,
            stop,
            desk,
            doorway,
        }
    }

    /// Serves each connection that comes, until its doorway is closed. It answers the desk, as its calls left it, whose ports haven't ended.
    pub fn serve<R: Wait>(self, rt: &R) -> CallDesk<ClientSink<W>>
        ensures { HasServed M.tells C.remaining W.contents self result }
    {
        let Face {
            heap,
            own,
            config,
            moments,
            epoch,
            grants,
            shown,
            pulse,
            crowd,
            stop,
            desk,
            doorway,
        } = self;
        let mut doorway = doorway.into_readiness();
        let session = SessionDesk::new(rt, &heap, desk, &config, moments);
        let desk = EventDesk::new(session, &heap, epoch, grants, shown, pulse, crowd, stop);
        let mut attendance = Attendance::new(&heap, own, desk);
        attendance.serve(rt, &mut doorway);
        attendance.into_desk().into_session().into_desk()
    }
}
