use crate::Closer;
use rx_desk::{Grants, SharedStop};
use rx_events::SharedPulse;
use rx_http::Epoch;
use rx_stats::SharedCrowd;
use rx_workers::{Idle, Readiness};

/// What a face begins with, beside its desk.
#[derive(Drop)]
pub struct Entrance<M: Drop, C, P: Readiness<C> + Drop, B: Closer + Drop> {
    /// Where its connections come from, and what it waits by.
    pub doorway: Idle<C, P>,
    /// What closes that.
    pub closer: B,
    /// Where its moments come from.
    pub moments: M,
    /// The epoch of this start of the server.
    pub epoch: Epoch,
    /// What is granted to those who come.
    pub grants: Grants,
    /// What time it is for the sinks of readers, as long as somebody tells it.
    pub pulse: SharedPulse,
    /// How many connections the server has.
    pub crowd: SharedCrowd,
    /// By what the server is told to stop.
    pub stop: SharedStop,
}
