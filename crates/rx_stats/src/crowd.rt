pub(crate) mod crowd_look;
pub(crate) mod door;
pub(crate) mod door_look;
pub(crate) mod guest;
pub(crate) mod tally;

use crate::crowd::crowd_look::CrowdLook;
use crate::crowd::door::Door;
use crate::crowd::tally::Tally;
use rx_heap::{Heap, Memory};
use std::sync::Arc;

/// How many connections came to the sockets of a server, and how many of them are open. Any thread counts and looks, and waits for
/// nobody. Nothing is promised of it.
#[derive(Drop)]
pub struct Crowd {
    sessions: Tally,
    http: Tally,
}

/// That of a server, which both its sockets and who tells what is seen have.
pub type SharedCrowd = Arc<Crowd, Heap>;

impl Crowd {
    /// Nobody came yet.
    ///
    /// # Errors
    ///
    /// `Memory`: there was none for it.
    pub fn shared(alloc: Heap) -> Result<SharedCrowd, Memory> {
        let crowd = Crowd {
            sessions: Tally::new(),
            http: Tally::new(),
        };
        Ok(Arc::new(alloc, crowd)?)
    }

    /// What is seen of it.
    pub fn look(&self) -> CrowdLook {
        CrowdLook {
            sessions: self.sessions.look(),
            http: self.http.look(),
        }
    }

    // What is counted of this socket.
    fn at(&self, door: Door) -> &Tally {
        match door {
            Door::Sessions => &self.sessions,
            Door::Http => &self.http,
        }
    }
}
