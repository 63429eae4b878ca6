use crate::crowd::SharedCrowd;
use crate::crowd::door::Door;
use rx_heap::Memory;
use std::sync::Arc;

/// A connection that came: it is counted as open until this is let go.
pub struct Guest {
    crowd: SharedCrowd,
    door: Door,
}

impl Drop for Guest {
    fn drop(self) {
        let Guest { crowd, door } = self;
        crowd.at(door).leave();
    }
}

impl Guest {
    /// One that this socket accepted.
    ///
    /// # Errors
    ///
    /// `Memory`: there was none for it; it is counted as accepted, and not as open.
    pub fn enter(crowd: &SharedCrowd, door: Door) -> Result<Guest, Memory> {
        crowd.at(door).enter();
        match Arc::try_clone(crowd) {
            Ok(crowd) => Ok(Guest { crowd, door }),
            Err(_) => {
                crowd.at(door).leave();
                Err(Memory)
            }
        }
    }
}
