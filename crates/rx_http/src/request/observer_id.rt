ghost use Rattle.rx_http.specs.Words.{IsObserver, IsReadOf, observer_word};

use crate::{Epoch, Id};

/// An observer, as its reader was told it when it joined.
#[derive(Drop, Debug, PartialEq, Eq)]
pub struct ObserverId {
    /// The start of the server at which it joined.
    pub epoch: Epoch,
    /// Its number at its subject.
    pub who: u32,
}

impl ObserverId {
    /// The observer that these bytes say: the epoch, a hyphen and the number. None exactly where they say none.
    pub fn read(bytes: &[u8]) -> Option<ObserverId>
        ensures { IsReadOf IsObserver observer_word bytes.now result }
    {
        let Some(id) = Id::read(bytes) else {
            return None;
        };
        let Id { epoch, place, over } = id;
        let Some(who) = place else {
            return None;
        };
        if over {
            return None;
        }
        Some(ObserverId { epoch, who })
    }
}
