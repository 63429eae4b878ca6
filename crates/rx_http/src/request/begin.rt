ghost use Rattle.std.specs.Prelude.{◌≡◌};
ghost use Rattle.rx_http.specs.Begins.{begin_by};

use crate::{Epoch, Id};

/// Where a reader begins to hear a subject.
#[derive(Drop, Debug, PartialEq, Eq)]
pub enum Begin {
    /// It said nothing, and hears what comes.
    Fresh,
    /// It goes on behind the item of this place; None: behind none.
    Behind(Option<u32>),
    /// It said an id of another start of the server, and begins anew.
    Restarted(Id),
}

impl Begin {
    /// Where a reader begins that said this to the server of that epoch. None: it knows that the subject is over, and there is nothing
    /// more to come for.
    pub fn by(epoch: &Epoch, known: Option<Id>) -> Option<Begin>
        ensures { result ≡ begin_by epoch.now known }
    {
        let Some(id) = known else {
            return Some(Begin::Fresh);
        };
        if id.epoch != *epoch {
            return Some(Begin::Restarted(id));
        }
        if id.over {
            None
        } else {
            Some(Begin::Behind(id.place))
        }
    }
}
