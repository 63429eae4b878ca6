use crate::{Command, Name};
use rx_note::Policy;

/// What a line of a script means.
#[derive(Drop, Debug, PartialEq, Eq)]
pub enum ScriptLine {
    /// What a session may say too. It is never `Sub` where a script's line was read.
    Command(Command),
    /// The events that follow come at this moment, in milliseconds.
    At(u64),
    /// An observer joins with a policy and a request of `first` items.
    Join {
        name: Name,
        policy: Policy,
        first: u32,
    },
    /// Observer `who` requests `n` items more.
    Request {
        name: Name,
        who: u32,
        n: u32,
    },
    /// Observer `who` leaves.
    Dispose {
        name: Name,
        who: u32,
    },
}
