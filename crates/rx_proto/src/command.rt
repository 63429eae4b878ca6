use crate::Name;
use rx_note::{Policy, Text};

/// What a line of a session says.
#[derive(Drop, Debug, PartialEq, Eq)]
pub enum Command {
    /// Emit an item.
    Pub { name: Name, text: Text },
    /// Emit completion.
    End { name: Name },
    /// Emit an error.
    Fail { name: Name, text: Text },
    /// Join as an observer, to which the connection then belongs. A script has no such line.
    Sub { name: Name, policy: Policy },
    /// Have notes in the version of this number: of a later `Sub`, or those that a script prints after it.
    Hello(u32),
    /// End.
    Quit,
}
