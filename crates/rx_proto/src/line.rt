use rx_note::Policy;

/// What a line means, its name and text still among the line's bytes.
#[derive(Clone, Copy, Debug)]
pub enum Line<'a> {
    /// Emit an item.
    Pub {
        name: &'a [u8],
        text: &'a [u8],
    },
    /// Emit completion.
    End {
        name: &'a [u8],
    },
    /// Emit an error.
    Fail {
        name: &'a [u8],
        text: &'a [u8],
    },
    /// Join as an observer, to which the connection then belongs.
    Sub {
        name: &'a [u8],
        policy: Policy,
    },
    /// Have notes in the version of this number.
    Hello(u32),
    /// End.
    Quit,
    /// The events that follow come at this moment, in milliseconds.
    At(u64),
    /// An observer joins.
    Join {
        name: &'a [u8],
        policy: Policy,
        first: u32,
    },
    /// An observer requests items.
    Request {
        name: &'a [u8],
        who: u32,
        n: u32,
    },
    /// An observer leaves.
    Dispose {
        name: &'a [u8],
        who: u32,
    },
}
