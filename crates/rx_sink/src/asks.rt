ghost use Rattle.std.specs.Prelude.{◌≡◌, true, false};

/// What the subject of an observer is to be asked: one item more, so many times, and then to let the observer go.
#[derive(Clone, Copy, Debug, PartialEq, Eq)]
pub struct Asks {
    /// How often one item more is asked for.
    pub items: u64,
    /// The observer's number at its subject.
    pub who: u32,
    /// The observer is to be let go.
    pub leaves: bool,
}

impl Asks {
    // Nothing is asked.
    pub(crate) fn nothing(who: u32) -> Asks
        ensures { result ≡ record { who = who; items = 0; leaves = false } }
    {
        Asks {
            who,
            items: 0,
            leaves: false,
        }
    }

    // The observer is to be let go.
    pub(crate) fn leave(who: u32) -> Asks
        ensures { result ≡ record { who = who; items = 0; leaves = true } }
    {
        Asks {
            who,
            items: 0,
            leaves: true,
        }
    }
}
