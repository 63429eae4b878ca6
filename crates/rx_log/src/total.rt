ghost use Rattle.std.specs.Prelude.{◌≡◌, ◌+◌, ◌<◌, ◌^◌};

/// What a log comes to: how many items its notes are, and whether it has ended. No note counts among the items behind the
/// first terminal.
#[derive(Clone, Copy, Debug, PartialEq, Eq)]
pub struct Total {
    pub items: u64,
    pub ended: bool,
}

impl Total {
    ghost use Rattle.rx_log.specs.Totals.{nothing, with_note};

    /// Of a log with no entry.
    pub fn nothing() -> Total
        ensures { result ≡ nothing }
    {
        Total {
            items: 0,
            ended: false,
        }
    }

    /// With one note more, and whether it is a terminal.
    pub(crate) fn with_note(self, is_end: bool) -> Total
        requires { self.items + 1 < 2 ^ 64 }
        ensures { result ≡ with_note self is_end }
    {
        if self.ended {
            self
        } else if is_end {
            Total {
                items: self.items,
                ended: true,
            }
        } else {
            Total {
                items: self.items + 1,
                ended: false,
            }
        }
    }
}
