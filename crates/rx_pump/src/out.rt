ghost use Rattle.std.specs.Prelude.{◌≡◌};
ghost use Rattle.rx_pump.specs.Marks.{who_of};

use rx_note::Note;

/// What a pump sends the drainer of an observer.
#[derive(Drop)]
pub enum Out<S> {
    /// The observer joined, and its notes go to this sink.
    Attach { who: u32, sink: S },
    /// The observer is given a note.
    Give { who: u32, note: Note },
    /// The observer left.
    Detach { who: u32 },
}

impl<S> Out<S> {
    /// The observer that it concerns.
    pub fn who(&self) -> u32
        ensures { result ≡ who_of self.now }
    {
        match self {
            Out::Attach { who, sink: _ } => *who,
            Out::Give { who, note: _ } => *who,
            Out::Detach { who } => *who,
        }
    }
}
