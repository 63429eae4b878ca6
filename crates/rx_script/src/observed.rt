use rx_heap::Heap;
use rx_note::Note;

/// What an observer was given, and what waits for it.
#[derive(Drop)]
pub(crate) struct Observed {
    pub(crate) given: Vec<Note, Heap>,
    pub(crate) waiting: Vec<Note, Heap>,
}
