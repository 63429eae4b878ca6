use rx_heap::Heap;
use rx_note::{Item, Note};

/// What a joiner begins with: first the items, in their order, then the end.
#[derive(Drop)]
pub struct Opening {
    pub items: Vec<Item, Heap>,
    pub end: Option<Note>,
}
