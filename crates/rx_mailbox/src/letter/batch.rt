use rx_heap::Heap;
use std::collections::VecDeque;

/// What a port puts into its box at once.
#[derive(Drop)]
pub(crate) enum Batch<B: Drop> {
    /// A body.
    One(B),
    /// The bodies that it had held back, in their order.
    Many(VecDeque<B, Heap>),
}
