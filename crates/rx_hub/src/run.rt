use crate::step::Step;
use rx_heap::Heap;
use rx_note::Given;

/// What the events of a run were answered and what they gave.
#[derive(Drop)]
pub struct Run {
    /// One step for each event, in their order.
    pub steps: Vec<Step, Heap>,
    /// All that was given, in its order.
    pub outs: Vec<Given, Heap>,
}
