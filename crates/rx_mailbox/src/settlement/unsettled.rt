use crate::inbox::Inbox;
use crate::port::ended_port::EndedPort;
use crate::settlement::settle_cause::SettleCause;
use rx_heap::Heap;

/// The parts of a box that did not settle, as they were handed in, and why.
#[derive(Drop)]
pub struct Unsettled<B: Drop> {
    pub cause: SettleCause,
    pub inbox: Inbox<B>,
    pub ports: Vec<EndedPort<B>, Heap>,
}
