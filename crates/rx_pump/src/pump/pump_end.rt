use crate::call::Call;
use crate::out::Out;
use crate::reply::Reply;
use rx_heap::Heap;
use rx_hub::Hub;
use rx_mailbox::{EndedPort, Inbox};

/// What a pump leaves once the Bye of each port came and its own ports have ended.
#[derive(Drop)]
pub struct PumpEnd<S: Drop> {
    pub hub: Hub,
    pub inbox: Inbox<Call<S>>,
    /// In the order of the drainers.
    pub drainers: Vec<EndedPort<Out<S>>, Heap>,
    /// In the order of the reply ports.
    pub replies: Vec<EndedPort<Reply<S>>, Heap>,
    /// How many calls it took, up to the greatest `u64`.
    pub calls: u64,
    /// How many of its calls were refused for want of memory, up to the greatest `u64`.
    pub refused: u64,
}
