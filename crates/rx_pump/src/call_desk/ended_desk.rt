use crate::call::Call;
use crate::reply::Reply;
use rx_heap::Heap;
use rx_mailbox::{EndedPort, Inbox};

/// A desk whose ports have ended. The Byes of the pumps are still to be received from its inbox before that is settled.
#[derive(Drop)]
pub struct EndedDesk<S: Drop> {
    /// In the order of the subjects.
    pub ports: Vec<EndedPort<Call<S>>, Heap>,
    pub inbox: Inbox<Reply<S>>,
}
