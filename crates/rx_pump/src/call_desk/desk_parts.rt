use crate::call::Call;
use crate::reply::Reply;
use rx_heap::Heap;
use rx_mailbox::{Inbox, Port};

/// What a desk is made of.
#[derive(Drop)]
pub struct DeskParts<S: Drop> {
    /// One port to each subject.
    pub ports: Vec<Port<Call<S>>, Heap>,
    /// The replies of the subjects, from the port of each subject's number.
    pub inbox: Inbox<Reply<S>>,
}
