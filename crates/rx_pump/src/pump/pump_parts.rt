use crate::call::Call;
use crate::out::Out;
use crate::reply::Reply;
use rx_heap::Heap;
use rx_hub::Hub;
use rx_mailbox::{Inbox, Port, let_go_all};

/// What a pump is made of.
#[derive(Drop)]
pub struct PumpParts<S: Drop> {
    /// The core of the subject.
    pub hub: Hub,
    /// The calls to it.
    pub inbox: Inbox<Call<S>>,
    /// One port to each drainer. The notes of an observer go to the drainer at its number modulo the number of drainers.
    pub drainers: Vec<Port<Out<S>>, Heap>,
    /// The replies to the calls from port p of the inbox go by the port at place p, if there is one.
    pub replies: Vec<Port<Reply<S>>, Heap>,
}

impl<S: Drop> PumpParts<S> {
    // Lets go of all, and waits for nothing: who calls finds the inbox gone, and the drainers hear the Byes of their ports.
    pub(crate) fn let_go(self) {
        let PumpParts {
            hub: _,
            inbox,
            drainers,
            replies,
        } = self;
        drop(inbox);
        drop(replies);
        let_go_all(drainers);
    }
}
