use rx_heap::Heap;
use rx_mailbox::{Inbox, Port};
use rx_pump::{Call, Out};

/// What a drainer is made of.
#[derive(Drop)]
pub struct DrainerParts<S: Drop> {
    /// The letters of the subjects, from the port of each subject's number, and of the leave port, whose number comes next.
    pub inbox: Inbox<Out<S>>,
    /// One port to each subject.
    pub subjects: Vec<Port<Call<S>>, Heap>,
}
