use rx_heap::Heap;
use rx_mailbox::{EndedPort, Inbox};
use rx_pump::{Call, Out};
use rx_sink::{Places, Rests, Sink};

/// What a drainer leaves once the Bye of each port came and its own ports have ended.
#[derive(Drop)]
pub struct DrainEnd<S: Sink> {
    pub inbox: Inbox<Out<S>>,
    /// In the order of the subjects.
    pub ports: Vec<EndedPort<Call<S>>, Heap>,
    /// What each sink left that found its place, in the order in which they were put away, if the drainer kept that.
    pub put_away: Rests<S::Rest>,
    /// Where the sinks are counted that found no memory.
    pub places: Places,
    /// How many notes its sinks took. The count stays at the greatest `u64`.
    pub taken: u64,
}
