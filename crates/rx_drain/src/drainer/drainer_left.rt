use crate::DrainerParts;
use rx_heap::Heap;
use rx_mailbox::{EndedPort, let_go_all};
use rx_pump::Call;
use rx_sink::{Kept, Places, Rests, Sink};

/// What is left of a drainer that goes no further.
#[derive(Drop)]
pub struct DrainerLeft<S: Sink> {
    /// Its inbox, and the ports to subjects that have not ended, in their order.
    pub parts: DrainerParts<S>,
    /// The first ports to subjects, which have ended, in their order.
    pub ended: Vec<EndedPort<Call<S>>, Heap>,
    /// The sinks that it keeps, in the order in which they came.
    pub kept: Vec<Kept<S>, Heap>,
    /// What the sinks left that it put away, in the order in which it did so, if it keeps that.
    pub put_away: Rests<S::Rest>,
    /// Where it counted the sinks that found no memory.
    pub places: Places,
    /// How many notes its sinks took. The count stays at the greatest `u64`.
    pub taken: u64,
}

impl<S: Sink> DrainerLeft<S> {
    // Lets go of all, and waits for nothing: the subjects find the inbox gone, and hear the Byes of their ports. The sinks are let go
    // as they are.
    pub(crate) fn let_go(self) {
        let DrainerLeft {
            parts,
            ended: _,
            kept: _,
            put_away: _,
            places: _,
            taken: _,
        } = self;
        let DrainerParts { inbox, subjects } = parts;
        drop(inbox);
        let_go_all(subjects);
    }
}
