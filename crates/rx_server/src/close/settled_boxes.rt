ghost use Rattle.std.specs.Prelude.{◌≡◌, ◌≤◌, [], vec_capacity, IfOk};

use rx_heap::{Heap, Memory, room};
use rx_mailbox::Settled;
use rx_pump::{Call, Out, Reply};

// The boxes of a server that have settled: those of its subjects, of its drainers, and of the replies to its desks, each in the
// order of their numbers.
pub(crate) struct SettledBoxes<S: Drop> {
    pub(crate) subjects: Vec<Settled<Call<S>>, Heap>,
    pub(crate) drainers: Vec<Settled<Out<S>>, Heap>,
    pub(crate) replies: Vec<Settled<Reply<S>>, Heap>,
}

// By hand: rx_heap says why.
impl<S: Drop> Drop for SettledBoxes<S> {
    fn drop(self) {
        let SettledBoxes {
            subjects: _,
            drainers: _,
            replies: _,
        } = self;
    }
}

impl<S: Drop> SettledBoxes<S> {
    ghost use Rattle.rx_server.specs.Rooms.{HoldBoxes};

    // None yet, and room for so many.
    pub(crate) fn room(
        alloc: &Heap,
        subjects: usize,
        drainers: usize,
        replies: usize,
    ) -> Result<SettledBoxes<S>, Memory>
        ensures { IfOk result (HoldBoxes subjects drainers replies) }
    {
        Ok(SettledBoxes {
            subjects: room(alloc, subjects)?,
            drainers: room(alloc, drainers)?,
            replies: room(alloc, replies)?,
        })
    }
}
