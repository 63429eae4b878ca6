// What `serve` leaves at a fault are the parts with the ports that have not ended, beside those that have, the first ones of
// each list. A port that could not end stays among the former.
ghost use Rattle.std.specs.Prelude.{◌≡◌};

use crate::out::Out;
use crate::pump::pump_fault::PumpFault;
use crate::pump::pump_parts::PumpParts;
use crate::reply::Reply;
use rx_heap::Heap;
use rx_mailbox::EndedPort;

/// What a pump leaves that could not go on.
#[derive(Drop)]
pub struct PumpStop<S: Drop> {
    pub fault: PumpFault,
    /// Its hub, its inbox, and the ports that have not ended, in their order.
    pub parts: PumpParts<S>,
    /// The first ports to drainers, which have ended, in their order.
    pub ended_drainers: Vec<EndedPort<Out<S>>, Heap>,
    /// The first reply ports, which have ended, in their order.
    pub ended_replies: Vec<EndedPort<Reply<S>>, Heap>,
}

impl<S: Drop> PumpStop<S> {
    /// Lets go of all but the fault, and waits for nothing: who calls the pump finds it gone, and the drainers hear its Byes.
    pub fn let_go(self) -> PumpFault
        ensures { result ≡ self.fault }
    {
        let PumpStop {
            fault,
            parts,
            ended_drainers: _,
            ended_replies: _,
        } = self;
        parts.let_go();
        fault
    }
}
