ghost use Rattle.std.specs.Prelude.{◌≡◌};

use crate::{DrainFault, DrainerLeft};
use rx_sink::Sink;

/// What a drainer leaves that could not go on.
#[derive(Drop)]
pub struct DrainStop<S: Sink> {
    pub fault: DrainFault,
    pub left: DrainerLeft<S>,
}

impl<S: Sink> DrainStop<S> {
    /// Lets go of all but the fault, and waits for nothing: the subjects find the drainer gone, and hear its Byes. Its sinks are let
    /// go as they are.
    pub fn let_go(self) -> DrainFault
        ensures { result ≡ self.fault }
    {
        let DrainStop { fault, left } = self;
        left.let_go();
        fault
    }
}
