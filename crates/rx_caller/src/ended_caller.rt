ghost use Rattle.std.specs.Prelude.{◌≡◌};

use crate::origin::Origin;
use rx_pump::EndedDesk;
use rx_server::Server;
use rx_sink::Sink;
use std::marker::Model;

/// What a caller left that has ended, for [`crate::Callers::take`].
pub struct EndedCaller<S: Sink> {
    pub(crate) desk: EndedDesk<S>,
    // Its server: contracts alone see it.
    pub(crate) server: Origin<Server<S>>,
}

// One that nobody takes back stops no subject either: what is still told to it goes nowhere.
impl<S: Sink> Drop for EndedCaller<S> {
    fn drop(self) {
        let EndedCaller { desk, server: _ } = self;
        let EndedDesk { ports: _, inbox } = desk;
        inbox.let_go();
    }
}

impl<S: Sink> Model for EndedCaller<S> {
    ghost use Rattle.rx_server.specs.Servers.{IsEndOf};
    ghost use Rattle.rx_caller.specs.Calling.{EndView};

    ghost Value = { EndView S };

    ghost view = { λ e. record { end = e.desk; made = e.server.value.made } };

    ghost invariant = { λ e. IsEndOf e.server.value.made e.desk };
}

impl<S: Sink> EndedCaller<S> {
    ghost use Rattle.rx_server.specs.Servers.{IsEndOf};

    // What its desk left, which is of its server.
    pub(crate) fn into_desk(self) -> EndedDesk<S>
        ensures desk { result ≡ self.end }
        ensures own { IsEndOf self.made result }
    {
        let EndedCaller { desk, server: _ } = self;
        desk
    }
}
