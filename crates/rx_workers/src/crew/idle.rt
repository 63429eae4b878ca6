use crate::readiness::Readiness;
use std::marker::{Model, PhantomData};

/// A readiness that watches nothing yet, by which a worker begins. Contracts see the readiness.
pub struct Idle<C, P: Readiness<C> + Drop> {
    readiness: P,
    of: PhantomData<C>,
}

// By hand: rx_heap says why.
impl<C, P: Readiness<C> + Drop> Drop for Idle<C, P> {
    fn drop(self) {
        let Idle {
            readiness: _,
            of: _,
        } = self;
    }
}

impl<C, P: Readiness<C> + Drop> Model for Idle<C, P> {
    ghost use Rattle.rx_workers.specs.Watching.{WatchesNothing};

    ghost Value = { P };

    ghost view = { λ i. i.readiness };

    ghost invariant = { λ i. WatchesNothing (P.watched i.readiness) };
}

impl<C, P: Readiness<C> + Drop> Idle<C, P> {
    ghost use Rattle.std.specs.Prelude.{◌≡◌};
    ghost use Rattle.rx_workers.specs.Watching.{WatchesNothing};

    /// This readiness, which watches nothing yet.
    pub fn new(readiness: P) -> Idle<C, P>
        requires { WatchesNothing (P.watched readiness) }
        ensures { result ≡ readiness }
    {
        Idle {
            readiness,
            of: PhantomData,
        }
    }

    /// The readiness, to begin with.
    pub fn into_readiness(self) -> P
        ensures same { result ≡ self }
        ensures idle { WatchesNothing (P.watched result) }
    {
        let Idle { readiness, of: _ } = self;
        readiness
    }
}
