ghost use Rattle.std.specs.Prelude.{◌≡◌};
ghost use Rattle.rx_program.specs.Notices.{bytes_of, seconds_of};

use crate::notices::cause::Cause;
use rx_config::Config;

/// How patient a server is with a peer.
#[derive(Clone, Copy, Debug)]
pub struct Patience {
    /// For how many seconds it waits until the peer takes some of what waits for it.
    pub stall: u64,
    /// How many bytes may wait for it at its subject; 0 for as many as do.
    pub waiting: u64,
    /// For how many seconds it waits until the peer sends something, where that has an end.
    pub idle: Option<u64>,
}

impl Patience {
    /// That of a configuration.
    pub fn of(config: &Config) -> Patience
        ensures { result ≡ record { stall = config.now.stall; waiting = config.now.waiting; idle = config.now.idle } }
    {
        Patience {
            stall: u64::from(config.stall),
            waiting: u64::from(config.waiting),
            idle: config.idle,
        }
    }

    /// How long that was, where a peer is let go for that it let the server wait.
    pub(crate) fn seconds(self, cause: Cause) -> Option<u64>
        ensures { result ≡ seconds_of self cause }
    {
        match cause {
            Cause::Stalled => Some(self.stall),
            Cause::Silent => self.idle,
            Cause::Outgrown
            | Cause::Unheld
            | Cause::NoDescriptor
            | Cause::NoMemory
            | Cause::Unserved
            | Cause::Unwatched
            | Cause::Broken => None,
        }
    }

    /// How many bytes may wait for an observer, where it is let go for that more do.
    pub(crate) fn bytes(self, cause: Cause) -> Option<u64>
        ensures { result ≡ bytes_of self cause }
    {
        match cause {
            Cause::Outgrown => Some(self.waiting),
            Cause::Stalled
            | Cause::Silent
            | Cause::Unheld
            | Cause::NoDescriptor
            | Cause::NoMemory
            | Cause::Unserved
            | Cause::Unwatched
            | Cause::Broken => None,
        }
    }
}
