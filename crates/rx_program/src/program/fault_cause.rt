use rx_config::ConfigError;
use rx_server::Role;
use std::fmt;

/// What is told of a fault behind its words.
#[derive(Clone, Copy)]
pub(crate) enum FaultCause {
    /// Why a configuration was refused.
    Config(ConfigError),
    /// The thread of this role and number.
    Thread(Role, usize),
}

impl fmt::Display for FaultCause {
    fn fmt<W: fmt::Write>(&self, f: &mut fmt::Formatter<W>) -> fmt::Result {
        match self {
            FaultCause::Config(cause) => cause.fmt(f),
            FaultCause::Thread(thread, index) => write!(f, "{thread} {index}"),
        }
    }
}
