use rx_config::Config;
use std::time::Duration;

/// On which terms a peer is served.
#[derive(Clone, Copy, Debug)]
pub struct Terms {
    /// How long it may take no byte while some wait for it.
    pub stall: Duration,
    /// How long its session may send nothing, where that has an end.
    pub idle: Option<Duration>,
    /// Whether the server may be stopped by a request, so that who waits looks for one.
    pub may_stop: bool,
}

impl Terms {
    /// The terms of a configuration.
    pub fn of(config: &Config) -> Terms {
        Terms {
            stall: Duration::from_secs(u64::from(config.stall)),
            idle: config.idle.map(Duration::from_secs),
            may_stop: may_stop(config),
        }
    }
}

// Whether a server of this configuration may be stopped by a request.
fn may_stop(config: &Config) -> bool {
    match &config.http {
        Some(http) => http.stop,
        None => false,
    }
}
