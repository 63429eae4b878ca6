use crate::Aim;
use http_server::Log;

/// What a readiness was asked to watch, call by call: by which key, and for what, or no more. Only contracts see it: it takes no
/// memory, and its methods do nothing when they run.
#[derive(Drop)]
pub struct WatchLog {
    calls: Log<usize, Option<Aim>>,
}

impl WatchLog {
    ghost use Rattle.rx_workers.specs.WatchLogs.{watched_by};
    ghost use Rattle.rx_workers.specs.Watching.{Watches, WatchesNothing};

    /// Nothing was asked yet.
    pub fn new() -> WatchLog
        ensures { WatchesNothing (watched_by result) }
    {
        WatchLog { calls: Log::new() }
    }

    /// With one more call: this key is watched for this, or no more.
    pub fn and(&self, key: usize, aim: Option<Aim>) -> WatchLog
        ensures { Watches key aim (watched_by self.now) (watched_by result) }
    {
        WatchLog {
            calls: self.calls.and(&key, &aim),
        }
    }
}
