use crate::notices::stop_line::write_stop;
use rx_server::SharedStop;
use std::io::Write;

/// By what a server is told to stop, and whether it told that it does.
#[derive(Drop)]
pub(crate) struct StopTold {
    stop: SharedStop,
    is_told: bool,
}

impl StopTold {
    /// It told nothing yet.
    pub(crate) fn new(stop: SharedStop) -> StopTold {
        StopTold {
            stop,
            is_told: false,
        }
    }

    /// Writes the line of a stop, once its time began. A writer that fails changes nothing else.
    pub(crate) fn tell<E: Write>(&mut self, log: &mut E) {
        if self.is_told {
            return;
        }
        if let Some(within) = self.stop.seconds() {
            self.is_told = true;
            let _ = write_stop(u64::from(within), log);
        }
    }
}
