use crate::notices::counted::{Notices, SharedNotices};
use crate::notices::patience::Patience;
use crate::notices::telling::Telling;
use crate::notices::warden::Warden;
use crate::socket::clocked::Clocked;
use rx_server::Moments;
use std::io::Write;
use std::sync::Wait;
use std::thread::{self, JoinHandle, Threads};
use std::time::Clock;

// The moment of the last look, behind all others, so that no line is held back then.
const LAST: u64 = u64::MAX;

/// Starts a thread that tells what is counted, until no more is, by a host of its own; meanwhile the warden looks once a second. None:
/// there is no thread for it, and nothing is told.
pub(crate) fn start_telling<
    R: Threads + Wait + Clock + Drop + Send + 'static,
    L: Write + Drop + Send + 'static,
>(
    rt: &R,
    own: R,
    notices: SharedNotices,
    patience: Patience,
    warden: Warden,
    log: L,
) -> Option<JoinHandle<()>> {
    let telling = Telling::new(patience);
    match thread::spawn(rt, move || tell_all(own, notices, telling, warden, log)) {
        Ok(handle) => Some(handle),
        Err(_) => None,
    }
}

/// Ends that thread, once it told the rest.
pub(crate) fn end_telling<R: Threads>(rt: &R, notices: &Notices, telling: Option<JoinHandle<()>>) {
    notices.end();
    if let Some(telling) = telling {
        telling.join(rt);
    }
}

// Tells what is counted, until no more is, and then the rest.
fn tell_all<R: Wait + Clock + Drop, L: Write + Drop>(
    rt: R,
    notices: SharedNotices,
    telling: Telling,
    warden: Warden,
    log: L,
) {
    let mut telling = telling;
    let mut warden = warden;
    let mut log = log;
    let mut moments = Clocked::new(&rt);
    for _ in rt.forever() {
        // This is read before what was counted, so that all is told which was counted before the end.
        let is_over = notices.is_over();
        let now = if is_over { LAST } else { moments.now() };
        telling.tell(&notices, warden.names(), now, &mut log);
        warden.look(&rt, &notices, now, &mut log);
        if is_over {
            return;
        }
        notices.wait(&rt);
    }
}
