// Who waits here is let go by the time of the stop. What waits at a subject goes as its readers take it, and a connection holds no bytes once
// its socket took them, or its sink is put away.
ghost use Rattle.std.specs.Prelude.{◌≡◌};

use crate::notices::counted::SharedNotices;
use crate::program::host::Host;
use crate::socket::clocked::millis;
use crate::socket::outgoing::Outgoing;
use rx_events::SharedPulse;
use rx_server::{ClientSink, Server, SharedStop};
use std::thread;
use std::time::Duration;

// After how many milliseconds it looks again.
const STEP: u64 = 5;

// In how many looks nothing has to be held: so what was given meanwhile has come to its connection.
const CALM: u32 = 10;

/// Waits until all that was accepted went to its readers, so that nothing waits at a subject and no connection holds any of it, or until the
/// time of this stop is over. Meanwhile it tells the time to the sinks of readers, if there is a pulse, as no face does any more.
pub(crate) fn drain<F: Host>(
    rt: &F,
    server: &mut Server<ClientSink<Outgoing<F>>>,
    stop: &SharedStop,
    pulse: &Option<SharedPulse>,
    notices: &SharedNotices,
)
    ensures { server.new ≡ server.old }
{
    let _left = server.wait_within(rt, 0);
    let mut calm = 0;
    for _ in rt.forever() {
        let step = step_of(rt, stop, pulse);
        if step == 0 || calm >= CALM {
            return;
        }
        let left = server.wait_within(rt, step);
        calm = if left > 0 && !notices.is_holding() {
            calm.saturating_add(1)
        } else {
            0
        };
        thread::sleep(rt, Duration::from_millis(left));
    }
}

// How many milliseconds are waited at once: none where the time of this stop is over. The time is told to the pulse.
fn step_of<F: Host>(rt: &F, stop: &SharedStop, pulse: &Option<SharedPulse>) -> u64 {
    let Ok(now) = rt.monotonic() else {
        return 0;
    };
    let now = millis(now);
    if let Some(pulse) = pulse {
        pulse.tell(now);
    }
    stop.left(now).unwrap_or(0).min(STEP)
}
