// The sinks by which browsers are told events.
ghost use Rattle.std.specs.Prelude.{◌≡◌, IfSome, nat_lt};
ghost use Rattle.rx_desk.specs.EventDesks.{event_sink, first_of, is_bounded};

use rx_events::{EventSink, SharedPulse, Tempo};
use rx_http::{Begin, Credit, Epoch};
use rx_note::Strategy;
use std::io::Write;
use std::sync::Arc;

/// The sink that tells an observer of this strategy by a writer, from where its reader begins, and by the credit and the tempo that it wants.
pub(crate) fn sink_over<W: Write + Drop>(
    writer: W,
    epoch: &Epoch,
    begin: Begin,
    strategy: Strategy,
    credit: Credit,
    tempo: Tempo,
) -> EventSink<W>
    requires { tempo ≡ nat_lt 0 credit.pace }
    ensures { result ≡ event_sink writer epoch.now begin strategy credit }
{
    let Some(epoch) = Epoch::new(epoch.as_bytes()) else {
        unreachable!()
    };
    let sink = EventSink::gathering(writer, epoch, begin, is_bounded(strategy)).at(tempo);
    if credit.asked { sink.asked() } else { sink }
}

// Whether an observer of this strategy may end by an overflow.
fn is_bounded(strategy: Strategy) -> bool
    ensures { result ≡ is_bounded strategy }
{
    matches!(strategy, Strategy::Bounded(_))
}

/// The tempo with a heartbeat after so many seconds, and so many milliseconds between two items. None where there is no memory for it.
pub(crate) fn tempo_of(pulse: &SharedPulse, heartbeat: u16, pace: u32) -> Option<Tempo>
    ensures { IfSome result (λ tempo. tempo ≡ nat_lt 0 pace) }
{
    match Arc::try_clone(pulse) {
        Ok(pulse) => Some(Tempo::new(pulse, 1000 * u64::from(heartbeat), pace)),
        Err(_) => None,
    }
}

/// How many items a reader is owed at first: one, where it keeps a pace, and the configured window at most.
pub(crate) fn first_of(credit: Credit, window: u32) -> u32
    ensures { result ≡ first_of credit window }
{
    if credit.pace > 0 {
        window.min(1)
    } else {
        credit.window.min(window)
    }
}
