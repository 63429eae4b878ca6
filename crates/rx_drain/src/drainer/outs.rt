// What a letter of a subject does to the sinks.
ghost use Rattle.std.specs.Prelude.{◌≡◌, ℕ, Option, vec_len};
ghost use Rattle.rx_sink.specs.Attachments.{attaching};
ghost use Rattle.rx_sink.specs.KeptSinks.{Tends, events_asked, sinks};
ghost use Rattle.rx_sink.specs.Rests.{HasRoomFor};
ghost use Rattle.rx_drain.specs.Drainers.{Finishes};
ghost use Rattle.rx_drain.specs.Logs.{service_of, sink_in};

use rx_heap::Heap;
use rx_pump::Out;
use rx_sink::{Asks, Kept, Places, Rests, Sink, attach, detach, give};

// A sink, a note or the leaving of an observer comes from a subject. It answers what the subject is to be asked. A sink that is left
// unserved is finished, as it came.
#[inline(always)] // once for each note
pub(crate) fn serve_out<S: Sink>(
    kept: &mut Vec<Kept<S>, Heap>,
    away: &mut Rests<S::Rest>,
    places: &mut Places,
    taken: &mut u64,
    subject: u32,
    out: Out<S>,
) -> Asks
    requires room { HasRoomFor (vec_len kept.old) away.old }
    ensures room { HasRoomFor (vec_len kept.new) away.new }
    ensures keeps { away.new.keeps ≡ away.old.keeps }
    ensures serves { (unserved : Option S) × ((place : ℕ) → Tends S.acts (service_of place subject out)
        (sinks kept.old.items away.old.items places.old.misses taken.old) (sinks kept.new.items away.new.items places.new.misses taken.new) (events_asked result) unserved) }
{
    match out {
        Out::Give { who, note } => give(kept, away, places, taken, subject, who, note),
        Out::Attach { who, sink } => serve_sink(kept, away, places, subject, who, sink),
        Out::Detach { who } => detach(kept, away, places, subject, who),
    }
}

// The same of a sink.
#[inline(never)] // rare, and a note makes no room for it
fn serve_sink<S: Sink>(
    kept: &mut Vec<Kept<S>, Heap>,
    away: &mut Rests<S::Rest>,
    places: &mut Places,
    subject: u32,
    who: u32,
    sink: S,
) -> Asks
    requires room { HasRoomFor (vec_len kept.old) away.old }
    ensures room { HasRoomFor (vec_len kept.new) away.new }
    ensures keeps { away.new.keeps ≡ away.old.keeps }
    ensures serves { (unserved : Option S) × ((place taken : ℕ) → Tends S.acts (attaching place subject who sink)
        (sinks kept.old.items away.old.items places.old.misses taken) (sinks kept.new.items away.new.items places.new.misses taken) (events_asked result) unserved) }
{
    let (asks, unserved) = attach(kept, away, places, subject, who, sink);
    let _rest = finish_unserved(unserved);
    asks
}

// The same where the drainer has left, or the leave port sends it: what comes is discarded, and a sink finished, as it came.
#[inline(never)] // the same
pub(crate) fn discard<S: Sink>(out: Out<S>) {
    let _rest = finish_unserved(into_sink(out));
}

// The sink that comes by a letter, if one does.
fn into_sink<S: Drop>(out: Out<S>) -> Option<S>
    ensures { result ≡ sink_in out }
{
    match out {
        Out::Attach { who: _, sink } => Some(sink),
        _ => None,
    }
}

// Finishes a sink that is left unserved, as it came. It answers what the sink left.
fn finish_unserved<S: Sink>(unserved: Option<S>) -> Option<S::Rest>
    ensures { Finishes S.acts unserved result }
{
    match unserved {
        Some(sink) => Some(sink.finish()),
        None => None,
    }
}
