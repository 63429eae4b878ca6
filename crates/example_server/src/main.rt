//! A first program over the server. One thread emits words into a subject, and another joins two observers to it: what one of
//! them is given is kept, what the other is given is written. The subject is a Replay, which gives all to whoever joins late, so
//! a run is the same whatever the threads do.
#![tactic(auto)]

ghost use Rattle.std.specs.Prelude.{◌≡◌, IfOk};

use anyhow::Result;
use rx_caller::{Caller, Callers, Either, EndedCaller};
use rx_heap::{Heap, Memory};
use rx_note::{Errors, Kind, Note, Policy, Strategy, Text};
use rx_proto::{Version, write_note};
use rx_server::{Config, Report, start};
use rx_sink::{LineSink, MemorySink};
use std::io::{Stdout, Write};
use std::sync::Wait;
use std::thread::join;

// What an observer is given is kept, or written.
type Shelf = Either<MemorySink, LineSink<Stdout>>;

fn main(rt: HostRuntime) -> Result<()> {
    let heap = Heap::unlimited(rt.alloc());
    let server = start(&rt, heap.clone()?, replaying(&heap)?)?;
    let mut callers = Callers::of(server, heap.clone()?);
    let speaker = callers.next()?;
    let listener = callers.next()?;
    let (spoke, listened) = join(
        &rt,
        || speak(&rt, &heap, speaker),
        || listen(&rt, &heap, listener, rt.stdout()),
    );
    callers.take(spoke?)?;
    callers.take(listened?)?;
    let report = callers.close(&rt)?;
    write_report(&report, &mut rt.stdout())
}

// One subject, a Replay without bounds, and a caller for each of two threads.
fn replaying(heap: &Heap) -> Result<Config, Memory> {
    let mut config = Config::standard(heap.clone()?)?;
    config.subjects[0].rules.kind = Kind::Replay {
        count: None,
        age: None,
    };
    config.workers = 2;
    Ok(config)
}

fn speak<R: Wait>(rt: &R, heap: &Heap, caller: Caller<Shelf>) -> Result<EndedCaller<Shelf>>
    ensures { IfOk result (λ ended. ended.made ≡ caller.made) }
{
    let mut caller = caller;
    caller.publish(rt, 0, Text::new(heap.clone()?, b"one")?)?;
    caller.publish(rt, 0, Text::new(heap.clone()?, b"two")?)?;
    caller.publish(rt, 0, Text::new(heap.clone()?, b"three")?)?;
    caller.complete(rt, 0)?;
    Ok(caller.finish(rt)?)
}

// All three items are requested at once, so that they are on their way to the sinks before the server is closed.
fn listen<R: Wait>(
    rt: &R,
    heap: &Heap,
    caller: Caller<Shelf>,
    out: Stdout,
) -> Result<EndedCaller<Shelf>>
    ensures { IfOk result (λ ended. ended.made ≡ caller.made) }
{
    let mut caller = caller;
    let policy = Policy::new(Strategy::Buffer, Errors::Delay)?;
    let kept = MemorySink::new(heap.clone()?, None);
    let written = LineSink::new(out, Version::One);
    caller.join(rt, 0, policy, 3, Either::First(kept))?;
    caller.join(rt, 0, policy, 3, Either::Second(written))?;
    Ok(caller.finish(rt)?)
}

fn write_report(report: &Report<Shelf>, out: &mut Stdout) -> Result<()> {
    for rests in &report.put_away {
        for away in rests.as_slice() {
            if let Either::First(notes) = &away.rest {
                write_kept(away.who, notes.as_slice(), out)?;
            }
        }
    }
    writeln!(out, "{} notes were taken", report.taken)?;
    Ok(())
}

fn write_kept(who: u32, notes: &[Note], out: &mut Stdout) -> Result<()> {
    writeln!(out, "observer {who} kept:")?;
    for note in notes {
        write_note(out, note, Version::One)?;
    }
    Ok(())
}
