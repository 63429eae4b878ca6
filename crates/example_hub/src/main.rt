//! A first program over a hub alone: one subject, in one thread. Two observers ask for an item each. What they did not ask for
//! yet waits: all of it for one, the newest alone for the other.
#![tactic(auto)]

use anyhow::Result;
use rx_heap::Heap;
use rx_hub::Hub;
use rx_note::{Errors, Event, Given, Kind, Limits, Note, Policy, Strategy, Text};
use rx_proto::{Version, write_note};
use std::io::{Stdout, Write};

const LIMITS: Limits = Limits {
    observers: 8,
    joins: 8,
    items: 1_000,
};

fn main(rt: HostRuntime) -> Result<()> {
    let heap = Heap::unlimited(rt.alloc());
    let mut hub = Hub::new(heap.clone()?, Kind::Publish, LIMITS)?;
    let mut outs = Vec::new(heap.clone()?); // each step puts what it gives at its end
    join_two(&mut hub, &mut outs)?;
    for word in ["one", "two", "three"] {
        let text = Text::new(heap.clone()?, word.as_bytes())?;
        hub.step(0, Event::item(text, 0), &mut outs)?;
    }
    finish(&mut hub, &mut outs)?;
    write_all(outs.as_slice(), &mut rt.stdout())
}

// Observer 0 keeps all that waits, observer 1 the newest; each asks for one item at first.
fn join_two(hub: &mut Hub, outs: &mut Vec<Given, Heap>) -> Result<()> {
    for strategy in [Strategy::Buffer, Strategy::Latest(1)] {
        let policy = Policy::new(strategy, Errors::Delay)?;
        let event = Event::Join {
            policy,
            first: 1,
            at: 0,
        };
        hub.step(0, event, outs)?;
    }
    Ok(())
}

// The subject completes, and then each observer asks for five items more.
fn finish(hub: &mut Hub, outs: &mut Vec<Given, Heap>) -> Result<()> {
    let note = Note::Completed;
    hub.step(0, Event::Emit { note, at: 0 }, outs)?;
    for who in 0..2 {
        hub.step(0, Event::Request { who, n: 5 }, outs)?;
    }
    Ok(())
}

fn write_all(outs: &[Given], out: &mut Stdout) -> Result<()> {
    for given in outs {
        write!(out, "{} ", given.who)?;
        write_note(out, &given.note, Version::One)?;
    }
    Ok(())
}
