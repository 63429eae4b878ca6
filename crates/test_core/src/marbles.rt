//! Marble diagrams of runs of a hub, in plain text, as docs/BEHAVIOUR.md has them.
//!
//! A column is an event and what it gives. On the subject's line stand its emissions; on the first line of an observer what
//! it asks: `^` that it joins, with its first request, a digit that it requests so many, `!` that it leaves; on its second
//! line what it is given, in brackets where several notes come at once. `|` is the completion, `#` an error, a capital
//! letter a seed.

use crate::expectations::expect_that;
use crate::heaps::unlimited;
use rx_heap::Heap;
use rx_hub::{Hub, Run};
use rx_note::{Errors, Event, Given, Note, Policy, Rules, Strategy};
use std::test::Fail;
use test_kit::{Named, Told, event_of, kind_of, rules_of, sign_of};

/// A run, and how it is drawn.
#[derive(Clone, Copy)]
struct Picture {
    name: &'static str,
    kind: Named,
    // The policy and the first request of each join.
    strategy: Strategy,
    errors: Errors,
    first: u32,
    script: &'static str,
    // The lines, and empty ones behind them.
    drawn: [&'static str; 5],
}

/// A line of a picture.
#[derive(Clone, Copy)]
enum Row {
    Subject,
    Asks(u32),
    IsGiven(u32),
}

const ROWS: [Row; 5] = [
    Row::Subject,
    Row::Asks(0),
    Row::IsGiven(0),
    Row::Asks(1),
    Row::IsGiven(1),
];

// The sign of a note in a picture.
fn marble(note: &Note) -> u8 {
    match note {
        Note::Next(_) => sign_of(note),
        Note::Completed => b'|',
        Note::Failed(_) => b'#',
    }
}

fn put_emission(cell: &mut Told, event: &Event) {
    match event {
        Event::Emit { note, .. } => cell.put(marble(note)),
        _ => {}
    }
}

// What an event asks for an observer; `joiner` is the number that a join makes.
fn put_asking(cell: &mut Told, event: &Event, who: u32, joiner: u32) {
    match event {
        Event::Join { first, .. } if who == joiner => {
            cell.put(b'^');
            cell.put_digit(*first as usize);
        }
        Event::Request { who: asks, n } if *asks == who => cell.put_digit(*n as usize),
        Event::Dispose { who: leaves } if *leaves == who => cell.put(b'!'),
        _ => {}
    }
}

// What an observer is given: in brackets where it is more than one note.
fn put_given(cell: &mut Told, outs: &[Given], who: u32) {
    let mut marbles = Told::new();
    for given in outs {
        if given.who == who {
            marbles.put(marble(&given.note));
        }
    }
    if marbles.len() > 1 {
        cell.put(b'(');
        cell.put_all(marbles.as_bytes());
        cell.put(b')');
    } else {
        cell.put_all(marbles.as_bytes());
    }
}

/// The events of a picture and their run.
struct Drawing {
    events: Vec<(u32, Event), Heap>,
    run: Run,
}

// By hand: rx_heap says why.
impl Drop for Drawing {
    fn drop(self) {
        let Drawing { events: _, run: _ } = self;
    }
}

fn events_of(heap: &Heap, picture: &Picture) -> Result<Vec<(u32, Event), Heap>, Fail> {
    let policy = Policy::new(picture.strategy, picture.errors)?;
    let mut events = Vec::new(heap.clone()?);
    for sign in picture.script.as_bytes() {
        events.push((0, event_of(heap, policy, picture.first, *sign)?))?;
    }
    Ok(events)
}

fn drawing_of(heap: &Heap, picture: &Picture) -> Result<Drawing, Fail> {
    let Rules { kind, limits } = rules_of(kind_of(heap, picture.kind)?);
    let mut hub = Hub::new(heap.clone()?, kind, limits)?;
    let run = hub.run(heap.clone()?, events_of(heap, picture)?)?;
    let events = events_of(heap, picture)?;
    Ok(Drawing { events, run })
}

impl Drawing {
    // What the event at a place gave.
    fn outs_at(&self, place: usize) -> &[Given] {
        let outs = self.run.outs.as_slice();
        let from = match place.checked_sub(1) {
            Some(before) => self.outs_to(before),
            None => 0,
        };
        outs.get(from..self.outs_to(place)).unwrap_or(&[])
    }

    fn outs_to(&self, place: usize) -> usize {
        match self.run.steps.get(place) {
            Some(step) => step.outs_to,
            None => 0,
        }
    }

    // The number of the observer that a join at a place makes, where each join is accepted.
    fn joiner_at(&self, place: usize) -> u32 {
        let mut joiner: u32 = 0;
        for entry in self.events.as_slice().iter().take(place) {
            if matches!(&entry.1, Event::Join { .. }) {
                joiner = joiner.saturating_add(1);
            }
        }
        joiner
    }

    fn cell(&self, row: Row, place: usize) -> Told {
        let mut cell = Told::new();
        let Some(entry) = self.events.get(place) else {
            return cell;
        };
        match row {
            Row::Subject => put_emission(&mut cell, &entry.1),
            Row::Asks(who) => put_asking(&mut cell, &entry.1, who, self.joiner_at(place)),
            Row::IsGiven(who) => put_given(&mut cell, self.outs_at(place), who),
        }
        cell
    }

    // The width of a column: that of its widest cell.
    fn width(&self, place: usize) -> usize {
        let mut width = 1;
        for row in ROWS {
            width = width.max(self.cell(row, place).len());
        }
        width
    }

    fn put_column(&self, line: &mut Told, row: Row, place: usize) {
        let cell = self.cell(row, place);
        line.put_all(cell.as_bytes());
        for _ in cell.len()..=self.width(place) {
            line.put(b'-');
        }
    }

    fn line(&self, row: Row) -> Told {
        let mut line = Told::new();
        put_label(&mut line, row);
        for place in 0..self.events.len() {
            self.put_column(&mut line, row, place);
        }
        line
    }
}

fn put_label(line: &mut Told, row: Row) {
    match row {
        Row::Subject => line.put_all(b"subject  -"),
        Row::Asks(who) => {
            line.put_digit(who as usize);
            line.put_all(b" asks   -");
        }
        Row::IsGiven(who) => {
            line.put_digit(who as usize);
            line.put_all(b" given  -");
        }
    }
}

impl Drawing {
    // Whether a line is drawn so; a picture of one observer has no line of a second.
    fn is_drawn(&self, row: Row, drawn: &str) -> bool {
        drawn.is_empty() || self.line(row).as_bytes() == drawn.as_bytes()
    }
}

// Whether all lines of a picture are as they are drawn.
fn are_drawn(heap: &Heap, picture: &Picture) -> Result<bool, Fail> {
    let drawing = drawing_of(heap, picture)?;
    let mut all = true;
    for (row, drawn) in ROWS.iter().zip(&picture.drawn) {
        all = all && drawing.is_drawn(*row, drawn);
    }
    Ok(all)
}

const PICTURES: &[Picture] = &[
    Picture {
        name: "publish",
        kind: Named::Publish,
        strategy: Strategy::Buffer,
        errors: Errors::Delay,
        first: 9,
        script: "a+b.+",
        drawn: [
            "subject  -a----b-|----",
            "0 asks   ---^9--------",
            "0 given  ------b-|----",
            "1 asks   ----------^9-",
            "1 given  ----------|--",
        ],
    },
    Picture {
        name: "behavior",
        kind: Named::Behavior(Some(b'z')),
        strategy: Strategy::Buffer,
        errors: Errors::Delay,
        first: 9,
        script: "+a.+",
        drawn: [
            "subject  ----a-|----",
            "0 asks   -^9--------",
            "0 given  -Z--a-|----",
            "1 asks   --------^9-",
            "1 given  --------|--",
        ],
    },
    Picture {
        name: "async",
        kind: Named::Async,
        strategy: Strategy::Buffer,
        errors: Errors::Delay,
        first: 9,
        script: "+ab.+",
        drawn: [
            "subject  ----a-b-|---------",
            "0 asks   -^9---------------",
            "0 given  --------(b|)------",
            "1 asks   -------------^9---",
            "1 given  -------------(b|)-",
        ],
    },
    Picture {
        name: "replay",
        kind: Named::Replay(Some(2), None),
        strategy: Strategy::Buffer,
        errors: Errors::Delay,
        first: 9,
        script: "abc+d.+",
        drawn: [
            "subject  -a-b-c------d-|-------",
            "0 asks   -------^9-------------",
            "0 given  -------(bc)-d-|-------",
            "1 asks   ----------------^9----",
            "1 given  ----------------(cd|)-",
        ],
    },
    Picture {
        name: "buffer",
        kind: Named::Publish,
        strategy: Strategy::Buffer,
        errors: Errors::Delay,
        first: 1,
        script: "+abc2.",
        drawn: [
            "subject  ----a-b-c------|-",
            "0 asks   -^1-------2------",
            "0 given  ----a-----(bc)-|-",
            "",
            "",
        ],
    },
    Picture {
        name: "drop",
        kind: Named::Publish,
        strategy: Strategy::Drop(1),
        errors: Errors::Delay,
        first: 1,
        script: "+abc2.",
        drawn: [
            "subject  ----a-b-c---|-",
            "0 asks   -^1-------2---",
            "0 given  ----a-----b-|-",
            "",
            "",
        ],
    },
    Picture {
        name: "latest",
        kind: Named::Publish,
        strategy: Strategy::Latest(1),
        errors: Errors::Delay,
        first: 1,
        script: "+abc2.",
        drawn: [
            "subject  ----a-b-c---|-",
            "0 asks   -^1-------2---",
            "0 given  ----a-----c-|-",
            "",
            "",
        ],
    },
    Picture {
        name: "overflow_delayed",
        kind: Named::Publish,
        strategy: Strategy::Bounded(1),
        errors: Errors::Delay,
        first: 1,
        script: "+abc+d2.",
        drawn: [
            "subject  ----a-b-c----d------|-",
            "0 asks   -^1------------2------",
            "0 given  ----a----------(b#)---",
            "1 asks   ----------^1----------",
            "1 given  -------------d------|-",
        ],
    },
    Picture {
        name: "overflow_ahead",
        kind: Named::Publish,
        strategy: Strategy::Bounded(1),
        errors: Errors::Ahead,
        first: 1,
        script: "+abc+d2.",
        drawn: [
            "subject  ----a-b-c----d---|-",
            "0 asks   -^1------------2---",
            "0 given  ----a---#----------",
            "1 asks   ----------^1-------",
            "1 given  -------------d---|-",
        ],
    },
    Picture {
        name: "delay",
        kind: Named::Publish,
        strategy: Strategy::Buffer,
        errors: Errors::Delay,
        first: 1,
        script: "+abc!2",
        drawn: [
            "subject  ----a-b-c-#-------",
            "0 asks   -^1---------2-----",
            "0 given  ----a-------(bc#)-",
            "",
            "",
        ],
    },
    Picture {
        name: "ahead",
        kind: Named::Publish,
        strategy: Strategy::Buffer,
        errors: Errors::Ahead,
        first: 1,
        script: "+abc!2",
        drawn: [
            "subject  ----a-b-c-#---",
            "0 asks   -^1---------2-",
            "0 given  ----a-----#---",
            "",
            "",
        ],
    },
    Picture {
        name: "leaving",
        kind: Named::Publish,
        strategy: Strategy::Buffer,
        errors: Errors::Delay,
        first: 1,
        script: "+ab-c",
        drawn: [
            "subject  ----a-b---c-",
            "0 asks   -^1-----!---",
            "0 given  ----a-------",
            "",
            "",
        ],
    },
];

// Hands the table out, so that what goes over it is proved without its rows.
fn pictures() -> &'static [Picture] {
    PICTURES
}

#[test]
fn runs_are_drawn(rt: HostRuntime) -> Result<(), Fail> {
    for picture in pictures() {
        expect_that(&rt, are_drawn(&unlimited(&rt), picture)?, picture.name);
    }
    Ok(())
}
