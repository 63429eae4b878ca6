//! What event sinks write of the notes that they take, and how they stand.

use crate::answers::{Answered, bytes_of};
use crate::drips::Page;
use crate::expectations::{expect_count, expect_flow, expect_row, expect_that};
use crate::plain::{Reader, read};
use rx_events::{EventSink, Pulse, SharedPulse, Tempo};
use rx_heap::{Heap, Memory};
use rx_http::{Begin, Epoch, Id};
use rx_note::{Item, Note, Text};
use rx_sink::{Flow, Sink, SinkFault};
use std::process::Abort;
use std::sync::Arc;
use std::test::Fail;
use test_kit::{Refusable, Seen, refuse_in_turn};

/// A note.
#[derive(Clone, Copy)]
enum Told {
    Item(u32, &'static [u8]),
    Seed(&'static [u8]),
    Done,
    Failed(&'static [u8]),
}

impl Told {
    fn note(&self, heap: &Heap) -> Result<Note, Memory> {
        match self {
            Told::Item(place, bytes) => {
                let mut item = Item::new(text(heap, bytes)?);
                item.place = *place;
                Ok(Note::Next(item))
            }
            Told::Seed(bytes) => Ok(Note::Next(Item::seed(text(heap, bytes)?))),
            Told::Done => Ok(Note::Completed),
            Told::Failed(bytes) => Ok(Note::Failed(text(heap, bytes)?)),
        }
    }
}

fn text(heap: &Heap, bytes: &[u8]) -> Result<Text, Memory> {
    match Text::new(heap.clone()?, bytes) {
        Ok(text) => Ok(text),
        Err(_) => Err(Memory),
    }
}

/// Where a reader begins.
#[derive(Clone, Copy)]
enum Place {
    Fresh,
    Behind(Option<u32>),
    Restarted(&'static [u8]),
}

impl Place {
    fn begin(&self) -> Result<Begin, Fail> {
        match self {
            Place::Fresh => Ok(Begin::Fresh),
            Place::Behind(place) => Ok(Begin::Behind(*place)),
            Place::Restarted(sent) => match Id::read(sent) {
                Some(id) => Ok(Begin::Restarted(id)),
                None => Err(Fail::from("no id")),
            },
        }
    }
}

/// A stream: where its reader begins, whether its observer may overflow, the notes, and the bytes behind the head of the answer.
struct Row {
    name: &'static str,
    place: Place,
    bounded: bool,
    notes: &'static [Told],
    told: &'static [u8],
}

const ROWS: &[Row] = &[
    Row {
        name: "whatever_comes_first_is_the_next",
        place: Place::Fresh,
        bounded: false,
        notes: &[Told::Item(7, b"a"), Told::Item(8, b"b"), Told::Done],
        told: b"retry: 1000\nid: e1-\nevent: joined\ndata: e1-4\n\nid: e1-7\nevent: next\ndata: a\n\nid: e1-8\nevent: next\ndata: b\n\nid: e1-8-over\nevent: done\ndata: \n\n",
    },
    Row {
        name: "what_is_known_is_passed_over",
        place: Place::Behind(Some(7)),
        bounded: false,
        notes: &[
            Told::Item(0, b"x"),
            Told::Item(7, b"a"),
            Told::Item(8, b"b"),
        ],
        told: b"retry: 1000\nid: e1-7\nevent: joined\ndata: e1-4\n\nid: e1-8\nevent: next\ndata: b\n\n",
    },
    Row {
        name: "what_is_left_out_is_told",
        place: Place::Behind(Some(2)),
        bounded: false,
        notes: &[Told::Item(8, b"hello"), Told::Item(10, b"b")],
        told: b"retry: 1000\nid: e1-2\nevent: joined\ndata: e1-4\n\nid: e1-7\nevent: missed\ndata: 5\n\nid: e1-8\nevent: next\ndata: hello\n\nid: e1-9\nevent: missed\ndata: 1\n\nid: e1-10\nevent: next\ndata: b\n\n",
    },
    Row {
        name: "one_that_knows_of_none_misses_from_the_first",
        place: Place::Behind(None),
        bounded: false,
        notes: &[Told::Item(1, b"b")],
        told: b"retry: 1000\nid: e1-\nevent: joined\ndata: e1-4\n\nid: e1-0\nevent: missed\ndata: 1\n\nid: e1-1\nevent: next\ndata: b\n\n",
    },
    Row {
        name: "one_of_another_epoch_begins_anew",
        place: Place::Restarted(b"19c0-7"),
        bounded: false,
        notes: &[Told::Item(0, b"a"), Told::Item(2, b"c")],
        told: b"retry: 1000\nid: e1-\nevent: restarted\ndata: 19c0-7\n\nid: e1-\nevent: joined\ndata: e1-4\n\nid: e1-0\nevent: next\ndata: a\n\nid: e1-1\nevent: missed\ndata: 1\n\nid: e1-2\nevent: next\ndata: c\n\n",
    },
    Row {
        name: "a_seed_has_no_place",
        place: Place::Fresh,
        bounded: false,
        notes: &[Told::Seed(b"s"), Told::Item(3, b"a"), Told::Item(4, b"b")],
        told: b"retry: 1000\nid: e1-\nevent: joined\ndata: e1-4\n\nevent: next\ndata: s\n\nid: e1-3\nevent: next\ndata: a\n\nid: e1-4\nevent: next\ndata: b\n\n",
    },
    Row {
        name: "a_seed_is_told_at_each_coming",
        place: Place::Behind(Some(0)),
        bounded: false,
        notes: &[Told::Seed(b"s"), Told::Item(1, b"b")],
        told: b"retry: 1000\nid: e1-0\nevent: joined\ndata: e1-4\n\nevent: next\ndata: s\n\nid: e1-1\nevent: next\ndata: b\n\n",
    },
    Row {
        name: "an_end_with_nothing_known",
        place: Place::Fresh,
        bounded: true,
        notes: &[Told::Done],
        told: b"retry: 1000\nid: e1-\nevent: joined\ndata: e1-4\n\nid: e1--over\nevent: done\ndata: \n\n",
    },
    Row {
        name: "an_error",
        place: Place::Behind(Some(7)),
        bounded: true,
        notes: &[Told::Item(8, b"\xff"), Told::Failed(b"out of\rpaper")],
        told: b"retry: 1000\nid: e1-7\nevent: joined\ndata: e1-4\n\nid: e1-8\nevent: next64\ndata: /w==\n\nid: e1-8-over\nevent: failed\ndata: out of\ndata: paper\n\n",
    },
    Row {
        name: "an_overflow_has_no_id",
        place: Place::Behind(Some(7)),
        bounded: true,
        notes: &[Told::Item(8, b"a"), Told::Failed(b"OVERFLOW")],
        told: b"retry: 1000\nid: e1-7\nevent: joined\ndata: e1-4\n\nid: e1-8\nevent: next\ndata: a\n\nevent: overflow\ndata: \n\n",
    },
    Row {
        name: "a_subject_that_fails_so_is_over",
        place: Place::Behind(Some(7)),
        bounded: false,
        notes: &[Told::Failed(b"OVERFLOW")],
        told: b"retry: 1000\nid: e1-7\nevent: joined\ndata: e1-4\n\nid: e1-7-over\nevent: failed\ndata: OVERFLOW\n\n",
    },
    Row {
        name: "the_last_place_of_all",
        place: Place::Behind(Some(4_294_967_293)),
        bounded: false,
        notes: &[Told::Item(4_294_967_294, b"z")],
        told: b"retry: 1000\nid: e1-4294967293\nevent: joined\ndata: e1-4\n\nid: e1-4294967294\nevent: next\ndata: z\n\n",
    },
];

// Hands the table out, so that what goes over it is proved without its rows.
fn rows() -> &'static [Row] {
    ROWS
}

fn epoch() -> Result<Epoch, Fail> {
    match Epoch::new(b"e1") {
        Some(epoch) => Ok(epoch),
        None => Err(Fail::from("no epoch")),
    }
}

// A sink over a writer that gathers nothing stands so behind each note.
fn expect_clear(
    rt: &impl Abort,
    heap: &Heap,
    sink: &mut impl Sink,
    notes: &[Told],
) -> Result<(), Fail> {
    for (call, note) in notes.iter().enumerate() {
        expect_flow(rt, sink.take(note.note(heap)?)?, Flow::Clear, call);
    }
    Ok(())
}

// The bytes behind the head of the answer are these.
fn is_told(stream: &[u8], told: &[u8]) -> bool {
    stream.strip_prefix(bytes_of(Answered::Events)) == Some(told)
}

// A sink over a writer that gathers nothing.
fn sink_at(heap: &Heap, begin: Begin, bounded: bool) -> Result<EventSink<Vec<u8, Heap>>, Fail> {
    let epoch = epoch()?;
    Ok(EventSink::new(Vec::new(heap.clone()?), epoch, begin, bounded))
}

// The stream of a row.
fn stream_by(rt: &impl Abort, heap: &Heap, row: &Row) -> Result<Vec<u8, Heap>, Fail> {
    let mut sink = sink_at(heap, row.place.begin()?, row.bounded)?;
    sink.start(4)?;
    expect_clear(rt, heap, &mut sink, row.notes)?;
    Ok(sink.into_writer())
}

#[test]
fn streams_as_their_bytes(rt: HostRuntime) -> Result<(), Fail> {
    let heap = Heap::unlimited(rt.alloc());
    for row in rows() {
        let stream = stream_by(&rt, &heap, row)?;
        expect_that(&rt, is_told(stream.as_slice(), row.told), row.name);
    }
    Ok(())
}

// A sink over a page whose next flushes would block, so many, to a reader that knows the items up to the place 7.
fn gathering(heap: &Heap, blocks: u64) -> Result<EventSink<Page>, Fail> {
    let page = Page::new(heap.clone()?, blocks);
    Ok(EventSink::gathering(page, epoch()?, Begin::Behind(Some(7)), false))
}

/// A call of a sink.
#[derive(Clone, Copy)]
enum Call {
    Take(Told),
    Flush,
}

impl Call {
    fn flow(&self, heap: &Heap, sink: &mut impl Sink) -> Result<Flow, Fail> {
        match self {
            Call::Take(told) => Ok(sink.take(told.note(heap)?)?),
            Call::Flush => Ok(sink.flush()?),
        }
    }
}

// A sink stands so behind each of these calls.
fn expect_flows(
    rt: &impl Abort,
    heap: &Heap,
    sink: &mut impl Sink,
    calls: &[(Call, Flow)],
) -> Result<(), Fail> {
    for (i, (call, flow)) in calls.iter().enumerate() {
        expect_flow(rt, call.flow(heap, sink)?, *flow, i);
    }
    Ok(())
}

// It stands so behind each of these calls, before each of which it is so late.
fn expect_flows_at(
    rt: &impl Abort,
    heap: &Heap,
    sink: &mut impl Sink,
    pulse: &Pulse,
    calls: &[(u64, Call, Flow)],
) -> Result<(), Fail> {
    for (i, (moment, call, flow)) in calls.iter().enumerate() {
        pulse.tell(*moment);
        expect_flow(rt, call.flow(heap, sink)?, *flow, i);
    }
    Ok(())
}

// So many notes were taken by a sink that is finished, and it had a fault or none.
fn expect_rest(rt: &impl Abort, sink: EventSink<Page>, notes: u64, failed: bool) {
    let rest = sink.finish();
    expect_count(rt, rest.notes, notes, "notes that were taken");
    expect_that(rt, rest.failed == failed, "whether it had a fault");
}

// Eight items are passed over, and 48 are told, behind each eighth of which those of eight are asked for.
fn expect_taken(rt: &impl Abort, heap: &Heap, sink: &mut impl Sink) -> Result<(), Fail> {
    for place in 0..56 {
        let call = Call::Take(Told::Item(place, b"a"));
        let is_held = place >= 8 && place % 8 != 7;
        let wanted = if is_held { Flow::Held } else { Flow::Ready };
        expect_flow(rt, call.flow(heap, sink)?, wanted, place as usize);
    }
    Ok(())
}

// Behind 48 notes that wait, and eight that were passed over.
const COUNTED: [(Call, Flow); 4] = [
    (Call::Take(Told::Item(0, b"a")), Flow::Ready),
    (Call::Take(Told::Item(56, b"a")), Flow::Stuck),
    (Call::Flush, Flow::Clear),
    (Call::Take(Told::Item(57, b"a")), Flow::Held),
];

#[test]
fn what_is_passed_over_is_not_counted(rt: HostRuntime) -> Result<(), Fail> {
    let heap = Heap::unlimited(rt.alloc());
    let mut sink = gathering(&heap, 0)?;
    sink.start(0)?;
    expect_taken(&rt, &heap, &mut sink)?;
    expect_flows(&rt, &heap, &mut sink, &COUNTED)?;
    expect_rest(&rt, sink, 59, false);
    Ok(())
}

// A flush has it told nothing at first, and then an item that is passed over, items that are told, and the end.
const HELD: &[(Call, Flow)] = &[
    (Call::Flush, Flow::Stuck),
    (Call::Flush, Flow::Clear),
    (Call::Take(Told::Item(7, b"a")), Flow::Ready),
    (Call::Flush, Flow::Clear),
    (Call::Take(Told::Item(8, b"a")), Flow::Held),
    (Call::Flush, Flow::Held),
    (Call::Take(Told::Item(9, b"a")), Flow::Held),
    (Call::Take(Told::Done), Flow::Held),
    (Call::Flush, Flow::Clear),
];

// The same where the writer gathers nothing.
const HELD_AT_ONCE: [(Call, Flow); 3] = [
    (Call::Take(Told::Item(0, b"a")), Flow::Held),
    (Call::Flush, Flow::Held),
    (Call::Take(Told::Failed(b"x")), Flow::Clear),
];

fn expect_held_at_once(rt: &impl Abort, heap: &Heap) -> Result<(), Fail> {
    let mut sink = sink_at(heap, Begin::Fresh, false)?.asked();
    sink.start(0)?;
    expect_flows(rt, heap, &mut sink, &HELD_AT_ONCE)
}

#[test]
fn what_its_reader_asks_for_is_held_back(rt: HostRuntime) -> Result<(), Fail> {
    let heap = Heap::unlimited(rt.alloc());
    let mut sink = gathering(&heap, 1)?.asked();
    sink.start(0)?;
    expect_flows(&rt, &heap, &mut sink, HELD)?;
    expect_held_at_once(&rt, &heap)
}

const STUCK: [(Call, Flow); 5] = [
    (Call::Flush, Flow::Stuck),
    (Call::Take(Told::Item(0, b"a")), Flow::Stuck),
    (Call::Take(Told::Item(8, b"a")), Flow::Stuck),
    (Call::Flush, Flow::Clear),
    (Call::Take(Told::Item(9, b"a")), Flow::Held),
];

// A sink over this page, whose flushes fail, is at fault.
fn expect_fault(rt: &impl Abort, page: Page) -> Result<(), Fail> {
    let mut sink = EventSink::gathering(page, epoch()?, Begin::Fresh, false);
    expect_that(rt, sink.flush() == Err(SinkFault), "a flush that fails");
    expect_that(rt, sink.finish().failed, "it had a fault");
    Ok(())
}

#[test]
fn stuck_until_nothing_waits(rt: HostRuntime) -> Result<(), Fail> {
    let heap = Heap::unlimited(rt.alloc());
    let mut sink = gathering(&heap, 1)?;
    sink.start(0)?;
    expect_flows(&rt, &heap, &mut sink, &STUCK)?;
    let mut page = sink.into_writer();
    page.fails = true;
    expect_fault(&rt, page)
}

const BEATS: &[(u64, Call, Flow)] = &[
    (999, Call::Flush, Flow::Clear),
    (1000, Call::Flush, Flow::Clear),
    (1999, Call::Take(Told::Item(8, b"a")), Flow::Held),
    (1999, Call::Flush, Flow::Clear),
    (2998, Call::Flush, Flow::Clear),
    (2999, Call::Take(Told::Item(8, b"a")), Flow::Ready),
    (2999, Call::Flush, Flow::Clear),
    (5000, Call::Flush, Flow::Clear),
];

const BEATEN: &[u8] =
    b"retry: 1000\nid: e1-7\nevent: joined\ndata: e1-4\n\n:\nid: e1-8\nevent: next\ndata: a\n\n:\n:\n";

// Nothing is told while something waits.
const WAITS: [(u64, Call, Flow); 2] = [
    (5000, Call::Flush, Flow::Stuck),
    (7000, Call::Flush, Flow::Stuck),
];

// What a sink has written that beats each second, over a page whose next flushes would block, so many, and stands so.
fn written_at(
    rt: &impl Abort,
    heap: &Heap,
    pulse: &SharedPulse,
    blocks: u64,
    calls: &[(u64, Call, Flow)],
) -> Result<Page, Fail> {
    let mut sink = gathering(heap, blocks)?.at(Tempo::new(Arc::try_clone(pulse)?, 1000, 0));
    sink.start(4)?;
    if blocks == 0 {
        sink.flush()?;
    }
    expect_flows_at(rt, heap, &mut sink, pulse, calls)?;
    Ok(sink.into_writer())
}

#[test]
fn a_heartbeat_where_nothing_was_told(rt: HostRuntime) -> Result<(), Fail> {
    let heap = Heap::unlimited(rt.alloc());
    let pulse = Pulse::shared(heap.clone()?)?;
    let page = written_at(&rt, &heap, &pulse, 0, BEATS)?;
    expect_that(&rt, is_told(page.held.as_slice(), BEATEN), "what is told");
    let page = written_at(&rt, &heap, &pulse, 2, &WAITS)?;
    let is_silent = page.held.as_slice().ends_with(b"e1-4\n\n");
    expect_that(&rt, is_silent, "nothing while something waits");
    Ok(())
}

// An item that is passed over, and two that are told; an end waits for no pace.
const PACED: &[(u64, Call, Flow)] = &[
    (0, Call::Flush, Flow::Clear),
    (0, Call::Take(Told::Item(7, b"a")), Flow::Ready),
    (0, Call::Take(Told::Item(8, b"a")), Flow::Stuck),
    (0, Call::Flush, Flow::Stuck),
    (49, Call::Flush, Flow::Stuck),
    (50, Call::Flush, Flow::Clear),
    (50, Call::Take(Told::Item(9, b"a")), Flow::Stuck),
    (50, Call::Take(Told::Done), Flow::Stuck),
    (50, Call::Flush, Flow::Clear),
];

#[test]
fn an_item_in_a_time(rt: HostRuntime) -> Result<(), Fail> {
    let heap = Heap::unlimited(rt.alloc());
    let pulse = Pulse::shared(heap.clone()?)?;
    expect_that(&rt, !pulse.is_paced(), "nobody keeps a pace yet");
    let mut sink = gathering(&heap, 0)?.at(Tempo::new(Arc::try_clone(&pulse)?, 1000, 50));
    expect_that(&rt, pulse.is_paced(), "one keeps a pace");
    sink.start(4)?;
    expect_flows_at(&rt, &heap, &mut sink, &pulse, PACED)?;
    expect_rest(&rt, sink, 4, false);
    expect_that(&rt, !pulse.is_paced(), "nobody keeps a pace any more");
    Ok(())
}

/// The stream of a row, each call made again where a growth was refused in it: from the sink's begin, by the bytes that it is to have.
struct Stream;

// The stream of a row up to the first call in which a growth of it was refused, and whether none was.
fn stream_till(row: &Row, free: &Heap, tight: &Heap) -> Result<(bool, Vec<u8, Heap>), Fail> {
    let mut sink = sink_at(tight, row.place.begin()?, row.bounded)?;
    let mut is_made = sink.start(4).is_ok();
    for note in row.notes {
        if is_made {
            is_made = sink.take(note.note(free)?).is_ok();
        }
    }
    Ok((is_made, sink.into_writer()))
}

// Whether a stream is a front of the head of the answer with these bytes behind it.
fn is_front(stream: &[u8], told: &[u8]) -> bool {
    let head = bytes_of(Answered::Events);
    match stream.strip_prefix(head) {
        Some(rest) => told.starts_with(rest),
        None => head.starts_with(stream),
    }
}

impl Refusable for Stream {
    fn run_by(&self, free: &Heap, tight: &Heap) -> Result<Seen, Fail> {
        let row = rows().get(4).ok_or("no such row")?;
        let (is_made, stream) = stream_till(row, free, tight)?;
        let is_right = if is_made {
            is_told(stream.as_slice(), row.told)
        } else {
            is_front(stream.as_slice(), row.told)
        };
        Ok(Seen {
            is_made,
            misses: 0,
            is_right,
        })
    }
}

#[test]
fn sinks_with_each_growth_refused(rt: HostRuntime) -> Result<(), Fail> {
    let refusals = refuse_in_turn(&Stream, rt.alloc())?;
    expect_that(&rt, refusals.fault == "", refusals.fault);
    expect_that(&rt, refusals.unmade > 0, "no growth was refused");
    Ok(())
}

/// What a subject gives, of which two items were left out.
const GIVEN: [Told; 5] = [
    Told::Item(0, b"a"),
    Told::Item(1, b"b"),
    Told::Item(4, b"c\rd"),
    Told::Item(5, b"e"),
    Told::Done,
];

// The stream of all that is given, with its head, to a reader that begins there.
fn whole_stream(heap: &Heap, begin: Begin) -> Result<Vec<u8, Heap>, Fail> {
    let mut sink = sink_at(heap, begin, false)?;
    sink.start(4)?;
    for note in &GIVEN {
        sink.take(note.note(heap)?)?;
    }
    Ok(sink.into_writer())
}

// The same behind its head.
fn stream_of(heap: &Heap, begin: Begin) -> Result<Vec<u8, Heap>, Fail> {
    let whole = whole_stream(heap, begin)?;
    match whole.as_slice().strip_prefix(bytes_of(Answered::Events)) {
        Some(told) => Ok(Vec::from_slice(heap.clone()?, told)?),
        None => Err(Fail::from("another head")),
    }
}

// Where a reader begins that comes with this id; nowhere, where it knows that the subject is over.
fn begin_with(id: &[u8]) -> Result<Option<Begin>, Fail> {
    if id.is_empty() {
        return Ok(Some(Begin::Fresh));
    }
    match Id::read(id) {
        Some(known) => Ok(Begin::by(&epoch()?, Some(known))),
        None => Err(Fail::from("no id")),
    }
}

// Puts what a reader heard, behind what it heard before: of an item its text, of misses how many they are, and the end.
fn put_heard(heard: &mut Vec<u8, Heap>, reader: &Reader) -> Result<(), Memory> {
    for message in &reader.messages {
        match message.kind.as_slice() {
            b"joined" => {}
            b"missed" => {
                heard.push(b'-')?;
                heard.extend_from_slice(message.text.as_slice())?;
            }
            b"done" => heard.push(b'.')?,
            _ => heard.extend_from_slice(message.text.as_slice())?,
        }
    }
    Ok(())
}

// Whether a reader that heard so many bytes, and comes again with its last id for the rest, hears each once.
fn is_heard_once(heap: &Heap, come: &[u8]) -> Result<bool, Fail> {
    let reader = read(heap, b"", come)?;
    let mut heard = Vec::new(heap.clone()?);
    put_heard(&mut heard, &reader)?;
    if let Some(begin) = begin_with(reader.last_id.as_slice())? {
        put_rest(heap, &mut heard, begin, reader.last_id.as_slice())?;
    }
    Ok(heard.as_slice() == b"ab-2c\nde.".as_slice())
}

// Puts what a reader hears that begins there, which comes with this id.
fn put_rest(
    heap: &Heap,
    heard: &mut Vec<u8, Heap>,
    begin: Begin,
    last_id: &[u8],
) -> Result<(), Fail> {
    let rest = stream_of(heap, begin)?;
    put_heard(heard, &read(heap, last_id, rest.as_slice())?)?;
    Ok(())
}

// Whether a reader that heard all of a stream knows that it is over.
fn is_over(heap: &Heap, stream: &[u8]) -> Result<bool, Fail> {
    let whole = read(heap, b"", stream)?;
    Ok(begin_with(whole.last_id.as_slice())?.is_none())
}

#[test]
fn heard_once_at_each_cut(rt: HostRuntime) -> Result<(), Fail> {
    let heap = Heap::unlimited(rt.alloc());
    let stream = stream_of(&heap, Begin::Fresh)?;
    for (cut, _) in stream.iter().enumerate() {
        let (come, _) = stream.as_slice().split_at(cut);
        expect_row(&rt, is_heard_once(&heap, come)?, cut);
    }
    expect_that(&rt, is_over(&heap, stream.as_slice())?, "it is over");
    Ok(())
}
