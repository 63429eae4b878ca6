//! Two producers on two threads and 64 observers at a time, of all strategies and error modes, through a server's pump and drainers:
//! each observer's sink takes just what the stored history says of the calls that the pump received.
//!
//! Which items came before which is told by observer 0, which is owed all. Between two rounds of items a third caller joins
//! observers, requests for some and disposes of some, drawn by a fixed rule. No sink asks for more.

ghost use Rattle.std.specs.Prelude.{◌≤◌, IfOk, List};
ghost use Rattle.std.specs.List.{All};
ghost use Rattle.rx_pump.specs.Desks.{DeskView, KeepsDesk};
ghost use Rattle.rx_server.specs.Servers.{IsDeskOf, IsEndOf};
ghost use Rattle.test_edge.specs.declared.order.Ledger.{Ledger};

use crate::callers::{Caller, caller_of};
use crate::expectations::{expect_answer, expect_count, expect_that};
use crate::servers::{Host, closed, started, subject_of};
use rx_drain::{Flow, PutAway, Sink, SinkFault};
use rx_heap::{Heap, Memory};
use rx_history::History;
use rx_note::{Answer, Errors, Event, Kind, Note, Rules, Strategy};
use rx_pump::EndedDesk;
use rx_server::Report;
use std::process::Abort;
use std::sync::Wait;
use std::test::Fail;
use std::thread::join;
use test_kit::{note_of, policy_by, rules_of, text_of};

// A Replay of the last items, with two drainers, for three desks.
const CONFIG: &[u8] =
    b"[[subject]]\nname = \"s\"\nkind = \"replay\"\ncount = 5\n[pool]\nworkers = 3\ndrainers = 2\n";

// Hands it out, so that who serves by it is proved without its bytes.
fn configuration() -> &'static [u8] {
    CONFIG
}

const COUNT: u16 = 5;

// The last round has no item, but the end.
const ROUNDS: u32 = 16;

// How many items a producer emits in a round.
const ITEMS: u32 = 25;

// The port of the caller that emits nothing but the end.
const THIRD: u32 = 2;

/// Keeps the notes that it takes. It is stuck, so that nobody asks for more.
#[derive(Drop)]
struct Ledger {
    notes: Vec<Note, Heap>,
    faults: u64,
}

impl Sink for Ledger {
    type Rest = Vec<Note, Heap>;

    // No test rests on what a contract says of it, so none is told of its calls but that each fault is counted.
    ghost acts = { record {
      started = λ _ _ _. Unit {0};
      start_faulted = λ _ _ _. Unit {0};
      took = λ _ _ _ _. Unit {0};
      take_faulted = λ _ _ _. Unit {0};
      flushed = λ _ _ _. Unit {0};
      flush_faulted = λ _ _. Unit {0};
      finished = λ _ _. Unit {0};
      faults = λ s. s.faults;
    } };

    fn start(&mut self, _who: u32) -> Result<(), SinkFault> {
        Ok(())
    }

    fn take(&mut self, note: Note) -> Result<Flow, SinkFault> {
        let Ok(()) = self.notes.push(note) else {
            self.faults = self.faults.saturating_add(1);
            return Err(SinkFault);
        };
        Ok(Flow::Stuck)
    }

    fn flush(&mut self) -> Result<Flow, SinkFault> {
        Ok(Flow::Stuck)
    }

    fn finish(self) -> Vec<Note, Heap> {
        self.notes
    }
}

/// What the third caller does.
#[derive(Clone, Copy)]
enum Act {
    Join(Strategy, Errors, u32),
    Request(u32, u32),
    Dispose(u32),
    End,
}

/// Draws what the third caller does in a round.
#[derive(Drop)]
struct Draw {
    state: u64,
    round: u32,
}

impl Draw {
    fn of(round: u32) -> Draw {
        Draw {
            state: u64::from(round),
            round,
        }
    }

    // The next number below `bound`.
    fn below(&mut self, bound: u64) -> u32 {
        self.state = self
            .state
            .wrapping_mul(6_364_136_223_846_793_005)
            .wrapping_add(1_442_695_040_888_963_407);
        let high = self.state.checked_div(8_589_934_592).unwrap_or(0);
        u32::try_from(high.checked_rem(bound).unwrap_or(0)).unwrap_or(0)
    }

    // A strategy, with a room of at most 7 items.
    fn strategy(&mut self) -> Strategy {
        let room = u16::try_from(self.below(8)).unwrap_or(0);
        match self.below(4) {
            0 => Strategy::Buffer,
            1 => Strategy::Drop(room),
            2 => Strategy::Latest(room.max(1)),
            _ => Strategy::Bounded(room),
        }
    }

    // An observer joins.
    fn joining(&mut self) -> Act {
        let strategy = self.strategy();
        let errors = match self.below(2) {
            0 => Errors::Ahead,
            _ => Errors::Delay,
        };
        Act::Join(strategy, errors, self.below(20))
    }

    // Any but the first observer; some of these never joined.
    fn who(&mut self) -> u32 {
        self.below(110).saturating_add(1)
    }

    fn other(&mut self) -> Act {
        match self.below(16) {
            0 => Act::Dispose(self.who()),
            1 | 2 => self.joining(),
            _ => Act::Request(self.who(), self.below(12)),
        }
    }

    // The one at a place of the round. In the first 64 observers join, the first of which is owed all, and two for whom there
    // is no place; in the last the end comes first.
    fn act(&mut self, place: u32) -> Act {
        match (self.round, place) {
            (0, 0) => Act::Join(Strategy::Buffer, Errors::Delay, u32::MAX),
            (0, _) => self.joining(),
            (ROUNDS, 0) => Act::End,
            _ => self.other(),
        }
    }
}

// How many acts a round has.
const ACTS: u32 = 66;

// The event of an act.
fn event_of(heap: &Heap, act: Act) -> Result<Event, Fail> {
    match act {
        Act::Join(strategy, errors, first) => {
            let policy = policy_by(strategy, errors)?;
            let at = 0;
            Ok(Event::Join { policy, first, at })
        }
        Act::Request(who, n) => Ok(Event::Request { who, n }),
        Act::Dispose(who) => Ok(Event::Dispose { who }),
        Act::End => {
            let note = note_of(heap, b'!')?;
            Ok(Event::Emit { note, at: 0 })
        }
    }
}

// The sink of an observer that joins.
fn sink_of(heap: &Heap, act: Act) -> Result<Option<Ledger>, Memory> {
    match act {
        Act::Join(..) => Ok(Some(Ledger {
            notes: Vec::new(heap.clone()?),
            faults: 0,
        })),
        _ => Ok(None),
    }
}

/// The callers of a server: two that emit items, and one that does all else.
#[derive(Drop)]
struct Callers {
    first: Caller<Ledger>,
    second: Caller<Ledger>,
    third: Caller<Ledger>,
}

// The third caller does what is drawn for a round.
fn act_all(
    rt: &(impl Wait + Abort),
    heap: &Heap,
    caller: &mut Caller<Ledger>,
    round: u32,
) -> Result<(), Fail>
    ensures { KeepsDesk caller.old.desk caller.new.desk }
{
    let mut draw = Draw::of(round);
    for place in 0..ACTS {
        let act = draw.act(place);
        let event = event_of(heap, act)?;
        let _answer = caller.call(rt, 0, event, sink_of(heap, act)?);
    }
    Ok(())
}

// The text of an item: whose it is, and its number, so long that it takes memory.
fn text_bytes(letter: u8, round: u32, number: u32) -> [u8; 24] {
    let mut bytes = [letter; 24];
    bytes[22] = b'A' + (round % 32) as u8;
    bytes[23] = b'A' + (number % 32) as u8;
    bytes
}

// A producer emits the items of a round, each of which is admitted.
fn emit_items(
    rt: &(impl Wait + Abort),
    heap: &Heap,
    caller: Caller<Ledger>,
    letter: u8,
    round: u32,
) -> Caller<Ledger>
    ensures { KeepsDesk caller.desk result.desk }
{
    let mut caller = caller;
    for number in 0..ITEMS {
        let text = text_of(heap, &text_bytes(letter, round, number)).expect(rt, "a text");
        let answered = caller.call(rt, 0, Event::item(text, 0), None);
        expect_answer(rt, answered, Ok(Answer::Admitted));
    }
    caller
}

// A round: the two producers emit, each in a thread of its own, and then the third does what is drawn.
fn go_round(rt: &impl Host, heap: &Heap, callers: Callers, round: u32) -> Result<Callers, Fail>
    ensures { IfOk result (λ after. KeepsDesk callers.first.desk after.first.desk × KeepsDesk callers.second.desk after.second.desk × KeepsDesk callers.third.desk after.third.desk) }
{
    let Callers {
        first,
        second,
        mut third,
    } = callers;
    let (first, second) = join(
        rt,
        || -> Caller<Ledger>
            ensures { KeepsDesk first.desk result.desk }
        { emit_items(rt, heap, first, b'p', round) },
        || -> Caller<Ledger>
            ensures { KeepsDesk second.desk result.desk }
        { emit_items(rt, heap, second, b'q', round) },
    );
    act_all(rt, heap, &mut third, round)?;
    Ok(Callers {
        first,
        second,
        third,
    })
}

// All rounds. What the callers leave.
fn go_all(
    rt: &impl Host,
    heap: &Heap,
    callers: Callers,
) -> Result<Vec<EndedDesk<Ledger>, Heap>, Fail>
    ensures { IfOk result (λ ended. (made : List (DeskView Ledger)) → IsDeskOf made callers.first.desk → IsDeskOf made callers.second.desk → IsDeskOf made callers.third.desk
        → All (IsEndOf made) ended.items) }
{
    let mut callers = callers;
    act_all(rt, heap, &mut callers.third, 0)?;
    for round in 1..ROUNDS {
        callers = go_round(rt, heap, callers, round)?;
    }
    act_all(rt, heap, &mut callers.third, ROUNDS)?;
    let Callers {
        first,
        second,
        third,
    } = callers;
    Ok(vec![in heap.clone()?; first.finish(rt), second.finish(rt), third.finish(rt)]?)
}

// The report of a server after that.
fn report_of(rt: &impl Host, heap: &Heap) -> Result<Report<Ledger>, Fail> {
    let mut server = started::<Ledger>(rt, heap, configuration());
    let callers = Callers {
        first: caller_of(rt, &mut server),
        second: caller_of(rt, &mut server),
        third: caller_of(rt, &mut server),
    };
    let ended = go_all(rt, heap, callers)?;
    Ok(closed(rt, server, ended))
}

// The rules of that subject.
fn rules() -> Rules
    ensures { result.limits.observers ≤ 64 }
{
    rules_of(Kind::Replay {
        count: Some(COUNT),
        age: None,
    })
}

// The emission of an item that was given, and the port that it came by.
fn emission_of(heap: &Heap, note: &Note) -> Result<Option<(u32, Event)>, Memory> {
    match note {
        Note::Next(item) => {
            let text = text_of(heap, item.text.as_bytes())?;
            Ok(Some((item.from, Event::item(text, 0))))
        }
        _ => Ok(None),
    }
}

// Adds the acts of a round.
fn add_acts(heap: &Heap, history: &mut History, round: u32) -> Result<(), Fail> {
    let mut draw = Draw::of(round);
    for place in 0..ACTS {
        history.add(THIRD, event_of(heap, draw.act(place))?)?;
    }
    Ok(())
}

// How many items both producers emit in a round.
const BOTH: u32 = 2 * ITEMS;

// Adds the emissions of a round, where these are all notes that observer 0 was given.
fn add_items(heap: &Heap, history: &mut History, notes: &[Note], round: u32) -> Result<(), Fail> {
    let before = round.saturating_sub(1).saturating_mul(BOTH);
    for note in notes.iter().skip(before as usize).take(BOTH as usize) {
        if let Some((port, event)) = emission_of(heap, note)? {
            history.add(port, event)?;
        }
    }
    Ok(())
}

// The history of all calls.
fn history_of(heap: &Heap, notes: &[Note]) -> Result<History, Fail> {
    let mut history = History::new(heap.clone()?);
    add_acts(heap, &mut history, 0)?;
    for round in 1..ROUNDS {
        add_items(heap, &mut history, notes, round)?;
        add_acts(heap, &mut history, round)?;
    }
    add_acts(heap, &mut history, ROUNDS)?;
    Ok(history)
}

// What the sink of observer 0 took.
fn first_notes(report: &Report<Ledger>) -> &[Note] {
    for list in &report.put_away {
        for away in list.as_slice() {
            if away.who == 0 {
                return away.rest.as_slice();
            }
        }
    }
    &[]
}

// Whether a sink took what the history says that its observer was given.
fn is_right(history: &History, away: &PutAway<Vec<Note, Heap>>) -> Result<bool, Fail> {
    let given = history.given(&rules(), away.who)?;
    Ok(given.as_slice() == away.rest.as_slice())
}

// How many sinks took what the history says.
fn count_right(report: &Report<Ledger>, history: &History) -> Result<u64, Fail> {
    let mut right: u64 = 0;
    for list in &report.put_away {
        for away in list.as_slice() {
            right = right.saturating_add(u64::from(is_right(history, away)?));
        }
    }
    Ok(right)
}

// How many sinks were put away.
fn count_all(report: &Report<Ledger>) -> u64 {
    let mut all: u64 = 0;
    for list in &report.put_away {
        all = all.saturating_add(list.as_slice().len() as u64);
    }
    all
}

// All items of both producers, and the end.
const NOTES: u64 = 751;

#[test]
fn each_sink_takes_what_the_history_says(rt: HostRuntime) -> Result<(), Fail> {
    let heap = Heap::unlimited(rt.alloc());
    let report = report_of(&rt, &heap)?;
    let notes = first_notes(&report);
    expect_count(&rt, notes.len() as u64, NOTES, "notes of observer 0");
    let history = history_of(&heap, notes)?;
    let joins = u64::from(subject_of(&rt, &report).joins);
    expect_that(&rt, joins > 64, "observers that joined later");
    expect_count(&rt, count_all(&report), joins, "sinks");
    let right = count_right(&report, &history)?;
    expect_count(&rt, right, joins, "sinks that took what they are to");
    Ok(())
}
