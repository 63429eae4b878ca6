//! Whole exchanges: what a connection is answered, or what the server is asked for it, however its reads are cut.

use crate::answers::{Answered, bytes_of};
use crate::clerk::{Clerk, answer_of, clerk_of, has, serve};
use crate::drips::{Drips, Page};
use crate::expectations::{expect_end, expect_row, expect_that, expect_told, expect_words};
use rx_exchange::Exchange;
use rx_heap::Heap;
use rx_http::{Begin, Credit, Refusal};
use rx_note::{Errors, Policy, Strategy};
use rx_session::{SessionEnd, Turn};
use std::io::ErrorKind;
use std::test::Fail;
use test_kit::Told;

/// Where a reader begins.
#[derive(Clone, Copy)]
enum Place {
    Fresh,
    Behind(Option<u32>),
    Restarted(&'static [u8], Option<u32>, bool),
}

impl Place {
    fn is(&self, begin: &Begin) -> bool {
        match (self, begin) {
            (Place::Fresh, Begin::Fresh) => true,
            (Place::Behind(place), Begin::Behind(known)) => place == known,
            (Place::Restarted(epoch, place, over), Begin::Restarted(id)) => {
                id.epoch.as_bytes() == *epoch && id.place == *place && id.over == *over
            }
            _ => false,
        }
    }
}

/// Connections that are answered.
const ANSWERED: &[(&[u8], Answered)] = &[
    (b"GET /healthz HTTP/1.1\r\n\r\n", Answered::Well),
    (b"GET /healthz HTTP/1.0\n\n", Answered::Well),
    (b"GET /stats?x HTTP/1.1\r\n\r\n", Answered::Stats),
    (b"GET /metrics HTTP/1.1\r\n\r\n", Answered::Metrics),
    (b"GET /stats.txt HTTP/1.1\r\n\r\n", Answered::Lines),
    (b"GET / HTTP/1.1\r\n\r\n", Answered::Page),
    (
        b"POST /subjects/trades/observers/1a21de595e8-4?request=2 HTTP/1.1\r\n\r\n",
        Answered::Requested,
    ),
    (
        b"POST /subjects/other/observers/1a21de595e8-4 HTTP/1.1\r\n\r\n",
        Answered::Refused(Refusal::Subject),
    ),
    (b"POST /stop?within=2 HTTP/1.1\r\n\r\n", Answered::Stops),
    (
        b"POST /stop?within=-2 HTTP/1.1\r\n\r\n",
        Answered::Refused(Refusal::Within),
    ),
    (
        b"POST /stats HTTP/1.1\r\n\r\n",
        Answered::Refused(Refusal::OnlyGet),
    ),
    (
        b"HEAD /metrics HTTP/1.1\r\n\r\n",
        Answered::Refused(Refusal::OnlyGet),
    ),
    (
        b"GET /stats/ HTTP/1.1\r\n\r\n",
        Answered::Refused(Refusal::Path),
    ),
    (
        b"GET /healthz HTTP/1.1\r\n\r\nGET /healthz HTTP/1.1\r\n\r\n",
        Answered::Well,
    ),
    (
        b"GET /healthz HTTP/1.1\r\nContent-Length: 25\r\n\r\nGET /subjects/trades HTTP/1.1\r\n\r\n",
        Answered::Well,
    ),
    (
        b"GET /subjects/trades HTTP/1.1\r\nLast-Event-ID: 1a21de595e8-7-over\r\n\r\n",
        Answered::Over,
    ),
    (
        b"GET /subjects/trades?last-event-id=1a21de595e8--over HTTP/1.1\r\n\r\n",
        Answered::Over,
    ),
    (
        b"HEAD /subjects/trades HTTP/1.1\r\n\r\n",
        Answered::Refused(Refusal::Method),
    ),
    (
        b"POST /subjects/trades HTTP/1.1\r\nContent-Length: 5\r\nOrigin: http://x\r\n\r\nhello",
        Answered::Refused(Refusal::Origin),
    ),
    (
        b"OPTIONS /healthz HTTP/1.1\r\n\r\n",
        Answered::Refused(Refusal::OnlyGet),
    ),
    (b"GET /x HTTP/1.1\r\n\r\n", Answered::Refused(Refusal::Path)),
    (
        b"GET /subjects/trades?strategy=LATEST HTTP/1.1\r\n\r\n",
        Answered::Refused(Refusal::Word),
    ),
    (
        b"GET /subjects/trades?window=17 HTTP/1.1\r\n\r\n",
        Answered::Refused(Refusal::Word),
    ),
    (
        b"GET /subjects/trades HTTP/1.1\r\nLast-Event-ID: 7\r\n\r\n",
        Answered::Refused(Refusal::LastEventId),
    ),
    (
        b"GET /subjects/Trades HTTP/1.1\r\n\r\n",
        Answered::Refused(Refusal::Subject),
    ),
    (
        b"GET /subjects/other HTTP/1.1\r\n\r\n",
        Answered::Refused(Refusal::Subject),
    ),
    (b"hello\r\n\r\n", Answered::Refused(Refusal::Head)),
    (
        b"\r\n\r\nGET /healthz HTTP/1.1\r\n\r\n",
        Answered::Refused(Refusal::Head),
    ),
];

// Hands the table out, so that what goes over it is proved without its rows.
fn answered_table() -> &'static [(&'static [u8], Answered)] {
    ANSWERED
}

// How a connection ends that gives so many bytes at a time, and whether these are its answer. Each other read would block where
// the bytes are an even number.
fn answered_by(
    heap: &Heap,
    bytes: &[u8],
    step: usize,
    answer: &[u8],
) -> Result<(SessionEnd, bool), Fail> {
    let mut drips = Drips::new(bytes, step);
    if step % 2 == 0 {
        drips.between = Some(ErrorKind::WouldBlock);
    }
    let mut clerk = clerk_of(heap, true, None)?;
    let page = Page::new(heap.clone()?, 2);
    answer_of(&mut drips, page, &mut clerk, 1000, answer)
}

#[test]
fn answered_at_each_cut(rt: HostRuntime) -> Result<(), Fail> {
    let heap = Heap::unlimited(rt.alloc());
    for (row, (bytes, answer)) in answered_table().iter().enumerate() {
        for step in 1..=bytes.len() {
            let (end, is_answered) = answered_by(&heap, bytes, step, bytes_of(*answer))?;
            expect_end(&rt, end, SessionEnd::Quit, row, step);
            expect_row(&rt, is_answered, row);
        }
    }
    Ok(())
}

/// Why a server refuses a reader.
const CAUSES: [Refusal; 6] = [
    Refusal::Spent,
    Refusal::Gone,
    Refusal::Full,
    Refusal::Stopping,
    Refusal::Memory,
    Refusal::Subject,
];

// Whether a request is answered so by a server that is well or refuses each reader, and how often that was asked.
fn served(
    heap: &Heap,
    request: &[u8],
    well: bool,
    cause: Option<Refusal>,
    answer: Answered,
) -> Result<(bool, u32), Fail> {
    let mut clerk = clerk_of(heap, well, cause)?;
    let page = Page::new(heap.clone()?, 0);
    let mut drips = Drips::new(request, 100);
    let (_, is_so) = answer_of(&mut drips, page, &mut clerk, 1000, bytes_of(answer))?;
    Ok((is_so, clerk.asked))
}

#[test]
fn refused_by_the_server(rt: HostRuntime) -> Result<(), Fail> {
    let heap = Heap::unlimited(rt.alloc());
    let request = b"GET /subjects/trades HTTP/1.1\r\n\r\n".as_slice();
    for (row, cause) in CAUSES.iter().enumerate() {
        let refused = Answered::Refused(*cause);
        let (is_so, asked) = served(&heap, request, true, Some(*cause), refused)?;
        expect_row(&rt, is_so && asked == 1, row);
    }
    let request = b"GET /healthz HTTP/1.1\r\n\r\n".as_slice();
    let (is_so, _) = served(&heap, request, false, None, Answered::Unwell)?;
    expect_that(&rt, is_so, "unwell");
    Ok(())
}

/// What is owed where a query has no words.
const ALL: Credit = Credit {
    window: 16,
    asked: false,
    pace: 0,
};

/// Connections whose reader joins: how it wants to be served, and where it begins.
const JOINED: &[(&[u8], Strategy, Errors, Credit, Place)] = &[
    (
        b"GET /subjects/trades HTTP/1.1\r\n\r\n",
        Strategy::Buffer,
        Errors::Delay,
        ALL,
        Place::Fresh,
    ),
    (
        b"GET /subjects/trades?strategy=LATEST%3A1&errors=AHEAD&window=2 HTTP/1.1\r\nOrigin: http://x\r\n\r\n",
        Strategy::Latest(1),
        Errors::Ahead,
        Credit {
            window: 2,
            asked: false,
            pace: 0,
        },
        Place::Fresh,
    ),
    (
        b"GET /subjects/trades HTTP/1.1\r\nLast-Event-ID: 1a21de595e8-7\r\n\r\n",
        Strategy::Buffer,
        Errors::Delay,
        ALL,
        Place::Behind(Some(7)),
    ),
    (
        b"GET /subjects/trades HTTP/1.1\r\nlast-event-id: 1a21de595e8-\r\n\r\n",
        Strategy::Buffer,
        Errors::Delay,
        ALL,
        Place::Behind(None),
    ),
    (
        b"GET /subjects/trades?last-event-id=1a21de595e8-0 HTTP/1.1\r\n\r\n",
        Strategy::Buffer,
        Errors::Delay,
        ALL,
        Place::Behind(Some(0)),
    ),
    (
        b"GET /subjects/trades HTTP/1.1\r\nLast-Event-ID: 1a21de595e9-7\r\n\r\n",
        Strategy::Buffer,
        Errors::Delay,
        ALL,
        Place::Restarted(b"1a21de595e9", Some(7), false),
    ),
    (
        b"GET /subjects/trades?strategy=BOUNDED:9 HTTP/1.1\r\nLast-Event-ID: 5--over\r\n\r\n",
        Strategy::Bounded(9),
        Errors::Delay,
        ALL,
        Place::Restarted(b"5", None, true),
    ),
    (
        b"GET /subjects/trades?strategy=LATEST:1&credit=asked&window=1 HTTP/1.1\r\n\r\n",
        Strategy::Latest(1),
        Errors::Delay,
        Credit {
            window: 1,
            asked: true,
            pace: 0,
        },
        Place::Fresh,
    ),
];

// Hands the table out, so that what goes over it is proved without its rows.
fn joined() -> &'static [(&'static [u8], Strategy, Errors, Credit, Place)] {
    JOINED
}

// What is wrong with how a server was asked once to have a reader join; nothing where it was asked for this.
fn fault_of(clerk: &Clerk, policy: Policy, credit: Credit, place: &Place) -> &'static str {
    if clerk.asked != 1 {
        return "not asked once";
    }
    if clerk.credit != Some(credit) {
        return "another credit";
    }
    if clerk.policy != Some(policy) {
        return "another policy";
    }
    match &clerk.begin {
        Some(begin) if place.is(begin) => "",
        _ => "another begin",
    }
}

// How a connection ends that gives so many bytes at a time, and what is wrong with what the server was asked for.
fn joined_by(
    heap: &Heap,
    bytes: &[u8],
    step: usize,
    policy: Policy,
    credit: Credit,
    place: &Place,
) -> Result<(SessionEnd, &'static str), Fail> {
    let mut clerk = clerk_of(heap, true, None)?;
    let page = Page::new(heap.clone()?, 0);
    let (end, back) = serve(&mut Drips::new(bytes, step), page, &mut clerk, 1000)?;
    if back.is_some() {
        return Ok((end, "the writer is back"));
    }
    Ok((end, fault_of(&clerk, policy, credit, place)))
}

#[test]
fn joined_at_each_cut(rt: HostRuntime) -> Result<(), Fail> {
    let heap = Heap::unlimited(rt.alloc());
    for (row, (bytes, strategy, errors, credit, place)) in joined().iter().enumerate() {
        let policy = Policy::new(*strategy, *errors)?;
        for step in 1..=bytes.len() {
            let (end, fault) = joined_by(&heap, bytes, step, policy, *credit, place)?;
            expect_end(&rt, end, SessionEnd::HandedOver, row, step);
            expect_words(&rt, fault, row, step);
        }
    }
    Ok(())
}

/// Connections that end before they are answered: by which reads, and how.
const ENDED: &[(&[u8], bool, u64, SessionEnd)] = &[
    (
        b"POST /subjects/trades HTTP/1.1\r\nContent-Length: 5\r\n\r\nhell",
        false,
        1000,
        SessionEnd::EndOfInput,
    ),
    (
        b"POST /subjects/trades HTTP/1.1\r\nContent-Length: 5\r\n\r\nhell",
        true,
        1000,
        SessionEnd::ReadFault,
    ),
    (b"", false, 1000, SessionEnd::EndOfInput),
    (
        b"GET /healthz HTTP/1.1\r\n\r",
        false,
        1000,
        SessionEnd::EndOfInput,
    ),
    (
        b"GET /healthz HTTP/1.1\r\n\r",
        true,
        1000,
        SessionEnd::ReadFault,
    ),
    (
        b"GET /healthz HTTP/1.1\r\n\r\n",
        false,
        24,
        SessionEnd::TooManyReads,
    ),
];

// Hands the table out, so that what goes over it is proved without its rows.
fn ended_table() -> &'static [(&'static [u8], bool, u64, SessionEnd)] {
    ENDED
}

// How a connection ends that gives a byte at a time, whether the writer is back and has nothing, and how often the server was asked.
fn ended_by(
    heap: &Heap,
    bytes: &[u8],
    fails: bool,
    max_reads: u64,
) -> Result<(SessionEnd, bool, u32), Fail> {
    let mut drips = Drips::new(bytes, 1);
    drips.fails = fails;
    let mut clerk = clerk_of(heap, true, None)?;
    let page = Page::new(heap.clone()?, 0);
    let (end, is_empty) = answer_of(&mut drips, page, &mut clerk, max_reads, b"")?;
    Ok((end, is_empty, clerk.asked))
}

#[test]
fn ended_without_an_answer(rt: HostRuntime) -> Result<(), Fail> {
    let heap = Heap::unlimited(rt.alloc());
    for (row, (bytes, fails, max_reads, ended)) in ended_table().iter().enumerate() {
        let (end, is_empty, asked) = ended_by(&heap, bytes, *fails, *max_reads)?;
        expect_end(&rt, end, *ended, row, 1);
        expect_row(&rt, is_empty && asked == 0, row);
    }
    Ok(())
}

fn sign_of_end(end: SessionEnd) -> u8 {
    match end {
        SessionEnd::Quit => b'Q',
        SessionEnd::EndOfInput => b'E',
        SessionEnd::HandedOver => b'H',
        SessionEnd::WriteFault => b'W',
        SessionEnd::ReadFault => b'R',
        SessionEnd::TooManyReads => b'M',
    }
}

// What a turn came to (`A` for one that goes on at once, `w` for one that waits for bytes, `s` for one whose answer waits, or the
// end), and the writer, if that is back.
fn seen_of(turn: Turn<Page>) -> (u8, Option<Page>) {
    match turn {
        Turn::Again(page) => (b'A', Some(page)),
        Turn::Waits(page) => (b'w', Some(page)),
        Turn::Stuck(page) => (b's', Some(page)),
        Turn::Over(end, back) => (sign_of_end(end), back),
    }
}

// What so many turns came to, and whether the writer is back at each, and at the last with these bytes. It fails from the second
// turn on.
fn told_turns(
    heap: &Heap,
    drips: &mut Drips<'_>,
    turns: u32,
    bytes: &[u8],
) -> Result<(Told, bool), Fail> {
    let mut told = Told::new();
    let mut exchange = Exchange::new(1000);
    let mut clerk = clerk_of(heap, true, None)?;
    let mut writer = Page::new(heap.clone()?, 1);
    for _ in 0..turns {
        let (sign, back) = seen_of(exchange.turn(drips, writer, &mut clerk));
        told.put(sign);
        let Some(page) = back else {
            return Ok((told, false));
        };
        writer = page;
        writer.fails = true;
    }
    Ok((told, writer.held.as_slice() == bytes))
}

#[test]
fn an_answer_that_waits(rt: HostRuntime) -> Result<(), Fail> {
    let heap = Heap::unlimited(rt.alloc());
    let mut drips = Drips::new(b"GET /healthz HTTP/1.1\r\n\r\nmore", 20);
    drips.between = Some(ErrorKind::WouldBlock);
    let (told, is_so) = told_turns(&heap, &mut drips, 5, bytes_of(Answered::Well))?;
    expect_told(&rt, told.as_bytes(), b"wAwsW", 0);
    expect_that(&rt, is_so, "the answer is told");
    Ok(())
}

// Whether a writer is back that has a front of these bytes.
fn has_front(back: &Option<Page>, whole: &[u8]) -> bool {
    match back {
        Some(page) => whole.starts_with(page.held.as_slice()),
        None => false,
    }
}

// The exchange of a request, whose answer is written by `tight`. How it ended, and whether the writer is back with a front of the
// answer, and with all of it.
fn told_by(heap: &Heap, tight: &Heap, whole: &[u8]) -> Result<(SessionEnd, bool, bool), Fail> {
    let request = b"GET /healthz HTTP/1.1\r\n\r\n".as_slice();
    let page = Page::new(tight.clone()?, 0);
    let mut clerk = clerk_of(heap, true, None)?;
    let (end, back) = serve(&mut Drips::new(request, 100), page, &mut clerk, 1000)?;
    Ok((end, has_front(&back, whole), has(&back, whole)))
}

// Whether all went well with this growth refused: the answer was told, where so many are not asked for, and else a front of it.
fn is_refused_well(heap: &Heap, tight: &Heap, growth: u64) -> Result<bool, Fail> {
    let (end, is_front, is_whole) = told_by(heap, tight, bytes_of(Answered::Well))?;
    if tight.asked() <= growth {
        return Ok(end == SessionEnd::Quit && is_whole);
    }
    Ok(end == SessionEnd::WriteFault && is_front)
}

#[test]
fn answers_with_each_growth_refused(rt: HostRuntime) -> Result<(), Fail> {
    let heap = Heap::unlimited(rt.alloc());
    for growth in 0..100 {
        let tight = Heap::refusing(rt.alloc(), growth)?;
        expect_that(
            &rt,
            is_refused_well(&heap, &tight, growth)?,
            "a growth that is refused",
        );
        if tight.asked() <= growth {
            expect_that(&rt, growth > 0, "no growth was refused");
            return Ok(());
        }
    }
    Err(Fail::from("growths without an end"))
}
