//! Heads of requests: what each asks for, or why it is refused.

use crate::expectations::{expect_count, expect_row, expect_that};
use rx_heap::{Heap, Memory};
use rx_http::{
    Asked, Credit, Epoch, Id, IdempotencyKey, LookForm, MAX_HEAD, NoteKind, ObserverId, Refusal,
    read_request,
};
use rx_note::{Errors, Policy, Strategy};
use rx_proto::Name;
use std::test::Fail;

/// What is asked for.
#[derive(Clone, Copy)]
pub(crate) enum Wanted {
    /// The events of `trades`, served so.
    Served(Strategy, Errors, u32),
    /// The same by a reader that knows this, served as where a query has no words.
    Knowing(&'static [u8], Option<u32>, bool),
    /// The same by a reader that asks for its items itself, and is owed so many at first.
    Asking(u32),
    /// The same by a reader that wants an item in so many milliseconds at most.
    Paced(u32),
    /// A note for `trades`, with a body of so many bytes.
    Emitted(NoteKind, u32),
    /// An item for `trades` for each line of a body of so many bytes.
    Lined(u32),
    /// An item for `trades` without a body, by this key.
    Named(&'static [u8]),
    /// Items for the observer of `trades` of this epoch and number, so many.
    Granted(&'static [u8], u32, u32),
    /// What is seen, in this form.
    Looked(LookForm),
    Health,
    /// A stop within so many seconds.
    Stopped(u32),
    Refused(Refusal),
}

/// What is asked for where a query has no words.
const PLAIN: Wanted = Wanted::Served(Strategy::Buffer, Errors::Delay, 16);

impl Wanted {
    pub(crate) fn asked(&self) -> Result<Result<Asked, Refusal>, Fail> {
        match self {
            Wanted::Served(strategy, errors, window) => {
                events(*strategy, *errors, by_socket(*window), None)
            }
            Wanted::Knowing(epoch, place, over) => {
                let known = Id {
                    epoch: Epoch::new(epoch).ok_or("no epoch")?,
                    place: *place,
                    over: *over,
                };
                events(Strategy::Buffer, Errors::Delay, by_socket(16), Some(known))
            }
            Wanted::Asking(window) => {
                let credit = Credit {
                    window: *window,
                    asked: true,
                    pace: 0,
                };
                events(Strategy::Buffer, Errors::Delay, credit, None)
            }
            Wanted::Paced(pace) => {
                let credit = Credit {
                    window: 16,
                    asked: false,
                    pace: *pace,
                };
                events(Strategy::Buffer, Errors::Delay, credit, None)
            }
            Wanted::Granted(epoch, who, items) => {
                Ok(Ok(Asked::Request {
                    subject: Name::new(b"trades").ok_or("no name")?,
                    observer: ObserverId {
                        epoch: Epoch::new(epoch).ok_or("no epoch")?,
                        who: *who,
                    },
                    items: *items,
                }))
            }
            Wanted::Looked(form) => Ok(Ok(Asked::Look(*form))),
            Wanted::Emitted(kind, size) => emission(*kind, *size, None),
            Wanted::Lined(size) => Ok(Ok(Asked::Texts {
                subject: Name::new(b"trades").ok_or("no name")?,
                size: *size,
            })),
            Wanted::Named(key) => emission(
                NoteKind::Next,
                0,
                Some(IdempotencyKey::new(key).ok_or("no key")?),
            ),
            Wanted::Health => Ok(Ok(Asked::Health)),
            Wanted::Stopped(within) => Ok(Ok(Asked::Stop { within: *within })),
            Wanted::Refused(cause) => Ok(Err(*cause)),
        }
    }
}

/// Whether this is asked for by a head.
pub(crate) fn is_asked(head: &[u8], wanted: &Wanted) -> Result<bool, Fail> {
    Ok(read_request(head) == wanted.asked()?)
}

fn emission(
    kind: NoteKind,
    size: u32,
    key: Option<IdempotencyKey>,
) -> Result<Result<Asked, Refusal>, Fail> {
    Ok(Ok(Asked::Emission {
        subject: Name::new(b"trades").ok_or("no name")?,
        kind,
        size,
        key,
    }))
}

fn by_socket(window: u32) -> Credit {
    Credit {
        window,
        asked: false,
        pace: 0,
    }
}

fn events(
    strategy: Strategy,
    errors: Errors,
    credit: Credit,
    known: Option<Id>,
) -> Result<Result<Asked, Refusal>, Fail> {
    let subject = Name::new(b"trades").ok_or("no name")?;
    let policy = Policy::new(strategy, errors)?;
    Ok(Ok(Asked::Events {
        subject,
        policy,
        credit,
        known,
    }))
}

/// Requests by GET, by their targets.
const TARGETS: &[(&[u8], Wanted)] = &[
    (b"/", Wanted::Looked(LookForm::Page)),
    (b"/?x", Wanted::Looked(LookForm::Page)),
    (b"/stats", Wanted::Looked(LookForm::Stats)),
    (b"/stats.txt", Wanted::Looked(LookForm::Lines)),
    (b"/metrics", Wanted::Looked(LookForm::Metrics)),
    (b"/subjects/trades?credit=asked&window=1", Wanted::Asking(1)),
    (b"/subjects/trades?credit=socket", PLAIN),
    (b"/subjects/trades?pace=1", Wanted::Paced(1)),
    (b"/subjects/trades?pace=60000", Wanted::Paced(60_000)),
    (b"/subjects/trades?pace=0", PLAIN),
    (b"/healthz", Wanted::Health),
    (b"/healthz?strategy=NONE", Wanted::Health),
    (b"/subjects/trades", PLAIN),
    (b"/subjects/trades?", PLAIN),
    (b"/subjects/trades?_=1764300000&other", PLAIN),
    (
        b"/subjects/trades?strategy=LATEST:1&errors=AHEAD&window=1",
        Wanted::Served(Strategy::Latest(1), Errors::Ahead, 1),
    ),
    (
        b"/subjects/trades?window=2&errors=DELAY&strategy=DROP%3a0",
        Wanted::Served(Strategy::Drop(0), Errors::Delay, 2),
    ),
    (
        b"/subjects/trades?strategy=%42OUNDED%3A1024",
        Wanted::Served(Strategy::Bounded(1024), Errors::Delay, 16),
    ),
    (
        b"/subjects/trades?strategy=DROP:7&strategy=BUFFER",
        Wanted::Served(Strategy::Drop(7), Errors::Delay, 16),
    ),
    (b"/subjects/trades?mystrategy=NONE", PLAIN),
    (
        b"/subjects/trades?last-event-id=19c0-7",
        Wanted::Knowing(b"19c0", Some(7), false),
    ),
    (
        b"/subjects/trades?last-event-id=19c0-4294967295-over",
        Wanted::Knowing(b"19c0", Some(4_294_967_295), true),
    ),
    (
        b"/subjects/trades?last-event-id=19c0-",
        Wanted::Knowing(b"19c0", None, false),
    ),
    (
        b"/subjects/trades?last-event-id=19c0--over",
        Wanted::Knowing(b"19c0", None, true),
    ),
    (b"/subjects/trades?last-event-id=", PLAIN),
];

// Hands the table out, so that what goes over it is proved without its rows.
fn targets_table() -> &'static [(&'static [u8], Wanted)] {
    TARGETS
}

/// Such requests that are refused.
const REFUSED: &[(&[u8], Refusal)] = &[
    (b"/subjects/trades?credit=", Refusal::Word),
    (b"/subjects/trades?credit=ASKED", Refusal::Word),
    (b"/stats.text", Refusal::Path),
    (b"/subjects/trades?strategy=", Refusal::Word),
    (b"/subjects/trades?strategy=buffer", Refusal::Word),
    (b"/subjects/trades?strategy=LATEST:0", Refusal::Word),
    (b"/subjects/trades?strategy=LATEST:01", Refusal::Word),
    (b"/subjects/trades?strategy=DROP:1025", Refusal::Word),
    (b"/subjects/trades?strategy=DROP:70000", Refusal::Word),
    (b"/subjects/trades?strategy=DROP:+1", Refusal::Word),
    (
        b"/subjects/trades?strategy=DROP:000000000000000000000000000000000000000000000000000000000001",
        Refusal::Word,
    ),
    (b"/subjects/trades?errors=NEVER", Refusal::Word),
    (b"/subjects/trades?window=0", Refusal::Word),
    (b"/subjects/trades?pace=60001", Refusal::Word),
    (b"/subjects/trades?pace=", Refusal::Word),
    (b"/subjects/trades?pace=1s", Refusal::Word),
    (b"/subjects/trades?window=17", Refusal::Word),
    (b"/subjects/trades?last-event-id=19c0", Refusal::LastEventId),
    (
        b"/subjects/trades?last-event-id=19C0-7",
        Refusal::LastEventId,
    ),
    (
        b"/subjects/trades?last-event-id=19c0-07",
        Refusal::LastEventId,
    ),
    (
        b"/subjects/trades?last-event-id=19c0-4294967296",
        Refusal::LastEventId,
    ),
    (
        b"/subjects/trades?last-event-id=19c0-7-done",
        Refusal::LastEventId,
    ),
    (b"/subjects/Trades", Refusal::Subject),
    (b"/subjects/", Refusal::Subject),
    (
        b"/subjects/Trades?errors=NEVER&last-event-id=7",
        Refusal::Word,
    ),
    (b"/subjects/Trades?last-event-id=7", Refusal::LastEventId),
    (b"/nowhere?errors=NEVER", Refusal::Path),
];

// Hands the table out, so that what goes over it is proved without its rows.
fn refused_table() -> &'static [(&'static [u8], Refusal)] {
    REFUSED
}

// The head of a request by GET.
fn head_to(heap: &Heap, target: &[u8]) -> Result<Vec<u8, Heap>, Memory> {
    let mut head = Vec::from_slice(heap.clone()?, b"GET ")?;
    head.extend_from_slice(target)?;
    head.extend_from_slice(b" HTTP/1.1\r\nHost: localhost\r\n\r\n")?;
    Ok(head)
}

#[test]
fn targets(rt: HostRuntime) -> Result<(), Fail> {
    let heap = Heap::unlimited(rt.alloc());
    for (row, (target, wanted)) in targets_table().iter().enumerate() {
        let head = head_to(&heap, target)?;
        expect_row(&rt, is_asked(head.as_slice(), wanted)?, row);
    }
    Ok(())
}

#[test]
fn targets_refused(rt: HostRuntime) -> Result<(), Fail> {
    let heap = Heap::unlimited(rt.alloc());
    for (row, (target, cause)) in refused_table().iter().enumerate() {
        let head = head_to(&heap, target)?;
        let is_so = is_asked(head.as_slice(), &Wanted::Refused(*cause))?;
        expect_row(&rt, is_so, row);
    }
    Ok(())
}

/// Ids, and of how many items a reader that says them knows.
const IDS: [(&[u8], u64); 4] = [
    (b"19c0-", 0),
    (b"19c0-0", 1),
    (b"z-7-over", 8),
    (b"0123456789abcdef-4294967295", 4_294_967_296),
];

#[test]
fn ids(rt: HostRuntime) -> Result<(), Fail> {
    for (bytes, known) in &IDS {
        let id = Id::read(bytes).ok_or("no id")?;
        expect_count(&rt, id.known(), *known, "items that are known");
    }
    Ok(())
}

/// Whole heads.
const HEADS: &[(&[u8], Wanted)] = &[
    (b"GET /healthz HTTP/1.0\n\n", Wanted::Health),
    (b"\r\nGET /healthz HTTP/1.1\r\n\r\n", Wanted::Health),
    (
        b"GET /subjects/trades HTTP/1.1\r\nHost: x\r\nLast-Event-ID:  19c0-7 \r\n\r\n",
        Wanted::Knowing(b"19c0", Some(7), false),
    ),
    (
        b"GET /subjects/trades?last-event-id=5-5 HTTP/1.1\r\nlast-event-id: 19c0-7\r\nLAST-EVENT-ID: 6-6\r\n\r\n",
        Wanted::Knowing(b"19c0", Some(7), false),
    ),
    (
        b"GET /subjects/trades?last-event-id=19c0-7 HTTP/1.1\r\nLast-Event-ID:\r\n\r\n",
        PLAIN,
    ),
    (
        b"GET /subjects/trades HTTP/1.1\r\nLast-Event-ID: 19c0%2D7\r\n\r\n",
        Wanted::Refused(Refusal::LastEventId),
    ),
    (
        b"PUT /subjects/trades?errors=NEVER HTTP/1.1\r\n\r\n",
        Wanted::Refused(Refusal::Method),
    ),
    (
        b"HEAD /healthz HTTP/1.1\r\n\r\n",
        Wanted::Refused(Refusal::OnlyGet),
    ),
    (
        b"POST / HTTP/1.1\r\n\r\n",
        Wanted::Refused(Refusal::OnlyGet),
    ),
    (b"POST /x HTTP/1.1\r\n\r\n", Wanted::Refused(Refusal::Path)),
    (
        b"GET /stop?within=x HTTP/1.1\r\nOrigin: http://x\r\n\r\n",
        Wanted::Refused(Refusal::OnlyPost),
    ),
    (
        b"POST /stop/ HTTP/1.1\r\n\r\n",
        Wanted::Refused(Refusal::Path),
    ),
    (
        b"GET /healthz HTTP/2.0\r\n\r\n",
        Wanted::Refused(Refusal::Head),
    ),
    (b"GET /healthz\r\n\r\n", Wanted::Refused(Refusal::Head)),
    (
        b"GET /healthz HTTP/1.1\r\nno field\r\n\r\n",
        Wanted::Refused(Refusal::Head),
    ),
    (b"GET /healthz HTTP/1.1\r\n", Wanted::Refused(Refusal::Head)),
    (
        b"GET /healthz HTTP/1.1\r\n\r\nbody",
        Wanted::Refused(Refusal::Head),
    ),
];

// Hands the table out, so that what goes over it is proved without its rows.
fn heads_table() -> &'static [(&'static [u8], Wanted)] {
    HEADS
}

#[test]
fn heads(rt: HostRuntime) -> Result<(), Fail> {
    for (row, (head, wanted)) in heads_table().iter().enumerate() {
        expect_row(&rt, is_asked(head, wanted)?, row);
    }
    Ok(())
}

// A head with so many fields, each with so many bytes, and so many bytes more in the last.
fn head_of(heap: &Heap, fields: usize, more: usize) -> Result<Vec<u8, Heap>, Memory> {
    let mut head = Vec::from_slice(heap.clone()?, b"GET /healthz HTTP/1.1\r\n")?;
    for _ in 1..fields {
        head.extend_from_slice(b"a: b\r\n")?;
    }
    head.extend_from_slice(b"a: ")?;
    for _ in 0..more {
        head.push(b'b')?;
    }
    head.extend_from_slice(b"\r\n\r\n")?;
    Ok(head)
}

// Whether this is asked for by a head with so many fields, each with so many bytes, and so many bytes more in the last.
fn is_asked_by(heap: &Heap, fields: usize, more: usize, wanted: &Wanted) -> Result<bool, Fail> {
    let head = head_of(heap, fields, more)?;
    is_asked(head.as_slice(), wanted)
}

#[test]
fn heads_at_their_limits(rt: HostRuntime) -> Result<(), Fail> {
    let heap = Heap::unlimited(rt.alloc());
    let rest = MAX_HEAD.saturating_sub(head_of(&heap, 1, 0)?.len());
    let whole = head_of(&heap, 1, rest)?.len();
    expect_count(&rt, whole as u64, 8192, "bytes of a head");
    let long = Wanted::Refused(Refusal::LongHead);
    let more = rest.saturating_add(1);
    expect_that(
        &rt,
        is_asked_by(&heap, 32, 1, &Wanted::Health)?,
        "32 fields",
    );
    expect_that(&rt, is_asked_by(&heap, 33, 1, &long)?, "33 fields");
    expect_that(
        &rt,
        is_asked_by(&heap, 1, rest, &Wanted::Health)?,
        "8192 bytes",
    );
    expect_that(&rt, is_asked_by(&heap, 1, more, &long)?, "8193 bytes");
    Ok(())
}
