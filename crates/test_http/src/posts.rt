//! Heads of requests by POST: what each asks for, or why it is refused.

use crate::expectations::expect_row;
use crate::requests::{Wanted, is_asked};
use rx_heap::{Heap, Memory};
use rx_http::{NoteKind, Refusal};
use std::test::Fail;

/// Requests by POST, by what stands behind the path of the subjects, and their fields.
const POSTS: &[(&[u8], &[u8], Wanted)] = &[
    (b"trades", b"", Wanted::Emitted(NoteKind::Next, 0)),
    (
        b"trades",
        b"Content-Length: 1024",
        Wanted::Emitted(NoteKind::Next, 1024),
    ),
    (
        b"trades?errors=NEVER",
        b"content-length: 1",
        Wanted::Emitted(NoteKind::Next, 1),
    ),
    (
        b"trades/end",
        b"Content-Length: 0",
        Wanted::Emitted(NoteKind::Completed, 0),
    ),
    (
        b"trades/end?x",
        b"",
        Wanted::Emitted(NoteKind::Completed, 0),
    ),
    (
        b"trades/fail",
        b"Content-Length: 3",
        Wanted::Emitted(NoteKind::Failed, 3),
    ),
    (
        b"trades",
        b"Origin: http://localhost",
        Wanted::Emitted(NoteKind::Next, 0),
    ),
    (
        b"trades",
        b"Origin: https://localhost",
        Wanted::Emitted(NoteKind::Next, 0),
    ),
    (
        b"trades",
        b"Origin: http://localhost:80",
        Wanted::Refused(Refusal::Origin),
    ),
    (
        b"trades",
        b"Origin: http://other",
        Wanted::Refused(Refusal::Origin),
    ),
    (
        b"trades",
        b"Origin: ftp://localhost",
        Wanted::Refused(Refusal::Origin),
    ),
    (
        b"trades",
        b"Origin: localhost",
        Wanted::Refused(Refusal::Origin),
    ),
    (b"trades", b"Origin: null", Wanted::Refused(Refusal::Origin)),
    (
        b"Trades",
        b"Origin: null\r\nContent-Length: x",
        Wanted::Refused(Refusal::Origin),
    ),
    (
        b"trades",
        b"Transfer-Encoding: chunked",
        Wanted::Refused(Refusal::Length),
    ),
    (
        b"trades",
        b"Content-Length: 01",
        Wanted::Refused(Refusal::Length),
    ),
    (
        b"trades",
        b"Content-Length: -1",
        Wanted::Refused(Refusal::Length),
    ),
    (
        b"Trades",
        b"Content-Length: 4294967296",
        Wanted::Refused(Refusal::Length),
    ),
    (
        b"Trades",
        b"Content-Length: 1025",
        Wanted::Refused(Refusal::Long),
    ),
    (
        b"Trades",
        b"Content-Length: 1024",
        Wanted::Refused(Refusal::Subject),
    ),
    (
        b"trades",
        b"Idempotency-Key: \"8e03978e-40d5\"",
        Wanted::Named(b"\"8e03978e-40d5\""),
    ),
    (
        b"trades",
        b"IDEMPOTENCY-KEY:!\t\r\nidempotency-key: ~~",
        Wanted::Named(b"!"),
    ),
    (
        b"trades",
        b"idempotency-key: 0123456789012345678901234567890123456789012345678901234567890123",
        Wanted::Named(b"0123456789012345678901234567890123456789012345678901234567890123"),
    ),
    (
        b"Trades",
        b"idempotency-key: 01234567890123456789012345678901234567890123456789012345678901234",
        Wanted::Refused(Refusal::Key),
    ),
    (
        b"Trades/end",
        b"Idempotency-Key:",
        Wanted::Refused(Refusal::Key),
    ),
    (
        b"Trades",
        b"Idempotency-Key: a b",
        Wanted::Refused(Refusal::Key),
    ),
    (
        b"Trades",
        b"Idempotency-Key: \xc3\xa4",
        Wanted::Refused(Refusal::Key),
    ),
    (
        b"Trades",
        b"Idempotency-Key: a b\r\nContent-Length: 1025",
        Wanted::Refused(Refusal::Long),
    ),
    (
        b"Trades",
        b"Idempotency-Key: ~",
        Wanted::Refused(Refusal::Subject),
    ),
    (
        b"trades?lines=1",
        b"Content-Length: 4294967295",
        Wanted::Lined(4_294_967_295),
    ),
    (b"trades?x&lines=%31&lines=2", b"", Wanted::Lined(0)),
    (
        b"trades?lines=1",
        b"Origin: http://localhost",
        Wanted::Lined(0),
    ),
    (
        b"trades?lines=0",
        b"Content-Length: x",
        Wanted::Refused(Refusal::LinesWord),
    ),
    (
        b"Trades?lines=",
        b"Content-Length: 1025",
        Wanted::Refused(Refusal::LinesWord),
    ),
    (
        b"trades?lines=2&lines=1",
        b"",
        Wanted::Refused(Refusal::LinesWord),
    ),
    (
        b"trades?lines=11111111111111111111111111111111111111111111111111111111111111111",
        b"",
        Wanted::Refused(Refusal::LinesWord),
    ),
    (
        b"trades?lines=2",
        b"Origin: null",
        Wanted::Refused(Refusal::Origin),
    ),
    (
        b"trades?lines=1",
        b"Origin: null",
        Wanted::Refused(Refusal::Origin),
    ),
    (
        b"Trades?lines=1",
        b"Content-Length: x\r\nIdempotency-Key: a",
        Wanted::Refused(Refusal::Length),
    ),
    (
        b"Trades?lines=1",
        b"Idempotency-Key: a",
        Wanted::Refused(Refusal::Key),
    ),
    (
        b"Trades?lines=1",
        b"Content-Length: 4",
        Wanted::Refused(Refusal::Subject),
    ),
    (
        b"trades?lined=2",
        b"Content-Length: 1",
        Wanted::Emitted(NoteKind::Next, 1),
    ),
    (
        b"trades/fail?lines=1",
        b"Content-Length: 1",
        Wanted::Emitted(NoteKind::Failed, 1),
    ),
    (b"trades/ends", b"", Wanted::Refused(Refusal::Subject)),
    (b"trades/end/", b"", Wanted::Refused(Refusal::Subject)),
    (
        b"trades/observers/19c0-7",
        b"",
        Wanted::Granted(b"19c0", 7, 1),
    ),
    (
        b"trades/observers/19c0-0?request=4294967295",
        b"Content-Length: 0",
        Wanted::Granted(b"19c0", 0, 4_294_967_295),
    ),
    (
        b"trades/observers/19c0-4294967295?x&request=0",
        b"Origin: http://localhost",
        Wanted::Granted(b"19c0", 4_294_967_295, 0),
    ),
    (
        b"Trades/observers/19c0?request=x",
        b"Origin: null",
        Wanted::Refused(Refusal::Origin),
    ),
    (
        b"Trades/observers/19c0-?request=x",
        b"",
        Wanted::Refused(Refusal::Observer),
    ),
    (
        b"trades/observers/19c0-07",
        b"",
        Wanted::Refused(Refusal::Observer),
    ),
    (
        b"trades/observers/19c0-7-over",
        b"",
        Wanted::Refused(Refusal::Observer),
    ),
    (
        b"Trades/observers/19c0-7?request=",
        b"",
        Wanted::Refused(Refusal::Items),
    ),
    (
        b"Trades/observers/19c0-7?request=4294967296",
        b"",
        Wanted::Refused(Refusal::Items),
    ),
    (
        b"Trades/observers/19c0-7?request=1",
        b"",
        Wanted::Refused(Refusal::Subject),
    ),
    (b"trades/observers", b"", Wanted::Refused(Refusal::Subject)),
];

// Hands the table out, so that what goes over it is proved without its rows.
fn posts_table() -> &'static [(&'static [u8], &'static [u8], Wanted)] {
    POSTS
}

#[test]
fn posts(rt: HostRuntime) -> Result<(), Fail> {
    let heap = Heap::unlimited(rt.alloc());
    for (row, (rest, fields, wanted)) in posts_table().iter().enumerate() {
        let head = post_of(&heap, b"POST /subjects/", rest, fields)?;
        expect_row(&rt, is_asked(head.as_slice(), wanted)?, row);
    }
    Ok(())
}

/// Stops, by what stands behind their path, and their fields.
const STOPS: &[(&[u8], &[u8], Wanted)] = &[
    (b"", b"", Wanted::Stopped(10)),
    (b"?", b"Content-Length: x", Wanted::Stopped(10)),
    (b"?within=0", b"", Wanted::Stopped(0)),
    (
        b"?x&within=3600",
        b"Origin: http://localhost",
        Wanted::Stopped(3_600),
    ),
    (b"?within=3601", b"", Wanted::Refused(Refusal::Within)),
    (b"?within=", b"", Wanted::Refused(Refusal::Within)),
    (b"?within=010", b"", Wanted::Refused(Refusal::Within)),
    (
        b"?within=x",
        b"Origin: null",
        Wanted::Refused(Refusal::Origin),
    ),
];

// Hands the table out, so that what goes over it is proved without its rows.
fn stops_table() -> &'static [(&'static [u8], &'static [u8], Wanted)] {
    STOPS
}

#[test]
fn stops(rt: HostRuntime) -> Result<(), Fail> {
    let heap = Heap::unlimited(rt.alloc());
    for (row, (rest, fields, wanted)) in stops_table().iter().enumerate() {
        let head = post_of(&heap, b"POST /stop", rest, fields)?;
        expect_row(&rt, is_asked(head.as_slice(), wanted)?, row);
    }
    Ok(())
}

// The head of a request with this begin, what stands behind it, and these fields.
fn post_of(heap: &Heap, begin: &[u8], rest: &[u8], fields: &[u8]) -> Result<Vec<u8, Heap>, Memory> {
    let mut head = Vec::from_slice(heap.clone()?, begin)?;
    head.extend_from_slice(rest)?;
    head.extend_from_slice(b" HTTP/1.1\r\nHost: localhost\r\n")?;
    head.extend_from_slice(fields)?;
    if !fields.is_empty() {
        head.extend_from_slice(b"\r\n")?;
    }
    head.extend_from_slice(b"\r\n")?;
    Ok(head)
}
