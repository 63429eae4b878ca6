//! Exchanges that emit: what the server is asked for, however the reads are cut, and at the limit of a request.

use crate::answers::{Answered, bytes_of};
use crate::clerk::{Clerk, answer_of, clerk_of};
use crate::drips::{Drips, Page};
use crate::expectations::{expect_count, expect_end, expect_that, expect_words};
use rx_heap::{Heap, Memory};
use rx_http::{NoteKind, Refusal};
use rx_session::SessionEnd;
use std::io::ErrorKind;
use std::test::Fail;

/// Connections that emit: what is emitted, and what the server answers that accepts it.
const EMITTED: &[(&[u8], NoteKind, &[u8], Answered)] = &[
    (
        b"POST /subjects/trades HTTP/1.1\r\nContent-Length: 5\r\n\r\nhello",
        NoteKind::Next,
        b"hello",
        Answered::Accepted(Some(0)),
    ),
    (
        b"POST /subjects/trades HTTP/1.1\r\nContent-Length: 5\r\n\r\nhello there",
        NoteKind::Next,
        b"hello",
        Answered::Accepted(Some(0)),
    ),
    (
        b"POST /subjects/trades HTTP/1.1\r\n\r\n",
        NoteKind::Next,
        b"",
        Answered::Accepted(Some(0)),
    ),
    (
        b"POST /subjects/trades?x=1 HTTP/1.1\r\nHost: a.example:8080\r\nOrigin: http://a.example:8080\r\nContent-Length: 2\r\n\r\na\r",
        NoteKind::Next,
        b"a\r",
        Answered::Accepted(Some(0)),
    ),
    (
        b"POST /subjects/trades/end HTTP/1.1\r\nContent-Length: 0\r\n\r\n",
        NoteKind::Completed,
        b"",
        Answered::Accepted(None),
    ),
    (
        b"POST /subjects/trades/fail HTTP/1.1\r\nHost: a\r\nOrigin: https://a\r\nContent-Length: 4\r\n\r\n\n\n\r\n",
        NoteKind::Failed,
        b"\n\n\r\n",
        Answered::Accepted(None),
    ),
    (
        b"POST /subjects/trades HTTP/1.1\r\nContent-Length: 5\r\nIdempotency-Key: \"8e03978e-40d5\"\r\n\r\nhello",
        NoteKind::Next,
        b"hello",
        Answered::Again(Some(0)),
    ),
    (
        b"POST /subjects/trades/end HTTP/1.1\r\nidempotency-key:  7 \r\n\r\n",
        NoteKind::Completed,
        b"",
        Answered::Again(None),
    ),
    (
        b"POST /subjects/other HTTP/1.1\r\nContent-Length: 1\r\n\r\na",
        NoteKind::Next,
        b"a",
        Answered::Refused(Refusal::Subject),
    ),
    (
        b"POST /subjects/end HTTP/1.1\r\nContent-Length: 1\r\n\r\na",
        NoteKind::Next,
        b"a",
        Answered::Refused(Refusal::Subject),
    ),
];

// Hands the table out, so that what goes over it is proved without its rows.
fn emitted_table() -> &'static [(&'static [u8], NoteKind, &'static [u8], Answered)] {
    EMITTED
}

// What is wrong with how a server was asked once to emit; nothing where it was asked for this.
fn fault_of(clerk: &Clerk, kind: NoteKind, text: &[u8]) -> &'static str {
    if clerk.asked != 1 {
        return "not asked once";
    }
    if clerk.kind != Some(kind) {
        return "another kind";
    }
    if clerk.text.as_slice() != text {
        return "another text";
    }
    ""
}

// How a connection ends that gives so many bytes at a time, and what is wrong with its answer and with what the server was asked for.
// Each other read would block where the bytes are an even number.
fn emitted_by(
    heap: &Heap,
    bytes: &[u8],
    step: usize,
    kind: NoteKind,
    text: &[u8],
    told: Answered,
) -> Result<(SessionEnd, &'static str), Fail> {
    let mut drips = Drips::new(bytes, step);
    if step % 2 == 0 {
        drips.between = Some(ErrorKind::WouldBlock);
    }
    let mut clerk = clerk_of(heap, true, None)?;
    let page = Page::new(heap.clone()?, 0);
    let (end, is_told) = answer_of(&mut drips, page, &mut clerk, 1000, bytes_of(told))?;
    if !is_told {
        return Ok((end, "another answer"));
    }
    Ok((end, fault_of(&clerk, kind, text)))
}

#[test]
fn emitted_at_each_cut(rt: HostRuntime) -> Result<(), Fail> {
    let heap = Heap::unlimited(rt.alloc());
    for (row, (bytes, kind, text, told)) in emitted_table().iter().enumerate() {
        for step in 1..=bytes.len() {
            let (end, fault) = emitted_by(&heap, bytes, step, *kind, text, *told)?;
            expect_end(&rt, end, SessionEnd::Quit, row, step);
            expect_words(&rt, fault, row, step);
        }
    }
    Ok(())
}

// An emission whose head and body have so many bytes, of which the body has 1,024.
fn emission_of(heap: &Heap, len: usize) -> Result<Vec<u8, Heap>, Memory> {
    let mut bytes = Vec::from_slice(
        heap.clone()?,
        b"POST /subjects/trades HTTP/1.1\r\nContent-Length: 1024\r\na: ",
    )?;
    for _ in 0..len.saturating_sub(1024 + 4).saturating_sub(bytes.len()) {
        bytes.push(b'b')?;
    }
    bytes.extend_from_slice(b"\r\n\r\n")?;
    for _ in 0..1024 {
        bytes.push(b'c')?;
    }
    Ok(bytes)
}

// Whether a request is answered so, and how many bytes of text the server was asked to emit.
fn taken_of(heap: &Heap, bytes: &[u8], told: Answered) -> Result<(bool, usize), Fail> {
    let mut clerk = clerk_of(heap, true, None)?;
    let page = Page::new(heap.clone()?, 0);
    let mut drips = Drips::new(bytes, 100);
    let (_, is_told) = answer_of(&mut drips, page, &mut clerk, 1000, bytes_of(told))?;
    Ok((is_told, clerk.text.len()))
}

// The bytes of a request, its answer, and how many bytes of text are emitted.
const LIMITS: [(usize, Answered, u64); 2] = [
    (8_192, Answered::Accepted(Some(0)), 1_024),
    (8_193, Answered::Refused(Refusal::Long), 0),
];

#[test]
fn requests_at_their_limit(rt: HostRuntime) -> Result<(), Fail> {
    let heap = Heap::unlimited(rt.alloc());
    for (len, told, taken) in &LIMITS {
        let bytes = emission_of(&heap, *len)?;
        expect_count(&rt, bytes.len() as u64, *len as u64, "bytes of a request");
        let (is_told, text) = taken_of(&heap, bytes.as_slice(), *told)?;
        expect_that(&rt, is_told, "what is answered");
        expect_count(&rt, text as u64, *taken, "bytes of a text");
    }
    Ok(())
}
