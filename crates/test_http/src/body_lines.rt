//! Bodies that are several texts: their lines, and what those are answered.

use crate::answers::{Answered, bytes_of};
use crate::clerk::{clerk_of, serve};
use crate::drips::{Drips, Page};
use rx_heap::{Heap, Memory};
use rx_http::{NoteKind, Refusal, are_texts, first_line};
use rx_session::SessionEnd;
use std::test::Fail;

/// Bodies and their lines.
const BODIES: &[(&[u8], &[&[u8]])] = &[
    (b"", &[]),
    (b"a", &[b"a"]),
    (b"a\n", &[b"a"]),
    (b"\n", &[b""]),
    (b"\n\n", &[b"", b""]),
    (b"\na", &[b"", b"a"]),
    (b"one\n\ntwo\nthree", &[b"one", b"", b"two", b"three"]),
    (b"a\r\n\0\n", &[b"a\r", b"\0"]),
];

// Hands the table out, so that what goes over it is proved without its rows.
fn bodies() -> &'static [(&'static [u8], &'static [&'static [u8]])] {
    BODIES
}

#[test]
fn lines_of_bodies(rt: HostRuntime) -> Result<(), Fail> {
    for (i, (body, lines)) in bodies().iter().enumerate() {
        let mut rest = *body;
        for line in *lines {
            let Some((first, behind)) = first_line(rest) else {
                return Err(Fail::from("a line is missing"));
            };
            assert_eq!(rt; first, *line, "body {i}");
            rest = behind;
        }
        assert!(rt; first_line(rest).is_none(), "body {i}");
        assert!(rt; are_texts(body), "body {i}");
    }
    Ok(())
}

// A body of so many empty lines, and one with so many bytes, which has no LF.
fn body_of(heap: &Heap, lines: usize, last: usize) -> Result<Vec<u8, Heap>, Memory> {
    let mut body = Vec::new(heap.clone()?);
    for _ in 0..lines {
        body.push(b'\n')?;
    }
    for _ in 0..last {
        body.push(b'a')?;
    }
    Ok(body)
}

#[test]
fn bodies_at_their_limits(rt: HostRuntime) -> Result<(), Fail> {
    let heap = Heap::unlimited(rt.alloc());
    let rows = [
        (255, 1_024, true),
        (256, 0, true),
        (256, 1, false),
        (257, 0, false),
        (255, 1_025, false),
        (0, 1_025, false),
    ];
    for (lines, last, are) in rows {
        let mut body = body_of(&heap, lines, last)?;
        assert_eq!(rt;
            are_texts(body.as_slice()),
            are,
            "{lines} lines, {last} bytes"
        );
        body.push(b'\n')?;
        let ended = are && last > 0;
        assert_eq!(rt;
            are_texts(body.as_slice()),
            ended,
            "{lines} lines, {last} bytes and an LF"
        );
    }
    Ok(())
}

/// Connections that emit lines, how many of these the server accepts, why it refuses the next one, and what it answers.
const LINED: &[(&[u8], usize, Option<Refusal>, &[u8], Answered)] = &[
    (
        b"POST /subjects/trades?lines=1 HTTP/1.1\r\nContent-Length: 5\r\n\r\na\n\nb\n",
        3,
        None,
        b"a\n\nb\n",
        Answered::Placed(&[0, 1, 2]),
    ),
    (
        b"POST /subjects/trades?lines=1 HTTP/1.1\r\n\r\n",
        0,
        None,
        b"",
        Answered::Placed(&[]),
    ),
    (
        b"POST /subjects/trades?lines=1 HTTP/1.1\r\nHost: a\r\nOrigin: http://a\r\nContent-Length: 3\r\n\r\na\nb behind",
        2,
        Some(Refusal::Ended),
        b"a\nb",
        Answered::Cut(&[0, 1], Refusal::Ended),
    ),
    (
        b"POST /subjects/trades?lines=1 HTTP/1.1\r\nContent-Length: 1\r\n\r\na",
        0,
        Some(Refusal::Memory),
        b"a",
        Answered::Refused(Refusal::Memory),
    ),
    (
        b"POST /subjects/other?lines=1 HTTP/1.1\r\nContent-Length: 1\r\n\r\na",
        3,
        None,
        b"a",
        Answered::Refused(Refusal::Subject),
    ),
];

// Hands the table out, so that what goes over it is proved without its rows.
fn lined_table() -> &'static [(
    &'static [u8],
    usize,
    Option<Refusal>,
    &'static [u8],
    Answered,
)] {
    LINED
}

#[test]
fn lined_at_each_cut(rt: HostRuntime) -> Result<(), Fail> {
    let heap = Heap::unlimited(rt.alloc());
    for (i, (bytes, accepts, refuses, body, told)) in lined_table().iter().enumerate() {
        for step in 1..=bytes.len() {
            let mut clerk = clerk_of(&heap, true, *refuses)?;
            clerk.accepts = *accepts;
            let page = Page::new(heap.clone()?, 0);
            let (end, back) = serve(&mut Drips::new(bytes, step), page, &mut clerk, 1000)?;
            assert_eq!(rt; end, SessionEnd::Quit, "row {i} by {step}");
            let Some(page) = back else {
                return Err(Fail::from("the writer is gone"));
            };
            assert_eq!(rt; page.held.as_slice(), bytes_of(*told), "row {i} by {step}");
            assert_eq!(rt; clerk.asked, 1, "row {i} by {step}");
            assert!(rt; clerk.kind == Some(NoteKind::Next), "row {i} by {step}");
            assert_eq!(rt; clerk.text.as_slice(), *body, "row {i} by {step}");
        }
    }
    Ok(())
}
