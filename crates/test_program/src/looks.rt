//! The answer to who looks, over peers that give it in pieces, hang up in it or give something else: what is written of it, and by
//! which fault it ends.

use crate::expectations::{expect_that, expect_told};
use rx_client::{LookFault, hand_on};
use rx_heap::Heap;
use std::alloc::Global;
use std::io::{self, ErrorKind, Read};
use std::test::Fail;

const WHOLE: &[u8] =
    b"HTTP/1.1 200 OK\r\nContent-Type: text/plain\r\nContent-Length: 12\r\n\r\nhello\nagain\n";

// What a peer gives, and what is written of it.
const BODIES: &[(&[u8], &str)] = &[
    (WHOLE, "hello\nagain\n"),
    (
        b"HTTP/1.1 200 OK\r\ncontent-length: 5\r\n\r\nhello and more",
        "hello",
    ),
    (
        b"HTTP/1.1 200 OK\r\nContent-Length:0\r\nConnection: close\r\n\r\n",
        "",
    ),
    (
        b"HTTP/1.0 200\r\nCONTENT-LENGTH: 1\r\nContent-Length: 2\r\n\r\nab",
        "a",
    ),
    (b"HTTP/1.1 200 OK\nContent-Length: 2\n\nab", "ab"),
    (
        b"HTTP/1.1 200 OK\r\nContent-Length: 4\r\n\r\n\r\n\r\n",
        "\r\n\r\n",
    ),
];

// Hands the table out, so that what goes over it is proved without its rows.
fn bodies() -> &'static [(&'static [u8], &'static str)] {
    BODIES
}

// What a peer gives, and the fault.
const FAULTS: &[(&[u8], LookFault)] = &[
    (b"", LookFault::Lost),
    (
        b"HTTP/1.1 200 OK\r\nContent-Length: 4294967295\r\n\r\nab",
        LookFault::Lost,
    ),
    (
        b"HTTP/1.1 404 Not Found\r\nContent-Length: 4\r\n\r\nab",
        LookFault::Lost,
    ),
    (b"ERR SYNTAX\n", LookFault::Strange),
    (b"OK\n", LookFault::Strange),
    (b"HTTP/2.0 200 OK\r\n", LookFault::Strange),
    (b"HTTP/1.1 200 OK\r\n\r\nab", LookFault::Strange),
    (
        b"HTTP/1.1 200 OK\r\nContent-Length: +2\r\n\r\nab",
        LookFault::Strange,
    ),
    (
        b"HTTP/1.1 200 OK\r\nContent-Length: 02\r\n\r\nab",
        LookFault::Strange,
    ),
    (
        b"HTTP/1.1 200 OK\r\nContent-Length: \r\n\r\nab",
        LookFault::Strange,
    ),
    (
        b"HTTP/1.1 200 OK\r\nContent-Length: 4294967296\r\n\r\nab",
        LookFault::Strange,
    ),
    (
        b"HTTP/1.1 200 OK\r\nTransfer-Encoding: chunked\r\n\r\n2\r\nab",
        LookFault::Strange,
    ),
];

// What a peer refuses by, the status, and what is told of why.
const REFUSALS: &[(&[u8], u16, &str)] = &[
    (
        b"HTTP/1.1 404 Not Found\r\nContent-Length: 2\r\n\r\nabc",
        404,
        "ab",
    ),
    (b"HTTP/1.1 503 Service Unavailable\r\n\r\nab", 503, ""),
    (
        b"HTTP/1.1 201 Created\r\nContent-Length: 2\r\n\r\nab",
        201,
        "ab",
    ),
];

// Hands the table out, so that what goes over it is proved without its rows.
fn refusals() -> &'static [(&'static [u8], u16, &'static str)] {
    REFUSALS
}

// Hands the table out, so that what goes over it is proved without its rows.
fn faults() -> &'static [(&'static [u8], LookFault)] {
    FAULTS
}

/// Gives bytes, so many a read, and then its end, or a fault where it fails.
#[derive(Drop)]
struct Gives<'a> {
    rest: &'a [u8],
    step: usize,
    fails: bool,
}

impl Read for Gives<'_> {
    fn read(&mut self, buf: &mut [u8]) -> io::Result<usize> {
        if self.fails && self.rest.is_empty() {
            return Err(io::Error::from(ErrorKind::ConnectionReset));
        }
        let len = self.step.min(self.rest.len()).min(buf.len());
        buf[..len].copy_from_slice(&self.rest[..len]);
        self.rest = &self.rest[len..];
        Ok(len)
    }
}

// What is written of what a peer gives where an answer of status 200 is wanted, what is told of why not, and how that ends.
fn handed_on(alloc: Global, given: Gives<'_>) -> (Vec<u8>, Vec<u8>, Result<(), LookFault>) {
    let mut peer = given;
    let (mut written, mut why) = (Vec::new(alloc), Vec::new(alloc));
    let heap = Heap::unlimited(alloc);
    let ended = hand_on(&mut peer, &heap, 200, &mut written, &mut why);
    (written, why, ended)
}

const STEPS: [usize; 4] = [1, 2, 7, 8192];

#[test]
fn bodies_are_handed_on(rt: HostRuntime) -> Result<(), Fail> {
    for (given, wanted) in bodies() {
        for step in &STEPS {
            let given = Gives {
                rest: given,
                step: *step,
                fails: false,
            };
            let (written, why, ended) = handed_on(rt.alloc(), given);
            expect_told(&rt, written.as_slice(), wanted, "a body");
            expect_told(&rt, why.as_slice(), "", "why it is none");
            expect_that(&rt, ended.is_ok(), wanted);
        }
    }
    Ok(())
}

#[test]
fn nothing_is_written_of_another_answer(rt: HostRuntime) -> Result<(), Fail> {
    for (given, wanted) in faults() {
        for step in &STEPS {
            let given = Gives {
                rest: given,
                step: *step,
                fails: false,
            };
            let (written, why, ended) = handed_on(rt.alloc(), given);
            expect_told(&rt, written.as_slice(), "", "another answer");
            expect_told(&rt, why.as_slice(), "", "why, of another answer");
            expect_that(&rt, ended == Err(*wanted), "its fault");
        }
    }
    Ok(())
}

#[test]
fn a_refusal_tells_why(rt: HostRuntime) -> Result<(), Fail> {
    for (given, status, wanted) in refusals() {
        for step in &STEPS {
            let given = Gives {
                rest: given,
                step: *step,
                fails: false,
            };
            let (written, why, ended) = handed_on(rt.alloc(), given);
            expect_told(&rt, written.as_slice(), "", "a refusal");
            expect_told(&rt, why.as_slice(), wanted, "why it is refused");
            expect_that(&rt, ended == Err(LookFault::Refused(*status)), wanted);
        }
    }
    Ok(())
}

#[test]
fn nothing_is_written_of_a_part(rt: HostRuntime) -> Result<(), Fail> {
    for len in 0..WHOLE.len() {
        for fails in &[false, true] {
            let given = Gives {
                rest: &WHOLE[..len],
                step: 8192,
                fails: *fails,
            };
            let (written, _, ended) = handed_on(rt.alloc(), given);
            expect_told(&rt, written.as_slice(), "", "a part");
            expect_that(&rt, ended == Err(LookFault::Lost), "the fault of a part");
        }
    }
    Ok(())
}

// An answer whose head has so many bytes, at least 44.
fn with_a_head_of(alloc: Global, len: usize) -> Result<Vec<u8>, Fail> {
    let mut given = Vec::from_slice(alloc, b"HTTP/1.1 200 OK\r\nContent-Length: 2\r\nX: ")?;
    let behind = 4;
    for _ in given.len() + behind..len {
        given.push(b'x')?;
    }
    given.extend_from_slice(b"\r\n\r\nab")?;
    Ok(given)
}

#[test]
fn a_head_is_short(rt: HostRuntime) -> Result<(), Fail> {
    for (len, wanted, ends) in &[(8192, "ab", Ok(())), (8193, "", Err(LookFault::Strange))] {
        let given = with_a_head_of(rt.alloc(), *len)?;
        for step in &STEPS {
            let given = Gives {
                rest: given.as_slice(),
                step: *step,
                fails: false,
            };
            let (written, _, ended) = handed_on(rt.alloc(), given);
            expect_told(&rt, written.as_slice(), wanted, "a long head");
            expect_that(&rt, ended == *ends, "how a long head ends");
        }
    }
    Ok(())
}
