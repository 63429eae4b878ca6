//! The head of a connection, however its reads are cut.

use crate::drips::Drips;
use crate::expectations::{expect_row, expect_told};
use rx_heap::{Heap, Memory};
use rx_http::{HeadFound, HeadReader, MAX_HEAD};
use std::test::Fail;

/// Bytes of a connection, and what of a head is among them.
const ROWS: &[(&[u8], HeadFound)] = &[
    (b"", HeadFound::Partly),
    (b"GET / HTTP/1.1\r\n\r\n", HeadFound::Whole(18)),
    (b"GET / HTTP/1.1\r\nA: b\r\n\r\nbody", HeadFound::Whole(24)),
    (b"GET / HTTP/1.0\n\nGET", HeadFound::Whole(16)),
    (b"GET / HTTP/1.1\r\n\nGET", HeadFound::Whole(17)),
    (b"GET / HTTP/1.1\n\r\nGET", HeadFound::Whole(17)),
    (b"\r\nGET / HTTP/1.1\r\n\r\n", HeadFound::Whole(20)),
    (b"\n\r\n", HeadFound::Whole(3)),
    (b"GET / HTTP/1.1\r\n\r", HeadFound::Partly),
    (b"GET / HTTP/1.1\r\n\r\r\n", HeadFound::Partly),
    (b"GET / HTTP/1.1\r\r\n", HeadFound::Partly),
];

// Hands the table out, so that what goes over it is proved without its rows.
fn rows() -> &'static [(&'static [u8], HeadFound)] {
    ROWS
}

// More reads than any row takes.
const MOST_READS: u32 = 10_000;

// Reads until a head is found, or nothing more comes.
fn gather(head: &mut HeadReader, drips: &mut Drips<'_>) -> Result<HeadFound, Fail> {
    for _ in 0..MOST_READS {
        match head.find() {
            HeadFound::Partly => {
                if head.read_from(drips)? == 0 {
                    return Ok(HeadFound::Partly);
                }
            }
            found => return Ok(found),
        }
    }
    Err(Fail::from("reads without an end"))
}

// What of a head is found among bytes that are read so many at a time.
fn found_by(bytes: &[u8], step: usize) -> Result<HeadFound, Fail> {
    let mut drips = Drips::new(bytes, step);
    let mut head = HeadReader::new();
    gather(&mut head, &mut drips)
}

#[test]
fn heads_cut_at_each_byte(rt: HostRuntime) -> Result<(), Fail> {
    for (row, (bytes, found)) in rows().iter().enumerate() {
        for step in 1..=bytes.len() {
            expect_row(&rt, found_by(bytes, step)? == *found, row);
        }
    }
    Ok(())
}

#[test]
fn what_is_left_is_what_came(rt: HostRuntime) -> Result<(), Fail> {
    let bytes = b"GET / HTTP/1.1\r\n\r\nGET /healthz".as_slice();
    let mut drips = Drips::new(bytes, bytes.len());
    let mut head = HeadReader::new();
    gather(&mut head, &mut drips)?;
    match head.find() {
        HeadFound::Whole(len) => {
            expect_told(&rt, head.head(len), b"GET / HTTP/1.1\r\n\r\n", 0);
            expect_told(&rt, head.behind(len), b"GET /healthz", 1);
            Ok(())
        }
        _ => Err(Fail::from("no head")),
    }
}

// A head of so many bytes, 23 or more.
fn head_of(heap: &Heap, len: usize) -> Result<Vec<u8, Heap>, Memory> {
    let mut head = Vec::from_slice(heap.clone()?, b"GET / HTTP/1.1\r\na: ")?;
    for _ in 23..len {
        head.push(b'b')?;
    }
    head.extend_from_slice(b"\r\n\r\n")?;
    Ok(head)
}

// The bytes of a head, and what is found of it.
const LONG: [(usize, HeadFound); 3] = [
    (MAX_HEAD, HeadFound::Whole(8192)),
    (MAX_HEAD + 1, HeadFound::TooLong),
    (MAX_HEAD + 2, HeadFound::TooLong),
];

#[test]
fn long_heads(rt: HostRuntime) -> Result<(), Fail> {
    let heap = Heap::unlimited(rt.alloc());
    for (len, found) in &LONG {
        let bytes = head_of(&heap, *len)?;
        for step in [1, 1000, 8192, 10_000] {
            let is_found = found_by(bytes.as_slice(), step)? == *found;
            expect_row(&rt, is_found, *len);
        }
    }
    Ok(())
}
