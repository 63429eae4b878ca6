//! Texts as items: what a browser has of each.

use crate::expectations::expect_that;
use crate::plain::{Reader, read};
use rx_heap::Heap;
use rx_http::{Epoch, StreamEvent, write_event};
use rx_note::{Item, Text};
use std::test::Fail;

const LONGEST: [u8; 1024] = [b'x'; 1024];

// A name, a text, and its kind and its text as they are read.
const ROWS: &[(&str, &[u8], &[u8], &[u8])] = &[
    ("plain", b"plain", b"next", b"plain"),
    ("empty", b"", b"next", b""),
    (
        "a_space_first",
        b" leading space",
        b"next",
        b" leading space",
    ),
    ("a_cr_within", b"a\rb", b"next", b"a\nb"),
    ("a_cr_alone", b"\r", b"next", b"\n"),
    ("a_cr_first", b"\rx", b"next", b"\nx"),
    ("a_nul", b"nul\0in", b"next", b"nul\0in"),
    ("a_field", b"data: x", b"next", b"data: x"),
    ("a_comment", b": comment", b"next", b": comment"),
    (
        "a_byte_order_mark",
        b"\xef\xbb\xbfbom",
        b"next",
        b"\xef\xbb\xbfbom",
    ),
    (
        "an_accent_and_an_emoji",
        b"caf\xc3\xa9 \xf0\x9f\x98\x80",
        b"next",
        b"caf\xc3\xa9 \xf0\x9f\x98\x80",
    ),
    ("no_utf8", b"\xff\xfe bad", b"next64", b"//4gYmFk"),
    (
        "a_tab_and_a_space_last",
        b"tab\tend ",
        b"next",
        b"tab\tend ",
    ),
    ("the_longest", &LONGEST, b"next", &LONGEST),
];

// Hands the table out, so that what goes over it is proved without its rows.
fn rows() -> &'static [(&'static str, &'static [u8], &'static [u8], &'static [u8])] {
    ROWS
}

// What is written of an item with this text.
fn written(heap: &Heap, text: &[u8]) -> Result<Vec<u8, Heap>, Fail> {
    let epoch = Epoch::new(b"1a21de595e8").ok_or("no epoch")?;
    let item = Item::new(Text::new(heap.clone()?, text)?);
    let mut stream = Vec::new(heap.clone()?);
    write_event(&mut stream, &epoch, StreamEvent::Next(&item))?;
    Ok(stream)
}

// Whether a reader has one message, which says this.
fn has(reader: &Reader, kind: &[u8], told: &[u8]) -> bool {
    match reader.messages.as_slice() {
        [message] => message.says(b"1a21de595e8-0", kind, told),
        _ => false,
    }
}

#[test]
fn texts_come_back(rt: HostRuntime) -> Result<(), Fail> {
    let heap = Heap::unlimited(rt.alloc());
    for (name, text, kind, told) in rows() {
        let stream = written(&heap, text)?;
        let reader = read(&heap, b"", stream.as_slice())?;
        expect_that(&rt, has(&reader, kind, told), name);
    }
    Ok(())
}
