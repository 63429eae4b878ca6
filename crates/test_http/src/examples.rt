//! The streams by which the standard shows how they are read, and what it says of each.

use crate::expectations::expect_that;
use crate::plain::{Reader, read};
use rx_heap::Heap;
use std::test::Fail;

/// A stream, and the id, the kind and the text of each message that it dispatches.
struct Example {
    name: &'static str,
    stream: &'static [u8],
    messages: &'static [(&'static [u8], &'static [u8], &'static [u8])],
}

const EXAMPLES: &[Example] = &[
    Example {
        name: "three_lines_are_one_text",
        stream: b"data: YHOO\ndata: +2\ndata: 10\n\n",
        messages: &[(b"", b"message", b"YHOO\n+2\n10")],
    },
    Example {
        name: "the_last_block_is_not_finished",
        stream: b": test stream\n\ndata: first event\nid: 1\n\ndata:second event\nid\n\ndata:  third event\n",
        messages: &[
            (b"1", b"message", b"first event"),
            (b"", b"message", b"second event"),
        ],
    },
    Example {
        name: "fields_without_a_value",
        stream: b"data\n\ndata\ndata\n\ndata:\n",
        messages: &[(b"", b"message", b""), (b"", b"message", b"\n")],
    },
    Example {
        name: "one_space_behind_the_colon",
        stream: b"data:test\n\ndata: test\n\n",
        messages: &[(b"", b"message", b"test"), (b"", b"message", b"test")],
    },
    Example {
        name: "kinds",
        stream: b"event: add\ndata: 73857293\n\nevent: remove\ndata: 2153\n\nevent: add\ndata: 113411\n\n",
        messages: &[
            (b"", b"add", b"73857293"),
            (b"", b"remove", b"2153"),
            (b"", b"add", b"113411"),
        ],
    },
    Example {
        name: "each_end_of_a_line",
        stream: b"data: a\r\ndata: b\rid: 1\n\r\ndata: c\r\r",
        messages: &[(b"1", b"message", b"a\nb"), (b"1", b"message", b"c")],
    },
    Example {
        name: "an_id_with_a_nul_says_nothing",
        stream: b"id: 1\ndata: a\n\nid: 2\0\ndata: b\n\n",
        messages: &[(b"1", b"message", b"a"), (b"1", b"message", b"b")],
    },
];

// Hands the table out, so that what goes over it is proved without its rows.
fn examples() -> &'static [Example] {
    EXAMPLES
}

// Whether these are the messages that a reader has.
fn has(reader: &Reader, messages: &[(&[u8], &[u8], &[u8])]) -> bool {
    if reader.messages.len() != messages.len() {
        return false;
    }
    for (message, (id, kind, text)) in reader.messages.iter().zip(messages) {
        if !message.says(id, kind, text) {
            return false;
        }
    }
    true
}

#[test]
fn examples_of_the_standard(rt: HostRuntime) -> Result<(), Fail> {
    let heap = Heap::unlimited(rt.alloc());
    for example in examples() {
        let reader = read(&heap, b"", example.stream)?;
        expect_that(&rt, has(&reader, example.messages), example.name);
    }
    Ok(())
}
