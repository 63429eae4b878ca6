//! Replies of two subjects that come mixed: each call that was posted has its own answer, and a letter for which no call waits ends
//! the desk.

ghost use Rattle.std.specs.Prelude.{◌≡◌, ◌∷◌, []};
ghost use Rattle.rx_mailbox.specs.PortRows.{IsFresh};

use crate::boxes::{copy, two, unlimited};
use crate::desks::{item, one};
use crate::expectations::{expect_that, expect_told};
use rx_heap::Heap;
use rx_mailbox::{Inbox, Port};
use rx_note::Answer;
use rx_pump::{Call, CallDesk, CallError, Reply};
use std::process::Abort;
use std::sync::Wait;

// The subjects of the calls that are posted: their tickets are 1, 2, 3 and 4.
const POSTED: [usize; 4] = [0, 1, 0, 1];

// A reply that comes: from which subject, to which ticket, and whether it brings a sink.
#[derive(Drop)]
struct Came {
    subject: usize,
    ticket: u64,
    sink: Option<u8>,
}

// What comes, by the digits of its subjects and tickets, and what the calls are answered then, in their order: `o` by their own reply,
// `s` by a strange letter, `S` by one whose sink comes back, `g` that the subject is gone. A subject of 2 or 3 is 0 or 1, whose reply
// brings a sink.
#[derive(Drop)]
struct Row {
    comes: &'static str,
    answers: &'static str,
}

fn rows() -> [Row; 11] {
    [
        Row {
            comes: "01 12 03 14",
            answers: "oooo",
        },
        Row {
            comes: "12 14 01 03",
            answers: "oooo",
        },
        Row {
            comes: "01 03 12 14",
            answers: "oooo",
        },
        Row {
            comes: "12 01 14 03",
            answers: "oooo",
        },
        // Of one subject the replies come in the order of its calls.
        Row {
            comes: "14 12 01 03",
            answers: "sggg",
        },
        Row {
            comes: "03 01 12 14",
            answers: "sggg",
        },
        Row {
            comes: "01 14 12 03",
            answers: "osgg",
        },
        // One more than were called for.
        Row {
            comes: "12 14 15 01 03",
            answers: "sggg",
        },
        Row {
            comes: "01 12 14 12 03",
            answers: "oosg",
        },
        // No call that is posted brought a sink.
        Row {
            comes: "32 01 03 14",
            answers: "Sggg",
        },
        Row {
            comes: "12 34 01 03",
            answers: "Sggg",
        },
    ]
}

fn digit(byte: u8) -> u8 {
    byte.saturating_sub(b'0')
}

// What a word of a row says.
fn read_word(word: &str) -> Option<Came> {
    let [subject, ticket] = word.as_bytes() else {
        return None;
    };
    let subject = digit(*subject);
    Some(Came {
        subject: usize::from(subject % 2),
        ticket: u64::from(digit(*ticket)),
        sink: if subject < 2 { None } else { Some(7) },
    })
}

// Replies of two subjects come.
fn reply_all(
    rt: &(impl Wait + Abort),
    row: &Row,
    first: &mut Port<Reply<u8>>,
    second: &mut Port<Reply<u8>>,
) {
    for word in row.comes.split(' ') {
        let came = read_word(word).expect(rt, "a subject and a ticket");
        let port = if came.subject == 0 {
            &mut *first
        } else {
            &mut *second
        };
        let reply = Reply {
            ticket: came.ticket,
            result: Ok(Answer::Admitted),
            sink: came.sink,
            items: 0,
        };
        expect_that(rt, port.send(rt, reply).is_ok(), row.comes);
    }
}

// A desk of two subjects.
fn desk_of_two(
    rt: &impl Abort,
    alloc: &Heap,
    first: Port<Call<u8>>,
    second: Port<Call<u8>>,
    inbox: Inbox<Reply<u8>>,
) -> CallDesk<u8>
    requires ports { (IsFresh first) × (IsFresh second) }
    requires inbox { inbox.received ≡ [] }
{
    let ports = vec![in copy(rt, alloc); first, second].expect(rt, "memory");
    match CallDesk::new(copy(rt, alloc), ports, inbox) {
        Ok(desk) => desk,
        Err(_) => panic!(rt; "no memory for a desk"),
    }
}

// Posts all calls.
fn post_all(rt: &(impl Wait + Abort), alloc: &Heap, desk: &mut CallDesk<u8>) {
    for subject in POSTED {
        assert!(rt; subject < desk.subjects());
        let posted = desk.post(rt, subject, item(rt, alloc));
        expect_that(rt, posted.is_ok(), "a call is posted");
    }
}

// What the call with this ticket is answered.
fn answered(rt: &(impl Wait + Abort), desk: &mut CallDesk<u8>, subject: usize, ticket: u64) -> u8 {
    assert!(rt; subject < desk.subjects());
    match desk.answer(rt, subject, ticket) {
        Ok(reply) if reply.ticket == ticket => b'o',
        Ok(_) => b'?',
        Err(CallError::Strange { sink: None }) => b's',
        Err(CallError::Strange { sink: Some(7) }) => b'S',
        Err(CallError::Strange { sink: Some(_) }) => b'?',
        Err(CallError::SubjectGone { sink: _ }) => b'g',
    }
}

// What all calls are answered, in their order.
fn answers(rt: &(impl Wait + Abort), desk: &mut CallDesk<u8>) -> [u8; 4] {
    let [first, second, third, fourth] = POSTED;
    [
        answered(rt, desk, first, 1),
        answered(rt, desk, second, 2),
        answered(rt, desk, third, 3),
        answered(rt, desk, fourth, 4),
    ]
}

fn expect_row(rt: &(impl Wait + Abort), alloc: &Heap, row: &Row) {
    let (_first_calls, first) = one::<Call<u8>>(rt, copy(rt, alloc), 16);
    let (_second_calls, second) = one::<Call<u8>>(rt, copy(rt, alloc), 16);
    let (inbox, mut first_caller, mut second_caller) = two::<Reply<u8>>(rt, copy(rt, alloc), 16);
    let mut desk = desk_of_two(rt, alloc, first, second, inbox);
    post_all(rt, alloc, &mut desk);
    reply_all(rt, row, &mut first_caller, &mut second_caller);
    expect_told(rt, &answers(rt, &mut desk), row.answers, row.comes);
}

#[test]
fn replies_that_come_mixed(rt: HostRuntime) {
    let alloc = unlimited(&rt);
    for row in &rows() {
        expect_row(&rt, &alloc, row);
    }
}
