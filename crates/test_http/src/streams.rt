//! A stream with each of the events: its bytes, what is read where it is cut, and how it is written with each growth refused.

use crate::expectations::{expect_row, expect_that, expect_told};
use crate::plain::{Reader, read};
use rx_heap::{Heap, Memory};
use rx_http::{Epoch, Id, StreamEvent, write_event, write_heartbeat, write_retry};
use rx_note::{Item, Text};
use rx_proto::WriteFault;
use std::test::Fail;
use test_kit::{Refusable, Seen, refuse_in_turn};

/// What the reader sent: it had heard a server that is gone.
const SENT: &[u8] = b"19c0-7";

/// A piece of the stream: its bytes, and the id, the kind and the text of the message that it tells, if any.
struct Piece {
    bytes: &'static [u8],
    message: Option<(&'static [u8], &'static [u8], &'static [u8])>,
}

const PIECES: &[Piece] = &[
    Piece {
        bytes: b"retry: 1000\n",
        message: None,
    },
    Piece {
        bytes: b"id: 1a21de595e8-\nevent: restarted\ndata: 19c0-7\n\n",
        message: Some((b"1a21de595e8-", b"restarted", b"19c0-7")),
    },
    Piece {
        bytes: b"id: 1a21de595e8-\nevent: joined\ndata: 1a21de595e8-4\n\n",
        message: Some((b"1a21de595e8-", b"joined", b"1a21de595e8-4")),
    },
    Piece {
        bytes: b"event: next\ndata: seed\n\n",
        message: Some((b"1a21de595e8-", b"next", b"seed")),
    },
    Piece {
        bytes: b":\n",
        message: None,
    },
    Piece {
        bytes: b"id: 1a21de595e8-7\nevent: missed\ndata: 5\n\n",
        message: Some((b"1a21de595e8-7", b"missed", b"5")),
    },
    Piece {
        bytes: b"id: 1a21de595e8-8\nevent: next\ndata: hello\ndata: \n\n",
        message: Some((b"1a21de595e8-8", b"next", b"hello\n")),
    },
    Piece {
        bytes: b":\n",
        message: None,
    },
    Piece {
        bytes: b"event: overflow\ndata: \n\n",
        message: Some((b"1a21de595e8-8", b"overflow", b"")),
    },
    Piece {
        bytes: b"id: 1a21de595e8-8-over\nevent: failed64\ndata: bm90IP8=\n\n",
        message: Some((b"1a21de595e8-8-over", b"failed64", b"bm90IP8=")),
    },
    Piece {
        bytes: b"id: 1a21de595e8-8-over\nevent: done\ndata: \n\n",
        message: Some((b"1a21de595e8-8-over", b"done", b"")),
    },
];

// Hands the table out, so that what goes over it is proved without its rows.
fn pieces_table() -> &'static [Piece] {
    PIECES
}

/// What the pieces are written from.
#[derive(Drop)]
struct Stock {
    epoch: Epoch,
    sent: Id,
    seed: Item,
    item: Item,
    error: Text,
}

impl Stock {
    fn new(heap: &Heap) -> Result<Stock, Fail> {
        let mut item = Item::new(Text::new(heap.clone()?, b"hello\r")?);
        item.place = 8;
        Ok(Stock {
            epoch: epoch_of(b"1a21de595e8")?,
            sent: Id {
                epoch: epoch_of(b"19c0")?,
                place: Some(7),
                over: false,
            },
            seed: Item::seed(Text::new(heap.clone()?, b"seed")?),
            item,
            error: Text::new(heap.clone()?, b"not \xff")?,
        })
    }

    // Writes the piece of this number.
    fn write(&self, stream: &mut Vec<u8, Heap>, piece: usize) -> Result<(), WriteFault> {
        let known = Some(8);
        let event = match piece {
            0 => return write_retry(stream, 1000),
            1 => StreamEvent::Restarted { sent: &self.sent },
            2 => StreamEvent::Joined {
                who: 4,
                known: None,
            },
            3 => StreamEvent::Next(&self.seed),
            5 => StreamEvent::Missed { count: 5, last: 7 },
            6 => StreamEvent::Next(&self.item),
            8 => StreamEvent::Overflowed,
            9 => StreamEvent::Failed {
                text: &self.error,
                known,
            },
            10 => StreamEvent::Completed { known },
            _ => return write_heartbeat(stream),
        };
        write_event(stream, &self.epoch, event)
    }

    // What is written of the piece of this number.
    fn written(&self, heap: &Heap, piece: usize) -> Result<Vec<u8, Heap>, Fail> {
        let mut stream = Vec::new(heap.clone()?);
        self.write(&mut stream, piece)?;
        Ok(stream)
    }
}

fn epoch_of(bytes: &[u8]) -> Result<Epoch, Fail> {
    match Epoch::new(bytes) {
        Some(epoch) => Ok(epoch),
        None => Err(Fail::from("no epoch")),
    }
}

#[test]
fn each_piece_as_its_bytes(rt: HostRuntime) -> Result<(), Fail> {
    let heap = Heap::unlimited(rt.alloc());
    let stock = Stock::new(&heap)?;
    for (row, piece) in pieces_table().iter().enumerate() {
        let stream = stock.written(&heap, row)?;
        expect_told(&rt, stream.as_slice(), piece.bytes, row);
    }
    Ok(())
}

// All pieces, one after another.
fn whole(heap: &Heap) -> Result<Vec<u8, Heap>, Memory> {
    let mut stream = Vec::new(heap.clone()?);
    for piece in pieces_table() {
        stream.extend_from_slice(piece.bytes)?;
    }
    Ok(stream)
}

// Whether a reader of so many bytes has the messages of the pieces that came whole, and the id of the last of them.
fn has_front(reader: &Reader, come: usize) -> bool {
    let mut read = reader.messages.iter();
    let mut last_id = SENT;
    let mut len: usize = 0;
    for piece in pieces_table() {
        len = len.saturating_add(piece.bytes.len());
        if len > come {
            break;
        }
        if let Some((id, kind, text)) = piece.message {
            last_id = id;
            match read.next() {
                Some(message) if message.says(id, kind, text) => {}
                _ => return false,
            }
        }
    }
    read.next().is_none() && reader.last_id.as_slice() == last_id
}

fn is_front(heap: &Heap, come: &[u8]) -> Result<bool, Memory> {
    let reader = read(heap, SENT, come)?;
    Ok(has_front(&reader, come.len()))
}

#[test]
fn cut_at_each_byte(rt: HostRuntime) -> Result<(), Fail> {
    let heap = Heap::unlimited(rt.alloc());
    let stream = whole(&heap)?;
    for (cut, _) in stream.iter().enumerate() {
        let (come, _) = stream.as_slice().split_at(cut);
        expect_row(&rt, is_front(&heap, come)?, cut);
    }
    expect_that(&rt, is_front(&heap, stream.as_slice())?, "whole");
    Ok(())
}

/// All pieces, each written again from its begin where a growth was refused in it.
struct Stream;

impl Refusable for Stream {
    fn run_by(&self, free: &Heap, tight: &Heap) -> Result<Seen, Fail> {
        let stock = Stock::new(free)?;
        let mut stream = Vec::new(tight.clone()?);
        let mut misses: u64 = 0;
        for (i, piece) in pieces_table().iter().enumerate() {
            let len = stream.len();
            if stock.write(&mut stream, i).is_err() {
                misses = misses.saturating_add(1);
                stream.truncate(len);
                stream.extend_from_slice(piece.bytes)?;
            }
        }
        Ok(Seen {
            is_made: true,
            misses,
            is_right: stream.as_slice() == whole(free)?.as_slice(),
        })
    }
}

#[test]
fn growths_refused_in_turn(rt: HostRuntime) -> Result<(), Fail> {
    let refusals = refuse_in_turn(&Stream, rt.alloc())?;
    expect_that(&rt, refusals.fault == "", refusals.fault);
    expect_that(&rt, refusals.missed > 0, "no growth was refused");
    Ok(())
}
