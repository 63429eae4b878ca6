// The words and pieces that forms of what is seen share.

use crate::pieces::{put, put_number};
use rx_heap::{Heap, Memory};
use rx_hub::{SubjectEnd, SubjectLook};
use rx_note::{Errors, Kind, Strategy};

pub(crate) fn kind_word(kind: &Kind) -> &'static [u8] {
    match kind {
        Kind::Publish => b"publish",
        Kind::Behavior(_) => b"behavior",
        Kind::Async => b"async",
        Kind::Replay { .. } => b"replay",
    }
}

pub(crate) fn end_word(end: SubjectEnd) -> &'static [u8] {
    match end {
        SubjectEnd::Open => b"open",
        SubjectEnd::Completed => b"completed",
        SubjectEnd::Failed => b"failed",
    }
}

pub(crate) fn errors_word(errors: Errors) -> &'static [u8] {
    match errors {
        Errors::Delay => b"DELAY",
        Errors::Ahead => b"AHEAD",
    }
}

pub(crate) fn put_strategy(page: &mut Vec<u8, Heap>, strategy: Strategy) -> Result<(), Memory> {
    match strategy {
        Strategy::Buffer => put(page, b"BUFFER"),
        Strategy::Drop(room) => put_number(page, b"DROP:", u64::from(room)),
        Strategy::Latest(room) => put_number(page, b"LATEST:", u64::from(room)),
        Strategy::Bounded(room) => put_number(page, b"BOUNDED:", u64::from(room)),
    }
}

/// How many notes wait for all its observers together.
pub(crate) fn waiting_in(look: &SubjectLook) -> u64 {
    let mut waiting = 0u64;
    for observer in &look.observers {
        waiting = waiting.saturating_add(observer.waiting as u64);
    }
    waiting
}
