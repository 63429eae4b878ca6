//! A server that notes what exchanges ask it for.

use crate::answers::places_of;
use crate::drips::{Drips, Page};
use rx_exchange::{Emitted, EmittedLines, Exchange, Front, Joining};
use rx_heap::Heap;
use rx_http::{
    Begin, Credit, Document, Epoch, IdempotencyKey, LookForm, NoteKind, ObserverId, Refusal,
};
use rx_note::Policy;
use rx_proto::Name;
use rx_session::{SessionEnd, Turn};
use std::test::Fail;

const EPOCH: &[u8] = b"1a21de595e8";

// More turns than any row takes.
const MOST_TURNS: u32 = 10_000;

// The places of the lines that it accepts.
const PLACES: [u32; 3] = [0, 1, 2];

/// A server that has one subject, `trades`, and keeps a writer or gives it back. It notes how it was asked to have a reader join. Each
/// emission by a key it had before. Of lines it accepts the first three at most.
#[derive(Drop)]
pub(crate) struct Clerk {
    epoch: Epoch,
    well: bool,
    refuses: Option<Refusal>,
    pub(crate) asked: u32,
    pub(crate) policy: Option<Policy>,
    pub(crate) credit: Option<Credit>,
    pub(crate) begin: Option<Begin>,
    /// How many lines it accepts.
    pub(crate) accepts: usize,
    /// The note that was emitted last: its kind and its text.
    pub(crate) kind: Option<NoteKind>,
    pub(crate) text: Vec<u8, Heap>,
}

pub(crate) fn clerk_of(heap: &Heap, well: bool, refuses: Option<Refusal>) -> Result<Clerk, Fail> {
    let Some(epoch) = Epoch::new(EPOCH) else {
        return Err(Fail::from("no epoch"));
    };
    Ok(Clerk {
        epoch,
        well,
        refuses,
        asked: 0,
        policy: None,
        credit: None,
        begin: None,
        accepts: 3,
        kind: None,
        text: Vec::new(heap.clone()?),
    })
}

impl Front<Page> for Clerk {
    ghost since = { λ desk epoch. Unit {0} };

    ghost looks = { λ desk well. Unit {0} };

    ghost joins = { λ old name policy credit begin writer joining new. Unit {0} };

    ghost emits = { λ old name kind text key emitted new. Unit {0} };

    ghost emits_lines = { λ old name body told new. Unit {0} };

    ghost requests = { λ old name observer items asked new. Unit {0} };

    ghost shows = { λ old form shown new. Unit {0} };

    ghost stops = { λ old within stopped new. Unit {0} };

    fn epoch(&self) -> &Epoch {
        &self.epoch
    }

    fn is_well(&self) -> bool {
        self.well
    }

    fn join(
        &mut self,
        subject: &Name,
        policy: Policy,
        credit: Credit,
        begin: Begin,
        writer: Page,
    ) -> Joining<Page> {
        self.asked = self.asked.saturating_add(1);
        self.policy = Some(policy);
        self.credit = Some(credit);
        self.begin = Some(begin);
        if subject.as_bytes() != b"trades".as_slice() {
            return Joining::Back(Refusal::Subject, writer);
        }
        match self.refuses {
            Some(cause) => Joining::Back(cause, writer),
            None => Joining::Taken,
        }
    }

    fn emit(
        &mut self,
        subject: &Name,
        kind: NoteKind,
        text: &[u8],
        key: Option<IdempotencyKey>,
    ) -> Result<Emitted, Refusal> {
        self.asked = self.asked.saturating_add(1);
        self.kind = Some(kind);
        if self.text.extend_from_slice(text).is_err() {
            return Err(Refusal::Memory);
        }
        if subject.as_bytes() != b"trades".as_slice() {
            return Err(Refusal::Subject);
        }
        match self.refuses {
            Some(cause) => Err(cause),
            None => Ok(Emitted {
                place: place_of(kind),
                again: key.is_some(),
            }),
        }
    }

    fn emit_lines(&mut self, subject: &Name, body: &[u8]) -> EmittedLines {
        self.asked = self.asked.saturating_add(1);
        self.kind = Some(NoteKind::Next);
        if self.text.extend_from_slice(body).is_err() {
            return lines_told(0, Some(Refusal::Memory));
        }
        if subject.as_bytes() != b"trades".as_slice() {
            return lines_told(0, Some(Refusal::Subject));
        }
        lines_told(self.accepts, self.refuses)
    }

    fn request(
        &mut self,
        subject: &Name,
        _observer: ObserverId,
        _items: u32,
    ) -> Result<(), Refusal> {
        self.asked = self.asked.saturating_add(1);
        if subject.as_bytes() != b"trades".as_slice() {
            return Err(Refusal::Subject);
        }
        match self.refuses {
            Some(cause) => Err(cause),
            None => Ok(()),
        }
    }

    fn show(&mut self, form: LookForm) -> Result<Document, Refusal> {
        if let Some(cause) = self.refuses {
            return Err(cause);
        }
        let Ok(alloc) = self.text.allocator().clone() else {
            return Err(Refusal::Memory);
        };
        let body = match form {
            LookForm::Stats => b"{}\n".as_slice(),
            LookForm::Metrics => b"a 1\n".as_slice(),
            LookForm::Lines => b"s open\n".as_slice(),
            LookForm::Page => b"<p>s\n".as_slice(),
        };
        match Vec::from_slice(alloc, body) {
            Ok(bytes) => Document::new(bytes).ok_or(Refusal::Memory),
            Err(_) => Err(Refusal::Memory),
        }
    }

    fn stop(&mut self, within: u32) -> Result<(), Refusal> {
        self.asked = self.asked.saturating_add(within);
        match self.refuses {
            Some(cause) => Err(cause),
            None => Ok(()),
        }
    }
}

// So many of three lines were accepted.
fn lines_told(count: usize, refusal: Option<Refusal>) -> EmittedLines {
    EmittedLines {
        places: places_of(PLACES.get(..count).unwrap_or(&PLACES)),
        refusal,
    }
}

// The place of a note of this kind.
fn place_of(kind: NoteKind) -> Option<u32> {
    match kind {
        NoteKind::Next => Some(0),
        NoteKind::Completed | NoteKind::Failed => None,
    }
}

/// Gives the exchange its turns until it is over. How it ended, and whether the writer is back with these bytes.
pub(crate) fn answer_of(
    drips: &mut Drips<'_>,
    page: Page,
    clerk: &mut Clerk,
    max_reads: u64,
    bytes: &[u8],
) -> Result<(SessionEnd, bool), Fail> {
    let (end, back) = serve(drips, page, clerk, max_reads)?;
    Ok((end, has(&back, bytes)))
}

/// Whether a writer is back that has these bytes.
pub(crate) fn has(back: &Option<Page>, bytes: &[u8]) -> bool {
    match back {
        Some(page) => page.held.as_slice() == bytes,
        None => false,
    }
}

/// Gives the exchange its turns until it is over. How it ended, and the writer, if that is back.
pub(crate) fn serve(
    drips: &mut Drips<'_>,
    page: Page,
    clerk: &mut Clerk,
    max_reads: u64,
) -> Result<(SessionEnd, Option<Page>), Fail> {
    let mut exchange = Exchange::new(max_reads);
    let mut writer = page;
    for _ in 0..MOST_TURNS {
        match exchange.turn(drips, writer, clerk) {
            Turn::Again(back) | Turn::Waits(back) | Turn::Stuck(back) => writer = back,
            Turn::Over(end, back) => return Ok((end, back)),
        }
    }
    Err(Fail::from("turns without an end"))
}
