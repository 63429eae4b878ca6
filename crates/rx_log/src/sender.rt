ghost use Rattle.std.specs.Prelude.{◌≡◌, ◌+◌, ◌++◌, ◌∷◌, [], None, true, nat_le, length, slice_get, option_map, IfOk, OnOk, OnErr, IfSome, if◌then◌else◌};
ghost use Rattle.rx_log.specs.declared.call.Call.{Call};

use crate::call::Call;
use crate::pace::Pace;
use crate::stage::Stage;
use crate::{Entry, Holder, Standing, Total};
use rx_heap::{Heap, Memory};
use std::collections::VecDeque;
use std::marker::Model;

/// What a machine appends, and which of its calls wait for their answer. It does not know the log.
#[derive(Drop)]
pub(crate) struct Sender {
    holder: Holder,
    pace: Pace,
    stage: Stage,
    // Oldest first.
    waiting: VecDeque<Call, Heap>,
    // Its own tenure, behind which it appends, how many notes counted there, and how many of those that wait it appended.
    tenure: Option<u64>,
    counted: u64,
    sent: u64,
    // Whether it is to append a tenure.
    asks: bool,
    // Whether a tenure of its own counted.
    has_opened: bool,
    // The moment, and when something of its own was last appended or read.
    moment: u64,
    since: u64,
}

impl Model for Sender {
    ghost use Rattle.rx_log.specs.Senders.{SenderState};

    ghost Value = { SenderState };

    ghost view = { λ s. record { holder = s.holder; pace = s.pace; stage = s.stage; waiting = s.waiting.items; tenure = s.tenure; counted = s.counted; sent = s.sent; asks = s.asks; has_opened = s.has_opened; moment = s.moment; since = s.since } };
}

impl Sender {
    ghost use Rattle.rx_log.specs.Senders.{due, tenure_due, own_due, handed_on, asking, connected_at, gone_at, caught_up_at, ticked_at, opened, replaced, answered, is_missed, is_late, told, heard};

    /// No call waits, and nothing is appended yet.
    pub(crate) fn new(alloc: Heap, holder: Holder, pace: Pace) -> Sender
        ensures holder { result.holder ≡ holder }
        ensures waiting { result.waiting ≡ [] }
        ensures tenure { result.tenure ≡ None }
    {
        Sender {
            holder,
            pace,
            stage: Stage::Catching,
            waiting: VecDeque::new(alloc),
            tenure: None,
            counted: 0,
            sent: 0,
            asks: false,
            has_opened: false,
            moment: 0,
            since: 0,
        }
    }

    pub(crate) fn stage(&self) -> Stage
        ensures { result ≡ self.now.stage }
    {
        self.stage
    }

    /// Whether as many calls wait as may.
    pub(crate) fn is_full(&self) -> bool
        ensures { result ≡ nat_le self.now.pace.most (length self.now.waiting) }
    {
        self.waiting.len() as u64 >= self.pace.most
    }

    /// One call more waits. `Memory` leaves the sender.
    pub(crate) fn call(&mut self, call: Call) -> Result<(), Memory>
        ensures ok { OnOk result (self.new ≡ record self.old { waiting = self.old.waiting ++ call ∷ [] }) }
        ensures err { OnErr result (self.new ≡ self.old) }
    {
        self.waiting.push_back(call)?;
        Ok(())
    }

    /// What is to be appended next, if anything is: it counts as appended then. `Memory` leaves the sender.
    pub(crate) fn append(&mut self, at: u64, total: Option<Total>) -> Result<Option<Entry>, Memory>
        ensures ok { IfOk result (λ entry. (entry ≡ due self.old at total) × (self.new ≡ handed_on self.old entry)) }
        ensures err { OnErr result (self.new ≡ self.old) }
    {
        if self.stage != Stage::Up {
            return Ok(None);
        }
        if self.asks {
            return Ok(self.append_tenure(at, total));
        }
        self.append_own()
    }

    // A tenure, where it is known what the log comes to.
    fn append_tenure(&mut self, at: u64, total: Option<Total>) -> Option<Entry>
        requires { self.old.asks ≡ true }
        ensures due { result ≡ tenure_due self.old at total }
        ensures handed { self.new ≡ handed_on self.old result }
    {
        let total = total?;
        self.asks = false;
        self.since = self.moment;
        Some(Entry::Tenure {
            holder: self.holder,
            base: at,
            total,
        })
    }

    // The next call that waits, behind the tenure.
    fn append_own(&mut self) -> Result<Option<Entry>, Memory>
        ensures ok { IfOk result (λ entry. (entry ≡ own_due self.old self.old.tenure) × (self.new ≡ handed_on self.old entry)) }
        ensures err { OnErr result (self.new ≡ self.old) }
    {
        let Some(tenure) = self.tenure else {
            return Ok(None);
        };
        if self.sent >= self.pace.window {
            return Ok(None);
        }
        let Some(call) = self.waiting.get(self.sent as usize) else {
            return Ok(None);
        };
        let Some(number) = next_number(self.counted, self.sent) else {
            return Err(Memory);
        };
        let note = call.note.copy()?;
        self.sent += 1;
        Ok(Some(Entry::Own {
            tenure,
            number,
            note,
        }))
    }

    /// Its connection came: it begins anew.
    pub(crate) fn connected(&mut self)
        ensures { self.new ≡ connected_at self.old self.old.stage }
    {
        match self.stage {
            Stage::Up | Stage::Away => {
                self.stage = Stage::Up;
                self.ask();
            }
            Stage::Catching | Stage::Replaced => {}
        }
    }

    /// Its connection broke.
    pub(crate) fn disconnected(&mut self)
        ensures { self.new ≡ gone_at self.old self.old.stage }
    {
        if self.stage == Stage::Up {
            self.stage = Stage::Away;
            self.tenure = None;
            self.sent = 0;
        }
    }

    /// It has read as far as the log went when it began.
    pub(crate) fn caught_up(&mut self)
        ensures { self.new ≡ caught_up_at self.old self.old.stage }
    {
        if self.stage == Stage::Catching {
            self.stage = Stage::Up;
            self.ask();
        }
    }

    /// A moment passed, in milliseconds.
    pub(crate) fn tick(&mut self, moment: u64)
        ensures { self.new ≡ ticked_at (record self.old { moment = moment }) self.old.stage }
    {
        self.moment = moment;
        let waits = moment.saturating_sub(self.since);
        if self.stage == Stage::Up
            && waits >= self.pace.patience
            && (self.tenure.is_none() || self.sent > 0)
        {
            self.ask();
        }
    }

    /// An entry was read at a place, and stands so. It answers the oldest call where it is its own and counts.
    pub(crate) fn hear(&mut self, place: u64, entry: &Entry, standing: Standing) -> Option<u64>
        ensures answers { result ≡ told self.old entry.now standing }
        ensures left { self.new ≡ heard self.old place entry.now standing }
    {
        match (entry, standing) {
            (Entry::Tenure { holder, .. }, Standing::Opens) if holder.node == self.holder.node => {
                self.opened(holder.run, place);
                None
            }
            (Entry::Own { number, .. }, Standing::Counts { by, .. }) if by == Some(self.holder) => {
                self.answered(*number)
            }
            (Entry::Own { tenure, number, .. }, Standing::Void) => {
                self.missed(*tenure, *number);
                None
            }
            _ => None,
        }
    }

    // A tenure of its node counts at a place.
    fn opened(&mut self, run: u64, place: u64)
        ensures own { run ≡ self.old.holder.run → self.new ≡ opened self.old place }
        ensures other { (run ≡ self.old.holder.run → ⊥) → self.new ≡ replaced self.old }
    {
        if run == self.holder.run {
            self.tenure = Some(place);
            self.counted = 0;
            self.sent = 0;
            self.asks = false;
            self.has_opened = true;
            self.since = self.moment;
        } else {
            self.replaced();
        }
    }

    // A tenure of another run of its node counts.
    fn replaced(&mut self)
        ensures { self.new ≡ replaced self.old }
    {
        if !self.has_opened {
            self.ask();
            return;
        }
        self.tenure = None;
        self.sent = 0;
        if self.stage != Stage::Catching {
            self.stage = Stage::Replaced;
        }
    }

    // A note of its own counts under this number. It answers the oldest call.
    fn answered(&mut self, number: u64) -> Option<u64>
        ensures answers { result ≡ option_map (λ (call : Call). call.ticket) (slice_get self.old.waiting 0) }
        ensures left { self.new ≡ answered self.old number }
    {
        self.counted = number;
        self.sent = self.sent.saturating_sub(1);
        self.since = self.moment;
        let Call { ticket, note: _ } = self.waiting.pop_front()?;
        Some(ticket)
    }

    // A note does not count: it begins anew where one before it is lost.
    fn missed(&mut self, tenure: u64, number: u64)
        ensures { self.new ≡ (if is_missed self.old self.old.tenure tenure number then asking self.old else self.old) }
    {
        if self.tenure == Some(tenure) && number > 0 && number - 1 > self.counted {
            self.ask();
        }
    }

    /// It has read up to a place: it begins anew where its tenure stands half a span behind.
    pub(crate) fn reached(&mut self, place: u64, span: u64)
        ensures { self.new ≡ (if is_late span place self.old.tenure then asking self.old else self.old) }
    {
        if let Some(tenure) = self.tenure {
            if place.saturating_sub(tenure) > span / 2 {
                self.ask();
            }
        }
    }

    // It begins anew.
    fn ask(&mut self)
        ensures { self.new ≡ asking self.old }
    {
        self.tenure = None;
        self.sent = 0;
        self.asks = true;
        self.since = self.moment;
    }
}

// The number of the note behind those that counted and were appended; None where no number is as large.
fn next_number(counted: u64, sent: u64) -> Option<u64>
    ensures { IfSome result (λ number. number ≡ counted + sent + 1) }
{
    counted.checked_add(sent)?.checked_add(1)
}
