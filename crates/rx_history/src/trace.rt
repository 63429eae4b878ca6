ghost use Rattle.std.specs.Prelude.{◌≡◌, ◌+◌, ◌≤◌, ◌++◌, if◌then◌else◌, length, map, take, drop, IfOk, OnOk, vec_len, option_to_list};
ghost use Rattle.rx_note.specs.declared.note.Note.TheVariants.{Next};
ghost use Rattle.rx_note.specs.Queues.{queued};
ghost use Rattle.rx_note.specs.Signals.{Signals, Start, ◌▸◌, Requested, Offered, Ended, are_too_many, sent, beyond_room, goes_ahead, line, given, waiting};
ghost use Rattle.rx_history.specs.Histories.{may_request, followed_by, ended_by};

use rx_heap::{Heap, Memory};
use rx_note::{Errors, Item, Note, Policy, Strategy};

/// What the events so far mean for one observer: its policy, the items of its line, how many of these were given, how
/// many items more it is owed, and the end.
pub(crate) struct Trace {
    pub(crate) strategy: Strategy,
    pub(crate) errors: Errors,
    pub(crate) items: Vec<Item, Heap>,
    pub(crate) given: usize,
    pub(crate) owed: u32,
    pub(crate) end: Option<Note>,
    pub(crate) ghost in_line: { given ≤ vec_len items },
}

// By hand: rx_heap says why.
impl Drop for Trace {
    fn drop(self) {
        let Trace {
            strategy: _,
            errors: _,
            items: _,
            given: _,
            owed: _,
            end: _,
        } = self;
    }
}

impl Trace {
    ghost use Rattle.rx_history.specs.Traces.{Traces};

    /// The trace of an observer that joins with a policy and a request of `first` items.
    pub(crate) fn joined(alloc: Heap, policy: Policy, first: u32) -> Trace
        ensures { Traces result (Start policy ▸ Requested first) }
    {
        Trace {
            strategy: policy.strategy(),
            errors: policy.errors(),
            items: Vec::new(alloc),
            given: 0,
            owed: first,
            end: None,
        }
    }

    /// Items are offered, and then the subject ends where there is an end. Once the observer has an end, nothing follows.
    pub(crate) fn follow(
        &mut self,
        offers: Vec<Item, Heap>,
        end: Option<Note>,
    ) -> Result<(), Memory>
        ensures { OnOk result ((s : Signals) → Traces self.old s → Traces self.new (followed_by s (map Offered offers.items ++ ended_by end))) }
    {
        for item in offers {
            self.offer(item)?;
        }
        if let Some(end) = end {
            self.end(end);
        }
        Ok(())
    }

    // An item is offered: it is given at once where it is owed; where it is not, it is queued by the strategy, or it
    // overflows.
    fn offer(&mut self, item: Item) -> Result<(), Memory>
        ensures { OnOk result ((s : Signals) → Traces self.old s → Traces self.new (sent s (Offered item))) }
    {
        if self.end.is_some() {
            return Ok(());
        }
        if self.owed > 0 {
            self.items.push(item)?;
            self.owed -= 1;
            self.given = self.items.len();
        } else if self.overflows() {
            let overflow = Note::overflow(self.items.allocator().clone()?)?;
            self.end(overflow);
        } else {
            queue(self.strategy, &mut self.items, self.given, item)?;
        }
        Ok(())
    }

    // Whether an item more is too many, where none is owed.
    fn overflows(&self) -> bool
        ensures { result ≡ are_too_many self.now.strategy (length (drop self.now.given self.now.items.items) + 1) }
    {
        match self.strategy {
            Strategy::Bounded(room) => self.items.len() - self.given >= usize::from(room),
            Strategy::Buffer | Strategy::Drop(_) | Strategy::Latest(_) => false,
        }
    }

    // The end comes, unless the observer has one. An error that goes ahead leaves of the items those that were given.
    fn end(&mut self, terminal: Note)
        ensures { (s : Signals) → Traces self.old s → Traces self.new (sent s (Ended terminal)) }
    {
        if self.end.is_some() {
            return;
        }
        let kept = self.kept_at(&terminal);
        self.items.truncate(kept);
        self.end = Some(terminal);
    }

    // How many items of the line are left where the end comes.
    fn kept_at(&self, terminal: &Note) -> usize
        ensures { result ≡ (if goes_ahead self.now.errors terminal.now then self.now.given else length self.now.items.items) }
    {
        if self.errors.goes_ahead(terminal) {
            self.given
        } else {
            self.items.len()
        }
    }

    /// The observer requests `n` items more. A request for none, or for more than may be owed, changes nothing.
    pub(crate) fn request(&mut self, n: u32)
        ensures { (s : Signals) → Traces self.old s → Traces self.new (if may_request n s then s ▸ Requested n else s) }
    {
        if n == 0 {
            return;
        }
        let Some(owed) = self.owed.checked_add(n) else {
            return;
        };
        let more = (self.items.len() - self.given).min(owed as usize);
        self.given += more;
        self.owed = owed - more as u32;
    }

    /// All that the observer is to be given.
    pub(crate) fn line(self) -> Result<Vec<Note, Heap>, Memory>
        ensures { IfOk result (λ notes. notes.items ≡ map Next self.items.items ++ option_to_list self.end) }
    {
        let Trace {
            strategy: _,
            errors: _,
            items,
            given: _,
            owed: _,
            end,
        } = self;
        let mut notes = Vec::new(items.allocator().clone()?);
        for item in items {
            notes.push(Note::Next(item))?;
        }
        if let Some(end) = end {
            notes.push(end)?;
        }
        Ok(notes)
    }

    /// Its line, and how many notes of it were given.
    fn parted(self) -> Result<(Vec<Note, Heap>, usize), Memory>
        ensures line { IfOk result (λ parted. (s : Signals) → Traces self s → parted.0.items ≡ line s) }
        ensures given { IfOk result (λ parted. (s : Signals) → Traces self s → parted.1 ≡ length (given s)) }
        ensures within { IfOk result (λ parted. parted.1 ≤ vec_len parted.0) }
    {
        let items = self.items.len();
        let given = self.given;
        let line = self.line()?;
        let given = if given == items { line.len() } else { given };
        Ok((line, given))
    }

    /// What the observer was given.
    pub(crate) fn given(self) -> Result<Vec<Note, Heap>, Memory>
        ensures { IfOk result (λ notes. (s : Signals) → Traces self s → notes.items ≡ given s) }
    {
        let (mut line, given) = self.parted()?;
        line.truncate(given);
        Ok(line)
    }

    /// What waits for the observer.
    pub(crate) fn waiting(self) -> Result<Vec<Note, Heap>, Memory>
        ensures { IfOk result (λ notes. (s : Signals) → Traces self s → notes.items ≡ waiting s) }
    {
        let (mut line, given) = self.parted()?;
        Ok(line.split_off(given)?)
    }
}

// Queues an item by a strategy. The first `given` items were given, and the others wait: at most as many as there is room
// for, so that with Latest one item more makes at most one too many. With Bounded there is room for it.
fn queue(
    strategy: Strategy,
    items: &mut Vec<Item, Heap>,
    given: usize,
    item: Item,
) -> Result<(), Memory>
    requires { given ≤ vec_len items.old }
    ensures queued { let waiting = drop given items.old.items in
        OnOk result (beyond_room strategy (length waiting) ≡ 0 → items.new.items ≡ take given items.old.items ++ queued strategy waiting item) }
    ensures in_line { given ≤ vec_len items.new }
{
    let waiting = items.len() - given;
    match strategy {
        Strategy::Buffer => items.push(item)?,
        Strategy::Bounded(_) => items.push(item)?,
        Strategy::Drop(room) => {
            if waiting < usize::from(room) {
                items.push(item)?;
            }
        }
        Strategy::Latest(room) => {
            items.push(item)?;
            if waiting >= usize::from(room) {
                items.remove(given);
            }
        }
    }
    Ok(())
}
