ghost use Rattle.std.specs.Prelude.{◌≡◌, ℕ, List, [], true, IfOk, OnOk, vec_len};
ghost use Rattle.rx_note.specs.declared.event.Event.TheVariants.{Emit, Join};
ghost use Rattle.rx_history.specs.Histories.{History, NoEvents, ◌▹◌, Stamped, may_join, end_of, has_room, item_count, accepts, items as items_of, item_in, terminal_in, unstamped, newest, seed_item, or_else, is_young, young, at_most, age_moment, last_item, opening_by, offers_by};

use rx_heap::{Heap, Memory};
use rx_note::{Event, Item, Kind, Limits, Note, Policy, Rules, Text};

/// An item and the moment at its place, in milliseconds.
pub(crate) type Stamped = (Item, u64);

/// What a subject remembers of its past for the observers that join later: its end, the moment in milliseconds at which
/// the ages of its items are told, and its items. The moment stands still once the subject has ended.
pub(crate) struct Past {
    pub(crate) end: Option<Note>,
    pub(crate) moment: u64,
    pub(crate) items: Vec<Stamped, Heap>,
}

// By hand: rx_heap says why.
impl Drop for Past {
    fn drop(self) {
        let Past {
            end: _,
            moment: _,
            items: _,
        } = self;
    }
}

impl Past {
    ghost use Rattle.rx_history.specs.Pasts.{Remembers};

    /// The past before the first event.
    pub(crate) fn new(alloc: Heap) -> Past
        ensures { (rules : Rules) → Remembers rules result NoEvents }
    {
        Past {
            end: None,
            moment: 0,
            items: Vec::new(alloc),
        }
    }

    /// Whether a note is accepted.
    pub(crate) fn accepts(&self, limits: &Limits, note: &Note) -> bool
        ensures { (rules : Rules) (H : History) → rules.limits ≡ limits.now → Remembers rules self.now H → result ≡ accepts rules H note.now }
    {
        self.end.is_none() && has_room(limits, self.items.len(), note)
    }

    /// A note is accepted from a port at a moment.
    pub(crate) fn emit(
        &mut self,
        limits: &Limits,
        port: u32,
        note: &Note,
        at: u64,
    ) -> Result<(), Memory>
        ensures { OnOk result ((rules : Rules) (H : History) → rules.limits ≡ limits.now → accepts rules H note.now ≡ true → Remembers rules self.old H
            → Remembers rules self.new (H ▹ (port, Emit note.now at))) }
    {
        let place = self.place(limits);
        self.moment = self.moment.max(at);
        for item in self.item_in(port, place, note)? {
            self.items.push((item, self.moment))?;
        }
        self.end = terminal_in(note)?;
        Ok(())
    }

    /// A Join is accepted at a moment.
    pub(crate) fn join(&mut self, at: u64)
        ensures { (rules : Rules) (H : History) (port : ℕ) (policy : Policy) (first : ℕ) → may_join rules H ≡ true
            → Remembers rules self.old H → Remembers rules self.new (H ▹ (port, Join policy first at)) }
    {
        if self.end.is_none() {
            self.moment = self.moment.max(at);
        }
    }

    /// The items that an accepted note from a port offers to every observer.
    pub(crate) fn offers(
        &self,
        rules: &Rules,
        port: u32,
        note: &Note,
    ) -> Result<Vec<Item, Heap>, Memory>
        ensures { IfOk result (λ offers. (H : History) → Remembers rules.now self.now H
            → offers.items ≡ offers_by rules.now.kind (last_item rules.now H) port (item_count rules.now H) note.now) }
    {
        match &rules.kind {
            Kind::Publish | Kind::Behavior(_) | Kind::Replay { .. } => {
                self.item_in(port, self.place(&rules.limits), note)
            }
            Kind::Async if matches!(note, Note::Completed) => self.last(),
            Kind::Async => self.no_items(),
        }
    }

    /// The items that are offered at once to an observer that joins now.
    pub(crate) fn opening(&self, kind: &Kind) -> Result<Vec<Item, Heap>, Memory>
        ensures { IfOk result (λ offers. (rules : Rules) (H : History) (z : ℕ) → self.now.end ≡ end_of H
            → self.now.items.items ≡ items_of rules H → self.now.moment ≡ age_moment rules H z
            → offers.items ≡ opening_by kind.now rules H z) }
    {
        match (kind, &self.end) {
            (Kind::Behavior(seed), None) => self.last_or(seed),
            (Kind::Async, Some(Note::Completed)) => self.last(),
            (Kind::Replay { count, age }, _) => at_most(*count, self.young(*age)?),
            (Kind::Publish | Kind::Behavior(_) | Kind::Async, _) => self.no_items(),
        }
    }

    // No items. It takes no memory.
    fn no_items(&self) -> Result<Vec<Item, Heap>, Memory>
        ensures { IfOk result (λ items. items.items ≡ []) }
    {
        Ok(Vec::new(self.items.allocator().clone()?))
    }

    // The place of the next item: how many there are, which is never more than the limit.
    fn place(&self, limits: &Limits) -> u32
        ensures { (rules : Rules) (H : History) → rules.limits ≡ limits.now → Remembers rules self.now H → result ≡ item_count rules H }
    {
        self.items.len().min(limits.items as usize) as u32
    }

    // The item of a note, if it is one, as sent from a port at a place.
    fn item_in(&self, port: u32, place: u32, note: &Note) -> Result<Vec<Item, Heap>, Memory>
        ensures { IfOk result (λ items. items.items ≡ item_in port place note.now) }
    {
        let mut items = self.no_items()?;
        if let Note::Next(item) = note {
            let text = item.text.copy()?;
            items.push(Item {
                from: port,
                place,
                text,
            })?;
        }
        Ok(items)
    }

    // The seed as an item, if there is one.
    fn seed_item(&self, seed: &Option<Text>) -> Result<Vec<Item, Heap>, Memory>
        ensures { IfOk result (λ items. items.items ≡ seed_item seed.now) }
    {
        let mut items = self.no_items()?;
        if let Some(text) = seed {
            items.push(Item::seed(text.copy()?))?;
        }
        Ok(items)
    }

    // The last item, if there is one.
    fn last(&self) -> Result<Vec<Item, Heap>, Memory>
        ensures { IfOk result (λ items. items.items ≡ unstamped (newest 1 self.now.items.items)) }
    {
        let mut items = self.no_items()?;
        if let Some(stamped) = self.items.last() {
            items.push(stamped.0.copy()?)?;
        }
        Ok(items)
    }

    // The last item, else the seed.
    fn last_or(&self, seed: &Option<Text>) -> Result<Vec<Item, Heap>, Memory>
        ensures { IfOk result (λ items. items.items ≡ or_else (unstamped (newest 1 self.now.items.items)) (seed_item seed.now)) }
    {
        let last = self.last()?;
        if last.is_empty() {
            self.seed_item(seed)
        } else {
            Ok(last)
        }
    }

    // The items whose age is below a bound.
    fn young(&self, bound: Option<u64>) -> Result<Vec<Item, Heap>, Memory>
        ensures { IfOk result (λ items. items.items ≡ unstamped (young bound self.now.moment self.now.items.items)) }
    {
        let mut items = self.no_items()?;
        for stamped in &self.items {
            if is_young(bound, self.moment.saturating_sub(stamped.1)) {
                items.push(stamped.0.copy()?)?;
            }
        }
        Ok(items)
    }
}

// Whether a note finds room where so many items were accepted before it; terminals are not limited.
fn has_room(limits: &Limits, count: usize, note: &Note) -> bool
    ensures { result ≡ has_room limits.now count note.now }
{
    match note {
        Note::Next(_) => count < limits.items as usize,
        Note::Completed | Note::Failed(_) => true,
    }
}

// Whether an age is below a bound; without a bound every age is.
fn is_young(bound: Option<u64>, age: u64) -> bool
    ensures { result ≡ is_young bound age }
{
    match bound {
        Some(bound) => age < bound,
        None => true,
    }
}

// The last `count` of several items; without a count all of them.
fn at_most(count: Option<u16>, items: Vec<Item, Heap>) -> Result<Vec<Item, Heap>, Memory>
    ensures { IfOk result (λ kept. (stamped : List Stamped) → items.items ≡ unstamped stamped
        → kept.items ≡ unstamped (at_most count stamped)) }
{
    let Some(count) = count else {
        return Ok(items);
    };
    let mut items = items;
    let older = items.len().saturating_sub(usize::from(count));
    Ok(items.split_off(older)?)
}

/// The terminal of a note, if it is one.
pub(crate) fn terminal_in(note: &Note) -> Result<Option<Note>, Memory>
    ensures { IfOk result (λ end. end ≡ terminal_in note.now) }
{
    match note {
        Note::Next(_) => Ok(None),
        terminal => Ok(Some(terminal.copy()?)),
    }
}
