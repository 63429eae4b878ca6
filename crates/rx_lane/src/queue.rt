// `Lane` keeps a queue of its own under each strategy, beside `TapeLane`: under Drop and Bounded a hub runs it, and it is a
// ring there; under Buffer and Latest it is the plain form, to hold the shared one against. As a tape and its `TapeLane` it
// would lose two arms in each of the six calls of `Queue`, some 20 lines, since Drop and Bounded need the rest; and would
// gain an arm in each of its nine calls, a `reserve` of the tape that its contracts can see, and copies where it moves items
// today.
//
// The variant of a queue is its strategy, and the capacity of a ring its room, so that no field can disagree with them. Drop
// with no room has a variant of its own and keeps no ring. A ring has all its memory from the beginning; Buffer grows by what
// `reserve` asks.
ghost use Rattle.std.specs.Prelude.{◌≡◌, ◌<◌, ◌≤◌, ◌+◌, ◌^◌, [], true, false, length, drop, slice_get, IfOk, OnOk, OnErr};
ghost use Rattle.rx_note.specs.Choices.{is_in_limits};
ghost use Rattle.rx_note.specs.Queues.{queued};
ghost use Rattle.rx_note.specs.declared.strategy.Strategy.TheVariants.{Buffer};
ghost use Rattle.rx_lane.specs.Queues.{NeedsNoMemory, is_full, overfills, items_of, strategy_of, spare_of};

use circular_buffer::HeapCircularBuffer;
use rx_heap::{Heap, Memory};
use rx_note::{Item, Strategy};
use std::collections::VecDeque;

/// The items that wait. A ring has all its memory from the beginning, and its capacity is the room.
#[derive(Drop)]
pub(crate) enum Queue {
    /// All of them.
    Growing(VecDeque<Item, Heap>),
    /// None, where there is no room.
    Empty,
    /// Those for which there was room.
    Dropping(HeapCircularBuffer<Item, Heap>),
    /// The latest ones for which there is room.
    Replacing(HeapCircularBuffer<Item, Heap>),
    /// All of them, for which there always was room: one for which there is none ends the queue.
    Bounding(HeapCircularBuffer<Item, Heap>),
}

impl Queue {
    /// An empty queue by this strategy.
    pub(crate) fn new(alloc: Heap, strategy: Strategy) -> Result<Queue, Memory>
        ensures { IfOk result (λ queue. (strategy_of queue ≡ strategy) × (items_of queue ≡ [])) }
    {
        match strategy {
            Strategy::Buffer => Ok(Queue::Growing(VecDeque::new(alloc))),
            Strategy::Drop(0) => Ok(Queue::Empty),
            Strategy::Drop(room) => {
                let ring = HeapCircularBuffer::with_capacity(alloc, room as usize)?;
                Ok(Queue::Dropping(ring))
            }
            Strategy::Latest(room) => {
                let ring = HeapCircularBuffer::with_capacity(alloc, room as usize)?;
                Ok(Queue::Replacing(ring))
            }
            Strategy::Bounded(room) => {
                let ring = HeapCircularBuffer::with_capacity(alloc, room as usize)?;
                Ok(Queue::Bounding(ring))
            }
        }
    }

    /// Its strategy.
    pub(crate) fn strategy(&self) -> Strategy
        requires { is_in_limits (strategy_of self.now) ≡ true }
        ensures { result ≡ strategy_of self.now }
    {
        match self {
            Queue::Growing(_) => Strategy::Buffer,
            Queue::Empty => Strategy::Drop(0),
            Queue::Dropping(ring) => Strategy::Drop(ring.capacity() as u16),
            Queue::Replacing(ring) => Strategy::Latest(ring.capacity() as u16),
            Queue::Bounding(ring) => Strategy::Bounded(ring.capacity() as u16),
        }
    }

    /// How many items wait.
    pub(crate) fn len(&self) -> usize
        ensures len { result ≡ length (items_of self.now) }
        ensures within { result < 2 ^ 63 }
    {
        match self {
            Queue::Growing(items) => items.len(),
            Queue::Empty => 0,
            Queue::Dropping(ring) => ring.len(),
            Queue::Replacing(ring) => ring.len(),
            Queue::Bounding(ring) => ring.len(),
        }
    }

    /// How many bytes the texts have that wait, in a step for each. Nothing is promised of it.
    pub(crate) fn bytes(&self) -> u64 {
        let mut bytes: u64 = 0;
        for place in 0..self.len() {
            if let Some(item) = self.at(place) {
                bytes = bytes.saturating_add(item.text.as_bytes().len() as u64);
            }
        }
        bytes
    }

    // The item of this place, from the one that has waited longest on.
    fn at(&self, place: usize) -> Option<&Item> {
        match self {
            Queue::Growing(items) => items.get(place),
            Queue::Empty => None,
            Queue::Dropping(ring) => ring.get(place),
            Queue::Replacing(ring) => ring.get(place),
            Queue::Bounding(ring) => ring.get(place),
        }
    }

    /// Whether it loses what comes, and its room is full.
    pub(crate) fn is_full(&self) -> bool
        ensures { result ≡ is_full (strategy_of self.now) (length (items_of self.now)) }
    {
        match self {
            Queue::Growing(_) | Queue::Replacing(_) | Queue::Bounding(_) => false,
            Queue::Empty => true,
            Queue::Dropping(ring) => ring.len() >= ring.capacity(),
        }
    }

    /// Whether what comes has no room and ends it.
    pub(crate) fn overflows(&self) -> bool
        ensures { result ≡ overfills (strategy_of self.now) (length (items_of self.now)) }
    {
        match self {
            Queue::Bounding(ring) => ring.len() >= ring.capacity(),
            _ => false,
        }
    }

    /// Makes room for `count` items more.
    pub(crate) fn reserve(&mut self, count: usize) -> Result<(), Memory>
        ensures items { items_of self.new ≡ items_of self.old }
        ensures strategy { strategy_of self.new ≡ strategy_of self.old }
        ensures room { OnOk result (NeedsNoMemory (strategy_of self.new) count (spare_of self.new)) }
        ensures spare { spare_of self.old ≤ spare_of self.new }
        ensures refused { OnErr result ((strategy_of self.old ≡ Buffer) × (spare_of self.old < count)) }
    {
        if let Queue::Growing(items) = self {
            items.reserve(count)?;
        }
        Ok(())
    }

    /// Queues an item by the strategy.
    pub(crate) fn push(&mut self, item: Item)
        requires room { NeedsNoMemory (strategy_of self.old) 1 (spare_of self.old) }
        requires fits { overfills (strategy_of self.old) (length (items_of self.old)) ≡ false }
        ensures items { items_of self.new ≡ queued (strategy_of self.old) (items_of self.old) item }
        ensures strategy { strategy_of self.new ≡ strategy_of self.old }
        ensures spare { spare_of self.old ≤ spare_of self.new + 1 }
    {
        match self {
            Queue::Growing(items) => items.push_back_reserved(item),
            Queue::Empty => {}
            Queue::Dropping(ring) => drop(ring.try_push_back(item)),
            Queue::Bounding(ring) => drop(ring.try_push_back(item)),
            Queue::Replacing(ring) => {
                ring.push_back(item);
            }
        }
    }

    /// Discards the items, and keeps their room.
    pub(crate) fn clear(&mut self)
        ensures items { items_of self.new ≡ [] }
        ensures strategy { strategy_of self.new ≡ strategy_of self.old }
        ensures spare { spare_of self.old ≤ spare_of self.new }
    {
        match self {
            Queue::Growing(items) => items.clear(),
            Queue::Empty => {}
            Queue::Dropping(ring) => ring.clear(),
            Queue::Replacing(ring) => ring.clear(),
            Queue::Bounding(ring) => ring.clear(),
        }
    }

    /// Takes the item that has waited longest.
    pub(crate) fn pop(&mut self) -> Option<Item>
        ensures value { result ≡ slice_get (items_of self.old) 0 }
        ensures items { items_of self.new ≡ drop 1 (items_of self.old) }
        ensures strategy { strategy_of self.new ≡ strategy_of self.old }
        ensures spare { spare_of self.old ≤ spare_of self.new }
    {
        match self {
            Queue::Growing(items) => items.pop_front(),
            Queue::Empty => None,
            Queue::Dropping(ring) => ring.pop_front(),
            Queue::Replacing(ring) => ring.pop_front(),
            Queue::Bounding(ring) => ring.pop_front(),
        }
    }
}
