ghost use Rattle.std.specs.Prelude.{◌≡◌, [], OnOk, Some, position};
ghost use Rattle.std.specs.Option.{ForSome};
ghost use Rattle.rx_desk.specs.KeptAnswers.{IsMade, answer_at, is_of, kept_for, kept_with, listed};

use crate::kept_answer::KeptAnswer;
use circular_buffer::HeapCircularBuffer;
use rx_heap::{Heap, Memory};
use rx_http::IdempotencyKey;

// How many are remembered. They take some 100 KB.
const MOST: usize = 1_024;

/// What the last emissions by a key were answered.
pub(crate) struct KeptAnswers {
    // Made once there is one.
    ring: Option<HeapCircularBuffer<KeptAnswer, Heap>>,
    ghost most: { ForSome ring (λ ring. ring.capacity ≡ 1024) },
}

// By hand: rx_heap says why.
impl Drop for KeptAnswers {
    fn drop(self) {
        let KeptAnswers { ring: _ } = self;
    }
}

impl KeptAnswers {
    /// There is none.
    pub(crate) fn new() -> KeptAnswers
        ensures { listed result.ring ≡ [] }
    {
        KeptAnswers { ring: None }
    }

    /// Makes room, over this memory.
    pub(crate) fn make_room(&mut self, heap: &Heap) -> Result<(), Memory>
        ensures same { listed self.new.ring ≡ listed self.old.ring }
        ensures room { OnOk result (IsMade self.new.ring) }
    {
        if self.ring.is_none() {
            self.ring = Some(HeapCircularBuffer::with_capacity(heap.clone()?, MOST)?);
        }
        Ok(())
    }

    /// What the emission by this key at the subject at this place was answered, if that is remembered.
    pub(crate) fn find(&self, subject: usize, key: &IdempotencyKey) -> Option<Option<u32>>
        ensures { result ≡ kept_for subject key.now (listed self.now.ring) }
    {
        match &self.ring {
            Some(ring) => found_in(ring, subject, key),
            None => None,
        }
    }

    /// One more is remembered; of too many the oldest is forgotten.
    pub(crate) fn keep(&mut self, kept: KeptAnswer)
        requires { IsMade self.old.ring }
        ensures { listed self.new.ring ≡ kept_with (listed self.old.ring) kept }
    {
        if let Some(ring) = &mut self.ring {
            ring.push_back(kept);
        }
    }
}

fn found_in(
    ring: &HeapCircularBuffer<KeptAnswer, Heap>,
    subject: usize,
    key: &IdempotencyKey,
) -> Option<Option<u32>>
    ensures { result ≡ kept_for subject key.now ring.now.items }
{
    match position_in(ring, subject, key) {
        Some(at) => place_at(ring, at),
        None => None,
    }
}

// Which of them is of that emission.
fn position_in(
    ring: &HeapCircularBuffer<KeptAnswer, Heap>,
    subject: usize,
    key: &IdempotencyKey,
) -> Option<usize>
    ensures { result ≡ position (is_of subject key.now) ring.now.items }
{
    ring.iter().position(|kept| is_of(kept, subject, key))
}

// The place in this one.
fn place_at(ring: &HeapCircularBuffer<KeptAnswer, Heap>, at: usize) -> Option<Option<u32>>
    ensures { result ≡ answer_at ring.now.items (Some at) }
{
    match ring.get(at) {
        Some(kept) => Some(kept.place),
        None => None,
    }
}

fn is_of(kept: &KeptAnswer, subject: usize, key: &IdempotencyKey) -> bool
    ensures { result ≡ is_of subject key.now kept.now }
{
    kept.subject == subject && kept.key == *key
}
