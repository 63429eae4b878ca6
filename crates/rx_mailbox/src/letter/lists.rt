ghost use Rattle.std.specs.Prelude.{◌≡◌, ◌≤◌, [], IfSome};

use rx_heap::{Heap, Memory, give_back};
use std::collections::VecDeque;
use std::sync::{Arc, Mutex, Wait};

/// How many bodies a list has room for at first. So many go together while their inbox looks for them.
pub(crate) const LENGTH: usize = 32;

/// How many bodies go together where their port may let its list grow and the inbox sleeps: it puts them then, if there is room.
pub(crate) const MOST_TOGETHER: usize = 128;

// How many lists a box has at most.
const MOST: usize = 64;

// Of each port one list is filled, one stands in the box, and one is in the inbox's hand.
const FOR_EACH_PORT: usize = 3;

/// The lists of a box in which its ports hold bodies back. Its inbox empties them and they come back here, so that a batch takes
/// no memory.
#[derive(Drop)]
pub(crate) struct Lists<B: Drop> {
    spare: Mutex<Vec<VecDeque<B, Heap>, Heap>>,
}

pub(crate) type SharedLists<B> = Arc<Lists<B>, Heap>;

impl<B: Drop> Lists<B> {
    /// Those of a box for so many letters, with so many ports: a list for four letters and three for each port, but no more than 64.
    pub(crate) fn shared(
        alloc: Heap,
        capacity: usize,
        ports: usize,
    ) -> Result<SharedLists<B>, Memory>
        requires { ports ≤ 256 }
    {
        let count = MOST.min(capacity / 4 + FOR_EACH_PORT * ports);
        let mut spare = Vec::with_capacity(alloc.clone()?, count)?;
        for _ in 0..count {
            spare.push(VecDeque::with_capacity(alloc.clone()?, LENGTH)?)?;
        }
        let lists = Lists {
            spare: Mutex::new(spare),
        };
        Ok(Arc::new(alloc, lists)?)
    }

    /// An empty list, if one is left.
    pub(crate) fn take<R: Wait>(&self, rt: &R) -> Option<VecDeque<B, Heap>>
        ensures { IfSome result (λ list. list.items ≡ []) }
    {
        let mut list = self.spare.lock(rt).pop()?;
        list.clear();
        Some(list)
    }

    /// Keeps an empty list for later, where there is room for it and it has the room that a list has. One that grew for want of room
    /// in the box gives that back first. None is lost by that: a box that had no list left would put each letter alone.
    pub(crate) fn keep<R: Wait>(&self, rt: &R, list: VecDeque<B, Heap>) {
        let mut list = list;
        list.clear();
        if list.capacity() < LENGTH {
            return;
        }
        if list.capacity() > MOST_TOGETHER {
            give_back(&mut list);
        }
        let mut spare = self.spare.lock(rt);
        if spare.len() < spare.capacity() {
            spare.push_reserved(list);
        }
    }
}
