ghost use Rattle.std.specs.Prelude.{◌≡◌, ◌∷◌, ◌++◌, OnOk, []};
ghost use Rattle.rx_desk.specs.Askers.{HasRoom, is_among, is_same, observers_in, without};

use crate::joined::Joined;
use rx_heap::{Heap, Memory};

/// The observers whose readers ask for their items themselves.
pub(crate) struct Askers {
    // Made once there is one.
    list: Option<Vec<Joined, Heap>>,
}

// By hand: rx_heap says why.
impl Drop for Askers {
    fn drop(self) {
        let Askers { list: _ } = self;
    }
}

impl Askers {
    /// There is none.
    pub(crate) fn new() -> Askers
        ensures { observers_in result ≡ [] }
    {
        Askers { list: None }
    }

    /// Makes room for one more, over this memory.
    pub(crate) fn make_room(&mut self, heap: &Heap) -> Result<(), Memory>
        ensures same { observers_in self.new ≡ observers_in self.old }
        ensures room { OnOk result (HasRoom self.new) }
    {
        match &mut self.list {
            Some(list) => list.try_reserve(1)?,
            None => {
                let mut list = Vec::new(heap.clone()?);
                list.try_reserve(1)?;
                self.list = Some(list);
            }
        }
        Ok(())
    }

    /// One more asks.
    pub(crate) fn add(&mut self, observer: Joined)
        requires { HasRoom self.old }
        ensures { observers_in self.new ≡ observers_in self.old ++ observer ∷ [] }
    {
        if let Some(list) = &mut self.list {
            list.push_reserved(observer);
        }
    }

    /// Whether this one asks.
    pub(crate) fn has(&self, observer: Joined) -> bool
        ensures { result ≡ is_among observer (observers_in self.now) }
    {
        match &self.list {
            Some(list) => list.iter().any(|other| is_same(&observer, other)),
            None => false,
        }
    }

    /// This one asks no more.
    pub(crate) fn remove(&mut self, observer: Joined)
        ensures { observers_in self.new ≡ without observer (observers_in self.old) }
    {
        if let Some(list) = &mut self.list {
            remove_from(list, observer);
        }
    }
}

fn remove_from(list: &mut Vec<Joined, Heap>, observer: Joined)
    ensures { list.new.items ≡ without observer list.old.items }
{
    list.retain(|other| !is_same(&observer, other));
}

fn is_same(one: &Joined, other: &Joined) -> bool
    ensures { result ≡ is_same one.now other.now }
{
    one.subject == other.subject && one.who == other.who
}
