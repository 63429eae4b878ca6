// Boxes of one kind.
ghost use Rattle.std.specs.Prelude.{◌≡◌, ◌<◌, ◌≤◌, ◌++◌, [], ◌∷◌, IfErr, IfOk, OnOk, List, vec_len, vec_capacity};
ghost use Rattle.std.specs.Vec.Iter.{into_iter_items};
ghost use Rattle.rx_mailbox.specs.Boxes.{Box, capacity_of, incoming};
ghost use Rattle.rx_mailbox.specs.Sizes.{IsSize};
ghost use Rattle.rx_server.specs.Starting.{NoMemoryBelow, NoMemoryFor};
ghost use Rattle.rx_server.specs.Wirings.{AreOpened, whole_row};

use crate::wired::port_row::PortRow;
use crate::wired::start_fault::{Role, StartFault};
use rx_heap::{Heap, Memory, room};
use rx_mailbox::{Inbox, open};
use std::vec::IntoIter;

// The inboxes of some boxes, of which one after another is taken, and their ports.
#[derive(Drop)]
pub(crate) struct Opened<B: Drop> {
    pub(crate) inboxes: IntoIter<Inbox<B>, Heap>,
    pub(crate) rows: Vec<PortRow<B>, Heap>,
}

// Opens so many boxes, each of this capacity and with this number of senders, for the threads of a role. `Err` at the first for
// which there was no memory.
pub(crate) fn open_all<B: Drop>(
    alloc: &Heap,
    role: Role,
    count: usize,
    capacity: usize,
    senders: u32,
) -> Result<Opened<B>, StartFault>
    requires size { IsSize capacity senders }
    requires some { 0 < count }
    ensures opened { IfOk result (λ opened. (boxes : List (Box B)) × AreOpened count capacity senders boxes (into_iter_items opened.inboxes) opened.rows.items) }
    ensures fault { IfErr result (NoMemoryBelow role count) }
{
    let Ok(mut opening) = Opening::new(alloc, count) else {
        return Err(StartFault::memory(role, 0));
    };
    for _ in 0..count {
        open_one(alloc, role, capacity, senders, &mut opening)?;
    }
    Ok(opening.opened())
}

// The boxes that were opened so far.
#[derive(Drop)]
struct Opening<B: Drop> {
    inboxes: Vec<Inbox<B>, Heap>,
    rows: Vec<PortRow<B>, Heap>,
}

impl<B: Drop> Opening<B> {
    // None yet, and room for so many.
    fn new(alloc: &Heap, count: usize) -> Result<Opening<B>, Memory>
        ensures none { IfOk result (λ opening. opening.inboxes.items ≡ []) }
        ensures no_row { IfOk result (λ opening. opening.rows.items ≡ []) }
        ensures room { IfOk result (λ opening. (count ≤ vec_capacity opening.inboxes) × (count ≤ vec_capacity opening.rows)) }
    {
        let inboxes = room(alloc, count)?;
        let rows = room(alloc, count)?;
        Ok(Opening { inboxes, rows })
    }

    fn opened(self) -> Opened<B>
        ensures inboxes { into_iter_items result.inboxes ≡ self.inboxes.items }
        ensures rows { result.rows.items ≡ self.rows.items }
    {
        let Opening { inboxes, rows } = self;
        Opened {
            inboxes: inboxes.into_iter(),
            rows,
        }
    }
}

// Opens one more, for the next thread of a role.
fn open_one<B: Drop>(
    alloc: &Heap,
    role: Role,
    capacity: usize,
    senders: u32,
    opening: &mut Opening<B>,
) -> Result<(), StartFault>
    requires size { IsSize capacity senders }
    requires inboxes { vec_len opening.old.inboxes < vec_capacity opening.old.inboxes }
    requires rows { vec_len opening.old.rows < vec_capacity opening.old.rows }
    ensures opened { OnOk result ((box : Box B) × (capacity_of box ≡ capacity)
        × (opening.new.inboxes.items ≡ opening.old.inboxes.items ++ incoming box senders [] ∷ [])
        × (opening.new.rows.items ≡ opening.old.rows.items ++ whole_row senders box ∷ [])) }
    ensures capacities { (vec_capacity opening.new.inboxes ≡ vec_capacity opening.old.inboxes) × (vec_capacity opening.new.rows ≡ vec_capacity opening.old.rows) }
    ensures fault { IfErr result (NoMemoryFor role (vec_len opening.old.inboxes)) }
{
    let fault = StartFault::memory(role, opening.inboxes.len());
    let Ok(heap) = alloc.clone() else {
        return Err(fault);
    };
    let Ok(made) = open(heap, capacity, senders) else {
        return Err(fault);
    };
    let (inbox, ports) = made;
    opening.rows.push_reserved(PortRow::new(&inbox, ports));
    opening.inboxes.push_reserved(inbox);
    Ok(())
}
