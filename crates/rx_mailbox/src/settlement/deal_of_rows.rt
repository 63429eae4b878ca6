// Rows of ports, one of each box, that are dealt to their boxes.
ghost use Rattle.std.specs.Prelude.{◌≡◌, ◌<◌, length, take, IfOk, MatchResult, OnErr, OnOk};
ghost use Rattle.std.specs.List.{All};
ghost use Rattle.rx_mailbox.specs.Parts.{IsEmpty, IsFullAt, LacksInbox, dealt, placed};

use crate::inbox::Inbox;
use crate::port::ended_port::EndedPort;
use crate::settlement::box_parts::BoxParts;
use rx_heap::{Heap, Memory};

/// The inbox of a box came back twice.
#[derive(Clone, Copy, Debug, PartialEq, Eq)]
pub struct Twice;

/// Room for the parts of so many boxes, each with so many ports.
pub fn parts_of<B: Drop>(
    alloc: &Heap,
    boxes: usize,
    senders: usize,
) -> Result<Vec<BoxParts<B>, Heap>, Memory>
    ensures count { IfOk result (λ parts. length parts.items ≡ boxes) }
    ensures empty { IfOk result (λ parts. All (IsEmpty senders) parts.items) }
{
    let mut parts = Vec::with_capacity(alloc.clone()?, boxes)?;
    for _ in 0..boxes {
        parts.push_reserved(BoxParts::new(alloc, senders)?);
    }
    Ok(parts)
}

/// Deals a row of ports: each to the box of its place. `Err` tells the place of the first box that has no room for one more:
/// those before it have theirs.
pub fn deal<B: Drop>(
    ports: Vec<EndedPort<B>, Heap>,
    boxes: &mut Vec<BoxParts<B>, Heap>,
) -> Result<(), usize>
    requires { length ports.items ≡ length boxes.old.items }
    ensures { MatchResult result
        (λ _. boxes.new.items ≡ dealt ports.items boxes.old.items)
        (λ place. IsFullAt place boxes.old.items × (boxes.new.items ≡ dealt (take place ports.items) boxes.old.items)) }
{
    let mut place = 0;
    for port in ports {
        if !boxes[place].put_port(port) {
            return Err(place);
        }
        place += 1;
    }
    Ok(())
}

/// An inbox came back, that of the box at this place. `Err` where that has its inbox already: nothing changed.
pub fn put_inbox<B: Drop>(
    inbox: Inbox<B>,
    place: usize,
    boxes: &mut Vec<BoxParts<B>, Heap>,
) -> Result<(), Twice>
    requires { place < length boxes.old.items }
    ensures put { OnOk result (boxes.new.items ≡ placed place inbox boxes.old.items) }
    ensures once { OnOk result (LacksInbox place boxes.old.items) }
    ensures same { OnErr result (boxes.new ≡ boxes.old) }
    ensures twice { OnErr result (¬ LacksInbox place boxes.old.items) }
{
    if boxes[place].has_inbox() {
        return Err(Twice);
    }
    boxes[place].put_inbox(inbox);
    Ok(())
}
