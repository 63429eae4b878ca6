// The ports of new boxes, and how they are handed out.
ghost use Rattle.std.specs.Prelude.{◌≡◌, ◌<◌, ◌≤◌, [], vec_len, vec_capacity, map, IfOk, OnOk};
ghost use Rattle.std.specs.List.{All};
ghost use Rattle.rx_server.specs.Wirings.{behind, next_port, ports_from, whole_row};

use rx_heap::{Heap, Memory, room};
use rx_mailbox::{Inbox, Port};
use std::marker::Model;
use std::snapshot::Snapshot;
use std::vec::IntoIter;

// The ports of a new box that were not handed out yet, in their order.
#[derive(Drop)]
pub(crate) struct PortRow<B: Drop> {
    of: Snapshot<Inbox<B>>,
    // The number of the next one.
    next: u32,
    left: IntoIter<Port<B>, Heap>,
}

impl<B: Drop> Model for PortRow<B> {
    ghost use Rattle.std.specs.Prelude.{◌≡◌, ◌+◌, ◌≤◌, length};
    ghost use Rattle.std.specs.Vec.Iter.{into_iter_items};
    ghost use Rattle.rx_server.specs.Wirings.{RowView, ports_from};

    ghost Value = { RowView B };

    ghost view = { λ r. record { box = r.of.value.box; next = r.next; count = length (into_iter_items r.left) } };

    ghost invariant = { λ r. (into_iter_items r.left ≡ ports_from r.of.value.box r.next (length (into_iter_items r.left)))
        × (r.next + length (into_iter_items r.left) ≤ 256) };
}

impl<B: Drop> PortRow<B> {
    // All ports of the inbox's box.
    pub(crate) fn new(inbox: &Inbox<B>, ports: Vec<Port<B>, Heap>) -> PortRow<B>
        requires ports { ports.items ≡ ports_from inbox.now.box 0 (vec_len ports) }
        requires count { vec_len ports ≤ 256 }
        ensures { result ≡ whole_row (vec_len ports) inbox.now.box }
    {
        PortRow {
            of: Snapshot::of(inbox),
            next: 0,
            left: ports.into_iter(),
        }
    }

    // Hands out the next port.
    fn next_port(&mut self) -> Port<B>
        requires { 0 < self.old.count }
        ensures port { result ≡ next_port self.old }
        ensures left { self.new ≡ behind 1 self.old }
    {
        let Some(port) = self.left.next() else {
            unreachable!()
        };
        self.next += 1;
        port
    }
}

// The next port of each row, in the order of the rows.
pub(crate) fn next_ports<B: Drop>(
    alloc: &Heap,
    rows: &mut Vec<PortRow<B>, Heap>,
) -> Result<Vec<Port<B>, Heap>, Memory>
    requires { All (λ row. 0 < row.count) rows.old.items }
    ensures ports { IfOk result (λ ports. ports.items ≡ map next_port rows.old.items) }
    ensures rows { OnOk result (rows.new.items ≡ map (behind 1) rows.old.items) }
{
    let mut ports = room(alloc, rows.len())?;
    put_ports(rows, &mut ports);
    Ok(ports)
}

// Puts the next port of each row, in the order of the rows.
pub(crate) fn put_ports<B: Drop>(rows: &mut Vec<PortRow<B>, Heap>, ports: &mut Vec<Port<B>, Heap>)
    requires rows { All (λ row. 0 < row.count) rows.old.items }
    requires none { ports.old.items ≡ [] }
    requires room { vec_len rows.old ≤ vec_capacity ports.old }
    ensures ports { ports.new.items ≡ map next_port rows.old.items }
    ensures rows { rows.new.items ≡ map (behind 1) rows.old.items }
{
    for place in 0..rows.len() {
        ports.push_reserved(rows[place].next_port());
    }
}
