// Ringing ports.
ghost use Rattle.std.specs.Prelude.{◌≡◌, ◌<◌, vec_len};
ghost use Rattle.rx_mailbox.specs.Boxes.{all_told};

use crate::port::Port;
use rx_heap::Heap;
use std::sync::Wait;

/// Has go out what the ports hold back, and wakes those who sleep at their boxes.
pub fn ring_all<B: Drop, R: Wait>(rt: &R, ports: &mut Vec<Port<B>, Heap>)
    ensures { all_told ports.new.items ≡ all_told ports.old.items }
{
    for place in 0..ports.len() {
        ring_at(rt, ports, place);
    }
}

/// As `ring_all`, but waits for no room. It answers whether a port still holds something back, which can go once there is room.
pub fn try_ring_all<B: Drop, R: Wait>(rt: &R, ports: &mut Vec<Port<B>, Heap>) -> bool
    ensures { all_told ports.new.items ≡ all_told ports.old.items }
{
    let mut is_left = false;
    for place in 0..ports.len() {
        if try_ring_at(rt, ports, place) {
            is_left = true;
        }
    }
    is_left
}

/// As `ring_all`, of the port at a place alone.
pub fn ring_at<B: Drop, R: Wait>(rt: &R, ports: &mut Vec<Port<B>, Heap>, place: usize)
    requires { place < vec_len ports.old }
    ensures told { all_told ports.new.items ≡ all_told ports.old.items }
    ensures count { vec_len ports.new ≡ vec_len ports.old }
{
    let _went = ports[place].ring(rt);
}

/// As `try_ring_all`, of the port at a place alone.
pub fn try_ring_at<B: Drop, R: Wait>(rt: &R, ports: &mut Vec<Port<B>, Heap>, place: usize) -> bool
    requires { place < vec_len ports.old }
    ensures told { all_told ports.new.items ≡ all_told ports.old.items }
    ensures count { vec_len ports.new ≡ vec_len ports.old }
{
    let is_left = ports[place].try_ring(rt);
    is_left && !ports[place].is_inbox_gone()
}

/// As `try_ring_all`, but leaves those asleep who sleep past nudges, unless their box is full.
pub fn nudge_all<B: Drop, R: Wait>(rt: &R, ports: &mut Vec<Port<B>, Heap>) -> bool
    ensures { all_told ports.new.items ≡ all_told ports.old.items }
{
    let mut is_left = false;
    for place in 0..ports.len() {
        if nudge_at(rt, ports, place) {
            is_left = true;
        }
    }
    is_left
}

// The same of the port at a place alone.
fn nudge_at<B: Drop, R: Wait>(rt: &R, ports: &mut Vec<Port<B>, Heap>, place: usize) -> bool
    requires { place < vec_len ports.old }
    ensures told { all_told ports.new.items ≡ all_told ports.old.items }
    ensures count { vec_len ports.new ≡ vec_len ports.old }
{
    let is_left = ports[place].nudge(rt);
    is_left && !ports[place].is_inbox_gone()
}
