// Ending several ports.
ghost use Rattle.std.specs.Prelude.{◌≡◌, ◌+◌, ◌≤◌, ◌++◌, [], map, vec_len, vec_capacity, MatchResult};
ghost use Rattle.rx_mailbox.specs.Boxes.{all_told};
ghost use Rattle.rx_mailbox.specs.PortRows.{with_bye, EndsSome};

use crate::port::Port;
use crate::port::ended_port::EndedPort;
use rx_heap::Heap;
use std::sync::Wait;

/// Ends the ports in their order, and moves each behind those that ended before, where there is room for all. `Err` where
/// the inbox of one is gone: it and those after it stay, and there are so many ended ports.
pub fn finish_all<B: Drop, R: Wait>(
    rt: &R,
    ports: &mut Vec<Port<B>, Heap>,
    ended: &mut Vec<EndedPort<B>, Heap>,
) -> Result<(), usize>
    requires { vec_len ended.old + vec_len ports.old ≤ vec_capacity ended.old }
    ensures ended { MatchResult result
        (λ _. (ended.new.items ≡ ended.old.items ++ map with_bye (all_told ports.old.items)) × (ports.new.items ≡ []))
        (λ place. EndsSome (all_told ports.old.items) (all_told ports.new.items) ended.old.items ended.new.items × (place ≡ vec_len ended.new)) }
    ensures capacity { vec_capacity ended.new ≡ vec_capacity ended.old }
{
    // From the back, so that each port is moved out, and one that comes back has its place.
    ports.reverse();
    while let Some(port) = ports.pop() {
        match port.finish(rt) {
            Ok(port) => ended.push_reserved(port),
            Err(port) => {
                ports.push_reserved(port);
                ports.reverse();
                return Err(ended.len());
            }
        }
    }
    Ok(())
}

/// Lets go of the ports, and waits for nothing: each ends all the same, behind what it put.
pub fn let_go_all<B: Drop>(ports: Vec<Port<B>, Heap>) {
    for port in ports {
        port.let_go();
    }
}
