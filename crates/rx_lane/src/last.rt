// The terminal of a queue, which goes behind all that waits.
ghost use Rattle.std.specs.Prelude.{◌≡◌, ◌≤◌, ◌+◌, ◌++◌, None, length, option_to_list, vec_len, vec_capacity};
ghost use Rattle.rx_lane.specs.Lanes.{addressed};

use rx_heap::Heap;
use rx_note::{Given, Note};

// Moves the terminal that waits, if there is one, into `outs`.
pub(crate) fn give_last(last: &mut Option<Note>, outs: &mut Vec<Note, Heap>)
    requires { vec_len outs.old + length (option_to_list last.old) ≤ vec_capacity outs.old }
    ensures moved { outs.new.items ≡ outs.old.items ++ option_to_list last.old }
    ensures left { last.new ≡ None }
{
    if let Some(note) = last.take() {
        outs.push_reserved(note);
    }
}

// Puts a terminal, if there is one, at the end of `outs`, which has room for it, for an observer.
#[inline(always)] // on the path of every request
pub(crate) fn put_last(who: u32, last: Option<Note>, outs: &mut Vec<Given, Heap>)
    requires { vec_len outs.old + length (option_to_list last) ≤ vec_capacity outs.old }
    ensures { outs.new.items ≡ outs.old.items ++ addressed who (option_to_list last) }
{
    if let Some(note) = last {
        outs.push_reserved(Given { who, note });
    }
}
