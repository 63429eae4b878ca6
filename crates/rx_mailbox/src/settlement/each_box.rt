// Boxes that end together settle by rows. What made several boxes handed out their ports in rows, one of each box, and what
// comes back are rows too; so a row is dealt to the boxes without a look at a port's number, and what holds of all ports of
// each box holds of each row. Whether each number came back just once is asked once, by `settle`.
ghost use Rattle.std.specs.Prelude.{◌≡◌, ◌≤◌, [], length, vec_capacity, MatchResult};
ghost use Rattle.std.specs.List.{All, AllZip};
ghost use Rattle.rx_mailbox.specs.Parts.{AreOfOneBox, FirstUnsettled, Settles};

use crate::settlement::box_parts::BoxParts;
use crate::settlement::settled::Settled;
use rx_heap::Heap;
use std::sync::Wait;

/// Receives what is still in each box, in their order, and settles it; `settled` gets them in that order. `Err` tells the place
/// of the first that doesn't settle: its inbox didn't come back, or not each of its ports once. It waits for no letter, since a
/// port that has ended has put its last.
pub fn settle_each<B: Drop, R: Wait>(
    rt: &R,
    boxes: Vec<BoxParts<B>, Heap>,
    settled: &mut Vec<Settled<B>, Heap>,
) -> Result<(), usize>
    requires parts { All AreOfOneBox boxes.items }
    requires none { settled.old.items ≡ [] }
    requires room { length boxes.items ≤ vec_capacity settled.old }
    ensures { MatchResult result
        (λ _. AllZip Settles boxes.items settled.new.items)
        (FirstUnsettled boxes.items settled.new.items) }
{
    for parts in boxes {
        let Some(one) = parts.settle(rt) else {
            return Err(settled.len());
        };
        settled.push_reserved(one);
    }
    Ok(())
}
