// How a pump waits for a letter, and for the last notes to be on their way.
ghost use Rattle.std.specs.Prelude.{◌≡◌, IfOk, MatchResult};
ghost use Rattle.rx_mailbox.specs.Boxes.{all_told, with_letter, HasBye};

use crate::call::Call;
use crate::pump::deliveries::Drainers;
use crate::reply::Reply;
use rx_heap::Heap;
use rx_hub::{Hub, NoObserver};
use rx_mailbox::{Gone, Inbox, Letter, Port, TryRecvFault, ring_all, try_ring_all};
use std::sync::Wait;
use std::time::Duration;

// So many observers at most are looked for, from the latest on, where nobody waits for it.
pub(crate) const MOST_SEARCHED: u32 = 4096;

// And so many before each wait for a letter: twice as many as are held at most, so that this costs no more where many have come and
// left since.
const FEW_SEARCHED: u32 = 128;

// How long a letter is waited for while replies are held back for which their box has no room, in milliseconds: their caller
// may take some and wait for the others.
const MOST_WAIT: u64 = 4;

// Takes the letter that comes next, and waits while there is none. Before it waits, what is held back goes out. While nothing waits
// in the hub no drainer's request wakes it: the next call does, and finds the requests before it in the box.
pub(crate) fn receive<S: Drop, R: Wait>(
    rt: &R,
    hub: &Hub,
    inbox: &mut Inbox<Call<S>>,
    drainers: &mut Drainers<S>,
    replies: &mut Vec<Port<Reply<S>>, Heap>,
) -> Result<Letter<Call<S>>, Gone>
    ensures received { MatchResult result (λ letter. inbox.new ≡ with_letter inbox.old letter) (λ _. inbox.new ≡ inbox.old) }
    ensures before_bye { IfOk result (λ letter. ¬ HasBye inbox.old letter.from) }
    ensures drainers { all_told drainers.new.items ≡ all_told drainers.old.items }
    ensures replies { all_told replies.new.items ≡ all_told replies.old.items }
{
    if let Ok(letter) = inbox.try_recv(rt) {
        return Ok(letter);
    }
    ring_all(rt, drainers);
    if try_ring_all(rt, replies) {
        return receive_beside(rt, inbox, replies);
    }
    if is_drained(hub, FEW_SEARCHED) {
        inbox.recv_past_nudges(rt)
    } else {
        inbox.recv(rt)
    }
}

// The same while replies are held back for which their box has no room: it looks for room now and then.
#[inline(never)] // a caller who takes no replies is rare
fn receive_beside<S: Drop, R: Wait>(
    rt: &R,
    inbox: &mut Inbox<Call<S>>,
    replies: &mut Vec<Port<Reply<S>>, Heap>,
) -> Result<Letter<Call<S>>, Gone>
    ensures received { MatchResult result (λ letter. inbox.new ≡ with_letter inbox.old letter) (λ _. inbox.new ≡ inbox.old) }
    ensures before_bye { IfOk result (λ letter. ¬ HasBye inbox.old letter.from) }
    ensures replies { all_told replies.new.items ≡ all_told replies.old.items }
{
    for _ in rt.forever() {
        match inbox.recv_within(rt, Duration::from_millis(MOST_WAIT)) {
            Ok(letter) => return Ok(letter),
            Err(TryRecvFault::Gone) => return Err(Gone),
            Err(TryRecvFault::Empty) => {}
        }
        if !try_ring_all(rt, replies) {
            return inbox.recv(rt);
        }
    }
    unreachable!()
}

// Whether nothing waits for any observer, as far as it sees among so many numbers, the latest: of observers that are older it knows
// nothing, and says no.
pub(crate) fn is_drained(hub: &Hub, most: u32) -> bool {
    let mut left = hub.observers();
    let joins = hub.joins();
    for back in 1..=most {
        if left == 0 {
            return true;
        }
        if back > joins {
            return false;
        }
        match hub.waiting_of(joins - back) {
            Ok(0) => left -= 1,
            Ok(_) => return false,
            Err(NoObserver) => {}
        }
    }
    false
}
