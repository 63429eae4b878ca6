// What is seen of the observers.
ghost use Rattle.std.specs.Prelude.{◌≡◌, ◌+◌, ◌≤◌, ◌++◌, map, length, false, vec_len, vec_capacity, IsOk, OnOk};
ghost use Rattle.rx_tape.specs.Tapes.{TapeState};
ghost use Rattle.rx_hub.specs.Audiences.{places_of, observers_on, AllOn};
ghost use Rattle.rx_hub.specs.Looks.{row_at};

use crate::audience::Audience;
use crate::backlog::Backlog;
use crate::observer_look::ObserverLook;
use crate::subscription::Subscription;
use rx_heap::{Heap, Memory};

impl Audience {
    /// Writes what is seen of each observer, by rising number, in place of what the list had. `Memory` leaves it empty.
    pub(crate) fn show(&self, rows: &mut Vec<ObserverLook, Heap>) -> Result<(), Memory>
        ensures shown { OnOk result (rows.new.items ≡ map row_at self.now.observers) }
        ensures room { length self.now.observers ≤ vec_capacity rows.old → IsOk result }
    {
        rows.clear();
        rows.reserve(self.subscriptions.len())?;
        put_rows(&self.subscriptions, rows);
        Ok(())
    }

    /// What waits for the observer for whom most notes wait, where the subject keeps the last `keep` items; None where none waits for
    /// any. It takes a step for each of the items that it counts.
    pub(crate) fn backlog(&self, keep: usize) -> Option<Backlog> {
        let mut longest: Option<usize> = None;
        let mut most = 0;
        for place in 0..self.subscriptions.len() {
            let waiting = self.subscriptions[place].seat.waiting_notes();
            if waiting > most {
                longest = Some(place);
                most = waiting;
            }
        }
        let subscription = self.subscriptions.get(longest?)?;
        Some(Backlog {
            who: subscription.who,
            bytes: subscription.seat.waiting_bytes(keep, &self.tape),
        })
    }

    /// The bytes that all together hold who share its memory; 0 where that has no limit.
    pub(crate) fn bytes(&self) -> u64 {
        self.tape.allocator().used()
    }
}

// Puts what is seen of each observer at the end of a list.
fn put_rows(subscriptions: &Vec<Subscription, Heap>, rows: &mut Vec<ObserverLook, Heap>)
    requires room { vec_len rows.old + vec_len subscriptions.now ≤ vec_capacity rows.old }
    ensures { (tape : TapeState) → AllOn tape false (places_of subscriptions.now.items)
        → rows.new.items ≡ rows.old.items ++ map row_at (observers_on tape.items (places_of subscriptions.now.items)) }
{
    for i in 0..subscriptions.len() {
        rows.push_reserved(subscriptions[i].look());
    }
}
