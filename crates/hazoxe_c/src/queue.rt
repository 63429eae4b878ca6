ghost use Rattle.std.specs.Prelude.{◌≡◌, ◌≤◌, [], length, drop};
ghost use Rattle.std.specs.Prelude.{option_copied};
ghost use Rattle.hazoxe_c.specs.Taking.{first_of};

use rx_heap::Heap;
use rx_hub::{Given, Hub};
use rx_note::{Answer, Event, Refusal};
use std::marker::Model;

/// So many notes the list keeps room for, however few there are.
const ROOM_KEPT: usize = 64;

/// The notes that a hub gave and that were not taken yet, in their order. Contracts see the list of them.
///
/// A note that was taken goes once half of the list was taken, so that each note is moved once at most, or with the last.
#[derive(Drop)]
pub struct Queue {
    notes: Vec<Given, Heap>,
    taken: usize,
}

impl Model for Queue {
    ghost use Rattle.std.specs.Prelude.{List, drop};
    ghost use Rattle.rx_note.specs.declared.given.Given.{Given};

    ghost Value = { List Given };

    ghost view = { λ q. drop q.taken q.notes.items };
}

impl Queue {
    ghost use Rattle.hazoxe_c.specs.Steps.{Told};

    /// No notes. It takes no memory.
    pub fn new(heap: Heap) -> Queue
        ensures { result ≡ [] }
    {
        Queue {
            notes: Vec::new(heap),
            taken: 0,
        }
    }

    /// How many there are.
    pub fn len(&self) -> usize
        ensures { result ≡ length self.now }
    {
        self.notes.len().saturating_sub(self.taken)
    }

    /// The first of them.
    #[inline] // once for each note
    pub fn first(&self) -> Option<&Given>
        ensures { option_copied result ≡ first_of self.now }
    {
        self.notes.get(self.taken)
    }

    /// All of them.
    #[inline] // once for each call that takes many
    pub fn notes(&self) -> &[Given]
        ensures { result.now ≡ self.now }
    {
        let first = self.taken.min(self.notes.len());
        &self.notes[first..]
    }

    /// Lets the first `count` go.
    #[inline] // once for each call that takes many
    pub fn pop_many(&mut self, count: usize)
        requires { count ≤ length self.old }
        ensures { self.new ≡ drop count self.old }
    {
        self.taken += count;
        if self.taken == self.notes.len() {
            self.taken = let_go(&mut self.notes, self.taken);
        }
    }

    /// Lets the first go, where there is one.
    #[inline] // once for each note
    pub fn pop(&mut self)
        ensures { self.new ≡ drop 1 self.old }
    {
        if self.taken >= self.notes.len() {
            return;
        }
        self.taken += 1;
        if self.taken == self.notes.len() {
            self.taken = let_go(&mut self.notes, self.taken);
        }
    }

    /// Has a hub take an event, and keeps what it gives.
    #[inline(always)] // so that an event is moved once
    pub fn step(&mut self, hub: &mut Hub, port: u32, event: Event) -> Result<Answer, Refusal>
        ensures { Told hub.old hub.new self.old self.new result (port, event) }
    {
        if self.taken > 0 {
            self.taken = let_go(&mut self.notes, self.taken);
        }
        hub.step(port, event, &mut self.notes)
    }
}

// Lets go of the first `taken` notes, where they are half of the list and many, or all of it. How many of them are left.
#[inline(never)] // the way of a subject whose notes are all taken after each event goes by it once for each event
fn let_go(notes: &mut Vec<Given, Heap>, taken: usize) -> usize
    ensures within { result ≤ length notes.new.items }
    ensures rest { drop result notes.new.items ≡ drop taken notes.old.items }
{
    let left = notes.len().saturating_sub(taken);
    if left == 0 {
        notes.clear();
        if notes.capacity() > ROOM_KEPT {
            notes.shrink_to(ROOM_KEPT);
        }
        return 0;
    }
    if left > taken || taken < ROOM_KEPT {
        return taken;
    }
    notes.rotate_left(taken);
    notes.truncate(left);
    0
}
