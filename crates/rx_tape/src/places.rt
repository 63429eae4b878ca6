ghost use Rattle.std.specs.Prelude.{◌≡◌, ◌≤◌, ◌<◌, ◌^◌, ◌-◌, [], ℕ, Option, None, Some, is_some, true, length, min, vec_len, IfOk, OnErr};
ghost use Rattle.rx_tape.specs.Tapes.{place_of, lowest, lower_of, OneMoved};

use rx_heap::{Heap, Memory};
use std::marker::Model;

/// Where each cursor stands, by its number.
#[derive(Drop)]
pub(crate) struct Places {
    // A number of no cursor has None. There is no list before the first cursor, so that a tape is made without memory.
    slots: Option<Vec<Option<u64>, Heap>>,
}

impl Model for Places {
    ghost use Rattle.std.specs.Prelude.{◌<◌, ◌^◌, [], List, Option, ℕ, length};
    ghost use Rattle.std.specs.Option.{option_map_or};

    ghost Value = { List (Option ℕ) };

    ghost view = { λ p. option_map_or (λ slots. slots.items) p.slots [] };

    ghost invariant = { λ p. length (option_map_or (λ slots. slots.items) p.slots []) < 2 ^ 32 };
}

impl Places {
    /// No cursor.
    pub(crate) fn new() -> Places
        ensures { result ≡ [] }
    {
        Places { slots: None }
    }

    /// Where a cursor stands; None for a number of no cursor.
    pub(crate) fn at(&self, cursor: u32) -> Option<u64>
        ensures { result ≡ place_of self.now cursor }
    {
        match &self.slots {
            Some(slots) => place_in(slots, cursor),
            None => None,
        }
    }

    /// Puts a cursor at a place, or takes it away; a number of no cursor is left alone.
    pub(crate) fn set(&mut self, cursor: u32, place: Option<u64>)
        ensures moved { is_some (place_of self.old cursor) ≡ true → OneMoved self.old self.new cursor place }
        ensures left { place_of self.old cursor ≡ None → self.new ≡ self.old }
    {
        if let Some(slots) = &mut self.slots {
            put_in(slots, cursor, place);
        }
    }

    /// A new cursor at a place. It takes the lowest number of no cursor; where 4,294,967,295 are held there is none, which is
    /// told as `Memory`.
    pub(crate) fn add(&mut self, heap: &Heap, place: u64) -> Result<u32, Memory>
        ensures fresh { IfOk result (λ cursor. place_of self.old cursor ≡ None) }
        ensures moved { IfOk result (λ cursor. OneMoved self.old self.new cursor (Some place)) }
        ensures err { OnErr result (self.new ≡ self.old) }
    {
        let mut slots = match self.slots.take() {
            Some(slots) => slots,
            None => Vec::new(heap.clone()?),
        };
        let added = add_in(&mut slots, place);
        self.slots = Some(slots);
        added
    }

    /// The lowest place and the number of a cursor that stands there; where none stands below `bound`, the bound.
    pub(crate) fn lowest(&self, bound: u64) -> (u64, u32)
        ensures { result.0 ≡ lowest self.now bound }
    {
        match &self.slots {
            Some(slots) => lowest_in(slots, bound),
            None => (bound, 0),
        }
    }
}

// Where a cursor stands.
fn place_in(slots: &Vec<Option<u64>, Heap>, cursor: u32) -> Option<u64>
    ensures { result ≡ place_of slots.now.items cursor }
{
    match slots.get(cursor as usize) {
        Some(place) => *place,
        None => None,
    }
}

// Puts a cursor at a place, or takes it away.
fn put_in(slots: &mut Vec<Option<u64>, Heap>, cursor: u32, place: Option<u64>)
    ensures len { vec_len slots.new ≡ vec_len slots.old }
    ensures moved { is_some (place_of slots.old.items cursor) ≡ true → OneMoved slots.old.items slots.new.items cursor place }
    ensures left { place_of slots.old.items cursor ≡ None → slots.new.items ≡ slots.old.items }
{
    if place_in(slots, cursor).is_some() {
        slots[cursor as usize] = place;
    }
}

// Puts a new cursor at a place.
fn add_in(slots: &mut Vec<Option<u64>, Heap>, place: u64) -> Result<u32, Memory>
    requires { vec_len slots.old < 2 ^ 32 }
    ensures within { vec_len slots.new < 2 ^ 32 }
    ensures fresh { IfOk result (λ cursor. place_of slots.old.items cursor ≡ None) }
    ensures moved { IfOk result (λ cursor. OneMoved slots.old.items slots.new.items cursor (Some place)) }
    ensures err { OnErr result (slots.new.items ≡ slots.old.items) }
{
    let number = free_in(slots);
    if number >= u32::MAX as usize {
        return Err(Memory);
    }
    if number < slots.len() {
        slots[number] = Some(place);
    } else {
        slots.push(Some(place))?;
    }
    Ok(number as u32)
}

// The lowest number of no cursor: one in between, or the next one.
fn free_in(slots: &Vec<Option<u64>, Heap>) -> usize
    ensures free { place_of slots.now.items result ≡ None }
    ensures within { result ≤ vec_len slots.now }
{
    for number in 0..slots.len() {
        if slots[number].is_none() {
            return number;
        }
    }
    slots.len()
}

// The lowest of several places and a bound, and the number of a cursor that stands there: the last of them, so that cursors
// which move one after another, by rising number, are looked through once for all of them.
fn lowest_in(slots: &Vec<Option<u64>, Heap>, bound: u64) -> (u64, u32)
    requires { vec_len slots.now < 2 ^ 32 }
    ensures { result.0 ≡ lowest slots.now.items bound }
{
    let mut low = bound;
    let mut who = 0;
    for number in 0..slots.len() {
        low = lower(slots[number], low);
        if slots[number] == Some(low) {
            who = number as u32;
        }
    }
    (low, who)
}

// The lower of a place, if there is one, and a bound.
fn lower(place: Option<u64>, bound: u64) -> u64
    ensures { result ≡ lower_of place bound }
{
    match place {
        Some(place) => place.min(bound),
        None => bound,
    }
}
