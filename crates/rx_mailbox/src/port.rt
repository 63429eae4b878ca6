// A ring after nothing is none. A port knows whether it put something quietly since it rang; a pump rings before each wait,
// and would wake a drainer that sleeps at each call that gives it nothing.
ghost use Rattle.std.specs.Prelude.{◌≡◌, ◌<◌, ◌↔◌, [], true, length, IfErr, IfSome, IsTrue, MatchResult};
ghost use Rattle.rx_mailbox.specs.declared.letter.Post.TheVariants.{Body, Bye};
ghost use Rattle.rx_mailbox.specs.Boxes.{told, with_bodies, with_held, with_post};

pub(crate) mod ended_port;
pub(crate) mod ends_of_ports;
pub(crate) mod rings_of_ports;

use crate::channel::outlet::Outlet;
use crate::letter::batch::Batch;
use crate::letter::lists::{LENGTH, MOST_TOGETHER, SharedLists};
use crate::opening::leavings::{Leavings, SharedLeavings};
use crate::port::ended_port::EndedPort;
use rx_heap::Heap;
use std::collections::VecDeque;
use std::marker::Model;
use std::mem;
use std::sync::Wait;

/// One sender of a box. Contracts see its number and its own list, the letters that it put, in their order, and how many of the
/// last of them it holds back, so that several go into the box at once.
pub struct Port<B: Drop> {
    pub(crate) outlet: Outlet<B>,
    pub(crate) lists: SharedLists<B>,
    pub(crate) leavings: SharedLeavings<B>,
    // The bodies that it holds back.
    pub(crate) held: VecDeque<B, Heap>,
    // An empty list that takes the place of that one when it goes into the box, if the port took one.
    pub(crate) spare: Option<VecDeque<B, Heap>>,
    // It put a letter into the box and has not rung since.
    pub(crate) owes_ring: bool,
}

// By hand: rx_heap says why.
impl<B: Drop> Drop for Port<B> {
    fn drop(self) {
        let Port {
            outlet: _,
            lists: _,
            leavings: _,
            held: _,
            spare: _,
            owes_ring: _,
        } = self;
    }
}

impl<B: Drop> Model for Port<B> {
    ghost use Rattle.std.specs.Prelude.{⊤, length};
    ghost use Rattle.rx_mailbox.specs.Boxes.{Outgoing, with_bodies};

    ghost Value = { Outgoing B };

    ghost view = { λ p. record (with_bodies p.held.items p.outlet) { held = length p.held.items } };

    ghost invariant = { λ p. ⊤ };
}

impl<B: Drop> Port<B> {
    // The way by which it put its letters, without those that it holds back.
    pub(crate) fn into_outlet(self) -> Outlet<B>
        ensures from_box { result.box ≡ self.box }
        ensures number { result.number ≡ self.number }
    {
        let Port {
            outlet,
            lists: _,
            leavings: _,
            held: _,
            spare: _,
            owes_ring: _,
        } = self;
        outlet
    }

    /// Its number in the box, from 0.
    pub fn number(&self) -> u32
        ensures { result ≡ self.now.number }
    {
        self.outlet.number()
    }

    /// Puts a letter with this body at the back of the box, behind all that it held back, and waits while the box is full. `Err`
    /// hands the body back where the inbox is gone, and nothing changed, but that less may be held back.
    pub fn send<R: Wait>(&mut self, rt: &R, body: B) -> Result<(), B>
        ensures sent { MatchResult result
            (λ _. self.new ≡ with_post self.old (Body body))
            (λ back. (back ≡ body) × (told self.new ≡ told self.old)) }
        ensures still { IfErr result (λ _. self.old.held ≡ 0 → self.new ≡ self.old) }
    {
        if !self.held.is_empty()
            && !put_held(
                rt,
                &mut self.outlet,
                &self.lists,
                &self.leavings,
                &mut self.spare,
                &mut self.held,
            )
        {
            return Err(body);
        }
        let outcome = self.outlet.put_one(rt, &self.leavings, body);
        self.owes_ring = false;
        self.outlet.ring();
        outcome
    }

    /// As `send`, but may hold the letter back, so that it goes into the box with some that follow, and need not wake an inbox
    /// that sleeps: where a letter or more were put so, `ring` is to follow. What is held back goes before a letter that is not
    /// and before the end of this port. A port that is let go without an end keeps it for itself.
    pub fn send_quietly<R: Wait>(&mut self, rt: &R, body: B) -> Result<(), B>
        ensures { MatchResult result
            (λ _. told self.new ≡ with_post self.old (Body body))
            (λ back. (back ≡ body) × (told self.new ≡ told self.old)) }
    {
        if self.is_inbox_gone() {
            return Err(body);
        }
        if self.held.len() < self.held.capacity() {
            self.held.push_back_reserved(body);
            return Ok(());
        }
        self.send_on(rt, body)
    }

    // The same where no more can be held back.
    #[inline(never)] // once for each batch
    fn send_on<R: Wait>(&mut self, rt: &R, body: B) -> Result<(), B>
        ensures { MatchResult result
            (λ _. told self.new ≡ with_post self.old (Body body))
            (λ back. (back ≡ body) × (told self.new ≡ told self.old)) }
    {
        if !put_held(
            rt,
            &mut self.outlet,
            &self.lists,
            &self.leavings,
            &mut self.spare,
            &mut self.held,
        ) {
            return Err(body);
        }
        // Who never rests rings seldom.
        self.owes_ring = false;
        self.outlet.ring();
        self.take_list(rt);
        if self.held.len() < self.held.capacity() {
            self.held.push_back_reserved(body);
            return Ok(());
        }
        self.owes_ring = true;
        self.outlet.put_one(rt, &self.leavings, body)
    }

    /// As `send_quietly`, but wakes nobody and waits for no room: where the box is full it holds back more than else, as long as
    /// there is memory for it, and only then waits. So who sends by this alone never keeps the inbox's owner waiting while that one
    /// waits for it. What is held back goes in small lists while the inbox looks for them, and in large ones while it sleeps; the
    /// last of it goes by `try_ring`.
    pub fn hold<R: Wait>(&mut self, rt: &R, body: B) -> Result<(), B>
        ensures { MatchResult result
            (λ _. told self.new ≡ with_post self.old (Body body))
            (λ back. (back ≡ body) × (told self.new ≡ told self.old)) }
    {
        if self.is_inbox_gone() {
            return Err(body);
        }
        if self.held.len() < self.held.capacity() && self.held.len() % LENGTH != 0 {
            self.held.push_back_reserved(body);
            return Ok(());
        }
        self.hold_on(rt, body)
    }

    // The same where a list is full, or can be one: it goes where its inbox looks for it, and else waits for more.
    #[inline(never)] // once for each list
    fn hold_on<R: Wait>(&mut self, rt: &R, body: B) -> Result<(), B>
        ensures { MatchResult result
            (λ _. told self.new ≡ with_post self.old (Body body))
            (λ back. (back ≡ body) × (told self.new ≡ told self.old)) }
    {
        if self.held.len() >= MOST_TOGETHER
            || self.held.len() >= LENGTH && self.outlet.is_inbox_awake()
        {
            self.owes_ring = true;
            let _is_put = self.try_put_held(rt);
        }
        self.take_list(rt);
        match self.held.push_back(body) {
            Ok(()) => Ok(()),
            Err(failed) => self.send_on(rt, failed.value),
        }
    }

    /// Holds the body back, so that it goes with all that is held back already in one batch. Nothing is put or waited for. `Err`
    /// hands it back, and nothing changed: where the inbox is gone, or where it would have to go alone. A port that can't hold
    /// bodies yet is made able to, where its box has lists left.
    pub fn hold_back<R: Wait>(&mut self, rt: &R, body: B) -> Result<(), B>
        ensures { MatchResult result
            (λ _. self.new ≡ with_held self.old body)
            (λ back. (back ≡ body) × (self.new ≡ self.old)) }
    {
        if self.is_inbox_gone() || !self.has_spare(rt) {
            return Err(body);
        }
        self.take_list(rt);
        if self.held.len() >= self.held.capacity() {
            return Err(body);
        }
        self.held.push_back_reserved(body);
        Ok(())
    }

    // Whether there is a list that takes the place of what is held back when it goes.
    fn has_spare<R: Wait>(&mut self, rt: &R) -> bool
        ensures { self.new ≡ self.old }
    {
        if self.spare.is_none() {
            self.spare = self.lists.take(rt);
        }
        self.spare.is_some()
    }

    // Takes a list of the box's for what is to be held back, where it has none yet and there is one.
    fn take_list<R: Wait>(&mut self, rt: &R)
        ensures { self.new ≡ self.old }
    {
        if self.held.is_empty()
            && self.held.capacity() == 0
            && let Some(list) = self.lists.take(rt)
        {
            self.held = list;
        }
    }

    /// Puts what is held back into the box, and waits while the box is full. Then it wakes the inbox, if it sleeps. Nothing is
    /// done where nothing was sent quietly since it was last done. It answers whether nothing is held back any more: where the inbox
    /// is gone something stays so.
    pub fn ring<R: Wait>(&mut self, rt: &R) -> bool
        ensures same { told self.new ≡ told self.old }
        ensures went { IsTrue result ↔ self.new.held ≡ 0 }
    {
        if self.held.is_empty() && !self.owes_ring {
            return true;
        }
        let _is_there = put_held(
            rt,
            &mut self.outlet,
            &self.lists,
            &self.leavings,
            &mut self.spare,
            &mut self.held,
        );
        self.owes_ring = false;
        self.outlet.ring();
        self.held.is_empty()
    }

    /// As `ring`, but waits for no room. It answers whether something is still held back.
    pub fn try_ring<R: Wait>(&mut self, rt: &R) -> bool
        ensures same { told self.new ≡ told self.old }
        ensures held { IsTrue result ↔ 0 < self.new.held }
    {
        if self.held.is_empty() && !self.owes_ring {
            return false;
        }
        let is_put = self.try_put_held(rt);
        // Nobody else makes room where the inbox was let go.
        if !is_put && self.leavings.discard(rt) {
            let _is_put = self.try_put_held(rt);
        }
        self.owes_ring = false;
        self.outlet.ring();
        self.holds_back()
    }

    /// As `try_ring`, but leaves an inbox asleep that sleeps past nudges, unless its box is full: that finds what was put once another
    /// port rings.
    pub fn nudge<R: Wait>(&mut self, rt: &R) -> bool
        ensures same { told self.new ≡ told self.old }
        ensures held { IsTrue result ↔ 0 < self.new.held }
    {
        if self.held.is_empty() && !self.owes_ring {
            return false;
        }
        if !self.try_put_held(rt) {
            return self.try_ring(rt);
        }
        self.owes_ring = false;
        self.outlet.nudge();
        self.holds_back()
    }

    // Puts what is held back where there is room for it, and answers whether nothing is any more.
    fn try_put_held<R: Wait>(&mut self, rt: &R) -> bool
        ensures { told self.new ≡ told self.old }
    {
        try_put_held(
            rt,
            &mut self.outlet,
            &self.lists,
            &mut self.spare,
            &mut self.held,
        )
    }

    /// Whether the inbox sleeps, and a nudge is to wake it for what was sent quietly.
    pub fn would_wake(&self) -> bool {
        (self.owes_ring || !self.held.is_empty()) && self.outlet.sleeps_lightly()
    }

    /// Whether it holds something back.
    pub fn holds_back(&self) -> bool
        ensures { IsTrue result ↔ 0 < self.now.held }
    {
        !self.held.is_empty()
    }

    /// Whether the inbox is gone: it was dropped. One that was let go counts as there.
    pub fn is_inbox_gone(&self) -> bool {
        self.outlet.is_inbox_gone()
    }

    /// Lets go of the port, and waits for nothing. What it holds back is lost, and its Bye comes behind all that it put, once the
    /// box is empty.
    pub fn let_go(self) {
        let Port {
            outlet,
            lists: _,
            leavings,
            held: _,
            spare: _,
            owes_ring: _,
        } = self;
        leavings.leave_outlet(outlet);
    }

    /// Puts Bye at the back of the box, behind all that it held back, after which this port sends nothing, and waits while the box
    /// is full. `Err` hands the port back where the inbox is gone, and nothing changed, but that less may be held back.
    pub fn finish<R: Wait>(self, rt: &R) -> Result<EndedPort<B>, Port<B>>
        ensures { MatchResult result (λ ended. ended ≡ with_post self Bye) (λ back. told back ≡ told self) }
    {
        let Port {
            mut outlet,
            lists,
            leavings,
            mut held,
            mut spare,
            owes_ring,
        } = self;
        if !put_held(rt, &mut outlet, &lists, &leavings, &mut spare, &mut held) {
            return Err(Port {
                outlet,
                lists,
                leavings,
                held,
                spare,
                owes_ring,
            });
        }
        match outlet.finish(rt, &leavings) {
            Ok(ended) => Ok(ended),
            Err(outlet) => Err(Port {
                outlet,
                lists,
                leavings,
                held,
                spare,
                owes_ring,
            }),
        }
    }
}

// Puts what is held back, and answers whether nothing is any more. It is where the inbox is gone.
fn put_held<B: Drop, R: Wait>(
    rt: &R,
    outlet: &mut Outlet<B>,
    lists: &SharedLists<B>,
    leavings: &Leavings<B>,
    spare: &mut Option<VecDeque<B, Heap>>,
    held: &mut VecDeque<B, Heap>,
) -> bool
    ensures same { with_bodies held.new.items outlet.new ≡ with_bodies held.old.items outlet.old }
    ensures none { result ≡ true → held.new.items ≡ [] }
{
    if held.len() < 2 {
        return put_each(rt, outlet, leavings, held);
    }
    let Some(empty) = empty_list(rt, lists, spare) else {
        return put_each(rt, outlet, leavings, held);
    };
    let bodies = mem::replace(held, empty);
    match outlet.put_many(rt, leavings, bodies) {
        Ok(()) => true,
        Err(bodies) => {
            lists.keep(rt, mem::replace(held, bodies));
            false
        }
    }
}

// The same, but it waits for no room.
fn try_put_held<B: Drop, R: Wait>(
    rt: &R,
    outlet: &mut Outlet<B>,
    lists: &SharedLists<B>,
    spare: &mut Option<VecDeque<B, Heap>>,
    held: &mut VecDeque<B, Heap>,
) -> bool
    ensures { with_bodies held.new.items outlet.new ≡ with_bodies held.old.items outlet.old }
{
    if held.len() < 2 {
        return try_put_each(rt, outlet, held);
    }
    let Some(empty) = empty_list(rt, lists, spare) else {
        return try_put_each(rt, outlet, held);
    };
    let bodies = mem::replace(held, empty);
    match outlet.try_put(rt, Batch::Many(bodies)) {
        Ok(()) => true,
        Err(Batch::Many(bodies)) => {
            lists.keep(rt, mem::replace(held, bodies));
            false
        }
        Err(Batch::One(_)) => unreachable!(),
    }
}

// An empty list, the spare one or one of the box's, if there is one.
fn empty_list<B: Drop, R: Wait>(
    rt: &R,
    lists: &SharedLists<B>,
    spare: &mut Option<VecDeque<B, Heap>>,
) -> Option<VecDeque<B, Heap>>
    ensures { IfSome result (λ list. list.items ≡ []) }
{
    match mem::replace(spare, None) {
        Some(list) => {
            let mut list = list;
            list.clear();
            Some(list)
        }
        None => lists.take(rt),
    }
}

// Puts what is held back, one body after another, as `put_held` does.
fn put_each<B: Drop, R: Wait>(
    rt: &R,
    outlet: &mut Outlet<B>,
    leavings: &Leavings<B>,
    held: &mut VecDeque<B, Heap>,
) -> bool
    ensures same { with_bodies held.new.items outlet.new ≡ with_bodies held.old.items outlet.old }
    ensures none { result ≡ true → held.new.items ≡ [] }
{
    while let Some(body) = held.pop_front() {
        if let Err(body) = outlet.put_one(rt, leavings, body) {
            held.push_front_reserved(body);
            return false;
        }
    }
    true
}

// Puts what is held back, one body after another, as `try_put_held` does.
fn try_put_each<B: Drop, R: Wait>(
    rt: &R,
    outlet: &mut Outlet<B>,
    held: &mut VecDeque<B, Heap>,
) -> bool
    ensures { with_bodies held.new.items outlet.new ≡ with_bodies held.old.items outlet.old }
{
    while let Some(body) = held.pop_front() {
        match outlet.try_put(rt, Batch::One(body)) {
            Ok(()) => {}
            Err(Batch::One(body)) => {
                held.push_front_reserved(body);
                return false;
            }
            Err(Batch::Many(_)) => unreachable!(),
        }
    }
    true
}
