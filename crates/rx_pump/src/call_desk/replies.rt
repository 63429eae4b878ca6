// The replies of one subject come in the order of its calls, but those of several come mixed. A desk that posted calls to several
// waits for one reply after another, and what comes of another subject meanwhile is held aside until its turn. Room for it was made
// before its call was posted, so no reply is refused for want of memory.
//
// A letter for which no call waits is told at once, and after it the desk makes no call any more.
ghost use Rattle.std.specs.Prelude.{◌≡◌, ◌<◌, ◌≤◌, ◌+◌, ◌==◌, [], false, true, if◌then◌else◌, option_to_list, position, vec_len, vec_capacity, IsTrue, MatchOption, MatchResult};
ghost use Rattle.rx_mailbox.specs.Letters.{share};
ghost use Rattle.rx_pump.specs.Desks.{ReadsReply, ReceivesReply};
ghost use Rattle.rx_pump.specs.Desks as desks;
ghost use Rattle.rx_pump.specs.Early.{Comes, HoldsAside, IsBare, call_count};

use crate::call::Call;
use crate::call_desk::call_error::CallError;
use crate::reply::Reply;
use rx_heap::{Heap, Memory, room};
use rx_mailbox::{Inbox, Letter, Port, Post, TryRecvFault};
use rx_past::Past;
use std::marker::Model;
use std::sync::Wait;
use std::time::Duration;

// How long a reply is waited for before its subject is looked after, in milliseconds.
const MOST_WAIT: u64 = 250;

// A call that was posted, and whose reply has not come.
#[derive(Clone, Copy, PartialEq, Eq)]
pub(crate) struct Awaited {
    pub(crate) subject: usize,
    pub(crate) ticket: u64,
}

// What came for a desk. Contracts see the letters that its calls took, in the order in which they took them, and those that are
// held aside.
pub(crate) struct Replies<S: Drop> {
    inbox: Inbox<Reply<S>>,
    // In the order of their tickets.
    awaited: Vec<Awaited, Heap>,
    // In the order in which they came. There is room for the reply to each call that is awaited.
    early: Vec<Letter<Reply<S>>, Heap>,
    taken: Past<Letter<Reply<S>>>,
    // The desk makes no call any more.
    is_over: bool,
}

// The replies that are still to come go nowhere. One that is held aside has no sink.
impl<S: Drop> Drop for Replies<S> {
    fn drop(self) {
        let Replies {
            inbox,
            awaited: _,
            early: _,
            taken: _,
            is_over: _,
        } = self;
        inbox.let_go();
    }
}

impl<S: Drop> Model for Replies<S> {
    ghost use Rattle.std.specs.Prelude.{◌+◌, ◌≤◌, vec_len, vec_capacity};
    ghost use Rattle.rx_mailbox.specs.Boxes.{incoming};
    ghost use Rattle.rx_pump.specs.Early.{HoldsAside, RepliesView};

    ghost Value = { RepliesView S };

    ghost view = { λ r. record { inbox = incoming r.inbox.box r.inbox.ports r.taken.items; is_over = r.is_over; early = r.early.items; awaited = vec_len r.awaited } };

    ghost invariant = { λ r. HoldsAside (incoming r.inbox.box r.inbox.ports r.taken.items) r.is_over r.inbox r.early.items
        × (vec_len r.early + vec_len r.awaited ≤ vec_capacity r.early) };
}

impl<S: Drop> Replies<S> {
    // Those of an inbox that received nothing. `Err` gives it back where there was no memory for them.
    pub(crate) fn new(alloc: &Heap, inbox: Inbox<Reply<S>>) -> Result<Replies<S>, Inbox<Reply<S>>>
        requires { inbox.received ≡ [] }
        ensures { MatchResult result
            (λ replies. replies ≡ record { inbox = inbox; is_over = false; early = []; awaited = 0 })
            (λ back. back ≡ inbox) }
    {
        let Ok(awaited) = room(alloc, 0) else {
            return Err(inbox);
        };
        let Ok(early) = room(alloc, 0) else {
            return Err(inbox);
        };
        Ok(Replies {
            inbox,
            awaited,
            early,
            taken: Past::new(),
            is_over: false,
        })
    }

    // Whether the desk makes no call any more.
    pub(crate) fn is_over(&self) -> bool
        ensures { result ≡ self.now.is_over }
    {
        self.is_over
    }

    // The desk makes no call any more.
    pub(crate) fn end(&mut self)
        ensures { self.new ≡ record self.old { is_over = true } }
    {
        self.is_over = true;
    }

    // The reply of a subject to a ticket is awaited: there is room for it, should it come early.
    pub(crate) fn await_reply(&mut self, subject: usize, ticket: u64) -> Result<(), Memory>
        ensures { MatchResult result
            (λ _. self.new ≡ record self.old { awaited = self.old.awaited + 1 })
            (λ _. self.new ≡ self.old) }
    {
        self.early.try_reserve(self.awaited.len() + 1)?;
        self.awaited.try_reserve(1)?;
        self.awaited.push_reserved(Awaited { subject, ticket });
        Ok(())
    }

    // The last one is awaited no more, since its call did not go.
    pub(crate) fn await_one_less(&mut self)
        requires { 0 < self.old.awaited }
        ensures { self.old ≡ record self.new { awaited = self.new.awaited + 1 } }
    {
        let _last = self.awaited.pop();
    }

    // The reply of a subject, which is called by this port, to the call that was just made with this ticket.
    pub(crate) fn reply<R: Wait>(
        &mut self,
        rt: &R,
        port: &Port<Call<S>>,
        subject: usize,
        ticket: u64,
    ) -> Result<Reply<S>, CallError<S>>
        requires { self.old.is_over ≡ false }
        ensures received { ReceivesReply self.old.inbox self.new.inbox subject ticket result }
        ensures over { self.new.is_over ≡ desks.is_strange result }
        ensures count { call_count self.new ≤ call_count self.old + 1 }
    {
        match self.take_early(subject, ticket) {
            Some(answered) => answered,
            None => self.take_next(rt, port, subject, ticket),
        }
    }

    // The reply of a subject, which is called by this port, to the call with this ticket that was posted. Where none is awaited of the
    // subject it is gone.
    pub(crate) fn awaited_reply<R: Wait>(
        &mut self,
        rt: &R,
        port: &Port<Call<S>>,
        subject: usize,
        ticket: u64,
    ) -> Result<Reply<S>, CallError<S>>
        requires { self.old.is_over ≡ false }
        ensures received { ReceivesReply self.old.inbox self.new.inbox subject ticket result }
        ensures over { self.new.is_over ≡ desks.is_strange result }
        ensures count { call_count self.new ≤ call_count self.old }
    {
        match self.take_early(subject, ticket) {
            Some(answered) => answered,
            None => self.take_awaited(rt, port, subject, ticket),
        }
    }

    // The inbox, which received what was told, and what is held aside.
    pub(crate) fn into_inbox(self) -> Inbox<Reply<S>>
        ensures { HoldsAside self.inbox self.is_over result self.early }
    {
        let Replies {
            inbox,
            awaited: _,
            early: _,
            taken: _,
            is_over: _,
        } = self;
        inbox
    }

    // What the first letter of a subject that is held aside answers, if one is.
    fn take_early(&mut self, subject: usize, ticket: u64) -> Option<Result<Reply<S>, CallError<S>>>
        requires { self.old.is_over ≡ false }
        ensures { MatchOption result
            ((self.new ≡ self.old) × (share subject self.old.early ≡ []))
            (λ answered. ReceivesReply self.old.inbox self.new.inbox subject ticket answered
            × (self.new.is_over ≡ desks.is_strange answered) × (call_count self.new ≡ call_count self.old)) }
    {
        let Some(at) = first_from(&self.early, subject) else {
            return None;
        };
        let early = self.early.remove(at);
        self.taken = self.taken.and(&early);
        let answered = read(early, subject, ticket);
        self.is_over = is_strange(&answered);
        Some(answered)
    }

    // What the next letter of a subject answers where its reply is awaited, and none of it is held aside.
    fn take_awaited<R: Wait>(
        &mut self,
        rt: &R,
        port: &Port<Call<S>>,
        subject: usize,
        ticket: u64,
    ) -> Result<Reply<S>, CallError<S>>
        requires goes { self.old.is_over ≡ false }
        requires apart { share subject self.old.early ≡ [] }
        ensures received { ReceivesReply self.old.inbox self.new.inbox subject ticket result }
        ensures over { self.new.is_over ≡ desks.is_strange result }
        ensures count { call_count self.new ≤ call_count self.old }
    {
        let Some(at) = first_to(&self.awaited, subject) else {
            return Err(CallError::SubjectGone { sink: None });
        };
        let _awaited = self.awaited.remove(at);
        self.take_next(rt, port, subject, ticket)
    }

    // What the next letter of a subject answers, where none of it is held aside.
    fn take_next<R: Wait>(
        &mut self,
        rt: &R,
        port: &Port<Call<S>>,
        subject: usize,
        ticket: u64,
    ) -> Result<Reply<S>, CallError<S>>
        requires goes { self.old.is_over ≡ false }
        requires apart { share subject self.old.early ≡ [] }
        ensures received { ReceivesReply self.old.inbox self.new.inbox subject ticket result }
        ensures over { self.new.is_over ≡ desks.is_strange result }
        ensures count { call_count self.new ≤ call_count self.old + 1 }
    {
        let Some(letter) = next_letter(
            rt,
            &mut self.inbox,
            &mut self.early,
            &mut self.awaited,
            port,
            subject,
        ) else {
            return Err(CallError::SubjectGone { sink: None });
        };
        self.taken = self.taken.and(&letter);
        let answered = read(letter, subject, ticket);
        self.is_over = is_strange(&answered);
        answered
    }
}

// Waits for the next letter of a subject, which is called by this port, or for one for which no call waits. What comes before it is
// held aside. Where the subject is gone nobody rings for that, so it looks now and then: what the subject put was put before it went.
fn next_letter<S: Drop, R: Wait>(
    rt: &R,
    inbox: &mut Inbox<Reply<S>>,
    early: &mut Vec<Letter<Reply<S>>, Heap>,
    awaited: &mut Vec<Awaited, Heap>,
    port: &Port<Call<S>>,
    subject: usize,
) -> Option<Letter<Reply<S>>>
    requires { vec_len early.old + vec_len awaited.old ≤ vec_capacity early.old }
    ensures came { Comes inbox.old inbox.new early.old.items early.new.items subject (option_to_list result) }
    ensures room { vec_len early.new + vec_len awaited.new ≤ vec_capacity early.new }
    ensures count { vec_len early.new + vec_len awaited.new ≤ vec_len early.old + vec_len awaited.old }
{
    for _ in rt.forever() {
        let is_gone = port.is_inbox_gone();
        match inbox.recv_patiently(
            rt,
            Duration::from_millis(if is_gone { 0 } else { MOST_WAIT }),
        ) {
            Ok(letter) => {
                if letter.from as usize == subject || !stops_awaiting(awaited, &letter) {
                    return Some(letter);
                }
                early.push_reserved(letter);
            }
            Err(TryRecvFault::Empty) if !is_gone => {}
            Err(_) => return None,
        }
    }
    unreachable!()
}

// Whether a letter is the reply, without a sink, to the first call of its subject that is awaited. Then that is awaited no more.
fn stops_awaiting<S: Drop>(awaited: &mut Vec<Awaited, Heap>, letter: &Letter<Reply<S>>) -> bool
    ensures bare { IsTrue result → IsBare letter.now }
    ensures count { vec_len awaited.new + (if result then 1 else 0) ≡ vec_len awaited.old }
{
    let Post::Body(reply) = &letter.post else {
        return false;
    };
    let Some(at) = first_to(awaited, letter.from as usize) else {
        return false;
    };
    if awaited[at].ticket != reply.ticket || reply.sink.is_some() {
        return false;
    }
    let _awaited = awaited.remove(at);
    true
}

// Where the first letter of a subject stands.
fn first_from<S: Drop>(early: &Vec<Letter<Reply<S>>, Heap>, subject: usize) -> Option<usize>
    ensures { result ≡ position (λ x. x.from == subject) early.now.items }
{
    early
        .iter()
        .position(|letter| letter.from as usize == subject)
}

// Where the first call to a subject stands that is awaited.
fn first_to(awaited: &Vec<Awaited, Heap>, subject: usize) -> Option<usize>
    ensures { result ≡ position (λ call. call.subject == subject) awaited.now.items }
{
    awaited.iter().position(|call| call.subject == subject)
}

// Reads the reply of a subject to a ticket in a letter.
fn read<S: Drop>(
    letter: Letter<Reply<S>>,
    subject: usize,
    ticket: u64,
) -> Result<Reply<S>, CallError<S>>
    ensures { ReadsReply letter subject ticket result }
{
    let Letter { from, post } = letter;
    let Post::Body(reply) = post else {
        return Err(CallError::Strange { sink: None });
    };
    if from as usize != subject || reply.ticket != ticket {
        return Err(CallError::Strange { sink: reply.sink });
    }
    Ok(reply)
}

// Whether this answer ends the desk.
fn is_strange<S>(answered: &Result<Reply<S>, CallError<S>>) -> bool
    ensures { result ≡ desks.is_strange answered.now }
{
    matches!(answered, Err(CallError::Strange { sink: _ }))
}
