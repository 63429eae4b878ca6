// Calls that are posted go to a subject as one letter of the channel, and only then is the first of their replies waited for.
// Those to several subjects go before any of their replies is waited for, so that the subjects work side by side.
// `post` takes a call only where the port holds it back and has a second list at hand, which takes the first one's place as
// that goes (`Port::hold_back`); else the call is made alone.
ghost use Rattle.std.specs.Prelude.{◌≡◌, ◌+◌, ◌<◌, [], ◌++◌, true, map, length, Err, IfOk, MatchResult};
ghost use Rattle.std.specs.List.{All};
ghost use Rattle.rx_mailbox.specs.PortRows.{IsFresh};
ghost use Rattle.rx_mailbox.specs.PortRows.{with_bye, EndsSome};

pub(crate) mod call_error;
pub(crate) mod desk_parts;
pub(crate) mod ended_desk;
pub(crate) mod exchange;
pub(crate) mod replies;

use crate::call::Call;
use crate::call_desk::call_error::CallError;
use crate::call_desk::desk_parts::DeskParts;
use crate::call_desk::ended_desk::EndedDesk;
use crate::call_desk::exchange::{post_call, ring_held, send_call};
use crate::call_desk::replies::Replies;
use crate::reply::Reply;
use rx_heap::{Heap, room};
use rx_mailbox::{EndedPort, Inbox, Port, finish_all, let_go_all};
use rx_note::Event;
use std::marker::Model;
use std::sync::Wait;

/// A caller's side: its ports to subjects, and the inbox of its replies. It makes one call at a time, or posts some and has their
/// answers then, in the order of each subject; each has the next ticket, from 1 on.
pub struct CallDesk<S: Drop> {
    ports: Vec<Port<Call<S>>, Heap>,
    replies: Replies<S>,
    // Room for each port once it has ended.
    ended: Vec<EndedPort<Call<S>>, Heap>,
    tickets: u64,
    // A port may hold a call back.
    holds: bool,
}

// A desk that is let go without its end stops no subject: its ports end all the same, and the replies to what it posted go
// nowhere.
impl<S: Drop> Drop for CallDesk<S> {
    fn drop(self) {
        let CallDesk {
            ports,
            replies: _,
            ended: _,
            tickets: _,
            holds: _,
        } = self;
        let_go_all(ports);
    }
}

impl<S: Drop> Model for CallDesk<S> {
    ghost use Rattle.std.specs.Prelude.{◌+◌, ◌≤◌, ◌≡◌, [], false, vec_len, vec_capacity};
    ghost use Rattle.rx_mailbox.specs.Boxes.{all_told};
    ghost use Rattle.rx_pump.specs.Desks.{DeskView, AreUpTo, TicketsRise};
    ghost use Rattle.rx_pump.specs.Early.{call_count};

    ghost Value = { DeskView S };

    ghost view = { λ d. record { ports = all_told d.ports.items; inbox = d.replies.inbox; ended = d.ended.items; tickets = d.tickets; is_over = d.replies.is_over } };

    ghost invariant = { λ d. AreUpTo d.tickets (all_told d.ports.items) × TicketsRise (all_told d.ports.items) × TicketsRise d.ended.items
        × (d.replies.is_over ≡ false → d.ended.items ≡ [])
        × (vec_len d.ended + vec_len d.ports ≤ vec_capacity d.ended)
        × (call_count d.replies ≤ d.tickets) };
}

impl<S: Drop> CallDesk<S> {
    ghost use Rattle.rx_pump.specs.Desks.{Awaits, Called, IsOver, IsPosted, KeepsDesk, LeavesInbox, TicketsRise, fresh_desk};

    /// A desk of new ports, one to each subject, and the inbox of their replies. `Err` gives them back where there was no
    /// memory for it.
    pub fn new(
        alloc: Heap,
        ports: Vec<Port<Call<S>>, Heap>,
        inbox: Inbox<Reply<S>>,
    ) -> Result<CallDesk<S>, DeskParts<S>>
        requires ports { All IsFresh ports.items }
        requires inbox { inbox.received ≡ [] }
        ensures { MatchResult result
            (λ desk. desk ≡ fresh_desk ports.items inbox)
            (λ back. back ≡ record { ports = ports; inbox = inbox }) }
    {
        let Ok(ended) = room(&alloc, ports.len()) else {
            return Err(DeskParts { ports, inbox });
        };
        match Replies::new(&alloc, inbox) {
            Ok(replies) => Ok(CallDesk {
                ports,
                replies,
                ended,
                tickets: 0,
                holds: false,
            }),
            Err(inbox) => Err(DeskParts { ports, inbox }),
        }
    }

    /// How many subjects it has a port to, ended or not. A call is to one of them, by a number from 0.
    pub fn subjects(&self) -> usize
        ensures { result ≡ length self.now.ports + length self.now.ended }
    {
        self.ports.len() + self.ended.len()
    }

    /// Sends a call to a subject, and waits for its reply. Refused in the order `SubjectGone`, `Strange`. After `Strange`,
    /// after the ticket 18,446,744,073,709,551,615 and after a `finish` that came back, each call is `SubjectGone` with
    /// its sink, and changes nothing.
    pub fn call<R: Wait>(
        &mut self,
        rt: &R,
        subject: usize,
        event: Event,
        sink: Option<S>,
    ) -> Result<Reply<S>, CallError<S>>
        requires { subject < length self.old.ports + length self.old.ended }
        ensures called { Called self.old self.new subject event sink result }
        ensures kept { KeepsDesk self.old self.new }
        ensures over { IsOver self.old → (result ≡ Err (CallError.SubjectGone sink)) × (self.new ≡ self.old) }
    {
        if self.replies.is_over() || self.tickets == u64::MAX {
            return Err(CallError::SubjectGone { sink });
        }
        let ticket = self.tickets + 1;
        let call = Call {
            ticket,
            event,
            sink,
        };
        if let Err(sink) = send_call(rt, &mut self.ports, subject, call) {
            return Err(CallError::SubjectGone { sink });
        }
        self.tickets = ticket;
        self.replies
            .reply(rt, &self.ports[subject], subject, ticket)
    }

    /// Sends a call of this event to a subject, without a sink, and waits for no reply: that is to be waited for by `answer`. The
    /// call goes with others that are sent so, at the latest as the first of their answers is waited for. `Err` gives the event
    /// back, and nothing changed: where the desk makes no call any more, where the subject is gone, where the call would have to
    /// go alone, or where there was no memory to hold its reply aside, should that come early.
    pub fn post<R: Wait>(&mut self, rt: &R, subject: usize, event: Event) -> Result<(), Event>
        requires { subject < length self.old.ports + length self.old.ended }
        ensures posted { MatchResult result
            (λ _. IsPosted self.old self.new subject event)
            (λ back. (back ≡ event) × (self.new ≡ self.old)) }
        ensures kept { KeepsDesk self.old self.new }
    {
        if self.replies.is_over() || self.tickets == u64::MAX {
            return Err(event);
        }
        let ticket = self.tickets + 1;
        let Ok(()) = self.replies.await_reply(subject, ticket) else {
            return Err(event);
        };
        let call = Call {
            ticket,
            event,
            sink: None,
        };
        match post_call(rt, &mut self.ports, subject, call) {
            Ok(()) => {
                self.tickets = ticket;
                self.holds = true;
                Ok(())
            }
            Err(event) => {
                self.replies.await_one_less();
                Err(event)
            }
        }
    }

    /// Waits for the reply of a subject to the call with this ticket, the oldest of those that were posted to it and have no answer.
    /// Where no such call was posted, and of a desk that makes no call any more, it is `SubjectGone` at once, and nothing changed.
    /// Refused else as `call` is.
    pub fn answer<R: Wait>(
        &mut self,
        rt: &R,
        subject: usize,
        ticket: u64,
    ) -> Result<Reply<S>, CallError<S>>
        requires { subject < length self.old.ports + length self.old.ended }
        ensures awaits { Awaits self.old self.new subject ticket result }
        ensures kept { KeepsDesk self.old self.new }
    {
        if self.replies.is_over() {
            return Err(CallError::SubjectGone { sink: None });
        }
        ring_held(rt, &mut self.ports, &mut self.holds);
        self.replies
            .awaited_reply(rt, &self.ports[subject], subject, ticket)
    }

    /// How many tickets it used, and so the ticket of the last call that it sent.
    pub fn tickets(&self) -> u64
        ensures { result ≡ self.now.tickets }
    {
        self.tickets
    }

    /// Ends the ports in their order. `Err` gives the desk back where a subject is gone: from then on each call is
    /// `SubjectGone`, and a second `finish` goes on where this one stopped. The tickets of what a port put rise.
    pub fn finish<R: Wait>(self, rt: &R) -> Result<EndedDesk<S>, CallDesk<S>>
        ensures tickets { IfOk result (λ ended. TicketsRise ended.ports.items) }
        ensures ended { MatchResult result
            (λ ended. (ended.ports.items ≡ self.ended ++ map with_bye self.ports) × LeavesInbox self ended.inbox)
            (λ back. EndsSome self.ports back.ports self.ended back.ended
            × (back.inbox ≡ self.inbox) × (back.tickets ≡ self.tickets) × (back.is_over ≡ true)) }
    {
        let CallDesk {
            mut ports,
            mut replies,
            mut ended,
            tickets,
            holds,
        } = self;
        match finish_all(rt, &mut ports, &mut ended) {
            Ok(()) => Ok(EndedDesk {
                ports: ended,
                inbox: replies.into_inbox(),
            }),
            Err(_) => {
                replies.end();
                Err(CallDesk {
                    ports,
                    replies,
                    ended,
                    tickets,
                    holds,
                })
            }
        }
    }
}
