//! The desks of servers as these tests use them: a call that is not answered ends the test.

ghost use Rattle.std.specs.Prelude.{◌≡◌, List};
ghost use Rattle.std.specs.List.{All};
ghost use Rattle.rx_pump.specs.Desks.{DeskView, KeepsDesk};
ghost use Rattle.rx_server.specs.Servers.{IsDeskOf, IsEndOf};

use crate::expectations::expect_answer;
use crate::servers::copy;
use rx_drain::Sink;
use rx_heap::Heap;
use rx_note::{Answer, Errors, Event, Item, Note, Policy, Refusal, Strategy, Text};
use rx_pump::{CallDesk, EndedDesk};
use rx_server::Server;
use std::process::Abort;
use std::sync::Wait;

/// A desk of a server.
#[derive(Drop)]
pub(crate) struct Caller<S: Drop> {
    desk: CallDesk<S>,
}

// The next desk of a server.
pub(crate) fn caller_of<S: Sink>(rt: &impl Abort, server: &mut Server<S>) -> Caller<S>
    ensures own { IsDeskOf server.old.made result.desk }
    ensures same { server.new.made ≡ server.old.made }
{
    let desk = server.desk().expect(rt, "a desk");
    Caller { desk }
}

impl<S: Drop> Caller<S> {
    /// What a subject answers.
    pub(crate) fn call(
        &mut self,
        rt: &(impl Wait + Abort),
        subject: usize,
        event: Event,
        sink: Option<S>,
    ) -> Result<Answer, Refusal>
        ensures { KeepsDesk self.old.desk self.new.desk }
    {
        assert!(rt; subject < self.desk.subjects(), "subject {subject}");
        match self.desk.call(rt, subject, event, sink) {
            Ok(reply) => reply.result,
            Err(_) => panic!(rt; "no reply"),
        }
    }

    // Joins an observer of a subject with this first request, whose notes go to the sink.
    pub(crate) fn join(
        &mut self,
        rt: &(impl Wait + Abort),
        subject: usize,
        first: u32,
        sink: S,
    ) -> Result<Answer, Refusal>
        ensures { KeepsDesk self.old.desk self.new.desk }
    {
        let policy = Policy::new(Strategy::Buffer, Errors::Delay).expect(rt, "a policy");
        let event = Event::Join {
            policy,
            first,
            at: 0,
        };
        self.call(rt, subject, event, Some(sink))
    }

    // Emits the item of this one byte into a subject.
    pub(crate) fn emit(
        &mut self,
        rt: &(impl Wait + Abort),
        heap: &Heap,
        subject: usize,
        byte: u8,
    ) -> Result<Answer, Refusal>
        ensures { KeepsDesk self.old.desk self.new.desk }
    {
        let text = Text::new(copy(rt, heap), &[byte]).expect(rt, "a text");
        let note = Note::Next(Item::new(text));
        self.call(rt, subject, Event::Emit { note, at: 0 }, None)
    }

    // Posts the item of this one byte to a subject, and answers whether it goes.
    pub(crate) fn post(
        &mut self,
        rt: &(impl Wait + Abort),
        heap: &Heap,
        subject: usize,
        byte: u8,
    ) -> bool
        ensures { KeepsDesk self.old.desk self.new.desk }
    {
        assert!(rt; subject < self.desk.subjects(), "subject {subject}");
        let text = Text::new(copy(rt, heap), &[byte]).expect(rt, "a text");
        let note = Note::Next(Item::new(text));
        self.desk
            .post(rt, subject, Event::Emit { note, at: 0 })
            .is_ok()
    }

    // What a subject answers to the oldest call that was posted, which has this ticket.
    pub(crate) fn answer(
        &mut self,
        rt: &(impl Wait + Abort),
        subject: usize,
        ticket: u64,
    ) -> Result<Answer, Refusal>
        ensures { KeepsDesk self.old.desk self.new.desk }
    {
        assert!(rt; subject < self.desk.subjects(), "subject {subject}");
        match self.desk.answer(rt, subject, ticket) {
            Ok(reply) => reply.result,
            Err(_) => panic!(rt; "no reply"),
        }
    }

    // How many tickets it used.
    pub(crate) fn tickets(&self) -> u64 {
        self.desk.tickets()
    }

    // Emits the item of this one byte into each of so many subjects, which admit it.
    fn emit_to_each(&mut self, rt: &(impl Wait + Abort), heap: &Heap, subjects: usize, byte: u8)
        ensures { KeepsDesk self.old.desk self.new.desk }
    {
        for subject in 0..subjects {
            expect_answer(rt, self.emit(rt, heap, subject, byte), Ok(Answer::Admitted));
        }
    }

    // What the desk leaves.
    pub(crate) fn finish(self, rt: &(impl Wait + Abort)) -> EndedDesk<S>
        ensures { (made : List (DeskView S)) → IsDeskOf made self.desk → IsEndOf made result }
    {
        match self.desk.finish(rt) {
            Ok(ended) => ended,
            Err(_) => panic!(rt; "the desk came back"),
        }
    }

    // The list of this one desk, ended.
    pub(crate) fn finish_alone(
        self,
        rt: &(impl Wait + Abort),
        heap: &Heap,
    ) -> Vec<EndedDesk<S>, Heap>
        ensures { (made : List (DeskView S)) → IsDeskOf made self.desk → All (IsEndOf made) result.items }
    {
        vec![in copy(rt, heap); self.finish(rt)].expect(rt, "memory")
    }
}

// Emits all items into each of so many subjects, which admit them, and ends the desk.
pub(crate) fn emit_all<S: Drop>(
    rt: &(impl Wait + Abort),
    heap: &Heap,
    caller: Caller<S>,
    subjects: usize,
    bytes: &[u8],
) -> EndedDesk<S>
    ensures { (made : List (DeskView S)) → IsDeskOf made caller.desk → IsEndOf made result }
{
    let mut caller = caller;
    for byte in bytes {
        caller.emit_to_each(rt, heap, subjects, *byte);
    }
    caller.finish(rt)
}
