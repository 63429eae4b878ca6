ghost use Rattle.std.specs.Prelude.{◌≡◌, ◌+◌, IfOk, None, Some, length};
ghost use Rattle.rx_note.specs.declared.event.Event.TheVariants.{Emit, Join, Request, Dispose};
ghost use Rattle.rx_note.specs.declared.note.Note.TheVariants.{Completed, Failed, Next};
ghost use Rattle.rx_caller.specs.Calling.{answer_of, sink_of};

use crate::origin::Origin;
use crate::{CallerError, EndedCaller, NotJoined};
use rx_note::{Answer, Event, Item, Note, Policy, Text};
use rx_pump::{CallDesk, CallError, Reply};
use rx_server::Server;
use rx_sink::Sink;
use std::marker::Model;
use std::sync::Wait;

/// Calls the subjects of a server, one call at a time, and waits for each answer. A subject is named by its place in the
/// configuration, from 0. A caller that is let go without `finish` stops nobody, but the close of the server answers `Unsettled`.
///
/// Each call is refused in the order `NoSubject`, `Gone`, `Refused`: [`CallerError`] says when, and what it leaves. All but `call`
/// emit and join at the moment 0; a Replay that goes by age wants others, in milliseconds, in the event of a `call`.
pub struct Caller<S: Sink> {
    pub(crate) desk: CallDesk<S>,
    // Its server: contracts alone see it.
    pub(crate) server: Origin<Server<S>>,
}

// It stands here, and isn't derived, so that what lets go of it is one call that is proved once.
impl<S: Sink> Drop for Caller<S> {
    fn drop(self) {
        let Caller { desk: _, server: _ } = self;
    }
}

impl<S: Sink> Model for Caller<S> {
    ghost use Rattle.rx_server.specs.Servers.{IsDeskOf};
    ghost use Rattle.rx_caller.specs.Calling.{CallerView};

    ghost Value = { CallerView S };

    ghost view = { λ c. record { desk = c.desk; made = c.server.value.made } };

    ghost invariant = { λ c. IsDeskOf c.server.value.made c.desk };
}

impl<S: Sink> Caller<S> {
    ghost use Rattle.rx_caller.specs.Calling.{Answers, Calls, Joins};

    /// How many subjects its server has.
    pub fn subjects(&self) -> usize
        ensures { result ≡ length self.now.desk.ports + length self.now.desk.ended }
    {
        self.desk.subjects()
    }

    /// Makes a call of this event, with a sink where it joins an observer. Its answer, or why there is none; and the sink, where
    /// it did not go to a drainer.
    pub fn call<R: Wait>(
        &mut self,
        rt: &R,
        subject: usize,
        event: Event,
        sink: Option<S>,
    ) -> (Result<Answer, CallerError>, Option<S>)
        ensures calls { Calls self.old self.new subject event sink result.0 result.1 }
        ensures made { self.new.made ≡ self.old.made }
    {
        if subject >= self.desk.subjects() {
            return (Err(CallerError::NoSubject), sink);
        }
        told(self.desk.call(rt, subject, event, sink))
    }

    /// Emits a note.
    pub fn emit<R: Wait>(&mut self, rt: &R, subject: usize, note: Note) -> Result<(), CallerError>
        ensures answers { Answers self.old self.new subject (Emit note 0) result }
        ensures made { self.new.made ≡ self.old.made }
    {
        self.answer(rt, subject, Event::Emit { note, at: 0 })
    }

    /// Emits an item of this text.
    pub fn publish<R: Wait>(
        &mut self,
        rt: &R,
        subject: usize,
        text: Text,
    ) -> Result<(), CallerError>
        ensures answers { Answers self.old self.new subject (Emit (Next (record { from = 0; place = 0; text = text })) 0) result }
        ensures made { self.new.made ≡ self.old.made }
    {
        self.emit(rt, subject, Note::Next(Item::new(text)))
    }

    /// Completes a subject, for good.
    pub fn complete<R: Wait>(&mut self, rt: &R, subject: usize) -> Result<(), CallerError>
        ensures answers { Answers self.old self.new subject (Emit Completed 0) result }
        ensures made { self.new.made ≡ self.old.made }
    {
        self.emit(rt, subject, Note::Completed)
    }

    /// Ends a subject by an error of this text, for good.
    pub fn fail<R: Wait>(&mut self, rt: &R, subject: usize, text: Text) -> Result<(), CallerError>
        ensures answers { Answers self.old self.new subject (Emit (Failed text) 0) result }
        ensures made { self.new.made ≡ self.old.made }
    {
        self.emit(rt, subject, Note::Failed(text))
    }

    /// Joins an observer by this policy, whose notes the sink takes, and requests the `first` items for it: so many may be on their
    /// way to the sink, since one more is requested for each that it took. Its number, from 0; or why there is none, and the sink,
    /// where it came back.
    pub fn join<R: Wait>(
        &mut self,
        rt: &R,
        subject: usize,
        policy: Policy,
        first: u32,
        sink: S,
    ) -> Result<u32, NotJoined<S>>
        ensures joins { Joins self.old self.new subject (Join policy first 0) sink result }
        ensures made { self.new.made ≡ self.old.made }
    {
        let event = Event::Join {
            policy,
            first,
            at: 0,
        };
        match self.call(rt, subject, event, Some(sink)) {
            (Ok(Answer::Joined(who)), _) => Ok(who),
            (Ok(_), sink) => Err(NotJoined {
                cause: CallerError::Gone,
                sink,
            }),
            (Err(cause), sink) => Err(NotJoined { cause, sink }),
        }
    }

    /// Requests `n` items more for the observer `who`, beside those that are requested for each that its sink took.
    pub fn request<R: Wait>(
        &mut self,
        rt: &R,
        subject: usize,
        who: u32,
        n: u32,
    ) -> Result<(), CallerError>
        ensures answers { Answers self.old self.new subject (Request who n) result }
        ensures made { self.new.made ≡ self.old.made }
    {
        self.answer(rt, subject, Event::Request { who, n })
    }

    /// Has the observer `who` leave: it is given nothing more, and what waits for it is discarded.
    pub fn dispose<R: Wait>(&mut self, rt: &R, subject: usize, who: u32) -> Result<(), CallerError>
        ensures answers { Answers self.old self.new subject (Dispose who) result }
        ensures made { self.new.made ≡ self.old.made }
    {
        self.answer(rt, subject, Event::Dispose { who })
    }

    /// Ends it: a server that is closed waits for that. What it left goes back by [`crate::Callers::take`].
    ///
    /// # Errors
    ///
    /// `Gone`: a subject is, and the caller has ended as if it was let go.
    pub fn finish<R: Wait>(self, rt: &R) -> Result<EndedCaller<S>, CallerError>
        ensures made { IfOk result (λ ended. ended.made ≡ self.made) }
    {
        let Caller { desk, server } = self;
        match desk.finish(rt) {
            Ok(desk) => Ok(EndedCaller { desk, server }),
            Err(_) => Err(CallerError::Gone),
        }
    }

    // Makes a call without a sink, of whose answer only matters that it is one.
    fn answer<R: Wait>(&mut self, rt: &R, subject: usize, event: Event) -> Result<(), CallerError>
        ensures answers { Answers self.old self.new subject event result }
        ensures made { self.new.made ≡ self.old.made }
    {
        match self.call(rt, subject, event, None) {
            (Ok(_), _) => Ok(()),
            (Err(error), _) => Err(error),
        }
    }
}

// What a desk's call tells its caller, and the sink, where it came back.
fn told<S: Drop>(called: Result<Reply<S>, CallError<S>>) -> (Result<Answer, CallerError>, Option<S>)
    ensures { (result.0 ≡ answer_of called) × (result.1 ≡ sink_of called) }
{
    match called {
        Ok(
            Reply {
                ticket: _,
                result,
                sink,
                items: _,
            },
        ) => match result {
            Ok(answer) => (Ok(answer), sink),
            Err(refusal) => (Err(CallerError::Refused(refusal)), sink),
        },
        Err(CallError::SubjectGone { sink } | CallError::Strange { sink }) => {
            (Err(CallerError::Gone), sink)
        }
    }
}
