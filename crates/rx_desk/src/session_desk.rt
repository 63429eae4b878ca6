ghost use Rattle.std.specs.Prelude.{◌≡◌, ◌+◌, ◌-◌, ◌^◌, ◌<◌, ◌∷◌, List, [], None, length, slice_get, vec_len, IsTrue};
ghost use Rattle.rx_proto.specs.Reading.{same_word};
ghost use Rattle.rx_desk.specs.SessionDesks.{followed, is_publish, joined_by, no_queue, place_of};

use crate::begun_call::BegunCall;
use crate::client_sink::ClientSink;
use crate::joined::Joined;
use crate::moments::Moments;
use crate::responses::{has_joined, response_of, sink_back};
use arrayvec::ArrayVec;
use rx_config::{Config, SubjectConfig};
use rx_heap::Heap;
use rx_hub::SubjectLook;
use rx_note::{Answer, Event, Kind, Note, Policy};
use rx_proto::{Name, Response, Version, Word};
use rx_pump::{CallDesk, CallError, Reply, SharedLook};
use rx_session::{Desk, Follow};
use rx_sink::LineSink;
use std::io::Write;
use std::marker::Model;
use std::sync::Wait;

// How many calls may be posted that have no answer yet: as many as a session begins together.
const MOST_POSTED: usize = 32;

/// The desk of a session: it finds the subject of a name in the configuration, and makes one call to it for each command,
/// with the moment at which the command was given. The call of what is begun is posted, so that several go to their subjects together.
#[derive(Drop)]
pub struct SessionDesk<'a, R, M: Drop, W: Write + Drop> {
    rt: &'a R,
    // The memory for the texts of subjects without a budget.
    heap: &'a Heap,
    config: &'a Config,
    moments: M,
    calls: CallDesk<ClientSink<W>>,
    // Whom the last Join made.
    joined: Option<Joined>,
    // The places of the subjects to which calls were posted that have no answer yet, in their order.
    posted: ArrayVec<usize, MOST_POSTED>,
    // The call of what was begun last, where it could not be posted: it goes alone, once the others have their answers.
    waiting: Option<BegunCall>,
}

impl<'a, R, M: Drop, W: Write + Drop> Model for SessionDesk<'a, R, M, W> {
    ghost use Rattle.std.specs.Prelude.{◌+◌, ◌≡◌, ◌<◌, length, option_to_list, vec_len};
    ghost use Rattle.std.specs.List.{All};
    ghost use Rattle.rx_desk.specs.declared.client_sink.ClientSink.{ClientSink};
    ghost use Rattle.rx_desk.specs.SessionDesks.{SessionView};

    ghost Value = { SessionView M (ClientSink W) };

    ghost view = { λ d. record { subjects = d.config.now.subjects.items; window = d.config.now.window; moments = d.moments; calls = d.calls; joined = d.joined; queue = record { posted = d.posted.items; waiting = option_to_list d.waiting } } };

    ghost invariant = { λ d. (length d.calls.ports + length d.calls.ended ≡ vec_len d.config.now.subjects)
        × All (λ place. place < vec_len d.config.now.subjects) d.posted.items
        × All (λ call. call.place < vec_len d.config.now.subjects) (option_to_list d.waiting) };
}

impl<'a, R, M: Drop, W: Write + Drop> SessionDesk<'a, R, M, W> {
    ghost use Rattle.rx_desk.specs.SessionDesks.{place_of};

    /// The desk of a session over a desk that has a port for each subject, in the order of the configuration. The texts of
    /// subjects without a budget are made over `heap`.
    pub fn new(
        rt: &'a R,
        heap: &'a Heap,
        calls: CallDesk<ClientSink<W>>,
        config: &'a Config,
        moments: M,
    ) -> SessionDesk<'a, R, M, W>
        requires { length calls.ports + length calls.ended ≡ vec_len config.now.subjects }
        ensures { result ≡ record { subjects = config.now.subjects.items; window = config.now.window; moments = moments; calls = calls; joined = None; queue = no_queue } }
    {
        SessionDesk {
            rt,
            heap,
            config,
            moments,
            calls,
            joined: None,
            posted: ArrayVec::new(),
            waiting: None,
        }
    }

    /// The desk that made the calls, as they left it.
    pub fn into_desk(self) -> CallDesk<ClientSink<W>>
        ensures calls { result ≡ self.entry.calls }
        ensures ports { length result.ports + length result.ended ≡ length self.entry.subjects }
    {
        self.calls
    }

    /// Whom the last call made that a Join was sent by, if it made an observer.
    pub fn joined(&self) -> Option<Joined>
        ensures { result ≡ self.now.joined }
    {
        self.joined
    }

    /// The first request of an observer.
    pub(crate) fn window(&self) -> u32
        ensures { result ≡ self.now.window }
    {
        u32::from(self.config.window)
    }

    /// Whether the subject at this place is a Publish.
    pub(crate) fn is_publish(&self, place: usize) -> bool
        ensures { result ≡ is_publish (slice_get self.now.subjects place) }
    {
        match self.config.subjects.get(place) {
            Some(subject) => matches!(subject.rules.kind, Kind::Publish),
            None => false,
        }
    }

    /// The subjects of the configuration.
    pub(crate) fn subjects(&self) -> &[SubjectConfig]
        ensures { length result.now ≡ length self.now.subjects }
    {
        self.config.subjects.as_slice()
    }

    /// The place of the first subject of this name.
    pub(crate) fn place_of(&self, name: &Name) -> Option<usize>
        ensures { result ≡ place_of name.now self.now.subjects }
    {
        place_in(&self.config.subjects, name)
    }

    /// The memory for the texts of the subject at this place.
    pub(crate) fn memory_at(&self, place: usize) -> &Heap
        requires { place < length self.now.subjects }
    {
        self.config.subjects[place].memory(self.heap)
    }
}

impl<'a, R: Wait, M: Moments + Drop, W: Write + Drop> SessionDesk<'a, R, M, W> {
    ghost use Rattle.rx_desk.specs.SessionDesks.{AsksEmit, AsksItems, AsksJoin, Disposes, LooksAt};

    /// Joins an observer at the subject at this place, by one call with this sink and its first request.
    pub(crate) fn join(
        &mut self,
        place: usize,
        policy: Policy,
        first: u32,
        sink: ClientSink<W>,
    ) -> Result<Reply<ClientSink<W>>, CallError<ClientSink<W>>>
        requires { place < length self.old.subjects }
        ensures { AsksJoin M.tells self.old place policy first sink result self.new }
    {
        let at = self.moments.now();
        let event = Event::Join { policy, first, at };
        let answered = self.calls.call(self.rt, place, event, Some(sink));
        self.joined = joined_by(place, &answered);
        answered
    }

    /// Emits a note at the subject at this place, by one call.
    pub(crate) fn emit_at(
        &mut self,
        place: usize,
        note: Note,
    ) -> Result<Reply<ClientSink<W>>, CallError<ClientSink<W>>>
        requires { place < length self.old.subjects }
        ensures { AsksEmit M.tells self.old place note result self.new }
    {
        let at = self.moments.now();
        self.calls
            .call(self.rt, place, Event::Emit { note, at }, None)
    }

    /// Asks for so many items more for an observer of the subject at this place, by one call.
    pub(crate) fn request(
        &mut self,
        place: usize,
        who: u32,
        items: u32,
    ) -> Result<Reply<ClientSink<W>>, CallError<ClientSink<W>>>
        requires { place < length self.old.subjects }
        ensures { AsksItems self.old place who items result self.new }
    {
        self.calls
            .call(self.rt, place, Event::Request { who, n: items }, None)
    }

    /// What is seen of the subject at this place, by one call that it refuses and that changes nothing. None where there was no memory
    /// for it, and no call was made, or where the thread of the subject is gone.
    pub(crate) fn look(&mut self, place: usize, shown: &SharedLook) -> Option<SubjectLook>
        requires { place < length self.old.subjects }
        ensures { LooksAt self.old place self.new }
    {
        if shown.want(self.rt).is_err() {
            return None;
        }
        let event = Event::Request {
            who: u32::MAX,
            n: 0,
        };
        drop(self.calls.call(self.rt, place, event, None));
        shown.take(self.rt)
    }

    /// Disposes of an observer, by one call to its subject; one that has left by then is refused there. Nothing is done where
    /// the configuration has no such subject.
    pub fn dispose(&mut self, observer: Joined)
        ensures { Disposes self.old observer self.new }
    {
        if observer.subject >= self.config.subjects.len() {
            return;
        }
        let event = Event::Dispose { who: observer.who };
        drop(self.calls.call(self.rt, observer.subject, event, None));
    }
}

impl<'a, R: Wait, M: Moments + Drop, W: Write + Drop> SessionDesk<'a, R, M, W> {
    ghost use Rattle.rx_note.specs.declared.note.Note.{Note};
    ghost use Rattle.rx_session.specs.Begun.{Asked, IsBehind};
    ghost use Rattle.rx_desk.specs.Queues.{GoesBehind, Waits, with_waiting};
    ghost use Rattle.rx_desk.specs.SessionDesks.{SessionView, emits};

    // Whether a note may be begun behind so many: these are just what is begun, each call of theirs was posted, and there is room for one
    // more.
    fn goes_behind(&self, behind: u32) -> bool
        ensures { IsTrue result → GoesBehind self.now behind }
    {
        self.waiting.is_none()
            && self.posted.len() == behind as usize
            && self.posted.len() < MOST_POSTED
    }

    // Posts the call of what is begun; where that can't be it waits.
    fn post(&mut self, call: BegunCall)
        requires place { call.place < length self.old.subjects }
        requires none { self.old.queue.waiting ≡ [] }
        requires room { length self.old.queue.posted < 32 }
        ensures { (base : SessionView M (ClientSink W)) (begun : List Asked) → Waits M.tells base begun (with_waiting call self.old) → Waits M.tells base begun self.new }
    {
        let BegunCall { place, event } = call;
        match self.calls.post(self.rt, place, event) {
            Ok(()) => self.posted.push(place),
            Err(event) => drop(self.waiting.replace(BegunCall { place, event })),
        }
    }

    // The response to the oldest call that was posted and has none.
    fn next_answer(&mut self) -> Response
        requires { 0 < length self.old.queue.posted }
        ensures { (base : SessionView M (ClientSink W)) (first : Asked) (rest : List Asked) → Waits M.tells base (first ∷ rest) self.old
            → (after : SessionView M (ClientSink W)) × emits M.tells base first.name first.note result after × IsBehind (Waits M.tells) after rest self.new }
    {
        let before = self
            .calls
            .tickets()
            .saturating_sub(self.posted.len() as u64);
        let place = self.posted.remove(0);
        let ticket = before.saturating_add(1);
        let answered = self.calls.answer(self.rt, place, ticket);
        response_of(&answered)
    }

    // Makes the call that waits, alone.
    fn call_waiting(&mut self) -> Response
        requires { self.old.queue.posted ≡ [] }
        ensures { (base : SessionView M (ClientSink W)) (first : Asked) (rest : List Asked) → Waits M.tells base (first ∷ rest) self.old
            → (after : SessionView M (ClientSink W)) × emits M.tells base first.name first.note result after × IsBehind (Waits M.tells) after rest self.new }
    {
        let Some(call) = self.waiting.take() else {
            return Response::Done;
        };
        let BegunCall { place, event } = call;
        let answered = self.calls.call(self.rt, place, event, None);
        response_of(&answered)
    }
}

impl<'a, R: Wait, M: Moments + Drop, W: Write + Drop> Desk<W> for SessionDesk<'a, R, M, W> {
    ghost use Rattle.rx_pump.specs.Desks.{IsOver};
    ghost use Rattle.rx_desk.specs.Queues.{Waits};
    ghost use Rattle.rx_desk.specs.SessionDesks.{emits, follows, has_subject};

    ghost knows = { has_subject };

    ghost emits = { emits M.tells };

    ghost waits = { Waits M.tells };

    ghost follows = { follows M.tells };

    fn memory(&self, name: &Name) -> Option<&Heap> {
        let Some(place) = self.place_of(name) else {
            return None;
        };
        Some(self.memory_at(place))
    }

    fn emit(&mut self, name: &Name, note: Note) -> Response
        ensures emits { emits M.tells self.old name.now note result self.new }

        // What was begun may have been put before; an emission at a desk that makes no call any more puts nothing.
        ensures over { IsOver self.old.calls → self.new.calls ≡ self.old.calls }
    {
        let Some(place) = self.place_of(name) else {
            return Response::Refused(Word::Subject);
        };
        let answered = self.emit_at(place, note);
        response_of(&answered)
    }

    // Whatever subject it is for: the calls of several go side by side. For a name that no subject has, no text is made.
    fn may_begin(&self, _name: &Name) -> bool {
        self.waiting.is_none()
    }

    fn begin(&mut self, name: &Name, note: Note, behind: u32) -> Result<(), Note> {
        let Some(place) = self.place_of(name) else {
            return Err(note);
        };
        if !self.goes_behind(behind) {
            return Err(note);
        }
        let at = self.moments.now();
        self.post(BegunCall {
            place,
            event: Event::Emit { note, at },
        });
        Ok(())
    }

    fn answer(&mut self) -> Response {
        if self.posted.is_empty() {
            return self.call_waiting();
        }
        self.next_answer()
    }

    fn follow(&mut self, name: &Name, policy: Policy, version: Version, writer: W) -> Follow<W> {
        let Some(place) = self.place_of(name) else {
            return Follow::Back(Response::Refused(Word::Subject), writer);
        };
        let first = self.window();
        let sink = ClientSink::Lines(LineSink::gathering(writer, version));
        followed(self.join(place, policy, first, sink))
    }
}

// The place of the first subject of this name.
fn place_in(subjects: &Vec<SubjectConfig, Heap>, name: &Name) -> Option<usize>
    ensures { result ≡ place_of name.now subjects.now.items }
{
    subjects.iter().position(|subject| is_named(subject, name))
}

fn is_named(subject: &SubjectConfig, name: &Name) -> bool
    ensures { result ≡ same_word subject.now.name name.now }
{
    subject.name == *name
}

// Whom a call to the subject at this place made.
fn joined_by<W: Write + Drop>(
    subject: usize,
    answered: &Result<Reply<ClientSink<W>>, CallError<ClientSink<W>>>,
) -> Option<Joined>
    ensures { result ≡ joined_by subject answered.now }
{
    match answered {
        Ok(reply) => match reply.result {
            Ok(Answer::Joined(who)) => Some(Joined { subject, who }),
            _ => None,
        },
        Err(_) => None,
    }
}

// What becomes of the writer, by the answer to the call of its sink.
fn followed<W: Write + Drop>(
    answered: Result<Reply<ClientSink<W>>, CallError<ClientSink<W>>>,
) -> Follow<W>
    ensures { result ≡ followed answered }
{
    if has_joined(&answered) {
        return Follow::Taken;
    }
    let response = response_of(&answered);
    match sink_back(answered) {
        None => Follow::Taken,
        Some(sink) => Follow::Back(response, sink.into_writer()),
    }
}
