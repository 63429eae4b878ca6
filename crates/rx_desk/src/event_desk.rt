ghost use Rattle.std.specs.Prelude.{◌≡◌, ◌-◌, ◌^◌, ◌<◌, ◌&&◌, ◌⊎◌, length};
ghost use Rattle.rx_http.specs.declared.answer.refusal.Refusal.TheVariants as causes;
ghost use Rattle.rx_desk.specs.ClientSinks.{writer_of};
ghost use Rattle.rx_desk.specs.EventDesks.{first_begin, has_reply, held_with};

mod emissions;
mod line_emissions;

use crate::askers::Askers;
use crate::causes::{joining_by, requested_by};
use crate::client_sink::ClientSink;
use crate::event_desk::line_emissions::none_emitted;
use crate::event_sinks::{first_of, sink_over, tempo_of};
use crate::grants::Grants;
use crate::joined::Joined;
use crate::kept_answers::KeptAnswers;
use crate::moments::Moments;
use crate::responses::has_joined;
use crate::session_desk::SessionDesk;
use crate::stop::SharedStop;
use rx_events::SharedPulse;
use rx_exchange::{Emitted, EmittedLines, Front, Joining};
use rx_heap::{Heap, Memory};
use rx_http::{
    Begin, Credit, Document, Epoch, IdempotencyKey, LookForm, NoteKind, ObserverId, Refusal,
};
use rx_hub::SubjectLook;
use rx_note::Policy;
use rx_proto::Name;
use rx_pump::{CallError, Reply, SharedLook};
use rx_stats::{SharedCrowd, page_of};
use std::io::Write;
use std::marker::Model;
use std::sync::Wait;

/// The desk of browsers: it finds the subject of a name in the configuration, and makes one call to it, the emission of a note, or a Join
/// with a sink that tells the observer's notes as events. It holds no more observers at a time than there may be readers.
pub struct EventDesk<'a, R, M: Drop, W: Write + Drop> {
    session: SessionDesk<'a, R, M, W>,
    // The memory for the sinks.
    heap: &'a Heap,
    epoch: Epoch,
    grants: Grants,
    // What shows each subject.
    looks: Vec<SharedLook, Heap>,
    // What time it is for the sinks.
    pulse: SharedPulse,
    // How many connections the server has.
    crowd: SharedCrowd,
    // How many observers joined and were not disposed of.
    held: u32,
    // Those of them whose readers ask for items themselves.
    askers: Askers,
    // What emissions by a key were answered.
    kept: KeptAnswers,
    // Each call so far had a reply.
    is_well: bool,
    // By which who serves hears that it is to stop.
    stop: SharedStop,
    // It was asked to.
    stopping: bool,
}

// By hand: rx_heap says why.
impl<'a, R, M: Drop, W: Write + Drop> Drop for EventDesk<'a, R, M, W> {
    fn drop(self) {
        let EventDesk {
            session: _,
            heap: _,
            epoch: _,
            grants: _,
            looks: _,
            pulse: _,
            crowd: _,
            held: _,
            askers: _,
            kept: _,
            is_well: _,
            stop: _,
            stopping: _,
        } = self;
    }
}

impl<'a, R, M: Drop, W: Write + Drop> Model for EventDesk<'a, R, M, W> {
    ghost use Rattle.rx_desk.specs.Askers.{observers_in};
    ghost use Rattle.rx_desk.specs.EventDesks.{EventView};
    ghost use Rattle.rx_desk.specs.KeptAnswers.{listed};
    ghost use Rattle.rx_desk.specs.declared.client_sink.ClientSink.{ClientSink};

    ghost Value = { EventView M (ClientSink W) };

    ghost view = { λ d. record { session = d.session; epoch = d.epoch; grants = d.grants; held = d.held; asking = observers_in d.askers; kept = listed d.kept.ring; is_well = d.is_well; stopping = d.stopping } };
}

impl<'a, R, M: Drop, W: Write + Drop> EventDesk<'a, R, M, W> {
    ghost use Rattle.std.specs.Prelude.{false, true, []};

    /// The desk of the browsers of a server of this epoch that grants them so much, over a session's desk that begins. The sinks of readers
    /// stand in this memory, and tell heartbeats by this pulse; by `looks` the subjects are seen, in their order, and by `crowd` how many
    /// connections there are. Who serves hears by `stop` that it is to stop.
    pub fn new(
        session: SessionDesk<'a, R, M, W>,
        heap: &'a Heap,
        epoch: Epoch,
        grants: Grants,
        looks: Vec<SharedLook, Heap>,
        pulse: SharedPulse,
        crowd: SharedCrowd,
        stop: SharedStop,
    ) -> EventDesk<'a, R, M, W>
        ensures { result ≡ record { session = session.entry; epoch = epoch; grants = grants; held = 0; asking = []; kept = []; is_well = true; stopping = false } }
    {
        EventDesk {
            session,
            heap,
            epoch,
            grants,
            looks,
            pulse,
            crowd,
            held: 0,
            askers: Askers::new(),
            kept: KeptAnswers::new(),
            is_well: true,
            stop,
            stopping: false,
        }
    }

    /// The session's desk by which it made its calls.
    pub fn into_session(self) -> SessionDesk<'a, R, M, W>
        ensures { result ≡ self.entry.session }
    {
        let EventDesk {
            session,
            heap: _,
            epoch: _,
            grants: _,
            looks: _,
            pulse: _,
            crowd: _,
            held: _,
            askers: _,
            kept: _,
            is_well: _,
            stop: _,
            stopping: _,
        } = self;
        session
    }

    /// Whom the last call made that a Join was sent by, if it made an observer.
    pub fn joined(&self) -> Option<Joined>
        ensures { result ≡ self.now.session.joined }
    {
        self.session.joined()
    }
}

impl<'a, R: Wait, M: Moments + Drop, W: Write + Drop> EventDesk<'a, R, M, W> {
    ghost use Rattle.rx_desk.specs.EventDesks.{AsksFor, AsksWith, BeginsAt, FindsBegin, HasLooked, IsRefused, JoinsBy, JoinsFrom, JoinsNamed, KeepsRest, PartsWith, RequestsAt};
    ghost use Rattle.rx_desk.specs.SessionDesks.{LooksAt};

    // Asks for an observer at the subject at this place, with this sink. Where there is no memory for the place of one that asks itself
    // no call is made.
    fn ask(
        &mut self,
        place: usize,
        policy: Policy,
        credit: Credit,
        sink: ClientSink<W>,
    ) -> Joining<W>
        requires subject { place < length self.old.session.subjects }
        requires room { self.old.held < 2 ^ 32 - 1 }
        ensures { IsRefused causes.Memory self.old (writer_of sink) result self.new ⊎ AsksWith M.tells self.old policy credit sink result self.new place }
    {
        let Ok(()) = self.askers.make_room(self.heap) else {
            return Joining::Back(Refusal::Memory, sink.into_writer());
        };
        let first = first_of(credit, self.session.window());
        let answered = self.session.join(place, policy, first, sink);
        self.held = held_with(self.held, has_joined(&answered));
        self.is_well = both(self.is_well, has_reply(&answered));
        if credit.asked
            && let Some(observer) = self.session.joined()
        {
            self.askers.add(observer);
        }
        joining_by(answered)
    }

    // Joins at the subject of this name.
    fn join_named(
        &mut self,
        subject: &Name,
        policy: Policy,
        credit: Credit,
        begin: Begin,
        writer: W,
    ) -> Joining<W>
        ensures { JoinsNamed M.tells self.old subject.now policy credit begin writer result self.new }
    {
        let Some(place) = self.session.place_of(subject) else {
            return Joining::Back(Refusal::Subject, writer);
        };
        if self.held >= self.grants.readers {
            return Joining::Back(Refusal::Full, writer);
        }
        self.join_at(place, policy, credit, begin, writer)
    }

    // Joins at the subject at this place, from where its reader begins.
    fn join_at(
        &mut self,
        place: usize,
        policy: Policy,
        credit: Credit,
        begin: Begin,
        writer: W,
    ) -> Joining<W>
        requires subject { place < length self.old.session.subjects }
        requires room { self.old.held < 2 ^ 32 - 1 }
        ensures { JoinsFrom M.tells self.old policy credit begin writer result self.new place }
    {
        let first = self.begin_at(place, begin);
        self.join_from(place, policy, credit, first, writer)
    }

    // Joins at the subject at this place by a reader that begins there, or there is no memory for its sink.
    fn join_from(
        &mut self,
        place: usize,
        policy: Policy,
        credit: Credit,
        first: Begin,
        writer: W,
    ) -> Joining<W>
        requires subject { place < length self.old.session.subjects }
        requires room { self.old.held < 2 ^ 32 - 1 }
        ensures { IsRefused causes.Memory self.old writer result self.new ⊎ JoinsBy M.tells self.old policy credit first writer result self.new place }
    {
        let Some(tempo) = tempo_of(&self.pulse, self.grants.heartbeat, credit.pace) else {
            return Joining::Back(Refusal::Memory, writer);
        };
        let sink = sink_over(writer, &self.epoch, first, policy.strategy(), credit, tempo);
        match ClientSink::events(self.heap, sink) {
            Ok(sink) => self.ask(place, policy, credit, sink),
            Err(writer) => Joining::Back(Refusal::Memory, writer),
        }
    }

    // Where a reader begins at the subject at this place: one that said nothing to a Publish behind the last item that this had accepted,
    // by one call that is refused and changes nothing.
    fn begin_at(&mut self, place: usize, begin: Begin) -> Begin
        requires { place < length self.old.session.subjects }
        ensures begins { BeginsAt self.old begin result self.new place }
        ensures held { self.new.held ≡ self.old.held }
        ensures subjects { length self.new.session.subjects ≡ length self.old.session.subjects }
    {
        match begin {
            Begin::Fresh if self.session.is_publish(place) => self.find_begin(place),
            begin => begin,
        }
    }

    // Where a reader begins behind the last item that the subject at this place had accepted.
    fn find_begin(&mut self, place: usize) -> Begin
        requires { place < length self.old.session.subjects }
        ensures finds { FindsBegin self.old result self.new place }
        ensures subjects { length self.new.session.subjects ≡ length self.old.session.subjects }
    {
        let answered = self.session.request(place, u32::MAX, 0);
        self.is_well = both(self.is_well, has_reply(&answered));
        first_begin(&answered)
    }

    // Asks for items for an observer at the subject at this place, if it asks itself.
    fn request_at(&mut self, place: usize, observer: ObserverId, items: u32) -> Result<(), Refusal>
        requires { place < length self.old.session.subjects }
        ensures { RequestsAt self.old observer items result self.new place }
    {
        let ObserverId { epoch, who } = observer;
        let joined = Joined {
            subject: place,
            who,
        };
        if epoch != self.epoch || !self.askers.has(joined) {
            return Err(Refusal::Observer);
        }
        self.ask_for(place, who, items)
    }

    // Asks for items for an observer at the subject at this place.
    fn ask_for(&mut self, place: usize, who: u32, items: u32) -> Result<(), Refusal>
        requires { place < length self.old.session.subjects }
        ensures { AsksFor self.old who items result self.new place }
    {
        let answered = self.session.request(place, who, items);
        self.is_well = both(self.is_well, has_reply(&answered));
        requested_by(&answered)
    }

    // What is seen of each subject, in their order.
    fn look(&mut self) -> Result<Vec<Option<SubjectLook>, Heap>, Memory>
        ensures { HasLooked self.old self.new }
    {
        let mut seen = Vec::new(self.heap.clone()?);
        let count = self.session.subjects().len();
        for place in 0..count {
            seen.push(self.look_at(place))?;
        }
        Ok(seen)
    }

    // What is seen of the subject at this place.
    fn look_at(&mut self, place: usize) -> Option<SubjectLook>
        requires { place < length self.old.session.subjects }
        ensures looks { LooksAt self.old.session place self.new.session }
        ensures rest { KeepsRest self.old self.new }
    {
        match self.looks.get(place) {
            Some(shown) => self.session.look(place, shown),
            None => None,
        }
    }

    /// Disposes of an observer, by one call to its subject; one that has left by then is refused there.
    pub fn dispose(&mut self, observer: Joined)
        ensures { PartsWith self.old observer self.new }
    {
        self.session.dispose(observer);
        self.askers.remove(observer);
        self.held = self.held.saturating_sub(1);
    }
}

impl<'a, R: Wait, M: Moments + Drop, W: Write + Drop> Front<W> for EventDesk<'a, R, M, W> {
    ghost use Rattle.std.specs.Prelude.{◌≡◌};
    ghost use Rattle.rx_desk.specs.EventDesks.{emits, is_healthy, joins, requests, shows, stops};
    ghost use Rattle.rx_desk.specs.LineEmissions.{emits_lines};

    ghost since = { λ desk epoch. epoch ≡ desk.epoch };

    ghost looks = { λ desk well. well ≡ is_healthy desk };

    ghost joins = { joins M.tells };

    ghost emits = { emits M.tells };

    ghost emits_lines = { emits_lines M.tells };

    ghost requests = { requests };

    ghost shows = { shows };

    ghost stops = { stops };

    fn epoch(&self) -> &Epoch {
        &self.epoch
    }

    fn is_well(&self) -> bool {
        self.is_well && !self.stopping
    }

    fn join(
        &mut self,
        subject: &Name,
        policy: Policy,
        credit: Credit,
        begin: Begin,
        writer: W,
    ) -> Joining<W> {
        if self.stopping {
            return Joining::Back(Refusal::Stopping, writer);
        }
        self.join_named(subject, policy, credit, begin, writer)
    }

    fn emit(
        &mut self,
        subject: &Name,
        kind: NoteKind,
        text: &[u8],
        key: Option<IdempotencyKey>,
    ) -> Result<Emitted, Refusal> {
        if self.stopping {
            return Err(Refusal::Stopping);
        }
        self.emit_named(subject, kind, text, key)
    }

    fn emit_lines(&mut self, subject: &Name, body: &[u8]) -> EmittedLines {
        if self.stopping {
            return none_emitted(Refusal::Stopping);
        }
        self.emit_body(subject, body)
    }

    fn request(&mut self, subject: &Name, observer: ObserverId, items: u32) -> Result<(), Refusal> {
        match self.session.place_of(subject) {
            Some(place) => self.request_at(place, observer, items),
            None => Err(Refusal::Subject),
        }
    }

    fn show(&mut self, form: LookForm) -> Result<Document, Refusal> {
        let Ok(seen) = self.look() else {
            return Err(Refusal::Memory);
        };
        let told = page_of(
            self.heap,
            form,
            &self.epoch,
            self.crowd.look(),
            self.session.subjects(),
            seen.as_slice(),
        );
        match told {
            Ok(bytes) => Document::new(bytes).ok_or(Refusal::Memory),
            Err(_) => Err(Refusal::Memory),
        }
    }

    fn stop(&mut self, within: u32) -> Result<(), Refusal> {
        if !self.grants.may_stop {
            return Err(Refusal::NoStop);
        }
        self.stopping = true;
        self.stop.ask(within);
        Ok(())
    }
}

// Where a reader begins, by the answer to the call before its Join.
fn first_begin<S>(answered: &Result<Reply<S>, CallError<S>>) -> Begin
    ensures { result ≡ first_begin answered.now }
{
    match answered {
        Ok(reply) => Begin::Behind(reply.items.checked_sub(1)),
        Err(_) => Begin::Fresh,
    }
}

// How many observers are held, with one more where a call made it.
fn held_with(held: u32, joined: bool) -> u32
    requires { held < 2 ^ 32 - 1 }
    ensures { result ≡ held_with held joined }
{
    if joined { held + 1 } else { held }
}

fn both(one: bool, other: bool) -> bool
    ensures { result ≡ (one && other) }
{
    one && other
}

// Whether a call had a reply.
fn has_reply<S>(answered: &Result<Reply<S>, CallError<S>>) -> bool
    ensures { result ≡ has_reply answered.now }
{
    answered.is_ok()
}
