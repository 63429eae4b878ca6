ghost use Rattle.std.specs.Prelude.{◌≡◌, ◌+◌, false, true, [], Some, None, Err, vec_len, MatchResult, OnOk, IfSome};
ghost use Rattle.std.specs.List.{All};
ghost use Rattle.rx_mailbox.specs.PortRows.{IsFresh};

pub(crate) mod asks;
pub(crate) mod bursts;
pub(crate) mod drain_end;
pub(crate) mod drain_fault;
pub(crate) mod drain_stop;
pub(crate) mod drainer_left;
pub(crate) mod drainer_parts;
pub(crate) mod flushes;
pub(crate) mod one_letter;
pub(crate) mod outs;
pub(crate) mod rounds;

use crate::drainer::asks::holds_back;
use crate::drainer::bursts::Bursts;
use crate::drainer::drain_end::DrainEnd;
use crate::drainer::drain_fault::DrainFault;
use crate::drainer::drain_stop::DrainStop;
use crate::drainer::drainer_left::DrainerLeft;
use crate::drainer::drainer_parts::DrainerParts;
use crate::drainer::one_letter::{handle_first, handle_more, handle_rest};
use crate::drainer::rounds::Rounds;
use rx_heap::{Heap, room};
use rx_mailbox::{Inbox, Port};
use rx_pump::{Call, Out};
use rx_sink::{Places, Rests, Sink};
use std::marker::Model;
use std::sync::Wait;

/// The owner of the sinks of some observers: it takes the letters of the subjects one by one, hands the notes to the sinks,
/// and asks the subjects for more.
pub struct Drainer<S: Sink> {
    hands: DrainerLeft<S>,
    // The number of the leave port in its box, which is that of its subjects.
    leave: usize,
    // The Bye of the leave port came.
    left: bool,
    fault: Option<DrainFault>,
    bursts: Bursts,
    rounds: Rounds,
}

// A drainer that is let go is gone for its subjects, which hear its Byes.
impl<S: Sink> Drop for Drainer<S> {
    fn drop(self) {
        let Drainer {
            hands,
            leave: _,
            left: _,
            fault: _,
            bursts: _,
            rounds: _,
        } = self;
        hands.let_go();
    }
}

impl<S: Sink> Model for Drainer<S> {
    ghost use Rattle.std.specs.Prelude.{◌≡◌, ◌+◌};
    ghost use Rattle.rx_drain.specs.Drainers.{DrainerView, Fits, IsDrained, view_of};

    ghost Value = { DrainerView S S.Rest };

    ghost view = { λ d. view_of d.hands d.left d.fault };

    ghost invariant = { λ d. IsDrained S.acts (view_of d.hands d.left d.fault) × Fits d.leave d.left d.fault d.hands
        × (d.hands.parts.inbox.ports ≡ d.leave + 1) };
}

impl<S: Sink> Drainer<S> {
    ghost use Rattle.rx_mailbox.specs.Boxes.{HasEachBye};
    ghost use Rattle.rx_drain.specs.Drainers.{IsDrained, KeepsDrainer, TakesMore, TakesSome, any_may_wait, forgetful, fresh_drainer, view_of};
    ghost use Rattle.rx_drain.specs.Serving.{HasDrained, DrainerHasStopped};

    /// A drainer of new parts: one port to each subject, and an inbox with a port for each and one more, the leave port. It
    /// keeps what its sinks leave. `Err` gives the parts back where there was no memory for it.
    pub fn new(
        alloc: Heap,
        inbox: Inbox<Out<S>>,
        subjects: Vec<Port<Call<S>>, Heap>,
    ) -> Result<Drainer<S>, DrainerParts<S>>
        requires senders { inbox.ports ≡ vec_len subjects + 1 }
        requires received { inbox.received ≡ [] }
        requires fresh { All IsFresh subjects.items }
        ensures { MatchResult result
            (λ drainer. drainer ≡ fresh_drainer true inbox subjects.items)
            (λ back. back ≡ record { inbox = inbox; subjects = subjects }) }
    {
        let parts = DrainerParts { inbox, subjects };
        let leave = parts.subjects.len();
        let Ok(ended) = room(&alloc, leave) else {
            return Err(parts);
        };
        let Ok(kept) = room(&alloc, 0) else {
            return Err(parts);
        };
        let hands = DrainerLeft {
            parts,
            ended,
            kept,
            put_away: Rests::new(alloc),
            places: Places::new(),
            taken: 0,
        };
        Ok(Drainer {
            hands,
            leave,
            left: false,
            fault: None,
            bursts: Bursts::new(),
            rounds: Rounds::new(),
        })
    }

    /// Has it keep nothing of what its sinks leave, which is let go as each is put away: then it grows by none of them.
    pub fn forget(&mut self)
        ensures { self.new ≡ forgetful self.old }
    {
        self.hands.put_away.forget();
    }

    /// Takes the letters that are there, some thousands at most, and waits while there is none, and within a burst for a tenth of
    /// a millisecond. Then it flushes each sink in which something may wait. While something waits in a sink it waits for a letter
    /// some milliseconds at most, and then flushes again, so a turn may have taken none. Where nothing waits it took one at least.
    ///
    /// A sink that a subject attaches is started and kept. A note goes to the sink that is kept for its observer, which took
    /// no terminal yet. The subject is asked for one item more for each that the sink took: at once, but while the sink is
    /// stuck. At the end of a turn something is due of those sinks alone that were flushed last, and found stuck. After a
    /// terminal the subject is asked to let the observer go once nothing waits in its sink, which is put away. So it is after
    /// a fault of the sink, and where there was no memory for one that came. The sink of an observer that left is put away.
    /// What is due is asked for before that.
    ///
    /// Before the Bye of the leave port is heard each sink is flushed once more in which something may wait, and for about a
    /// quarter of a second again while something waits in one. Then each observer is disposed of whose sink is kept, in the
    /// order in which they came, all are put away, and the ports to subjects end. Unserved is a sink that comes later, from the
    /// leave port, or while one is kept for its observer; what comes for an observer without a sink, and what else the leave
    /// port sends, is discarded: so a body from it can have a drainer that waits look after its sinks.
    ///
    /// At a fault what was sent is the first of that, and from then on each turn answers this fault and does nothing.
    pub fn turn<R: Wait>(&mut self, rt: &R) -> Result<(), DrainFault>
        ensures drained { IsDrained S.acts self.new }
        ensures fault { MatchResult result (λ _. self.new.fault ≡ None) (λ fault. self.new.fault ≡ Some fault) }
        ensures took { OnOk result (TakesMore self.old.inbox self.new.inbox) }
        ensures takes_one { OnOk result (any_may_wait self.old.kept ≡ false → TakesSome self.old.inbox self.new.inbox) }
        ensures gone { result ≡ Err DrainFault.InboxGone → self.new.inbox ≡ self.old.inbox }
        ensures kept { KeepsDrainer self.old self.new }
        ensures over { IfSome self.old.fault (λ fault. (result ≡ Err fault) × (self.new ≡ self.old)) }
    {
        self.turn_by(rt, false)
    }

    // A turn. Where it looks, it may also wait for a letter for a quarter of a second in vain, and look after all sinks.
    fn turn_by<R: Wait>(&mut self, rt: &R, looks: bool) -> Result<(), DrainFault>
        ensures drained { IsDrained S.acts self.new }
        ensures fault { MatchResult result (λ _. self.new.fault ≡ None) (λ fault. self.new.fault ≡ Some fault) }
        ensures took { OnOk result (TakesMore self.old.inbox self.new.inbox) }
        ensures takes_one { OnOk result (looks ≡ false → any_may_wait self.old.kept ≡ false → TakesSome self.old.inbox self.new.inbox) }
        ensures gone { result ≡ Err DrainFault.InboxGone → self.new.inbox ≡ self.old.inbox }
        ensures kept { KeepsDrainer self.old self.new }
        ensures over { IfSome self.old.fault (λ fault. (result ≡ Err fault) × (self.new ≡ self.old)) }
    {
        if let Some(fault) = self.fault {
            return Err(fault);
        }
        let Ok(first) = handle_first(rt, &mut self.hands, self.leave, self.left, looks) else {
            self.fault = Some(DrainFault::InboxGone);
            return Err(DrainFault::InboxGone);
        };
        let more = handle_more(rt, &mut self.hands, &mut self.bursts, self.leave, first);
        let is_all_due = self.rounds.is_due();
        let rest = handle_rest(rt, &mut self.hands, self.leave, more, is_all_due);
        self.left = rest.left;
        self.fault = rest.fault;
        outcome(rest.fault)
    }

    /// Takes letters until the Bye of each port came, that of the leave port too, and waits while there is none. Where none
    /// comes for a quarter of a second it looks after all sinks, so that one whose reader is gone can have its fault with no
    /// note. `Err` at a fault, with the parts that are left.
    pub fn serve<R: Wait>(self, rt: &R) -> Result<DrainEnd<S>, DrainStop<S>>
        ensures { MatchResult result (λ end. HasDrained S.acts self end) (λ stop. DrainerHasStopped S.acts self stop) }
    {
        let mut drainer = self;
        match drainer.take_all(rt) {
            Ok(()) => Ok(drainer.end()),
            Err(fault) => Err(drainer.stop(fault)),
        }
    }

    /// The parts, as the turns so far left them.
    pub fn into_parts(self) -> DrainerLeft<S>
        ensures parts { view_of result self.left self.fault ≡ self }
        ensures drained { IsDrained S.acts self }
    {
        let Drainer {
            hands,
            leave: _,
            left: _,
            fault: _,
            bursts: _,
            rounds: _,
        } = self;
        hands
    }

    // Takes letters until the Bye of each port came.
    fn take_all<R: Wait>(&mut self, rt: &R) -> Result<(), DrainFault>
        ensures fault { MatchResult result (λ _. self.new.fault ≡ None) (λ fault. self.new.fault ≡ Some fault) }
        ensures each_bye { OnOk result (HasEachBye self.new.inbox) }
        ensures none { HasEachBye self.old.inbox → self.new.inbox ≡ self.old.inbox }
        ensures waited { result ≡ Err DrainFault.InboxGone → self.old.fault ≡ None → ¬ HasEachBye self.new.inbox }
        ensures kept { KeepsDrainer self.old self.new }
    {
        if let Some(fault) = self.fault {
            return Err(fault);
        }
        for _ in rt.forever() {
            let is_over = self.hands.parts.inbox.has_each_bye();
            if is_over {
                return Ok(());
            }
            // Without a sink, and requests that wait for room, there is nothing to look after.
            let looks = !self.hands.kept.is_empty() || holds_back(&self.hands.parts.subjects);
            self.turn_by(rt, looks)?;
        }
        unreachable!()
    }

    // What is left once the Bye of each port came.
    fn end(self) -> DrainEnd<S>
        requires whole { self.fault ≡ None }
        requires each_bye { HasEachBye self.inbox }
        ensures { HasDrained S.acts self result }
    {
        let Drainer {
            hands,
            leave: _,
            left: _,
            fault: _,
            bursts: _,
            rounds: _,
        } = self;
        let DrainerLeft {
            parts,
            ended,
            kept: _,
            put_away,
            places,
            taken,
        } = hands;
        DrainEnd {
            inbox: parts.inbox,
            ports: ended,
            put_away,
            places,
            taken,
        }
    }

    // What is left at a fault of a turn.
    fn stop(self, fault: DrainFault) -> DrainStop<S>
        requires { self.fault ≡ Some fault }
        ensures stopped { DrainerHasStopped S.acts self result }
        ensures fault { result.fault ≡ fault }
        ensures inbox { result.left.parts.inbox ≡ self.inbox }
    {
        let Drainer {
            hands: left,
            leave: _,
            left: _,
            fault: _,
            bursts: _,
            rounds: _,
        } = self;
        DrainStop { fault, left }
    }
}

fn outcome(fault: Option<DrainFault>) -> Result<(), DrainFault>
    ensures { MatchResult result (λ _. fault ≡ None) (λ met. fault ≡ Some met) }
{
    match fault {
        None => Ok(()),
        Some(fault) => Err(fault),
    }
}
