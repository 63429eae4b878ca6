// What a pump did is the invariant of its type, told again by each turn and by `into_parts`, so that nothing has to be known
// of the turns that led there. The count of the hub's Memory answers at the pump's beginning is a field, since a new hub may
// have answered some already.
//
// A pump that has stopped at a fault answers it again and does nothing; `serve` then ends no port, since a Bye behind a list
// that was cut short would say that it is whole.
ghost use Rattle.std.specs.Prelude.{◌≡◌, ◌<◌, ◌≤◌, [], vec_len, vec_capacity, Some, None, Err, MatchResult, OnOk, IfSome};
ghost use Rattle.rx_mailbox.specs.Boxes.{all_told};
ghost use Rattle.rx_pump.specs.Pumps.{AreFresh};

pub(crate) mod deliveries;
pub(crate) mod heard;
pub(crate) mod next_letter;
pub(crate) mod one_call;
pub(crate) mod pump_end;
pub(crate) mod pump_fault;
pub(crate) mod pump_parts;
pub(crate) mod pump_stop;
pub(crate) mod shown;
pub(crate) mod tally;

use crate::call::Call;
use crate::out::Out;
use crate::pump::heard::{Heard, SharedHeard, Telling};
use crate::pump::next_letter::{MOST_SEARCHED, is_drained, receive};
use crate::pump::one_call::handle;
use crate::pump::pump_end::PumpEnd;
use crate::pump::pump_fault::PumpFault;
use crate::pump::pump_parts::PumpParts;
use crate::pump::pump_stop::PumpStop;
use crate::pump::shown::{SharedLook, Shown};
use crate::pump::tally::Tally;
use crate::reply::Reply;
use rx_heap::{Heap, Memory, room};
use rx_hub::Hub;
use rx_mailbox::{
    EndedPort, Inbox, Letter, Port, Post, finish_all, ring_all, try_ring_all, try_ring_at,
};
use rx_note::Given;
use std::marker::Model;
use std::sync::{Arc, Wait};

// After so many letters what is held back goes at the latest, however many more stand in the box: so who sends without a rest
// keeps no observer waiting. A drainer's window is 16 at most, so what it has from so many letters keeps it busy meanwhile.
const MOST_QUIET: u32 = 64;

/// The owner of a subject's hub: it takes the calls one by one, and sends what comes of them. It stores no letter.
pub struct Pump<S: Drop> {
    parts: PumpParts<S>,
    // Room for what one call gives.
    outs: Vec<Given, Heap>,
    // Room for each port once it has ended.
    ended_drainers: Vec<EndedPort<Out<S>>, Heap>,
    ended_replies: Vec<EndedPort<Reply<S>>, Heap>,
    tally: Tally,
    // What the hub had counted when the pump was made.
    misses_before: u64,
    fault: Option<PumpFault>,
    // How many letters came since all that was held back went out, from which port the last one, and whether it was a Bye.
    quiet: u32,
    from: u32,
    was_bye: bool,
    telling: Option<Telling>,
    shown: Option<SharedLook>,
}

// A pump that is let go is gone for those who call it, and its drainers hear its Byes.
impl<S: Drop> Drop for Pump<S> {
    fn drop(self) {
        let Pump {
            parts,
            outs: _,
            ended_drainers: _,
            ended_replies: _,
            tally: _,
            misses_before: _,
            fault: _,
            quiet: _,
            from: _,
            was_bye: _,
            telling: _,
            shown: _,
        } = self;
        parts.let_go();
    }
}

impl<S: Drop> Model for Pump<S> {
    ghost use Rattle.std.specs.Prelude.{◌<◌, ◌≤◌, ◌≡◌, [], vec_len, vec_capacity};
    ghost use Rattle.rx_pump.specs.Pumps.{PumpView, pump_with, IsPumped};

    ghost Value = { PumpView S };

    ghost view = { λ p. pump_with p.parts p.tally.calls p.tally.refused p.misses_before p.fault };

    ghost invariant = { λ p. IsPumped (pump_with p.parts p.tally.calls p.tally.refused p.misses_before p.fault)
        × (0 < vec_len p.parts.drainers)
        × (p.ended_drainers.items ≡ []) × (vec_len p.parts.drainers ≤ vec_capacity p.ended_drainers)
        × (p.ended_replies.items ≡ []) × (vec_len p.parts.replies ≤ vec_capacity p.ended_replies) };
}

impl<S: Drop> Pump<S> {
    ghost use Rattle.rx_pump.specs.Pumps.{IsPumped, KeepsPump, TakesCall, fresh_pump};
    ghost use Rattle.rx_pump.specs.Serving.{HasPumped, PumpHasStopped};
    ghost use Rattle.rx_mailbox.specs.Boxes.{HasEachBye};

    /// A pump of new parts. `Err` gives them back where there was no memory for it.
    pub fn new(
        alloc: Heap,
        hub: Hub,
        inbox: Inbox<Call<S>>,
        drainers: Vec<Port<Out<S>>, Heap>,
        replies: Vec<Port<Reply<S>>, Heap>,
    ) -> Result<Pump<S>, PumpParts<S>>
        requires some { 0 < vec_len drainers }
        requires callers { vec_len replies ≤ inbox.ports }
        requires fresh { AreFresh hub inbox drainers.items replies.items }
        ensures { MatchResult result
            (λ pump. pump ≡ fresh_pump hub inbox drainers.items replies.items)
            (λ back. back ≡ record { hub = hub; inbox = inbox; drainers = drainers; replies = replies }) }
    {
        let parts = PumpParts {
            hub,
            inbox,
            drainers,
            replies,
        };
        let Ok(ended_drainers) = room(&alloc, parts.drainers.len()) else {
            return Err(parts);
        };
        let Ok(ended_replies) = room(&alloc, parts.replies.len()) else {
            return Err(parts);
        };
        let misses_before = parts.hub.misses();
        Ok(Pump {
            parts,
            outs: Vec::new(alloc),
            ended_drainers,
            ended_replies,
            tally: Tally {
                calls: 0,
                refused: 0,
            },
            misses_before,
            fault: None,
            quiet: 0,
            from: 0,
            was_bye: false,
            telling: None,
            shown: None,
        })
    }

    /// From now on it tells when so many desks have ended and what it gave is on its way, and when nothing waits in its hub then.
    pub fn tell(&mut self, alloc: Heap, desks: u64) -> Result<(), Memory>
        ensures { self.new ≡ self.old }
    {
        self.telling = Some(Telling::of(Heard::shared(alloc)?, desks));
        Ok(())
    }

    /// How far it is, for another thread that waits for it; none where it tells nobody.
    pub fn heard(&self) -> Option<SharedHeard> {
        match &self.telling {
            Some(telling) => telling.heard(),
            None => None,
        }
    }

    /// From now on it shows its subject to who wants to look: what is handed out is for another thread.
    pub fn show(&mut self, alloc: Heap) -> Result<SharedLook, Memory>
        ensures { self.new ≡ self.old }
    {
        let shown = Shown::shared(alloc)?;
        self.shown = Some(Arc::try_clone(&shown)?);
        Ok(shown)
    }

    /// What shows its subject, for another thread that wants to look; none where it shows it to nobody.
    pub fn shown(&self) -> Option<SharedLook> {
        match &self.shown {
            Some(shown) => match Arc::try_clone(shown) {
                Ok(shown) => Some(shown),
                Err(_) => None,
            },
            None => None,
        }
    }

    /// Takes one letter, and waits while there is none: hands each call for which it stands to the hub, and sends what comes of it,
    /// which may wait for room. A letter stands for one call; but from a port that is told no replies a request for several items
    /// stands for so many requests for one item each. In this order: for an accepted Join with a sink its `Attach`; the notes, by rising number of the
    /// observer; for an accepted Dispose its `Detach`; and the reply, by the port at the place of the letter's port, if
    /// there is one. At a fault what was sent is the first of that, and from then on each turn answers this fault and does
    /// nothing.
    pub fn turn<R: Wait>(&mut self, rt: &R) -> Result<(), PumpFault>
        ensures pumped { IsPumped self.new }
        ensures fault { MatchResult result (λ _. self.new.fault ≡ None) (λ fault. self.new.fault ≡ Some fault) }
        ensures took { OnOk result (TakesCall self.old.inbox self.new.inbox) }
        ensures gone { result ≡ Err PumpFault.InboxGone → self.new.inbox ≡ self.old.inbox }
        ensures kept { KeepsPump self.old self.new }
        ensures over { IfSome self.old.fault (λ fault. (result ≡ Err fault) × (self.new ≡ self.old)) }
    {
        let outcome = self.take_one(rt);
        self.send_held(rt);
        outcome
    }

    // A turn after which some of what was sent may be held back, until the next waits for its letter, or some letters later.
    fn take_one<R: Wait>(&mut self, rt: &R) -> Result<(), PumpFault>
        ensures pumped { IsPumped self.new }
        ensures fault { MatchResult result (λ _. self.new.fault ≡ None) (λ fault. self.new.fault ≡ Some fault) }
        ensures took { OnOk result (TakesCall self.old.inbox self.new.inbox) }
        ensures gone { result ≡ Err PumpFault.InboxGone → self.new.inbox ≡ self.old.inbox }
        ensures kept { KeepsPump self.old self.new }
        ensures over { IfSome self.old.fault (λ fault. (result ≡ Err fault) × (self.new ≡ self.old)) }
    {
        let outcome = self.take_letter(rt);
        self.pass_on(rt);
        outcome
    }

    // A turn that holds back what it sends.
    fn take_letter<R: Wait>(&mut self, rt: &R) -> Result<(), PumpFault>
        ensures pumped { IsPumped self.new }
        ensures fault { MatchResult result (λ _. self.new.fault ≡ None) (λ fault. self.new.fault ≡ Some fault) }
        ensures took { OnOk result (TakesCall self.old.inbox self.new.inbox) }
        ensures gone { result ≡ Err PumpFault.InboxGone → self.new.inbox ≡ self.old.inbox }
        ensures kept { KeepsPump self.old self.new }
        ensures over { IfSome self.old.fault (λ fault. (result ≡ Err fault) × (self.new ≡ self.old)) }
    {
        if let Some(fault) = self.fault {
            return Err(fault);
        }
        let received = receive(
            rt,
            &self.parts.hub,
            &mut self.parts.inbox,
            &mut self.parts.drainers,
            &mut self.parts.replies,
        );
        let Ok(letter) = received else {
            self.fault = Some(PumpFault::InboxGone);
            return Err(PumpFault::InboxGone);
        };
        let Letter { from, post } = letter;
        self.from = from;
        self.was_bye = matches!(post, Post::Bye);
        let call = match post {
            Post::Body(call) => call,
            Post::Bye => return Ok(()),
        };
        let fault = handle(
            rt,
            &mut self.parts,
            &mut self.outs,
            &mut self.tally,
            from,
            call,
        );
        self.fault = fault;
        outcome(fault)
    }

    /// Takes letters until the Bye of each port came, and waits while there is none; then ends its own ports, each to a
    /// drainer and then each for replies. `Err` at a fault, with the parts that are left.
    pub fn serve<R: Wait>(self, rt: &R) -> Result<PumpEnd<S>, PumpStop<S>>
        ensures { MatchResult result (λ left. HasPumped self left) (λ stop. PumpHasStopped self stop) }
    {
        let mut pump = self;
        match pump.take_all(rt) {
            Ok(()) => pump.finish(rt),
            Err(fault) => {
                pump.send_held(rt);
                Err(pump.stop(fault))
            }
        }
    }

    /// The parts, as the turns so far left them.
    pub fn into_parts(self) -> PumpParts<S>
        ensures hub { result.hub ≡ self.hub }
        ensures inbox { result.inbox ≡ self.inbox }
        ensures drainers { all_told result.drainers.items ≡ self.drainers }
        ensures replies { all_told result.replies.items ≡ self.replies }
        ensures pumped { IsPumped self }
    {
        let Pump {
            parts,
            outs: _,
            ended_drainers: _,
            ended_replies: _,
            tally: _,
            misses_before: _,
            fault: _,
            quiet: _,
            from: _,
            was_bye: _,
            telling: _,
            shown: _,
        } = self;
        parts
    }

    // Has go out what is held back, and wakes those that sleep. Replies wait for no room: a caller may wait for room in the box of
    // calls.
    fn send_held<R: Wait>(&mut self, rt: &R)
        ensures { self.new ≡ self.old }
    {
        self.quiet = 0;
        ring_all(rt, &mut self.parts.drainers);
        let _is_left = try_ring_all(rt, &mut self.parts.replies);
    }

    // Fills the look that is wanted, before the reply goes out to who wants it. (Where there is no memory to hold a reply back it
    // goes first, and who looks finds nothing yet.)
    fn fill_look<R: Wait>(&self, rt: &R) {
        if let Some(shown) = &self.shown {
            shown.fill(rt, &self.parts.hub);
        }
    }

    // Has go out what is held back and due behind the letter that came last: the replies to calls that came together go together, and
    // all goes behind a Bye and after some letters. Then it tells how far it is.
    fn pass_on<R: Wait>(&mut self, rt: &R)
        ensures { self.new ≡ self.old }
    {
        self.fill_look(rt);
        self.quiet = self.quiet.saturating_add(1);
        if self.was_bye || self.quiet >= MOST_QUIET {
            self.send_held(rt);
        } else {
            self.send_replies(rt);
        }
        self.tell_how_far(rt);
        self.was_bye = false;
    }

    // Has go out the replies to the caller whose call came last, unless more of its calls came with it.
    fn send_replies<R: Wait>(&mut self, rt: &R)
        ensures { self.new ≡ self.old }
    {
        let place = self.from as usize;
        if place < self.parts.replies.len() && !self.parts.inbox.has_more_in_hand() {
            let _is_left = try_ring_at(rt, &mut self.parts.replies, place);
        }
    }

    // Tells of the letter that came last and, once all desks have ended, whether nothing waits any more. Then nothing ever will.
    fn tell_how_far<R: Wait>(&mut self, rt: &R)
        ensures { self.new ≡ self.old }
    {
        let Some(telling) = &mut self.telling else {
            return;
        };
        let have_ended = telling.hear(self.was_bye);
        if have_ended
            && !self.parts.inbox.has_more_in_hand()
            && is_drained(&self.parts.hub, MOST_SEARCHED)
        {
            self.send_held(rt);
            self.end_telling();
        }
    }

    fn end_telling(&mut self)
        ensures { self.new ≡ self.old }
    {
        if let Some(telling) = &self.telling {
            telling.end();
        }
    }

    // Takes letters until the Bye of each port came.
    fn take_all<R: Wait>(&mut self, rt: &R) -> Result<(), PumpFault>
        ensures fault { MatchResult result (λ _. self.new.fault ≡ None) (λ fault. self.new.fault ≡ Some fault) }
        ensures each_bye { OnOk result (HasEachBye self.new.inbox) }
        ensures none { HasEachBye self.old.inbox → self.new.inbox ≡ self.old.inbox }
        ensures waited { result ≡ Err PumpFault.InboxGone → self.old.fault ≡ None → ¬ HasEachBye self.new.inbox }
        ensures kept { KeepsPump self.old self.new }
    {
        if let Some(fault) = self.fault {
            return Err(fault);
        }
        for _ in rt.forever() {
            let is_over = self.parts.inbox.has_each_bye();
            if is_over {
                return Ok(());
            }
            self.take_one(rt)?;
        }
        unreachable!()
    }

    // Ends the ports.
    fn finish<R: Wait>(self, rt: &R) -> Result<PumpEnd<S>, PumpStop<S>>
        requires whole { self.fault ≡ None }
        requires each_bye { HasEachBye self.inbox }
        ensures { MatchResult result (λ left. HasPumped self left) (λ stop. PumpHasStopped self stop) }
    {
        let Pump {
            mut parts,
            outs: _,
            mut ended_drainers,
            mut ended_replies,
            tally,
            misses_before: _,
            fault: _,
            quiet: _,
            from: _,
            was_bye: _,
            telling: _,
            shown: _,
        } = self;
        if let Err(place) = finish_all(rt, &mut parts.drainers, &mut ended_drainers) {
            return Err(PumpStop {
                fault: PumpFault::DrainerGone(place),
                parts,
                ended_drainers,
                ended_replies,
            });
        }
        if let Err(place) = finish_all(rt, &mut parts.replies, &mut ended_replies) {
            return Err(PumpStop {
                fault: PumpFault::CallerGone(place),
                parts,
                ended_drainers,
                ended_replies,
            });
        }
        Ok(PumpEnd {
            hub: parts.hub,
            inbox: parts.inbox,
            drainers: ended_drainers,
            replies: ended_replies,
            calls: tally.calls,
            refused: tally.refused,
        })
    }

    // What is left at a fault of a turn.
    fn stop(self, fault: PumpFault) -> PumpStop<S>
        requires { self.fault ≡ Some fault }
        ensures stopped { PumpHasStopped self result }
        ensures fault { result.fault ≡ fault }
        ensures inbox { result.parts.inbox ≡ self.inbox }
    {
        let Pump {
            parts,
            outs: _,
            ended_drainers,
            ended_replies,
            tally: _,
            misses_before: _,
            fault: _,
            quiet: _,
            from: _,
            was_bye: _,
            telling: _,
            shown: _,
        } = self;
        PumpStop {
            fault,
            parts,
            ended_drainers,
            ended_replies,
        }
    }

    /// How many calls it took. The count stays at the greatest `u64`.
    pub fn calls(&self) -> u64
        ensures { result ≡ self.now.calls }
    {
        self.tally.calls
    }

    /// How many of its calls were refused for want of memory. The count stays at the greatest `u64`.
    pub fn refused(&self) -> u64
        ensures { result ≡ self.now.refused }
    {
        self.tally.refused
    }
}

fn outcome(fault: Option<PumpFault>) -> Result<(), PumpFault>
    ensures { MatchResult result (λ _. fault ≡ None) (λ met. fault ≡ Some met) }
{
    match fault {
        None => Ok(()),
        Some(fault) => Err(fault),
    }
}
