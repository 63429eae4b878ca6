// One letter: the sinks take it, and the ports send what it owes.
//
// 12,288 letters at most are taken before a flush, somewhat more than 64 sinks take while their lines may be far ahead, so that
// one write has all that it holds where more come meanwhile: with 4,096, as many items as are taken bring 64 subscribers two
// thirds of the notes. There is a bound since a first request may ask for any number.
//
// At the leave port's Bye all sinks are put away even where a subject is gone, so that nothing of theirs is lost; only what
// was sent is then cut short.
ghost use Rattle.std.specs.Prelude.{◌≡◌, true, false, None, IfOk, MatchResult, OnOk, OnErr};
ghost use Rattle.rx_mailbox.specs.declared.letter.Post.TheVariants.{Body, Bye};
ghost use Rattle.rx_mailbox.specs.Boxes.{all_told, with_letter};
ghost use Rattle.rx_mailbox.specs.Letters as letters;
ghost use Rattle.rx_pump.specs.Pumps.{AreSame};
ghost use Rattle.rx_drain.specs.Drainers.{Fits, HasGoneOn, HandlesLetter, HandlesNext, HearsBye, IsOfSubject, Pays, TakesMore, TakesSome, any_may_wait, view_of};

use crate::drainer::asks::{holds_back, part_all, send_asks, would_wake};
use crate::drainer::bursts::Bursts;
use crate::drainer::flushes::{flush_due, flush_last, look_after, may_wait};
use crate::drainer::outs::{discard, serve_out};
use crate::{DrainFault, DrainerLeft, DrainerParts};
use rx_heap::Heap;
use rx_mailbox::{Gone, Letter, Port, Post, TryRecvFault, finish_all, nudge_all, try_ring_all};
use rx_pump::{Call, Out};
use rx_sink::{Sink, put_all_away};
use std::sync::Wait;
use std::time::Duration;

// So many letters are taken at most before what waits in the sinks goes out, and the requests that are held back: somewhat more than
// 64 sinks take while their lines may be far ahead.
const MOST_LETTERS: u32 = 12_288;

// Behind so many letters the requests that are held back go, so that their subjects take them while the others are handled: 64 lines
// at a time so bring 8 subscribers a tenth more. On one core, where a subject sleeps meanwhile, it would be woken for each of them, and
// 64 subscribers were brought a fifth less.
const FEW_LETTERS: u32 = 32;

// How long a letter is waited for while something waits in a sink, or in a port for room, in milliseconds.
const MOST_WAIT: u64 = 4;

// How long the next part of a burst is waited for, in microseconds.
const MOST_PAUSE: u64 = 100;

// How long a letter is waited for where nothing waits in a sink, before all sinks are looked after, in milliseconds.
const MOST_IDLE: u64 = 250;

// What became of a letter.
#[derive(Clone, Copy)]
pub(crate) struct AfterLetter {
    // The drainer was told to leave, now or before.
    pub(crate) left: bool,
    pub(crate) fault: Option<DrainFault>,
}

// Does what a letter asks. `leave` is the number of the leave port, and `left` says whether its Bye came before.
#[inline(never)] // once for each batch
pub(crate) fn handle<S: Sink, R: Wait>(
    rt: &R,
    hands: &mut DrainerLeft<S>,
    leave: usize,
    left: bool,
    letter: Letter<Out<S>>,
) -> AfterLetter
    requires { Fits leave left None hands.old }
    ensures fits { Fits leave result.left result.fault hands.new }
    ensures inbox { hands.new.parts.inbox ≡ hands.old.parts.inbox }
    ensures ports { AreSame (view_of hands.old left None).ports (view_of hands.new result.left result.fault).ports }
    ensures keeps { hands.new.put_away.keeps ≡ hands.old.put_away.keeps }
    ensures handles { HandlesLetter S.acts letter (view_of hands.old left None) (view_of hands.new result.left result.fault) }
{
    let Letter { from, post } = letter;
    match post {
        Post::Body(out) => handle_out(rt, hands, leave, left, from, out),
        Post::Bye => hear_bye(rt, hands, leave, left, from),
    }
}

// Does what a letter from this port asks that has this body.
#[inline(always)] // once for each note
fn handle_out<S: Sink, R: Wait>(
    rt: &R,
    hands: &mut DrainerLeft<S>,
    leave: usize,
    left: bool,
    from: u32,
    out: Out<S>,
) -> AfterLetter
    requires { Fits leave left None hands.old }
    ensures fits { Fits leave result.left result.fault hands.new }
    ensures inbox { hands.new.parts.inbox ≡ hands.old.parts.inbox }
    ensures ports { AreSame (view_of hands.old left None).ports (view_of hands.new result.left result.fault).ports }
    ensures keeps { hands.new.put_away.keeps ≡ hands.old.put_away.keeps }
    ensures handles { HandlesNext S.acts (letters.letter from (Body out)) (view_of hands.old left None) (view_of hands.new result.left result.fault) }
{
    if left || from as usize == leave {
        discard(out);
        return AfterLetter { left, fault: None };
    }
    let asks = serve_out(
        &mut hands.kept,
        &mut hands.put_away,
        &mut hands.places,
        &mut hands.taken,
        from,
        out,
    );
    let fault = send_asks(rt, &mut hands.parts.subjects, from, asks);
    AfterLetter { left, fault }
}

// Does what the letter asks that comes next, and waits while there is none; but where something waits in a sink no longer than
// some milliseconds, so that it is looked after again. Where nothing does, and `looks` says so, it waits no longer than a
// quarter of a second, and then looks after all sinks. `Err` where no letter comes any more.
pub(crate) fn handle_first<S: Sink, R: Wait>(
    rt: &R,
    hands: &mut DrainerLeft<S>,
    leave: usize,
    left: bool,
    looks: bool,
) -> Result<AfterLetter, Gone>
    requires { Fits leave left None hands.old }
    ensures gone { OnErr result (hands.new ≡ hands.old) }
    ensures fits { IfOk result (λ now. Fits leave now.left now.fault hands.new) }
    ensures inbox { OnOk result (TakesMore hands.old.parts.inbox hands.new.parts.inbox) }
    ensures of_subject { IfOk result (λ now. IsOfSubject now.fault) }
    ensures takes_one { OnOk result (looks ≡ false → any_may_wait hands.old.kept.items ≡ false → TakesSome hands.old.parts.inbox hands.new.parts.inbox) }
    ensures ports { IfOk result (λ now. AreSame (view_of hands.old left None).ports (view_of hands.new now.left now.fault).ports) }
    ensures keeps { OnOk result (hands.new.put_away.keeps ≡ hands.old.put_away.keeps) }
    ensures goes { IfOk result (λ now. HasGoneOn S.acts (view_of hands.old left None) (view_of hands.new now.left now.fault)) }
{
    let waits = may_wait(&hands.kept);
    if is_patient(left, waits, looks) {
        let letter = hands.parts.inbox.recv(rt)?;
        return Ok(handle(rt, hands, leave, left, letter));
    }
    let is_short = waits || holds_back(&hands.parts.subjects);
    match hands.parts.inbox.recv_within(rt, most_wait(is_short)) {
        Ok(letter) => Ok(handle(rt, hands, leave, left, letter)),
        Err(TryRecvFault::Gone) => Err(Gone),
        Err(TryRecvFault::Empty) => Ok(handle_none(rt, hands, leave, waits)),
    }
}

// Whether the next letter is waited for without a bound.
fn is_patient(left: bool, waits: bool, looks: bool) -> bool
    ensures left { left ≡ true → result ≡ true }
    ensures waits { looks ≡ false → waits ≡ false → result ≡ true }
{
    left || !waits && !looks
}

// How long the next letter is waited for.
fn most_wait(is_short: bool) -> Duration {
    if is_short {
        Duration::from_millis(MOST_WAIT)
    } else {
        Duration::from_millis(MOST_IDLE)
    }
}

// No letter came for a while. Where nothing waits in a sink, all are looked after.
fn handle_none<S: Sink, R: Wait>(
    rt: &R,
    hands: &mut DrainerLeft<S>,
    leave: usize,
    waits: bool,
) -> AfterLetter
    requires { Fits leave false None hands.old }
    ensures left { result.left ≡ false }
    ensures of_subject { IsOfSubject result.fault }
    ensures fits { Fits leave false result.fault hands.new }
    ensures inbox { hands.new.parts.inbox ≡ hands.old.parts.inbox }
    ensures ports { AreSame (view_of hands.old false None).ports (view_of hands.new false result.fault).ports }
    ensures keeps { hands.new.put_away.keeps ≡ hands.old.put_away.keeps }
    ensures goes { HasGoneOn S.acts (view_of hands.old false None) (view_of hands.new false result.fault) }
{
    if waits {
        return AfterLetter {
            left: false,
            fault: None,
        };
    }
    let fault = look_after(rt, hands, leave);
    AfterLetter { left: false, fault }
}

// Does what the letters ask that are there, as long as there is no fault, and waits for none but within a burst.
pub(crate) fn handle_more<S: Sink, R: Wait>(
    rt: &R,
    hands: &mut DrainerLeft<S>,
    bursts: &mut Bursts,
    leave: usize,
    handled: AfterLetter,
) -> AfterLetter
    requires fits { Fits leave handled.left handled.fault hands.old }
    requires of_subject { IsOfSubject handled.fault }
    ensures fits { Fits leave result.left result.fault hands.new }
    ensures of_subject { IsOfSubject result.fault }
    ensures inbox { TakesMore hands.old.parts.inbox hands.new.parts.inbox }
    ensures ports { AreSame (view_of hands.old handled.left handled.fault).ports (view_of hands.new result.left result.fault).ports }
    ensures keeps { hands.new.put_away.keeps ≡ hands.old.put_away.keeps }
    ensures goes { HasGoneOn S.acts (view_of hands.old handled.left handled.fault) (view_of hands.new result.left result.fault) }
{
    let sinks = hands.kept.len();
    let mut now = handled;
    for count in 0..MOST_LETTERS {
        if now.fault.is_some() {
            return now;
        }
        pass_on(rt, &mut hands.parts.subjects, count);
        now = match hands.parts.inbox.next_in_hand() {
            Some((from, out)) => handle_out(rt, hands, leave, now.left, from, out),
            None => match receive_more(rt, &mut hands.parts, bursts, sinks, count) {
                Ok(letter) => handle(rt, hands, leave, now.left, letter),
                Err(_) => return now,
            },
        };
    }
    now
}

// Takes the letter that comes next, and waits for none but within a burst.
#[inline(never)] // once for each batch
fn receive_more<S: Drop, R: Wait>(
    rt: &R,
    parts: &mut DrainerParts<S>,
    bursts: &mut Bursts,
    sinks: usize,
    letters: u32,
) -> Result<Letter<Out<S>>, TryRecvFault>
    ensures received { MatchResult result (λ letter. parts.new.inbox ≡ with_letter parts.old.inbox letter) (λ _. parts.new.inbox ≡ parts.old.inbox) }
    ensures subjects { all_told parts.new.subjects.items ≡ all_told parts.old.subjects.items }
{
    match parts.inbox.try_recv(rt) {
        Ok(letter) => Ok(letter),
        Err(fault) => await_more(rt, parts, bursts, sinks, letters, fault),
    }
}

// Has what is held back for the subjects go behind some letters, where none of them sleeps: one that is woken may take the core.
#[inline(always)] // once for each letter
fn pass_on<S: Drop, R: Wait>(rt: &R, subjects: &mut Vec<Port<Call<S>>, Heap>, letters: u32)
    ensures { all_told subjects.new.items ≡ all_told subjects.old.items }
{
    if letters % FEW_LETTERS == FEW_LETTERS - 1 && !would_wake(subjects) {
        let _is_left = nudge_all(rt, subjects);
    }
}

// Takes the letter that comes next where none is there, and waits for it within a burst alone: what is held back for the subjects goes,
// and what that brings is waited for shortly. Nobody has to write for the wait to end. It answers this fault where it does not wait.
#[inline(never)] // once for many letters
fn await_more<S: Drop, R: Wait>(
    rt: &R,
    parts: &mut DrainerParts<S>,
    bursts: &mut Bursts,
    sinks: usize,
    letters: u32,
    fault: TryRecvFault,
) -> Result<Letter<Out<S>>, TryRecvFault>
    ensures received { MatchResult result (λ letter. parts.new.inbox ≡ with_letter parts.old.inbox letter) (λ _. parts.new.inbox ≡ parts.old.inbox) }
    ensures subjects { all_told parts.new.subjects.items ≡ all_told parts.old.subjects.items }
{
    if !bursts.may_go_on(letters, sinks) {
        bursts.ended(letters, sinks);
        return Err(fault);
    }
    let _is_left = nudge_all(rt, &mut parts.subjects);
    let received = parts
        .inbox
        .recv_within(rt, Duration::from_micros(MOST_PAUSE));
    if received.is_ok() {
        bursts.went_on(letters);
    } else {
        bursts.waited(letters);
    }
    received
}

// Has go out what waits in the sinks, unless there is a fault, and what is held back for the subjects; where all sinks are due, it looks
// after each. Once the drainer has left there are none.
pub(crate) fn handle_rest<S: Sink, R: Wait>(
    rt: &R,
    hands: &mut DrainerLeft<S>,
    leave: usize,
    handled: AfterLetter,
    is_all_due: bool,
) -> AfterLetter
    requires fits { Fits leave handled.left handled.fault hands.old }
    requires of_subject { IsOfSubject handled.fault }
    ensures fits { Fits leave result.left result.fault hands.new }
    ensures of_subject { IsOfSubject result.fault }
    ensures inbox { hands.new.parts.inbox ≡ hands.old.parts.inbox }
    ensures ports { AreSame (view_of hands.old handled.left handled.fault).ports (view_of hands.new result.left result.fault).ports }
    ensures keeps { hands.new.put_away.keeps ≡ hands.old.put_away.keeps }
    ensures pays { Pays S.acts (view_of hands.old handled.left handled.fault) (view_of hands.new result.left result.fault) }
{
    if handled.left || handled.fault.is_some() {
        let _is_left = try_ring_all(rt, &mut hands.parts.subjects);
        return handled;
    }
    let fault = flush_due(rt, hands, leave, is_all_due);
    AfterLetter { left: false, fault }
}

// Does what a Bye asks: the first of the leave port has the drainer leave. What waits in the sinks goes out before that, as
// far as it can within about a quarter of a second.
#[inline(never)] // once for each port
fn hear_bye<S: Sink, R: Wait>(
    rt: &R,
    hands: &mut DrainerLeft<S>,
    leave: usize,
    left: bool,
    from: u32,
) -> AfterLetter
    requires { Fits leave left None hands.old }
    ensures fits { Fits leave result.left result.fault hands.new }
    ensures inbox { hands.new.parts.inbox ≡ hands.old.parts.inbox }
    ensures ports { AreSame (view_of hands.old left None).ports (view_of hands.new result.left result.fault).ports }
    ensures keeps { hands.new.put_away.keeps ≡ hands.old.put_away.keeps }
    ensures handles { HandlesLetter S.acts (letters.letter from Bye) (view_of hands.old left None) (view_of hands.new result.left result.fault) }
    ensures flushed { left ≡ false → from ≡ leave → result.fault ≡ None → HearsBye S.acts from (view_of hands.old left None) (view_of hands.new result.left None) }
{
    if left || from as usize != leave {
        return AfterLetter { left, fault: None };
    }
    let fault = flush_last(rt, hands, leave);
    if fault.is_some() {
        put_all_away(&mut hands.kept, &mut hands.put_away);
        return AfterLetter { left: true, fault };
    }
    let fault = leave_all(rt, hands, from);
    AfterLetter { left: true, fault }
}

// Asks for what is due of each sink that is kept, has its observer disposed of, puts all sinks away, and ends the ports.
fn leave_all<S: Sink, R: Wait>(rt: &R, hands: &mut DrainerLeft<S>, leave: u32) -> Option<DrainFault>
    requires { Fits leave false None hands.old }
    ensures fits { Fits leave true result hands.new }
    ensures inbox { hands.new.parts.inbox ≡ hands.old.parts.inbox }
    ensures ports { AreSame (view_of hands.old false None).ports (view_of hands.new true result).ports }
    ensures keeps { hands.new.put_away.keeps ≡ hands.old.put_away.keeps }
    ensures handles { HandlesNext S.acts (letters.letter leave Bye) (view_of hands.old false None) (view_of hands.new true result) }
{
    let fault = part_all(rt, &mut hands.parts.subjects, hands.kept.as_slice());
    put_all_away(&mut hands.kept, &mut hands.put_away);
    if fault.is_some() {
        return fault;
    }
    match finish_all(rt, &mut hands.parts.subjects, &mut hands.ended) {
        Ok(()) => None,
        Err(place) => Some(DrainFault::SubjectGone(place)),
    }
}
