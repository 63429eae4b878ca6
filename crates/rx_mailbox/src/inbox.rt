// A look in vain makes no room for a letter. As the toolchain compiles it, a function clears what it may hold as it begins.
// So what a letter needs once it has come stands in functions of their own (`open_batch`), and a look is short
// (`Inbox::look`): how soon a letter is seen is half a look.
ghost use Rattle.std.specs.Prelude.{◌≡◌, ◌≢◌, ◌<◌, ◌+◌, ◌-◌, ◌^◌, ◌↔◌, ◌∷◌, [], List, min, IsTrue, IfErr, IfOk, IfSome, MatchOption, MatchResult};
ghost use Rattle.crossbeam_channel.specs.Claims.{view, IsSeatAt};
ghost use Rattle.crossbeam_channel.specs.Ends.{receives_on};
ghost use Rattle.rx_mailbox.specs.Batches.{carried};
ghost use Rattle.rx_mailbox.specs.Boxes.{with_letter, HasBye, HasEachBye};
ghost use Rattle.rx_mailbox.specs.Letters.{letter, posts};
ghost use Rattle.rx_mailbox.specs.declared.letter.Post.TheVariants.{Body};
ghost use Rattle.rx_mailbox.specs.Passes.{inbox_of, IsReader};
ghost use Rattle.rx_mailbox.specs.Rests.{ReceivesMore};
ghost use Rattle.rx_mailbox.specs.Settling.{letter_count};

pub(crate) mod try_recv_fault;

use crate::bell::patience::Patience;
use crate::bell::{FEW_LOOKS, LOOKS, Sleep};
use crate::channel::inlet::Inlet;
use crate::channel::{BoxPass, BoxReceiver};
use crate::inbox::try_recv_fault::TryRecvFault;
use crate::letter::batch::Batch;
use crate::letter::lists::SharedLists;
use crate::letter::{Letter, Post};
use crate::opening::leavings::SharedLeavings;
use crate::port::Port;
use crossbeam_channel::TryRecvError;
use rx_heap::Heap;
use std::collections::VecDeque;
use std::error::Error;
use std::marker::Model;
use std::sync::Wait;
use std::time::Duration;
use std::{fmt, mem};

/// Every port of the box was dropped, ended or not, and the box is empty: no letter will come any more.
#[derive(Clone, Copy, Debug, PartialEq, Eq)]
pub struct Gone;

impl fmt::Display for Gone {
    fn fmt<W: fmt::Write>(&self, f: &mut fmt::Formatter<W>) -> fmt::Result {
        f.write_str("no letter will come any more")
    }
}

impl Error for Gone {}

/// The receiver of a box. Contracts see how many ports the box has, and the letters that were received, in their order.
pub struct Inbox<B: Drop> {
    pub(crate) inlet: Inlet<B>,
    pub(crate) lists: SharedLists<B>,
    pub(crate) leavings: SharedLeavings<B>,
    // The bodies in hand, and the number of their port.
    pub(crate) hand: VecDeque<B, Heap>,
    pub(crate) from: u32,
    // How many letters were received.
    pub(crate) letters: u64,
    // How long it looks for a letter before it sleeps.
    pub(crate) patience: Patience,
}

// By hand: rx_heap says why.
impl<B: Drop> Drop for Inbox<B> {
    fn drop(self) {
        let Inbox {
            inlet: _,
            lists: _,
            leavings: _,
            hand: _,
            from: _,
            letters: _,
            patience: _,
        } = self;
    }
}

impl<B: Drop> Model for Inbox<B> {
    ghost use Rattle.std.specs.Prelude.{◌≡◌, length};
    ghost use Rattle.rx_mailbox.specs.Boxes.{Incoming};
    ghost use Rattle.rx_mailbox.specs.Hands.{so_far, IsHand};
    ghost use Rattle.rx_mailbox.specs.Settling.{letter_count};

    ghost Value = { Incoming B };

    ghost view = { λ i. so_far i.inlet (length i.hand.items) };

    ghost invariant = { λ i. IsHand i.inlet i.from i.hand.items × (i.letters ≡ letter_count (so_far i.inlet (length i.hand.items)).received) };
}

impl<B: Drop> Inbox<B> {
    /// Takes the letter at the front of the box, and waits while there is none. `Err` where none will come any more, and
    /// nothing changed. A port that has ended counts as there until it is dropped.
    pub fn recv<R: Wait>(&mut self, rt: &R) -> Result<Letter<B>, Gone>
        ensures received { MatchResult result (λ letter. self.new ≡ with_letter self.old letter) (λ _. self.new ≡ self.old) }

        // It is from a port of the box whose Bye had not come.
        ensures port { IfOk result (λ letter. letter.from < self.old.ports) }
        ensures before_bye { IfOk result (λ letter. ¬ HasBye self.old letter.from) }
    {
        self.recv_asleep(rt, Sleep::Light)
    }

    /// The same, but it sleeps past what is put with no more than a nudge (`Port::nudge`), which it finds in the box once it is woken.
    pub fn recv_past_nudges<R: Wait>(&mut self, rt: &R) -> Result<Letter<B>, Gone>
        ensures received { MatchResult result (λ letter. self.new ≡ with_letter self.old letter) (λ _. self.new ≡ self.old) }

        // It is from a port of the box whose Bye had not come.
        ensures port { IfOk result (λ letter. letter.from < self.old.ports) }
        ensures before_bye { IfOk result (λ letter. ¬ HasBye self.old letter.from) }
    {
        self.recv_asleep(rt, Sleep::Deep)
    }

    // The same, with a sleep of this kind.
    fn recv_asleep<R: Wait>(&mut self, rt: &R, sleep: Sleep) -> Result<Letter<B>, Gone>
        ensures received { MatchResult result (λ letter. self.new ≡ with_letter self.old letter) (λ _. self.new ≡ self.old) }
        ensures port { IfOk result (λ letter. letter.from < self.old.ports) }
        ensures before_bye { IfOk result (λ letter. ¬ HasBye self.old letter.from) }
    {
        if let Some(letter) = self.next_letter() {
            return Ok(letter);
        }
        let looks_at_most = self.patience.looks(LOOKS);
        let mut looks = 0;
        for _ in rt.forever() {
            match self.look(rt) {
                Ok(letter) => {
                    self.inlet.bell().rise(looks, looks_at_most);
                    self.patience.learn(looks >= looks_at_most);
                    return Ok(letter);
                }
                Err(TryRecvFault::Gone) => return Err(Gone),
                Err(TryRecvFault::Empty) => {}
            }
            looks = self.inlet.bell().wait(rt, looks, looks_at_most, sleep);
        }
        unreachable!()
    }

    /// Takes the letter at the front of the box, and waits while there is none, but no longer than about so long. `Err` as by
    /// `try_recv`. It looks but shortly before it sleeps, as one does who mostly wrote to a peer.
    pub fn recv_within<R: Wait>(
        &mut self,
        rt: &R,
        most: Duration,
    ) -> Result<Letter<B>, TryRecvFault>
        ensures received { MatchResult result (λ letter. self.new ≡ with_letter self.old letter) (λ _. self.new ≡ self.old) }

        // It is from a port of the box whose Bye had not come.
        ensures port { IfOk result (λ letter. letter.from < self.old.ports) }
        ensures before_bye { IfOk result (λ letter. ¬ HasBye self.old letter.from) }
    {
        self.recv_after(rt, FEW_LOOKS, most)
    }

    /// The same, but it looks before it sleeps as long as `recv` does.
    pub fn recv_patiently<R: Wait>(
        &mut self,
        rt: &R,
        most: Duration,
    ) -> Result<Letter<B>, TryRecvFault>
        ensures received { MatchResult result (λ letter. self.new ≡ with_letter self.old letter) (λ _. self.new ≡ self.old) }

        // It is from a port of the box whose Bye had not come.
        ensures port { IfOk result (λ letter. letter.from < self.old.ports) }
        ensures before_bye { IfOk result (λ letter. ¬ HasBye self.old letter.from) }
    {
        self.recv_after(rt, LOOKS, most)
    }

    // The same, with so many looks at most before it sleeps.
    fn recv_after<R: Wait>(
        &mut self,
        rt: &R,
        looks_at_most: u32,
        most: Duration,
    ) -> Result<Letter<B>, TryRecvFault>
        ensures received { MatchResult result (λ letter. self.new ≡ with_letter self.old letter) (λ _. self.new ≡ self.old) }
        ensures port { IfOk result (λ letter. letter.from < self.old.ports) }
        ensures before_bye { IfOk result (λ letter. ¬ HasBye self.old letter.from) }
    {
        if let Some(letter) = self.next_letter() {
            return Ok(letter);
        }
        let looks_at_most = self.patience.looks(looks_at_most);
        let mut looks = 0;
        for _ in rt.forever() {
            match self.look(rt) {
                Ok(letter) => {
                    self.inlet.bell().rise(looks, looks_at_most);
                    self.patience.learn(looks >= looks_at_most);
                    return Ok(letter);
                }
                Err(TryRecvFault::Gone) => return Err(TryRecvFault::Gone),
                Err(TryRecvFault::Empty) => {}
            }
            match self
                .inlet
                .bell()
                .wait_within(rt, looks, looks_at_most, most)
            {
                Some(more) => looks = more,
                None => {
                    self.patience.learn(true);
                    return self.look(rt);
                }
            }
        }
        unreachable!()
    }

    /// Takes the letter at the front of the box, and waits for none. `Err` where there is none, and nothing changed: it
    /// says whether one may still come.
    pub fn try_recv<R: Wait>(&mut self, rt: &R) -> Result<Letter<B>, TryRecvFault>
        ensures received { MatchResult result (λ letter. self.new ≡ with_letter self.old letter) (λ _. self.new ≡ self.old) }

        // It is from a port of the box whose Bye had not come.
        ensures port { IfOk result (λ letter. letter.from < self.old.ports) }
        ensures before_bye { IfOk result (λ letter. ¬ HasBye self.old letter.from) }
    {
        match self.next_letter() {
            Some(letter) => Ok(letter),
            None => self.look(rt),
        }
    }

    // The next of the letters that came with another which was handed out, if one is left.
    #[inline(always)] // once for each letter
    fn next_letter(&mut self) -> Option<Letter<B>>
        ensures received { MatchOption result (self.new ≡ self.old) (λ letter. self.new ≡ with_letter self.old letter) }

        // It is from a port of the box whose Bye had not come.
        ensures port { IfSome result (λ letter. letter.from < self.old.ports) }
        ensures before_bye { IfSome result (λ letter. ¬ HasBye self.old letter.from) }
    {
        match self.next_in_hand() {
            Some((from, body)) => Some(Letter {
                from,
                post: Post::Body(body),
            }),
            None => None,
        }
    }

    /// The port and the body of the next of the letters that came with another which was taken, if one is left: such a letter has
    /// a body.
    #[inline(always)] // the same
    pub fn next_in_hand(&mut self) -> Option<(u32, B)>
        ensures received { MatchOption result (self.new ≡ self.old) (λ next. self.new ≡ with_letter self.old (letter next.0 (Body next.1))) }

        // It is from a port of the box whose Bye had not come.
        ensures port { IfSome result (λ next. next.0 < self.old.ports) }
        ensures before_bye { IfSome result (λ next. ¬ HasBye self.old next.0) }
    {
        match self.hand.pop_front() {
            Some(body) => {
                self.letters = self.letters.saturating_add(1);
                Some((self.from, body))
            }
            None => None,
        }
    }

    // Takes what comes next, as `try_recv` does, where nothing is in hand, and else nothing.
    #[inline(never)] // a look in vain makes no room for what comes of a letter
    fn look<R: Wait>(&mut self, rt: &R) -> Result<Letter<B>, TryRecvFault>
        ensures received { MatchResult result (λ letter. self.new ≡ with_letter self.old letter) (λ _. self.new ≡ self.old) }
        ensures port { IfOk result (λ letter. letter.from < self.old.ports) }
        ensures before_bye { IfOk result (λ letter. ¬ HasBye self.old letter.from) }
    {
        if !self.hand.is_empty() {
            return Err(TryRecvFault::Empty);
        }
        match self.leavings.take_by(rt, &mut self.inlet) {
            Ok(came) => open_batch(
                rt,
                &self.lists,
                &mut self.hand,
                &mut self.from,
                &mut self.letters,
                came,
            ),
            Err(TryRecvError::Empty) => Err(TryRecvFault::Empty),
            Err(TryRecvError::Disconnected) => Err(TryRecvFault::Gone),
        }
    }

    // Its pass, and how many letters were received.
    pub(crate) fn into_pass(self) -> (BoxPass<B>, u64)
        requires each_bye { HasEachBye self }
        ensures pass { inbox_of result.0 ≡ self }
        ensures reader { IsReader (view result.0) }
        ensures free { result.0.me.1 ≡ [] }
        ensures letters { result.1 ≡ letter_count self.received }
    {
        let Inbox {
            inlet,
            lists: _,
            leavings: _,
            hand: _,
            from: _,
            letters,
            patience: _,
        } = self;
        (inlet.into_pass(), letters)
    }

    // The way by which it takes letters, its pass, by which what is in hand was received too, and how many letters that makes.
    pub(crate) fn into_ends(self) -> (BoxReceiver<B>, BoxPass<B>, u64)
        ensures seat { IsSeatAt (receives_on result.0) result.1 }
        ensures reader { IsReader (view result.1) }
        ensures received { ReceivesMore self (inbox_of result.1) }
        ensures letters { result.2 ≡ letter_count (inbox_of result.1).received }
    {
        let Inbox {
            inlet,
            lists: _,
            leavings: _,
            hand,
            from: _,
            letters,
            patience: _,
        } = self;
        let letters = letters.saturating_add(hand.len() as u64);
        let (receiver, pass) = inlet.into_ends();
        (receiver, pass, letters)
    }

    /// Lets go of a port of this box that has not ended: no Bye of it was received.
    pub fn show_open(&mut self, port: Port<B>)
        requires { port.box ≡ self.old.box }
        ensures same { self.new ≡ self.old }
        ensures open { ¬ HasBye self.old port.number }
    {
        self.inlet.show_open(port.into_outlet());
    }

    /// Whether the letter that comes next came together with the last one: no port need be rung for it.
    pub fn has_more_in_hand(&self) -> bool {
        !self.hand.is_empty()
    }

    /// Lets go of the inbox, and waits for nothing. Its ports do not find it gone: what they put goes nowhere.
    pub fn let_go(self) {
        let Inbox {
            inlet,
            lists: _,
            leavings,
            hand: _,
            from: _,
            letters: _,
            patience: _,
        } = self;
        leavings.leave_inlet(inlet);
    }

    /// How many ports the box has.
    pub fn ports(&self) -> usize
        ensures { result ≡ self.now.ports }
    {
        self.inlet.ports()
    }

    /// Whether the Bye of each port was received.
    pub fn has_each_bye(&self) -> bool
        ensures { IsTrue result ↔ HasEachBye self.now }
    {
        self.inlet.has_each_bye()
    }
}

// Hands out the first letter of what came at once, and takes those that follow it in hand, where nothing was. `Empty` where it
// carries none.
#[inline(never)] // a look in vain makes no room for it
fn open_batch<B: Drop, R: Wait>(
    rt: &R,
    lists: &SharedLists<B>,
    hand: &mut VecDeque<B, Heap>,
    from: &mut u32,
    letters: &mut u64,
    came: Letter<Batch<B>>,
) -> Result<Letter<B>, TryRecvFault>
    requires { hand.old.items ≡ [] }
    ensures opened { MatchResult result
        (λ first. carried came ≡ first ∷ posts came.from hand.new.items)
        (λ _. (carried came ≡ []) × (hand.new.items ≡ [])) }
    ensures bodies { hand.new.items ≢ [] → (bodies : List B) × (carried came ≡ posts came.from bodies) }
    ensures empty { IfErr result (λ fault. fault ≡ TryRecvFault.Empty) }
    ensures from { (from.new ≡ came.from) × IfOk result (λ first. first.from ≡ came.from) }
    ensures letters { MatchResult result (λ _. letters.new ≡ min (letters.old + 1) (2 ^ 64 - 1)) (λ _. letters.new ≡ letters.old) }
{
    let Letter { from: port, post } = came;
    *from = port;
    let post = match post {
        Post::Bye => Post::Bye,
        Post::Body(Batch::One(body)) => Post::Body(body),
        Post::Body(Batch::Many(bodies)) => {
            lists.keep(rt, mem::replace(hand, bodies));
            match hand.pop_front() {
                Some(body) => Post::Body(body),
                None => return Err(TryRecvFault::Empty),
            }
        }
    };
    *letters = letters.saturating_add(1);
    Ok(Letter { from: port, post })
}
