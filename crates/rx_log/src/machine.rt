// What is to be appended is asked for one by one, and counts as appended then, so each of its growths is refused by itself
// and leaves the machine as it was. Within a tenure the same number is always the same note, so an append more can do no
// harm.
ghost use Rattle.std.specs.Prelude.{◌≡◌, ◌+◌, ◌<◌, ◌≤◌, ◌↔◌, ◌++◌, ◌∷◌, [], List, length, option_to_list, Err, IfOk, OnOk, OnErr};
ghost use Rattle.rx_log.specs.declared.call.Call.{Call};
ghost use Rattle.rx_log.specs.declared.entry.Entry.{Entry};
ghost use Rattle.rx_log.specs.Logs.{Log, Behind};

use crate::call::{Call, CallError};
use crate::read::{Read, ReadError};
use crate::sender::Sender;
use crate::{Entry, Holder, Pace, Rule, Stage, Total};
use rx_heap::{Heap, Memory};
use std::marker::Model;

/// One machine's part in a log that several share: it takes calls to publish, tells what to append, and is told each entry that
/// was read. It emits the notes that count, and answers each call of its own where its note stands.
///
/// Whatever becomes of what it appends, and whenever: what of the log is its own, followed by what waits, is exactly what was
/// called, in that order. It takes the memory of its rule, and a place for each call that waits.
///
/// This is the project's own.
#[derive(Drop)]
pub struct Machine {
    rule: Rule,
    sender: Sender,
}

impl Model for Machine {
    ghost use Rattle.rx_log.specs.Machines.{MachineState};

    ghost Value = { MachineState };

    ghost view = { λ m. record { rule = m.rule; sender = m.sender } };
}

impl Machine {
    ghost use Rattle.rx_log.specs.Machines.{StandsFor, IsHanded, Reads, Tells};
    ghost use Rattle.rx_log.specs.Senders.{due, handed_on, connected_at, gone_at, caught_up_at, ticked_at, read_on};

    /// A machine that begins to read behind the first `begun` entries of a log by the rule of this span. It has to be told when
    /// it has caught up before it appends.
    ///
    /// # Errors
    ///
    /// `Memory`.
    pub fn new(
        alloc: Heap,
        holder: Holder,
        pace: Pace,
        span: u64,
        begun: u64,
    ) -> Result<Machine, Memory>
        ensures stands { IfOk result (λ machine. StandsFor machine [] [] (Behind begun)) }
        ensures span { IfOk result (λ machine. machine.rule.span ≡ span) }
        ensures holder { IfOk result (λ machine. machine.sender.holder ≡ holder) }
    {
        let rule = Rule::new(alloc.clone()?, span, begun)?;
        let sender = Sender::new(alloc, holder, pace);
        Ok(Machine { rule, sender })
    }

    /// How many entries it has read up to, which is the place of the last.
    pub fn at(&self) -> u64
        ensures { result ≡ self.now.rule.at }
    {
        self.rule.at()
    }

    /// What the log comes to, None where that is not known yet.
    pub fn total(&self) -> Option<Total>
        ensures { result ≡ self.now.rule.total }
    {
        self.rule.total()
    }

    /// How far it is.
    pub fn stage(&self) -> Stage
        ensures { result ≡ self.now.sender.stage }
    {
        self.sender.stage()
    }

    /// A call to publish a note. Refused in the order `Full`, `Memory`.
    pub fn publish(&mut self, call: Call) -> Result<(), CallError>
        ensures full { (result ≡ Err CallError.Full) ↔ (self.old.sender.pace.most ≤ length self.old.sender.waiting) }
        ensures ok { OnOk result (self.new ≡ record { rule = self.old.rule; sender = record self.old.sender { waiting = self.old.sender.waiting ++ call ∷ [] } }) }
        ensures stands { OnOk result ((calls : List Call) (handed : List Entry) (L : Log) → StandsFor self.old calls handed L
            → StandsFor self.new (calls ++ call ∷ []) handed L) }
        ensures err { OnErr result (self.new ≡ self.old) }
    {
        if self.sender.is_full() {
            return Err(CallError::Full);
        }
        match self.sender.call(call) {
            Ok(()) => Ok(()),
            Err(_) => Err(CallError::Memory),
        }
    }

    /// What is to be appended next; None where nothing is. It counts as appended then, whatever becomes of it: it may come to
    /// stand in the log never, once or several times, whenever.
    ///
    /// # Errors
    ///
    /// `Memory`, which leaves the machine as it was.
    pub fn append(&mut self) -> Result<Option<Entry>, Memory>
        ensures due { IfOk result (λ entry. entry ≡ due self.old.sender self.old.rule.at self.old.rule.total) }
        ensures ok { IfOk result (λ entry. self.new ≡ record { rule = self.old.rule; sender = handed_on self.old.sender entry }) }
        ensures stands { IfOk result (λ entry. (calls : List Call) (handed : List Entry) (L : Log) → StandsFor self.old calls handed L
            → StandsFor self.new calls (option_to_list entry ++ handed) L) }
        ensures tells { IfOk result (λ entry. (calls : List Call) (handed : List Entry) (L : Log) → StandsFor self.old calls handed L
            → Tells self.old.rule.span L entry) }
        ensures err { OnErr result (self.new ≡ self.old) }
    {
        let at = self.rule.at();
        let total = self.rule.total();
        self.sender.append(at, total)
    }

    /// Reads the entry at a place, which has to be the next one. Refused in the order `Passed`, `Gone`, `Memory`; `Memory` also
    /// where 9,223,372,036,854,775,807 entries were read.
    pub fn read(&mut self, place: u64, entry: &Entry) -> Result<Read, ReadError>
        ensures passed { (result ≡ Err ReadError.Passed) ↔ (place ≤ self.old.rule.at) }
        ensures gone { (result ≡ Err ReadError.Gone) ↔ (self.old.rule.at + 1 < place) }
        ensures reads { IfOk result (λ read. (calls : List Call) (handed : List Entry) (L : Log) → StandsFor self.old calls handed L
            → IsHanded self.old.rule.span self.old.sender.holder handed L entry.now → Reads self.old self.new calls handed L entry.now read) }
        ensures next { IfOk result (λ read. self.new.sender ≡ read_on self.old.rule.span self.old.sender place entry.now read.standing) }
        ensures span { self.new.rule.span ≡ self.old.rule.span }
        ensures err { OnErr result (self.new ≡ self.old) }
    {
        let at = self.rule.at();
        if place <= at {
            return Err(ReadError::Passed);
        }
        if place - 1 > at {
            return Err(ReadError::Gone);
        }
        let Ok(standing) = self.rule.step(entry) else {
            return Err(ReadError::Memory);
        };
        let answers = self.sender.hear(place, entry, standing);
        self.sender.reached(place, self.rule.span());
        Ok(Read { standing, answers })
    }

    /// Its connection came. It appends a tenure, and behind it what waits.
    pub fn connected(&mut self)
        ensures now { self.new ≡ record { rule = self.old.rule; sender = connected_at self.old.sender self.old.sender.stage } }
        ensures stands { (calls : List Call) (handed : List Entry) (L : Log) → StandsFor self.old calls handed L → StandsFor self.new calls handed L }
    {
        self.sender.connected();
    }

    /// Its connection broke. Nothing is to be appended until another one came.
    pub fn disconnected(&mut self)
        ensures now { self.new ≡ record { rule = self.old.rule; sender = gone_at self.old.sender self.old.sender.stage } }
        ensures stands { (calls : List Call) (handed : List Entry) (L : Log) → StandsFor self.old calls handed L → StandsFor self.new calls handed L }
    {
        self.sender.disconnected();
    }

    /// It has read as far as the log went when it began.
    pub fn caught_up(&mut self)
        ensures now { self.new ≡ record { rule = self.old.rule; sender = caught_up_at self.old.sender self.old.sender.stage } }
        ensures stands { (calls : List Call) (handed : List Entry) (L : Log) → StandsFor self.old calls handed L → StandsFor self.new calls handed L }
    {
        self.sender.caught_up();
    }

    /// A moment passed, in milliseconds. Where it waits too long for what it appended, it begins anew.
    pub fn tick(&mut self, moment: u64)
        ensures now { self.new ≡ record { rule = self.old.rule; sender = ticked_at (record self.old.sender { moment = moment }) self.old.sender.stage } }
        ensures stands { (calls : List Call) (handed : List Entry) (L : Log) → StandsFor self.old calls handed L → StandsFor self.new calls handed L }
    {
        self.sender.tick(moment);
    }
}
