// `Hub::new` reserves the list of observers, so that its `Memory` is met where the list can't be had, and a join grows
// little.
ghost use Rattle.std.specs.Prelude.{◌≡◌, ◌≢◌, ◌+◌, ◌-◌, ◌≤◌, ◌^◌, ◌↔◌, min, Err, false, IfOk, IsOk, OnErr, OnOk, if◌then◌else◌, length, vec_capacity};
ghost use Rattle.rx_hub.specs.Counts.{waiting_count};
ghost use Rattle.rx_hub.specs.Hubs.{is_miss};
ghost use Rattle.rx_hub.specs.Looks.{IsSeen};
ghost use Rattle.rx_history.specs.Histories.{History, NoEvents, held, item_count, joins};

use crate::backlog::Backlog;
use crate::multicast::Multicast;
use crate::no_observer::NoObserver;
use crate::run::Run;
use crate::step::Step;
use crate::subject_look::SubjectLook;
use rx_heap::{Heap, Memory};
use rx_note::{Answer, Event, Given, Kind, Limits, Refusal};
use std::error::Error;
use std::fmt;
use std::marker::Model;

/// Why a hub was not made.
#[derive(Clone, Copy, Debug, PartialEq, Eq)]
pub enum HubError {
    /// The limits are not 1 to 64 observers, and 1 to 4,294,967,295 joins and items.
    BadLimits,
    /// There was no memory for it.
    Memory,
}

impl fmt::Display for HubError {
    fn fmt<W: fmt::Write>(&self, f: &mut fmt::Formatter<W>) -> fmt::Result {
        f.write_str(match self {
            HubError::BadLimits =>
                "limits are 1 to 64 observers, and 1 to 4294967295 joins and items",
            HubError::Memory => "out of memory",
        })
    }
}

impl Error for HubError {}

/// The core of one subject. Contracts see its state and the number of its Memory answers, and tell by the history that
/// it stands for what it answers and gives. It stores no history.
pub struct Hub {
    multicast: Multicast,
    misses: u64,
}

// By hand: rx_heap says why.
impl Drop for Hub {
    fn drop(self) {
        let Hub {
            multicast: _,
            misses: _,
        } = self;
    }
}

impl Model for Hub {
    ghost use Rattle.rx_hub.specs.Hubs.{HubView};

    ghost Value = { HubView };

    ghost use Rattle.rx_hub.specs.Multicasts.{state_of};

    ghost view = { λ h. record { state = state_of h.multicast; misses = h.misses } };
}

impl Hub {
    ghost use Rattle.rx_hub.specs.Hubs.{StandsFor, Steps, MayMiss, are_in_range};
    ghost use Rattle.rx_hub.specs.Runs.{Ran, GivesEach, RequestsEach, misses_after, results_of};

    /// A hub of this kind, with no event yet. Refused in the order `BadLimits`, `Memory`.
    pub fn new(alloc: Heap, kind: Kind, limits: Limits) -> Result<Hub, HubError>
        ensures bad_limits { (result ≡ Err HubError.BadLimits) ↔ (are_in_range limits ≡ false) }
        ensures stands { IfOk result (λ hub. StandsFor hub.state NoEvents) }
        ensures rules { IfOk result (λ hub. hub.state.rules ≡ record { kind = kind; limits = limits }) }
        ensures misses { IfOk result (λ hub. hub.misses ≡ 0) }
    {
        if limits.observers < 1 || limits.observers > 64 || limits.joins < 1 || limits.items < 1 {
            return Err(HubError::BadLimits);
        }
        match Multicast::new(alloc, kind, limits) {
            Ok(multicast) => Ok(Hub {
                multicast,
                misses: 0,
            }),
            Err(_) => Err(HubError::Memory),
        }
    }

    /// Takes one event from a port, and puts at the end of `outs` what it gives: by rising number of the observer, and
    /// to each observer in its order. Refused in the order of its kind: Emit Ended, Spent, Memory; Join Full, Spent,
    /// Memory; Request ZeroRequest, NoObserver, TooMuch, Memory; Dispose NoObserver, for it takes no memory. An emission is
    /// Spent where it is an item, and as many were accepted as the limits allow. A refusal leaves the hub and `outs`, but a
    /// Memory answer is counted in `misses`.
    #[inline(always)] // so that an event is moved once
    pub fn step(
        &mut self,
        port: u32,
        event: Event,
        outs: &mut Vec<Given, Heap>,
    ) -> Result<Answer, Refusal>
        ensures step { result ≢ Err Refusal.Memory → (H : History) → StandsFor self.old.state H
            → Steps self.old.state self.new.state outs.old.items outs.new.items result H (port, event) }
        ensures kept { result ≢ Err Refusal.Memory → self.new.misses ≡ self.old.misses }
        ensures missed { result ≡ Err Refusal.Memory
            → (self.new ≡ record { state = self.old.state; misses = min (self.old.misses + 1) (2 ^ 64 - 1) }) × (outs.new.items ≡ outs.old.items) }
        ensures accepted { result ≡ Err Refusal.Memory → (H : History) → StandsFor self.old.state H → MayMiss self.old.state.rules H (port, event) }
        ensures rules { self.new.state.rules ≡ self.old.state.rules }
    {
        let result = self.multicast.take(port, event, outs);
        self.misses = counted(self.misses, &result);
        result
    }

    /// Takes so many requests for one item each for an observer, one behind another, each as `step` takes it. It answers how many of
    /// them were refused for want of memory.
    pub fn request_each(&mut self, port: u32, who: u32, n: u32, outs: &mut Vec<Given, Heap>) -> u32
        ensures took { RequestsEach self.old self.new port who n outs.old.items outs.new.items result }
        ensures rules { self.new.state.rules ≡ self.old.state.rules }
    {
        match self.multicast.request(who, n, outs) {
            Ok(_) => 0,
            Err(_) => self.request_singly(port, who, n, outs),
        }
    }

    // The same by as many steps, where one for all of them is refused: fewer may be taken.
    #[inline(never)] // rare
    fn request_singly(&mut self, port: u32, who: u32, n: u32, outs: &mut Vec<Given, Heap>) -> u32
        ensures took { RequestsEach self.old self.new port who n outs.old.items outs.new.items result }
        ensures rules { self.new.state.rules ≡ self.old.state.rules }
    {
        let mut missed = 0;
        for _ in 0..n {
            let result = self.step(port, Event::Request { who, n: 1 }, outs);
            missed += miss(&result);
        }
        missed
    }

    /// Takes several events, each from its port, in their order. A step refused for memory has that refusal as its
    /// result and no outs, and the run goes on. `Memory` where there was none for the list of the steps: no step was made.
    pub fn run(&mut self, alloc: Heap, events: Vec<(u32, Event), Heap>) -> Result<Run, Memory>
        ensures unmade { OnErr result (self.new ≡ self.old) }
        ensures ran { (H : History) → StandsFor self.old.state H
            → IfOk result (λ run. Ran self.old.state.rules self.new.state H events.items run.steps.items run.outs.items) }
        ensures given { (H : History) → StandsFor self.old.state H
            → IfOk result (λ run. GivesEach self.old.state.rules H events.items run.steps.items run.outs.items) }
        ensures misses { IfOk result (λ run. self.new.misses ≡ misses_after self.old.misses (results_of run.steps.items)) }
        ensures rules { self.new.state.rules ≡ self.old.state.rules }
    {
        let mut steps = Vec::with_capacity(alloc.clone()?, events.len())?;
        let mut outs = Vec::new(alloc);
        for (port, event) in events {
            let result = self.step(port, event, &mut outs);
            steps.push_reserved(Step {
                result,
                outs_to: outs.len(),
            });
        }
        Ok(Run { steps, outs })
    }

    /// How many observers are held.
    pub fn observers(&self) -> u32
        ensures count { result ≡ length self.now.state.observers }
        ensures held { (H : History) → StandsFor self.now.state H → result ≡ length (held self.now.state.rules H) }
    {
        self.multicast.observers()
    }

    /// How many Joins were accepted: the number of the next observer. It takes no memory.
    pub fn joins(&self) -> u32
        ensures count { result ≡ self.now.state.joined }
        ensures joins { (H : History) → StandsFor self.now.state H → result ≡ joins self.now.state.rules H }
    {
        self.multicast.joins
    }

    /// How many items were accepted: the place of the next. It takes no memory.
    #[inline] // asked for every call
    pub fn items(&self) -> u32
        ensures count { result ≡ self.now.state.subject.count }
        ensures items { (H : History) → StandsFor self.now.state H → result ≡ item_count self.now.state.rules H }
    {
        self.multicast.subject.items()
    }

    /// How many notes wait for the observer `who`, the terminal included. Refused as `NoObserver` where no observer of
    /// that number is held.
    pub fn waiting_of(&self, who: u32) -> Result<usize, NoObserver>
        ensures { (H : History) → StandsFor self.now.state H → result ≡ waiting_count self.now.state.rules H who }
    {
        self.multicast.waiting_of(who)
    }

    /// Writes what is seen of the subject and its observers at this moment in place of what was seen before. It takes no memory
    /// where that has room for a row of each observer. `Memory` where it has not, and there was none: then nothing is seen.
    pub fn look(&self, seen: &mut SubjectLook) -> Result<(), Memory>
        ensures seen { OnOk result ((H : History) → StandsFor self.now.state H → IsSeen self.now.state.rules H seen.new) }
        ensures misses { seen.new.misses ≡ self.now.misses }
        ensures room { length self.now.state.observers ≤ vec_capacity seen.old.observers → IsOk result }
    {
        seen.misses = self.misses;
        self.multicast.look(seen)
    }

    /// Whether its subject ended. Nothing is promised of it.
    #[inline] // asked for every call
    pub fn is_ended(&self) -> bool {
        self.multicast.subject.is_ended()
    }

    /// What waits for the observer for whom most notes wait; None where none waits for any. It takes a step for each item that it
    /// counts, and nothing is promised of it.
    pub fn backlog(&self) -> Option<Backlog> {
        self.multicast.backlog()
    }

    /// How many of its steps were answered Memory; it stays at its greatest value.
    pub fn misses(&self) -> u64
        ensures { result ≡ self.now.misses }
    {
        self.misses
    }
}

// One for a Memory answer, and none for another.
fn miss(answered: &Result<Answer, Refusal>) -> u32
    ensures { result ≡ (if is_miss answered.now then 1 else 0) }
{
    match answered {
        Err(Refusal::Memory) => 1,
        _ => 0,
    }
}

// The number of Memory answers with this answer.
#[inline(always)] // on the path of every event
fn counted(misses: u64, answered: &Result<Answer, Refusal>) -> u64
    ensures { result ≡ (if is_miss answered.now then min (misses + 1) (2 ^ 64 - 1) else misses) }
{
    match answered {
        Err(Refusal::Memory) => misses.saturating_add(1),
        _ => misses,
    }
}
