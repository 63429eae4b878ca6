//! A machine in a drawn world, with all that it emitted and answered.

use rx_heap::{Heap, Memory};
use rx_log::{Call, CallError, Entry, Holder, Machine, Pace, Stage};
use std::test::Fail;

/// How each machine appends.
const PATIENCE: u64 = 3;

const MOST: u64 = 12;

/// A note that was emitted: its place in the log, and how many items came before it.
#[derive(Clone, Copy, Debug, PartialEq, Eq)]
pub(crate) struct Emitted {
    pub(crate) at: u64,
    pub(crate) place: u64,
}

/// A call that was answered: where its note stands, and its place if that was emitted.
#[derive(Clone, Copy)]
pub(crate) struct Answered {
    pub(crate) ticket: u64,
    pub(crate) at: u64,
    pub(crate) place: Option<u64>,
}

/// A run of a machine.
#[derive(Drop)]
pub(crate) struct Runner {
    pub(crate) machine: Machine,
    pub(crate) holder: Holder,
    span: u64,
    window: u64,
    pub(crate) begun: u64,
    // How far the log went when it began.
    target: u64,
    pub(crate) emits: Vec<Emitted, Heap>,
    pub(crate) answers: Vec<Answered, Heap>,
}

impl Runner {
    pub(crate) fn new(
        heap: &Heap,
        holder: Holder,
        span: u64,
        window: u64,
        begun: u64,
        target: u64,
    ) -> Result<Runner, Memory> {
        Ok(Runner {
            machine: machine_of(heap, holder, span, window, begun)?,
            holder,
            span,
            window,
            begun,
            target,
            emits: Vec::new(heap.clone()?),
            answers: Vec::new(heap.clone()?),
        })
    }

    /// Takes a call, if it has caught up and has room. Whether it did.
    pub(crate) fn publish(&mut self, call: Call) -> Result<bool, Fail> {
        if self.machine.stage() == Stage::Catching {
            return Ok(false);
        }
        match self.machine.publish(call) {
            Ok(()) => Ok(true),
            Err(CallError::Full) => Ok(false),
            Err(CallError::Memory) => Err(Fail::from("out of memory")),
        }
    }

    /// Reads the next entry of a log, if there is one.
    pub(crate) fn read(&mut self, heap: &Heap, log: &Vec<Entry, Heap>) -> Result<(), Fail> {
        let at = self.machine.at();
        let Some(entry) = log.get(at as usize) else {
            return Ok(());
        };
        let at = at.saturating_add(1);
        let read = self.machine.read(at, entry)?;
        let place = read.standing.place();
        if let Some(place) = place {
            self.emits.push(Emitted { at, place })?;
        }
        if let Some(ticket) = read.answers {
            self.answers.push(Answered { ticket, at, place })?;
        }
        self.catch_up(heap)
    }

    // Where it has read as far as the log went when it began: it begins anew further back, where that told it too little.
    fn catch_up(&mut self, heap: &Heap) -> Result<(), Fail> {
        if self.machine.stage() != Stage::Catching || self.machine.at() < self.target {
            return Ok(());
        }
        if self.machine.total().is_some() {
            self.machine.caught_up();
            return Ok(());
        }
        self.begun = self.begun.saturating_sub(self.span.saturating_mul(3));
        self.machine = machine_of(heap, self.holder, self.span, self.window, self.begun)?;
        self.emits.clear();
        Ok(())
    }
}

fn machine_of(
    heap: &Heap,
    holder: Holder,
    span: u64,
    window: u64,
    begun: u64,
) -> Result<Machine, Memory> {
    let pace = Pace {
        most: MOST,
        window,
        patience: PATIENCE,
    };
    Machine::new(heap.clone()?, holder, pace, span, begun)
}
