ghost use Rattle.std.specs.Prelude.{◌≤◌, vec_capacity, IfOk};

use crate::backlog::Backlog;
use crate::observer_look::ObserverLook;
use crate::subject_end::SubjectEnd;
use rx_heap::{Heap, Memory};

// The most observers that a hub holds.
const MOST_OBSERVERS: usize = 64;

/// What is seen of a subject and its observers at one moment: [`Hub::look`](crate::Hub::look) writes it.
#[derive(Drop)]
pub struct SubjectLook {
    /// How many items were accepted.
    pub items: u32,
    pub end: SubjectEnd,
    /// How many Joins were accepted.
    pub joins: u32,
    /// How many steps were answered Memory.
    pub misses: u64,
    /// The bytes that all together hold who share the hub's memory; 0 where that has no limit. Nothing is promised of it.
    pub bytes: u64,
    /// What waits for the observer for whom most notes wait, where whoever filled the look asked for that
    /// ([`Hub::backlog`](crate::Hub::backlog)). Nothing is promised of it.
    pub backlog: Option<Backlog>,
    /// A row for each observer that is held, by rising number.
    pub observers: Vec<ObserverLook, Heap>,
}

impl SubjectLook {
    /// A look at nothing yet, with room for all observers that a hub may hold.
    pub fn new(alloc: Heap) -> Result<SubjectLook, Memory>
        ensures { IfOk result (λ look. 64 ≤ vec_capacity look.observers) }
    {
        let observers = Vec::with_capacity(alloc, MOST_OBSERVERS)?;
        Ok(SubjectLook {
            items: 0,
            end: SubjectEnd::Open,
            joins: 0,
            misses: 0,
            bytes: 0,
            backlog: None,
            observers,
        })
    }
}
