use rx_heap::Heap;
use rx_server::{CloseFault, ServeFault, SubjectReport};
use std::fs::File;

/// How a server ended.
pub(crate) struct Ended {
    /// What serving its connections did.
    pub(crate) served: Result<(), ServeFault>,
    /// What its close did: where it reports, what became of each subject.
    pub(crate) closed: Result<Vec<SubjectReport, Heap>, CloseFault>,
    /// The locks beside its sockets, which are held until it has reported: that of its socket, and that of its face, or the same.
    pub(crate) lock: File,
    pub(crate) beside: File,
}

// By hand: rx_heap says why.
impl Drop for Ended {
    fn drop(self) {
        let Ended {
            served: _,
            closed: _,
            lock: _,
            beside: _,
        } = self;
    }
}
