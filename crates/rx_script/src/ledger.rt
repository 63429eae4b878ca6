ghost use Rattle.std.specs.Prelude.{◌≡◌, IfOk};

use crate::observed::Observed;
use rx_config::SubjectConfig;
use rx_heap::{Heap, Memory};
use rx_history::{History, LineError};

/// A subject of an audit, and its stored history.
pub(crate) struct Ledger {
    pub(crate) subject: SubjectConfig,
    pub(crate) history: History,
}

// By hand: rx_heap says why.
impl Drop for Ledger {
    fn drop(self) {
        let Ledger {
            subject: _,
            history: _,
        } = self;
    }
}

impl Ledger {
    ghost use Rattle.rx_script.specs.Audits.{Observes, subject_in};
    ghost use Rattle.rx_script.specs.Scripts.{new_subject};

    /// The ledger of a subject, with no event yet.
    pub(crate) fn new(alloc: Heap, subject: SubjectConfig) -> Ledger
        ensures { subject_in result ≡ new_subject subject }
    {
        Ledger {
            subject,
            history: History::new(alloc),
        }
    }

    /// What is known of an observer. None exactly where no accepted Join made it.
    pub(crate) fn observed(&self, who: u32) -> Result<Option<Observed>, Memory>
        ensures { IfOk result (λ observed. Observes observed (subject_in self.now) who) }
    {
        let given = match self.history.given(&self.subject.rules, who) {
            Ok(given) => given,
            Err(LineError::NoObserver) => return Ok(None),
            Err(LineError::Memory) => return Err(Memory),
        };
        match self.history.waiting(&self.subject.rules, who) {
            Ok(waiting) => Ok(Some(Observed { given, waiting })),
            Err(LineError::NoObserver) => Ok(None),
            Err(LineError::Memory) => Err(Memory),
        }
    }
}
