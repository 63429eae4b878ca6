use crate::notices::bound::Bound;
use crate::notices::rate::Rate;
use crate::notices::subject_line::{write_end, write_refusal};
use rx_config::SubjectConfig;
use rx_hub::{SubjectEnd, SubjectLook};
use rx_proto::Name;
use std::io::Write;

/// How much may wait for an observer of a subject, and what was told of it.
#[derive(Clone, Copy, Debug)]
pub(crate) struct SubjectTold {
    bound: Bound,
    budget: Option<u64>,
    refusals: Rate,
    is_over: bool,
}

impl SubjectTold {
    /// Nothing was of a subject by this configuration, at which so many bytes may wait for an observer, where 0 is no bound.
    pub(crate) fn of(config: &SubjectConfig, waiting: u32) -> SubjectTold {
        let budget = match &config.budget {
            Some(budget) => Some(budget.bytes()),
            None => None,
        };
        SubjectTold {
            bound: Bound::of(waiting, &config.rules.kind),
            budget,
            refusals: Rate::new(),
            is_over: false,
        }
    }

    /// For which observer more waits than may, if for any.
    pub(crate) fn exceeded(&self, look: &SubjectLook) -> Option<u32> {
        self.bound.exceeded(look)
    }

    /// Writes the lines that are due at this moment, in milliseconds, by what is seen of the subject of this name: that it refuses, where
    /// its budget is used up, and once that it is over. A writer that fails changes nothing else.
    pub(crate) fn tell<E: Write>(
        &mut self,
        subject: &Name,
        look: &SubjectLook,
        now: u64,
        log: &mut E,
    ) {
        if let Some(budget) = self.budget {
            if let Some(more) = self.refusals.look(look.misses, now) {
                let _ = write_refusal(subject, budget, more, log);
            }
        }
        if look.end != SubjectEnd::Open && !self.is_over {
            self.is_over = true;
            let has_failed = look.end == SubjectEnd::Failed;
            let _ = write_end(subject, has_failed, look.items, log);
        }
    }
}
