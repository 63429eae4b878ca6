use crate::words::waiting_in;
use rx_config::SubjectConfig;
use rx_hub::{SubjectEnd, SubjectLook};

/// One of the numbers that are told of each subject.
#[derive(Clone, Copy)]
pub(crate) enum Gauge {
    Items,
    Joins,
    Refused,
    Observers,
    Waiting,
    Over,
    Bytes,
    Budget,
}

/// How many there are.
pub(crate) const GAUGES: usize = 8;

/// All of them, in the order in which they are told.
pub(crate) const EACH: [Gauge; GAUGES] = [
    Gauge::Items,
    Gauge::Joins,
    Gauge::Refused,
    Gauge::Observers,
    Gauge::Waiting,
    Gauge::Over,
    Gauge::Bytes,
    Gauge::Budget,
];

impl Gauge {
    /// Its name.
    pub(crate) fn name(self) -> &'static [u8] {
        match self {
            Gauge::Items => b"rxline_items_total",
            Gauge::Joins => b"rxline_joins_total",
            Gauge::Refused => b"rxline_refused_total",
            Gauge::Observers => b"rxline_observers",
            Gauge::Waiting => b"rxline_waiting",
            Gauge::Over => b"rxline_over",
            Gauge::Bytes => b"rxline_bytes",
            Gauge::Budget => b"rxline_budget_bytes",
        }
    }

    /// What it counts, as Prometheus has it before the numbers.
    pub(crate) fn head(self) -> &'static [u8] {
        match self {
            Gauge::Items => b" Items that were accepted.\n",
            Gauge::Joins => b" Joins that were accepted.\n",
            Gauge::Refused => b" Calls that were refused for want of memory.\n",
            Gauge::Observers => b" Observers that are held.\n",
            Gauge::Waiting => b" Notes that wait for the observers.\n",
            Gauge::Over => b" 1 where the subject has ended.\n",
            Gauge::Bytes => b" Bytes of the budget that are used.\n",
            Gauge::Budget => b" Bytes of the budget.\n",
        }
    }

    /// What it is to Prometheus, to which a counter never falls.
    pub(crate) fn kind(self) -> &'static [u8] {
        match self {
            Gauge::Items | Gauge::Joins | Gauge::Refused => b"counter",
            _ => b"gauge",
        }
    }

    /// Its number for a subject that was seen so; none where it has no budget.
    pub(crate) fn number(self, subject: &SubjectConfig, look: &SubjectLook) -> Option<u64> {
        match self {
            Gauge::Items => Some(u64::from(look.items)),
            Gauge::Joins => Some(u64::from(look.joins)),
            Gauge::Refused => Some(look.misses),
            Gauge::Observers => Some(look.observers.len() as u64),
            Gauge::Waiting => Some(waiting_in(look)),
            Gauge::Over => Some(u64::from(look.end != SubjectEnd::Open)),
            Gauge::Bytes => match &subject.budget {
                Some(_) => Some(look.bytes),
                None => None,
            },
            Gauge::Budget => match &subject.budget {
                Some(budget) => Some(budget.bytes()),
                None => None,
            },
        }
    }
}
