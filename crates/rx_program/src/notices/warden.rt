// What a hub keeps for an observer under Buffer has no bound in any definition, and an observer that is disposed of is one that left:
// so a server bounds it by a disposal of its own, as it does for one that takes nothing, and no rule of the hub says anything of it.
use crate::notices::counted::Notices;
use crate::notices::stop_told::StopTold;
use crate::notices::subject_told::SubjectTold;
use crate::program::names::Names;
use rx_config::Config;
use rx_heap::{Heap, Memory};
use rx_proto::Name;
use rx_pump::SharedLook;
use rx_server::SharedStop;
use std::io::Write;
use std::sync::Wait;

// The least time between two looks, in milliseconds.
const LEAST: u64 = 1_000;

/// Looks at the subjects of a server: it gives up the observers for whom too much waits, and tells of a subject that it refuses since
/// its budget is used up, that it is over, and that the server stops. It makes no call: a subject at which nothing happens shows it
/// nothing new.
#[derive(Drop)]
pub(crate) struct Warden {
    names: Names,
    // By the place of the subject, as the looks.
    told: Vec<SubjectTold, Heap>,
    looks: Vec<SharedLook, Heap>,
    stop: StopTold,
    // When it looks next, in milliseconds.
    next: u64,
}

impl Warden {
    /// It looks at no subject of this configuration yet. By `stop` its server is told to stop.
    pub(crate) fn of(heap: &Heap, config: &Config, stop: SharedStop) -> Result<Warden, Memory> {
        let mut told = Vec::new(heap.clone()?);
        for subject in &config.subjects {
            told.push(SubjectTold::of(subject, config.waiting))?;
        }
        Ok(Warden {
            names: Names::of(heap, config)?,
            told,
            looks: Vec::new(heap.clone()?),
            stop: StopTold::new(stop),
            next: 0,
        })
    }

    /// From now on it looks at these, which are those of its configuration in their order.
    pub(crate) fn watch(&mut self, looks: Vec<SharedLook, Heap>) {
        self.looks = looks;
    }

    /// The names of the subjects, in their order.
    pub(crate) fn names(&self) -> &[Name] {
        self.names.as_slice()
    }

    /// A look at this moment, where one is due; a stop is told at once. A writer that fails changes nothing else.
    pub(crate) fn look<R: Wait, L: Write>(
        &mut self,
        rt: &R,
        notices: &Notices,
        now: u64,
        log: &mut L,
    ) {
        self.stop.tell(log);
        if now < self.next {
            return;
        }
        self.next = now.saturating_add(LEAST);
        for (subject, shown) in self.looks.iter().enumerate() {
            let Some(look) = shown.watch(rt) else {
                continue;
            };
            if let (Some(told), Some(name)) = (
                self.told.get_mut(subject),
                self.names.as_slice().get(subject),
            ) {
                notices.give_up(subject, told.exceeded(&look));
                told.tell(name, &look, now, log);
            }
        }
    }
}
