ghost use Rattle.std.specs.Prelude.{◌≡◌, IfOk, position};
ghost use Rattle.rx_proto.specs.Reading.{same_word};
ghost use Rattle.rx_script.specs.Scripts.{StandsForSubject, StandForSubjects, new_subject, new_subjects};

use rx_config::SubjectConfig;
use rx_heap::{Heap, Memory};
use rx_hub::{Hub, HubError};
use rx_proto::Name;

/// A subject of a script: its name, its hub, and the memory of the hub and of the texts that it is handed.
pub(crate) struct Topic {
    pub(crate) name: Name,
    pub(crate) hub: Hub,
    pub(crate) heap: Heap,
}

// By hand: rx_heap says why.
impl Drop for Topic {
    fn drop(self) {
        let Topic {
            name: _,
            hub: _,
            heap: _,
        } = self;
    }
}

impl Topic {
    /// The topic of a subject, with no event yet. Its memory is that of its budget, or the shared one.
    fn new(shared: &Heap, subject: SubjectConfig) -> Result<Topic, Memory>
        ensures { IfOk result (λ topic. StandsForSubject topic (new_subject subject)) }
    {
        let heap = subject.memory(shared).clone()?;
        let SubjectConfig {
            name,
            rules,
            budget: _,
        } = subject;
        match Hub::new(heap.clone()?, rules.kind, rules.limits) {
            Ok(hub) => Ok(Topic { name, hub, heap }),
            Err(HubError::Memory) => Err(Memory),
            Err(HubError::BadLimits) => unreachable!(),
        }
    }
}

/// The topics of these subjects, in their order.
pub(crate) fn topics_of(
    alloc: &Heap,
    subjects: Vec<SubjectConfig, Heap>,
) -> Result<Vec<Topic, Heap>, Memory>
    ensures { IfOk result (λ topics. StandForSubjects topics.items (new_subjects subjects.items)) }
{
    let mut topics = Vec::with_capacity(alloc.clone()?, subjects.len())?;
    for subject in subjects {
        topics.push(Topic::new(alloc, subject)?)?;
    }
    Ok(topics)
}

/// The place of the first topic of this name.
#[inline(always)] // once for each line of a script
pub(crate) fn place_of(topics: &Vec<Topic, Heap>, name: &[u8]) -> Option<usize>
    ensures { result ≡ position (λ topic. same_word topic.name name.now) topics.now.items }
{
    topics
        .iter()
        .position(|topic| topic.name.as_bytes() == name)
}
