// The ledgers of an audit, one for each subject.
ghost use Rattle.std.specs.Prelude.{◌≡◌, IfOk, OnOk, position};
ghost use Rattle.rx_proto.specs.Reading.{same_word};
ghost use Rattle.rx_script.specs.Audits.{subjects_in};
ghost use Rattle.rx_script.specs.Scripts.{new_subjects};
ghost use Rattle.rx_script.specs.Transcripts.{all_taking};

use crate::ledger::Ledger;
use rx_config::SubjectConfig;
use rx_heap::{Heap, Memory};
use rx_note::Event;
use rx_proto::Name;

/// The ledgers of these subjects, in their order.
pub(crate) fn ledgers_of(
    alloc: &Heap,
    subjects: Vec<SubjectConfig, Heap>,
) -> Result<Vec<Ledger, Heap>, Memory>
    ensures { IfOk result (λ ledgers. subjects_in ledgers.items ≡ new_subjects subjects.items) }
{
    let mut ledgers = Vec::with_capacity(alloc.clone()?, subjects.len())?;
    for subject in subjects {
        ledgers.push(Ledger::new(alloc.clone()?, subject))?;
    }
    Ok(ledgers)
}

/// Adds an event to the first ledger of this name, if there is one. It comes from port 0.
pub(crate) fn enter(
    ledgers: &mut Vec<Ledger, Heap>,
    name: &Name,
    event: Event,
) -> Result<(), Memory>
    ensures { OnOk result (subjects_in ledgers.new.items ≡ all_taking (subjects_in ledgers.old.items) name.now event) }
{
    match place_of(ledgers, name) {
        Some(place) => ledgers[place].history.add(0, event),
        None => Ok(()),
    }
}

// The place of the first ledger of this name.
fn place_of(ledgers: &Vec<Ledger, Heap>, name: &Name) -> Option<usize>
    ensures { result ≡ position (λ ledger. same_word ledger.subject.name name.now) ledgers.now.items }
{
    ledgers
        .iter()
        .position(|ledger| ledger.subject.name == *name)
}
