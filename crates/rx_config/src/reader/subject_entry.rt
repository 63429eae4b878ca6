// A subject, as an entry of `subject` says it.
ghost use Rattle.std.specs.Prelude.{◌≡◌, true, IfOk, MatchResult, Ok};
ghost use Rattle.rx_note.specs.Kinds.{kind_checked};
ghost use Rattle.rx_hub.specs.Hubs.{are_in_range};
ghost use Rattle.toml.specs.View.{view};
ghost use Rattle.rx_config.specs.Configurations.{ReadsAs, subject_in, subject_of, subject_of_config};
ghost use Rattle.rx_config.specs.KeyTables.{members_in};

use crate::budget::Budget;
use crate::keys::section::Section;
use crate::keys::{BUDGET, NAME};
use crate::reader::fault::Fault;
use crate::reader::limits::limits_in;
use crate::reader::subject_kind::kind_in;
use crate::reader::texts::name_in;
use crate::subject_config::SubjectConfig;
use rx_heap::{Heap, Memory};
use rx_note::Rules;
use rx_proto::Name;
use std::alloc::Global;
use toml::Value;

/// The subject that an entry says.
pub(crate) fn subject_of(
    heap: &Heap,
    runtime: Global,
    value: &Value,
) -> Result<SubjectConfig, Fault>
    ensures { ReadsAs subject_of_config (subject_of (view value.now)) result }
{
    match value.as_table() {
        None => Err(Fault::Refused),
        Some(table) => subject_in(heap, runtime, &Section::of(table)),
    }
}

// The subject of a table.
fn subject_in(heap: &Heap, runtime: Global, section: &Section) -> Result<SubjectConfig, Fault>
    ensures { ReadsAs subject_of_config (subject_in (members_in section.now)) result }
{
    let Some(word) = NAME.text_in(section) else {
        return Err(Fault::Refused);
    };
    let Some(name) = name_in(word.as_bytes()) else {
        return Err(Fault::Refused);
    };
    let Some(limits) = limits_in(section) else {
        return Err(Fault::Refused);
    };
    let Some(bytes) = BUDGET.bound_in(section) else {
        return Err(Fault::Refused);
    };
    match kind_in(heap, section) {
        Ok(kind) => made(runtime, name, Rules { kind, limits }, bytes),
        Err(fault) => Err(fault),
    }
}

// The subject of these, with a budget of so many bytes, if there is one.
fn made(
    runtime: Global,
    name: Name,
    rules: Rules,
    bytes: Option<u64>,
) -> Result<SubjectConfig, Fault>
    requires limits { are_in_range rules.limits ≡ true }
    requires kind { kind_checked rules.kind ≡ Ok tt }
    ensures { MatchResult result (λ subject. subject_of_config subject ≡ record { name = name; rules = rules; budget = bytes }) (λ fault. fault ≡ Fault.Memory) }
{
    match budget_of(runtime, bytes) {
        Ok(budget) => Ok(SubjectConfig {
            name,
            rules,
            budget,
        }),
        Err(Memory) => Err(Fault::Memory),
    }
}

// A budget of so many bytes, if there is one.
fn budget_of(runtime: Global, bytes: Option<u64>) -> Result<Option<Budget>, Memory>
    ensures { IfOk result (λ budget. budget ≡ bytes) }
{
    match bytes {
        None => Ok(None),
        Some(bytes) => Ok(Some(Budget::new(runtime, bytes)?)),
    }
}
