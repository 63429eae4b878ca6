// The subjects of a configuration, each with another name.
ghost use Rattle.std.specs.Prelude.{◌≡◌, ◌≢◌, ◌≤◌, ◌⊎◌, map, vec_len, IfErr, IfOk, OnOk, Err, Ok, []};
ghost use Rattle.toml.specs.View.{array_view, view};
ghost use Rattle.rx_config.specs.Configurations.{has_name, named_anew, next_subject, entries_read, subject_of_config, subjects_from, subjects_at};
ghost use Rattle.rx_config.specs.KeyTables.{members_in};

use crate::config_error::ConfigError;
use crate::keys::SUBJECT;
use crate::keys::section::Section;
use crate::reader::fault::Fault;
use crate::reader::subject_entry::subject_of;
use crate::subject_config::SubjectConfig;
use rx_heap::Heap;
use rx_proto::Name;
use std::alloc::Global;
use toml::Value;

/// The most subjects of a configuration.
pub(crate) const MAX_SUBJECTS: usize = 16;

/// The subjects of a configuration's table: an array of 1 to 16 entries.
pub(crate) fn subjects_at(
    heap: &Heap,
    runtime: Global,
    section: &Section,
) -> Result<Vec<SubjectConfig, Heap>, ConfigError>
    ensures ok { IfOk result (λ subjects. subjects_at (members_in section.now) ≡ Ok (map subject_of_config subjects.items)) }
    ensures refused { IfErr result (λ cause. (cause ≡ ConfigError.Memory) ⊎ (subjects_at (members_in section.now) ≡ Err cause)) }
    ensures read { IfErr result (λ cause. cause ≢ ConfigError.Syntax) }
    ensures count { IfOk result (λ subjects. (1 ≤ vec_len subjects) × (vec_len subjects ≤ 16)) }
{
    let Some(value) = SUBJECT.value_in(section) else {
        return Err(ConfigError::NoSubject);
    };
    match value.as_array() {
        None => Err(ConfigError::NoSubject),
        Some(entries) => entries_read(heap, runtime, entries),
    }
}

// The subjects of these entries.
fn entries_read(
    heap: &Heap,
    runtime: Global,
    entries: &Vec<Value>,
) -> Result<Vec<SubjectConfig, Heap>, ConfigError>
    ensures ok { IfOk result (λ subjects. entries_read (array_view entries.now) ≡ Ok (map subject_of_config subjects.items)) }
    ensures refused { IfErr result (λ cause. (cause ≡ ConfigError.Memory) ⊎ (entries_read (array_view entries.now) ≡ Err cause)) }
    ensures read { IfErr result (λ cause. cause ≢ ConfigError.Syntax) }
    ensures count { IfOk result (λ subjects. (1 ≤ vec_len subjects) × (vec_len subjects ≤ 16)) }
{
    if entries.is_empty() {
        return Err(ConfigError::NoSubject);
    }
    if entries.len() > MAX_SUBJECTS {
        return Err(ConfigError::TooManySubjects);
    }
    all_subjects(heap, runtime, entries)
}

// The subjects of all these entries, in their order.
fn all_subjects(
    heap: &Heap,
    runtime: Global,
    entries: &Vec<Value>,
) -> Result<Vec<SubjectConfig, Heap>, ConfigError>
    ensures ok { IfOk result (λ subjects. subjects_from [] (array_view entries.now) ≡ Ok (map subject_of_config subjects.items)) }
    ensures refused { IfErr result (λ cause. (cause ≡ ConfigError.Memory) ⊎ (subjects_from [] (array_view entries.now) ≡ Err cause)) }
    ensures read { IfErr result (λ cause. cause ≢ ConfigError.Syntax) }
    ensures count { IfOk result (λ subjects. vec_len subjects ≡ vec_len entries.now) }
{
    let Ok(mine) = heap.clone() else {
        return Err(ConfigError::Memory);
    };
    let mut subjects = Vec::new(mine);
    match put_subjects(heap, runtime, entries, &mut subjects) {
        Ok(()) => Ok(subjects),
        Err(cause) => Err(cause),
    }
}

// Puts the subjects of all these entries, in their order, into a list that is empty.
fn put_subjects(
    heap: &Heap,
    runtime: Global,
    entries: &Vec<Value>,
    subjects: &mut Vec<SubjectConfig, Heap>,
) -> Result<(), ConfigError>
    requires { subjects.old.items ≡ [] }
    ensures ok { OnOk result (subjects_from [] (array_view entries.now) ≡ Ok (map subject_of_config subjects.new.items)) }
    ensures refused { IfErr result (λ cause. (cause ≡ ConfigError.Memory) ⊎ (subjects_from [] (array_view entries.now) ≡ Err cause)) }
    ensures read { IfErr result (λ cause. cause ≢ ConfigError.Syntax) }
    ensures count { OnOk result (vec_len subjects.new ≡ vec_len entries.now) }
{
    for entry in entries {
        match next_subject(heap, runtime, subjects, entry) {
            Err(cause) => return Err(cause),
            Ok(subject) => {
                let Ok(()) = subjects.push(subject) else {
                    return Err(ConfigError::Memory);
                };
            }
        }
    }
    Ok(())
}

// The subject of the next entry, behind these.
fn next_subject(
    heap: &Heap,
    runtime: Global,
    before: &Vec<SubjectConfig, Heap>,
    entry: &Value,
) -> Result<SubjectConfig, ConfigError>
    ensures ok { IfOk result (λ subject. next_subject (map subject_of_config before.now.items) (view entry.now) ≡ Ok (subject_of_config subject)) }
    ensures refused { IfErr result (λ cause. (cause ≡ ConfigError.Memory) ⊎ (next_subject (map subject_of_config before.now.items) (view entry.now) ≡ Err cause)) }
    ensures read { IfErr result (λ cause. cause ≢ ConfigError.Syntax) }
{
    match subject_of(heap, runtime, entry) {
        Ok(subject) => named_anew(before, subject),
        Err(Fault::Refused) => Err(ConfigError::BadSubject(before.len())),
        Err(Fault::Memory) => Err(ConfigError::Memory),
    }
}

// This subject, whose name has to be another than those of these.
fn named_anew(
    before: &Vec<SubjectConfig, Heap>,
    subject: SubjectConfig,
) -> Result<SubjectConfig, ConfigError>
    ensures ok { IfOk result (λ same. named_anew (map subject_of_config before.now.items) (subject_of_config subject) ≡ Ok (subject_of_config same)) }
    ensures refused { IfErr result (λ cause. named_anew (map subject_of_config before.now.items) (subject_of_config subject) ≡ Err cause) }
{
    if has_name(before, &subject.name) {
        return Err(ConfigError::DuplicateName(before.len()));
    }
    Ok(subject)
}

// Whether one of these has this name.
fn has_name(subjects: &Vec<SubjectConfig, Heap>, name: &Name) -> bool
    ensures { result ≡ has_name name.now (map subject_of_config subjects.now.items) }
{
    for subject in subjects {
        if subject.name == *name {
            return true;
        }
    }
    false
}
