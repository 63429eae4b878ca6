// The kind of a subject, with the keys of that kind alone.
ghost use Rattle.std.specs.Prelude.{◌≡◌, true, IfOk, IfSome, Ok};
ghost use Rattle.rx_note.specs.Kinds.{is_count, kind_checked};
ghost use Rattle.rx_config.specs.Configurations.{Reads, behavior_in, count_at, kind_in, kind_named, plain_in, replay_in};
ghost use Rattle.rx_config.specs.KeyTables.{members_in};

use crate::keys::section::Section;
use crate::keys::{AGE, BEHAVIOR, COUNT, KIND, KINDS, REPLAY, SUBJECT_KEYS};
use crate::reader::fault::Fault;
use crate::reader::texts::seed_in;
use rx_heap::Heap;
use rx_note::Kind;

/// The kind of a table, with the keys of that kind alone.
pub(crate) fn kind_in(heap: &Heap, section: &Section) -> Result<Kind, Fault>
    ensures reads { Reads (kind_in (members_in section.now)) result }
    ensures checked { IfOk result (λ kind. kind_checked kind ≡ Ok tt) }
{
    match KIND.text_in(section) {
        None => Err(Fault::Refused),
        Some(word) => kind_named(heap, section, word),
    }
}

// The kind of this name.
fn kind_named(heap: &Heap, section: &Section, word: &str) -> Result<Kind, Fault>
    ensures reads { Reads (kind_named (members_in section.now) word.now) result }
    ensures checked { IfOk result (λ kind. kind_checked kind ≡ Ok tt) }
{
    let [publish, behavior, asynchronous, replay] = KINDS;
    if word == publish {
        plain_in(section, Kind::Publish)
    } else if word == behavior {
        behavior_in(heap, section)
    } else if word == asynchronous {
        plain_in(section, Kind::Async)
    } else if word == replay {
        replay_in(section)
    } else {
        Err(Fault::Refused)
    }
}

// A kind that has no key of its own.
fn plain_in(section: &Section, kind: Kind) -> Result<Kind, Fault>
    requires { kind_checked kind ≡ Ok tt }
    ensures reads { Reads (plain_in kind (members_in section.now)) result }
    ensures checked { IfOk result (λ kind. kind_checked kind ≡ Ok tt) }
{
    if !section.has_only(&SUBJECT_KEYS, None) {
        return Err(Fault::Refused);
    }
    Ok(kind)
}

// A Behavior with its seed.
fn behavior_in(heap: &Heap, section: &Section) -> Result<Kind, Fault>
    ensures reads { Reads (behavior_in (members_in section.now)) result }
    ensures checked { IfOk result (λ kind. kind_checked kind ≡ Ok tt) }
{
    if !section.has_only(&SUBJECT_KEYS, Some(BEHAVIOR)) {
        return Err(Fault::Refused);
    }
    match seed_in(heap, section) {
        Ok(seed) => Ok(Kind::Behavior(seed)),
        Err(fault) => Err(fault),
    }
}

// A Replay with its bounds.
fn replay_in(section: &Section) -> Result<Kind, Fault>
    ensures reads { Reads (replay_in (members_in section.now)) result }
    ensures checked { IfOk result (λ kind. kind_checked kind ≡ Ok tt) }
{
    if !section.has_only(&SUBJECT_KEYS, Some(REPLAY)) {
        return Err(Fault::Refused);
    }
    let Some(count) = count_in(section) else {
        return Err(Fault::Refused);
    };
    match AGE.bound_in(section) {
        None => Err(Fault::Refused),
        Some(age) => Ok(Kind::Replay { count, age }),
    }
}

// The count of a Replay, which may be missing.
fn count_in(section: &Section) -> Option<Option<u16>>
    ensures count { result ≡ count_at (members_in section.now) }
    ensures within { IfSome result (λ count. is_count count ≡ true) }
{
    match COUNT.bound_in(section)? {
        None => Some(None),
        Some(count) => Some(Some(count as u16)),
    }
}
