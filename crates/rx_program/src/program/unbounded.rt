// What a configuration leaves without a bound, for whoever wrote it.
ghost use Rattle.std.specs.Prelude.{◌≡◌, ◌↔◌, IsTrue, None};
ghost use Rattle.rx_config.specs.Configurations.{subject_of_config};
ghost use Rattle.rx_program.specs.Unbounded.{KeepsAll, WaitsForAll};

use rx_config::{Config, SubjectConfig};
use rx_note::Kind;
use std::io::Write;

/// Tells of each subject that keeps all that it ever takes what bounds it, and of each where all may wait for an observer.
pub(crate) fn tell_unbounded<E: Write>(config: &Config, faults: &mut E) {
    for (index, subject) in config.subjects.iter().enumerate() {
        if keeps_all(subject) {
            let _ = writeln!(
                faults,
                "subject {index}: it keeps all that it takes: count, age, items or budget bounds that, as in: budget = 64000000"
            );
        }
        if waits_for_all(config.waiting, subject) {
            let _ = writeln!(
                faults,
                "subject {index}: all that it takes may wait for an observer: waiting, items or budget bounds that, as in: waiting = 33554432"
            );
        }
    }
}

/// Whether a subject keeps all that it ever takes.
pub(crate) fn keeps_all(subject: &SubjectConfig) -> bool
    ensures { IsTrue result ↔ KeepsAll (subject_of_config subject.now) }
{
    is_boundless(&subject.rules.kind)
        && subject.rules.limits.items == u32::MAX
        && subject.budget.is_none()
}

/// Whether all that a subject takes may wait for an observer, where so many bytes may, and 0 is no bound.
pub(crate) fn waits_for_all(waiting: u32, subject: &SubjectConfig) -> bool
    ensures { IsTrue result ↔ WaitsForAll waiting (subject_of_config subject.now) }
{
    waiting == 0
        && !is_held_back(&subject.rules.kind)
        && subject.rules.limits.items == u32::MAX
        && subject.budget.is_none()
}

// Whether it is the kind that keeps its items back, of which one waits at most.
fn is_held_back(kind: &Kind) -> bool
    ensures { IsTrue result ↔ (kind.now ≡ Kind.Async) }
{
    matches!(kind, Kind::Async)
}

// Whether it is the kind of a Replay without a bound.
fn is_boundless(kind: &Kind) -> bool
    ensures { IsTrue result ↔ (kind.now ≡ Kind.Replay None None) }
{
    matches!(
        kind,
        Kind::Replay {
            count: None,
            age: None
        }
    )
}
