// The lines of a configuration that was accepted.
ghost use Rattle.std.specs.Prelude.{◌≡◌, ◌++◌, IfOk, OnOk, codes, decimal, map, option_map};
ghost use Rattle.rx_config.specs.Configurations.{events_of_config, settings_of, subject_of_config};
ghost use Rattle.rx_config.specs.Listings.{bound_words, config_lines, crew_words, events_words, flag_words, http_line, kind_words, limit_words, option_words, pool_line, reader_words, right_words, seed_words, service_words, subject_line, subject_lines};

use crate::budget::Budget;
use crate::config::Config;
use crate::http::Http;
use crate::subject_config::SubjectConfig;
use itoa::Buffer;
use rx_heap::{Heap, Memory};
use rx_note::{Kind, Limits};

/// The lines that tell a configuration, each with its LF: one for each subject, in their order, that of the pool, and then that
/// of events over HTTP, where they are told. What was left out in its text stands there too, as it will be served.
///
/// # Errors
///
/// `Memory`: there was none for the lines.
pub fn config_lines(heap: &Heap, config: &Config) -> Result<Vec<u8, Heap>, Memory>
    ensures { IfOk result (λ lines. lines.items ≡ config_lines (settings_of config.now)) }
{
    let mut lines = Vec::new(heap.clone()?);
    put_subjects(&mut lines, config.subjects.as_slice())?;
    put_pool(&mut lines, config)?;
    put_http(&mut lines, &config.http)?;
    Ok(lines)
}

// Puts the lines of all subjects.
fn put_subjects(lines: &mut Vec<u8, Heap>, subjects: &[SubjectConfig]) -> Result<(), Memory>
    ensures { OnOk result (lines.new.items ≡ lines.old.items ++ subject_lines (map subject_of_config subjects.now)) }
{
    for subject in subjects {
        put_subject(lines, subject)?;
    }
    Ok(())
}

// Puts the line of a subject.
fn put_subject(lines: &mut Vec<u8, Heap>, subject: &SubjectConfig) -> Result<(), Memory>
    ensures { OnOk result (lines.new.items ≡ lines.old.items ++ subject_line (subject_of_config subject.now)) }
{
    put(lines, b"subject ")?;
    put(lines, subject.name.as_bytes())?;
    put_kind(lines, &subject.rules.kind)?;
    put_limits(lines, subject.rules.limits)?;
    put_budget(lines, &subject.budget)?;
    put_seed(lines, &subject.rules.kind)?;
    put(lines, b"\n")
}

// Puts the words of a kind, and the bounds of a Replay.
fn put_kind(lines: &mut Vec<u8, Heap>, kind: &Kind) -> Result<(), Memory>
    ensures { OnOk result (lines.new.items ≡ lines.old.items ++ kind_words kind.now) }
{
    match kind {
        Kind::Publish => put(lines, b" publish"),
        Kind::Behavior(_) => put(lines, b" behavior"),
        Kind::Async => put(lines, b" async"),
        Kind::Replay { count, age } => {
            put(lines, b" replay")?;
            put_bound(lines, b" count ", count.map(u64::from))?;
            put_bound(lines, b" age ", *age)
        }
    }
}

// Puts the words of a bound, where there is one.
fn put_bound(lines: &mut Vec<u8, Heap>, key: &[u8], bound: Option<u64>) -> Result<(), Memory>
    ensures { OnOk result (lines.new.items ≡ lines.old.items ++ bound_words key.now bound) }
{
    match bound {
        Some(bound) => put_number(lines, key, bound),
        None => Ok(()),
    }
}

// Puts the words of the limits.
fn put_limits(lines: &mut Vec<u8, Heap>, limits: Limits) -> Result<(), Memory>
    ensures { OnOk result (lines.new.items ≡ lines.old.items ++ limit_words limits) }
{
    put_number(lines, b" observers ", u64::from(limits.observers))?;
    put_number(lines, b" joins ", u64::from(limits.joins))?;
    put_number(lines, b" items ", u64::from(limits.items))
}

// Puts the words of the budget, where there is one.
fn put_budget(lines: &mut Vec<u8, Heap>, budget: &Option<Budget>) -> Result<(), Memory>
    ensures { OnOk result (lines.new.items ≡ lines.old.items ++ bound_words (codes " budget ") budget.now) }
{
    match budget {
        Some(budget) => put_number(lines, b" budget ", budget.bytes()),
        None => Ok(()),
    }
}

// Puts the words of the seed, where there is one.
fn put_seed(lines: &mut Vec<u8, Heap>, kind: &Kind) -> Result<(), Memory>
    ensures { OnOk result (lines.new.items ≡ lines.old.items ++ seed_words kind.now) }
{
    match kind {
        Kind::Behavior(Some(seed)) => {
            put(lines, b" seed ")?;
            put(lines, seed.as_bytes())
        }
        Kind::Behavior(None) | Kind::Publish | Kind::Async | Kind::Replay { .. } => Ok(()),
    }
}

// Puts the line of the pool.
fn put_pool(lines: &mut Vec<u8, Heap>, config: &Config) -> Result<(), Memory>
    ensures { OnOk result (lines.new.items ≡ lines.old.items ++ pool_line (settings_of config.now)) }
{
    put(lines, b"pool")?;
    put_crew(lines, config)?;
    put_service(lines, config)?;
    put_options(lines, config)?;
    put(lines, b"\n")
}

// Puts how many threads there are, and the window.
fn put_crew(lines: &mut Vec<u8, Heap>, config: &Config) -> Result<(), Memory>
    ensures { OnOk result (lines.new.items ≡ lines.old.items ++ crew_words (settings_of config.now)) }
{
    put_number(lines, b" drainers ", u64::from(config.drainers))?;
    put_number(lines, b" workers ", u64::from(config.workers))?;
    put_number(lines, b" window ", u64::from(config.window))
}

// Puts how many connections are served, how long a peer may take nothing, and how much may wait for it.
fn put_service(lines: &mut Vec<u8, Heap>, config: &Config) -> Result<(), Memory>
    ensures { OnOk result (lines.new.items ≡ lines.old.items ++ service_words (settings_of config.now)) }
{
    put_number(lines, b" connections ", u64::from(config.connections))?;
    put_number(lines, b" stall ", u64::from(config.stall))?;
    put_number(lines, b" waiting ", u64::from(config.waiting))
}

// Puts how long a session may send nothing, where that has an end, and whether a path is taken over.
fn put_options(lines: &mut Vec<u8, Heap>, config: &Config) -> Result<(), Memory>
    ensures { OnOk result (lines.new.items ≡ lines.old.items ++ option_words (settings_of config.now)) }
{
    put_bound(lines, b" idle ", config.idle)?;
    put_flag(lines, b" takeover", config.takeover)
}

// Puts the word of a flag, where it is set.
fn put_flag(lines: &mut Vec<u8, Heap>, key: &[u8], flag: bool) -> Result<(), Memory>
    ensures { OnOk result (lines.new.items ≡ lines.old.items ++ flag_words key.now flag) }
{
    if flag {
        return put(lines, key);
    }
    Ok(())
}

// Puts the line of events over HTTP, where they are told.
fn put_http(lines: &mut Vec<u8, Heap>, http: &Option<Http>) -> Result<(), Memory>
    ensures { OnOk result (lines.new.items ≡ lines.old.items ++ http_line (option_map events_of_config http.now)) }
{
    match http {
        Some(http) => {
            put_events(lines, http)?;
            put(lines, b"\n")
        }
        None => Ok(()),
    }
}

// Puts what is said of events over HTTP.
fn put_events(lines: &mut Vec<u8, Heap>, http: &Http) -> Result<(), Memory>
    ensures { OnOk result (lines.new.items ≡ lines.old.items ++ events_words (events_of_config http.now)) }
{
    put(lines, b"http")?;
    put_readers(lines, http)?;
    put(lines, b" socket ")?;
    put(lines, http.socket.as_bytes())
}

// Puts how long a reader of events hears nothing, how many there are, and what may be asked for besides.
fn put_readers(lines: &mut Vec<u8, Heap>, http: &Http) -> Result<(), Memory>
    ensures { OnOk result (lines.new.items ≡ lines.old.items ++ reader_words (events_of_config http.now)) }
{
    put_number(lines, b" heartbeat ", u64::from(http.heartbeat))?;
    put_number(lines, b" readers ", u64::from(http.readers))?;
    put_rights(lines, http)
}

// Puts whether notes may be emitted, and whether the server may be stopped.
fn put_rights(lines: &mut Vec<u8, Heap>, http: &Http) -> Result<(), Memory>
    ensures { OnOk result (lines.new.items ≡ lines.old.items ++ right_words (events_of_config http.now)) }
{
    put_flag(lines, b" emit", http.emit)?;
    put_flag(lines, b" stop", http.stop)
}

// Puts a key and its number.
fn put_number(lines: &mut Vec<u8, Heap>, key: &[u8], number: u64) -> Result<(), Memory>
    ensures { OnOk result (lines.new.items ≡ lines.old.items ++ (key.now ++ decimal number)) }
{
    let mut digits = Buffer::new();
    put(lines, key)?;
    put(lines, digits.format(number).as_bytes())
}

fn put(lines: &mut Vec<u8, Heap>, bytes: &[u8]) -> Result<(), Memory>
    ensures { OnOk result (lines.new.items ≡ lines.old.items ++ bytes.now) }
{
    lines.extend_from_slice(bytes)?;
    Ok(())
}
