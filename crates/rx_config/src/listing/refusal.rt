// Why a configuration was refused, for whoever wrote it. It is read once more for this, by the same keys, so that a reading which
// is accepted keeps nothing for it.

use crate::config_error::ConfigError;
use crate::keys::key::Key;
use crate::keys::{HTTP, KIND, NAME, POOL, SUBJECT};
use crate::listing::advice::Advice;
use crate::listing::place::Place;
use crate::reader::subject_list::MAX_SUBJECTS;
use rx_proto::Name;
use std::alloc::Global;
use std::io::{self, Write};
use toml::{Table, Value};

/// Writes why the configuration that these bytes say is refused by this cause: of each key at fault the place, what is right
/// there, and an example, a line each, in the order in which they are looked at; for bytes that are no TOML, the line and the
/// column. Nothing is written where there is no more to say than the cause itself.
pub fn advise<W: Write>(
    runtime: Global,
    bytes: &[u8],
    cause: ConfigError,
    writer: &mut W,
) -> io::Result<()> {
    if matches!(cause, ConfigError::Memory) {
        return Ok(());
    }
    match toml::table_from_slice(runtime, bytes) {
        Ok(table) => advise_on(&table, writer),
        Err(fault) if fault.is_memory() => Ok(()),
        Err(fault) => write!(writer, "{fault}"),
    }
}

// Writes what is wrong with the configuration of this table.
fn advise_on<W: Write>(table: &Table, writer: &mut W) -> io::Result<()> {
    advise_on_names(table, Place::Top, writer)?;
    advise_on_section(table, Place::Pool, &POOL, writer)?;
    advise_on_section(table, Place::Http, &HTTP, writer)?;
    advise_on_list(table, writer)
}

// Writes what is wrong with the subjects of a configuration, or that it has none.
fn advise_on_list<W: Write>(table: &Table, writer: &mut W) -> io::Result<()> {
    let Some(value) = table.get(SUBJECT.name) else {
        return tell_no_subject(writer);
    };
    match value.as_array() {
        Some(subjects) if !subjects.is_empty() => advise_on_subjects(subjects, writer),
        _ => tell_no_subject(writer),
    }
}

fn tell_no_subject<W: Write>(writer: &mut W) -> io::Result<()> {
    let (name, example) = (SUBJECT.name, SUBJECT.example);
    write!(
        writer,
        "config has to have a {name} at least, as in: {example}"
    )?;
    tell_need(" and below it ", &NAME, writer)?;
    tell_need(" and ", &KIND, writer)?;
    writer.write_all(b"\n")
}

// Writes a key that a subject has to have, and an example.
fn tell_need<W: Write>(before: &str, key: &Key, writer: &mut W) -> io::Result<()> {
    let (name, example) = (key.name, key.example);
    write!(writer, "{before}{name} = {example}")
}

fn tell<W: Write>(place: Place, advice: Advice<'_>, writer: &mut W) -> io::Result<()> {
    writeln!(writer, "{place}: {advice}")
}

// Writes that what stands at a place is no table of this key.
fn tell_no_table<W: Write>(place: Place, key: &Key, writer: &mut W) -> io::Result<()> {
    writeln!(
        writer,
        "{place} has to be {}, as in: {}",
        key.wants, key.example
    )
}

// Writes what is wrong with a table at the top, which may be missing.
fn advise_on_section<W: Write>(
    table: &Table,
    place: Place,
    key: &Key,
    writer: &mut W,
) -> io::Result<()> {
    let Some(value) = table.get(key.name) else {
        return Ok(());
    };
    match value.as_table() {
        Some(section) => advise_on_keys(section, place, None, writer),
        None => tell_no_table(place, key, writer),
    }
}

// Writes what is wrong with each subject, and with its name where an earlier one has it.
fn advise_on_subjects<W: Write>(subjects: &[Value], writer: &mut W) -> io::Result<()> {
    for (index, subject) in subjects.iter().enumerate().take(MAX_SUBJECTS) {
        advise_on_subject(subject, index, writer)?;
        if has_name_before(subjects, index) {
            tell_name_before(index, writer)?;
        }
    }
    Ok(())
}

// Writes what is wrong with the subject of this number.
fn advise_on_subject<W: Write>(subject: &Value, index: usize, writer: &mut W) -> io::Result<()> {
    let place = Place::Subject(index);
    match subject.as_table() {
        Some(table) => advise_on_keys(table, place, kind_of(table), writer),
        None => tell_no_table(place, &SUBJECT, writer),
    }
}

// Writes that the name of the subject of this number stands in an earlier one.
fn tell_name_before<W: Write>(index: usize, writer: &mut W) -> io::Result<()> {
    let place = Place::Subject(index);
    writeln!(
        writer,
        "{place}: name is wrong: no other subject may have it"
    )
}

// The word for a subject's kind, where it has one.
fn kind_of(subject: &Table) -> Option<&str> {
    subject.get(KIND.name)?.as_str()
}

// Writes what is wrong with the keys of a table, of this kind if it is of one.
fn advise_on_keys<W: Write>(
    table: &Table,
    place: Place,
    kind: Option<&str>,
    writer: &mut W,
) -> io::Result<()> {
    for key in place.keys() {
        if let Some(advice) = advice_at(table, key, kind) {
            tell(place, advice, writer)?;
        }
    }
    advise_on_names(table, place, writer)
}

// Writes which keys of a table are none.
fn advise_on_names<W: Write>(table: &Table, place: Place, writer: &mut W) -> io::Result<()> {
    for name in table.keys() {
        let name = name.as_str();
        if !place.keys().iter().any(|key| key.name == name) {
            tell(place, Advice::Unknown(name, place), writer)?;
        }
    }
    Ok(())
}

// What is wrong at a key of a table, of this kind if it is of one.
fn advice_at<'a>(table: &Table, key: &'a Key, kind: Option<&str>) -> Option<Advice<'a>> {
    match table.get(key.name) {
        None if key.form.is_needed() => Some(Advice::Missing(key)),
        Some(value) if !key.takes(value, kind) => Some(Advice::Wrong(key)),
        _ => None,
    }
}

// Whether the subject of this number has a name, and one before it has the same.
fn has_name_before(subjects: &[Value], index: usize) -> bool {
    let Some(name) = subjects.get(index).and_then(name_of) else {
        return false;
    };
    for earlier in subjects.iter().take(index) {
        if name_of(earlier) == Some(name) {
            return true;
        }
    }
    false
}

// The name of a subject, where it has one.
fn name_of(subject: &Value) -> Option<&str> {
    let name = subject.as_table()?.get(NAME.name)?.as_str()?;
    if Name::new(name.as_bytes()).is_some() {
        Some(name)
    } else {
        None
    }
}
