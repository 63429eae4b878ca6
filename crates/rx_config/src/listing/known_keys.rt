// The keys that there are, for whoever wrote another.

use crate::keys::KINDS;
use crate::keys::key::Key;
use crate::listing::place::Place;
use std::fmt;

/// The keys that there are at a place.
#[derive(Clone, Copy)]
pub(crate) struct KnownKeys(pub(crate) Place);

impl fmt::Display for KnownKeys {
    fn fmt<W: fmt::Write>(&self, f: &mut fmt::Formatter<W>) -> fmt::Result {
        let keys = self.0.keys();
        match self.0 {
            Place::Top => write_sections(keys, f),
            Place::Pool => {
                f.write_str("a pool has ")?;
                write_names(keys, None, f)
            }
            Place::Http => {
                f.write_str("http has ")?;
                write_names(keys, None, f)
            }
            Place::Subject(_) => {
                f.write_str("a subject has ")?;
                write_names(keys, None, f)?;
                write_names_of_kinds(keys, f)
            }
        }
    }
}

// Writes the tables at the top.
fn write_sections<W: fmt::Write>(keys: &[Key], f: &mut fmt::Formatter<W>) -> fmt::Result {
    let mut left = keys.len();
    let mut before = "there are ";
    for key in keys {
        f.write_str(before)?;
        write_section(key, f)?;
        left = left.saturating_sub(1);
        before = if left == 1 { ", and " } else { ", " };
    }
    Ok(())
}

// Writes the name of a table, and an example.
fn write_section<W: fmt::Write>(key: &Key, f: &mut fmt::Formatter<W>) -> fmt::Result {
    f.write_str(key.name)?;
    f.write_str(", as in: ")?;
    f.write_str(key.example)
}

// Writes the names of the keys that a kind alone has, of each kind that has such.
fn write_names_of_kinds<W: fmt::Write>(keys: &[Key], f: &mut fmt::Formatter<W>) -> fmt::Result {
    for kind in &KINDS {
        if count_of(keys, Some(kind)) > 0 {
            write_names_of(keys, kind, f)?;
        }
    }
    Ok(())
}

// Writes the names of the keys that this kind alone has.
fn write_names_of<W: fmt::Write>(
    keys: &[Key],
    kind: &str,
    f: &mut fmt::Formatter<W>,
) -> fmt::Result {
    write!(f, ", a {kind} also ")?;
    write_names(keys, Some(kind), f)
}

// Writes the names of the keys that a kind alone has, or of those that each has.
fn write_names<W: fmt::Write>(
    keys: &[Key],
    kind: Option<&str>,
    f: &mut fmt::Formatter<W>,
) -> fmt::Result {
    let mut left = count_of(keys, kind);
    let mut before = "";
    for key in keys {
        if key.kind == kind {
            f.write_str(before)?;
            f.write_str(key.name)?;
            left = left.saturating_sub(1);
            before = if left == 1 { " and " } else { ", " };
        }
    }
    Ok(())
}

// How many keys a kind alone has, or each.
fn count_of(keys: &[Key], kind: Option<&str>) -> usize {
    keys.iter().filter(|key| key.kind == kind).count()
}
