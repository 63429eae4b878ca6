// A table of a configuration, where it is read.
ghost use Rattle.std.specs.Prelude.{◌≡◌, option_map};
ghost use Rattle.toml.specs.View.{table_view, view};
ghost use Rattle.rx_config.specs.Configurations.{has_only, is_among};
ghost use Rattle.rx_config.specs.KeyTables.{names_of};

use crate::keys::key::Key;
use toml::{Table, Value};

/// A table of a configuration. It may be missing: then nothing stands at any of its keys.
#[derive(Clone, Copy)]
pub(crate) struct Section<'a> {
    table: Option<&'a Table>,
}

impl<'a> Section<'a> {
    ghost use Rattle.toml.specs.Data.{get_member, no_members};
    ghost use Rattle.rx_config.specs.KeyTables.{members_in};

    /// This table.
    pub(crate) fn of(table: &'a Table) -> Section<'a>
        ensures { members_in result ≡ table_view table.now }
    {
        Section { table: Some(table) }
    }

    /// A table that is missing.
    pub(crate) fn missing() -> Section<'a>
        ensures { members_in result ≡ no_members }
    {
        Section { table: None }
    }

    /// What stands at the key of this name.
    pub(crate) fn get(&self, name: &str) -> Option<&'a Value>
        ensures { option_map (λ v. view v.now) result ≡ get_member name.now (members_in self.now) }
    {
        match self.table {
            None => None,
            Some(table) => table.get(name),
        }
    }

    /// Whether it has those of these keys alone, some of them or all, that a table of this kind has.
    pub(crate) fn has_only(&self, keys: &[Key], kind: Option<&str>) -> bool
        ensures { result ≡ has_only (names_of (option_map (λ word. word.now) kind.entry) keys.now) (members_in self.now) }
    {
        match self.table {
            None => true,
            Some(table) => has_only(table, keys, kind),
        }
    }
}

// Whether a table has those of these keys alone that a table of this kind has.
#[tactic(auto, using(crate::proofs::KeyNames::members_among))]
fn has_only(table: &Table, keys: &[Key], kind: Option<&str>) -> bool
    ensures { result ≡ has_only (names_of (option_map (λ word. word.now) kind.entry) keys.now) (table_view table.now) }
{
    for name in table.keys() {
        if !is_among(name.as_str(), keys, kind) {
            return false;
        }
    }
    true
}

// Whether this is the name of one of these keys, in a table of this kind.
fn is_among(name: &str, keys: &[Key], kind: Option<&str>) -> bool
    ensures { result ≡ is_among name.now (names_of (option_map (λ word. word.now) kind.entry) keys.now) }
{
    for key in keys {
        if key.is_named(name, kind) {
            return true;
        }
    }
    false
}
