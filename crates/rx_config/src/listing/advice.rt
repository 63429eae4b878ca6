// What is wrong with a key of a configuration, and what would be right.

use crate::keys::key::Key;
use crate::listing::known_keys::KnownKeys;
use crate::listing::place::Place;
use crate::listing::right_value::RightValue;
use crate::listing::shown::Shown;
use std::fmt;

/// What is wrong with a key of a configuration, and what would be right.
#[derive(Clone, Copy)]
pub(crate) enum Advice<'a> {
    /// The key is missing.
    Missing(&'a Key),
    /// What stands at the key may not stand there.
    Wrong(&'a Key),
    /// There is no key of this name at this place.
    Unknown(&'a str, Place),
}

impl fmt::Display for Advice<'_> {
    fn fmt<W: fmt::Write>(&self, f: &mut fmt::Formatter<W>) -> fmt::Result {
        match self {
            Advice::Missing(key) => write!(f, "{} is missing: {}", key.name, RightValue(key)),
            Advice::Wrong(key) => write!(f, "{} is wrong: {}", key.name, RightValue(key)),
            Advice::Unknown(name, place) => {
                write!(f, "{} is no key: {}", Shown(name), KnownKeys(*place))
            }
        }
    }
}
