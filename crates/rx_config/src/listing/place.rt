// Where in a configuration a key stands.

use crate::keys::key::Key;
use crate::keys::{HTTP_KEYS, POOL_KEYS, SUBJECT_KEYS, TOP_KEYS};
use std::fmt;

/// The table of a configuration in which a key stands.
#[derive(Clone, Copy)]
pub(crate) enum Place {
    Top,
    Pool,
    Http,
    /// The entry of this number, from 0.
    Subject(usize),
}

impl Place {
    /// The keys that there are.
    pub(crate) fn keys(self) -> &'static [Key] {
        match self {
            Place::Top => &TOP_KEYS,
            Place::Pool => &POOL_KEYS,
            Place::Http => &HTTP_KEYS,
            Place::Subject(_) => &SUBJECT_KEYS,
        }
    }
}

impl fmt::Display for Place {
    fn fmt<W: fmt::Write>(&self, f: &mut fmt::Formatter<W>) -> fmt::Result {
        match self {
            Place::Top => f.write_str("config"),
            Place::Pool => f.write_str("pool"),
            Place::Http => f.write_str("http"),
            Place::Subject(index) => write!(f, "subject {index}"),
        }
    }
}
