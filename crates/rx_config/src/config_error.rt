// Why a configuration was refused.
use thiserror::Error;

/// Why a configuration was refused: the first of these that holds, in this order, where each entry of `subject` is looked
/// at whole before the next one. The limits are this project's own.
#[derive(Clone, Copy, Debug, PartialEq, Eq, Error)]
pub enum ConfigError {
    /// The bytes are no TOML.
    #[error("config is not TOML")]
    Syntax,
    /// A key at the top is none of `subject`, `pool` and `http`.
    #[error("config has an unknown key")]
    UnknownKey,
    /// `pool` is no table, has another key, or a value of another type or range.
    #[error("pool is refused")]
    BadPool,
    /// `http` is no table, lacks its socket, has another key, or a value of another type or range.
    #[error("http is refused")]
    BadHttp,
    /// `subject` is missing, no array, or empty.
    #[error("no subject")]
    NoSubject,
    /// There are more than 16.
    #[error("more than 16 subjects")]
    TooManySubjects,
    /// The entry of this number, from 0, is no table, lacks a key, has another key or one that is not of its kind, or a
    /// value of another type or range.
    #[error("subject {0} is refused")]
    BadSubject(usize),
    /// The name of the entry of this number, from 0, stands in an earlier one.
    #[error("subject {0} has a name that stands before")]
    DuplicateName(usize),
    /// There was no memory for it.
    #[error("out of memory")]
    Memory,
}
