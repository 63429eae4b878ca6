// What may stand at a key, and what is taken where nothing does.
ghost use Rattle.std.specs.Prelude.{◌≡◌, IfSome, IsTrue, option_map};
ghost use Rattle.toml.specs.View.{view};

use crate::http::MAX_PATH;
use crate::keys::KINDS;
use crate::keys::number::number_within;
use rx_note::MAX_TEXT;
use rx_proto::Name;
use toml::Value;

/// What may stand at a key of a configuration, and what is taken where nothing does.
#[derive(Clone, Copy)]
pub(crate) enum Form {
    /// A table.
    Table,
    /// A list of tables.
    Tables,
    /// The name of a subject, which can't be left out.
    Name,
    /// The name of a kind, which can't be left out either.
    Kind,
    /// A text of at most 1,024 bytes without LF, or none.
    Text,
    /// The path of a socket, which can't be left out: 1 to 107 bytes without LF.
    Path,
    /// A number from `least` to `most`; where it is left out, `standard`.
    Number {
        least: u32,
        most: u32,
        standard: u32,
    },
    /// A number from `least` to `most`; where it is left out, there is no bound.
    Bound {
        least: u64,
        most: u64,
    },
    /// A flag; where it is left out, `standard`.
    Flag {
        standard: bool,
    },
}

impl Form {
    ghost use Rattle.rx_config.specs.KeyTables.{IsWithin, bound_of, flag_of, has_standard, number_of};

    /// The number that a value says, or the standard one where there is no value. None: the value is no such number, or this is
    /// no form of a number.
    pub(crate) fn number_of(self, value: Option<&Value>) -> Option<u32>
        requires { IsTrue (has_standard self) }
        ensures number { result ≡ number_of self (option_map (λ v. view v.now) value.entry) }
        ensures within { IfSome result (IsWithin self) }
    {
        let Form::Number {
            least,
            most,
            standard,
        } = self
        else {
            return None;
        };
        match value {
            None => Some(standard),
            Some(value) => match number_within(value, u64::from(least), u64::from(most)) {
                None => None,
                Some(number) => Some(number as u32),
            },
        }
    }

    /// The bound that a value says, if there is one. None: the value is no such number, or this is no form of a bound.
    pub(crate) fn bound_of(self, value: Option<&Value>) -> Option<Option<u64>>
        ensures bound { result ≡ bound_of self (option_map (λ v. view v.now) value.entry) }
        ensures within { IfSome result (λ bound. IfSome bound (IsWithin self)) }
    {
        let Form::Bound { least, most } = self else {
            return None;
        };
        match value {
            None => Some(None),
            Some(value) => match number_within(value, least, most) {
                None => None,
                Some(number) => Some(Some(number)),
            },
        }
    }

    /// The flag that a value says, or the standard one where there is no value. None: the value is no flag, or this is no form of one.
    pub(crate) fn flag_of(self, value: Option<&Value>) -> Option<bool>
        ensures { result ≡ flag_of self (option_map (λ v. view v.now) value.entry) }
    {
        match (self, value) {
            (Form::Flag { standard }, None) => Some(standard),
            (Form::Flag { .. }, Some(value)) => value.as_bool(),
            _ => None,
        }
    }

    /// Whether a key of this form can't be left out.
    pub(crate) fn is_needed(self) -> bool {
        matches!(self, Form::Name | Form::Kind | Form::Path)
    }

    /// Whether this value may stand there.
    pub(crate) fn takes(self, value: &Value) -> bool {
        match self {
            Form::Table => value.as_table().is_some(),
            Form::Tables => value.as_array().is_some(),
            Form::Number { least, most, .. } => {
                number_within(value, u64::from(least), u64::from(most)).is_some()
            }
            Form::Bound { least, most } => number_within(value, least, most).is_some(),
            Form::Flag { .. } => value.as_bool().is_some(),
            Form::Name | Form::Kind | Form::Text | Form::Path => match value.as_str() {
                Some(text) => self.takes_text(text),
                None => false,
            },
        }
    }

    // Whether this text may stand there.
    fn takes_text(self, text: &str) -> bool {
        match self {
            Form::Name => Name::new(text.as_bytes()).is_some(),
            Form::Kind => KINDS.contains(&text),
            Form::Text => is_line(text, MAX_TEXT),
            Form::Path => !text.is_empty() && is_line(text, MAX_PATH),
            _ => false,
        }
    }
}

// Whether a text has no LF, and at most so many bytes.
fn is_line(text: &str, most: usize) -> bool {
    text.len() <= most && !text.as_bytes().contains(&b'\n')
}
