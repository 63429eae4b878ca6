// A key of a configuration.
ghost use Rattle.std.specs.Prelude.{◌≡◌, IfSome, IsTrue, option_and_then, option_map};
ghost use Rattle.toml.specs.Data.{as_str, get_member};
ghost use Rattle.toml.specs.View.{view};

use crate::keys::form::Form;
use crate::keys::section::Section;
use toml::Value;

/// A key of a configuration.
#[derive(Clone, Copy)]
pub(crate) struct Key {
    /// How it is written.
    pub(crate) name: &'static str,
    /// What may stand there.
    pub(crate) form: Form,
    /// The kind of subject that alone has it. None: each table of its sort has it.
    pub(crate) kind: Option<&'static str>,
    /// What is right there, in words; of a text or a number without its limits, of a list what each of it is.
    pub(crate) wants: &'static str,
    /// What may stand there, for example, as it is written.
    pub(crate) example: &'static str,
}

impl Key {
    ghost use Rattle.rx_config.specs.KeyTables.{IsWithin, bound_of, flag_of, goes_with, has_standard, is_named, members_in, number_of};

    /// What stands at it.
    pub(crate) fn value_in<'a>(&self, section: &Section<'a>) -> Option<&'a Value>
        ensures { option_map (λ v. view v.now) result ≡ get_member self.now.name.now (members_in section.now) }
    {
        section.get(self.name)
    }

    /// The number that stands at it, or its standard. None: what stands there is no such number.
    pub(crate) fn number_in(&self, section: &Section) -> Option<u32>
        requires { IsTrue (has_standard self.now.form) }
        ensures number { result ≡ number_of self.now.form (get_member self.now.name.now (members_in section.now)) }
        ensures within { IfSome result (IsWithin self.now.form) }
    {
        self.form.number_of(self.value_in(section))
    }

    /// The bound that stands at it, if one does. None: what stands there is no such number.
    pub(crate) fn bound_in(&self, section: &Section) -> Option<Option<u64>>
        ensures bound { result ≡ bound_of self.now.form (get_member self.now.name.now (members_in section.now)) }
        ensures within { IfSome result (λ bound. IfSome bound (IsWithin self.now.form)) }
    {
        self.form.bound_of(self.value_in(section))
    }

    /// The flag that stands at it, or its standard. None: what stands there is no flag.
    pub(crate) fn flag_in(&self, section: &Section) -> Option<bool>
        ensures { result ≡ flag_of self.now.form (get_member self.now.name.now (members_in section.now)) }
    {
        self.form.flag_of(self.value_in(section))
    }

    /// The text that stands at it, if one does.
    pub(crate) fn text_in<'a>(&self, section: &Section<'a>) -> Option<&'a str>
        ensures { option_map (λ s. s.now) result ≡ option_and_then as_str (get_member self.now.name.now (members_in section.now)) }
    {
        match self.value_in(section) {
            None => None,
            Some(value) => value.as_str(),
        }
    }

    /// Whether a table of this kind, if it is of one, has this name for it.
    pub(crate) fn is_named(&self, name: &str, kind: Option<&str>) -> bool
        ensures { result ≡ is_named name.now (option_map (λ word. word.now) kind.entry) self.now }
    {
        name == self.name && self.goes_with(kind)
    }

    /// Whether this value may stand at it, in a table of this kind, if it is of one.
    pub(crate) fn takes(&self, value: &Value, kind: Option<&str>) -> bool {
        self.goes_with(kind) && self.form.takes(value)
    }

    /// Whether a table of this kind, if it is of one, has it.
    pub(crate) fn goes_with(&self, kind: Option<&str>) -> bool
        ensures { result ≡ goes_with (option_map (λ word. word.now) kind.entry) self.now }
    {
        match (self.kind, kind) {
            (None, _) => true,
            (Some(_), None) => false,
            (Some(only), Some(kind)) => only == kind,
        }
    }
}
