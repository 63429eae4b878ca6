ghost use Rattle.std.specs.Prelude.{◌≡◌, IfOk};
ghost use Rattle.rx_config.specs.Configurations.{settings_of};
ghost use Rattle.rx_program.specs.Reporting.{names_of};

use rx_config::Config;
use rx_heap::{Heap, Memory};
use rx_proto::Name;
use std::marker::Model;

/// The names of the subjects of a configuration, in their order.
pub(crate) struct Names {
    names: Vec<Name, Heap>,
}

// By hand: rx_heap says why.
impl Drop for Names {
    fn drop(self) {
        let Names { names: _ } = self;
    }
}

impl Model for Names {
    ghost use Rattle.std.specs.Prelude.{List, ℕ, ⊤};

    ghost Value = { List (List ℕ) };

    ghost view = { λ n. n.names.items };

    ghost invariant = { λ n. ⊤ };
}

impl Names {
    /// The names of this configuration.
    pub(crate) fn of(heap: &Heap, config: &Config) -> Result<Names, Memory>
        ensures { IfOk result (λ names. names ≡ names_of (settings_of config.now)) }
    {
        let mut names = Vec::new(heap.clone()?);
        for subject in &config.subjects {
            names.push(Name::of(subject.name.as_bytes()))?;
        }
        Ok(Names { names })
    }

    /// All of them.
    pub(crate) fn as_slice(&self) -> &[Name]
        ensures { result.now ≡ self.now }
    {
        self.names.as_slice()
    }
}
