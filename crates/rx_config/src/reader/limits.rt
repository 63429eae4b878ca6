// The limits of a subject.
ghost use Rattle.std.specs.Prelude.{◌≡◌, true, IfSome};
ghost use Rattle.rx_hub.specs.Hubs.{are_in_range};
ghost use Rattle.rx_config.specs.Configurations.{limits_in};
ghost use Rattle.rx_config.specs.KeyTables.{members_in};

use crate::keys::section::Section;
use crate::keys::{ITEMS, JOINS, OBSERVERS};
use rx_note::Limits;

/// The limits of a table. None: one of them is refused.
pub(crate) fn limits_in(section: &Section) -> Option<Limits>
    ensures limits { result ≡ limits_in (members_in section.now) }
    ensures range { IfSome result (λ limits. are_in_range limits ≡ true) }
{
    let Some(observers) = OBSERVERS.number_in(section) else {
        return None;
    };
    let Some(joins) = JOINS.number_in(section) else {
        return None;
    };
    let Some(items) = ITEMS.number_in(section) else {
        return None;
    };
    Some(Limits {
        observers,
        joins,
        items,
    })
}
