// Numbers as TOML has them: signed, of 64 bits.
ghost use Rattle.std.specs.Prelude.{◌≡◌, ◌≤◌, IfSome};
ghost use Rattle.toml.specs.View.{view};
ghost use Rattle.rx_config.specs.Configurations.{natural_of};
ghost use Rattle.rx_config.specs.KeyTables.{number_within};

use toml::Value;

/// The number that a value says, from `least` to `most`. None: it is no such number.
pub(crate) fn number_within(value: &Value, least: u64, most: u64) -> Option<u64>
    ensures number { result ≡ number_within least most (view value.now) }
    ensures least { IfSome result (λ n. least ≤ n) }
    ensures most { IfSome result (λ n. n ≤ most) }
{
    let Some(number) = value.as_integer() else {
        return None;
    };
    match natural_of(number) {
        Some(number) if least <= number && number <= most => Some(number),
        _ => None,
    }
}

// A number that is not negative.
fn natural_of(number: i64) -> Option<u64>
    ensures { result ≡ natural_of number }
{
    if number < 0 {
        return None;
    }
    Some(number as u64)
}
