// Numbers of a request.
ghost use Rattle.std.specs.Prelude.{decimal};
ghost use Rattle.rx_http.specs.Words.{IsNumber, IsReadOf};

use rx_proto::{MAX_DIGITS, write_digits};
use std::str;

/// The number of 32 bits that is written so: its decimal digits, without leading zeros.
pub(crate) fn number_of(digits: &[u8]) -> Option<u32>
    ensures { IsReadOf IsNumber decimal digits.now result }
{
    let Ok(text) = str::from_utf8(digits) else {
        return None;
    };
    let Ok(number) = u32::from_str_radix(text, 10) else {
        return None;
    };
    let mut written = [0; MAX_DIGITS];
    let start = write_digits(number, &mut written);
    if &written[start..] == digits {
        Some(number)
    } else {
        None
    }
}
