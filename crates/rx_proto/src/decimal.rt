// Decimal digits, written.
ghost use Rattle.std.specs.Prelude.{◌≡◌, ◌≤◌, drop, decimal};

/// The most digits that a number of 32 bits has.
pub const MAX_DIGITS: usize = 10;

/// Writes the decimal digits of a number, without leading zeros, at the end of the array. Where they begin.
#[inline(never)] // its loop is the same wherever a number is printed
pub fn write_digits(number: u32, digits: &mut [u8; MAX_DIGITS]) -> usize
    ensures digits { drop result digits.new ≡ decimal number }
    ensures within { result ≤ 10 }
{
    let mut start = MAX_DIGITS - 1;
    digits[start] = b'0' + (number % 10) as u8;
    let mut rest = number / 10;
    while rest > 0 {
        start -= 1;
        digits[start] = b'0' + (rest % 10) as u8;
        rest /= 10;
    }
    start
}
