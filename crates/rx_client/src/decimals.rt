// Numbers as a server prints them.
ghost use Rattle.std.specs.Prelude.{◌≡◌, ◌≢◌, ◌<◌, ◌^◌, ◌++◌, ◌∷◌, ℕ, List, Err, Ok, IfNone, IfSome, MatchOption, decimal};
ghost use Rattle.rx_proto.specs.Reading.{cut_read};
ghost use Rattle.rx_proto.specs.declared.line_error.BadLine.TheVariants.{Syntax};

use bstr::ByteSlice;
use rx_proto::{MAX_DIGITS, write_digits};
use std::str;

const SPACE: u8 = b' ';

// The number that stands before the first space as a server prints it, and what stands behind that.
pub(crate) fn decimal_before_space(bytes: &[u8]) -> Option<(u32, &[u8])>
    ensures some { IfSome result (λ parts. decimal parts.0 ++ 32 ∷ parts.1.now ≡ bytes.now) }
    ensures fits { IfSome result (λ parts. parts.0 < 2 ^ 32) }
    ensures none { IfNone result ((n : ℕ) (rest : List ℕ) → n < 2 ^ 32 → decimal n ++ 32 ∷ rest ≢ bytes.now) }
{
    let Some((word, rest)) = cut_at_space(bytes) else {
        return None;
    };
    match decimal_of(word) {
        Some(number) => Some((number, rest)),
        None => None,
    }
}

// The bytes before the first space, and those behind it.
fn cut_at_space(bytes: &[u8]) -> Option<(&[u8], &[u8])>
    ensures read { MatchOption result (cut_read bytes.now ≡ Err Syntax) (λ parts. cut_read bytes.now ≡ Ok (parts.0.now, parts.1.now)) }
    ensures parts { IfSome result (λ parts. parts.0.now ++ 32 ∷ parts.1.now ≡ bytes.now) }
{
    match bytes.find_byte(SPACE) {
        Some(len) => Some((&bytes[..len], &bytes[len + 1..])),
        None => None,
    }
}

// The number that these bytes are as a server prints it.
pub(crate) fn decimal_of(word: &[u8]) -> Option<u32>
    ensures some { IfSome result (λ n. decimal n ≡ word.now) }
    ensures none { IfNone result ((n : ℕ) → n < 2 ^ 32 → decimal n ≢ word.now) }
{
    let Ok(text) = str::from_utf8(word) else {
        return None;
    };
    let Ok(number) = u32::from_str_radix(text, 10) else {
        return None;
    };
    let mut digits = [0; MAX_DIGITS];
    let start = write_digits(number, &mut digits);
    if &digits[start..] == word {
        Some(number)
    } else {
        None
    }
}
