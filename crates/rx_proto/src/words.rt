// The words of a line: names, texts and numbers.
ghost use Rattle.std.specs.Prelude.{◌≡◌, ◌+◌, ◌-◌, ◌*◌, ◌^◌, ◌<◌, ◌≤◌, IfNone, IfSome, length, slice_index_or, take};
ghost use Rattle.std.specs.List.{AllByRecursion};
ghost use Rattle.rx_proto.specs.LineFeeds.{HasNoLf};
ghost use Rattle.rx_proto.specs.Names.{IsNameByte};
ghost use Rattle.rx_proto.specs.Reading.{Gives, cut_read, name_read, named_read, text_read, number_read, wide_number_read, digits_read, is_digit, policy_read, room_read, strategy_read, errors_read, named_text_read};

use crate::BadLine;
use crate::name::{MAX_NAME, is_name, is_name_byte};
use bstr::ByteSlice;
use rx_note::{Errors, MAX_TEXT, Policy, Strategy};

const SPACE: u8 = b' ';

/// The most digits that a number has on a line.
pub(crate) const MAX_DIGITS: usize = 20;

/// The bytes before the first space, and those behind it.
pub(crate) fn cut_at_space(bytes: &[u8]) -> Result<(&[u8], &[u8]), BadLine>
    ensures { Gives (λ parts. (parts.0.now, parts.1.now)) result (cut_read bytes.now) }
{
    match bytes.find_byte(SPACE) {
        Some(len) => Ok((&bytes[..len], &bytes[len + 1..])),
        None => Err(BadLine::Syntax),
    }
}

/// These bytes, if they are a name.
pub(crate) fn name_of(bytes: &[u8]) -> Result<&[u8], BadLine>
    ensures { Gives (λ name. name.now) result (name_read bytes.now) }
{
    if is_name(bytes) {
        Ok(bytes)
    } else {
        Err(BadLine::Syntax)
    }
}

/// A name, and what stands behind one space. It looks at each byte of the name once.
#[inline(always)] // a part of each PUB
pub(crate) fn named(bytes: &[u8]) -> Result<(&[u8], &[u8]), BadLine>
    ensures { Gives (λ parts. (parts.0.now, parts.1.now)) result (named_read bytes.now) }
{
    for (len, byte) in bytes.iter().enumerate() {
        if *byte == SPACE {
            return named_at(bytes, len);
        }
        if !is_name_byte(*byte) {
            return Err(BadLine::Syntax);
        }
    }
    Err(BadLine::Syntax)
}

// The same, where the first space stands behind so many bytes, each of which may stand in a name.
#[inline(always)] // a part of `named`
fn named_at(bytes: &[u8], len: usize) -> Result<(&[u8], &[u8]), BadLine>
    requires within { len < length bytes.now }
    requires each { AllByRecursion IsNameByte (take len bytes.now) }
    requires space { slice_index_or bytes.now len 0 ≡ 32 }
    ensures { Gives (λ parts. (parts.0.now, parts.1.now)) result (named_read bytes.now) }
{
    if len == 0 || len > MAX_NAME {
        return Err(BadLine::Syntax);
    }
    let (name, rest) = (&bytes[..len], &bytes[len + 1..]);
    Ok((name, rest))
}

/// The text that these bytes of a line are, among which is no LF.
#[inline(always)] // a part of each PUB
pub(crate) fn text_of(bytes: &[u8]) -> Result<&[u8], BadLine>
    requires { HasNoLf bytes.now }
    ensures { Gives (λ text. text.now) result (text_read bytes.now) }
{
    if bytes.len() > MAX_TEXT {
        return Err(BadLine::Long);
    }
    Ok(bytes)
}

/// The number of 32 bits that these digits spell, leading zeros allowed.
#[tactic(auto, unfolding(crate::specs::Reading::number_read))]
pub(crate) fn number_of(bytes: &[u8]) -> Result<u32, BadLine>
    ensures { result ≡ number_read bytes.now }
{
    match u32::try_from(wide_number_of(bytes)?) {
        Ok(number) => Ok(number),
        Err(_) => Err(BadLine::Syntax),
    }
}

/// The number of 64 bits that these digits spell, leading zeros allowed.
#[tactic(auto, unfolding(crate::specs::Reading::wide_number_read))]
pub(crate) fn wide_number_of(bytes: &[u8]) -> Result<u64, BadLine>
    ensures { result ≡ wide_number_read bytes.now }
{
    if bytes.is_empty() || bytes.len() > MAX_DIGITS {
        return Err(BadLine::Syntax);
    }
    digits_of(bytes)
}

fn digits_of(bytes: &[u8]) -> Result<u64, BadLine>
    ensures { result ≡ digits_read 0 bytes.now }
{
    let mut value = 0;
    for digit in bytes {
        if !is_digit(*digit) {
            return Err(BadLine::Syntax);
        }
        let Some(next) = with_digit(value, *digit) else {
            return Err(BadLine::Syntax);
        };
        value = next;
    }
    Ok(value)
}

// The value of some digits and this one, if it has 64 bits.
fn with_digit(value: u64, digit: u8) -> Option<u64>
    requires { 48 ≤ digit }
    ensures none { IfNone result (2 ^ 64 ≤ value * 10 + (digit - 48)) }
    ensures some { IfSome result (λ next. (next ≡ value * 10 + (digit - 48)) × (next < 2 ^ 64)) }
{
    let tens = value.checked_mul(10)?;
    tens.checked_add(u64::from(digit - b'0'))
}

fn is_digit(byte: u8) -> bool
    ensures { result ≡ is_digit byte }
{
    b'0' <= byte && byte <= b'9'
}

/// A name and a text, behind one space.
#[inline(always)] // a part of each PUB
#[tactic(auto, unfolding(crate::specs::Reading::named_text_read))]
pub(crate) fn named_text(bytes: &[u8]) -> Result<(&[u8], &[u8]), BadLine>
    requires { HasNoLf bytes.now }
    ensures { Gives (λ parts. (parts.0.now, parts.1.now)) result (named_text_read bytes.now) }
{
    let (name, rest) = named(bytes)?;
    let text = text_of(rest)?;
    Ok((name, text))
}

/// The policy that a strategy's word and an error mode's word spell. A room that `Policy::new` refuses is a fault.
#[tactic(auto, unfolding(crate::specs::Reading::policy_read))]
pub(crate) fn policy_of(strategy: &[u8], errors: &[u8]) -> Result<Policy, BadLine>
    ensures { result ≡ policy_read strategy.now errors.now }
{
    let strategy = strategy_of(strategy)?;
    let errors = errors_of(errors)?;
    match Policy::new(strategy, errors) {
        Ok(policy) => Ok(policy),
        Err(_) => Err(BadLine::Syntax),
    }
}

fn strategy_of(word: &[u8]) -> Result<Strategy, BadLine>
    ensures { result ≡ strategy_read word.now }
{
    if word == b"BUFFER".as_slice() {
        return Ok(Strategy::Buffer);
    }
    if let Some(digits) = word.strip_prefix(b"DROP:".as_slice()) {
        return Ok(Strategy::Drop(room_of(digits)?));
    }
    if let Some(digits) = word.strip_prefix(b"LATEST:".as_slice()) {
        return Ok(Strategy::Latest(room_of(digits)?));
    }
    if let Some(digits) = word.strip_prefix(b"BOUNDED:".as_slice()) {
        return Ok(Strategy::Bounded(room_of(digits)?));
    }
    Err(BadLine::Syntax)
}

fn room_of(digits: &[u8]) -> Result<u16, BadLine>
    ensures { result ≡ room_read digits.now }
{
    match u16::try_from(number_of(digits)?) {
        Ok(room) => Ok(room),
        Err(_) => Err(BadLine::Syntax),
    }
}

fn errors_of(word: &[u8]) -> Result<Errors, BadLine>
    ensures { result ≡ errors_read word.now }
{
    if word == b"AHEAD".as_slice() {
        Ok(Errors::Ahead)
    } else if word == b"DELAY".as_slice() {
        Ok(Errors::Delay)
    } else {
        Err(BadLine::Syntax)
    }
}
