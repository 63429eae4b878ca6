// The words of a query, by their keys.
ghost use Rattle.std.specs.Prelude.{◌≡◌, ◌≤◌, SomeIff, length, option_map};
ghost use Rattle.rx_http.specs.Queries.{value_in, word_in};
ghost use Rattle.rx_http.specs.Words.{IsFound, SaysLines};

use crate::parts::cut;
use crate::request::word::Word;

/// The word of a key, which has its `=`, or another one where the query has none. None exactly where it has more than 64 bytes.
pub(crate) fn word_of(query: &[u8], key: &[u8], other: &[u8]) -> Option<Word>
    ensures { SomeIff result (length (word_in key.now other.now query.now) ≤ 64) (word_in key.now other.now query.now) }
{
    Word::decoded(value_of(query, key).unwrap_or(other))
}

/// Whether a query says that each line of the body is a text: `lines=1` does. It doesn't where it has no such key; None where it says
/// anything else of lines.
pub(crate) fn lines_in(query: &[u8]) -> Option<bool>
    ensures { IsFound (SaysLines query.now) result }
{
    let Some(value) = value_of(query, b"lines=") else {
        return Some(false);
    };
    match Word::decoded(value) {
        Some(word) if word.as_bytes() == b"1".as_slice() => Some(true),
        _ => None,
    }
}

// The value behind the first key of this name, up to the next `&`.
fn value_of<'a>(query: &'a [u8], key: &[u8]) -> Option<&'a [u8]>
    ensures { option_map (λ value. value.now) result ≡ value_in key.now query.now }
{
    let mut begins = true;
    for (i, byte) in query.iter().enumerate() {
        if begins {
            if let Some(rest) = query[i..].strip_prefix(key) {
                return Some(cut(rest, b'&').0);
            }
        }
        begins = *byte == b'&';
    }
    None
}
