// Bytes that marks keep apart.
ghost use Rattle.std.specs.Prelude.{◌≡◌, MatchOption};
ghost use Rattle.rx_http.specs.Queries.{AreParted, HasNo, cut_at};

use bstr::ByteSlice;

/// The bytes before the first of these marks, and those behind it. All of them and none where there is no mark.
pub(crate) fn cut(bytes: &[u8], mark: u8) -> (&[u8], &[u8])
    ensures { (result.0.now, result.1.now) ≡ cut_at mark bytes.now }
{
    match part(bytes, mark) {
        Some(parts) => parts,
        None => (bytes, b""),
    }
}

/// The bytes before the first of these marks, and those behind it. None where there is no mark.
pub(crate) fn part(bytes: &[u8], mark: u8) -> Option<(&[u8], &[u8])>
    ensures { MatchOption result (HasNo mark bytes.now) (λ parts. AreParted mark parts.0.now parts.1.now bytes.now) }
{
    match bytes.find_byte(mark) {
        Some(len) => Some((&bytes[..len], &bytes[len + 1..])),
        None => None,
    }
}
