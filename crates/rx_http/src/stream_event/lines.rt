// What stands in a line of a stream: a text as itself, or in base64.
ghost use Rattle.std.specs.Prelude.{◌≡◌, ◌&&◌, codes, true};
ghost use Rattle.std.specs.List.{list_all};
ghost use Rattle.std.specs.Str.{is_utf8};
ghost use Rattle.rx_http.specs.Events.{IsLine, is_plain_byte, kind_by};
ghost use Rattle.rx_http.specs.Pieces.{kind_line};

use rx_note::Text;
use std::str;

const CR: u8 = b'\r';

/// Whether a text is told as itself: it is UTF-8.
pub(crate) fn is_text(text: &Text) -> bool
    ensures { result ≡ is_utf8 text.now }
{
    let bytes = text.as_bytes();
    is_plain(bytes) || str::from_utf8(bytes).is_ok()
}

/// Whether a text is told as itself on one line, which may be where this is false too.
pub(crate) fn is_line(text: &Text) -> bool
    ensures { result ≡ true → IsLine text.now }
{
    let bytes = text.as_bytes();
    is_plain(bytes) || is_line_of_words(bytes)
}

// Whether bytes of any kind are so.
#[inline(never)] // so that plain ones make no room for it
fn is_line_of_words(bytes: &[u8]) -> bool
    ensures { result ≡ true → IsLine bytes.now }
{
    !bytes.contains(&CR) && str::from_utf8(bytes).is_ok()
}

// Whether all bytes are ASCII and none is a CR, as in the commonest texts by far. It looks at eight at once.
fn is_plain(bytes: &[u8]) -> bool
    ensures { result ≡ list_all is_plain_byte bytes.now }
{
    let mut rest = bytes;
    while let Some((front, behind)) = rest.split_first_chunk::<8>() {
        if !are_plain(front) {
            return false;
        }
        rest = behind;
    }
    are_plain(rest)
}

// The same. It looks at each, so that many are looked at at once where their number is known.
#[inline(always)]
fn are_plain(bytes: &[u8]) -> bool
    ensures { result ≡ list_all is_plain_byte bytes.now }
{
    let mut plain = true;
    for byte in bytes {
        plain = plain & (*byte < 128) & (*byte != CR);
    }
    plain
}

/// The line of the kind of an item with this text, and the beginning of that of the text.
pub(crate) fn next_line(text: &Text) -> &'static [u8]
    ensures { result.now ≡ kind_line (kind_by (codes "next") text.now) }
{
    if is_text(text) {
        b"event: next\ndata: "
    } else {
        b"event: next64\ndata: "
    }
}

/// The line of the kind of an error with this text, and the beginning of that of the text.
pub(crate) fn failed_line(text: &Text) -> &'static [u8]
    ensures { result.now ≡ kind_line (kind_by (codes "failed") text.now) }
{
    if is_text(text) {
        b"event: failed\ndata: "
    } else {
        b"event: failed64\ndata: "
    }
}
