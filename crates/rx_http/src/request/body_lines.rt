// The lines of a body that is several texts.
ghost use Rattle.std.specs.Prelude.{◌≡◌, ◌↔◌, ◌∷◌, [], IsTrue, MatchOption};
ghost use Rattle.rx_http.specs.BodyLines.{AreTexts, lines_of};

use crate::parts::part;

/// The most lines that a body may have, each of which is a text.
pub const MAX_LINES: usize = 256;

// The most bytes that a text has.
const MAX_TEXT: usize = 1024;

const LF: u8 = b'\n';

/// The first line of a body, without its LF, and the bytes behind that. None where the body has no line: it is empty.
pub fn first_line(body: &[u8]) -> Option<(&[u8], &[u8])>
    ensures { MatchOption result (lines_of body.now ≡ []) (λ parts. lines_of body.now ≡ parts.0.now ∷ lines_of parts.1.now) }
{
    if body.is_empty() {
        return None;
    }
    match part(body, LF) {
        Some(parts) => Some(parts),
        None => Some((body, b"")),
    }
}

/// Whether the lines of a body may be emitted together: they are at most 256, and each has at most 1,024 bytes.
pub fn are_texts(body: &[u8]) -> bool
    ensures { IsTrue result ↔ AreTexts (lines_of body.now) }
{
    let mut rest = body;
    for _ in 0..MAX_LINES {
        let Some((line, behind)) = first_line(rest) else {
            return true;
        };
        if line.len() > MAX_TEXT {
            return false;
        }
        rest = behind;
    }
    first_line(rest).is_none()
}
