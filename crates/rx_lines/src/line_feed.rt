// Where the first LF stands, sought several bytes at a time.
ghost use Rattle.std.specs.Prelude.{◌≡◌, ◌+◌, ◌≤◌, ◌==◌, length, take, drop, not};
ghost use Rattle.std.specs.List.{prefix_len};
ghost use Rattle.rx_proto.specs.LineFeeds.{HasNoLf};
ghost use Rattle.rx_lines.specs.Windows.{FindsLf};

use std::simd::prelude::*;

const LF: u8 = b'\n';

/// How many bytes are looked at in one go.
const LANES: usize = 16;

/// How many bytes stand before the first LF. None where there is no LF.
pub(crate) fn first_lf(bytes: &[u8]) -> Option<usize>
    ensures { FindsLf result bytes.now }
{
    // One that was found before stands at the front.
    if !bytes.is_empty() && bytes[0] == LF {
        return Some(0);
    }
    let mut at = 0;
    while bytes.len() - at >= LANES {
        let ahead = before_lf(bytes, at);
        if ahead < LANES {
            return Some(at + ahead);
        }
        at += LANES;
    }
    first_lf_from(bytes, at)
}

// The same, where no LF stands among the first bytes, so many.
fn first_lf_from(bytes: &[u8], from: usize) -> Option<usize>
    requires within { from ≤ length bytes.now }
    requires passed { HasNoLf (take from bytes.now) }
    ensures { FindsLf result bytes.now }
{
    let mut at = from;
    while at < bytes.len() {
        if bytes[at] == LF {
            return Some(at);
        }
        at += 1;
    }
    None
}

// How many of the 16 bytes from a place on stand before the first LF among them; 16 where none is.
fn before_lf(bytes: &[u8], at: usize) -> usize
    requires { at + 16 ≤ length bytes.now }
    ensures { result ≡ prefix_len (λ byte. not (byte == 10)) (take 16 (drop at bytes.now)) }
{
    let marks = u8x16::from_slice(&bytes[at..])
        .simd_eq(u8x16::splat(LF))
        .to_bitmask();
    if marks == 0 {
        LANES
    } else {
        marks.trailing_zeros() as usize
    }
}
