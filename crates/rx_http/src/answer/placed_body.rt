// The bodies of the answers to several texts.
ghost use Rattle.std.specs.Prelude.{◌≡◌, ◌≤◌, ◌++◌, codes, decimal, length, map};
ghost use Rattle.std.specs.List.{join_with_byte};
ghost use Rattle.rx_http.specs.Answers.{cut_body, placed_body, places_member};

use crate::{Epoch, Places, Refusal};
use rx_proto::{LineBytes, MAX_DIGITS, write_digits};

// The most bytes of such a body, and some more.
const PLACED: usize = 3_328;

/// The body of the answer to lines that were accepted.
pub(crate) fn placed_body(epoch: &Epoch, places: &Places) -> LineBytes<PLACED>
    ensures { result ≡ placed_body epoch.now places.now }
{
    let mut body = LineBytes::new();
    body.put(b"{\"epoch\":\"");
    put_placed(&mut body, epoch, places);
    body
}

/// The body of the answer to lines of which the first were accepted, and the one behind them refused.
pub(crate) fn cut_body(epoch: &Epoch, places: &Places, refusal: Refusal) -> LineBytes<PLACED>
    ensures { result ≡ cut_body epoch.now places.now refusal }
{
    let mut body = LineBytes::new();
    body.put(b"{\"error\":\"");
    body.put(refusal.error());
    body.put(b"\",\"text\":\"");
    body.put(refusal.advice());
    body.put(b"\",\"epoch\":\"");
    put_placed(&mut body, epoch, places);
    body
}

// Puts an epoch, and where items stand.
fn put_placed(body: &mut LineBytes<PLACED>, epoch: &Epoch, places: &Places)
    requires { length body.old ≤ 350 }
    ensures { body.new ≡ body.old ++ (epoch.now ++ (codes "\"" ++ places_member places.now)) }
{
    body.put(epoch.as_bytes());
    body.put(b"\",\"places\":[");
    put_places(body, places.as_slice());
    body.put(b"]}\n");
}

// Puts places, with a comma between two.
fn put_places(body: &mut LineBytes<PLACED>, places: &[u32])
    requires room { length body.old ≤ 400 }
    requires few { length places.now ≤ 256 }
    ensures bytes { body.new ≡ body.old ++ join_with_byte 44 (map decimal places.now) }
    ensures few { length body.new ≤ 3_300 }
{
    let mut comma: &[u8] = b"";
    for place in places {
        let mut digits = [0; MAX_DIGITS];
        let start = write_digits(*place, &mut digits);
        body.put(comma);
        body.put(&digits[start..]);
        comma = b",";
    }
}
