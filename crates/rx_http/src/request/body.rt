// What the fields of a request say of its body, and of the page that sent it.
ghost use Rattle.std.specs.Prelude.{◌≡◌, option_map};
ghost use Rattle.rx_http.specs.Bodies.{HasSize, is_foreign, is_site};

use crate::number::number_of;

/// Whether a page of another site sent it, by the values of `Origin` and `Host`: a browser says the site of the page.
pub(crate) fn is_foreign(origin: Option<&[u8]>, host: Option<&[u8]>) -> bool
    ensures { result ≡ is_foreign (option_map (λ word. word.now) origin.entry) (option_map (λ word. word.now) host.entry) }
{
    let Some(origin) = origin else {
        return false;
    };
    let Some(host) = host else {
        return true;
    };
    !(is_site(origin, b"http://", host) || is_site(origin, b"https://", host))
}

// Whether an origin is that host, by this scheme.
fn is_site(origin: &[u8], scheme: &[u8], host: &[u8]) -> bool
    ensures { result ≡ is_site origin.now scheme.now host.now }
{
    match origin.strip_prefix(scheme) {
        Some(rest) => rest == host,
        None => false,
    }
}

/// How many bytes the body has, by the values of `Transfer-Encoding` and `Content-Length`. None where it isn't told by one number.
pub(crate) fn size_of_body(coding: Option<&[u8]>, length: Option<&[u8]>) -> Option<u32>
    ensures { HasSize (option_map (λ word. word.now) coding.entry) (option_map (λ word. word.now) length.entry) result }
{
    if let Some(_) = coding {
        return None;
    }
    match length {
        Some(digits) => number_of(digits),
        None => Some(0),
    }
}
