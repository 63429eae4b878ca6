// What a head asks for, or the first cause for which it is refused.
ghost use Rattle.std.specs.Prelude.{◌≡◌, All, Err, List, MatchBool, Ok, Option, ℕ, length, map, option_map};
ghost use Rattle.std.specs.Str.{str_to_ascii_lowercase};
ghost use Rattle.httparse.specs.Grammar.{RequestHead};
ghost use Rattle.httparse.specs.Spans.{IsHeaderWithin, header_bytes};
ghost use Rattle.rx_http.specs.Asking.{AsksAt, AsksFor, AsksForEmission, AsksForEvents, AsksForItem, AsksForRequest, AsksForStop, AsksForTexts, HeadAsksFor, IsHead, IsReadOfHead, field_in, form_of, known_word, post_route, stop_route, subject_route};
ghost use Rattle.rx_http.specs.Words.{IsFound, SaysKnown};

pub(crate) mod asked;
pub(crate) mod begin;
pub(crate) mod body;
pub(crate) mod body_lines;
pub(crate) mod credit;
pub(crate) mod idempotency_key;
pub(crate) mod look_form;
pub(crate) mod note_kind;
pub(crate) mod observer_id;
pub(crate) mod policy_words;
pub(crate) mod query;
pub(crate) mod word;

use crate::parts::cut;
use crate::request::body::{is_foreign, size_of_body};
use crate::request::idempotency_key::key_of;
use crate::request::policy_words::{credit_of, items_of, policy_of, within_of};
use crate::request::query::{lines_in, word_of};
use crate::{Asked, Id, LookForm, NoteKind, ObserverId, Refusal};
use httparse::spans::{EMPTY_HEADER_SPAN, HeaderSpan, parse_request};
use httparse::{Error, Status};
use rx_proto::Name;

/// The most bytes that a head has, and a head with its body.
pub const MAX_HEAD: usize = 8192;

// The most fields that a head has.
const MAX_FIELDS: usize = 32;

// The most bytes that a text has.
const MAX_TEXT: u32 = 1024;

/// What a head asks for: all bytes of a request up to and with its first empty line. It takes no memory. Refused in the order
/// `LongHead`, `Head`, `Path`, `OnlyGet`, `OnlyPost` or `Method`; then for events `Word`, `LastEventId`, `Subject`, for an emission
/// `Origin`, `LinesWord`, `Length`, `Long`, `Key`, `Subject`, of which several texts are not refused by `Long`, for items of an observer `Origin`, `Observer`, `Items`, `Subject`, and for a stop `Origin`,
/// `Within`.
pub fn read_request(head: &[u8]) -> Result<Asked, Refusal>
    ensures read { IsReadOfHead head.now result }
    ensures whole { (request : RequestHead) → IsHead head.now request → HeadAsksFor request result }
{
    if head.len() > MAX_HEAD {
        return Err(Refusal::LongHead);
    }
    let mut fields = [EMPTY_HEADER_SPAN; MAX_FIELDS];
    match parse_request(head, &mut fields) {
        Ok(Status::Complete(parts)) => {
            if parts.len < head.len() {
                return Err(Refusal::Head);
            }
            let fields = &fields[..parts.headers];
            let known = field_in(head, fields, b"last-event-id");
            let is_foreign = is_foreign(
                field_in(head, fields, b"origin"),
                field_in(head, fields, b"host"),
            );
            let size = size_of_body(
                field_in(head, fields, b"transfer-encoding"),
                field_in(head, fields, b"content-length"),
            );
            let target = parts.path.of(head);
            let key = field_in(head, fields, b"idempotency-key");
            asked_for(parts.method.of(head), target, known, is_foreign, size, key)
        }
        Ok(Status::Partial) => Err(Refusal::Head),
        Err(Error::TooManyHeaders) => Err(Refusal::LongHead),
        Err(_) => Err(Refusal::Head),
    }
}

// The value of the first field of this name, which is told in small letters.
fn field_in<'a>(head: &'a [u8], fields: &[HeaderSpan], name: &[u8]) -> Option<&'a [u8]>
    requires small { str_to_ascii_lowercase name.now ≡ name.now }
    requires within { All (IsHeaderWithin (length head.now)) fields.now }
    ensures { option_map (λ value. value.now) result ≡ field_in name.now (map (header_bytes head.now) fields.now) }
{
    for field in fields {
        if field.name.of(head).eq_ignore_ascii_case(name) {
            return Some(field.value.of(head));
        }
    }
    None
}

// What a method, a target and the field of an id ask for, and what is said of who sent them, of the size of their body and of their key.
fn asked_for(
    method: &[u8],
    target: &[u8],
    known: Option<&[u8]>,
    is_foreign: bool,
    size: Option<u32>,
    key: Option<&[u8]>,
) -> Result<Asked, Refusal>
    ensures { AsksFor method.now target.now (option_map (λ word. word.now) known.entry) is_foreign size (option_map (λ word. word.now) key.entry) result }
{
    let (path, query) = cut(target, b'?');
    let is_get = method == b"GET".as_slice();
    if path == b"/healthz".as_slice() {
        return by_get(is_get, Asked::Health);
    }
    if let Some(form) = form_of(path) {
        return by_get(is_get, Asked::Look(form));
    }
    if path == b"/stop".as_slice() {
        return stop_asked_for(method, query, is_foreign);
    }
    match path.strip_prefix(b"/subjects/".as_slice()) {
        Some(rest) => subject_asked_for(method, rest, query, known, is_foreign, size, key),
        None => Err(Refusal::Path),
    }
}

// What a method asks for at this path below the subjects.
fn subject_asked_for(
    method: &[u8],
    rest: &[u8],
    query: &[u8],
    known: Option<&[u8]>,
    is_foreign: bool,
    size: Option<u32>,
    key: Option<&[u8]>,
) -> Result<Asked, Refusal>
    ensures { AsksAt (subject_route method.now rest.now) query.now (option_map (λ word. word.now) known.entry) is_foreign size (option_map (λ word. word.now) key.entry) result }
{
    if method == b"GET".as_slice() {
        events_asked_for(rest, query, known)
    } else if method == b"POST".as_slice() {
        post_asked_for(rest, query, is_foreign, size, key)
    } else {
        Err(Refusal::Method)
    }
}

// How who looks by this path is told what is seen; None where nobody looks by it.
fn form_of(path: &[u8]) -> Option<LookForm>
    ensures { result ≡ form_of path.now }
{
    if path == b"/stats".as_slice() {
        Some(LookForm::Stats)
    } else if path == b"/metrics".as_slice() {
        Some(LookForm::Metrics)
    } else if path == b"/stats.txt".as_slice() {
        Some(LookForm::Lines)
    } else if path == b"/".as_slice() {
        Some(LookForm::Page)
    } else {
        None
    }
}

// What is asked for where GET alone is served.
fn by_get(is_get: bool, asked: Asked) -> Result<Asked, Refusal>
    ensures { MatchBool is_get (result ≡ Ok asked) (result ≡ Err Refusal.OnlyGet) }
{
    if is_get {
        Ok(asked)
    } else {
        Err(Refusal::OnlyGet)
    }
}

// What a method asks for at the path of a stop.
fn stop_asked_for(method: &[u8], query: &[u8], is_foreign: bool) -> Result<Asked, Refusal>
    ensures { (field : Option (List ℕ)) (size : Option ℕ) (key : Option (List ℕ)) → AsksAt (stop_route method.now) query.now field is_foreign size key result }
{
    if method == b"POST".as_slice() {
        stop_of(query, is_foreign)
    } else {
        Err(Refusal::OnlyPost)
    }
}

// The stop that a query says.
fn stop_of(query: &[u8], is_foreign: bool) -> Result<Asked, Refusal>
    ensures { AsksForStop query.now is_foreign result }
{
    if is_foreign {
        return Err(Refusal::Origin);
    }
    match within_of(query) {
        Some(within) => Ok(Asked::Stop { within }),
        None => Err(Refusal::Within),
    }
}

// What is asked for by a POST at this path below the subjects: items for an observer, or an emission, of several items too.
fn post_asked_for(
    rest: &[u8],
    query: &[u8],
    is_foreign: bool,
    size: Option<u32>,
    key: Option<&[u8]>,
) -> Result<Asked, Refusal>
    ensures { (field : Option (List ℕ)) → AsksAt (post_route rest.now) query.now field is_foreign size (option_map (λ word. word.now) key.entry) result }
{
    let (name, end) = cut(rest, b'/');
    if end == b"end".as_slice() {
        emission_of(name, NoteKind::Completed, is_foreign, size, key)
    } else if end == b"fail".as_slice() {
        emission_of(name, NoteKind::Failed, is_foreign, size, key)
    } else if let Some(word) = end.strip_prefix(b"observers/".as_slice()) {
        request_of(name, word, query, is_foreign)
    } else {
        item_of(rest, query, is_foreign, size, key)
    }
}

// The emission of an item at the subject of this name, or of one for each line of the body, as the query says.
fn item_of(
    name: &[u8],
    query: &[u8],
    is_foreign: bool,
    size: Option<u32>,
    key: Option<&[u8]>,
) -> Result<Asked, Refusal>
    ensures { AsksForItem name.now query.now is_foreign size (option_map (λ word. word.now) key.entry) result }
{
    match lines_in(query) {
        Some(false) => emission_of(name, NoteKind::Next, is_foreign, size, key),
        Some(true) => texts_of(name, is_foreign, size, key),
        None if is_foreign => Err(Refusal::Origin),
        None => Err(Refusal::LinesWord),
    }
}

// The emission of an item for each line of a body of this size, at the subject of this name. A key names one item alone.
fn texts_of(
    name: &[u8],
    is_foreign: bool,
    size: Option<u32>,
    key: Option<&[u8]>,
) -> Result<Asked, Refusal>
    ensures { AsksForTexts name.now is_foreign size (option_map (λ word. word.now) key.entry) result }
{
    if is_foreign {
        return Err(Refusal::Origin);
    }
    let Some(size) = size else {
        return Err(Refusal::Length);
    };
    if key.is_some() {
        return Err(Refusal::Key);
    }
    match Name::new(name) {
        Some(subject) => Ok(Asked::Texts { subject, size }),
        None => Err(Refusal::Subject),
    }
}

// The emission of a note at the subject of this name, with a body of this size, and by this key, if there is one.
fn emission_of(
    name: &[u8],
    kind: NoteKind,
    is_foreign: bool,
    size: Option<u32>,
    key: Option<&[u8]>,
) -> Result<Asked, Refusal>
    ensures { AsksForEmission name.now kind is_foreign size (option_map (λ word. word.now) key.entry) result }
{
    if is_foreign {
        return Err(Refusal::Origin);
    }
    let Some(size) = size else {
        return Err(Refusal::Length);
    };
    if size > MAX_TEXT {
        return Err(Refusal::Long);
    }
    let Some(key) = key_of(key) else {
        return Err(Refusal::Key);
    };
    match Name::new(name) {
        Some(subject) => {
            Ok(Asked::Emission {
                subject,
                kind,
                size,
                key,
            })
        }
        None => Err(Refusal::Subject),
    }
}

// The request of items for the observer of this word at the subject of this name.
fn request_of(name: &[u8], word: &[u8], query: &[u8], is_foreign: bool) -> Result<Asked, Refusal>
    ensures { AsksForRequest name.now word.now query.now is_foreign result }
{
    if is_foreign {
        return Err(Refusal::Origin);
    }
    let Some(observer) = ObserverId::read(word) else {
        return Err(Refusal::Observer);
    };
    let Some(items) = items_of(query) else {
        return Err(Refusal::Items);
    };
    match Name::new(name) {
        Some(subject) => {
            Ok(Asked::Request {
                subject,
                observer,
                items,
            })
        }
        None => Err(Refusal::Subject),
    }
}

// What a query and the field of an id ask for of the events of the subject of this name.
fn events_asked_for(name: &[u8], query: &[u8], known: Option<&[u8]>) -> Result<Asked, Refusal>
    ensures { AsksForEvents name.now query.now (option_map (λ word. word.now) known.entry) result }
{
    let (Some(policy), Some(credit)) = (policy_of(query), credit_of(query)) else {
        return Err(Refusal::Word);
    };
    let Some(known) = known_in(query, known) else {
        return Err(Refusal::LastEventId);
    };
    match Name::new(name) {
        Some(subject) => {
            Ok(Asked::Events {
                subject,
                policy,
                credit,
                known,
            })
        }
        None => Err(Refusal::Subject),
    }
}

// What a reader says that it knows, in a field or in its query.
fn known_in(query: &[u8], field: Option<&[u8]>) -> Option<Option<Id>>
    ensures { IsFound (SaysKnown (known_word (option_map (λ word. word.now) field.entry) query.now)) result }
{
    if let Some(word) = field {
        return known_of(word);
    }
    match word_of(query, b"last-event-id=", b"") {
        Some(word) => known_of(word.as_bytes()),
        None => None,
    }
}

fn known_of(word: &[u8]) -> Option<Option<Id>>
    ensures { IsFound (SaysKnown word.now) result }
{
    if word.is_empty() {
        return Some(None);
    }
    match Id::read(word) {
        Some(id) => Some(Some(id)),
        None => None,
    }
}
