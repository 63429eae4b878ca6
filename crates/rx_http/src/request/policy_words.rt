// The words by which a reader chooses a strategy, an error mode and its credit, and asks for items; and by which a server is stopped.
ghost use Rattle.std.specs.Prelude.{◌↔◌, IsTrue, codes, decimal};
ghost use Rattle.rx_http.specs.Queries.{word_in};
ghost use Rattle.rx_http.specs.Words.{HasCredit, HasPace, HasPolicy, HasShortRoom, HasWindow, HasWithin, IsAnyErrors, IsAsking, IsFound, IsNumber, IsPace, IsReadOf, IsRoom, IsWindow, IsWithin, credit_word, errors_word, items_word, strategy_word};

use crate::Credit;
use crate::number::number_of;
use crate::request::query::word_of;
use rx_note::{Errors, Policy, Strategy};

// The most items that may be on their way to a reader at a time.
const MAX_WINDOW: u32 = 16;

// The most milliseconds that may be between two items of a reader.
const MAX_PACE: u32 = 60_000;

// The most seconds that a server that stops may wait.
const MAX_WITHIN: u32 = 3_600;

/// The policy that the words of a query say: BUFFER and DELAY where it has none.
pub(crate) fn policy_of(query: &[u8]) -> Option<Policy>
    ensures { IsFound (HasPolicy query.now) result }
{
    let strategy = strategy_in(query)?;
    let errors = errors_in(query)?;
    match Policy::new(strategy, errors) {
        Ok(policy) => Some(policy),
        Err(_) => None,
    }
}

/// The credit that the words of a query say: 16 items, of which the socket has more asked for, as they come, where it has none.
pub(crate) fn credit_of(query: &[u8]) -> Option<Credit>
    ensures { IsFound (HasCredit query.now) result }
{
    let window = window_of(query)?;
    let asked = asked_in(query)?;
    let pace = pace_of(query)?;
    Some(Credit {
        window,
        asked,
        pace,
    })
}

/// How many items the words of a query ask for: one where it has none.
pub(crate) fn items_of(query: &[u8]) -> Option<u32>
    ensures { IsReadOf IsNumber decimal (items_word query.now) result }
{
    number_in(query, b"request=", b"1")
}

/// How many seconds a server that stops waits at most, by the words of a query: 10 where it has none.
pub(crate) fn within_of(query: &[u8]) -> Option<u32>
    ensures { IsFound (HasWithin query.now) result }
{
    match number_in(query, b"within=", b"10") {
        Some(within) if is_within(within) => Some(within),
        _ => None,
    }
}

fn is_within(number: u32) -> bool
    ensures { IsTrue result ↔ IsWithin number }
{
    number <= MAX_WITHIN
}

// The window that the words of a query say: 16 where it has none.
fn window_of(query: &[u8]) -> Option<u32>
    ensures { IsFound (HasWindow query.now) result }
{
    match number_in(query, b"window=", b"16") {
        Some(window) if is_window(window) => Some(window),
        _ => None,
    }
}

fn is_window(number: u32) -> bool
    ensures { IsTrue result ↔ IsWindow number }
{
    1 <= number && number <= MAX_WINDOW
}

// The pace that the words of a query say: none where it has none.
fn pace_of(query: &[u8]) -> Option<u32>
    ensures { IsFound (HasPace query.now) result }
{
    match number_in(query, b"pace=", b"0") {
        Some(pace) if is_pace(pace) => Some(pace),
        _ => None,
    }
}

fn is_pace(number: u32) -> bool
    ensures { IsTrue result ↔ IsPace number }
{
    number <= MAX_PACE
}

// The strategy of a query, with any room of 16 bits.
fn strategy_in(query: &[u8]) -> Option<Strategy>
    ensures { IsReadOf HasShortRoom strategy_word (word_in (codes "strategy=") (codes "BUFFER") query.now) result }
{
    match word_of(query, b"strategy=", b"BUFFER") {
        Some(word) => strategy_of(word.as_bytes()),
        None => None,
    }
}

// The strategy of a word, with any room of 16 bits.
fn strategy_of(word: &[u8]) -> Option<Strategy>
    ensures { IsReadOf HasShortRoom strategy_word word.now result }
{
    if word == b"BUFFER".as_slice() {
        return Some(Strategy::Buffer);
    }
    if let Some(digits) = word.strip_prefix(b"DROP:".as_slice()) {
        return Some(Strategy::Drop(room_of(digits)?));
    }
    if let Some(digits) = word.strip_prefix(b"LATEST:".as_slice()) {
        return Some(Strategy::Latest(room_of(digits)?));
    }
    if let Some(digits) = word.strip_prefix(b"BOUNDED:".as_slice()) {
        return Some(Strategy::Bounded(room_of(digits)?));
    }
    None
}

fn room_of(digits: &[u8]) -> Option<u16>
    ensures { IsReadOf IsRoom decimal digits.now result }
{
    match u16::try_from(number_of(digits)?) {
        Ok(room) => Some(room),
        Err(_) => None,
    }
}

// The error mode of a query.
fn errors_in(query: &[u8]) -> Option<Errors>
    ensures { IsReadOf IsAnyErrors errors_word (word_in (codes "errors=") (codes "DELAY") query.now) result }
{
    match word_of(query, b"errors=", b"DELAY") {
        Some(word) => errors_of(word.as_bytes()),
        None => None,
    }
}

fn errors_of(word: &[u8]) -> Option<Errors>
    ensures { IsReadOf IsAnyErrors errors_word word.now result }
{
    if word == b"AHEAD".as_slice() {
        Some(Errors::Ahead)
    } else if word == b"DELAY".as_slice() {
        Some(Errors::Delay)
    } else {
        None
    }
}

// Who asks for the items of a reader, by a query: it does itself, or else its socket.
fn asked_in(query: &[u8]) -> Option<bool>
    ensures { IsReadOf IsAsking credit_word (word_in (codes "credit=") (codes "socket") query.now) result }
{
    match word_of(query, b"credit=", b"socket") {
        Some(word) => asked_of(word.as_bytes()),
        None => None,
    }
}

fn asked_of(word: &[u8]) -> Option<bool>
    ensures { IsReadOf IsAsking credit_word word.now result }
{
    if word == b"asked".as_slice() {
        Some(true)
    } else if word == b"socket".as_slice() {
        Some(false)
    } else {
        None
    }
}

// The number of a key of a query, or of another word where it has none.
fn number_in(query: &[u8], key: &[u8], other: &[u8]) -> Option<u32>
    ensures { IsReadOf IsNumber decimal (word_in key.now other.now query.now) result }
{
    match word_of(query, key, other) {
        Some(word) => number_of(word.as_bytes()),
        None => None,
    }
}
