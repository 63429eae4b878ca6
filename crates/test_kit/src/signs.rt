//! The signs of which scripts and what is told of them are made: a letter is the item of port and place 0 with this text, a capital
//! letter a seed whose text is the small one, `.` the completion, `!` the failure `x`, `%` the failure `OVERFLOW`, a digit a
//! number.

ghost use Rattle.std.specs.Prelude.{◌≤◌};

use rx_heap::{Heap, Memory};
use rx_note::{BadRoom, Errors, Event, Item, Kind, Limits, Note, Policy, Rules, Strategy, Text};

/// The text of these bytes, of which there are few, without a line feed.
pub fn text_of(heap: &Heap, bytes: &[u8]) -> Result<Text, Memory> {
    Text::new(heap.clone()?, bytes).map_err(|_| Memory)
}

/// The item of port and place 0 with this text.
pub fn item(heap: &Heap, text: &[u8]) -> Result<Item, Memory> {
    let text = text_of(heap, text)?;
    Ok(Item::new(text))
}

/// The policy of a strategy, with errors behind the items.
pub fn policy_of(strategy: Strategy) -> Result<Policy, BadRoom> {
    policy_by(strategy, Errors::Delay)
}

/// The policy of a strategy and an error mode.
pub fn policy_by(strategy: Strategy, errors: Errors) -> Result<Policy, BadRoom> {
    Policy::new(strategy, errors)
}

/// The port of a seed, which came by none.
pub const SEED_PORT: u32 = 4_294_967_295;

/// A kind as a table names it. It owns no memory: a seed is told by its one letter.
#[derive(Clone, Copy, Debug)]
pub enum Named {
    Publish,
    Behavior(Option<u8>),
    Async,
    /// By its count and its age.
    Replay(Option<u16>, Option<u64>),
}

/// The kind of this name.
pub fn kind_of(heap: &Heap, named: Named) -> Result<Kind, Memory> {
    match named {
        Named::Publish => Ok(Kind::Publish),
        Named::Behavior(None) => Ok(Kind::Behavior(None)),
        Named::Behavior(Some(letter)) => {
            let seed = text_of(heap, &[letter])?;
            Ok(Kind::Behavior(Some(seed)))
        }
        Named::Async => Ok(Kind::Async),
        Named::Replay(count, age) => Ok(Kind::Replay { count, age }),
    }
}

/// The rules of a kind, with the widest limits.
pub fn rules_of(kind: Kind) -> Rules
    ensures { result.limits.observers ≤ 64 }
{
    let limits = Limits {
        observers: 64,
        joins: 4_294_967_295,
        items: 4_294_967_295,
    };
    Rules { kind, limits }
}

/// The note of a sign.
pub fn note_of(heap: &Heap, sign: u8) -> Result<Note, Memory> {
    match sign {
        b'.' => Ok(Note::Completed),
        b'!' => Ok(Note::Failed(text_of(heap, b"x")?)),
        b'%' => Ok(Note::Failed(text_of(heap, b"OVERFLOW")?)),
        letter => Ok(Note::Next(item(heap, &[letter])?)),
    }
}

/// The event of a sign: `+` joins an observer by this policy with a first request, a digit requests so many items for
/// observer 0, `-` has it leave, any other emits its note.
pub fn event_of(heap: &Heap, policy: Policy, first: u32, sign: u8) -> Result<Event, Memory> {
    event_at(heap, policy, first, 0, sign)
}

/// The event of a sign at a moment, in milliseconds.
pub fn event_at(
    heap: &Heap,
    policy: Policy,
    first: u32,
    at: u64,
    sign: u8,
) -> Result<Event, Memory> {
    match sign {
        b'+' => Ok(Event::Join { policy, first, at }),
        b'0'..=b'9' => Ok(Event::Request {
            who: 0,
            n: u32::from(sign - b'0'),
        }),
        b'-' => Ok(Event::Dispose { who: 0 }),
        other => Ok(Event::Emit {
            note: note_of(heap, other)?,
            at,
        }),
    }
}

/// The sign of an item; `?` where it has none.
pub fn sign_of_item(item: &Item) -> u8 {
    match item.text.as_bytes() {
        [letter] if item.from == 0 => *letter,
        [letter] if item.from == SEED_PORT => letter.to_ascii_uppercase(),
        _ => b'?',
    }
}

/// The sign of a note; `?` where it has none.
pub fn sign_of(note: &Note) -> u8 {
    match note {
        Note::Next(item) => sign_of_item(item),
        Note::Completed => b'.',
        Note::Failed(text) => sign_of_failure(text),
    }
}

// The sign of a failure; `?` where it has none.
fn sign_of_failure(text: &Text) -> u8 {
    if text.as_bytes() == b"x".as_slice() {
        b'!'
    } else if text.as_bytes() == b"OVERFLOW".as_slice() {
        b'%'
    } else {
        b'?'
    }
}

/// The digit of a number; `+` where it has none.
pub fn digit_of(number: usize) -> u8 {
    match u8::try_from(number) {
        Ok(digit) if digit < 10 => b'0' + digit,
        _ => b'+',
    }
}
