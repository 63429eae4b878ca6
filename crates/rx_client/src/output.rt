// What a subscriber prints of what it is told, in words or as JSON.
ghost use Rattle.std.specs.Prelude.{◌≡◌, ◌++◌, ◌<◌, ℕ, List, OnOk, codes, decimal};
ghost use Rattle.rx_client.specs.Printed.{HasItem, HasMembers, Quotes, Prints, digit, hexed, in_hex, in_quotes, plain_text, quoted};

use crate::{Format, Told};
use itoa::Buffer;
use rx_heap::{Heap, Memory};

/// Puts what is printed of what is told behind what stands in a block: a line, or nothing.
pub(crate) fn put_told(
    block: &mut Vec<u8, Heap>,
    told: &Told<'_>,
    format: Format,
) -> Result<(), Memory>
    ensures { OnOk result ((text : List ℕ) × Prints format told.now text × (block.new.items ≡ block.old.items ++ text)) }
{
    match format {
        Format::Plain => put_plain(block, told),
        Format::Json => put_json(block, told),
    }
}

fn put_plain(block: &mut Vec<u8, Heap>, told: &Told<'_>) -> Result<(), Memory>
    ensures { OnOk result (block.new.items ≡ block.old.items ++ plain_text told.now) }
{
    match told {
        Told::Item { text, .. } | Told::Seed(text) => {
            put_word(block, text)?;
            put_word(block, b"\n")?;
        }
        Told::Missed { .. }
        | Told::MissedFrom(_)
        | Told::Lost(_)
        | Told::Overflow
        | Told::Done
        | Told::Failed(_) => {}
    }
    Ok(())
}

fn put_json(block: &mut Vec<u8, Heap>, told: &Told<'_>) -> Result<(), Memory>
    ensures { OnOk result ((line : List ℕ) × Prints Format.Json told.now line × (block.new.items ≡ block.old.items ++ line)) }
{
    put_members(block, told)?;
    put_word(block, b"}\n")
}

// The members of an object, without its last brace.
fn put_members(block: &mut Vec<u8, Heap>, told: &Told<'_>) -> Result<(), Memory>
    ensures { OnOk result ((members : List ℕ) × HasMembers told.now members × (block.new.items ≡ block.old.items ++ members)) }
{
    match told {
        Told::Item { place, from, text } => put_item(block, *place, *from, text),
        Told::Seed(text) => put_text(block, b"{\"place\":null,\"port\":null,", text),
        Told::Missed { first, last } => put_missed(block, *first, *last),
        Told::MissedFrom(first) => put_missed_from(block, *first),
        Told::Lost(place) => put_number(block, b"{\"lost\":", *place),
        Told::Overflow => put_word(block, b"{\"overflow\":true"),
        Told::Done => put_word(block, b"{\"done\":true"),
        Told::Failed(text) => put_text(block, b"{\"failed\":true,", text),
    }
}

fn put_item(block: &mut Vec<u8, Heap>, place: u32, from: u32, text: &[u8]) -> Result<(), Memory>
    ensures { OnOk result ((members : List ℕ) × HasItem place from text.now members × (block.new.items ≡ block.old.items ++ members)) }
{
    put_number(block, b"{\"place\":", u64::from(place))?;
    put_number(block, b",\"port\":", u64::from(from))?;
    put_text(block, b",", text)?;
    Ok(())
}

fn put_missed(block: &mut Vec<u8, Heap>, first: u64, last: u64) -> Result<(), Memory>
    ensures { OnOk result (block.new.items ≡ block.old.items ++ ((codes "{\"missed\":" ++ decimal first) ++ (codes ",\"to\":" ++ decimal last))) }
{
    put_number(block, b"{\"missed\":", first)?;
    put_number(block, b",\"to\":", last)?;
    Ok(())
}

fn put_missed_from(block: &mut Vec<u8, Heap>, first: u64) -> Result<(), Memory>
    ensures { OnOk result (block.new.items ≡ block.old.items ++ ((codes "{\"missed\":" ++ decimal first) ++ codes ",\"to\":null")) }
{
    put_number(block, b"{\"missed\":", first)?;
    put_word(block, b",\"to\":null")?;
    Ok(())
}

/// Puts these bytes.
pub(crate) fn put_word(block: &mut Vec<u8, Heap>, word: &[u8]) -> Result<(), Memory>
    ensures { OnOk result (block.new.items ≡ block.old.items ++ word.now) }
{
    block.extend_from_slice(word)?;
    Ok(())
}

fn put_number(block: &mut Vec<u8, Heap>, key: &[u8], number: u64) -> Result<(), Memory>
    ensures { OnOk result (block.new.items ≡ block.old.items ++ (key.now ++ decimal number)) }
{
    put_word(block, key)?;
    put_word(block, Buffer::new().format(number).as_bytes())
}

// A text under the key `text`, or, where it is no UTF-8, its bytes in hexadecimal digits under the key `hex`.
fn put_text(block: &mut Vec<u8, Heap>, before: &[u8], text: &[u8]) -> Result<(), Memory>
    ensures { OnOk result ((said : List ℕ) × Quotes text.now said × (block.new.items ≡ block.old.items ++ (before.now ++ said))) }
{
    put_word(block, before)?;
    if str::from_utf8(text).is_ok() {
        put_quoted(block, text)
    } else {
        put_hex(block, text)
    }
}

fn put_quoted(block: &mut Vec<u8, Heap>, text: &[u8]) -> Result<(), Memory>
    ensures { OnOk result (block.new.items ≡ block.old.items ++ in_quotes text.now) }
{
    put_word(block, b"\"text\":\"")?;
    for byte in text {
        put_escaped(block, *byte)?;
    }
    put_word(block, b"\"")
}

fn put_hex(block: &mut Vec<u8, Heap>, text: &[u8]) -> Result<(), Memory>
    ensures { OnOk result (block.new.items ≡ block.old.items ++ in_hex text.now) }
{
    put_word(block, b"\"hex\":\"")?;
    for byte in text {
        put_digits(block, *byte)?;
    }
    put_word(block, b"\"")
}

// A byte of a text between quotes: quotes, the backslash and control characters are escaped.
fn put_escaped(block: &mut Vec<u8, Heap>, byte: u8) -> Result<(), Memory>
    ensures { OnOk result (block.new.items ≡ block.old.items ++ quoted byte) }
{
    if byte == b'"' || byte == b'\\' {
        block.push(b'\\')?;
        block.push(byte)?;
    } else if byte < 32 {
        block.extend_from_slice(b"\\u00")?;
        put_digits(block, byte)?;
    } else {
        block.push(byte)?;
    }
    Ok(())
}

// Two hexadecimal digits.
fn put_digits(block: &mut Vec<u8, Heap>, byte: u8) -> Result<(), Memory>
    ensures { OnOk result (block.new.items ≡ block.old.items ++ hexed byte) }
{
    block.push(digit(byte / 16))?;
    block.push(digit(byte % 16))?;
    Ok(())
}

fn digit(value: u8) -> u8
    requires { value < 16 }
    ensures { result ≡ digit value }
{
    if value < 10 {
        b'0' + value
    } else {
        b'a' + (value - 10)
    }
}
