// The bytes of each line that is written.
ghost use Rattle.std.specs.Prelude.{◌≡◌, ◌≤◌, ◌+◌, [], ◌∷◌, ◌++◌, length, decimal};
ghost use Rattle.rx_proto.specs.Printing.{reply_line, joined_line, note_line, origin_of};
ghost use Rattle.rx_proto.specs.declared.version.Version.TheVariants.{One, Two};

use crate::decimal::{MAX_DIGITS, write_digits};
use crate::line_bytes::LineBytes;
use crate::{Response, Word};
use rx_note::{Item, Note};

// The most bytes of the line of a response.
const REPLY_LINE: usize = 16;

// The most bytes of the line that tells an observer its number.
const JOINED_LINE: usize = 18;

/// The most bytes of the line of a note with a short text, in both versions. The array that a line is put together in is
/// cleared whole, so a short one has a small array.
pub(crate) const SHORT_LINE: usize = 84;

/// The most bytes of a short text.
pub(crate) const SHORT_TEXT: usize = 56;

/// The most bytes of the line of a note with a text of middling length, in both versions.
pub(crate) const MIDDLING_LINE: usize = 284;

/// The most bytes of a text of middling length.
pub(crate) const MIDDLING_TEXT: usize = 256;

// The most bytes of what stands before its text there: two numbers of 32 bits, each with a space.
const ORIGIN: usize = 22;

/// The line of a response, with its LF.
pub fn reply_line(response: Response) -> LineBytes<REPLY_LINE>
    ensures { result ≡ reply_line response }
{
    let mut line = LineBytes::new();
    match response {
        Response::Joined(who) => {
            let mut digits = [0; MAX_DIGITS];
            let start = write_digits(who, &mut digits);
            line.put(b"OK ");
            line.put(&digits[start..]);
            line.put(b"\n");
        }
        Response::Done => line.put(b"OK\n"),
        Response::Refused(word) => line.put(refusal_line(word)),
    }
    line
}

/// The line of a refusal, with its LF.
pub fn refusal_line(word: Word) -> &'static [u8]
    ensures { result.now ≡ reply_line (Response.Refused word) }
{
    match word {
        Word::Long => b"ERR LONG\n",
        Word::Syntax => b"ERR SYNTAX\n",
        Word::Subject => b"ERR SUBJECT\n",
        Word::Ended => b"ERR ENDED\n",
        Word::Full => b"ERR FULL\n",
        Word::Spent => b"ERR SPENT\n",
        Word::Zero => b"ERR ZERO\n",
        Word::Observer => b"ERR OBSERVER\n",
        Word::TooMuch => b"ERR TOOMUCH\n",
        Word::Memory => b"ERR MEMORY\n",
        Word::Gone => b"ERR GONE\n",
        Word::Version => b"ERR VERSION\n",
    }
}

/// The line that tells an observer its number, with its LF.
pub(crate) fn joined_line(who: u32) -> LineBytes<JOINED_LINE>
    ensures { result ≡ joined_line who }
{
    let mut line = LineBytes::new();
    let mut number = [0; MAX_DIGITS];
    let first = write_digits(who, &mut number);
    line.put(b"JOINED ");
    line.put(&number[first..]);
    line.put(b"\n");
    line
}

/// How many bytes the text of a note has.
pub(crate) fn text_len(note: &Note) -> usize
    ensures line { length (note_line One note.now) ≤ result + 8 }
{
    match note {
        Note::Next(item) => item.text.as_bytes().len(),
        Note::Completed => 0,
        Note::Failed(text) => text.as_bytes().len(),
    }
}

/// Puts the line of a note in the first version, with its LF, into a line that is empty: one that a function answers would be moved.
pub(crate) fn put_note<const N: usize>(line: &mut LineBytes<N>, note: &Note)
    requires empty { line.old ≡ [] }
    requires room { length (note_line One note.now) ≤ N }
    ensures { line.new ≡ note_line One note.now }
{
    match note {
        Note::Next(item) => {
            line.put(b"NEXT ");
            line.put(item.text.as_bytes());
        }
        Note::Completed => line.put(b"DONE"),
        Note::Failed(text) => {
            line.put(b"FAILED ");
            line.put(text.as_bytes());
        }
    }
    line.put(b"\n");
}

/// Puts the line of an item in the second version, with its LF, into a line that is empty.
pub(crate) fn put_placed<const N: usize>(line: &mut LineBytes<N>, item: &Item)
    requires empty { line.old ≡ [] }
    requires room { length item.now.text + 28 ≤ N }
    ensures { line.new ≡ note_line Two (Note.Next item.now) }
{
    line.put(b"NEXT ");
    line.put(item_origin(item).as_bytes());
    line.put(item.text.as_bytes());
    line.put(b"\n");
}

/// What stands before the text of an item in the second version: its place and its port, or two hyphens of a seed.
pub fn item_origin(item: &Item) -> LineBytes<ORIGIN>
    ensures { result ≡ origin_of item.now }
{
    let mut origin = LineBytes::new();
    if item.is_seed() {
        origin.put(b"- - ");
    } else {
        put_number(&mut origin, item.place);
        put_number(&mut origin, item.from);
    }
    origin
}

// Puts the digits of a number and a space.
fn put_number(origin: &mut LineBytes<ORIGIN>, number: u32)
    requires { length origin.old ≤ 11 }
    ensures bytes { origin.new ≡ origin.old ++ (decimal number ++ (32 ∷ [])) }
    ensures within { length origin.new ≤ length origin.old + 11 }
{
    let mut digits = [0; MAX_DIGITS];
    let start = write_digits(number, &mut digits);
    origin.put(&digits[start..]);
    origin.put(b" ");
}
