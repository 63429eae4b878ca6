// A text of up to 20 bytes stands in the `Text` itself, which has 24 bytes in all: it takes no memory, and its copies count
// no owners. Its length and its bytes begin where a word or a half does, so that it is moved in whole words; where it was
// not, measured, a third of a script's way were reads that span two earlier writes. A longer one has its bytes in a block
// that its copies share, beside the count of its owners, at one growth. There are eight sizes of block, for up to 56 bytes to
// 1,024, since the toolchain's shared slice is a shared list, which takes two growths, and a block of just the right size is
// none of its types: so about half of a block is left over at most, save in the smallest, and about a third in those for more
// than 120 bytes (`long_block.rt`). So what waits takes 32 bytes an item beside its longer text, and an item with a short text
// costs its producer nothing. To contracts all are the list of their bytes. The forms have one drop, written by hand, so that
// a function that lets a text go has one path there and not two.
//
// A copy of a text takes no memory, and that of a longer one is refused only beyond 2^63 - 1 owners; the contract still
// allows the refusal, as std's does.
ghost use Rattle.std.specs.Prelude.{◌≡◌, ◌<◌, ◌≤◌, ◌↔◌, length, nat_eq, true, false, IfOk};
ghost use Rattle.std.specs.List.{list_any};
ghost use Rattle.std.specs.Cmp.{partial_equiv_from_equiv};
ghost use Rattle.std.specs.Cmp.Lexicographic.{nat_list_eq_equiv, pointwise};
ghost use Rattle.rx_note.specs.Fronts.{front_bytes, IsFront};
ghost use Rattle.rx_note.specs.Texts.{HasLf};

use crate::body::Body;
use crate::front::Front;
use rx_heap::{Heap, Memory};
use std::error::Error;
use std::fmt;
use std::marker::Model;

/// The most bytes that a text has.
pub const MAX_TEXT: usize = 1024;

const LF: u8 = b'\n';

// A text is three words, with the bytes of a short one.
const _: () = prove!(size_of::<Text>() == 24);

/// Why a text was refused.
#[derive(Clone, Copy, Debug, PartialEq, Eq)]
pub enum TextError {
    /// It has more than 1,024 bytes.
    TooLong,
    /// A line feed stands in it.
    HasLf,
    /// There was no memory for it.
    Memory,
}

impl fmt::Display for TextError {
    fn fmt<W: fmt::Write>(&self, f: &mut fmt::Formatter<W>) -> fmt::Result {
        f.write_str(match self {
            TextError::TooLong => "a text has at most 1024 bytes",
            TextError::HasLf => "a text has no line feed",
            TextError::Memory => "out of memory",
        })
    }
}

impl Error for TextError {}

/// What an item or an error says: 0 to 1,024 bytes of any kind but LF. Contracts see a text as the list of its bytes.
///
/// A text of up to 20 bytes takes no memory, a longer one one growth; the copies of all but the shortest share their bytes. The
/// limits are this project's own.
pub struct Text {
    body: Body,
}

// By hand: rx_heap says why.
impl Drop for Text {
    #[inline(always)] // a short one costs its holder a test
    fn drop(self) {
        let Text { body: _ } = self;
    }
}

impl Model for Text {
    ghost use Rattle.std.specs.Prelude.{◌≤◌, ◌≡◌, List, ℕ, length, nat_eq, false};
    ghost use Rattle.std.specs.List.{list_any};
    ghost use Rattle.rx_note.specs.Bodies.{bytes_of, IsWithin};

    ghost Value = { List ℕ };

    ghost view = { λ t. bytes_of t.body };

    ghost invariant = { λ t. (length (bytes_of t.body) ≤ 1024)
        × (list_any (λ b. nat_eq b 10) (bytes_of t.body) ≡ false)
        × IsWithin t.body };
}

impl Text {
    /// The text of these bytes. Refused in the order `TooLong`, `HasLf`, `Memory`.
    pub fn new(alloc: Heap, bytes: &[u8]) -> Result<Text, TextError>
        ensures ok { IfOk result (λ text. text ≡ bytes.now) }
        ensures too_long { (result ≡ Err TextError.TooLong) ↔ (1024 < length bytes.now) }
        ensures has_lf { (result ≡ Err TextError.HasLf)
            ↔ ((length bytes.now ≤ 1024) × HasLf bytes.now) }
    {
        if bytes.len() > MAX_TEXT {
            return Err(TextError::TooLong);
        }
        if bytes.contains(&LF) {
            return Err(TextError::HasLf);
        }
        match Text::of_line(alloc, bytes) {
            Ok(text) => Ok(text),
            Err(_) => Err(TextError::Memory),
        }
    }

    /// The text of bytes of a line that are known to be one, which are not looked through again.
    #[inline(always)] // a short one is made in its place
    pub fn of_line(alloc: Heap, bytes: &[u8]) -> Result<Text, Memory>
        requires within { length bytes.now ≤ 1024 }
        requires no_lf { list_any (λ b. nat_eq b 10) bytes.now ≡ false }
        ensures { IfOk result (λ text. text ≡ bytes.now) }
    {
        let body = Body::new(alloc, bytes)?;
        Ok(Text { body })
    }

    /// Becomes the text of bytes of a line that are known to be one, for which it takes no memory, where it stands in a block
    /// that has room for them and that no copy shares. Whether it did so; else it stays as it was.
    #[inline] // once for each line that a script refills a text from
    pub fn refill(&mut self, bytes: &[u8]) -> bool
        requires within { length bytes.now ≤ 1024 }
        requires no_lf { list_any (λ b. nat_eq b 10) bytes.now ≡ false }
        ensures filled { result ≡ true → self.new ≡ bytes.now }
        ensures kept { result ≡ false → self.new ≡ self.old }
    {
        self.body.refill(bytes)
    }

    /// Whether it stands in a block, which a text of more than 20 bytes does, so that it may be refilled.
    #[inline] // asked for each note that a script has printed
    pub fn has_block(&self) -> bool {
        self.body.has_block()
    }

    /// Its bytes.
    pub fn as_bytes(&self) -> &[u8]
        ensures bytes { result.now ≡ self.now }
        ensures within { length self.now ≤ 1024 }
        ensures no_lf { list_any (λ b. nat_eq b 10) self.now ≡ false }
    {
        self.body.as_bytes()
    }

    /// Its bytes, for one who copies them.
    #[inline(always)] // once for each note that is printed
    pub fn front(&self) -> Front<'_>
        ensures bytes { front_bytes result ≡ self.now }
        ensures within { IsFront result }
        ensures most { length self.now ≤ 1024 }
    {
        self.body.front()
    }

    /// An equal text; a long one shares the bytes.
    pub fn copy(&self) -> Result<Text, Memory>
        ensures { IfOk result (λ text. text ≡ self.now) }
    {
        let body = self.body.copy()?;
        Ok(Text { body })
    }
}

// As its bytes, wherever they stand.
impl fmt::Debug for Text {
    fn fmt<W: fmt::Write>(&self, f: &mut fmt::Formatter<W>) -> fmt::Result {
        fmt::Debug::fmt(self.as_bytes(), f)
    }
}

impl PartialEq for Text {
    ghost eq = { pointwise nat_eq };

    ghost laws = { partial_equiv_from_equiv nat_list_eq_equiv };

    fn eq(&self, other: &Self) -> bool {
        self.as_bytes() == other.as_bytes()
    }
}

impl Eq for Text {
    ghost laws = { nat_list_eq_equiv };
}
