// The program reads standard input directly, in blocks of 8,192 bytes, and gathers answers in a block of the same size;
// neither takes memory from the heap. A line is found in its block and parsed where it stands.
ghost use Rattle.std.specs.Prelude.{length, ◌≤◌, ◌<◌, ◌≡◌, drop, take, []};
ghost use Rattle.rx_lines.specs.Windows.{FindsLf, Fills, count_of};

use crate::line_feed::first_lf;
use std::io;
use std::io::Read;
use std::marker::Model;

/// The bytes that a window has room for.
pub(crate) const BLOCK: usize = 8192;

/// A window on the bytes of a reader: what was read and not yet let go. Contracts see a window as the list of those
/// bytes.
///
/// They stand in one block, and letting go of the front moves none of them.
#[derive(Drop)]
pub(crate) struct Window {
    block: [u8; BLOCK],
    start: usize,
    searched: usize,
    end: usize,
}

impl Model for Window {
    ghost use Rattle.std.specs.Prelude.{List, ℕ};
    ghost use Rattle.std.specs.List.{between};
    ghost use Rattle.rx_lines.specs.Windows.{IsWindow};

    ghost Value = { List ℕ };

    ghost view = { λ w. between w.start w.end w.block };

    ghost invariant = { λ w. IsWindow w.block w.start w.searched w.end };
}

impl Window {
    /// The window with no bytes.
    #[inline(always)] // so that its block is made where it stays
    pub(crate) fn new() -> Window
        ensures { result ≡ [] }
    {
        Window {
            block: [0; BLOCK],
            start: 0,
            searched: 0,
            end: 0,
        }
    }

    /// How many bytes it has.
    pub(crate) fn len(&self) -> usize
        ensures len { result ≡ length self.now }
        ensures within { result ≤ 8192 }
    {
        self.end - self.start
    }

    /// Its first bytes.
    pub(crate) fn front(&self, len: usize) -> &[u8]
        requires { len ≤ length self.now }
        ensures { result.now ≡ take len self.now }
    {
        &self.block[self.start..self.start + len]
    }

    /// Whether this byte stands behind so many.
    pub(crate) fn has_at(&self, place: usize, byte: u8) -> bool
        requires { place ≤ length self.now }
    {
        let at = self.start + place;
        at < self.end && self.block[at] == byte
    }

    /// Lets go of its first bytes.
    pub(crate) fn drop_front(&mut self, len: usize)
        requires { len ≤ length self.old }
        ensures { self.new ≡ drop len self.old }
    {
        self.start += len;
        self.searched = self.searched.max(self.start);
    }

    /// Lets go of all its bytes.
    pub(crate) fn clear(&mut self)
        ensures { self.new ≡ [] }
    {
        self.start = 0;
        self.searched = 0;
        self.end = 0;
    }

    /// How many bytes stand before its first LF. None where no LF is among its bytes. No byte is searched twice.
    pub(crate) fn find_lf(&mut self) -> Option<usize>
        ensures kept { self.new ≡ self.old }
        ensures found { FindsLf result self.new }
        ensures within { length self.new ≤ 8192 }
    {
        match first_lf(&self.block[self.searched..self.end]) {
            Some(ahead) => {
                self.searched += ahead;
                Some(self.searched - self.start)
            }
            None => {
                self.searched = self.end;
                None
            }
        }
    }

    /// One read, behind its bytes. How many bytes came: none only at the end of the input.
    pub(crate) fn read_from<R: Read>(&mut self, reader: &mut R) -> io::Result<usize>
        requires { length self.old < 8192 }
        ensures fills { Fills result (R.remaining reader.old) (R.remaining reader.new) self.old self.new }
        ensures within { length self.new ≤ 8192 }
    {
        // What is left of a line goes to the front, so that the read has room for nearly a whole block.
        self.block.copy_within(self.start..self.end, 0);
        self.searched -= self.start;
        self.end -= self.start;
        self.start = 0;
        let result = reader.read(&mut self.block[self.end..]);
        self.end += count_of(&result);
        result
    }
}

// How many bytes a read gave, none where it failed.
fn count_of(read: &io::Result<usize>) -> usize
    ensures { result ≡ count_of read.now }
{
    match read {
        Ok(count) => *count,
        Err(_) => 0,
    }
}
