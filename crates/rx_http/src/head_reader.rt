// One empty line before a head is passed over, and two are none. So a head ends with the first empty line of its connection,
// whatever stands before it, and is looked for without being parsed: each byte is searched once, however the reads are cut.
// That this is the head of the grammar is a law.
ghost use Rattle.std.specs.Prelude.{◌≡◌, ◌<◌, ◌≤◌, ◌+◌, [], drop, length, take, MatchOption};
ghost use Rattle.rx_http.specs.Heads.{FindsHead, Gathers, HasNoHead, IsHeadAt, NoneBelow, count_of, ends_empty};

pub(crate) mod head_found;

use crate::{HeadFound, MAX_HEAD};
use std::io;
use std::io::Read;
use std::marker::Model;

/// The first bytes of a connection, which are gathered, read by read, until the head of its request is among them. It takes no
/// memory. Contracts see it as the list of the bytes that came.
///
/// However the reads are cut, what is handed on of the head and of the bytes behind it is together what came, and no byte is
/// searched twice.
#[derive(Drop)]
pub struct HeadReader {
    block: [u8; MAX_HEAD],
    len: usize,
    // No front of the bytes that is shorter ends with an empty line.
    searched: usize,
}

impl Model for HeadReader {
    ghost use Rattle.std.specs.Prelude.{List, ℕ, take};
    ghost use Rattle.rx_http.specs.HeadBlocks.{IsHeadBlock};

    ghost Value = { List ℕ };

    ghost view = { λ r. take r.len r.block };

    ghost invariant = { λ r. IsHeadBlock r.block r.len r.searched };
}

impl HeadReader {
    /// No byte came yet.
    #[inline(always)] // so that its block is made where it stays
    pub fn new() -> HeadReader
        ensures { result ≡ [] }
    {
        HeadReader {
            block: [0; MAX_HEAD],
            len: 0,
            searched: 0,
        }
    }

    /// How much of the head is among the bytes.
    pub fn find(&mut self) -> HeadFound
        ensures found { FindsHead result self.new }
        ensures kept { self.new ≡ self.old }
    {
        match head_len(&self.block[..self.len], self.searched) {
            Some(len) => {
                self.searched = len;
                HeadFound::Whole(len)
            }
            None => {
                self.searched = self.len + 1;
                if self.len < MAX_HEAD {
                    HeadFound::Partly
                } else {
                    HeadFound::TooLong
                }
            }
        }
    }

    /// One read, behind the bytes that came. How many bytes it gave: none only at the end of the connection.
    pub fn read_from<R: Read>(&mut self, reader: &mut R) -> io::Result<usize>
        requires { length self.old < 8192 }
        ensures { Gathers result (R.remaining reader.old) (R.remaining reader.new) self.old self.new }
    {
        let result = reader.read(&mut self.block[self.len..]);
        self.len += count_of(&result);
        result
    }

    /// The first bytes, so many: the head, where that is its length.
    pub fn head(&self, len: usize) -> &[u8]
        requires { len ≤ length self.now }
        ensures { result.now ≡ take len self.now }
    {
        &self.block[..len]
    }

    /// The bytes behind the first, so many.
    pub fn behind(&self, len: usize) -> &[u8]
        requires { len ≤ length self.now }
        ensures { result.now ≡ drop len self.now }
    {
        &self.block[len..self.len]
    }
}

// How many bytes the head at the front of these has, of which no front that is shorter than `from` ends with an empty line.
fn head_len(bytes: &[u8], from: usize) -> Option<usize>
    requires within { from ≤ length bytes.now + 1 }
    requires passed { NoneBelow from bytes.now }
    ensures { MatchOption result (HasNoHead bytes.now) (λ len. IsHeadAt len bytes.now) }
{
    for len in from..bytes.len() + 1 {
        if ends_empty(&bytes[..len]) {
            return Some(len);
        }
    }
    None
}

// Whether the bytes end with an empty line.
fn ends_empty(bytes: &[u8]) -> bool
    ensures { result ≡ ends_empty bytes.now }
{
    bytes.ends_with(b"\n\n".as_slice()) || bytes.ends_with(b"\n\r\n".as_slice())
}

// How many bytes a read gave, none where it failed.
fn count_of(read: &io::Result<usize>) -> usize
    ensures { result ≡ count_of read.now }
{
    match read {
        Ok(count) => *count,
        Err(_) => 0,
    }
}
