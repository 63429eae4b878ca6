//! A connection that gives its bytes so many at a time, and one that holds what it is written.

use rx_heap::Heap;
use std::io;
use std::io::{ErrorKind, Read, Write};

/// Gives its bytes so many at a time, and then ends.
#[derive(Drop)]
pub(crate) struct Drips<'a> {
    pub(crate) rest: &'a [u8],
    pub(crate) step: usize,
    /// Each other read fails so.
    pub(crate) between: Option<ErrorKind>,
    /// It fails where it would end.
    pub(crate) fails: bool,
    // The last read gave bytes.
    gave: bool,
}

impl<'a> Drips<'a> {
    pub(crate) fn new(rest: &'a [u8], step: usize) -> Drips<'a> {
        Drips {
            rest,
            step,
            between: None,
            fails: false,
            gave: false,
        }
    }
}

impl<'a> Read for Drips<'a> {
    fn read(&mut self, buf: &mut [u8]) -> io::Result<usize> {
        self.gave = !self.gave;
        if let Some(kind) = self.between
            && self.gave
        {
            return Err(io::Error::from(kind));
        }
        if self.rest.is_empty() && self.fails {
            return Err(io::Error::from(ErrorKind::Other));
        }
        let len = self.step.min(self.rest.len()).min(buf.len());
        buf[..len].copy_from_slice(&self.rest[..len]);
        self.rest = &self.rest[len..];
        Ok(len)
    }
}

/// Holds what is written. So many flushes would block, and then one may fail.
#[derive(Drop)]
pub(crate) struct Page {
    pub(crate) held: Vec<u8, Heap>,
    pub(crate) blocks: u64,
    pub(crate) fails: bool,
}

impl Page {
    pub(crate) fn new(heap: Heap, blocks: u64) -> Page {
        Page {
            held: Vec::new(heap),
            blocks,
            fails: false,
        }
    }
}

impl Write for Page {
    fn write(&mut self, buf: &[u8]) -> io::Result<usize> {
        self.held.write(buf)
    }

    fn flush(&mut self) -> io::Result<()> {
        if self.blocks > 0 {
            self.blocks -= 1;
            return Err(io::Error::from(ErrorKind::WouldBlock));
        }
        if self.fails {
            return Err(io::Error::from(ErrorKind::Other));
        }
        Ok(())
    }
}
