//! A reader that gives its bytes in pieces.
use std::io::{self, ErrorKind, Read};

/// Gives its bytes so many at a time. The first reads are interrupted, and one fails.
#[derive(Drop)]
pub(crate) struct Drips {
    pub(crate) rest: &'static [u8],
    pub(crate) step: usize,
    pub(crate) interrupted: u64,
    pub(crate) fails_at: u64,
    pub(crate) kind: ErrorKind,
    pub(crate) reads: u64,
}

impl Read for Drips {
    fn read(&mut self, buf: &mut [u8]) -> io::Result<usize> {
        self.reads = self.reads.saturating_add(1);
        if self.reads <= self.interrupted {
            return Err(io::Error::from(ErrorKind::Interrupted));
        }
        if self.reads == self.fails_at {
            return Err(io::Error::from(self.kind));
        }
        let len = self.step.min(self.rest.len()).min(buf.len());
        buf[..len].copy_from_slice(&self.rest[..len]);
        self.rest = &self.rest[len..];
        Ok(len)
    }
}

/// One that gives so many bytes a read, and has no fault.
pub(crate) fn dripping(rest: &'static [u8], step: usize) -> Drips {
    Drips {
        rest,
        step,
        interrupted: 0,
        fails_at: 0,
        kind: ErrorKind::Other,
        reads: 0,
    }
}
