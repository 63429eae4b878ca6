//! A writer with a bounded room.
use std::io::{self, ErrorKind, Write};
use test_kit::Told;

/// Takes so many bytes a call until it is full, and counts its writes and its flushes, one of which fails.
#[derive(Drop)]
pub(crate) struct Sheet {
    pub(crate) held: Told,
    pub(crate) step: usize,
    pub(crate) room: usize,
    pub(crate) writes: u64,
    pub(crate) flushes: u64,
    pub(crate) fails_at: u64,
}

impl Write for Sheet {
    fn write(&mut self, buf: &[u8]) -> io::Result<usize> {
        self.writes = self.writes.saturating_add(1);
        if self.held.len() >= self.room {
            return Err(io::Error::from(ErrorKind::Other));
        }
        let len = buf.len().min(self.step);
        self.held.put_all(&buf[..len]);
        Ok(len)
    }

    fn flush(&mut self) -> io::Result<()> {
        self.flushes = self.flushes.saturating_add(1);
        if self.flushes == self.fails_at {
            return Err(io::Error::from(ErrorKind::Other));
        }
        Ok(())
    }
}

/// One that takes a byte a call, so many in all.
pub(crate) fn blank(room: usize) -> Sheet {
    Sheet {
        held: Told::new(),
        step: 1,
        room,
        writes: 0,
        flushes: 0,
        fails_at: 0,
    }
}
