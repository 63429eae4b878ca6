use crate::socket::link::Link;
use std::io;
use std::io::Write;
use std::net::Shutdown;

/// The writing half of a connection, which never waits. Once it is let go its peer hears the end, though the reading half may still
/// be watched.
pub(crate) struct Wire(Link);

impl Drop for Wire {
    fn drop(self) {
        let Wire(link) = self;
        let _ = link.shutdown(Shutdown::Both);
    }
}

impl Wire {
    pub(crate) fn of(link: Link) -> Wire {
        Wire(link)
    }
}

impl Write for Wire {
    fn write(&mut self, bytes: &[u8]) -> io::Result<usize> {
        let mut stream = &*self.0;
        stream.write(bytes)
    }

    fn flush(&mut self) -> io::Result<()> {
        Ok(())
    }
}
