use rx_heap::Heap;
use std::io::{self, BufRead, BufReader, ErrorKind, Write};
use std::net::Net;
use std::os::unix::net::UnixStream;

const LF: u8 = b'\n';

/// A connection to a server, by lines both ways.
pub(crate) struct Connection {
    peer: BufReader<UnixStream, Heap>,
    line: Vec<u8, Heap>,
}

// It stands here, and isn't derived, so that what lets go of a connection is one call that is proved once.
impl Drop for Connection {
    fn drop(self) {
        let Connection { peer: _, line: _ } = self;
    }
}

impl Connection {
    /// To the server at this path.
    pub(crate) fn to(net: &impl Net, heap: &Heap, path: &str) -> io::Result<Connection> {
        let stream = UnixStream::connect(net, path)?;
        Ok(Connection {
            peer: BufReader::new(heap.clone()?, stream)?,
            line: Vec::new(heap.clone()?),
        })
    }

    /// Sends these bytes. A fault may leave a front of them sent.
    pub(crate) fn send(&mut self, bytes: &[u8]) -> io::Result<()> {
        let mut stream = self.peer.get_ref();
        stream.write_all(bytes)
    }

    /// The next line, without its LF. Where the connection ends before one, `UnexpectedEof`.
    pub(crate) fn line(&mut self) -> io::Result<&[u8]> {
        self.line.clear();
        self.peer.read_until(LF, &mut self.line)?;
        match self.line.as_slice().strip_suffix(b"\n".as_slice()) {
            Some(line) => Ok(line),
            None => Err(io::Error::from(ErrorKind::UnexpectedEof)),
        }
    }
}
