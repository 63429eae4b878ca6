use std::os::unix::fs::MetadataExt;
use std::rt::Files;
use std::{fs, io};

const NANOS: u64 = 1_000_000_000;

/// Which server is at a path: when its socket was made, in nanoseconds since 1970, and the number of its file. A server makes its
/// socket anew each time that it begins.
#[derive(Clone, Copy, Debug, PartialEq, Eq)]
pub struct Epoch {
    pub made: u64,
    pub file: u64,
}

impl Epoch {
    /// That of the server at this path. Refused by the system, as where nothing stands there.
    pub fn at(rt: &impl Files, path: &str) -> io::Result<Epoch> {
        let socket = fs::metadata(rt, path)?;
        let seconds = u64::try_from(socket.mtime()).unwrap_or(0);
        let nanos = u64::try_from(socket.mtime_nsec()).unwrap_or(0);
        Ok(Epoch {
            made: seconds.saturating_mul(NANOS).saturating_add(nanos),
            file: socket.ino(),
        })
    }
}
