//! The path of a server's socket, and the lock beside it.
//!
//! A path is taken over only where a socket stands there and refuses a connection, and only where the pool says so: a file,
//! or a server that listens, is never removed.
//!
//! A server locks a file beside its socket, and does not look at the socket of one that holds the lock. To look whether
//! somebody listens takes a connection, which that server counts; and between such a look and the removal of a socket that
//! was left another server may have taken the path. A lock has neither fault: it goes with its process, also where that is
//! killed, and one that is stopped keeps it. The file stays, since who removes it may take it from under another that has
//! opened it. At a socket of another program it is still looked, by a call that waits for nobody.

use crate::program::host::Host;
use crate::socket::obstacle::Obstacle;
use mio::net::UnixStream;
use std::fs::{self, File, TryLockError};
use std::io::{self, ErrorKind};
use std::os::unix::fs::{FileTypeExt, MetadataExt};
use std::os::unix::net::UnixListener;

/// The most bytes of a path.
const MAX_PATH: usize = 107;

/// A new Unix socket at this path, and the lock of the file beside it, whose name has `.lock` behind the socket's. A server holds
/// it as long as it lives, so that of two at one path one alone listens, and neither is looked at by a connection. With
/// `takeover`, a socket that stands there and on which nobody listens is removed first.
///
/// # Errors
///
/// What is in the way; nothing was removed.
pub(crate) fn listen<F: Host>(
    rt: &F,
    path: &str,
    takeover: bool,
) -> Result<(UnixListener, File), Obstacle> {
    let lock = lock_beside(rt, path)?;
    match standing(rt, path) {
        None => {}
        Some(Obstacle::Abandoned) if takeover => {
            fs::remove_file(rt, path).map_err(Obstacle::Refused)?;
        }
        Some(obstacle) => return Err(obstacle),
    }
    let listener = UnixListener::bind(rt, path).map_err(Obstacle::Refused)?;
    Ok((listener, lock))
}

/// What is in the way of a server at this path. None: nothing is. The file of the lock is made where there is none, and stays.
pub(crate) fn in_the_way<F: Host>(rt: &F, path: &str, takeover: bool) -> Option<Obstacle> {
    match lock_beside(rt, path) {
        Ok(_lock) => standing(rt, path).filter(|found| !(takeover && found.is_abandoned())),
        Err(obstacle) => Some(obstacle),
    }
}

/// What is in the way of a second socket of a server, beside one at another path at which it was looked already.
pub(crate) fn in_the_way_beside<F: Host>(
    rt: &F,
    path: &str,
    other: &str,
    takeover: bool,
) -> Option<Obstacle> {
    let obstacle = in_the_way(rt, path, takeover);
    match is_one_lock(rt, path, other) {
        Ok(true) => Some(Obstacle::Taken),
        _ => obstacle,
    }
}

// Whether the locks beside two paths are one file: then these are one path, however they are written.
fn is_one_lock<F: Host>(rt: &F, path: &str, other: &str) -> io::Result<bool> {
    let (mine, others) = (lock_of(rt, path)?, lock_of(rt, other)?);
    Ok(mine == others)
}

// By which the system knows the file of the lock beside a path.
fn lock_of<F: Host>(rt: &F, path: &str) -> io::Result<(u64, u64)> {
    let name = format!(in rt.alloc(); "{path}.lock")?;
    let found = fs::symlink_metadata(rt, name.as_str())?;
    Ok((found.dev(), found.ino()))
}

// The lock beside a path, which nobody else holds now.
fn lock_beside<F: Host>(rt: &F, path: &str) -> Result<File, Obstacle> {
    if path.is_empty() {
        return Err(Obstacle::Empty);
    }
    if path.len() > MAX_PATH {
        return Err(Obstacle::TooLong);
    }
    let file = lock_file(rt, path).map_err(Obstacle::Refused)?;
    match file.try_lock() {
        Ok(()) => Ok(file),
        Err(TryLockError::WouldBlock) => Err(Obstacle::Served),
        Err(TryLockError::Error(fault)) => Err(Obstacle::Refused(fault)),
    }
}

// The file of the lock, which is made where there is none.
fn lock_file<F: Host>(rt: &F, path: &str) -> io::Result<File> {
    let name = format!(in rt.alloc(); "{path}.lock")?;
    File::options()
        .write(true)
        .create(true)
        .open(rt, name.as_str())
}

// What stands at a path. None: nothing does.
fn standing<F: Host>(rt: &F, path: &str) -> Option<Obstacle> {
    match fs::symlink_metadata(rt, path) {
        Ok(found) if found.file_type().is_socket() => Some(listened_to(rt, path)),
        Ok(_) => Some(Obstacle::Stands),
        Err(fault) if fault.kind() == ErrorKind::NotFound => None,
        Err(fault) => Some(Obstacle::Refused(fault)),
    }
}

// Whether somebody listens on a socket. One that has no room for a connection is not waited for.
fn listened_to<F: Host>(rt: &F, path: &str) -> Obstacle {
    match UnixStream::connect(rt, path) {
        Err(fault) if fault.kind() == ErrorKind::ConnectionRefused => Obstacle::Abandoned,
        _ => Obstacle::Served,
    }
}
