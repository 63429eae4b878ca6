// What waits for a peer: whatever is written for a peer, by whatever writes and flushes, with whatever faults: what its
// socket took and then what waits is just that, in order, none of it lost or doubled; after a flush that is no fault nothing
// waits. (A socket's own contract says only how many bytes each write took)
//
// No write to a socket has more than 4,096 bytes. The system makes a block of what one write has, and counts a block as taken
// once the peer read all of it. Of writes of up to 68 KB a peer had to read some 36 KB within `stall` seconds to show that it
// read at all. It costs nothing where notes are short; long ones, of 900 bytes to eight observers that catch up, took up to a
// third more of the processor, and came up to a third slower.
ghost use Rattle.std.specs.Prelude.{◌≡◌, ◌+◌, ◌-◌, ◌≤◌, ◌++◌, [], length, take, drop, min, vec_len, OnOk};
ghost use Rattle.std.specs.Io.{WritesAtMost};
ghost use Rattle.std.specs.Io.KnownBytes.{Appends, WriteAppends};

use crate::notices::cause::Cause;
use crate::notices::counted::SharedNotices;
use crate::socket::clocked::millis;
use crate::socket::peer::SharedPeer;
use rx_heap::Heap;
use rx_server::SharedStop;
use std::io;
use std::io::{ErrorKind, Write};
use std::time::{Clock, Duration};

/// How many bytes wait for a peer at most: 64 notes of the greatest length, in the second version, a terminal, and the first
/// line. (Where more notes may wait, 160 of them are short.)
pub const MOST_WAITING: usize = 68_378;

/// From so many bytes on, what is written goes out at once where nothing waits before it; and no write has more. A socket has
/// room again once its peer took all of a write, so what a peer takes shows by so many bytes at a time.
const BLOCK: usize = 4_096;

// How often a flush writes at most.
const MOST_WRITES: u32 = 1_000;

/// What waits for a peer until it is flushed, or until its socket takes it. What the socket took and then what waits is just what
/// was written here: none of it is lost, doubled or turned round on the way.
pub(crate) struct Gathering<W: Write + Drop, C: Clock + Drop> {
    wire: W,
    clock: C,
    waiting: Vec<u8, Heap>,
    // How long the peer may take no block while some bytes wait for it.
    stall: Duration,
    // Since when its socket has taken none, by the clock.
    stuck_since: Option<Duration>,
    peer: SharedPeer,
    notices: SharedNotices,
    stop: SharedStop,
}

// What still waits is tried once more, and waits no longer: a drainer that leaves has flushed it for as long as any may wait.
impl<W: Write + Drop, C: Clock + Drop> Drop for Gathering<W, C> {
    fn drop(self) {
        let Gathering {
            wire,
            clock: _,
            waiting,
            stall: _,
            stuck_since,
            peer: _,
            notices,
            stop: _,
        } = self;
        if stuck_since.is_some() {
            notices.release();
        }
        let mut wire = wire;
        if !waiting.is_empty() {
            let _ = wire.write(waiting.as_slice());
        }
    }
}

impl<W: Write + Drop, C: Clock + Drop> Gathering<W, C> {
    ghost use Rattle.std.specs.Io.KnownBytes.{append_known};

    /// Nothing waits yet. Where the peer is given up it is counted among the notices; but not where the time of a stop is over, when
    /// nothing waits for it any longer.
    pub(crate) fn new(
        wire: W,
        clock: C,
        alloc: Heap,
        stall: Duration,
        peer: SharedPeer,
        notices: SharedNotices,
        stop: SharedStop,
    ) -> Gathering<W, C>
        ensures wire { result.wire ≡ wire }
        ensures none { result.waiting.items ≡ [] }
    {
        Gathering {
            wire,
            clock,
            waiting: Vec::new(alloc),
            stall,
            stuck_since: None,
            peer,
            notices,
            stop,
        }
    }

    // Counts that the peer is given up.
    fn count(&self, cause: Cause) {
        let bytes = self.waiting.len() as u64;
        self.notices.count_about(cause, self.peer.joined(), bytes);
    }

    // Whether the server gives up the observer that the peer is.
    fn is_given_up(&self) -> bool {
        match self.peer.joined() {
            Some(observer) => self.notices.is_given_up(observer),
            None => false,
        }
    }

    // Whether so many bytes more are to wait: neither a whole block that nothing waits before, nor more than may wait.
    #[inline(always)] // once for each line
    fn holds(&self, count: usize) -> bool {
        let waiting = self.waiting.len();
        (waiting > 0 || count < BLOCK) && waiting.saturating_add(count) <= MOST_WAITING
    }

    // Writes what is not to wait here, behind what waits; or it was to, and there was no memory for it.
    #[inline(never)] // rare, and a short line makes no room for its faults
    fn write_past(&mut self, bytes: &[u8]) -> io::Result<usize>
        ensures bound { WritesAtMost result bytes.now }
        ensures bytes { WriteAppends (append_known (W.contents self.old.wire) self.old.waiting.items) (append_known (W.contents self.new.wire) self.new.waiting.items) result bytes.now }
    {
        if self.holds(bytes.len()) {
            self.count(Cause::Unheld);
            return Err(io::Error::from(ErrorKind::OutOfMemory));
        }
        if self.waiting.is_empty() {
            return write_block(&mut self.wire, bytes);
        }
        self.flush()?;
        write_block(&mut self.wire, bytes)
    }

    // Its socket took all.
    fn free(&mut self)
        ensures wire { self.new.wire ≡ self.old.wire }
        ensures waiting { self.new.waiting ≡ self.old.waiting }
    {
        if self.stuck_since.is_some() {
            self.stuck_since = None;
            self.notices.release();
        }
    }

    // The fault of a socket that takes no more bytes now: they wait, but not for ever where it takes none at all.
    fn stuck(&mut self, sent: usize) -> io::Error
        ensures wire { self.new.wire ≡ self.old.wire }
        ensures waiting { self.new.waiting ≡ self.old.waiting }
    {
        let Ok(now) = self.clock.monotonic() else {
            return io::Error::from(ErrorKind::WouldBlock);
        };
        if self.stuck_since.is_none() {
            self.notices.hold();
        }
        let since = match self.stuck_since {
            Some(since) if sent == 0 => since,
            _ => now,
        };
        self.stuck_since = Some(since);
        if is_out_of_time(&self.stop, now) {
            return io::Error::from(ErrorKind::TimedOut);
        }
        if now.saturating_sub(since) >= self.stall {
            self.count(Cause::Stalled);
            io::Error::from(ErrorKind::TimedOut)
        } else {
            io::Error::from(ErrorKind::WouldBlock)
        }
    }
}

impl<W: Write + Drop, C: Clock + Drop> Write for Gathering<W, C> {
    ghost use Rattle.std.specs.Prelude.{◌≡◌, []};
    ghost use Rattle.std.specs.Io.KnownBytes.{Keeps, append_known};

    ghost contents = { λ g. append_known (W.contents g.wire) g.waiting.items };

    fn write(&mut self, bytes: &[u8]) -> io::Result<usize> {
        if self.holds(bytes.len()) && self.waiting.extend_from_slice(bytes).is_ok() {
            return Ok(bytes.len());
        }
        self.write_past(bytes)
    }

    fn flush(&mut self) -> io::Result<()>
        ensures bytes { Keeps (append_known (W.contents self.old.wire) self.old.waiting.items) (append_known (W.contents self.new.wire) self.new.waiting.items) }
        ensures ok { OnOk result (self.new.waiting.items ≡ []) }
    {
        let (sent, ended) = write_blocks(&mut self.wire, self.waiting.as_slice());
        drop_front(&mut self.waiting, sent);
        if self.is_given_up() {
            self.count(Cause::Outgrown);
            return Err(io::Error::from(ErrorKind::TimedOut));
        }
        match ended {
            Err(fault) if fault.kind() == ErrorKind::WouldBlock => Err(self.stuck(sent)),
            Err(fault) => Err(fault),
            Ok(()) => {
                self.free();
                Ok(())
            }
        }
    }
}

// Whether the time of a stop is over at this moment.
fn is_out_of_time(stop: &SharedStop, now: Duration) -> bool {
    stop.left(millis(now)) == Some(0)
}

// Writes these bytes, a block at a time, as far as the writer takes them. It answers how many it took, and what stopped it.
fn write_blocks<W: Write>(writer: &mut W, bytes: &[u8]) -> (usize, io::Result<()>)
    ensures within { result.0 ≤ length bytes.now }
    ensures all { OnOk result.1 (result.0 ≡ length bytes.now) }
    ensures taken { Appends (W.contents writer.old) (W.contents writer.new) (take result.0 bytes.now) }
{
    let mut sent = 0;
    for _ in 0..MOST_WRITES {
        if sent == bytes.len() {
            return (sent, Ok(()));
        }
        match write_block(writer, &bytes[sent..]) {
            Ok(0) => return (sent, Err(io::Error::from(ErrorKind::WriteZero))),
            Ok(more) => sent += more,
            Err(fault) if fault.kind() == ErrorKind::Interrupted => {}
            Err(fault) => return (sent, Err(fault)),
        }
    }
    (sent, Err(io::Error::from(ErrorKind::WouldBlock)))
}

// Writes a block of these bytes at most.
fn write_block<W: Write>(writer: &mut W, bytes: &[u8]) -> io::Result<usize>
    ensures bound { WritesAtMost result bytes.now }
    ensures bytes { WriteAppends (W.contents writer.old) (W.contents writer.new) result bytes.now }
{
    writer.write(front(bytes))
}

// What goes out of these bytes by one write.
fn front(bytes: &[u8]) -> &[u8]
    ensures { result.now ≡ take 4096 bytes.now }
{
    match bytes.get(..BLOCK) {
        Some(front) => front,
        None => bytes,
    }
}

// Lets go of the first bytes.
fn drop_front(waiting: &mut Vec<u8, Heap>, count: usize)
    requires { count ≤ vec_len waiting.old }
    ensures { waiting.new.items ≡ drop count waiting.old.items }
{
    let len = waiting.len();
    move_down(waiting.as_mut_slice(), count);
    waiting.truncate(len - count);
}

// Moves what stands behind the first bytes to their place, as many at once as they are: the toolchain's `copy_within` goes byte by byte.
fn move_down(bytes: &mut [u8], count: usize)
    requires { count ≤ length bytes.old }
    ensures moved { take (length bytes.old - count) bytes.new ≡ drop count bytes.old }
    ensures len { length bytes.new ≡ length bytes.old }
{
    if count == 0 {
        return;
    }
    let mut moved = 0;
    while moved + count < bytes.len() {
        let (front, behind) = bytes.split_at_mut(moved + count);
        let some = count.min(behind.len());
        put(front, moved, &behind[..some]);
        moved += some;
    }
}

// Puts these bytes there.
fn put(bytes: &mut [u8], at: usize, piece: &[u8])
    requires { at + length piece.now ≤ length bytes.old }
    ensures { bytes.new ≡ take at bytes.old ++ (piece.now ++ drop (at + length piece.now) bytes.old) }
{
    bytes[at..at + piece.len()].copy_from_slice(piece);
}
