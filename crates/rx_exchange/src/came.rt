// The request of a connection, as it comes.
ghost use Rattle.std.specs.Prelude.{◌≡◌, ◌<◌, ◌≤◌, List, ℕ, drop, length, take};
ghost use Rattle.rx_http.specs.Asking.{IsReadOfHead};
ghost use Rattle.rx_http.specs.Heads.{IsHeadAt};
ghost use Rattle.rx_exchange.specs.Coming.{Comes, Finds, size_of};

use rx_http::{Asked, HeadFound, HeadReader, MAX_HEAD, Refusal, read_request};
use rx_session::SessionEnd;
use std::io::{ErrorKind, Read};

/// What one read of a connection came to.
#[derive(Drop)]
pub(crate) enum Came {
    /// The request is whole, and asks for this; or it is refused, also where it has more than 8,192 bytes. Its text has so many bytes, from
    /// this one on.
    Asks {
        asked: Result<Asked, Refusal>,
        from: usize,
        size: usize,
    },
    /// The request isn't whole yet, or the read was interrupted.
    Partly,
    /// No byte yet: the read would block.
    Nothing,
    /// The bytes ended so, or can't be read.
    End(SessionEnd),
}

/// One read behind the bytes that came.
pub(crate) fn come<R: Read>(head: &mut HeadReader, reader: &mut R) -> Came
    requires { length head.old < 8192 }
    ensures { Comes result (R.remaining reader.old) (R.remaining reader.new) head.old head.new }
{
    match head.read_from(reader) {
        Ok(0) => Came::End(SessionEnd::EndOfInput),
        Ok(_) => found(head),
        Err(fault) => match fault.kind() {
            ErrorKind::Interrupted => Came::Partly,
            ErrorKind::WouldBlock => Came::Nothing,
            _ => Came::End(SessionEnd::ReadFault),
        },
    }
}

// What the bytes are that came.
fn found(head: &mut HeadReader) -> Came
    ensures finds { Finds result head.new }
    ensures kept { head.new ≡ head.old }
{
    match head.find() {
        HeadFound::Whole(len) => {
            with_body(read_request(head.head(len)), len, head.behind(len).len())
        }
        HeadFound::Partly => Came::Partly,
        HeadFound::TooLong => refused(Refusal::LongHead),
    }
}

// What the bytes are whose head has so many and was read so, and behind which so many came.
fn with_body(read: Result<Asked, Refusal>, len: usize, behind: usize) -> Came
    requires within { len ≤ 8192 }
    ensures { (bytes : List ℕ) → IsHeadAt len bytes → IsReadOfHead (take len bytes) read → length (drop len bytes) ≡ behind → Finds result bytes }
{
    let size = size_of(&read);
    if len + size > MAX_HEAD {
        return refused(Refusal::Long);
    }
    if behind < size {
        return Came::Partly;
    }
    Came::Asks {
        asked: read,
        from: len,
        size,
    }
}

// How many bytes the text of a request has.
fn size_of(read: &Result<Asked, Refusal>) -> usize
    ensures size { result ≡ size_of read.now }
    ensures few { result < 4294967296 }
{
    match read {
        Ok(
            Asked::Emission {
                subject: _,
                kind: _,
                size,
                key: _,
            },
        )
        | Ok(Asked::Texts { subject: _, size }) => *size as usize,
        _ => 0,
    }
}

// A request that is refused, which has no text.
fn refused(cause: Refusal) -> Came
    ensures { result ≡ Came.Asks (Err cause) 0 0 }
{
    Came::Asks {
        asked: Err(cause),
        from: 0,
        size: 0,
    }
}
