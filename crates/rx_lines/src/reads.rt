// The search for a line's end among the bytes that a reader gives.
ghost use Rattle.std.specs.Prelude.{length, ◌<◌, ◌≡◌};
ghost use Rattle.rx_proto.specs.LineFeeds.{HasLf};
ghost use Rattle.rx_lines.specs.Reads.{ReadsOn, FindsNext};

use crate::came::Came;
use crate::input_end::InputEnd;
use crate::window::Window;
use rx_proto::MAX_LINE;
use std::io::{ErrorKind, Read};

/// What was found behind the unread bytes.
#[derive(Drop)]
pub(crate) enum Found {
    /// An LF, behind so many bytes of the window.
    Lf(usize),
    /// The same, and the front of its line, of more than 1,101 bytes, was let go.
    LongLf(usize),
    /// The input ended before an LF came.
    End(InputEnd),
}

/// Reads until an LF stands in the window, or an end comes. A read that would block has failed.
pub(crate) fn next_lf<R: Read>(window: &mut Window, reads: &mut u64, reader: &mut R) -> Found
    ensures found { FindsNext result (R.remaining reader.old) (R.remaining reader.new) window.old window.new reads.old reads.new }
    ensures no_read { HasLf window.old → reads.new ≡ reads.old }
{
    let mut is_long = false;
    loop {
        if let Some(len) = window.find_lf() {
            return if is_long {
                Found::LongLf(len)
            } else {
                Found::Lf(len)
            };
        }
        if window.len() > MAX_LINE + 1 {
            window.clear();
            is_long = true;
        }
        match read_more(window, reads, reader) {
            Came::Bytes => {}
            Came::Nothing => return Found::End(InputEnd::ReadFault),
            Came::End(end) => return Found::End(end),
        }
    }
}

/// One read. Where it was interrupted it is made again, and counts again.
pub(crate) fn read_more<R: Read>(window: &mut Window, reads: &mut u64, reader: &mut R) -> Came
    requires { length window.old < 8192 }
    ensures { ReadsOn result (R.remaining reader.old) (R.remaining reader.new) window.old window.new reads.old reads.new }
{
    while *reads > 0 {
        *reads -= 1;
        match window.read_from(reader) {
            Ok(0) => return Came::End(InputEnd::EndOfInput),
            Ok(_) => return Came::Bytes,
            Err(fault) => match fault.kind() {
                ErrorKind::Interrupted => {}
                ErrorKind::WouldBlock => return Came::Nothing,
                _ => return Came::End(InputEnd::ReadFault),
            },
        }
    }
    Came::End(InputEnd::TooManyReads)
}
