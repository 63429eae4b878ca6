// The line of a cause, and of an observer where it has one. It is put together on the stack and goes out by one write: that there is
// no memory can be told, and a line is never torn.
ghost use Rattle.std.specs.Prelude.{◌≡◌, ◌≤◌, ◌+◌, ◌++◌, decimal, length};
ghost use Rattle.rx_proto.specs.Bytes.{Writes};
ghost use Rattle.rx_program.specs.Notices.{Told, fate_words, more_words, notice_line, observer_words, outgrown_words, span_words, told_words};

use crate::notices::about::About;
use crate::notices::cause::Cause;
use crate::notices::patience::Patience;
use itoa::Buffer;
use rx_proto::{LineBytes, Name, WriteFault, write_bytes};
use std::io::Write;

/// The most bytes of a line: 11 before its words, which are 160 at most, 32 for how many more there were, and the LF.
pub(crate) const ROOM: usize = 204;

/// Writes the line of a cause, where one is due, which tells of so many events more; without, nothing. A writer that fails has a front of
/// it, and nobody hears of that.
pub(crate) fn write_due<E: Write>(
    due: Option<u64>,
    patience: Patience,
    cause: Cause,
    about: &Option<About>,
    faults: &mut E,
)
    ensures { Told patience cause about.now due (E.contents faults.old) (E.contents faults.new) }
{
    if let Some(more) = due {
        let _ = write_notice(patience, cause, about, more, faults);
    }
}

/// Writes the line of a cause, about an observer where there is one, which tells of so many events more.
///
/// # Errors
///
/// `WriteFault`: the writer did not take all; it has a front of the line.
pub fn write_notice<E: Write>(
    patience: Patience,
    cause: Cause,
    about: &Option<About>,
    more: u64,
    faults: &mut E,
) -> Result<(), WriteFault>
    ensures { Writes result (E.contents faults.old) (E.contents faults.new) (notice_line patience cause about.now more) }
{
    write_bytes(faults, notice_line(patience, cause, about, more).as_bytes())
}

// The line of a cause, which tells of so many events more.
fn notice_line(
    patience: Patience,
    cause: Cause,
    about: &Option<About>,
    more: u64,
) -> LineBytes<ROOM>
    ensures { result ≡ notice_line patience cause about.now more }
{
    let mut line = LineBytes::new();
    line.put(b"<4>rxline: ");
    put_told(patience, cause, about, &mut line);
    put_more(more, &mut line);
    line.put(b"\n");
    line
}

// Puts what is told of a cause, about an observer where there is one.
fn put_told(patience: Patience, cause: Cause, about: &Option<About>, line: &mut LineBytes<ROOM>)
    requires { length line.old + 160 ≤ 204 }
    ensures put { line.new ≡ line.old ++ told_words patience cause about.now }
    ensures short { length line.new ≤ length line.old + 160 }
{
    match about {
        None => {
            line.put(cause.words().as_bytes());
            put_span(patience.seconds(cause), line);
        }
        Some(about) => {
            put_observer(about, line);
            put_fate(
                patience.seconds(cause),
                patience.bytes(cause),
                about.bytes,
                line,
            );
        }
    }
}

// Puts which observer it is.
fn put_observer(about: &About, line: &mut LineBytes<ROOM>)
    requires { length line.old + 65 ≤ 204 }
    ensures put { line.new ≡ line.old ++ observer_words about.now }
    ensures short { length line.new ≤ length line.old + 65 }
{
    line.put(b"observer ");
    put_number(u64::from(about.observer), line);
    line.put(b" of ");
    put_name(&about.subject, line);
}

// Puts why an observer is given up: its peer took nothing for so many seconds, while so many bytes wait in its connection; or else more
// bytes wait for it than may; or else there was no memory.
fn put_fate(seconds: Option<u64>, most: Option<u64>, bytes: u64, line: &mut LineBytes<ROOM>)
    requires { length line.old + 95 ≤ 204 }
    ensures put { line.new ≡ line.old ++ fate_words seconds most bytes }
    ensures short { length line.new ≤ length line.old + 95 }
{
    let Some(seconds) = seconds else {
        put_bound(most, line);
        return;
    };
    line.put(b" is given up: its peer took nothing for ");
    put_number(seconds, line);
    line.put(b" s, ");
    put_number(bytes, line);
    line.put(b" bytes wait");
}

// Puts that more bytes wait for an observer than these may, or that there is no memory for them.
fn put_bound(most: Option<u64>, line: &mut LineBytes<ROOM>)
    requires { length line.old + 62 ≤ 204 }
    ensures put { line.new ≡ line.old ++ outgrown_words most }
    ensures short { length line.new ≤ length line.old + 62 }
{
    let Some(most) = most else {
        line.put(b" is given up: no memory for what waits for it");
        return;
    };
    line.put(b" is given up: more than ");
    put_number(most, line);
    line.put(b" bytes wait for it");
}

/// Puts a name.
pub(crate) fn put_name(name: &Name, line: &mut LineBytes<ROOM>)
    requires { length line.old + 32 ≤ 204 }
    ensures put { line.new ≡ line.old ++ name.now }
    ensures short { length line.new ≤ length line.old + 32 }
{
    let (_padded, _len) = name.padded();
    line.put(name.as_bytes());
}

// Puts for how long a peer let the server wait, where it did.
fn put_span(seconds: Option<u64>, line: &mut LineBytes<ROOM>)
    requires { length line.old + 27 ≤ 204 }
    ensures put { line.new ≡ line.old ++ span_words seconds }
    ensures short { length line.new ≤ length line.old + 27 }
{
    let Some(seconds) = seconds else {
        return;
    };
    line.put(b" for ");
    put_number(seconds, line);
    line.put(b" s");
}

/// Puts how many more events there were, where there were some.
pub(crate) fn put_more(more: u64, line: &mut LineBytes<ROOM>)
    requires { length line.old + 32 ≤ 204 }
    ensures put { line.new ≡ line.old ++ more_words more }
    ensures short { length line.new ≤ length line.old + 32 }
{
    if more == 0 {
        return;
    }
    line.put(b" (and ");
    put_number(more, line);
    line.put(b" more)");
}

/// Puts the digits of a number.
pub(crate) fn put_number(number: u64, line: &mut LineBytes<ROOM>)
    requires { length line.old + 20 ≤ 204 }
    ensures put { line.new ≡ line.old ++ decimal number }
    ensures short { length line.new ≤ length line.old + 20 }
{
    line.put(Buffer::new().format(number).as_bytes());
}
