// The lines that tell what is seen of a subject. As those of causes they are put together on the stack, and go out by one write.
ghost use Rattle.std.specs.Prelude.{◌≡◌, ◌≤◌, ◌+◌, ◌++◌, length};
ghost use Rattle.rx_proto.specs.Bytes.{Writes};
ghost use Rattle.rx_program.specs.Notices.{budget_words, end_line, end_words, refusal_line};

use crate::notices::notice_line::{ROOM, put_more, put_name, put_number};
use rx_proto::{LineBytes, Name, WriteFault, write_bytes};
use std::io::Write;

/// Writes the line of a subject that refuses since its budget of so many bytes is used up, which tells of so many refusals more.
///
/// # Errors
///
/// `WriteFault`: the writer did not take all; it has a front of the line.
pub fn write_refusal<E: Write>(
    subject: &Name,
    budget: u64,
    more: u64,
    faults: &mut E,
) -> Result<(), WriteFault>
    ensures { Writes result (E.contents faults.old) (E.contents faults.new) (refusal_line subject.now budget more) }
{
    write_bytes(faults, refusal_line(subject, budget, more).as_bytes())
}

/// Writes the line of a subject that is over, by an error or not, after so many items.
///
/// # Errors
///
/// `WriteFault`: the writer did not take all; it has a front of the line.
pub fn write_end<E: Write>(
    subject: &Name,
    has_failed: bool,
    items: u32,
    faults: &mut E,
) -> Result<(), WriteFault>
    ensures { Writes result (E.contents faults.old) (E.contents faults.new) (end_line subject.now has_failed items) }
{
    write_bytes(faults, end_line(subject, has_failed, items).as_bytes())
}

// The line of a subject whose budget is used up.
fn refusal_line(subject: &Name, budget: u64, more: u64) -> LineBytes<ROOM>
    ensures { result ≡ refusal_line subject.now budget more }
{
    let mut line = LineBytes::new();
    line.put(b"<4>rxline: ");
    put_name(subject, &mut line);
    put_budget(budget, &mut line);
    put_more(more, &mut line);
    line.put(b"\n");
    line
}

// Puts that a budget of so many bytes is used up.
fn put_budget(budget: u64, line: &mut LineBytes<ROOM>)
    requires { length line.old + 61 ≤ 204 }
    ensures put { line.new ≡ line.old ++ budget_words budget }
    ensures short { length line.new ≤ length line.old + 61 }
{
    line.put(b" refuses: its budget of ");
    put_number(budget, line);
    line.put(b" bytes is used up");
}

// The line of a subject that is over.
fn end_line(subject: &Name, has_failed: bool, items: u32) -> LineBytes<ROOM>
    ensures { result ≡ end_line subject.now has_failed items }
{
    let mut line = LineBytes::new();
    line.put(b"<6>rxline: ");
    put_name(subject, &mut line);
    put_end(has_failed, &mut line);
    line.put(b" after ");
    put_number(u64::from(items), &mut line);
    line.put(b" items\n");
    line
}

// Puts how a subject ended.
fn put_end(has_failed: bool, line: &mut LineBytes<ROOM>)
    requires { length line.old + 16 ≤ 204 }
    ensures put { line.new ≡ line.old ++ end_words has_failed }
    ensures short { length line.new ≤ length line.old + 16 }
{
    if has_failed {
        line.put(b" is over: FAILED");
    } else {
        line.put(b" is over: DONE");
    }
}
