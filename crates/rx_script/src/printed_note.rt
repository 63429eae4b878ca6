// What a script prints of a note.
ghost use Rattle.std.specs.Prelude.{◌≡◌, ◌≤◌, ◌+◌, ◌++◌, decimal, length};
ghost use Rattle.rx_script.specs.Audits.{observer_line};
ghost use Rattle.rx_lines.specs.Bytes.{Puts};
ghost use Rattle.rx_proto.specs.Printing.{note_line};
ghost use Rattle.rx_proto.specs.declared.version.Version.TheVariants.{One};
ghost use Rattle.rx_script.specs.Printing.{given_line};

use rx_note::Note;
use rx_proto::{MAX_DIGITS, Name, Version, WriteFault, write_digits};
use rx_session::Outbox;
use std::io::Write;

/// Puts the line that a script prints in a version for a note given to an observer of this subject.
#[inline(always)] // once for each note
pub(crate) fn put_given<W: Write>(
    outbox: &mut Outbox,
    writer: &mut W,
    version: Version,
    name: &Name,
    who: u32,
    note: &Note,
) -> Result<(), WriteFault>
    ensures { Puts result outbox.old outbox.new (W.contents writer.old) (W.contents writer.new) (given_line version name.now who note.now) }
{
    let (name, len) = name.padded();
    outbox.ready(writer)?;
    outbox.push_padded(name, len);
    outbox.push(b" ");
    push_decimal(outbox, who);
    outbox.push(b" ");
    outbox.push_note(note, version);
    Ok(())
}

/// Puts the line that begins the audit of an observer.
pub(crate) fn put_observer<W: Write>(
    outbox: &mut Outbox,
    writer: &mut W,
    name: &Name,
    who: u32,
) -> Result<(), WriteFault>
    ensures { Puts result outbox.old outbox.new (W.contents writer.old) (W.contents writer.new) (observer_line name.now who) }
{
    let name = name.as_bytes();
    outbox.ready(writer)?;
    outbox.push(b"OBSERVER ");
    outbox.push(name);
    outbox.push(b" ");
    push_decimal(outbox, who);
    outbox.push(b"\n");
    Ok(())
}

/// Puts the line of a note, in the first version, with a mark before it of at most 16 bytes.
pub(crate) fn put_marked<W: Write>(
    outbox: &mut Outbox,
    writer: &mut W,
    mark: &[u8],
    note: &Note,
) -> Result<(), WriteFault>
    requires { length mark.now ≤ 16 }
    ensures { Puts result outbox.old outbox.new (W.contents writer.old) (W.contents writer.new) (mark.now ++ note_line One note.now) }
{
    outbox.ready(writer)?;
    outbox.push(mark);
    outbox.push_note(note, Version::One);
    Ok(())
}

// Pushes the digits of a number, for which there is room.
#[inline] // once for each note; most numbers have one digit
fn push_decimal(outbox: &mut Outbox, number: u32)
    requires { length outbox.old + 10 ≤ 8192 }
    ensures digits { outbox.new ≡ outbox.old ++ decimal number }
    ensures len { length outbox.new ≤ length outbox.old + 10 }
{
    // One or two digits, by far the most numbers of observers, are copied by a fixed size.
    if number < 10 {
        return outbox.push(&[b'0' + number as u8]);
    }
    if number < 100 {
        let digits = [b'0' + (number / 10) as u8, b'0' + (number % 10) as u8];
        return outbox.push(&digits);
    }
    let mut digits = [0; MAX_DIGITS];
    let start = write_digits(number, &mut digits);
    outbox.push(&digits[start..]);
}
