// The lines of a report.
ghost use Rattle.rx_config.specs.Listings.{number_words};
ghost use Rattle.rx_proto.specs.Bytes.{Writes};
ghost use Rattle.rx_server.specs.ReportLines.{report_line, report_lines};

use crate::close::report::SubjectReport;
use itoa::Buffer;
use rx_proto::{Name, WriteFault, write_bytes};
use std::io::Write;

/// Writes a line for each subject, which stand in the order of their names: its name, how many observers joined, and how many calls
/// were refused for want of memory. Nothing is flushed.
///
/// # Errors
///
/// `WriteFault`: the writer did not take all; it has a front of the lines.
pub fn write_report_lines<W: Write>(
    names: &[Name],
    subjects: &[SubjectReport],
    writer: &mut W,
) -> Result<(), WriteFault>
    ensures { Writes result (W.contents writer.old) (W.contents writer.new) (report_lines names.now subjects.now) }
{
    for (name, subject) in names.iter().zip(subjects.iter()) {
        write_line(name, subject, writer)?;
    }
    Ok(())
}

// Writes the line of a subject.
fn write_line<W: Write>(
    name: &Name,
    subject: &SubjectReport,
    writer: &mut W,
) -> Result<(), WriteFault>
    ensures { Writes result (W.contents writer.old) (W.contents writer.new) (report_line (name.now, subject.now)) }
{
    write_bytes(writer, name.as_bytes())?;
    write_number(b" joins ", u64::from(subject.joins), writer)?;
    write_number(b" refused ", subject.refused, writer)?;
    write_bytes(writer, b"\n")
}

// Writes the words of a key and its number.
fn write_number<W: Write>(key: &[u8], number: u64, writer: &mut W) -> Result<(), WriteFault>
    ensures { Writes result (W.contents writer.old) (W.contents writer.new) (number_words key.now number) }
{
    write_bytes(writer, key)?;
    write_bytes(writer, Buffer::new().format(number).as_bytes())
}
