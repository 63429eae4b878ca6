use std::io::{self, Write};

/// A writer for eyes: what it is handed goes on, but a byte by which a terminal is steered is written as `\x` and its two digits,
/// save LF and tab. So a word or a text of a stranger's is shown, and does nothing.
pub struct Plain<'a, W: Write> {
    writer: &'a mut W,
    last: u8,
}

// By hand: rx_heap says why.
impl<'a, W: Write> Drop for Plain<'a, W> {
    fn drop(self) {
        let Plain { writer: _, last: _ } = self;
    }
}

impl<'a, W: Write> Plain<'a, W> {
    /// Over this writer.
    pub fn new(writer: &'a mut W) -> Plain<'a, W> {
        Plain { writer, last: 0 }
    }
}

impl<'a, W: Write> Write for Plain<'a, W> {
    fn write(&mut self, buf: &[u8]) -> io::Result<usize> {
        for byte in buf {
            if steers(self.last, *byte) {
                write!(self.writer, "\\x{byte:02x}")?;
            } else {
                self.writer.write_all(&[*byte])?;
            }
            self.last = *byte;
        }
        Ok(buf.len())
    }

    fn flush(&mut self) -> io::Result<()> {
        self.writer.flush()
    }
}

// Whether a byte behind another one is, or ends, a control character: of ASCII, or of those that follow it, in UTF-8.
fn steers(last: u8, byte: u8) -> bool {
    match byte {
        b'\n' | b'\t' => false,
        0..=31 | 127 => true,
        128..=159 => last == 0xc2,
        _ => false,
    }
}
