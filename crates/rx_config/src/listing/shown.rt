// A text of somebody else's, as eyes may have it.
use std::fmt;

/// A text of somebody else's for eyes: a control character, by which a terminal is steered or a line ends, is shown as `\x` and
/// its digits.
#[derive(Drop)]
pub struct Shown<'a>(pub &'a str);

impl fmt::Display for Shown<'_> {
    fn fmt<W: fmt::Write>(&self, f: &mut fmt::Formatter<W>) -> fmt::Result {
        for letter in self.0.chars() {
            if letter.is_control() {
                write!(f, "\\x{:02x}", u32::from(letter))?;
            } else {
                f.write_char(letter)?;
            }
        }
        Ok(())
    }
}
