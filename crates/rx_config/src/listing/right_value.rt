// What is right at a key, and an example.

use crate::keys::form::Form;
use crate::keys::key::Key;
use rx_note::MAX_TEXT;
use std::fmt;

/// What is right at a key, and an example.
#[derive(Clone, Copy)]
pub(crate) struct RightValue<'a>(pub(crate) &'a Key);

impl fmt::Display for RightValue<'_> {
    fn fmt<W: fmt::Write>(&self, f: &mut fmt::Formatter<W>) -> fmt::Result {
        let key = self.0;
        write_kind(key.kind, f)?;
        write_values(key, f)?;
        write_example(key, f)
    }
}

// Writes which kind of subject alone has the key, if one does.
fn write_kind<W: fmt::Write>(kind: Option<&str>, f: &mut fmt::Formatter<W>) -> fmt::Result {
    let Some(kind) = kind else {
        return Ok(());
    };
    f.write_str("with kind = \"")?;
    f.write_str(kind)?;
    f.write_str("\" alone, ")
}

// Writes what may stand at the key.
fn write_values<W: fmt::Write>(key: &Key, f: &mut fmt::Formatter<W>) -> fmt::Result {
    let wants = key.wants;
    match key.form {
        Form::Text => write!(f, "up to {MAX_TEXT} {wants}"),
        Form::Number { least, most, .. } => {
            write_range(wants, u64::from(least), u64::from(most), f)
        }
        Form::Bound { least, most } => write_range(wants, least, most, f),
        _ => f.write_str(wants),
    }
}

// Writes which numbers may stand there.
fn write_range<W: fmt::Write>(
    wants: &str,
    least: u64,
    most: u64,
    f: &mut fmt::Formatter<W>,
) -> fmt::Result {
    write!(f, "{wants} from {least} to {most}")
}

// Writes an example.
fn write_example<W: fmt::Write>(key: &Key, f: &mut fmt::Formatter<W>) -> fmt::Result {
    let (name, example) = (key.name, key.example);
    write!(f, ", as in: {name} = {example}")
}
