// How a session ends with its input.
ghost use Rattle.std.specs.Prelude.{◌≡◌};
ghost use Rattle.rx_session.specs.Sessions.{end_of};

use crate::SessionEnd;
use rx_lines::InputEnd;

/// The end of a session whose input ended so.
/// The end of a session whose input ended so.
pub(crate) fn end_of(end: InputEnd) -> SessionEnd
    ensures { result ≡ end_of end }
{
    match end {
        InputEnd::EndOfInput => SessionEnd::EndOfInput,
        InputEnd::ReadFault => SessionEnd::ReadFault,
        InputEnd::TooManyReads => SessionEnd::TooManyReads,
    }
}
