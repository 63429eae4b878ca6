// How the end of an input is told.
ghost use Rattle.std.specs.Prelude.{◌≡◌};
ghost use Rattle.rx_lines.specs.Steps.{told};

use crate::input_end::InputEnd;
use crate::step::Step;

/// The step that tells an end.
pub(crate) fn told_end(end: InputEnd) -> Step
    ensures { result ≡ told end }
{
    match end {
        InputEnd::EndOfInput => Step::EndOfInput,
        InputEnd::ReadFault => Step::ReadFault,
        InputEnd::TooManyReads => Step::TooManyReads,
    }
}
