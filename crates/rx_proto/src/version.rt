ghost use Rattle.std.specs.Prelude.{◌≡◌};
ghost use Rattle.rx_proto.specs.Versions.{response_to_hello, version_after};

use crate::{Response, Word};

/// How an item is printed.
#[derive(Clone, Copy, Debug, PartialEq, Eq)]
pub enum Version {
    /// By its text alone. This is the version where none was asked for.
    One,
    /// By its place, its port and its text; a seed has two hyphens in the place of these numbers.
    Two,
}

impl Version {
    /// Carries out a HELLO of this number, 1 or 2, and answers it. Any other number is refused and changes nothing.
    pub fn hello(&mut self, number: u32) -> Response
        ensures response { result ≡ response_to_hello number }
        ensures version { self.new ≡ version_after self.old number }
    {
        match number {
            1 => *self = Version::One,
            2 => *self = Version::Two,
            _ => return Response::Refused(Word::Version),
        }
        Response::Done
    }
}
