ghost use Rattle.std.specs.Prelude.{◌≡◌};

use crate::Text;
use std::error::Error;
use std::fmt;

/// The most items that `Replay` keeps by a count.
pub const MAX_COUNT: u16 = 4096;

/// What a subject gives to an observer that joins (<https://reactivex.io/documentation/subject.html>).
///
/// The rules for seeds, for ages, and for what an ended subject gives are this project's own where docs/BEHAVIOUR.md says so.
#[derive(Drop, Debug, PartialEq, Eq)]
pub enum Kind {
    /// What comes after the joining; on an ended subject the terminal alone.
    Publish,
    /// The last item, else the seed, where there is one, and then what comes after the joining; on an ended subject the
    /// terminal alone.
    Behavior(Option<Text>),
    /// At completion the last item, where there is one, and the completion; an error alone.
    Async,
    /// The last items, and then what comes after the joining; on an ended subject the last items and the terminal.
    Replay {
        /// At most so many items, 1 to 4,096; None: as many as there are.
        count: Option<u16>,
        /// Only items that are younger than so many milliseconds, at least 1; None: of any age.
        age: Option<u64>,
    },
}

/// Why a kind is out of its limits, which are this project's own.
#[derive(Clone, Copy, Debug, PartialEq, Eq)]
pub enum KindError {
    /// The count is not 1 to 4,096.
    BadCount,
    /// The age is not at least 1 millisecond.
    BadAge,
}

impl fmt::Display for KindError {
    fn fmt<W: fmt::Write>(&self, f: &mut fmt::Formatter<W>) -> fmt::Result {
        f.write_str(match self {
            KindError::BadCount => "a count is 1 to 4096",
            KindError::BadAge => "an age is at least 1 millisecond",
        })
    }
}

impl Error for KindError {}

impl Kind {
    ghost use Rattle.rx_note.specs.Kinds.{kind_checked};

    /// Whether the count and the age are in their limits. Refused in the order `BadCount`, `BadAge`.
    pub fn check(&self) -> Result<(), KindError>
        ensures { result ≡ kind_checked self.now }
    {
        let Kind::Replay { count, age } = self else {
            return Ok(());
        };
        if matches!(count, Some(count) if *count < 1 || *count > MAX_COUNT) {
            return Err(KindError::BadCount);
        }
        if matches!(age, Some(0)) {
            return Err(KindError::BadAge);
        }
        Ok(())
    }
}
