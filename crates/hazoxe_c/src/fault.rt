ghost use Rattle.std.specs.Prelude.{◌≡◌};
ghost use Rattle.hazoxe_c.specs.Numbers.{code, refusal_number, number};

use rx_note::Refusal;

/// Why a call did nothing. To a program in C each has a number, which `bindings/c/hazoxe.h` names.
#[derive(Clone, Copy)]
pub enum Fault {
    /// The subject refused the event.
    Refused(Refusal),
    /// The struct holds no subject.
    NoSubject,
    /// The struct holds a subject already.
    HoldsSubject,
    /// There is no kind of that number.
    BadKind,
    /// A seed for a kind that has none.
    BadSeed,
    /// The count is more than 4,096, or stands at a kind that has none.
    BadCount,
    /// An age at a kind that has none.
    BadAge,
    /// The limits are not 1 to 64 observers, and 1 to 4,294,967,295 joins and items.
    BadLimits,
    /// The text has more than 1,024 bytes.
    TooLong,
    /// A line feed stands in the text.
    HasLf,
    /// There is no strategy of that number.
    BadStrategy,
    /// The room is not one of that strategy.
    BadRoom,
    /// There is no error mode of that number.
    BadErrors,
    /// No note was given that was not taken yet.
    NothingGiven,
    /// The text has more bytes than the buffer.
    BufferTooSmall,
}

impl Fault {
    /// There was no memory for it.
    pub const MEMORY: Fault = Fault::Refused(Refusal::Memory);

    /// Its number, at least 1.
    pub fn number(self) -> u32
        ensures { result ≡ number self }
    {
        match self {
            Fault::Refused(refusal) => refusal_number(refusal),
            Fault::NoSubject => 8,
            Fault::HoldsSubject => 9,
            Fault::BadKind => 10,
            Fault::BadSeed => 11,
            Fault::BadCount => 12,
            Fault::BadAge => 13,
            Fault::BadLimits => 14,
            Fault::TooLong => 15,
            Fault::HasLf => 16,
            Fault::BadStrategy => 17,
            Fault::BadRoom => 18,
            Fault::BadErrors => 19,
            Fault::NothingGiven => 20,
            Fault::BufferTooSmall => 21,
        }
    }
}

// In the order in which a subject refuses.
fn refusal_number(refusal: Refusal) -> u32
    ensures { result ≡ refusal_number refusal }
{
    match refusal {
        Refusal::Ended => 1,
        Refusal::Full => 2,
        Refusal::Spent => 3,
        Refusal::ZeroRequest => 4,
        Refusal::NoObserver => 5,
        Refusal::TooMuch => 6,
        Refusal::Memory => 7,
    }
}

/// The number of what a call came to: 0 where it did what it was called for.
pub fn code(told: Result<(), Fault>) -> u32
    ensures { result ≡ code told }
{
    match told {
        Ok(()) => 0,
        Err(fault) => fault.number(),
    }
}
