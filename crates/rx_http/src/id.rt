ghost use Rattle.std.specs.Prelude.{◌≡◌, ◌++◌};
ghost use Rattle.rx_http.specs.Accounts.{last_of};
ghost use Rattle.rx_http.specs.Ids.{id_of, over_word, place_digits};
ghost use Rattle.rx_http.specs.Laws.{IsPlace};
ghost use Rattle.rx_http.specs.Words.{IsId, IsReadOf};

use crate::Epoch;
use crate::number::number_of;
use crate::parts::part;

/// What a reader knows, by which it goes on where it was.
#[derive(Drop, Debug, PartialEq, Eq)]
pub struct Id {
    /// The start of the server of which it knows that.
    pub epoch: Epoch,
    /// The place of the last item of which it knows what became; None where it knows of none.
    pub place: Option<u32>,
    /// Whether it knows that the subject has ended.
    pub over: bool,
}

impl Id {
    /// The id that is told by these bytes. None exactly where no id is.
    pub fn read(bytes: &[u8]) -> Option<Id>
        ensures { IsReadOf IsId id_of bytes.now result }
    {
        let Some((epoch, known)) = part(bytes, b'-') else {
            return None;
        };
        let Some(epoch) = Epoch::new(epoch) else {
            return None;
        };
        match known_of(known) {
            Some((place, over)) => Some(Id { epoch, place, over }),
            None => None,
        }
    }

    /// Of how many items of its subject, from the first on, a reader that says this knows what became.
    pub fn known(&self) -> u64
        ensures { last_of result ≡ self.now.place }
    {
        match self.place {
            Some(place) => u64::from(place) + 1,
            None => 0,
        }
    }
}

// What stands behind an epoch and its hyphen: a place, if one is known, and whether the subject is over.
fn known_of(bytes: &[u8]) -> Option<(Option<u32>, bool)>
    ensures { IsReadOf (λ known. IsPlace known.0) (λ known. place_digits known.0 ++ over_word known.1) bytes.now result }
{
    match part(bytes, b'-') {
        Some((place, end)) if end == b"over".as_slice() => known_with(place, true),
        Some(_) => None,
        None => known_with(bytes, false),
    }
}

// The place of these digits, if one is known, and whether the subject is over.
fn known_with(digits: &[u8], over: bool) -> Option<(Option<u32>, bool)>
    ensures { IsReadOf (λ known. IsPlace known.0 × (known.1 ≡ over)) (λ known. place_digits known.0) digits.now result }
{
    match place_of(digits) {
        Some(place) => Some((place, over)),
        None => None,
    }
}

// A place, if one is known.
fn place_of(digits: &[u8]) -> Option<Option<u32>>
    ensures { IsReadOf IsPlace place_digits digits.now result }
{
    if digits.is_empty() {
        return Some(None);
    }
    match number_of(digits) {
        Some(place) => Some(Some(place)),
        None => None,
    }
}
