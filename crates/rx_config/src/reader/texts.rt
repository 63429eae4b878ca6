// The texts of a configuration: the name of a subject, the seed of a Behavior, and a line.
ghost use Rattle.std.specs.Prelude.{◌≡◌};
ghost use Rattle.rx_config.specs.Configurations.{Reads, line_in, name_in, seed_in};
ghost use Rattle.rx_config.specs.KeyTables.{members_in};

use crate::keys::SEED;
use crate::keys::section::Section;
use crate::reader::fault::Fault;
use rx_heap::Heap;
use rx_note::{Text, TextError};
use rx_proto::Name;

/// The name of these bytes.
pub(crate) fn name_in(bytes: &[u8]) -> Option<Name>
    ensures { result ≡ name_in bytes.now }
{
    Name::new(bytes)
}

/// The seed of a table, which may be missing.
pub(crate) fn seed_in(heap: &Heap, section: &Section) -> Result<Option<Text>, Fault>
    ensures { Reads (seed_in (members_in section.now)) result }
{
    let Some(value) = SEED.value_in(section) else {
        return Ok(None);
    };
    match value.as_str() {
        None => Err(Fault::Refused),
        Some(text) => match line_in(heap, text.as_bytes()) {
            Ok(seed) => Ok(Some(seed)),
            Err(fault) => Err(fault),
        },
    }
}

/// The text of these bytes.
pub(crate) fn line_in(heap: &Heap, bytes: &[u8]) -> Result<Text, Fault>
    ensures { Reads (line_in bytes.now) result }
{
    let Ok(heap) = heap.clone() else {
        return Err(Fault::Memory);
    };
    match Text::new(heap, bytes) {
        Ok(text) => Ok(text),
        Err(TextError::TooLong | TextError::HasLf) => Err(Fault::Refused),
        Err(TextError::Memory) => Err(Fault::Memory),
    }
}
