// The texts of notes, made over the memory of the subjects that they are for.
ghost use Rattle.std.specs.Prelude.{◌≡◌, IfOk, MatchResult};
ghost use Rattle.rx_proto.specs.Grammar.{IsText};
ghost use Rattle.rx_session.specs.Sessions.{parties};
ghost use Rattle.rx_session.specs.Turns.{HasNoText};

use crate::Desk;
use rx_heap::{Heap, Memory};
use rx_note::Text;
use rx_proto::{Name, Word};
use std::io::Write;

/// The text of these bytes, made over the memory that the desk has for the subject of this name. `Err`: the word by which it is
/// refused, `Subject` where there is no such subject, else `Memory`.
pub(crate) fn text_for<W: Write, D: Desk<W>>(
    desk: &D,
    name: &Name,
    bytes: &[u8],
) -> Result<Text, Word>
    requires { IsText bytes.now }
    ensures { MatchResult result (λ text. text ≡ bytes.now) (HasNoText (parties D.knows D.emits D.follows W.contents) desk.now name.now) }
{
    let Some(heap) = desk.memory(name) else {
        return Err(Word::Subject);
    };
    match hold(heap, bytes) {
        Ok(text) => Ok(text),
        Err(Memory) => Err(Word::Memory),
    }
}

// The text of these bytes, which are one.
fn hold(heap: &Heap, bytes: &[u8]) -> Result<Text, Memory>
    requires { IsText bytes.now }
    ensures { IfOk result (λ text. text ≡ bytes.now) }
{
    Text::of_line(heap.clone()?, bytes)
}
