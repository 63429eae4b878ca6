// The lines that a client sends.
ghost use Rattle.std.specs.Prelude.{◌≡◌, ◌++◌, IfOk, OnOk};
ghost use Rattle.rx_client.specs.Requests.{IsNoSub, IsSub, pub_line, sub_words};

use crate::output::put_word;
use rx_heap::{Heap, Memory};
use rx_proto::{Command, LineError, parse_line};

/// Why words are no line of a session.
#[derive(Clone, Copy, Debug, PartialEq, Eq)]
pub enum Unsaid {
    /// A session takes no such line.
    Syntax,
    /// There was no memory for it.
    Memory,
}

/// The line by which an observer joins this subject, by the words of a strategy and of an error mode, without its LF.
pub fn sub_line(
    heap: &Heap,
    subject: &str,
    strategy: &str,
    errors: &str,
) -> Result<Vec<u8, Heap>, Unsaid>
    ensures said { IfOk result (λ line. IsSub subject.now strategy.now errors.now line.items) }
    ensures unsaid { result ≡ Err Unsaid.Syntax → IsNoSub subject.now strategy.now errors.now }
{
    let Ok(line) = sub_words(heap, subject, strategy, errors) else {
        return Err(Unsaid::Memory);
    };
    match parse_line(heap, line.as_slice()) {
        Ok(Command::Sub { name: _, policy: _ }) => Ok(line),
        Err(LineError::Memory) => Err(Unsaid::Memory),
        _ => Err(Unsaid::Syntax),
    }
}

// The words of such a line, whatever they are.
fn sub_words(
    heap: &Heap,
    subject: &str,
    strategy: &str,
    errors: &str,
) -> Result<Vec<u8, Heap>, Memory>
    ensures { IfOk result (λ line. line.items ≡ sub_words subject.now strategy.now errors.now) }
{
    let mut line = Vec::from_slice(heap.clone()?, b"SUB ")?;
    put_word(&mut line, subject.as_bytes())?;
    put_word(&mut line, b" ")?;
    put_word(&mut line, strategy.as_bytes())?;
    put_word(&mut line, b" ")?;
    put_word(&mut line, errors.as_bytes())?;
    Ok(line)
}

/// Puts the line that emits an item behind what stands in a block: of this subject, with what a line of some input says, of which
/// one CR at its end is no part.
pub(crate) fn put_pub(block: &mut Vec<u8, Heap>, subject: &[u8], input: &[u8]) -> Result<(), Memory>
    ensures { OnOk result (block.new.items ≡ block.old.items ++ pub_line subject.now input.now) }
{
    put_word(block, b"PUB ")?;
    put_word(block, subject)?;
    put_word(block, b" ")?;
    put_word(block, input)?;
    put_word(block, b"\n")
}
