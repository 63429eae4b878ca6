ghost use Rattle.std.specs.Prelude.{◌≡◌, ◌≢◌, ◌++◌, ℕ, List, IfNone, IfSome, MatchOption, codes};
ghost use Rattle.rx_note.specs.declared.item.Item.{Item};
ghost use Rattle.rx_note.specs.declared.note.Note.{Note};
ghost use Rattle.rx_note.specs.declared.note.Note.TheVariants.{Next};
ghost use Rattle.rx_proto.specs.Laws.{IsPlaced};
ghost use Rattle.rx_proto.specs.Printing.{item_saying, saying_of};
ghost use Rattle.rx_proto.specs.declared.version.Version.TheVariants.{Two};
ghost use Rattle.rx_client.specs.Hearing.{note_of};

use crate::decimals::decimal_before_space;

/// What a server tells an observer by one line of the second version, its text still among the line's bytes.
#[derive(Clone, Copy, Debug)]
pub enum Heard<'a> {
    /// An item, its place and the port that it came by.
    Item {
        place: u32,
        from: u32,
        text: &'a [u8],
    },
    /// The seed of a Behavior.
    Seed(&'a [u8]),
    /// The subject is completed.
    Done,
    /// The subject has failed, or what was wanted of it did.
    Failed(&'a [u8]),
}

/// What this line tells, without its LF. None: no server prints it.
pub fn read_note(line: &[u8]) -> Option<Heard<'_>>
    ensures some { IfSome result (λ heard. saying_of Two (note_of heard) ≡ line.now) }
    ensures none { IfNone result ((note : Note) → IsPlaced note → saying_of Two note ≢ line.now) }
{
    if line == b"DONE".as_slice() {
        return Some(Heard::Done);
    }
    if let Some(text) = behind(line, b"FAILED ") {
        return Some(Heard::Failed(text));
    }
    match behind(line, b"NEXT ") {
        Some(rest) => read_item(rest),
        None => None,
    }
}

// What the words behind `NEXT` tell.
fn read_item(words: &[u8]) -> Option<Heard<'_>>
    ensures some { IfSome result (λ heard. saying_of Two (note_of heard) ≡ codes "NEXT " ++ words.now) }
    ensures none { IfNone result ((item : Item) → IsPlaced (Next item) → item_saying Two item ≢ words.now) }
{
    if let Some(text) = behind(words, b"- - ") {
        return Some(Heard::Seed(text));
    }
    let Some((place, rest)) = decimal_before_space(words) else {
        return None;
    };
    let Some((from, text)) = decimal_before_space(rest) else {
        return None;
    };
    if place == u32::MAX {
        return None;
    }
    Some(Heard::Item { place, from, text })
}

// What stands behind a word with which these bytes begin.
fn behind<'a>(bytes: &'a [u8], word: &[u8]) -> Option<&'a [u8]>
    ensures { MatchOption result ((rest : List ℕ) → bytes.now ≢ word.now ++ rest) (λ rest. bytes.now ≡ word.now ++ rest.now) }
{
    bytes.strip_prefix(word)
}
