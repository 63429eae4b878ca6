//! What the grammar, the readings of a line and the printing say of each other. The functions do nothing: their clauses are
//! the laws.
ghost use Rattle.rx_proto.specs.Grammar.{SpellsCommand, SpellsInScript};
ghost use Rattle.rx_proto.specs.Laws.{IsExact, NotesTell, PlacedNotesTell, RepliesTell};
ghost use Rattle.rx_proto.specs.Reading.{script_read, session_read};

/// A line of a session is read exactly as the grammar has it.
pub fn session_lines_are_exact()
    ensures { IsExact session_read SpellsCommand }
{}

/// A line of a script is read exactly as the grammar has it.
pub fn script_lines_are_exact()
    ensures { IsExact script_read SpellsInScript }
{}

/// Two responses written alike are equal.
pub fn replies_tell()
    ensures { RepliesTell }
{}

/// Two notes written alike in the first version are equal but for the ports and the places of their items.
pub fn notes_tell()
    ensures { NotesTell }
{}

/// Two notes written alike in the second version are equal, where an item has a seed's place only together with a seed's
/// port.
pub fn placed_notes_tell()
    ensures { PlacedNotesTell }
{}
