use rx_note::{Item, Note};

/// What a joiner begins with where the items of its subject stand on a tape: first the lead, then the last `back` items of
/// the tape, then the end.
#[derive(Drop)]
pub struct TapeOpening {
    pub lead: Option<Item>,
    pub back: usize,
    pub end: Option<Note>,
}
