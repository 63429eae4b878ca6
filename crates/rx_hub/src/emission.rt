use rx_note::Note;

/// A note that is emitted from a port at a moment, in milliseconds.
#[derive(Drop)]
pub(crate) struct Emission {
    pub(crate) port: u32,
    pub(crate) note: Note,
    pub(crate) at: u64,
}
