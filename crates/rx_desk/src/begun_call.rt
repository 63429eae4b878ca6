use rx_note::Event;

/// The call of what a session began to emit.
#[derive(Drop)]
pub struct BegunCall {
    // The place of its subject.
    pub(crate) place: usize,
    pub(crate) event: Event,
}
