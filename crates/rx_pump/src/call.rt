use rx_note::Event;

/// What a pump is asked: one event of its subject.
#[derive(Drop)]
pub struct Call<S> {
    /// Names the call to the one who waits for its reply. The pump only hands it back.
    pub ticket: u64,
    pub event: Event,
    /// Where the notes of the observer go that an accepted Join makes. Beside another event it comes back in the reply.
    pub sink: Option<S>,
}
