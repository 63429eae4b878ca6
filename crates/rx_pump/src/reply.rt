use rx_note::{Answer, Refusal};

/// What a pump replies to a call.
#[derive(Drop)]
pub struct Reply<S> {
    /// The call's.
    pub ticket: u64,
    /// What the subject answered.
    pub result: Result<Answer, Refusal>,
    /// The call's sink, unless it went to a drainer.
    pub sink: Option<S>,
    /// How many items the subject had accepted once it answered. Behind an accepted item its place is one less; an observer
    /// that joined is given no place below, save what the subject kept for joiners.
    pub items: u32,
}
