use rx_http::IdempotencyKey;

/// What the emission by a key at a subject was answered.
#[derive(Drop)]
pub(crate) struct KeptAnswer {
    /// The place of the subject in the configuration.
    pub(crate) subject: usize,
    pub(crate) key: IdempotencyKey,
    /// The place of its item, if it has one.
    pub(crate) place: Option<u32>,
}
