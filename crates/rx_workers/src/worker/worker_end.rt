use rx_desk::ClientSink;
use rx_mailbox::Inbox;
use rx_pump::CallDesk;
use std::io::Write;

/// What a worker leaves.
#[derive(Drop)]
pub struct WorkerEnd<C: Drop, W: Write + Drop> {
    /// The desk by which it made its calls. Its ports haven't ended.
    pub desk: CallDesk<ClientSink<W>>,
    /// The inbox of its connections.
    pub inbox: Inbox<(C, W)>,
    /// How many connections it served, up to the greatest `u64`.
    pub sessions: u64,
}
