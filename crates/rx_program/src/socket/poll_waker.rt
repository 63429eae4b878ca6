use rx_server::Waker;

/// Ends a wait of the [`Polling`](crate::Polling) that it is of.
#[derive(Drop)]
pub struct PollWaker {
    waker: mio::Waker,
}

impl PollWaker {
    /// The one that wakes so.
    pub(crate) fn new(waker: mio::Waker) -> PollWaker {
        PollWaker { waker }
    }
}

impl Waker for PollWaker {
    fn wake(&self) {
        let _ = self.waker.wake();
    }
}
