use crate::socket::poll_waker::PollWaker;
use rx_heap::Heap;
use rx_server::{Closer, Waker};
use std::sync::Arc;
use std::sync::atomic::{AtomicBool, Ordering};

/// Closes the [`FaceSocket`](crate::FaceSocket) that it is of.
#[derive(Drop)]
pub struct FaceCloser {
    closed: Arc<AtomicBool, Heap>,
    waker: PollWaker,
}

impl FaceCloser {
    /// The one that tells it so, and wakes it.
    pub(crate) fn new(closed: Arc<AtomicBool, Heap>, waker: PollWaker) -> FaceCloser {
        FaceCloser { closed, waker }
    }
}

impl Closer for FaceCloser {
    fn close(&self) {
        self.closed.store(true, Ordering::SeqCst);
        self.waker.wake();
    }
}
