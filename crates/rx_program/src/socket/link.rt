use rx_heap::Heap;
use std::os::unix::net::UnixStream;
use std::sync::Arc;

/// A connection, by both of its halves: one descriptor, and neither reading nor writing waits.
pub type Link = Arc<UnixStream, Heap>;
