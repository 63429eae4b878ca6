use std::fs::File;
use std::net::Net;
use std::rt::Files;
use std::sync::Wait;
use std::thread::Threads;
use std::time::Clock;

/// What the program is handed of its host: memory, files, sockets, a clock and threads.
pub trait Host: AllocGlobal
    + Files<File = File>
    + Net
    + Clock
    + Threads
    + Wait
    + Clone
    + Drop
    + Send
    + 'static {}

impl<
    T: AllocGlobal
        + Files<File = File>
        + Net
        + Clock
        + Threads
        + Wait
        + Clone
        + Drop
        + Send
        + 'static,
> Host for T {}
