/// What a server grants to browsers.
#[derive(Clone, Copy, Debug, PartialEq, Eq)]
pub struct Grants {
    /// How many readers are held at a time at most.
    pub readers: u32,
    /// Whether notes may be emitted, or readers alone are served.
    pub may_emit: bool,
    /// Whether the server may be stopped by a request.
    pub may_stop: bool,
    /// After how many seconds in which a reader was told nothing it is told a heartbeat.
    pub heartbeat: u16,
}
