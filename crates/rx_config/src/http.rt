// What a server serves over HTTP.
ghost use Rattle.std.specs.Prelude.{◌≤◌, length};

use rx_note::Text;

/// The most bytes of the path of a socket.
pub(crate) const MAX_PATH: usize = 107;

/// What a server serves over HTTP, and to how many at a time. The limits are this project's own.
#[derive(Drop, Debug)]
pub struct Http {
    /// The path of the Unix socket at which requests are heard, 1 to 107 bytes without LF.
    pub socket: Text,
    /// How long a reader of events hears nothing before a beat is sent to it, 1 to 3,600 seconds.
    pub heartbeat: u16,
    /// How many read events at a time, 1 to 4,096.
    pub readers: u16,
    /// Whether notes may be emitted; else readers alone are served.
    pub emit: bool,
    /// Whether the server may be stopped by a request.
    pub stop: bool,
    ghost socket_in_range: { (1 ≤ length socket) × (length socket ≤ 107) },
    ghost heartbeat_in_range: { (1 ≤ heartbeat) × (heartbeat ≤ 3600) },
    ghost readers_in_range: { (1 ≤ readers) × (readers ≤ 4096) },
}
