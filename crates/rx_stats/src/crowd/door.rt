/// The socket that a connection came to.
#[derive(Clone, Copy)]
pub enum Door {
    /// That of sessions.
    Sessions,
    /// That of HTTP.
    Http,
}
