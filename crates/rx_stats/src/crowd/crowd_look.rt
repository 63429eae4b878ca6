use crate::crowd::door_look::DoorLook;

/// What is seen of the connections of a server at one moment.
#[derive(Clone, Copy)]
pub struct CrowdLook {
    /// Of the socket of sessions.
    pub sessions: DoorLook,
    /// Of that of HTTP.
    pub http: DoorLook,
}
