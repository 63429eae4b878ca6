/// What is seen of the connections of one socket at one moment.
#[derive(Clone, Copy)]
pub struct DoorLook {
    /// How many are open.
    pub open: u64,
    /// How many were accepted since the start.
    pub accepted: u64,
}
