use rx_proto::Name;

/// An observer that is given up.
#[derive(Drop, Debug)]
pub struct About {
    /// Its number.
    pub observer: u32,
    /// The name of its subject.
    pub subject: Name,
    /// How many bytes waited in its connection.
    pub bytes: u64,
}
