/// Why a box did not settle.
#[derive(Clone, Copy, Debug, PartialEq, Eq)]
pub enum SettleCause {
    /// The ports are not each port of the box just once.
    Stranger,
    /// They are, and the Bye of one of them was not received yet.
    MissingBye,
}
