use rx_note::Policy;

/// An observer that joins: its number, its policy, and how many items it requests at first, 0 allowed.
#[derive(Clone, Copy)]
pub struct Joiner {
    pub who: u32,
    pub policy: Policy,
    pub first: u32,
}
