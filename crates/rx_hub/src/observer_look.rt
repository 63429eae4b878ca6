use rx_note::{Errors, Strategy};

/// What is seen of an observer that is held.
#[derive(Clone, Copy, Debug, PartialEq, Eq)]
pub struct ObserverLook {
    /// Its number.
    pub who: u32,
    /// How it joined.
    pub strategy: Strategy,
    pub errors: Errors,
    /// How many notes wait for it, the terminal included.
    pub waiting: usize,
    /// How many more items it may be given before it requests more.
    pub owed: u32,
}
