/// What becomes of the items that an observer did not request yet (<https://reactivex.io/documentation/operators/backpressure.html>).
///
/// A room is the most items that wait. Rooms, `Latest` and that an overflow ends one observer alone are this project's own.
#[derive(Clone, Copy, Debug, PartialEq, Eq)]
pub enum Strategy {
    /// All of them wait.
    Buffer,
    /// An item that finds the room, 0 to 1,024 items, full is lost.
    Drop(u16),
    /// Where an item finds the room, 1 to 1,024 items, full, the oldest that waits is lost, and it waits behind the others.
    Latest(u16),
    /// Where an item finds the room, 0 to 1,024 items, full, the observer ends by an error, `OVERFLOW`, in its place. The
    /// subject and all other observers go on.
    Bounded(u16),
}
