//! What holds of whatever a follower hears.
ghost use Rattle.rx_client.specs.Tiling.{EachOnce, NothingElse};

/// A follower tells each place of a server, from the first that it wants on, once and in order: as an item, or as missed.
pub fn each_item_is_told_once()
    ensures { EachOnce }
{}

/// A follower tells no item that it did not hear.
pub fn nothing_else_is_told()
    ensures { NothingElse }
{}
