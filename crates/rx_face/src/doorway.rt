use rx_workers::Readiness;

/// Where the connections of a face come from, beside what it waits by. A wait comes back too once a connection came, or once the face is
/// to end.
pub trait Doorway<C, W>: Readiness<C> {
    ghost use Rattle.rx_workers.specs.Watching.{WatchesSame};

    /// The next connection that came by now, if one did: the half that is read and the half that is written. It waits for none.
    fn arrive(&mut self) -> Option<(C, W)>
        ensures { WatchesSame (Self.watched self.old) (Self.watched self.new) };

    /// Whether the face is to end.
    fn is_closed(&self) -> bool;
}

/// Closes a doorway, for good.
pub trait Closer {
    /// Has the doorway tell that its face is to end, and ends the wait that is under way, or else the next one.
    fn close(&self);
}
