// What contracts alone see of something, as std's `Snapshot`. But of a struct that holds a `Snapshot` beside a list over a heap
// the check doesn't find by itself that it may go to another thread: each program with callers in threads would have to prove it.
ghost use Rattle.std.specs.Prelude.{◌≡◌};

use std::marker::{Model, PhantomData};

// What something comes from, as it was. It has no bytes.
#[derive(Drop)]
pub(crate) struct Origin<T> {
    of: PhantomData<T>,
    pub(crate) ghost value: { T },
}

impl<T> Model for Origin<T> {
    ghost use Rattle.std.specs.Borrow.{ftrue};

    ghost also_owns = { λ _. ftrue };
}

// It owns nothing.
unsafe impl<T> Send for Origin<T> {}

impl<T> Origin<T> {
    // This, as it is now.
    pub(crate) fn of(item: &T) -> Origin<T>
        ensures { result.value ≡ item.now }
    {
        Origin { of: PhantomData }
    }
}
