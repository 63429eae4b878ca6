ghost use Rattle.std.specs.Prelude.{◌≡◌, List, [], ◌∷◌, ◌++◌};
ghost use Rattle.std.specs.Borrow.{ftrue};

use std::marker::{Model, PhantomData};

/// A list of what has been. It takes no memory, and its methods do nothing at run time: a contract reads it as `items`.
#[derive(Drop)]
pub struct Past<T> {
    of: PhantomData<T>,
    pub ghost items: { List T },
}

impl<T> Model for Past<T> {
    ghost also_owns = { λ _. ftrue };
}

// It owns nothing.
unsafe impl<T: Send> Send for Past<T> {}

impl<T> Past<T> {
    /// Nothing has been.
    pub fn new() -> Past<T>
        ensures { result.items ≡ [] }
    {
        Past { of: PhantomData }
    }

    /// What has been with one more.
    pub fn and(&self, item: &T) -> Past<T>
        ensures { result.items ≡ self.now.items ++ item.now ∷ [] }
    {
        Past { of: PhantomData }
    }
}
