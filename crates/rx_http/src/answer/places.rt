ghost use Rattle.std.specs.Prelude.{◌≡◌, ◌<◌, ◌++◌, ◌∷◌, [], length};
ghost use Rattle.rx_http.specs.Responses.{ArePlaces};

use crate::request::body_lines::MAX_LINES;
use std::marker::Model;

/// Where the items of the lines of a body stand, in their order: at most 256. It takes no memory. Contracts see the list of them.
#[derive(Drop)]
pub struct Places {
    places: [u32; MAX_LINES],
    count: usize,
}

impl Model for Places {
    ghost use Rattle.std.specs.Prelude.{◌<◌, ◌≤◌, ◌^◌, List, ℕ, take};
    ghost use Rattle.std.specs.List.{AllByRecursion};

    ghost Value = { List ℕ };

    ghost view = { λ p. take p.count p.places };

    ghost invariant = { λ p. (p.count ≤ 256) × AllByRecursion (λ place. place < 2 ^ 32) (take p.count p.places) };
}

impl Places {
    /// None.
    pub fn new() -> Places
        ensures { result ≡ [] }
    {
        Places {
            places: [0; MAX_LINES],
            count: 0,
        }
    }

    /// One more.
    pub fn push(&mut self, place: u32)
        requires { length self.old < 256 }
        ensures { self.new ≡ self.old ++ place ∷ [] }
    {
        self.places[self.count] = place;
        self.count += 1;
    }

    /// All of them.
    pub fn as_slice(&self) -> &[u32]
        ensures places { result.now ≡ self.now }
        ensures are { ArePlaces self.now }
    {
        &self.places[..self.count]
    }
}
