// A place of a worker's table is its connection's key, and is given anew only before a wait, so that no event of one
// connection is taken for another's.
ghost use Rattle.std.specs.Prelude.{◌≡◌, ◌<◌, ◌↔◌, [], ◌∷◌, ◌++◌, IfNone, IfOk, IfSome, IsTrue, MatchOption, None, OnErr, OnOk, OnSome, Some, length};
ghost use Rattle.std.specs.List.{All};
ghost use Rattle.rx_workers.specs.Clients.{AreSameClients, IsFollower, IsQuiet, IsSilent, IsTalk, IsUnserved, Sets, client_at, first_vacant};
ghost use Rattle.rx_workers.specs.Talks.{silent};
ghost use Rattle.rx_workers.specs.declared.worker.client.Client.TheVariants.{Follows, Talks};

use crate::worker::client::{Client, Follower, Talk};
use rx_heap::{Heap, Memory};
use std::marker::Model;
use std::mem;

/// The clients of a worker, each at a place of its own, from 0. Contracts see the list of the places, each with its client or
/// vacant.
pub struct Clients<C: Drop, W: Drop, T: Drop> {
    places: Vec<Option<Client<C, W, T>>, Heap>,
}

// By hand: rx_heap says why.
impl<C: Drop, W: Drop, T: Drop> Drop for Clients<C, W, T> {
    fn drop(self) {
        let Clients { places: _ } = self;
    }
}

impl<C: Drop, W: Drop, T: Drop> Model for Clients<C, W, T> {
    ghost use Rattle.std.specs.Prelude.{List, Option};
    ghost use Rattle.rx_workers.specs.declared.worker.client.Client.{Client};

    ghost Value = { List (Option (Client C W T)) };

    ghost view = { λ c. c.places.items };
}

impl<C: Drop, W: Drop, T: Drop> Clients<C, W, T> {
    /// No clients.
    pub fn new(alloc: Heap) -> Clients<C, W, T>
        ensures { result ≡ [] }
    {
        Clients {
            places: Vec::new(alloc),
        }
    }

    /// A place that is vacant: one more, behind the others, where none of them is.
    pub fn vacancy(&mut self) -> Result<usize, Memory>
        ensures vacant { IfOk result (λ place. client_at place self.new ≡ None) }
        ensures within { IfOk result (λ place. place < length self.new) }
        ensures same { AreSameClients self.old self.new }
        ensures kept { OnSome (first_vacant self.old) (self.new ≡ self.old) }
        ensures grown { IfNone (first_vacant self.old) (OnOk result (self.new ≡ self.old ++ None ∷ [])) }
        ensures full { OnErr result (first_vacant self.old ≡ None) }
        ensures failed { OnErr result (self.new ≡ self.old) }
    {
        if let Some(place) = first_vacant(&self.places) {
            return Ok(place);
        }
        let place = self.places.len();
        let Ok(()) = self.places.push(None) else {
            return Err(Memory);
        };
        Ok(place)
    }

    /// Puts a client at a place, or leaves it vacant.
    pub fn put(&mut self, place: usize, client: Option<Client<C, W, T>>)
        requires { place < length self.old }
        ensures { Sets place self.old self.new (client_at place self.old) client }
    {
        self.places[place] = client;
    }

    /// Whether a connection is at this place of which nothing came yet.
    pub fn is_silent(&self, place: usize) -> bool
        ensures { IsTrue result ↔ IsSilent (client_at place self.now) }
    {
        matches!(self.places.get(place), Some(Some(Client::Silent(_, _))))
    }

    /// Takes the connection at this place, where nothing came of it yet. It is vacant then.
    pub fn take_silent(&mut self, place: usize) -> Option<(C, W)>
        ensures taken { MatchOption result (self.new ≡ self.old) (λ connection. Sets place self.old self.new (silent connection) None) }
        ensures none { IfNone result (¬ IsSilent (client_at place self.old)) }
        ensures within { IfSome result (λ _. place < length self.new) }
    {
        if !self.is_silent(place) {
            return None;
        }
        match mem::replace(&mut self.places[place], None) {
            Some(Client::Silent(reader, writer)) => Some((reader, writer)),
            _ => unreachable!(),
        }
    }

    /// Takes the session under way at this place. It is vacant then.
    pub fn take_talk(&mut self, place: usize) -> Option<Talk<C, W, T>>
        ensures taken { MatchOption result (self.new ≡ self.old) (λ talk. Sets place self.old self.new (Some (Talks talk)) None) }
        ensures none { IfNone result (¬ IsTalk (client_at place self.old)) }
        ensures within { IfSome result (λ _. place < length self.new) }
    {
        match self.places.get(place) {
            Some(Some(Client::Talks(_))) => {}
            _ => return None,
        }
        match mem::replace(&mut self.places[place], None) {
            Some(Client::Talks(talk)) => Some(talk),
            _ => unreachable!(),
        }
    }

    /// Takes the follower at this place. It is vacant then.
    pub fn take_follower(&mut self, place: usize) -> Option<Follower<C>>
        ensures taken { MatchOption result (self.new ≡ self.old) (λ follower. Sets place self.old self.new (Some (Follows follower)) None) }
        ensures none { IfNone result (¬ IsFollower (client_at place self.old)) }
    {
        match self.places.get(place) {
            Some(Some(Client::Follows(_))) => {}
            _ => return None,
        }
        match mem::replace(&mut self.places[place], None) {
            Some(Client::Follows(follower)) => Some(follower),
            _ => unreachable!(),
        }
    }

    /// Whether no session is under way or has yet to begin.
    pub fn is_quiet(&self) -> bool
        ensures { IsTrue result ↔ IsQuiet self.now }
    {
        all_are_served(&self.places)
    }
}

// The first of these places that is vacant.
fn first_vacant<C: Drop, W: Drop, T: Drop>(
    places: &Vec<Option<Client<C, W, T>>, Heap>,
) -> Option<usize>
    ensures { result ≡ first_vacant places.now.items }
{
    places.iter().position(|slot| slot.is_none())
}

// Whether a session is under way or has yet to begin at none of these places.
fn all_are_served<C: Drop, W: Drop, T: Drop>(places: &Vec<Option<Client<C, W, T>>, Heap>) -> bool
    ensures { IsTrue result ↔ All (λ slot. ¬ IsUnserved slot) places.now.items }
{
    places.iter().all(|slot| !is_unserved(slot))
}

// Whether a session is under way or has yet to begin there.
fn is_unserved<C: Drop, W: Drop, T: Drop>(slot: &Option<Client<C, W, T>>) -> bool
    ensures { IsTrue result ↔ IsUnserved slot.now }
{
    matches!(slot, Some(Client::Silent(_, _) | Client::Talks(_)))
}
