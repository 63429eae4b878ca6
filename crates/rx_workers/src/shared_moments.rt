use rx_desk::Moments;
use std::marker::Model;
use std::sync::{Mutex, Wait};

/// Moments that several threads share: the lock is held only while a moment is read. Contracts know of such a moment that it
/// was told in some state.
#[derive(Drop)]
pub struct SharedMoments<'a, R, M> {
    rt: &'a R,
    moments: &'a Mutex<M>,
}

impl<'a, R, M> Model for SharedMoments<'a, R, M> {
    ghost Value = { Unit {0} };

    ghost view = { λ _. tt };
}

impl<'a, R, M> SharedMoments<'a, R, M> {
    /// The moments behind a lock.
    pub fn new(rt: &'a R, moments: &'a Mutex<M>) -> SharedMoments<'a, R, M> {
        SharedMoments { rt, moments }
    }
}

impl<'a, R: Wait, M: Moments> Moments for SharedMoments<'a, R, M> {
    ghost use Rattle.rx_workers.specs.Telling.{IsTold};

    ghost tells = { λ _ moment _. IsTold M.tells moment };

    fn now(&mut self) -> u64 {
        self.moments.lock(self.rt).now()
    }
}
