use crate::readiness::Aim;
use rx_desk::Joined;
use rx_heap::Heap;

/// A connection that a worker serves: by a session of its kind, which is made once something comes, or once that has handed its writer
/// over, by watching whether its peer hung up.
#[derive(Drop)]
pub enum Client<C: Drop, W: Drop, T: Drop> {
    /// Nothing came yet, and there is no session: the half that is read, and the half that is written.
    Silent(C, W),
    /// A session is under way.
    Talks(Talk<C, W, T>),
    /// An observer joined, to whom the writer was handed.
    Follows(Follower<C>),
}

/// A session under way over the halves of its connection.
#[derive(Drop)]
pub struct Talk<C: Drop, W: Drop, T: Drop> {
    /// The half that is read.
    pub reader: C,
    /// The half that is written.
    pub writer: W,
    /// The session.
    pub session: Box<T, Heap>,
    /// What its connection is watched for.
    pub aim: Aim,
}

/// An observer, and the half of its connection that was read.
#[derive(Drop)]
pub struct Follower<C: Drop> {
    /// The half that was read.
    pub reader: C,
    /// Who joined.
    pub observer: Joined,
}
