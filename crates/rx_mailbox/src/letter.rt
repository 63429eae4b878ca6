/// What a letter carries.

pub(crate) mod batch;
pub(crate) mod lists;

#[derive(Debug, Drop, PartialEq, Eq)]
pub enum Post<B> {
    Body(B),
    /// The last post of a port: nothing of that port comes after it.
    Bye,
}

/// A post, and the number of the port that sent it.
#[derive(Debug, Drop, PartialEq, Eq)]
pub struct Letter<B> {
    pub from: u32,
    pub post: Post<B>,
}
