//! What has been, which only proofs read.
//!
//! A type that promises something of all that it ever did keeps a [`Past`] of it, so that a contract can speak of what is not there
//! any more.
#![tactic(auto)]

mod past;

pub use past::Past;
