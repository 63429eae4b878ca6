use crate::CallerError;
use std::error::Error;
use std::fmt;

/// An observer did not join.
#[derive(Drop)]
pub struct NotJoined<S> {
    /// Why.
    pub cause: CallerError,
    /// Its sink. None: it was sent, and is gone with the thread of the subject.
    pub sink: Option<S>,
}

// As its cause: a sink need not be shown.
impl<S> fmt::Debug for NotJoined<S> {
    fn fmt<W: fmt::Write>(&self, f: &mut fmt::Formatter<W>) -> fmt::Result {
        fmt::Debug::fmt(&self.cause, f)
    }
}

impl<S> fmt::Display for NotJoined<S> {
    fn fmt<W: fmt::Write>(&self, f: &mut fmt::Formatter<W>) -> fmt::Result {
        fmt::Display::fmt(&self.cause, f)
    }
}

impl<S: Drop> Error for NotJoined<S> {}
