use std::error::Error;
use std::fmt;

/// Why a call has no reply.
#[derive(Debug, Drop, PartialEq, Eq)]
pub enum CallError<S> {
    /// The subject's pump or its replies are gone. A call that was never sent comes with its sink.
    SubjectGone { sink: Option<S> },
    /// What came was no reply to this call: that of another subject or ticket, whose sink this is, or a Bye.
    Strange { sink: Option<S> },
}

impl<S> fmt::Display for CallError<S> {
    fn fmt<W: fmt::Write>(&self, f: &mut fmt::Formatter<W>) -> fmt::Result {
        match self {
            CallError::SubjectGone { sink: _ } => f.write_str("the subject is gone"),
            CallError::Strange { sink: _ } => f.write_str("what came is no reply to this call"),
        }
    }
}

impl<S: fmt::Debug + Drop> Error for CallError<S> {}
