use rx_note::Refusal;
use thiserror::Error;

/// Why a caller was not had, or a call has no answer.
#[derive(Clone, Copy, Debug, PartialEq, Eq, Error)]
pub enum CallerError {
    /// All desks of the server were handed out: there are as many as its configuration has workers.
    #[error("no desk is left")]
    NoDesk,
    /// The server has no subject of this number. Nothing was sent.
    #[error("the server has no subject of this number")]
    NoSubject,
    /// The thread of the subject has ended by a fault, which the close of the server tells; or an answer came that is none to
    /// this call, and the caller makes no other one.
    #[error("the subject is gone")]
    Gone,
    /// The subject refused it, and nothing has changed.
    #[error("refused: {0}")]
    Refused(Refusal),
}
