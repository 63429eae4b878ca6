// What a call is answered on the line.
ghost use Rattle.std.specs.Prelude.{◌≡◌};
ghost use Rattle.rx_desk.specs.Responses.{response_of, has_joined, sink_back};
ghost use Rattle.rx_desk.specs.Responses as responses;

use rx_note::{Answer, Refusal};
use rx_proto::{Response, Word};
use rx_pump::{CallError, Reply};
use rx_session::response_to;

// The response to a call.
pub(crate) fn response_of<S>(answered: &Result<Reply<S>, CallError<S>>) -> Response
    ensures { result ≡ response_of answered.now }
{
    match answered {
        Ok(reply) => response_to(reply.result),
        Err(_) => Response::Refused(Word::Gone),
    }
}

// Whether the call made an observer.
pub(crate) fn has_joined<S>(answered: &Result<Reply<S>, CallError<S>>) -> bool
    ensures { result ≡ responses.has_joined answered.now }
{
    match answered {
        Ok(reply) => is_joined(reply.result),
        Err(_) => false,
    }
}

fn is_joined(answered: Result<Answer, Refusal>) -> bool
    ensures { result ≡ responses.is_joined answered }
{
    matches!(answered, Ok(Answer::Joined(_)))
}

// The sink that came back, if one did.
pub(crate) fn sink_back<S: Drop>(answered: Result<Reply<S>, CallError<S>>) -> Option<S>
    ensures { result ≡ sink_back answered }
{
    match answered {
        Ok(reply) => reply.sink,
        Err(CallError::SubjectGone { sink }) => sink,
        Err(CallError::Strange { sink }) => sink,
    }
}
