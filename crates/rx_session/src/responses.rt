// What an event is answered on the line.
ghost use Rattle.std.specs.Prelude.{◌≡◌};
ghost use Rattle.rx_session.specs.Responses.{response_to, word_of};

use rx_note::{Answer, Refusal};
use rx_proto::{Response, Word};

/// The response to an event that was answered so.
pub fn response_to(answered: Result<Answer, Refusal>) -> Response
    ensures { result ≡ response_to answered }
{
    match answered {
        Ok(Answer::Joined(who)) => Response::Joined(who),
        Ok(Answer::Admitted) => Response::Done,
        Ok(Answer::Asked) => Response::Done,
        Ok(Answer::Left) => Response::Done,
        Err(refusal) => Response::Refused(word_of(refusal)),
    }
}

fn word_of(refusal: Refusal) -> Word
    ensures { result ≡ word_of refusal }
{
    match refusal {
        Refusal::Ended => Word::Ended,
        Refusal::Full => Word::Full,
        Refusal::Spent => Word::Spent,
        Refusal::ZeroRequest => Word::Zero,
        Refusal::NoObserver => Word::Observer,
        Refusal::TooMuch => Word::TooMuch,
        Refusal::Memory => Word::Memory,
    }
}
