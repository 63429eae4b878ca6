// What becomes of what browsers ask for, by what its subject answered.
ghost use Rattle.std.specs.Prelude.{◌≡◌};
ghost use Rattle.rx_desk.specs.EventDesks.{cause_in, cause_of, joining_by, request_cause, requested_by};

use crate::client_sink::ClientSink;
use crate::responses::{has_joined, sink_back};
use rx_exchange::Joining;
use rx_http::Refusal;
use rx_note::Answer;
use rx_pump::{CallError, Reply};
use std::io::Write;

/// What becomes of the writer, by the answer to the call of its sink.
pub(crate) fn joining_by<W: Write + Drop>(
    answered: Result<Reply<ClientSink<W>>, CallError<ClientSink<W>>>,
) -> Joining<W>
    ensures { result ≡ joining_by answered }
{
    if has_joined(&answered) {
        return Joining::Taken;
    }
    let cause = cause_of(&answered);
    match sink_back(answered) {
        None => Joining::Taken,
        Some(sink) => Joining::Back(cause, sink.into_writer()),
    }
}

// Why a Join is refused whose call was answered so.
fn cause_of<S>(answered: &Result<Reply<S>, CallError<S>>) -> Refusal
    ensures { result ≡ cause_of answered.now }
{
    match answered {
        Ok(reply) => cause_in(reply.result),
        Err(_) => Refusal::Gone,
    }
}

// Why a Join is refused, by what its subject answered.
fn cause_in(answered: Result<Answer, rx_note::Refusal>) -> Refusal
    ensures { result ≡ cause_in answered }
{
    match answered {
        Err(rx_note::Refusal::Full) => Refusal::Full,
        Err(rx_note::Refusal::Spent) => Refusal::Spent,
        Err(rx_note::Refusal::Memory) => Refusal::Memory,
        Ok(_)
        | Err(
            rx_note::Refusal::Ended
            | rx_note::Refusal::ZeroRequest
            | rx_note::Refusal::NoObserver
            | rx_note::Refusal::TooMuch,
        ) => Refusal::Gone,
    }
}

/// What a request of items is answered whose call was answered so.
pub(crate) fn requested_by<S>(answered: &Result<Reply<S>, CallError<S>>) -> Result<(), Refusal>
    ensures { result ≡ requested_by answered.now }
{
    match answered {
        Ok(reply) => match reply.result {
            Ok(_) => Ok(()),
            Err(refusal) => Err(request_cause(refusal)),
        },
        Err(_) => Err(Refusal::Gone),
    }
}

// Why a request of items is refused, by what its subject answered.
fn request_cause(refusal: rx_note::Refusal) -> Refusal
    ensures { result ≡ request_cause refusal }
{
    match refusal {
        rx_note::Refusal::NoObserver | rx_note::Refusal::Ended => Refusal::Observer,
        rx_note::Refusal::ZeroRequest | rx_note::Refusal::TooMuch => Refusal::Items,
        rx_note::Refusal::Memory => Refusal::Memory,
        rx_note::Refusal::Full | rx_note::Refusal::Spent => Refusal::Gone,
    }
}
