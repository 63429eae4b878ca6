//! Answers to requests, each byte for byte.

use crate::expectations::expect_told;
use rx_heap::Heap;
use rx_http::{Answer, Document, Epoch, LookForm, MAX_LINES, Places, Refusal, write_answer};
use std::test::Fail;

/// What a request is answered, as a row tells it: by a server of the epoch `1a21de595e8`.
#[derive(Clone, Copy, PartialEq, Eq)]
pub(crate) enum Answered {
    Events,
    Over,
    Well,
    Unwell,
    Accepted(Option<u32>),
    /// It was accepted before.
    Again(Option<u32>),
    /// Lines were accepted, and there their items stand.
    Placed(&'static [u32]),
    /// The first lines were, and the one behind them was refused.
    Cut(&'static [u32], Refusal),
    Requested,
    Stops,
    /// What is seen is `{}` and a line.
    Stats,
    /// What is seen is `a 1` and a line.
    Metrics,
    /// What is seen is `s open` and a line.
    Lines,
    /// What is seen is `<p>s` and a line.
    Page,
    Refused(Refusal),
}

impl Answered {
    fn answer(self, heap: &Heap) -> Result<Answer, Fail> {
        match self {
            Answered::Events => Ok(Answer::Events),
            Answered::Over => Ok(Answer::Over),
            Answered::Well => Ok(Answer::Well),
            Answered::Unwell => Ok(Answer::Unwell),
            Answered::Accepted(place) => accepted(place, false),
            Answered::Again(place) => accepted(place, true),
            Answered::Placed(places) => placed(places),
            Answered::Cut(places, refusal) => cut(places, refusal),
            Answered::Stats => shown(heap, LookForm::Stats, b"{}\n"),
            Answered::Metrics => shown(heap, LookForm::Metrics, b"a 1\n"),
            Answered::Lines => shown(heap, LookForm::Lines, b"s open\n"),
            Answered::Page => shown(heap, LookForm::Page, b"<p>s\n"),
            Answered::Requested => Ok(Answer::Requested),
            Answered::Stops => Ok(Answer::Stops),
            Answered::Refused(cause) => Ok(Answer::Refused(cause)),
        }
    }
}

fn accepted(place: Option<u32>, again: bool) -> Result<Answer, Fail> {
    Ok(Answer::Accepted {
        epoch: epoch()?,
        place,
        again,
    })
}

fn placed(places: &[u32]) -> Result<Answer, Fail> {
    Ok(Answer::Placed {
        epoch: epoch()?,
        places: places_of(places),
    })
}

fn cut(places: &[u32], refusal: Refusal) -> Result<Answer, Fail> {
    Ok(Answer::Cut {
        epoch: epoch()?,
        places: places_of(places),
        refusal,
    })
}

fn epoch() -> Result<Epoch, Fail> {
    Ok(Epoch::new(b"1a21de595e8").ok_or("no epoch")?)
}

/// These places, as many as there may be.
pub(crate) fn places_of(all: &[u32]) -> Places {
    let mut places = Places::new();
    for place in all {
        if places.as_slice().len() < MAX_LINES {
            places.push(*place);
        }
    }
    places
}

fn shown(heap: &Heap, form: LookForm, bytes: &[u8]) -> Result<Answer, Fail> {
    let bytes = Vec::from_slice(heap.clone()?, bytes)?;
    let body = Document::new(bytes).ok_or("too long")?;
    Ok(Answer::Shown { form, body })
}

/// Each answer and its bytes.
const ANSWERS: &[(Answered, &[u8])] = &[
    (
        Answered::Events,
        b"HTTP/1.1 200 OK\r\nContent-Type: text/event-stream\r\nCache-Control: no-store, no-transform\r\nX-Accel-Buffering: no\r\nContent-Encoding: identity\r\nVary: Accept, Origin\r\nConnection: close\r\n\r\n",
    ),
    (
        Answered::Over,
        b"HTTP/1.1 204 No Content\r\nCache-Control: no-store\r\nX-Content-Type-Options: nosniff\r\nConnection: close\r\n\r\n",
    ),
    (
        Answered::Well,
        b"HTTP/1.1 200 OK\r\nContent-Type: text/plain; charset=utf-8\r\nContent-Length: 3\r\nCache-Control: no-store\r\nX-Content-Type-Options: nosniff\r\nConnection: close\r\n\r\nok\n",
    ),
    (
        Answered::Unwell,
        b"HTTP/1.1 503 Service Unavailable\r\nContent-Type: text/plain; charset=utf-8\r\nContent-Length: 7\r\nCache-Control: no-store\r\nX-Content-Type-Options: nosniff\r\nConnection: close\r\n\r\nunwell\n",
    ),
    (
        Answered::Stops,
        b"HTTP/1.1 202 Accepted\r\nContent-Type: text/plain; charset=utf-8\r\nContent-Length: 9\r\nCache-Control: no-store\r\nX-Content-Type-Options: nosniff\r\nConnection: close\r\n\r\nstopping\n",
    ),
    (
        Answered::Accepted(None),
        b"HTTP/1.1 200 OK\r\nContent-Type: application/json\r\nContent-Length: 24\r\nCache-Control: no-store\r\nX-Content-Type-Options: nosniff\r\nConnection: close\r\n\r\n{\"epoch\":\"1a21de595e8\"}\n",
    ),
    (
        Answered::Accepted(Some(0)),
        b"HTTP/1.1 200 OK\r\nContent-Type: application/json\r\nContent-Length: 34\r\nCache-Control: no-store\r\nX-Content-Type-Options: nosniff\r\nConnection: close\r\n\r\n{\"epoch\":\"1a21de595e8\",\"place\":0}\n",
    ),
    (
        Answered::Accepted(Some(4_294_967_294)),
        b"HTTP/1.1 200 OK\r\nContent-Type: application/json\r\nContent-Length: 43\r\nCache-Control: no-store\r\nX-Content-Type-Options: nosniff\r\nConnection: close\r\n\r\n{\"epoch\":\"1a21de595e8\",\"place\":4294967294}\n",
    ),
    (
        Answered::Again(None),
        b"HTTP/1.1 200 OK\r\nContent-Type: application/json\r\nContent-Length: 37\r\nCache-Control: no-store\r\nX-Content-Type-Options: nosniff\r\nConnection: close\r\n\r\n{\"epoch\":\"1a21de595e8\",\"again\":true}\n",
    ),
    (
        Answered::Again(Some(0)),
        b"HTTP/1.1 200 OK\r\nContent-Type: application/json\r\nContent-Length: 47\r\nCache-Control: no-store\r\nX-Content-Type-Options: nosniff\r\nConnection: close\r\n\r\n{\"epoch\":\"1a21de595e8\",\"place\":0,\"again\":true}\n",
    ),
    (
        Answered::Placed(&[]),
        b"HTTP/1.1 200 OK\r\nContent-Type: application/json\r\nContent-Length: 36\r\nCache-Control: no-store\r\nX-Content-Type-Options: nosniff\r\nConnection: close\r\n\r\n{\"epoch\":\"1a21de595e8\",\"places\":[]}\n",
    ),
    (
        Answered::Placed(&[0]),
        b"HTTP/1.1 200 OK\r\nContent-Type: application/json\r\nContent-Length: 37\r\nCache-Control: no-store\r\nX-Content-Type-Options: nosniff\r\nConnection: close\r\n\r\n{\"epoch\":\"1a21de595e8\",\"places\":[0]}\n",
    ),
    (
        Answered::Placed(&[0, 1, 2]),
        b"HTTP/1.1 200 OK\r\nContent-Type: application/json\r\nContent-Length: 41\r\nCache-Control: no-store\r\nX-Content-Type-Options: nosniff\r\nConnection: close\r\n\r\n{\"epoch\":\"1a21de595e8\",\"places\":[0,1,2]}\n",
    ),
    (
        Answered::Placed(&[9, 10, 4_294_967_294]),
        b"HTTP/1.1 200 OK\r\nContent-Type: application/json\r\nContent-Length: 51\r\nCache-Control: no-store\r\nX-Content-Type-Options: nosniff\r\nConnection: close\r\n\r\n{\"epoch\":\"1a21de595e8\",\"places\":[9,10,4294967294]}\n",
    ),
    (
        Answered::Cut(&[0, 1], Refusal::Ended),
        b"HTTP/1.1 409 Conflict\r\nContent-Type: application/json\r\nContent-Length: 86\r\nCache-Control: no-store\r\nX-Content-Type-Options: nosniff\r\nConnection: close\r\n\r\n{\"error\":\"ended\",\"text\":\"the subject has ended\",\"epoch\":\"1a21de595e8\",\"places\":[0,1]}\n",
    ),
    (
        Answered::Cut(&[0], Refusal::Memory),
        b"HTTP/1.1 507 Insufficient Storage\r\nContent-Type: application/json\r\nContent-Length: 100\r\nCache-Control: no-store\r\nX-Content-Type-Options: nosniff\r\nConnection: close\r\n\r\n{\"error\":\"memory\",\"text\":\"the budget of the subject is used up\",\"epoch\":\"1a21de595e8\",\"places\":[0]}\n",
    ),
    (
        Answered::Cut(&[4_294_967_294], Refusal::Stopping),
        b"HTTP/1.1 503 Service Unavailable\r\nContent-Type: application/json\r\nContent-Length: 91\r\nCache-Control: no-store\r\nX-Content-Type-Options: nosniff\r\nConnection: close\r\nRetry-After: 2\r\n\r\n{\"error\":\"stopping\",\"text\":\"the server stops\",\"epoch\":\"1a21de595e8\",\"places\":[4294967294]}\n",
    ),
    (
        Answered::Refused(Refusal::LinesWord),
        b"HTTP/1.1 400 Bad Request\r\nContent-Type: application/json\r\nContent-Length: 77\r\nCache-Control: no-store\r\nX-Content-Type-Options: nosniff\r\nConnection: close\r\n\r\n{\"error\":\"lines\",\"text\":\"lines is 1, where each line of the body is a text\"}\n",
    ),
    (
        Answered::Refused(Refusal::Key),
        b"HTTP/1.1 400 Bad Request\r\nContent-Type: application/json\r\nContent-Length: 93\r\nCache-Control: no-store\r\nX-Content-Type-Options: nosniff\r\nConnection: close\r\n\r\n{\"error\":\"idempotency-key\",\"text\":\"a key is 1 to 64 visible characters, and names one text\"}\n",
    ),
    (
        Answered::Stats,
        b"HTTP/1.1 200 OK\r\nContent-Type: application/json\r\nContent-Length: 3\r\nCache-Control: no-store\r\nX-Content-Type-Options: nosniff\r\nConnection: close\r\n\r\n{}\n",
    ),
    (
        Answered::Metrics,
        b"HTTP/1.1 200 OK\r\nContent-Type: text/plain; version=0.0.4\r\nContent-Length: 4\r\nCache-Control: no-store\r\nX-Content-Type-Options: nosniff\r\nConnection: close\r\n\r\na 1\n",
    ),
    (
        Answered::Lines,
        b"HTTP/1.1 200 OK\r\nContent-Type: text/plain; charset=utf-8\r\nContent-Length: 7\r\nCache-Control: no-store\r\nX-Content-Type-Options: nosniff\r\nConnection: close\r\n\r\ns open\n",
    ),
    (
        Answered::Page,
        b"HTTP/1.1 200 OK\r\nContent-Type: text/html; charset=utf-8\r\nContent-Length: 5\r\nCache-Control: no-store\r\nX-Content-Type-Options: nosniff\r\nConnection: close\r\nContent-Security-Policy: frame-ancestors 'none'\r\n\r\n<p>s\n",
    ),
    (
        Answered::Requested,
        b"HTTP/1.1 204 No Content\r\nCache-Control: no-store\r\nX-Content-Type-Options: nosniff\r\nConnection: close\r\n\r\n",
    ),
    (
        Answered::Refused(Refusal::Items),
        b"HTTP/1.1 400 Bad Request\r\nContent-Type: application/json\r\nContent-Length: 72\r\nCache-Control: no-store\r\nX-Content-Type-Options: nosniff\r\nConnection: close\r\n\r\n{\"error\":\"request\",\"text\":\"request is how many items more, at least 1\"}\n",
    ),
    (
        Answered::Refused(Refusal::Observer),
        b"HTTP/1.1 404 Not Found\r\nContent-Type: application/json\r\nContent-Length: 88\r\nCache-Control: no-store\r\nX-Content-Type-Options: nosniff\r\nConnection: close\r\n\r\n{\"error\":\"observer\",\"text\":\"there is none of that name that asks for its items itself\"}\n",
    ),
    (
        Answered::Refused(Refusal::Head),
        b"HTTP/1.1 400 Bad Request\r\nContent-Type: application/json\r\nContent-Length: 58\r\nCache-Control: no-store\r\nX-Content-Type-Options: nosniff\r\nConnection: close\r\n\r\n{\"error\":\"head\",\"text\":\"the head is not one of HTTP/1.1\"}\n",
    ),
    (
        Answered::Refused(Refusal::Word),
        b"HTTP/1.1 400 Bad Request\r\nContent-Type: application/json\r\nContent-Length: 143\r\nCache-Control: no-store\r\nX-Content-Type-Options: nosniff\r\nConnection: close\r\n\r\n{\"error\":\"strategy\",\"text\":\"strategy is BUFFER, DROP:n, LATEST:n or BOUNDED:n, errors AHEAD or DELAY, window 1 to 16, credit asked or socket\"}\n",
    ),
    (
        Answered::Refused(Refusal::LastEventId),
        b"HTTP/1.1 400 Bad Request\r\nContent-Type: application/json\r\nContent-Length: 66\r\nCache-Control: no-store\r\nX-Content-Type-Options: nosniff\r\nConnection: close\r\n\r\n{\"error\":\"last-event-id\",\"text\":\"it is none that a server tells\"}\n",
    ),
    (
        Answered::Refused(Refusal::Lf),
        b"HTTP/1.1 400 Bad Request\r\nContent-Type: application/json\r\nContent-Length: 43\r\nCache-Control: no-store\r\nX-Content-Type-Options: nosniff\r\nConnection: close\r\n\r\n{\"error\":\"lf\",\"text\":\"a text is one line\"}\n",
    ),
    (
        Answered::Refused(Refusal::Origin),
        b"HTTP/1.1 403 Forbidden\r\nContent-Type: application/json\r\nContent-Length: 60\r\nCache-Control: no-store\r\nX-Content-Type-Options: nosniff\r\nConnection: close\r\n\r\n{\"error\":\"origin\",\"text\":\"a page of another site sends it\"}\n",
    ),
    (
        Answered::Refused(Refusal::ReadOnly),
        b"HTTP/1.1 403 Forbidden\r\nContent-Type: application/json\r\nContent-Length: 51\r\nCache-Control: no-store\r\nX-Content-Type-Options: nosniff\r\nConnection: close\r\n\r\n{\"error\":\"emit\",\"text\":\"readers alone are served\"}\n",
    ),
    (
        Answered::Refused(Refusal::Subject),
        b"HTTP/1.1 404 Not Found\r\nContent-Type: application/json\r\nContent-Length: 67\r\nCache-Control: no-store\r\nX-Content-Type-Options: nosniff\r\nConnection: close\r\n\r\n{\"error\":\"subject\",\"text\":\"the configuration has no such subject\"}\n",
    ),
    (
        Answered::Refused(Refusal::Path),
        b"HTTP/1.1 404 Not Found\r\nContent-Type: application/json\r\nContent-Length: 78\r\nCache-Control: no-store\r\nX-Content-Type-Options: nosniff\r\nConnection: close\r\n\r\n{\"error\":\"path\",\"text\":\"try /, /subjects/NAME, /stats, /metrics or /healthz\"}\n",
    ),
    (
        Answered::Refused(Refusal::Method),
        b"HTTP/1.1 405 Method Not Allowed\r\nContent-Type: application/json\r\nContent-Length: 44\r\nCache-Control: no-store\r\nX-Content-Type-Options: nosniff\r\nConnection: close\r\nAllow: GET, POST\r\n\r\n{\"error\":\"method\",\"text\":\"try GET or POST\"}\n",
    ),
    (
        Answered::Refused(Refusal::OnlyGet),
        b"HTTP/1.1 405 Method Not Allowed\r\nContent-Type: application/json\r\nContent-Length: 36\r\nCache-Control: no-store\r\nX-Content-Type-Options: nosniff\r\nConnection: close\r\nAllow: GET\r\n\r\n{\"error\":\"method\",\"text\":\"try GET\"}\n",
    ),
    (
        Answered::Refused(Refusal::OnlyPost),
        b"HTTP/1.1 405 Method Not Allowed\r\nContent-Type: application/json\r\nContent-Length: 37\r\nCache-Control: no-store\r\nX-Content-Type-Options: nosniff\r\nConnection: close\r\nAllow: POST\r\n\r\n{\"error\":\"method\",\"text\":\"try POST\"}\n",
    ),
    (
        Answered::Refused(Refusal::Within),
        b"HTTP/1.1 400 Bad Request\r\nContent-Type: application/json\r\nContent-Length: 67\r\nCache-Control: no-store\r\nX-Content-Type-Options: nosniff\r\nConnection: close\r\n\r\n{\"error\":\"within\",\"text\":\"within is how many seconds, 0 to 3,600\"}\n",
    ),
    (
        Answered::Refused(Refusal::NoStop),
        b"HTTP/1.1 403 Forbidden\r\nContent-Type: application/json\r\nContent-Length: 56\r\nCache-Control: no-store\r\nX-Content-Type-Options: nosniff\r\nConnection: close\r\n\r\n{\"error\":\"stop\",\"text\":\"the configuration has no stop\"}\n",
    ),
    (
        Answered::Refused(Refusal::Length),
        b"HTTP/1.1 411 Length Required\r\nContent-Type: application/json\r\nContent-Length: 47\r\nCache-Control: no-store\r\nX-Content-Type-Options: nosniff\r\nConnection: close\r\n\r\n{\"error\":\"length\",\"text\":\"say Content-Length\"}\n",
    ),
    (
        Answered::Refused(Refusal::Long),
        b"HTTP/1.1 413 Content Too Large\r\nContent-Type: application/json\r\nContent-Length: 92\r\nCache-Control: no-store\r\nX-Content-Type-Options: nosniff\r\nConnection: close\r\n\r\n{\"error\":\"long\",\"text\":\"a text has at most 1,024 bytes, and a request 8,192 and 256 lines\"}\n",
    ),
    (
        Answered::Refused(Refusal::Ended),
        b"HTTP/1.1 409 Conflict\r\nContent-Type: application/json\r\nContent-Length: 49\r\nCache-Control: no-store\r\nX-Content-Type-Options: nosniff\r\nConnection: close\r\n\r\n{\"error\":\"ended\",\"text\":\"the subject has ended\"}\n",
    ),
    (
        Answered::Refused(Refusal::Spent),
        b"HTTP/1.1 409 Conflict\r\nContent-Type: application/json\r\nContent-Length: 81\r\nCache-Control: no-store\r\nX-Content-Type-Options: nosniff\r\nConnection: close\r\n\r\n{\"error\":\"spent\",\"text\":\"the subject accepted as many joins or items as it may\"}\n",
    ),
    (
        Answered::Refused(Refusal::LongHead),
        b"HTTP/1.1 431 Request Header Fields Too Large\r\nContent-Type: application/json\r\nContent-Length: 71\r\nCache-Control: no-store\r\nX-Content-Type-Options: nosniff\r\nConnection: close\r\n\r\n{\"error\":\"head\",\"text\":\"a head has at most 8,192 bytes and 32 fields\"}\n",
    ),
    (
        Answered::Refused(Refusal::Gone),
        b"HTTP/1.1 500 Internal Server Error\r\nContent-Type: application/json\r\nContent-Length: 69\r\nCache-Control: no-store\r\nX-Content-Type-Options: nosniff\r\nConnection: close\r\n\r\n{\"error\":\"gone\",\"text\":\"the thread of the subject ended by a fault\"}\n",
    ),
    (
        Answered::Refused(Refusal::Full),
        b"HTTP/1.1 503 Service Unavailable\r\nContent-Type: application/json\r\nContent-Length: 63\r\nCache-Control: no-store\r\nX-Content-Type-Options: nosniff\r\nConnection: close\r\nRetry-After: 5\r\n\r\n{\"error\":\"full\",\"text\":\"as many observers are held as may be\"}\n",
    ),
    (
        Answered::Refused(Refusal::Stopping),
        b"HTTP/1.1 503 Service Unavailable\r\nContent-Type: application/json\r\nContent-Length: 47\r\nCache-Control: no-store\r\nX-Content-Type-Options: nosniff\r\nConnection: close\r\nRetry-After: 2\r\n\r\n{\"error\":\"stopping\",\"text\":\"the server stops\"}\n",
    ),
    (
        Answered::Refused(Refusal::Memory),
        b"HTTP/1.1 507 Insufficient Storage\r\nContent-Type: application/json\r\nContent-Length: 65\r\nCache-Control: no-store\r\nX-Content-Type-Options: nosniff\r\nConnection: close\r\n\r\n{\"error\":\"memory\",\"text\":\"the budget of the subject is used up\"}\n",
    ),
];

// Hands the table out, so that what goes over it is proved without its rows.
fn answers() -> &'static [(Answered, &'static [u8])] {
    ANSWERS
}

/// The bytes of an answer.
pub(crate) fn bytes_of(answer: Answered) -> &'static [u8] {
    for (other, bytes) in answers() {
        if *other == answer {
            return bytes;
        }
    }
    b"no such answer"
}

// What is written of an answer.
fn written(heap: &Heap, answer: Answered) -> Result<Vec<u8, Heap>, Fail> {
    let mut written = Vec::new(heap.clone()?);
    write_answer(&mut written, answer.answer(heap)?)?;
    Ok(written)
}

#[test]
fn answers_as_their_bytes(rt: HostRuntime) -> Result<(), Fail> {
    let heap = Heap::unlimited(rt.alloc());
    for (row, (answer, bytes)) in answers().iter().enumerate() {
        expect_told(&rt, written(&heap, *answer)?.as_slice(), bytes, row);
    }
    Ok(())
}
