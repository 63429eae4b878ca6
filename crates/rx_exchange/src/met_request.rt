// What is done with what a connection asks for.
ghost use Rattle.std.specs.Prelude.{◌≡◌, []};
ghost use Rattle.rx_http.specs.Answers.{answer_bytes};
ghost use Rattle.rx_exchange.specs.Meetings.{Meets, Tells, emission_answer, lines_answer, look_answer, parties, request_answer, stop_answer};

use crate::{Emitted, EmittedLines, Front, Joining};
use rx_http::{Answer, Asked, Begin, Document, Epoch, LookForm, Refusal, write_answer};
use rx_session::{SessionEnd, Turn};
use std::io::{ErrorKind, Write};

/// Has what was asked for with this text met. It answers what is to be told to the writer; None where the server has that.
pub(crate) fn meet<W: Write + Drop, D: Front<W>>(
    asked: Result<Asked, Refusal>,
    text: &[u8],
    writer: W,
    desk: &mut D,
) -> Option<(Answer, W)>
    ensures { Meets (parties D.since D.looks D.joins D.emits D.emits_lines D.requests D.shows D.stops W.contents) desk.old writer asked text.now result desk.new }
{
    match asked {
        Ok(
            Asked::Events {
                subject,
                policy,
                credit,
                known,
            },
        ) => {
            let Some(begin) = Begin::by(desk.epoch(), known) else {
                return Some((Answer::Over, writer));
            };
            match desk.join(&subject, policy, credit, begin, writer) {
                Joining::Taken => None,
                Joining::Back(cause, back) => Some((Answer::Refused(cause), back)),
            }
        }
        Ok(
            Asked::Emission {
                subject,
                kind,
                size: _,
                key,
            },
        ) => {
            let emitted = desk.emit(&subject, kind, text, key);
            Some((emission_answer(emitted, desk.epoch()), writer))
        }
        Ok(Asked::Texts { subject, size: _ }) => {
            let told = desk.emit_lines(&subject, text);
            Some((lines_answer(told, desk.epoch()), writer))
        }
        Ok(
            Asked::Request {
                subject,
                observer,
                items,
            },
        ) => {
            let asked = desk.request(&subject, observer, items);
            Some((request_answer(asked), writer))
        }
        Ok(Asked::Look(form)) => {
            let shown = desk.show(form);
            Some((look_answer(form, shown), writer))
        }
        Ok(Asked::Stop { within }) => {
            let stopped = desk.stop(within);
            Some((stop_answer(stopped), writer))
        }
        Ok(Asked::Health) if desk.is_well() => Some((Answer::Well, writer)),
        Ok(Asked::Health) => Some((Answer::Unwell, writer)),
        Err(cause) => Some((Answer::Refused(cause), writer)),
    }
}

// What an emission is answered by the server of this epoch.
fn emission_answer(emitted: Result<Emitted, Refusal>, epoch: &Epoch) -> Answer
    ensures { result ≡ emission_answer epoch.now emitted }
{
    match emitted {
        Ok(emitted) => Answer::Accepted {
            epoch: epoch.copy(),
            place: emitted.place,
            again: emitted.again,
        },
        Err(cause) => Answer::Refused(cause),
    }
}

// What several texts are answered by the server of this epoch.
fn lines_answer(told: EmittedLines, epoch: &Epoch) -> Answer
    ensures { result ≡ lines_answer epoch.now told.places told.refusal }
{
    let EmittedLines { places, refusal } = told;
    match refusal {
        None => Answer::Placed {
            epoch: epoch.copy(),
            places,
        },
        Some(cause) if places.as_slice().is_empty() => Answer::Refused(cause),
        Some(cause) => Answer::Cut {
            epoch: epoch.copy(),
            places,
            refusal: cause,
        },
    }
}

// What a request of items is answered.
fn request_answer(asked: Result<(), Refusal>) -> Answer
    ensures { result ≡ request_answer asked }
{
    match asked {
        Ok(()) => Answer::Requested,
        Err(cause) => Answer::Refused(cause),
    }
}

// What is answered to who has the server stop.
fn stop_answer(stopped: Result<(), Refusal>) -> Answer
    ensures { result ≡ stop_answer stopped }
{
    match stopped {
        Ok(()) => Answer::Stops,
        Err(cause) => Answer::Refused(cause),
    }
}

// What is answered to who looks.
fn look_answer(form: LookForm, shown: Result<Document, Refusal>) -> Answer
    ensures { result ≡ look_answer form shown }
{
    match shown {
        Ok(body) => Answer::Shown { form, body },
        Err(cause) => Answer::Refused(cause),
    }
}

/// Tells an answer to the writer, and has it go out as far as it can now.
pub(crate) fn tell<W: Write + Drop>(answer: Answer, writer: W) -> Turn<W>
    ensures { Tells W.contents result writer (answer_bytes answer) }
{
    let mut writer = writer;
    match write_answer(&mut writer, answer) {
        Ok(()) => send(writer),
        Err(_) => Turn::Over(SessionEnd::WriteFault, Some(writer)),
    }
}

/// Has go out what waits at the writer, as far as it can now.
pub(crate) fn send<W: Write + Drop>(writer: W) -> Turn<W>
    ensures { Tells W.contents result writer [] }
{
    let mut writer = writer;
    match writer.flush() {
        Ok(()) => Turn::Over(SessionEnd::Quit, Some(writer)),
        Err(fault) if fault.kind() == ErrorKind::WouldBlock => Turn::Stuck(writer),
        Err(_) => Turn::Over(SessionEnd::WriteFault, Some(writer)),
    }
}
