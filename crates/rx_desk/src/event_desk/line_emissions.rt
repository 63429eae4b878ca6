// Emissions by lines. The answer takes no memory, and what can be refused of the body as a whole is, before the first call.
ghost use Rattle.std.specs.Prelude.{◌≡◌, ◌<◌, Some, [], length};
ghost use Rattle.rx_http.specs.BodyLines.{AreTexts, lines_of};
ghost use Rattle.rx_desk.specs.LineEmissions.{item_place};

use crate::event_desk::EventDesk;
use crate::moments::Moments;
use rx_exchange::EmittedLines;
use rx_http::{MAX_LINES, NoteKind, Places, Refusal, are_texts, first_line};
use rx_proto::Name;
use std::io::Write;
use std::sync::Wait;

impl<'a, R: Wait, M: Moments + Drop, W: Write + Drop> EventDesk<'a, R, M, W> {
    ghost use Rattle.rx_desk.specs.LineEmissions.{EmitsBodyNamed, EmitsEach, EmitsLine};

    /// Emits an item for each line of this body at the subject of this name, where notes may be emitted, up to the first that is refused.
    pub(crate) fn emit_body(&mut self, subject: &Name, body: &[u8]) -> EmittedLines
        ensures { EmitsBodyNamed M.tells self.old subject.now body.now result self.new }
    {
        if !self.grants.may_emit {
            return none_emitted(Refusal::ReadOnly);
        }
        let Some(place) = self.session.place_of(subject) else {
            return none_emitted(Refusal::Subject);
        };
        if !are_texts(body) {
            return none_emitted(Refusal::Long);
        }
        self.emit_each(place, body)
    }

    // Emits an item for each line of this body at the subject at this place, up to the first that is refused.
    fn emit_each(&mut self, place: usize, body: &[u8]) -> EmittedLines
        requires subject { place < length self.old.session.subjects }
        requires texts { AreTexts (lines_of body.now) }
        ensures { EmitsEach M.tells self.old (lines_of body.now) result self.new place }
    {
        let mut places = Places::new();
        let mut rest = body;
        for _ in 0..MAX_LINES {
            let Some((line, behind)) = first_line(rest) else {
                return EmittedLines {
                    places,
                    refusal: None,
                };
            };
            match self.emit_line(place, line) {
                Ok(item) => places.push(item),
                Err(cause) => {
                    return EmittedLines {
                        places,
                        refusal: Some(cause),
                    };
                }
            }
            rest = behind;
        }
        EmittedLines {
            places,
            refusal: None,
        }
    }

    // Emits an item of this text at the subject at this place.
    fn emit_line(&mut self, place: usize, line: &[u8]) -> Result<u32, Refusal>
        requires { place < length self.old.session.subjects }
        ensures emits { EmitsLine M.tells self.old line.now result self.new place }
        ensures subjects { length self.new.session.subjects ≡ length self.old.session.subjects }
    {
        item_place(self.emit_text(place, NoteKind::Next, line))
    }
}

// The place of the item of a line, by what its emission was answered.
fn item_place(emitted: Result<Option<u32>, Refusal>) -> Result<u32, Refusal>
    ensures { result ≡ item_place emitted }
{
    match emitted {
        Ok(Some(place)) => Ok(place),
        Ok(None) => Err(Refusal::Gone),
        Err(cause) => Err(cause),
    }
}

/// No line is emitted, since the first is refused for this cause.
pub(crate) fn none_emitted(cause: Refusal) -> EmittedLines
    ensures places { result.places ≡ [] }
    ensures refusal { result.refusal ≡ Some cause }
{
    EmittedLines {
        places: Places::new(),
        refusal: Some(cause),
    }
}
