// What browsers emit. An answer is remembered only once its note was accepted, and the room for it is there before: so nothing is accepted
// by a key that is then forgotten for want of memory.
ghost use Rattle.std.specs.Prelude.{◌≡◌, ◌<◌, ◌⊎◌, length};
ghost use Rattle.rx_http.specs.declared.answer.refusal.Refusal.TheVariants as causes;
ghost use Rattle.rx_desk.specs.EventDesks.{first_answer};

use crate::emitted_note::{emitted_by, note_of};
use crate::event_desk::{EventDesk, both, has_reply};
use crate::kept_answer::KeptAnswer;
use crate::kept_answers::KeptAnswers;
use crate::moments::Moments;
use rx_exchange::Emitted;
use rx_http::{IdempotencyKey, NoteKind, Refusal};
use rx_note::Note;
use rx_proto::Name;
use std::io::Write;
use std::mem;
use std::sync::Wait;

impl<'a, R: Wait, M: Moments + Drop, W: Write + Drop> EventDesk<'a, R, M, W> {
    ghost use Rattle.rx_desk.specs.EventDesks.{EmitsAt, EmitsFirst, EmitsNamed, EmitsNote, EmitsOnce, IsUnasked};

    /// Emits a note of this kind and text at the subject of this name, where notes may be emitted, once by a key, if there is one.
    pub(crate) fn emit_named(
        &mut self,
        subject: &Name,
        kind: NoteKind,
        text: &[u8],
        key: Option<IdempotencyKey>,
    ) -> Result<Emitted, Refusal>
        ensures { EmitsNamed M.tells self.old subject.now kind text.now key result self.new }
    {
        if !self.grants.may_emit {
            return Err(Refusal::ReadOnly);
        }
        let Some(place) = self.session.place_of(subject) else {
            return Err(Refusal::Subject);
        };
        match key {
            Some(key) => self.emit_once(place, kind, text, key),
            None => first_answer(self.emit_text(place, kind, text)),
        }
    }

    // Emits a note of this kind and text at the subject at this place, unless one was accepted there by this key, and that is remembered.
    fn emit_once(
        &mut self,
        place: usize,
        kind: NoteKind,
        text: &[u8],
        key: IdempotencyKey,
    ) -> Result<Emitted, Refusal>
        requires { place < length self.old.session.subjects }
        ensures { EmitsOnce M.tells self.old kind text.now key result self.new place }
    {
        match self.kept.find(place, &key) {
            Some(kept) => Ok(Emitted {
                place: kept,
                again: true,
            }),
            None => self.emit_first(place, kind, text, key),
        }
    }

    // The same by a key that is not remembered: it is from then on, if the note was accepted.
    fn emit_first(
        &mut self,
        place: usize,
        kind: NoteKind,
        text: &[u8],
        key: IdempotencyKey,
    ) -> Result<Emitted, Refusal>
        requires { place < length self.old.session.subjects }
        ensures { IsUnasked M.tells causes.Memory self.old result self.new ⊎ EmitsFirst M.tells self.old kind text.now key result self.new place }
    {
        let Ok(()) = self.kept.make_room(self.heap) else {
            return Err(Refusal::Memory);
        };
        let mut kept = mem::replace(&mut self.kept, KeptAnswers::new());
        let emitted = self.emit_text(place, kind, text);
        if let Ok(item) = emitted {
            kept.keep(KeptAnswer {
                subject: place,
                key,
                place: item,
            });
        }
        self.kept = kept;
        first_answer(emitted)
    }

    /// Emits a note of this kind and text at the subject at this place.
    pub(crate) fn emit_text(
        &mut self,
        place: usize,
        kind: NoteKind,
        text: &[u8],
    ) -> Result<Option<u32>, Refusal>
        requires { place < length self.old.session.subjects }
        ensures emits { EmitsAt M.tells self.old kind text.now result self.new place }
    {
        let note = note_of(self.session.memory_at(place), kind, text)?;
        self.emit_at(place, kind, note)
    }

    // Emits a note of this kind at the subject at this place.
    fn emit_at(&mut self, place: usize, kind: NoteKind, note: Note) -> Result<Option<u32>, Refusal>
        requires { place < length self.old.session.subjects }
        ensures { EmitsNote M.tells self.old kind note result self.new place }
    {
        let answered = self.session.emit_at(place, note);
        self.is_well = both(self.is_well, has_reply(&answered));
        emitted_by(kind, &answered)
    }
}

// What an emission is answered that was made now.
fn first_answer(emitted: Result<Option<u32>, Refusal>) -> Result<Emitted, Refusal>
    ensures { result ≡ first_answer emitted }
{
    match emitted {
        Ok(place) => Ok(Emitted {
            place,
            again: false,
        }),
        Err(cause) => Err(cause),
    }
}
