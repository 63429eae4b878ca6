use crate::{Emitted, EmittedLines, Joining};
use rx_http::{
    Begin, Credit, Document, Epoch, IdempotencyKey, LookForm, NoteKind, ObserverId, Refusal,
};
use rx_note::Policy;
use rx_proto::Name;

/// To whom an exchange passes what is asked for. Its relations say what its calls answer and what they leave of it.
pub trait Front<W> {
    ghost use Rattle.std.specs.Prelude.{List, ℕ, Bool, Option, Result};
    ghost use Rattle.rx_note.specs.Choices.{Choice};
    ghost use Rattle.rx_http.specs.declared.request.begin.Begin.{Begin};
    ghost use Rattle.rx_http.specs.declared.request.credit.Credit.{Credit};
    ghost use Rattle.rx_http.specs.declared.request.look_form.LookForm.{LookForm};
    ghost use Rattle.rx_http.specs.declared.request.note_kind.NoteKind.{NoteKind};
    ghost use Rattle.rx_http.specs.declared.request.observer_id.ObserverId.{ObserverId};
    ghost use Rattle.rx_http.specs.declared.answer.refusal.Refusal.{Refusal};
    ghost use Rattle.rx_exchange.specs.declared.emitted.Emitted.{Emitted};
    ghost use Rattle.rx_exchange.specs.declared.emitted_lines.EmittedLines.{EmittedLines};
    ghost use Rattle.rx_exchange.specs.declared.joining.Joining.{Joining};

    ghost since: { Self → List ℕ → Type 0 };

    ghost looks: { Self → Bool → Type 0 };

    ghost joins: { Self → List ℕ → Choice → Credit → Begin → W → Joining W → Self → Type 0 };

    ghost emits: { Self → List ℕ → NoteKind → List ℕ → Option (List ℕ) → Result Emitted Refusal → Self → Type 0 };

    ghost emits_lines: { Self → List ℕ → List ℕ → EmittedLines → Self → Type 0 };

    ghost requests: { Self → List ℕ → ObserverId → ℕ → Result (Unit {0}) Refusal → Self → Type 0 };

    ghost shows: { Self → LookForm → Result (List ℕ) Refusal → Self → Type 0 };

    ghost stops: { Self → ℕ → Result (Unit {0}) Refusal → Self → Type 0 };

    /// The epoch of this start of the server.
    fn epoch(&self) -> &Epoch
        ensures { since self.now result.now };

    /// Whether all is well.
    fn is_well(&self) -> bool
        ensures { looks self.now result };

    /// Joins an observer at the subject of this name, which is told its notes as events by this writer, from where its reader begins, and
    /// is owed so many.
    fn join(
        &mut self,
        subject: &Name,
        policy: Policy,
        credit: Credit,
        begin: Begin,
        writer: W,
    ) -> Joining<W>
        ensures { joins self.old subject.now policy credit begin writer result self.new };

    /// Emits a note of this kind and text at the subject of this name, once by a key, if its producer says one. It answers the place of the
    /// item, where one was accepted.
    fn emit(
        &mut self,
        subject: &Name,
        kind: NoteKind,
        text: &[u8],
        key: Option<IdempotencyKey>,
    ) -> Result<Emitted, Refusal>
        ensures { emits self.old subject.now kind text.now key result self.new };

    /// Emits an item at the subject of this name for each line of this body, in their order, up to the first that is refused. It answers
    /// the places of those that were accepted, and why the next one was not.
    fn emit_lines(&mut self, subject: &Name, body: &[u8]) -> EmittedLines
        ensures { emits_lines self.old subject.now body.now result self.new };

    /// Asks for so many items more for an observer at the subject of this name, whose reader asks for them itself.
    fn request(&mut self, subject: &Name, observer: ObserverId, items: u32) -> Result<(), Refusal>
        ensures { requests self.old subject.now observer items result self.new };

    /// What is seen of the server now, in this form.
    fn show(&mut self, form: LookForm) -> Result<Document, Refusal>
        ensures { shows self.old form result self.new };

    /// Has the server stop, which waits so many seconds at most for who has something waiting.
    fn stop(&mut self, within: u32) -> Result<(), Refusal>
        ensures { stops self.old within result self.new };
}
