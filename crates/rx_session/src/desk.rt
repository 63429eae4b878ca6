use crate::Follow;
use rx_heap::Heap;
use rx_note::{Note, Policy};
use rx_proto::{Name, Response, Version};

/// To whom a session passes its commands. Its relations say what its calls answer and what they leave of it.
pub trait Desk<W> {
    ghost use Rattle.std.specs.Prelude.{◌≡◌, List, [], ◌∷◌, ◌++◌, ℕ, length, MatchOption, MatchResult};
    ghost use Rattle.rx_note.specs.Choices.{Choice};
    ghost use Rattle.rx_note.specs.declared.note.Note.{Note};
    ghost use Rattle.rx_proto.specs.declared.response.Response.{Response};
    ghost use Rattle.rx_proto.specs.declared.response.Response.TheVariants.{Refused};
    ghost use Rattle.rx_proto.specs.declared.word.Word.TheVariants.{Subject};
    ghost use Rattle.rx_proto.specs.declared.version.Version.{Version};
    ghost use Rattle.rx_session.specs.Begun.{Asked, IsBehind, asked};
    ghost use Rattle.rx_session.specs.declared.follow.Follow.{Follow};

    // It has a subject of this name.
    ghost knows: { Self → List ℕ → Type 0 };

    ghost emits: { Self → List ℕ → Note → Response → Self → Type 0 };

    // The first desk came to be the second by beginning these notes, which have no response yet.
    ghost waits: { Self → List Asked → Self → Type 0 };

    ghost follows: { Self → List ℕ → Choice → Version → W → Follow W → Self → Type 0 };

    /// The memory for the texts of the subject of this name. None: there is no such subject, and each note for it is refused so.
    fn memory(&self, name: &Name) -> Option<&Heap>
        ensures { MatchOption result ((note : Note) → emits self.now name.now note (Refused Subject) self.now) (λ _. knows self.now name.now) };

    /// Emits a note at the subject of this name.
    fn emit(&mut self, name: &Name, note: Note) -> Response
        ensures { emits self.old name.now note result self.new };

    /// Whether a note for the subject of this name may be begun behind others. It is asked before the text is made, so that what
    /// can't be begun is made just once, to be emitted. Either answer is right.
    fn may_begin(&self, _name: &Name) -> bool {
        true
    }

    /// Begins to emit a note at the subject of this name, behind so many that were begun and have no response yet, so that several go
    /// there together. Its response is to be had by `answer`. `Err` gives the note back, and nothing changed: it can't be begun now.
    fn begin(&mut self, name: &Name, note: Note, behind: u32) -> Result<(), Note>
        ensures { MatchResult result
            (λ _. (base : Self) (begun : List Asked) → length begun ≡ behind → IsBehind waits base begun self.old → waits base (begun ++ asked name.now note ∷ []) self.new)
            (λ back. (back ≡ note) × (self.new ≡ self.old)) };

    /// The response to the note that was begun first, of those that have none yet. Where none was begun it says nothing.
    fn answer(&mut self) -> Response
        ensures { (base : Self) (first : Asked) (rest : List Asked) → waits base (first ∷ rest) self.old
            → (after : Self) × emits base first.name first.note result after × IsBehind waits after rest self.new };

    /// Joins an observer at the subject of this name, which is given its notes by this writer, in this version.
    fn follow(&mut self, name: &Name, policy: Policy, version: Version, writer: W) -> Follow<W>
        ensures { follows self.old name.now policy version writer result self.new };
}
