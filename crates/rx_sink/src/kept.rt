ghost use Rattle.std.specs.Prelude.{◌≡◌, ◌+◌, ◌≤◌, ◌^◌, if◌then◌else◌, true, false, MatchResult};
ghost use Rattle.rx_sink.specs.Attachments.{is_clear, is_held_back, is_idle, is_last};
ghost use Rattle.rx_sink.specs.KeptSinks.{FaultedAt, FaultedAtFlush, IsFlushed, PaysDue, TakesNote};

use crate::{Asks, Flow, Sink, SinkFault};
use rx_note::Note;

/// A sink that is kept, and the observer whose notes it takes.
#[derive(Drop)]
pub struct Kept<S> {
    /// The number of the observer's subject.
    pub subject: u32,
    /// The observer's number at its subject.
    pub who: u32,
    pub sink: S,
    /// For how many items that it took the subject was not asked for one more yet.
    pub due: u32,
    /// It took a terminal.
    pub over: bool,
    /// Something may wait in it: it was not flushed since it was started or took a note, or something waited then.
    pub may_wait: bool,
}

impl<S: Sink> Kept<S> {
    // Hands the sink the next note of its observer, which took no terminal yet. It answers what is to be asked; where the
    // observer is to be let go, the sink is to be put away.
    pub(crate) fn take(&mut self, note: Note) -> Result<Asks, SinkFault>
        ensures took { MatchResult result
            (λ asks. TakesNote S.acts note self.old self.new asks)
            (λ _. FaultedAt S.acts note self.old self.new) }
        ensures subject { self.new.subject ≡ self.old.subject }
        ensures who { self.new.who ≡ self.old.who }
    {
        let last = is_last(&note);
        let flow = self.sink.take(note)?;
        self.over = last;
        self.may_wait = true;
        let due = due_after(self.due, last);
        Ok(self.pay(flow, due))
    }

    // Has the sink write what waits in it. It answers what is to be asked, as `take` does.
    pub(crate) fn flush(&mut self) -> Result<Asks, SinkFault>
        ensures flushed { MatchResult result
            (λ asks. IsFlushed S.acts self.old self.new asks)
            (λ _. FaultedAtFlush S.acts self.old self.new) }
        ensures subject { self.new.subject ≡ self.old.subject }
        ensures who { self.new.who ≡ self.old.who }
    {
        let flow = self.sink.flush()?;
        self.may_wait = !is_idle(flow);
        let due = u64::from(self.due);
        Ok(self.pay(flow, due))
    }

    // Asks for all that is due, or holds it back, once the sink answered how it stands.
    fn pay(&mut self, flow: Flow, due: u64) -> Asks
        requires { due ≤ 2 ^ 32 }
        ensures pays { PaysDue flow due self.new result }
        ensures subject { self.new.subject ≡ self.old.subject }
        ensures who { self.new.who ≡ self.old.who }
        ensures sink { self.new.sink ≡ self.old.sink }
        ensures over { self.new.over ≡ self.old.over }
        ensures may_wait { self.new.may_wait ≡ self.old.may_wait }
    {
        let leaves = self.over && is_clear(flow);
        if is_held_back(flow, due) {
            self.due = due as u32;
            return Asks {
                who: self.who,
                items: 0,
                leaves,
            };
        }
        self.due = 0;
        Asks {
            who: self.who,
            items: due,
            leaves,
        }
    }
}

// How many items are due once the sink took an item more, or a terminal.
fn due_after(due: u32, last: bool) -> u64
    ensures { result ≡ (if last then due else due + 1) }
{
    if last {
        u64::from(due)
    } else {
        u64::from(due) + 1
    }
}

// Whether nothing waits in the sink, nor is anything held back.
fn is_clear(flow: Flow) -> bool
    ensures { result ≡ is_clear flow }
{
    matches!(flow, Flow::Clear)
}

// Whether what is due is held back.
fn is_held_back(flow: Flow, due: u64) -> bool
    ensures { result ≡ is_held_back flow due }
{
    match flow {
        Flow::Clear | Flow::Ready => false,
        Flow::Stuck | Flow::Held => due <= u64::from(u32::MAX),
    }
}

// Whether a sink that was flushed needs no flush before it takes a note more.
fn is_idle(flow: Flow) -> bool
    ensures { result ≡ is_idle flow }
{
    matches!(flow, Flow::Clear | Flow::Held)
}

// Whether nothing follows a note.
pub(crate) fn is_last(note: &Note) -> bool
    ensures { result ≡ is_last note.now }
{
    !matches!(note, Note::Next(_))
}
