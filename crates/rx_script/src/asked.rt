ghost use Rattle.std.specs.Prelude.{◌≡◌};
ghost use Rattle.rx_note.specs.declared.event.Event.TheVariants.{Emit, Join};
ghost use Rattle.rx_script.specs.Transcripts.{asked_at};

use rx_note::{Event, Item, Note, Policy};
use rx_proto::{Command, Name, ScriptLine};

/// What a line asks of a run.
#[derive(Drop)]
pub(crate) enum Asked {
    /// To take an event, for the subject of this name.
    Event(Name, Event),
    /// To have the events that follow come at this moment, in milliseconds.
    At(u64),
    /// To have the notes that follow printed in the version of this number.
    Hello(u32),
    /// To end.
    Quit,
}

/// What a line of a script asks at a moment, in milliseconds, at which its event comes.
pub(crate) fn asked_at(line: ScriptLine, moment: u64) -> Asked
    ensures { result ≡ asked_at moment line }
{
    match line {
        ScriptLine::Command(Command::Pub { name, text }) => {
            emitted(name, Note::Next(Item::new(text)), moment)
        }
        ScriptLine::Command(Command::End { name }) => emitted(name, Note::Completed, moment),
        ScriptLine::Command(Command::Fail { name, text }) => {
            emitted(name, Note::Failed(text), moment)
        }
        ScriptLine::Command(Command::Sub { name, policy }) => joined(name, policy, 0, moment),
        ScriptLine::Command(Command::Hello(number)) => Asked::Hello(number),
        ScriptLine::Command(Command::Quit) => Asked::Quit,
        ScriptLine::At(next) => Asked::At(next),
        ScriptLine::Join {
            name,
            policy,
            first,
        } => joined(name, policy, first, moment),
        ScriptLine::Request { name, who, n } => Asked::Event(name, Event::Request { who, n }),
        ScriptLine::Dispose { name, who } => Asked::Event(name, Event::Dispose { who }),
    }
}

fn joined(name: Name, policy: Policy, first: u32, moment: u64) -> Asked
    ensures { result ≡ Asked.Event name (Join policy first moment) }
{
    Asked::Event(
        name,
        Event::Join {
            policy,
            first,
            at: moment,
        },
    )
}

fn emitted(name: Name, note: Note, moment: u64) -> Asked
    ensures { result ≡ Asked.Event name (Emit note moment) }
{
    Asked::Event(name, Event::Emit { note, at: moment })
}
