// What a line says, with a text and a name of its own.
ghost use Rattle.std.specs.Prelude.{◌≡◌, ◌≤◌, MatchResult, Ok, length};
ghost use Rattle.rx_proto.specs.Grammar.{IsSpelled, IsText};
ghost use Rattle.rx_proto.specs.LineFeeds.{HasNoLf};
ghost use Rattle.rx_proto.specs.Reading.{HoldsText, LineHoldsText, Parses, in_session, meaning_of, refusal_of, said_by, script_read, session_read};

use crate::grammar::{fault_of_bytes, read_line_without_lf, read_script};
use crate::{BadLine, Command, Line, LineError, Name, ScriptLine};
use rx_heap::Heap;
use rx_note::Text;

/// What this line of a session says. Refused in the order `Long`, `Syntax`, `Memory`; only PUB and FAIL take memory.
pub fn parse_line(alloc: &Heap, line: &[u8]) -> Result<Command, LineError>
    ensures { Parses HoldsText result (session_read line.now) }
{
    match fault_of_bytes(line) {
        Some(fault) => Err(refusal_of(fault)),
        None => parse_line_without_lf(alloc, line),
    }
}

// The same of a line that has no LF and is no longer than a line may be.
fn parse_line_without_lf(alloc: &Heap, line: &[u8]) -> Result<Command, LineError>
    requires within { length line.now ≤ 1100 }
    requires no_lf { HasNoLf line.now }
    ensures { Parses HoldsText result (session_read line.now) }
{
    match read_line_without_lf(line) {
        Ok(line) => command_of(alloc, &line),
        Err(fault) => Err(refusal_of(fault)),
    }
}

/// What this line of a script means. Refused in the order `Long`, `Syntax`, `Memory`; only PUB and FAIL take memory.
pub fn parse_script(alloc: &Heap, line: &[u8]) -> Result<ScriptLine, LineError>
    ensures { Parses LineHoldsText result (script_read line.now) }
{
    match read_script(line) {
        Ok(line) => script_line_of(alloc, &line),
        Err(fault) => Err(refusal_of(fault)),
    }
}

fn refusal_of(fault: BadLine) -> LineError
    ensures { result ≡ refusal_of fault }
{
    match fault {
        BadLine::Long => LineError::Long,
        BadLine::Syntax => LineError::Syntax,
    }
}

// What a line of a script means.
fn script_line_of(alloc: &Heap, line: &Line<'_>) -> Result<ScriptLine, LineError>
    requires { IsSpelled (meaning_of line.now) }
    ensures { Parses LineHoldsText result (Ok (meaning_of line.now)) }
{
    match line {
        Line::At(moment) => Ok(ScriptLine::At(*moment)),
        Line::Join {
            name,
            policy,
            first,
        } => Ok(ScriptLine::Join {
            name: Name::of(name),
            policy: *policy,
            first: *first,
        }),
        Line::Request { name, who, n } => Ok(ScriptLine::Request {
            name: Name::of(name),
            who: *who,
            n: *n,
        }),
        Line::Dispose { name, who } => Ok(ScriptLine::Dispose {
            name: Name::of(name),
            who: *who,
        }),
        _ => said_by(command_of(alloc, line)),
    }
}

// The line of a script that says a command.
fn said_by(parsed: Result<Command, LineError>) -> Result<ScriptLine, LineError>
    ensures { result ≡ said_by parsed }
{
    match parsed {
        Ok(command) => Ok(ScriptLine::Command(command)),
        Err(fault) => Err(fault),
    }
}

// What a line says that may stand in a session.
fn command_of(alloc: &Heap, line: &Line<'_>) -> Result<Command, LineError>
    requires { IsSpelled (meaning_of line.now) }
    ensures { Parses HoldsText result (in_session (meaning_of line.now)) }
{
    match line {
        Line::Pub { name, text } => {
            let text = hold(alloc, text)?;
            Ok(Command::Pub {
                name: Name::of(name),
                text,
            })
        }
        Line::Fail { name, text } => {
            let text = hold(alloc, text)?;
            Ok(Command::Fail {
                name: Name::of(name),
                text,
            })
        }
        Line::End { name } => Ok(Command::End {
            name: Name::of(name),
        }),
        Line::Sub { name, policy } => Ok(Command::Sub {
            name: Name::of(name),
            policy: *policy,
        }),
        Line::Hello(version) => Ok(Command::Hello(*version)),
        Line::Quit => Ok(Command::Quit),
        _ => Err(LineError::Syntax),
    }
}

// The text of these bytes, which are one.
fn hold(alloc: &Heap, text: &[u8]) -> Result<Text, LineError>
    requires { IsText text.now }
    ensures { MatchResult result (λ held. held ≡ text.now) (λ fault. fault ≡ LineError.Memory) }
{
    let Ok(heap) = alloc.clone() else {
        return Err(LineError::Memory);
    };
    match Text::of_line(heap, text) {
        Ok(text) => Ok(text),
        Err(_) => Err(LineError::Memory),
    }
}
