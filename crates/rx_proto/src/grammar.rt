// What a line says, read where it stands and without memory.
ghost use Rattle.std.specs.Prelude.{◌≡◌, ◌≤◌, Err, IfNone, IfSome, codes, false, length};
ghost use Rattle.rx_proto.specs.LineFeeds.{HasNoLf};
ghost use Rattle.rx_proto.specs.Reading.{Gives, begins_with, meaning_of, is_sub, line_read, script_read, words_read, pub_read, join_read, request_read, dispose_read, sub_read};

use crate::words::{
    cut_at_space, name_of, named, named_text, number_of, policy_of, wide_number_of,
};
use crate::{BadLine, Line};

/// The most bytes that a line has, without its LF and one CR before it.
pub const MAX_LINE: usize = 1100;

const LF: u8 = b'\n';

/// What these bytes mean, be they a line of a session or of a script, where they have no LF and are no more than a line may
/// have. Refused in the order `Long`, `Syntax`. It takes no memory, so that who asks may look for the subject before a text is
/// made, and tests the commonest line first.
#[inline] // once for each line that a session reads
#[tactic(auto, unfolding(crate::specs::Reading::line_read))]
pub fn read_line_without_lf(line: &[u8]) -> Result<Line<'_>, BadLine>
    requires within { length line.now ≤ 1100 }
    requires no_lf { HasNoLf line.now }
    ensures { Gives meaning_of result (line_read line.now) }
{
    if let Some(rest) = line.strip_prefix(b"PUB ".as_slice()) {
        return read_pub(rest);
    }
    read_other(line)
}

/// What these bytes mean as a line of a script, which is never `Sub`. Refused in the order `Long`, `Syntax`. It takes no
/// memory, so that who asks may look for the subject before a text is made.
pub(crate) fn read_script(line: &[u8]) -> Result<Line<'_>, BadLine>
    ensures { Gives meaning_of result (script_read line.now) }
{
    match fault_of_bytes(line) {
        Some(fault) => Err(fault),
        None => read_script_without_lf(line),
    }
}

/// The same of a line that was found by its LF and is no longer than a line may be: no LF is searched.
#[inline(always)] // a PUB of a script is read where it is asked for
pub fn read_script_without_lf(line: &[u8]) -> Result<Line<'_>, BadLine>
    requires within { length line.now ≤ 1100 }
    requires no_lf { HasNoLf line.now }
    ensures { Gives meaning_of result (script_read line.now) }
{
    if let Some(rest) = line.strip_prefix(b"PUB ".as_slice()) {
        return read_pub(rest);
    }
    // (taken apart, so that what a PUB means is handed on word for word)
    match read_other_of_script(line) {
        Ok(read) => Ok(read),
        Err(fault) => Err(fault),
    }
}

/// Why these bytes are no line whatever their words are. None where they have no LF and are no more than a line may have.
pub(crate) fn fault_of_bytes(line: &[u8]) -> Option<BadLine>
    ensures some { IfSome result (λ fault. line_read line.now ≡ Err fault) }
    ensures none { IfNone result ((length line.now ≤ 1100) × HasNoLf line.now) }
{
    if line.len() > MAX_LINE {
        return Some(BadLine::Long);
    }
    if line.contains(&LF) {
        return Some(BadLine::Syntax);
    }
    None
}

fn is_sub(line: &Line<'_>) -> bool
    ensures { result ≡ is_sub (meaning_of line.now) }
{
    match line {
        Line::Sub { .. } => true,
        _ => false,
    }
}

// What a line of a script means that is no PUB.
#[inline(never)] // so that a PUB stays short
fn read_other_of_script(line: &[u8]) -> Result<Line<'_>, BadLine>
    requires within { length line.now ≤ 1100 }
    requires no_lf { HasNoLf line.now }
    requires other { begins_with line.now (codes "PUB ") ≡ false }
    ensures { Gives meaning_of result (script_read line.now) }
{
    match read_other(line) {
        Ok(read) => {
            if is_sub(&read) {
                Err(BadLine::Syntax)
            } else {
                Ok(read)
            }
        }
        Err(fault) => Err(fault),
    }
}

// What a line means that is no PUB.
#[tactic(auto, unfolding(crate::specs::Reading::line_read))]
fn read_other(line: &[u8]) -> Result<Line<'_>, BadLine>
    requires within { length line.now ≤ 1100 }
    requires no_lf { HasNoLf line.now }
    requires other { begins_with line.now (codes "PUB ") ≡ false }
    ensures { Gives meaning_of result (line_read line.now) }
{
    if line == b"QUIT".as_slice() {
        return Ok(Line::Quit);
    }
    let (command, rest) = cut_at_space(line)?;
    read_words(command, rest)
}

#[inline(always)] // the commonest line, of both that read
#[tactic(auto, unfolding(crate::specs::Reading::pub_read))]
fn read_pub(words: &[u8]) -> Result<Line<'_>, BadLine>
    requires { HasNoLf words.now }
    ensures { Gives meaning_of result (pub_read words.now) }
{
    let (name, text) = named_text(words)?;
    Ok(Line::Pub { name, text })
}

#[tactic(auto, unfolding(crate::specs::Reading::words_read))]
fn read_words<'a>(command: &[u8], rest: &'a [u8]) -> Result<Line<'a>, BadLine>
    requires { HasNoLf rest.now }
    ensures { Gives meaning_of result (words_read command.now rest.now) }
{
    if command == b"REQUEST".as_slice() {
        read_request(rest)
    } else if command == b"AT".as_slice() {
        let moment = wide_number_of(rest)?;
        Ok(Line::At(moment))
    } else if command == b"JOIN".as_slice() {
        read_join(rest)
    } else if command == b"END".as_slice() {
        let name = name_of(rest)?;
        Ok(Line::End { name })
    } else if command == b"FAIL".as_slice() {
        let (name, text) = named_text(rest)?;
        Ok(Line::Fail { name, text })
    } else if command == b"DISPOSE".as_slice() {
        read_dispose(rest)
    } else if command == b"SUB".as_slice() {
        read_sub(rest)
    } else if command == b"HELLO".as_slice() {
        let version = number_of(rest)?;
        Ok(Line::Hello(version))
    } else {
        Err(BadLine::Syntax)
    }
}

#[tactic(auto, unfolding(crate::specs::Reading::join_read))]
fn read_join(words: &[u8]) -> Result<Line<'_>, BadLine>
    ensures { Gives meaning_of result (join_read words.now) }
{
    let (name, rest) = named(words)?;
    let (strategy, rest) = cut_at_space(rest)?;
    let (errors, first) = cut_at_space(rest)?;
    let policy = policy_of(strategy, errors)?;
    let first = number_of(first)?;
    Ok(Line::Join {
        name,
        policy,
        first,
    })
}

#[tactic(auto, unfolding(crate::specs::Reading::request_read))]
fn read_request(words: &[u8]) -> Result<Line<'_>, BadLine>
    ensures { Gives meaning_of result (request_read words.now) }
{
    let (name, rest) = named(words)?;
    let (who, n) = cut_at_space(rest)?;
    let who = number_of(who)?;
    let n = number_of(n)?;
    Ok(Line::Request { name, who, n })
}

#[tactic(auto, unfolding(crate::specs::Reading::dispose_read))]
fn read_dispose(words: &[u8]) -> Result<Line<'_>, BadLine>
    ensures { Gives meaning_of result (dispose_read words.now) }
{
    let (name, rest) = named(words)?;
    let who = number_of(rest)?;
    Ok(Line::Dispose { name, who })
}

#[tactic(auto, unfolding(crate::specs::Reading::sub_read))]
fn read_sub(words: &[u8]) -> Result<Line<'_>, BadLine>
    ensures { Gives meaning_of result (sub_read words.now) }
{
    let (name, rest) = named(words)?;
    let (strategy, errors) = cut_at_space(rest)?;
    let policy = policy_of(strategy, errors)?;
    Ok(Line::Sub { name, policy })
}
