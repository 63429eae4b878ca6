//! What the lines of some bytes are, and that an open session is a session. The functions do nothing: their clauses are the
//! laws.
ghost use Rattle.rx_session.specs.Laws.{BeginsAsSession, EndsAsSession, FirstLine, JoinsTurns, NoLine};
ghost use Rattle.rx_session.specs.Sessions.{parties};

use crate::Desk;
use std::io::Write;

/// Bytes that begin with a line have it as their first line, and then the lines of the rest.
pub fn first_line()
    ensures { FirstLine }
{}

/// Bytes without an LF have no line: what stands behind the last LF is none.
pub fn no_line()
    ensures { NoLine }
{}

/// An open session that had no turn yet is under way from the place of the first version where nothing was told.
pub fn open_session_begins<W: Write + Drop, D: Desk<W>>()
    ensures { BeginsAsSession (parties D.knows D.emits D.follows W.contents) }
{}

/// What began so is over as a session is that never was open: all its turns together are the session's bytes.
pub fn open_session_ends<W: Write + Drop, D: Desk<W>>()
    ensures { EndsAsSession (parties D.knows D.emits D.follows W.contents) }
{}

/// Where others call the desk between the turns of an open session, these are turns of a session whose desk others call too.
pub fn turns_among_others_join<W: Write + Drop, D: Desk<W>>()
    ensures { JoinsTurns (parties D.knows D.emits D.follows W.contents) }
{}
