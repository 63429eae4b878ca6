// What is seen, as a page for a browser: its numbers are true as they stand, and its script looks again by itself.

mod head;
mod marbles;
mod markup;
mod script;
mod style;

use crate::browser_page::head::HEAD;
use crate::browser_page::marbles::MARBLES;
use crate::browser_page::markup::{
    BEFORE_EPOCH, BEFORE_HTTP, BEFORE_ROWS, BEFORE_SCRIPT, BEFORE_SESSIONS, END,
};
use crate::browser_page::script::SCRIPT;
use crate::browser_page::style::STYLE;
use crate::crowd::crowd_look::CrowdLook;
use crate::pieces::{put, put_number};
use crate::words::{end_word, kind_word, waiting_in};
use rx_config::SubjectConfig;
use rx_heap::{Heap, Memory};
use rx_http::Epoch;
use rx_hub::SubjectLook;

/// Puts the page, with a row for each subject. Names are of letters, digits and hyphens, so that nothing in it is to be escaped.
pub(crate) fn put_page(
    page: &mut Vec<u8, Heap>,
    epoch: &Epoch,
    crowd: CrowdLook,
    subjects: &[SubjectConfig],
    looks: &[Option<SubjectLook>],
) -> Result<(), Memory> {
    put(page, HEAD.as_bytes())?;
    put(page, STYLE.as_bytes())?;
    put(page, BEFORE_EPOCH.as_bytes())?;
    put(page, epoch.as_bytes())?;
    put_number(page, BEFORE_SESSIONS.as_bytes(), crowd.sessions.open)?;
    put_number(page, BEFORE_HTTP.as_bytes(), crowd.http.open)?;
    put(page, BEFORE_ROWS.as_bytes())?;
    for (subject, look) in subjects.iter().zip(looks.iter()) {
        put_row(page, subject, look)?;
    }
    put(page, BEFORE_SCRIPT.as_bytes())?;
    put(page, SCRIPT.as_bytes())?;
    put(page, MARBLES.as_bytes())?;
    put(page, END.as_bytes())
}

fn put_row(
    page: &mut Vec<u8, Heap>,
    subject: &SubjectConfig,
    look: &Option<SubjectLook>,
) -> Result<(), Memory> {
    put(page, b"<tr><th scope=\"row\"><a href=\"#")?;
    put(page, subject.name.as_bytes())?;
    put(page, b"\">")?;
    put(page, subject.name.as_bytes())?;
    put(page, b"</a></th><td>")?;
    put(page, kind_word(&subject.rules.kind))?;
    put(page, b"</td>")?;
    match look {
        Some(look) => put_look(page, subject, look)?,
        None => put_state(page, b"gone")?,
    }
    put(page, b"</tr>\n")
}

fn put_state(page: &mut Vec<u8, Heap>, word: &[u8]) -> Result<(), Memory> {
    put(page, b"<td><span class=\"pill ")?;
    put(page, word)?;
    put(page, b"\">")?;
    put(page, word)?;
    put(page, b"</span></td>")
}

// The cells behind the kind; how many items a second there are, the script knows after two looks.
fn put_look(
    page: &mut Vec<u8, Heap>,
    subject: &SubjectConfig,
    look: &SubjectLook,
) -> Result<(), Memory> {
    put_state(page, end_word(look.end))?;
    put_number(page, b"<td>", u64::from(look.items))?;
    put_number(page, b"</td><td></td><td>", look.observers.len() as u64)?;
    put_number(page, b"</td><td>", waiting_in(look))?;
    put_number(page, b"</td><td>", look.misses)?;
    put(page, b"</td><td>")?;
    if let Some(budget) = &subject.budget {
        put_number(page, b"", look.bytes)?;
        put_number(page, b" of ", budget.bytes())?;
        put(page, b" B")?;
    }
    put(page, b"</td>")
}
