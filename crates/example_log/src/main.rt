//! A program over the rule of a log that machines share: it reads the entries of a log as lines, and writes of each whether it
//! counts, what it emits, and where. The lines are told at `line::entry_of`.
#![tactic(auto)]

mod line;

use anyhow::{Result, bail};
use line::entry_of;
use rx_heap::Heap;
use rx_log::{Entry, Rule, Standing};
use rx_note::{Note, Text};
use std::io::Write;

// A short span, so that few lines show what is far behind.
const SPAN: u64 = 8;

fn main(rt: HostRuntime) -> Result<()> {
    let heap = Heap::unlimited(rt.alloc());
    let mut rule = Rule::new(heap.clone()?, SPAN, 0)?;
    let mut out = rt.stdout();
    for line in rt.lines(rt.alloc()) {
        let line = line?;
        let entry = entry_of(&heap, line.as_str())?;
        let standing = rule.step(&entry)?;
        write!(out, "{} ", rule.at())?;
        write_standing(&entry, standing, &mut out)?;
    }
    let Some(total) = rule.total() else {
        bail!("nobody knows what the log comes to");
    };
    let end = if total.ended { "ended" } else { "open" };
    writeln!(out, "{} entries, {} items, {end}", rule.at(), total.items)?;
    Ok(())
}

// How an entry stands: a note that is emitted as it is, an item with its place.
fn write_standing(entry: &Entry, standing: Standing, out: &mut impl Write) -> Result<()> {
    let Some(place) = standing.place() else {
        let word = match standing {
            Standing::Void => "void",
            Standing::Opens => "opens",
            Standing::Counts { .. } => "behind the end",
        };
        writeln!(out, "{word}")?;
        return Ok(());
    };
    match entry {
        Entry::Own { note, .. } => write_note(place, note, out),
        Entry::Foreign { text } => write_item(place, text, out),
        Entry::Tenure { .. } => Ok(()),
    }
}

fn write_note(place: u64, note: &Note, out: &mut impl Write) -> Result<()> {
    match note {
        Note::Next(item) => write_item(place, &item.text, out),
        Note::Completed => {
            writeln!(out, "done")?;
            Ok(())
        }
        Note::Failed(text) => {
            write!(out, "failed ")?;
            write_text(text, out)
        }
    }
}

fn write_item(place: u64, text: &Text, out: &mut impl Write) -> Result<()> {
    write!(out, "item {place} ")?;
    write_text(text, out)
}

fn write_text(text: &Text, out: &mut impl Write) -> Result<()> {
    out.write_all(text.as_bytes())?;
    out.write_all(b"\n")?;
    Ok(())
}
