// The lines by which entries of a log are written down.
use anyhow::{Context, Result, bail};
use rx_heap::Heap;
use rx_log::{Entry, Holder, Total};
use rx_note::{Item, Note, Text};

/// The entry of a line, one of
///
/// - `TENURE node run base items OPEN`, or `ENDED` for `OPEN`: a machine begins anew to number what it appends;
/// - `ITEM tenure number text`, `DONE tenure number`, `FAILED tenure number text`: a note of its own;
/// - `PLAIN text`: an item of somebody who knows nothing of tenures.
pub(crate) fn entry_of(heap: &Heap, line: &str) -> Result<Entry> {
    let (word, rest) = cut(line);
    match word.as_bytes() {
        b"TENURE" => tenure_of(rest),
        b"ITEM" => own_of(heap, "ITEM", rest),
        b"DONE" => own_of(heap, "DONE", rest),
        b"FAILED" => own_of(heap, "FAILED", rest),
        b"PLAIN" => Ok(Entry::Foreign {
            text: text_of(heap, rest)?,
        }),
        _ => bail!("not a word of an entry: {word}"),
    }
}

fn tenure_of(rest: &str) -> Result<Entry> {
    let (node, rest) = cut(rest);
    let (run, rest) = cut(rest);
    let (base, rest) = cut(rest);
    let (items, end) = cut(rest);
    Ok(Entry::Tenure {
        holder: Holder {
            node: number_of(node)?,
            run: number_of(run)?,
        },
        base: number_of(base)?,
        total: Total {
            items: number_of(items)?,
            ended: is_ended(end)?,
        },
    })
}

fn is_ended(end: &str) -> Result<bool> {
    match end.as_bytes() {
        b"OPEN" => Ok(false),
        b"ENDED" => Ok(true),
        _ => bail!("a tenure ends in OPEN or ENDED: {end}"),
    }
}

fn own_of(heap: &Heap, word: &str, rest: &str) -> Result<Entry> {
    let (tenure, rest) = cut(rest);
    let (number, text) = cut(rest);
    Ok(Entry::Own {
        tenure: number_of(tenure)?,
        number: number_of(number)?,
        note: note_of(heap, word, text)?,
    })
}

fn note_of(heap: &Heap, word: &str, text: &str) -> Result<Note> {
    match word.as_bytes() {
        b"ITEM" => Ok(Note::Next(Item::new(text_of(heap, text)?))),
        b"FAILED" => Ok(Note::Failed(text_of(heap, text)?)),
        _ => Ok(Note::Completed),
    }
}

fn text_of(heap: &Heap, text: &str) -> Result<Text> {
    let text = Text::new(heap.clone()?, text.as_bytes())?;
    Ok(text)
}

fn number_of(word: &str) -> Result<u64> {
    word.parse::<u64>()
        .context(format_args!("a number is wanted: {word}"))
}

// The first word, and what stands behind the space.
fn cut(line: &str) -> (&str, &str) {
    match line.split_once(' ') {
        Some((word, rest)) => (word, rest),
        None => (line, ""),
    }
}
