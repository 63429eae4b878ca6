//! What a whole list of entries means, read plainly by the definitions: slow, each entry by all that stand before it, and
//! nothing of the rule.

use rx_heap::{Heap, Memory};
use rx_log::{Entry, Holder};
use rx_note::Note;

/// What one entry means.
#[derive(Clone, Copy)]
pub(crate) struct Meant {
    /// A tenure that counts.
    pub(crate) opens: bool,
    /// A note that counts.
    pub(crate) counts: bool,
    /// How many items came before a note that is emitted.
    pub(crate) place: Option<u64>,
}

const VOID: Meant = Meant {
    opens: false,
    counts: false,
    place: None,
};

/// What each entry of a list means.
pub(crate) fn meanings(
    alloc: Heap,
    span: u64,
    log: &Vec<Entry, Heap>,
) -> Result<Vec<Meant, Heap>, Memory> {
    let mut meant = Vec::new(alloc);
    let mut items: u64 = 0;
    let mut ended = false;
    for entry in log {
        let mut means = meaning(span, log, &meant, entry);
        if means.counts && !ended {
            means.place = Some(items);
            if is_end(entry) {
                ended = true;
            } else {
                items = items.saturating_add(1);
            }
        }
        meant.push(means)?;
    }
    Ok(meant)
}

/// The place behind which a machine knows how many items there were that began to read behind so many entries: 0 where it
/// reads from the first entry on, else that of the first tenure that counts whose base stands two spans behind where it
/// began. None where none is such.
pub(crate) fn known_behind(
    span: u64,
    begun: u64,
    log: &Vec<Entry, Heap>,
    meant: &Vec<Meant, Heap>,
) -> Option<u64> {
    if begun == 0 {
        return Some(0);
    }
    let least = begun.saturating_add(span.saturating_mul(2));
    for (i, means) in meant.iter().enumerate() {
        if let Some(Entry::Tenure { base, .. }) = log.get(i) {
            if means.opens && *base >= least {
                return Some((i as u64).saturating_add(1));
            }
        }
    }
    None
}

/// Who holds the tenure behind which an own entry stands.
pub(crate) fn holder_of(log: &Vec<Entry, Heap>, entry: &Entry) -> Option<Holder> {
    let Entry::Own { tenure, .. } = entry else {
        return None;
    };
    let index = tenure.checked_sub(1)?;
    match log.get(index as usize) {
        Some(Entry::Tenure { holder, .. }) => Some(*holder),
        _ => None,
    }
}

// What the next entry means, but for its place.
fn meaning(span: u64, log: &Vec<Entry, Heap>, meant: &Vec<Meant, Heap>, entry: &Entry) -> Meant {
    let place = (meant.len() as u64).saturating_add(1);
    match entry {
        Entry::Tenure { holder, base, .. } => Meant {
            opens: place.saturating_sub(*base) <= span
                && !stands_behind(log, meant, holder.node, *base, false),
            ..VOID
        },
        Entry::Own { tenure, number, .. } => {
            let near = place.saturating_sub(*tenure) <= span;
            let next = counted(log, meant, *tenure).saturating_add(1);
            Meant {
                counts: near && is_open(log, meant, *tenure) && *number == next,
                ..VOID
            }
        }
        Entry::Foreign { .. } => Meant {
            counts: true,
            ..VOID
        },
    }
}

// Whether a tenure of a node stands behind a place, of those that were read: one that counts, or any.
fn stands_behind(
    log: &Vec<Entry, Heap>,
    meant: &Vec<Meant, Heap>,
    node: u64,
    place: u64,
    that_counts: bool,
) -> bool {
    for (i, means) in meant.iter().enumerate() {
        if i as u64 >= place && (means.opens || !that_counts) && is_tenure_of(log.get(i), node) {
            return true;
        }
    }
    false
}

fn is_tenure_of(entry: Option<&Entry>, node: u64) -> bool {
    match entry {
        Some(Entry::Tenure { holder, .. }) => holder.node == node,
        _ => false,
    }
}

// Whether the tenure at a place counts, and none of its node that counts stands behind it.
fn is_open(log: &Vec<Entry, Heap>, meant: &Vec<Meant, Heap>, tenure: u64) -> bool {
    let Some(index) = tenure.checked_sub(1) else {
        return false;
    };
    let opens = match meant.get(index as usize) {
        Some(means) => means.opens,
        None => false,
    };
    match log.get(index as usize) {
        Some(Entry::Tenure { holder, .. }) => {
            opens && !stands_behind(log, meant, holder.node, tenure, true)
        }
        _ => false,
    }
}

// How many notes count behind the tenure at a place.
fn counted(log: &Vec<Entry, Heap>, meant: &Vec<Meant, Heap>, tenure: u64) -> u64 {
    let mut count: u64 = 0;
    for (i, means) in meant.iter().enumerate() {
        if means.counts && is_behind(log.get(i), tenure) {
            count = count.saturating_add(1);
        }
    }
    count
}

fn is_behind(entry: Option<&Entry>, place: u64) -> bool {
    match entry {
        Some(Entry::Own { tenure, .. }) => *tenure == place,
        _ => false,
    }
}

fn is_end(entry: &Entry) -> bool {
    match entry {
        Entry::Own { note, .. } => !matches!(note, Note::Next(_)),
        _ => false,
    }
}
