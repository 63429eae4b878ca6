//! The traps of a log, a row each: entries, and how each of them stands, told by a sign.

use crate::expectations::expect_told;
use rx_heap::Heap;
use rx_log::{Entry, Holder, Rule, Standing, Total};
use rx_note::{Item, Note, Text};
use std::test::Fail;

// The span of all rows.
const SPAN: u64 = 4;

/// An entry of a row.
#[derive(Clone, Copy)]
enum Put {
    /// A tenure of a node, by a run, with its base and how many items it tells.
    Tenure(u64, u64, u64, u64),
    /// The same, that tells that the log has ended.
    Ended(u64, u64, u64, u64),
    /// An item behind a tenure, with its number.
    Item(u64, u64),
    /// The end behind a tenure, with its number.
    Done(u64, u64),
    /// An item of somebody who knows nothing of tenures.
    Foreign,
}

use Put::{Done, Ended, Foreign, Item as Own, Tenure};

/// A row: how many entries are not known, those that are, and the signs: `o` a tenure that counts, `-` what doesn't, a digit an
/// item with its place, `.` the end, `|` what counts behind it, `?` what counts where nobody knows what came before.
struct Row {
    name: &'static str,
    begun: u64,
    puts: &'static [Put],
    told: &'static str,
}

const ROWS: &[Row] = &[
    Row {
        name: "a_copy_counts_once",
        begun: 0,
        puts: &[
            Tenure(1, 1, 0, 0),
            Own(1, 1),
            Own(1, 1),
            Own(1, 2),
            Own(1, 1),
        ],
        told: "o0-1-",
    },
    Row {
        name: "what_overtakes_a_lost_one",
        begun: 0,
        puts: &[
            Tenure(1, 1, 0, 0),
            Own(1, 2),
            Own(1, 3),
            Own(1, 1),
            Own(1, 2),
        ],
        told: "o--01",
    },
    Row {
        name: "late_behind_a_newer_tenure",
        begun: 0,
        puts: &[
            Tenure(1, 1, 0, 0),
            Own(1, 1),
            Tenure(1, 1, 2, 1),
            Own(1, 2),
            Own(3, 1),
        ],
        told: "o0o-1",
    },
    Row {
        name: "late_copy_of_the_first_tenure",
        begun: 0,
        puts: &[
            Tenure(1, 1, 0, 0),
            Tenure(1, 1, 1, 0),
            Tenure(1, 1, 0, 0),
            Own(2, 1),
        ],
        told: "oo-0",
    },
    Row {
        name: "late_copy_of_the_present_tenure",
        begun: 0,
        puts: &[Tenure(1, 1, 0, 0), Own(1, 1), Tenure(1, 1, 0, 0), Own(1, 2)],
        told: "o0-1",
    },
    Row {
        name: "a_void_tenure_was_not_read_either",
        begun: 0,
        puts: &[
            Tenure(1, 1, 0, 0),
            Tenure(1, 1, 0, 0),
            Tenure(1, 1, 1, 0),
            Tenure(1, 1, 3, 0),
            Own(4, 1),
        ],
        told: "o--o0",
    },
    Row {
        name: "two_machines_of_one_node",
        begun: 0,
        puts: &[
            Tenure(1, 1, 0, 0),
            Tenure(1, 2, 1, 0),
            Own(1, 1),
            Own(2, 1),
            Tenure(1, 1, 4, 1),
            Own(2, 2),
        ],
        told: "oo-0o-",
    },
    Row {
        name: "a_tenure_of_another_node_closes_nothing",
        begun: 0,
        puts: &[
            Tenure(1, 1, 0, 0),
            Tenure(2, 1, 0, 0),
            Own(1, 1),
            Own(2, 1),
            Own(1, 2),
        ],
        told: "oo012",
    },
    Row {
        name: "a_new_node_makes_none_forgotten_within_a_span",
        begun: 0,
        puts: &[
            Tenure(1, 1, 0, 0),
            Foreign,
            Foreign,
            Tenure(2, 1, 3, 2),
            Own(1, 1),
        ],
        told: "o01o2",
    },
    Row {
        name: "a_note_a_span_behind_its_tenure",
        begun: 0,
        puts: &[
            Tenure(1, 1, 0, 0),
            Foreign,
            Foreign,
            Foreign,
            Own(1, 1),
            Own(1, 2),
        ],
        told: "o0123-",
    },
    Row {
        name: "a_tenure_a_span_behind_its_base",
        begun: 0,
        puts: &[
            Foreign,
            Foreign,
            Foreign,
            Tenure(1, 1, 0, 0),
            Tenure(2, 1, 0, 0),
            Own(4, 1),
            Own(5, 1),
        ],
        told: "012o-3-",
    },
    Row {
        name: "nothing_stands_where_it_says",
        begun: 0,
        puts: &[Own(0, 1), Own(2, 1), Foreign, Own(3, 1), Own(9, 1)],
        told: "--0--",
    },
    Row {
        name: "a_number_of_nothing",
        begun: 0,
        puts: &[
            Tenure(1, 1, 0, 0),
            Own(1, 0),
            Own(1, 18_446_744_073_709_551_615),
            Own(1, 1),
        ],
        told: "o--0",
    },
    Row {
        name: "behind_the_end",
        begun: 0,
        puts: &[
            Tenure(1, 1, 0, 0),
            Own(1, 1),
            Done(1, 2),
            Own(1, 3),
            Foreign,
        ],
        told: "o0.||",
    },
    Row {
        name: "an_end_far_back",
        begun: 2,
        puts: &[
            Foreign,
            Foreign,
            Foreign,
            Foreign,
            Foreign,
            Foreign,
            Foreign,
            Foreign,
            Foreign,
            Ended(1, 1, 10, 1),
            Own(12, 1),
        ],
        told: "?????????o|",
    },
    Row {
        name: "a_claim_and_what_stands_behind_its_base",
        begun: 2,
        puts: &[
            Foreign,
            Foreign,
            Foreign,
            Foreign,
            Foreign,
            Foreign,
            Foreign,
            Foreign,
            Foreign,
            Tenure(1, 1, 10, 4),
            Own(12, 1),
        ],
        told: "?????????o5",
    },
    Row {
        name: "a_claim_too_near_the_beginning",
        begun: 2,
        puts: &[
            Foreign,
            Foreign,
            Foreign,
            Foreign,
            Foreign,
            Foreign,
            Foreign,
            Tenure(1, 1, 9, 4),
            Own(10, 1),
        ],
        told: "???????o?",
    },
    Row {
        name: "a_claim_of_more_items_than_entries",
        begun: 2,
        puts: &[
            Foreign,
            Foreign,
            Foreign,
            Foreign,
            Foreign,
            Foreign,
            Foreign,
            Foreign,
            Tenure(1, 1, 10, 11),
            Own(11, 1),
        ],
        told: "????????o?",
    },
    Row {
        name: "a_claim_is_believed_once",
        begun: 0,
        puts: &[
            Foreign,
            Tenure(1, 1, 1, 7),
            Own(2, 1),
            Ended(1, 1, 3, 9),
            Own(4, 1),
        ],
        told: "0o1o2",
    },
];

// Hands the table out, so that what goes over it is proved without its rows.
fn rows_table() -> &'static [Row] {
    ROWS
}

#[test]
fn traps_of_a_log(rt: HostRuntime) -> Result<(), Fail> {
    let heap = Heap::unlimited(rt.alloc());
    for row in rows_table() {
        let told = signs_of(&heap, row)?;
        expect_told(&rt, told.as_slice(), row.told, row.name);
    }
    Ok(())
}

fn signs_of(heap: &Heap, row: &Row) -> Result<Vec<u8, Heap>, Fail> {
    let mut rule = Rule::new(heap.clone()?, SPAN, row.begun)?;
    let mut told = Vec::new(heap.clone()?);
    for put in row.puts {
        told.push(sign_behind(heap, &mut rule, *put)?)?;
    }
    Ok(told)
}

// The sign of what is put behind those before it.
fn sign_behind(heap: &Heap, rule: &mut Rule, put: Put) -> Result<u8, Fail> {
    let entry = entry_of(heap, put)?;
    let standing = rule.step(&entry)?;
    Ok(sign_of(&entry, standing))
}

fn entry_of(heap: &Heap, put: Put) -> Result<Entry, Fail> {
    Ok(match put {
        Tenure(node, run, base, items) => tenure(node, run, base, items, false),
        Ended(node, run, base, items) => tenure(node, run, base, items, true),
        Own(tenure, number) => Entry::Own {
            tenure,
            number,
            note: Note::Next(Item::new(text(heap)?)),
        },
        Done(tenure, number) => Entry::Own {
            tenure,
            number,
            note: Note::Completed,
        },
        Foreign => Entry::Foreign { text: text(heap)? },
    })
}

fn tenure(node: u64, run: u64, base: u64, items: u64, ended: bool) -> Entry {
    Entry::Tenure {
        holder: Holder { node, run },
        base,
        total: Total { items, ended },
    }
}

fn text(heap: &Heap) -> Result<Text, Fail> {
    Ok(Text::new(heap.clone()?, b"text")?)
}

/// The sign of how an entry stands.
pub(crate) fn sign_of(entry: &Entry, standing: Standing) -> u8 {
    match (standing, standing.place()) {
        (Standing::Void, _) => b'-',
        (Standing::Opens, _) => b'o',
        (Standing::Counts { before: None, .. }, _) => b'?',
        (Standing::Counts { .. }, None) => b'|',
        (Standing::Counts { .. }, Some(place)) => match entry {
            Entry::Own {
                note: Note::Completed,
                ..
            } => b'.',
            _ => b'0'.saturating_add(u8::try_from(place).unwrap_or(0)),
        },
    }
}
