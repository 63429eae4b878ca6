// What is seen, as one object of JSON. Names are of letters, digits and hyphens, and nothing else in it is a text.

use crate::crowd::crowd_look::CrowdLook;
use crate::crowd::door_look::DoorLook;
use crate::pieces::{put, put_number};
use crate::words::{end_word, errors_word, kind_word, put_strategy};
use rx_config::SubjectConfig;
use rx_heap::{Heap, Memory};
use rx_http::Epoch;
use rx_hub::{ObserverLook, SubjectEnd, SubjectLook};

/// Puts what was seen of the connections and of each subject.
pub(crate) fn put_stats(
    page: &mut Vec<u8, Heap>,
    epoch: &Epoch,
    crowd: CrowdLook,
    subjects: &[SubjectConfig],
    looks: &[Option<SubjectLook>],
) -> Result<(), Memory> {
    put(page, b"{\"epoch\":\"")?;
    put(page, epoch.as_bytes())?;
    put_door(page, b"\",\"connections\":{\"sessions\":", crowd.sessions)?;
    put_door(page, b",\"http\":", crowd.http)?;
    put(page, b"},\"subjects\":[")?;
    let mut before = b"".as_slice();
    for (subject, look) in subjects.iter().zip(looks.iter()) {
        put(page, before)?;
        put_subject(page, subject, look)?;
        before = b",".as_slice();
    }
    put(page, b"]}\n")
}

fn put_door(page: &mut Vec<u8, Heap>, before: &[u8], door: DoorLook) -> Result<(), Memory> {
    put(page, before)?;
    put_number(page, b"{\"open\":", door.open)?;
    put_number(page, b",\"accepted\":", door.accepted)?;
    put(page, b"}")
}

fn put_subject(
    page: &mut Vec<u8, Heap>,
    subject: &SubjectConfig,
    look: &Option<SubjectLook>,
) -> Result<(), Memory> {
    put(page, b"{\"name\":\"")?;
    put(page, subject.name.as_bytes())?;
    put(page, b"\",\"kind\":\"")?;
    put(page, kind_word(&subject.rules.kind))?;
    put(page, b"\"")?;
    match look {
        Some(look) => put_look(page, subject, look)?,
        None => put(page, b",\"gone\":true")?,
    }
    put(page, b"}")
}

fn put_look(
    page: &mut Vec<u8, Heap>,
    subject: &SubjectConfig,
    look: &SubjectLook,
) -> Result<(), Memory> {
    put(page, b",\"end\":")?;
    put_end(page, look.end)?;
    put_number(page, b",\"items\":", u64::from(look.items))?;
    put_number(page, b",\"joins\":", u64::from(look.joins))?;
    put_number(page, b",\"refused\":", look.misses)?;
    if let Some(budget) = &subject.budget {
        put_number(page, b",\"bytes\":", look.bytes)?;
        put_number(page, b",\"budget\":", budget.bytes())?;
    }
    put_observers(page, &look.observers)
}

fn put_observers(
    page: &mut Vec<u8, Heap>,
    observers: &Vec<ObserverLook, Heap>,
) -> Result<(), Memory> {
    put(page, b",\"observers\":[")?;
    let mut before = b"".as_slice();
    for observer in observers {
        put(page, before)?;
        put_observer(page, observer)?;
        before = b",".as_slice();
    }
    put(page, b"]")
}

fn put_observer(page: &mut Vec<u8, Heap>, observer: &ObserverLook) -> Result<(), Memory> {
    put_number(page, b"{\"who\":", u64::from(observer.who))?;
    put(page, b",\"strategy\":\"")?;
    put_strategy(page, observer.strategy)?;
    put(page, b"\",\"errors\":\"")?;
    put(page, errors_word(observer.errors))?;
    put_number(page, b"\",\"waiting\":", observer.waiting as u64)?;
    put_number(page, b",\"owed\":", u64::from(observer.owed))?;
    put(page, b"}")
}

// How it ended; `null` where it has not.
fn put_end(page: &mut Vec<u8, Heap>, end: SubjectEnd) -> Result<(), Memory> {
    if end == SubjectEnd::Open {
        return put(page, b"null");
    }
    put(page, b"\"")?;
    put(page, end_word(end))?;
    put(page, b"\"")
}
