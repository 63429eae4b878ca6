// What is seen, as plain lines: one for the server, and for each subject one, with one for each of its observers behind it. Each line but
// the first begins with the name of its subject, so that `grep` picks one.

use crate::crowd::crowd_look::CrowdLook;
use crate::crowd::door_look::DoorLook;
use crate::pieces::{put, put_number};
use crate::words::{end_word, errors_word, kind_word, put_strategy, waiting_in};
use rx_config::SubjectConfig;
use rx_heap::{Heap, Memory};
use rx_http::Epoch;
use rx_hub::{ObserverLook, SubjectLook};

/// Puts what was seen of the connections and of each subject.
pub(crate) fn put_lines(
    page: &mut Vec<u8, Heap>,
    epoch: &Epoch,
    crowd: CrowdLook,
    subjects: &[SubjectConfig],
    looks: &[Option<SubjectLook>],
) -> Result<(), Memory> {
    put(page, b"epoch ")?;
    put(page, epoch.as_bytes())?;
    put_door(page, b" sessions=", crowd.sessions)?;
    put_door(page, b" http=", crowd.http)?;
    put(page, b"\n")?;
    for (subject, look) in subjects.iter().zip(looks.iter()) {
        put_subject(page, subject, look)?;
    }
    Ok(())
}

// How many connections are open, of how many that were accepted.
fn put_door(page: &mut Vec<u8, Heap>, before: &[u8], door: DoorLook) -> Result<(), Memory> {
    put_number(page, before, door.open)?;
    put_number(page, b"/", door.accepted)
}

fn put_subject(
    page: &mut Vec<u8, Heap>,
    subject: &SubjectConfig,
    look: &Option<SubjectLook>,
) -> Result<(), Memory> {
    put(page, subject.name.as_bytes())?;
    put(page, b" ")?;
    put(page, kind_word(&subject.rules.kind))?;
    match look {
        Some(look) => put_look(page, subject, look),
        None => put(page, b" gone\n"),
    }
}

fn put_look(
    page: &mut Vec<u8, Heap>,
    subject: &SubjectConfig,
    look: &SubjectLook,
) -> Result<(), Memory> {
    put(page, b" ")?;
    put(page, end_word(look.end))?;
    put_number(page, b" items=", u64::from(look.items))?;
    put_number(page, b" joins=", u64::from(look.joins))?;
    put_number(page, b" refused=", look.misses)?;
    put_number(page, b" observers=", look.observers.len() as u64)?;
    put_number(page, b" waiting=", waiting_in(look))?;
    if let Some(budget) = &subject.budget {
        put_number(page, b" bytes=", look.bytes)?;
        put_number(page, b"/", budget.bytes())?;
    }
    put(page, b"\n")?;
    for observer in &look.observers {
        put_observer(page, subject, observer)?;
    }
    Ok(())
}

fn put_observer(
    page: &mut Vec<u8, Heap>,
    subject: &SubjectConfig,
    observer: &ObserverLook,
) -> Result<(), Memory> {
    put(page, subject.name.as_bytes())?;
    put_number(page, b" observer ", u64::from(observer.who))?;
    put(page, b" ")?;
    put_strategy(page, observer.strategy)?;
    put(page, b" ")?;
    put(page, errors_word(observer.errors))?;
    put_number(page, b" waiting=", observer.waiting as u64)?;
    put_number(page, b" owed=", u64::from(observer.owed))?;
    put(page, b"\n")
}
