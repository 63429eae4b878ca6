use rx_hub::{ObserverLook, SubjectLook};
use rx_note::Kind;

// How many bytes a subject has for an item that waits, beside those of its text.
const ITEM: u64 = 32;

/// How much may wait for an observer of a subject.
#[derive(Clone, Copy, Debug)]
pub(crate) struct Bound {
    // How many bytes.
    most: u64,
    // How many of the last items the subject keeps at most, whoever waits for them.
    kept: usize,
}

impl Bound {
    /// So many bytes, where 0 is no bound, at a subject of this kind.
    pub(crate) fn of(waiting: u32, kind: &Kind) -> Bound {
        Bound {
            most: if waiting == 0 {
                u64::MAX
            } else {
                u64::from(waiting)
            },
            kept: kept_by(kind),
        }
    }

    /// For which observer more waits, if for any.
    pub(crate) fn exceeded(&self, look: &SubjectLook) -> Option<u32> {
        let backlog = look.backlog?;
        let items = items_of(look.observers.as_slice(), backlog.who).saturating_sub(self.kept);
        let bytes = ITEM
            .saturating_mul(items as u64)
            .saturating_add(backlog.bytes);
        if bytes > self.most {
            Some(backlog.who)
        } else {
            None
        }
    }
}

// How many of the last items a kind keeps at most. By an age alone it may keep all.
fn kept_by(kind: &Kind) -> usize {
    match kind {
        Kind::Publish => 0,
        Kind::Behavior(_) | Kind::Async => 1,
        Kind::Replay {
            count: Some(count),
            ..
        } => *count as usize,
        Kind::Replay { count: None, .. } => usize::MAX,
    }
}

// How many notes wait for an observer.
fn items_of(observers: &[ObserverLook], who: u32) -> usize {
    for observer in observers {
        if observer.who == who {
            return observer.waiting;
        }
    }
    0
}
