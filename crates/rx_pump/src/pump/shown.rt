// Who wants a look brings the room for it, so that the pump takes no memory. The lock is held only while one look is filled or
// moved, and nobody waits for anything else meanwhile: the pump waits for no reader longer than that, nor a reader for it.
ghost use Rattle.std.specs.Prelude.{◌≡◌, ◌≤◌, length, None, vec_capacity, IfSome, IsSome};
ghost use Rattle.rx_history.specs.Histories.{History};
ghost use Rattle.rx_hub.specs.Hubs.{StandsFor};
ghost use Rattle.rx_hub.specs.Looks.{IsSeen};

use rx_heap::{Heap, Memory};
use rx_hub::{Backlog, Hub, NoObserver, SubjectLook};
use std::sync::atomic::{AtomicBool, AtomicU64, Ordering};
use std::sync::{Arc, Mutex, Wait};

// Who watches is shown the subject once more behind so many more items at least.
const LEAST: u64 = 256;

/// What another thread sees of the subject of a pump and its observers. One that asks wants a look, makes a call that changes
/// nothing, and takes the look once that call was replied to; beside it one may watch, which makes no call. One reader at a time of
/// each: of two that want a look at once only one takes it. Nothing is promised of it.
#[derive(Drop)]
pub struct Shown {
    asked: Slot,
    watched: Slot,
    // Who watches is shown the end of the subject, though no letter comes behind that.
    is_end_shown: AtomicBool,
    // At how many items who watches is shown the subject once more, though the look before was not taken: else a burst between two
    // looks, behind which nothing comes, would never be seen.
    next: AtomicU64,
    alloc: Heap,
}

pub type SharedLook = Arc<Shown, Heap>;

// Whether a look is wanted, and where it is to be written.
#[derive(Drop)]
struct Slot {
    is_wanted: AtomicBool,
    page: Mutex<Page>,
}

// Where a look is to be written, and one that was.
#[derive(Drop)]
struct Page {
    blank: Option<SubjectLook>,
    filled: Option<SubjectLook>,
}

impl Shown {
    // Nobody asks yet. Who watches is shown all from the first letter on.
    pub(crate) fn shared(alloc: Heap) -> Result<SharedLook, Memory> {
        let blank = SubjectLook::new(alloc.clone()?)?;
        let shown = Shown {
            asked: Slot::new(None),
            watched: Slot::new(Some(blank)),
            is_end_shown: AtomicBool::new(false),
            next: AtomicU64::new(LEAST),
            alloc: alloc.clone()?,
        };
        Ok(Arc::new(alloc, shown)?)
    }

    /// Wants a look: the pump fills it once it has handled the next letter, before it replies. One that was not taken is let go.
    ///
    /// # Errors
    ///
    /// `Memory`: there was none for a row of each observer, and no look is wanted.
    pub fn want<R: Wait>(&self, rt: &R) -> Result<(), Memory> {
        let _old = self.asked.want(rt, SubjectLook::new(self.alloc.clone()?)?);
        Ok(())
    }

    /// The look that was wanted, once it is filled. None before, and where it was taken already.
    pub fn take<R: Wait>(&self, rt: &R) -> Option<SubjectLook> {
        self.asked.take(rt)
    }

    /// What is seen by who watches: the look that was filled since the last one, with its backlog, where the pump handled a letter
    /// since; then the next is wanted. So a subject at which nothing happens costs nothing. A look is of the first letter since, or of a
    /// later one: it is at most as many items old as it has notes waiting, or 256. None too where there was no memory.
    pub fn watch<R: Wait>(&self, rt: &R) -> Option<SubjectLook> {
        if self.watched.is_wanted() {
            return None;
        }
        let Ok(alloc) = self.alloc.clone() else {
            return None;
        };
        match SubjectLook::new(alloc) {
            Ok(blank) => self.watched.want(rt, blank),
            Err(_) => None,
        }
    }

    // Fills the looks that are wanted.
    #[inline(always)] // behind each letter
    pub(crate) fn fill<R: Wait>(&self, rt: &R, hub: &Hub) {
        if self.asked.is_wanted() {
            self.asked.fill(rt, hub, None);
        }
        let is_new = hub.is_ended() && !self.is_end_shown.load(Ordering::SeqCst);
        let is_due = u64::from(hub.items()) >= self.next.load(Ordering::SeqCst);
        if is_new || is_due || self.watched.is_wanted() {
            self.fill_watched(rt, hub);
        }
    }

    // Only one that is watched has the backlog, for which the pump goes over all that waits for an observer: so the next is due behind
    // as many items.
    #[inline(never)] // rare
    fn fill_watched<R: Wait>(&self, rt: &R, hub: &Hub) {
        let backlog = hub.backlog();
        let next = u64::from(hub.items()).saturating_add(LEAST.max(waiting_by(hub, &backlog)));
        self.next.store(next, Ordering::SeqCst);
        self.is_end_shown.store(hub.is_ended(), Ordering::SeqCst);
        self.watched.fill(rt, hub, backlog);
    }
}

// How many notes wait for the observer of a backlog.
fn waiting_by(hub: &Hub, backlog: &Option<Backlog>) -> u64 {
    match backlog {
        Some(backlog) => match hub.waiting_of(backlog.who) {
            Ok(waiting) => waiting as u64,
            Err(NoObserver) => 0,
        },
        None => 0,
    }
}

impl Slot {
    // A look is wanted if there is room for it.
    fn new(blank: Option<SubjectLook>) -> Slot {
        Slot {
            is_wanted: AtomicBool::new(blank.is_some()),
            page: Mutex::new(Page {
                blank,
                filled: None,
            }),
        }
    }

    // Wants a look, which is to be written here. The one that was filled before comes back, if one was.
    fn want<R: Wait>(&self, rt: &R, blank: SubjectLook) -> Option<SubjectLook> {
        let mut page = self.page.lock(rt);
        let filled = page.filled.take();
        page.blank = Some(blank);
        drop(page);
        self.is_wanted.store(true, Ordering::SeqCst);
        filled
    }

    // The look that was wanted, once it is filled.
    fn take<R: Wait>(&self, rt: &R) -> Option<SubjectLook> {
        self.page.lock(rt).filled.take()
    }

    // Whether one is wanted that the pump did not begin to fill.
    fn is_wanted(&self) -> bool {
        self.is_wanted.load(Ordering::SeqCst)
    }

    // Fills the look, that which was filled already anew. Whoever wants one meanwhile has it filled behind the next letter.
    #[inline(never)] // rare
    fn fill<R: Wait>(&self, rt: &R, hub: &Hub, backlog: Option<Backlog>) {
        self.is_wanted.store(false, Ordering::SeqCst);
        let mut page = self.page.lock(rt);
        page.clear();
        page.fill(hub, backlog);
    }
}

impl Page {
    // Has a look that was filled written anew, unless there is room for another.
    fn clear(&mut self) {
        let filled = self.filled.take();
        if self.blank.is_none() {
            self.blank = filled;
        }
    }

    // Writes what is seen of a hub, and this backlog, where a look is to be written, if anywhere.
    fn fill(&mut self, hub: &Hub, backlog: Option<Backlog>)
        ensures none { self.old.blank ≡ None → self.new ≡ self.old }
        ensures seen { IfSome self.old.blank (λ _. IfSome self.new.filled (λ look. (H : History) → StandsFor hub.now.state H → IsSeen hub.now.state.rules H look)) }
        ensures room { IfSome self.old.blank (λ blank. length hub.now.state.observers ≤ vec_capacity blank.observers → IsSome self.new.filled) }
    {
        let Some(mut look) = self.blank.take() else {
            return;
        };
        look.backlog = backlog;
        self.filled = match hub.look(&mut look) {
            Ok(()) => Some(look),
            Err(_) => None,
        };
    }
}
