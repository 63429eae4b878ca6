//! A desk that begins items: how many go together, and whether their responses come in their order.
use crate::open_sessions::Sips;
use rx_heap::Heap;
use rx_note::{Note, Policy};
use rx_proto::{Name, Response, Version, Word};
use rx_session::{Desk, Follow};
use test_kit::Told;

/// Refuses an item of the text `e` as ended and answers each other note alike, keeps a writer or gives it back, and notes what it
/// was asked. So many items may be begun at once.
#[derive(Drop)]
pub(crate) struct Scribe<'a> {
    heap: &'a Heap,
    pub(crate) asked: Told,
    takes: bool,
    room: u64,
    // The responses that are still to come, a sign each, and how many of them came.
    pub(crate) begun: Told,
    pub(crate) answered: usize,
    // How many items were begun behind others, and before how many at most.
    pub(crate) behind: u64,
    pub(crate) most: u64,
}

impl<'a> Scribe<'a> {
    fn note(&mut self, note: &Note) -> Response {
        self.asked.put(match note {
            Note::Next(_) => b'n',
            Note::Completed => b'c',
            Note::Failed(_) => b'f',
        });
        match note {
            Note::Next(item) if item.text.as_bytes() == b"e".as_slice() => {
                Response::Refused(Word::Ended)
            }
            _ => Response::Done,
        }
    }
}

impl<'a> Desk<Sips> for Scribe<'a> {
    ghost knows = { λ desk name. Unit {0} };

    ghost emits = { λ old name note response new. Unit {0} };

    ghost waits = { λ base begun now. Unit {0} };

    ghost follows = { λ old name policy version writer answer new. Unit {0} };

    fn memory(&self, _name: &Name) -> Option<&Heap> {
        Some(self.heap)
    }

    fn emit(&mut self, _name: &Name, note: Note) -> Response {
        self.note(&note)
    }

    fn begin(&mut self, _name: &Name, note: Note, behind: u32) -> Result<(), Note> {
        let behind = u64::from(behind);
        let waiting = self.begun.len().saturating_sub(self.answered) as u64;
        if behind != waiting || behind >= self.room {
            return Err(note);
        }
        if behind > 0 {
            self.behind = self.behind.saturating_add(1);
        }
        self.most = self.most.max(behind.saturating_add(1));
        let response = self.note(&note);
        self.begun.put(match response {
            Response::Done => b'.',
            _ => b'e',
        });
        Ok(())
    }

    fn answer(&mut self) -> Response {
        let sign = self.begun.as_bytes().get(self.answered).copied();
        self.answered = self.answered.saturating_add(1);
        match sign {
            Some(b'e') => Response::Refused(Word::Ended),
            _ => Response::Done,
        }
    }

    fn follow(
        &mut self,
        _name: &Name,
        _policy: Policy,
        version: Version,
        writer: Sips,
    ) -> Follow<Sips> {
        self.asked.put(match version {
            Version::One => b's',
            Version::Two => b't',
        });
        self.asked.put_digit(writer.held.len());
        if self.takes {
            Follow::Taken
        } else {
            Follow::Back(Response::Refused(Word::Full), writer)
        }
    }
}

pub(crate) fn writing<'a>(heap: &'a Heap, takes: bool, room: u64) -> Scribe<'a> {
    Scribe {
        heap,
        asked: Told::new(),
        takes,
        room,
        begun: Told::new(),
        answered: 0,
        behind: 0,
        most: 0,
    }
}
